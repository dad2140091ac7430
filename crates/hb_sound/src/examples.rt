//! Files that are sound, as examples of the definitions.

ghost use Rattle.std.specs.Prelude.{◌≡◌, [], ◌∷◌, Some};
ghost use Rattle.hb_ops.specs.Files.{live_page};
ghost use Rattle.hb_ops.specs.Operations.{effect_of};
ghost use Rattle.hb_ops.specs.Sound.{IsSound};
ghost use Rattle.hb_sound.specs.Examples.{small_file, lost_file, tower_file};
ghost use Rattle.hb_sound.specs.LateFile.{LateResponsible, LateWalks, late_aside_posted, late_file, late_posting};
ghost use Rattle.hb_sound.specs.LawsOfOperations.{MayBeDone};
ghost use Rattle.hb_sound.specs.PointWalks.{IsResponsible, IsWholeWalk};

/// A file of two levels is sound. From its root, and from the page beside it, a walk leads to the
/// page that is responsible for a point.
pub fn a_file_of_two_levels()
    ensures sound { IsSound small_file }
    ensures left { IsResponsible small_file (7 ∷ []) 2 }
    ensures right { IsResponsible small_file (100 ∷ []) 3 }
    ensures down { IsWholeWalk small_file (100 ∷ []) 1 (3 ∷ []) 3 }
    ensures across { IsWholeWalk small_file (100 ∷ []) 2 (3 ∷ []) 3 }
{}

/// A file is sound where each posting was lost: the root names the first page of records alone, and
/// the walk to the last one goes through all pages between them.
pub fn a_file_of_lost_postings()
    ensures sound { IsSound lost_file }
    ensures walk { IsWholeWalk lost_file (300 ∷ []) 1 (2 ∷ 3 ∷ 4 ∷ 5 ∷ []) 5 }
    ensures responsible { IsResponsible lost_file (300 ∷ []) 5 }
{}

/// A file of twelve levels, with one page each, is sound, and the walk from its root goes through all
/// of them.
pub fn a_file_of_twelve_levels()
    ensures sound { IsSound tower_file }
    ensures walk { IsWholeWalk tower_file (7 ∷ []) 1 (2 ∷ 3 ∷ 4 ∷ 5 ∷ 6 ∷ 7 ∷ 8 ∷ 9 ∷ 10 ∷ 11 ∷ 12 ∷ []) 12 }
    ensures responsible { IsResponsible tower_file (7 ∷ []) 12 }
{}

/// A file of three levels is sound where postings are late on each of them, and one page of records has
/// two parents. From its root ten walks lead to the pages that are responsible for their points.
pub fn a_file_of_late_postings()
    ensures sound { IsSound late_file }
    ensures walks { LateWalks }
    ensures responsible { LateResponsible }
{}

/// One of these postings may be done, and its page then names the page that it didn't know of, between
/// two leaves of the old name.
pub fn a_late_posting_comes()
    ensures may { MayBeDone late_file late_posting }
    ensures posted { live_page (effect_of late_file late_posting) 4 ≡ Some late_aside_posted }
{}
