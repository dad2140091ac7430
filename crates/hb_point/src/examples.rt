//! Rows that are worked out by hand. Each is the contract of a function that does nothing.

ghost use Rattle.hb_set.specs.declared.scripts.Line.{Line as OneLine};
ghost use Rattle.hb_activity.specs.Sights.{Sight};
ghost use Rattle.hb_point.specs.Examples.{DeletesByHand, InsertsByHand, LookupsByHand, PutsByHand, SplitsByHand, TakesLinesInOrder};

/// Of three lines, two of session 1 and one of session 2 between them: which line a session takes next.
pub fn a_session_takes_its_first_line_without_an_answer()
    ensures { TakesLinesInOrder }
{}

/// Inserts of a point that is there, and of points that aren't, at pages with room and without.
pub fn a_record_joins_a_page_with_room()
    ensures { (s : Sight) (line : OneLine) → InsertsByHand s line }
{}

/// Deletes of a point that is there, also where the page is thin then, and of one that isn't.
pub fn a_record_leaves_its_page()
    ensures { (s : Sight) (line : OneLine) → DeletesByHand s line }
{}

/// Lookups of a point that is there, and of one that isn't.
pub fn a_lookup_gives_the_body()
    ensures { (s : Sight) (line : OneLine) → LookupsByHand s line }
{}

/// A page of six records is split in two of three, where a page is free.
pub fn a_page_of_six_is_halved()
    ensures { (s : Sight) (line : OneLine) → SplitsByHand s line }
{}

/// A record goes into the half that directly holds its point.
pub fn a_record_goes_into_its_half()
    ensures { (s : Sight) (line : OneLine) → PutsByHand s line }
{}
