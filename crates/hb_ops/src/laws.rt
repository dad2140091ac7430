//! What follows of operations from their definitions alone.

ghost use Rattle.hb_ops.specs.LawsOfContents.{ChangesMakeWell, DelStaysSound, DelTakesOne, LonePage, PutAddsOne, PutStaysSound};
ghost use Rattle.hb_ops.specs.Standing.{AbsenceIsContents, RecordsAreContents};

use hb_frag::laws::{normal_says_the_same, parts_are_stretches};

/// An allowed put adds exactly one record to the contents.
pub fn put_adds_one_record()
    ensures { PutAddsOne }
{}

/// An allowed delete takes exactly one record away from the contents.
pub fn delete_takes_one_record()
    ensures { DelTakesOne }
{}

/// In a file of one page no other page has a record, so there the two laws above hold of every
/// allowed put and delete.
pub fn lone_page_has_no_others()
    ensures { LonePage }
{}

/// An allowed put and an allowed delete leave a sound file sound.
pub fn puts_and_deletes_keep_a_file_sound()
    ensures put { PutStaysSound }
    ensures del { DelStaysSound }
{}

/// What a page of level 0 has at a point is what the contents of the file have there, where no other page has the point.
pub fn what_stands_is_in_the_contents()
    ensures there { RecordsAreContents }
    ensures absent { AbsenceIsContents }
{}

/// What an allowed operation makes of a page keeps the rules that speak of the page alone, and so does
/// the page that it makes.
pub fn changed_pages_are_well_made()
    ensures { ChangesMakeWell }
{
    parts_are_stretches();
    normal_says_the_same();
}
