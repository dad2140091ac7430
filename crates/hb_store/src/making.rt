//! What an allowed operation makes.
ghost use Rattle.hb_store.specs.Making.{HaveFittingParts, MakesGoodPages, MakesWritablePages, OperationLaws};

use hb_frag::laws::{normal_says_the_same, parts_are_stretches};
use hb_ops::changed_pages_are_well_made;
use hb_page_codec::laws::page_within_capacity_has_spelling;
use hb_space::laws::whole_space_holds_every_point;

/// The pages that an allowed operation makes can be written, and keep the rules that speak of each alone where the boxes
/// match. The paths and the cuts of such an operation have their places in the log. So a change of good pages is good for the
/// file afterwards; and a page that is in memory after its commit was there before, or the operation made it.
pub fn what_is_made_can_be_written()
    ensures writable { MakesWritablePages }
    ensures pages { MakesGoodPages }
    ensures parts { HaveFittingParts }
    ensures operations { OperationLaws }
{
    changed_pages_are_well_made();
    page_within_capacity_has_spelling();
    parts_are_stretches();
    normal_says_the_same();
    whole_space_holds_every_point();
}
