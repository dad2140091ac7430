//! What follows of spellings from their definitions alone. Each law is the contract of a function that
//! does nothing: a caller learns it by the call.

ghost use Rattle.std.specs.Prelude.{◌≡◌, ◌++◌, ◌≤◌, ◌<◌, ℕ, List, length};
ghost use Rattle.hb_space.specs.declared.form.TheConstants.{GROUP, KMAX};
ghost use Rattle.hb_log_codec.specs.ExactFields.{ExactFields};
ghost use Rattle.hb_log_codec.specs.Groups.{FitsGroup, Logged, SpellsGroups, group_bytes};
ghost use Rattle.hb_log_codec.specs.RecordGroups.{GroupsHaveParts};

use hb_page_codec::laws::{fields_are_read_exactly, spelling_law};

/// No group's spelling begins another's over as many attributes, so bytes spell one list of groups at most.
pub fn groups_are_read_in_one_way()
    ensures group { (k : ℕ) (x y : Logged) (r s : List ℕ) → FitsGroup k x → FitsGroup k y → group_bytes x ++ r ≡ group_bytes y ++ s → (x ≡ y) × (r ≡ s) }
    ensures list { (k : ℕ) (bytes : List ℕ) (xs ys : List Logged) → SpellsGroups k bytes xs → SpellsGroups k bytes ys → xs ≡ ys }
{
    spelling_law();
    fields_are_exact();
}

/// A group has its place in the log: it is never empty, and no longer than the longest that the log takes.
pub fn groups_are_short()
    ensures some { (g : Logged) → 0 < length (group_bytes g) }
    ensures short { (k : ℕ) (g : Logged) → k ≤ KMAX → FitsGroup k g → length (group_bytes g) ≤ GROUP }
{
    spelling_law();
}

/// A group with one page image, or none, is three parts that need not be put together to be written: its front, the bytes
/// of the page, and the operation.
pub fn groups_have_parts()
    ensures { GroupsHaveParts }
{}

/// The fields that groups share with pages are read exactly.
pub(crate) fn fields_are_exact()
    ensures { ExactFields }
{
    fields_are_read_exactly();
}
