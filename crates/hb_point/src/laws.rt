//! What follows of these rows. Each law is the contract of a function that does nothing: a caller
//! learns it by the call.

ghost use Rattle.hb_point.specs.Laws.{CommandsAreAllowed, CommandsHaveOneDeed, FullPagesAreHeavy, PutsAreAllowed, SplitsAreAllowed};

/// A command on a point may do its operation: the page of its row keeps the rules of a page alone, and
/// the row's own conditions are all that is wanted beside.
pub fn a_commands_operation_is_allowed()
    ensures { CommandsAreAllowed }
{}

/// A page that is split may be: it has no room for a record, so it weighs 6 or more, and the part that is
/// chosen may leave it.
pub fn a_full_page_may_be_split()
    ensures heavy { FullPagesAreHeavy }
    ensures allowed { SplitsAreAllowed }
{}

/// A record may be put into its half, where that has room for it.
pub fn a_record_may_join_its_half()
    ensures { PutsAreAllowed }
{}

/// A command on a point has one deed at a page.
pub fn a_command_has_one_deed()
    ensures { CommandsHaveOneDeed }
{}
