//! That a step has one outcome, which the machine and the actor fix. Each law is the contract of a function
//! that does nothing: a caller learns it by the call.

ghost use Rattle.hb_steps.specs.DamageLaws.{DamageIsNamed, KeptStepIsOne, NoPageIsDamaged, StaysUndamaged};
ghost use Rattle.hb_steps.specs.OutcomeLaws.{AsideChangesNoFile, OutcomeIsOne, StateIsOne};

use hb_store::what_is_made_can_be_written;

/// Two steps of one actor from one machine say the same, and leave the lines, the answers, the stop and the
/// clock the same, unless memory was refused to one of them, its device failed or a page was damaged. So it
/// is over every disk. Over a disk that tells they also lead to machines that are one, with the same pages in
/// memory in the same order of use.
pub fn a_step_has_one_outcome()
    ensures outcome { OutcomeIsOne }
    ensures state { StateIsOne }
{
    what_is_made_can_be_written();
}

/// A step that want of memory, a fault of the device or a damaged page has turned aside answers its actor's
/// line `no memory` or `read fault`, drops the job that its worker has in work, or stops the machine. It
/// leaves the lines, the jobs that wait, the order, the files, the log, the dirty pages and what must stay in
/// memory as they were.
pub fn a_step_aside_changes_no_file()
    ensures { AsideChangesNoFile }
{}

/// Over a disk that tells no step meets a damaged page: each page that it asks for is one of the file, in
/// use, of the level and with the box that were asked for, and the first page of the free chain is free. So
/// nothing but a write that failed stops a machine.
pub fn no_page_is_damaged()
    ensures pages { NoPageIsDamaged }
    ensures stops { StaysUndamaged }
{}

/// Over any disk a step that stops a machine for a damaged page names the page that it wanted, or the head of
/// the free chain, page 0 where that has none; and a rule that was broken: 1 of a number that no page has, 2 of
/// a page that is free or of a head that isn't, 0, 3 to 6 or 10 of what was read; or the level, or the box.
pub fn damage_is_named()
    ensures { DamageIsNamed }
{}

/// Of a machine that keeps all that it should, two steps of one actor say the same and lead to machines that
/// are one, unless memory was refused to one of them or its device failed.
pub fn a_kept_step_is_one()
    ensures { KeptStepIsOne }
{
    what_is_made_can_be_written();
}
