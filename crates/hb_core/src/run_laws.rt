//! The laws by which a run of steps goes on, by one call. The lemmas on runs, in `proofs/Facts/RunSteps.antt`,
//! take them.

ghost use Rattle.hb_core.specs.Runs.{RunningLaws};

use hb_steps::file_laws::files_stay_sound;
use hb_steps::keeping_laws::steps_keep_all;
use hb_steps::machine_laws::machines_stay_kept;
use hb_steps::progress_laws::images_have_prefixes;
use hb_store::bytes_open_by_parts;

/// A step keeps what every machine keeps, and files sound; a list of steps keeps all that is kept over a disk
/// that tells; and what a crash leaves there has a prefix of the order.
pub fn runs_go_on()
    ensures { RunningLaws }
{
    machines_stay_kept();
    files_stay_sound();
    steps_keep_all();
    images_have_prefixes();
    bytes_open_by_parts();
}
