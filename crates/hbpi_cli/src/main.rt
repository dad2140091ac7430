//! The program `hbpi FILE WORDS`: the crate hbpi over the words, the standard streams and the file of this process.
//!
//! Nothing is claimed of it beyond what `hbpi` claims: it ends with the status of the run.
#![tactic(auto)]

use std::process::ExitCode;

fn main(rt: HostRuntime) -> ExitCode {
    ExitCode::from(hbpi::run_process(&rt, &rt).code())
}
