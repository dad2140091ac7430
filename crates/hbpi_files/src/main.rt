//! A program of the gate that works on real files, in the folder where it is run.
//!
//! It calls the functions that `main` of hbpi_cli calls, over files of its own, and prints what came out. Beside each file
//! stands a disk in memory on which the same calls of `top` are made; behind each call every byte of the file has to be
//! that disk's. The stored text says what has to come, by the rules of docs/TEXT.md, docs/STEPS.md and docs/FORMAT.md.
//!
//! What a program can't see of a file: that a sync reaches the device, and so what is left when the power goes. A
//! `sync` that does nothing leaves this program's output as it is.
#![tactic(auto)]

mod beside;
mod edges;
mod failing;
mod lost;
mod making;
mod places;
mod story;

use std::io;

fn main(rt: HostRuntime) -> io::Result<()> {
    story::tell(&rt, &rt)?;
    places::tell(&rt)?;
    making::tell(&rt, &rt)?;
    failing::tell(&rt, &rt)?;
    edges::tell(&rt, &rt)?;
    println!(rt; "as this process was called")?;
    let status = hbpi::run_process(&rt, &rt).code();
    println!(rt; "status {status}")
}
