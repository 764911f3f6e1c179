//! The program `nqs`: the daemon of a host, its clients, and the shepherds of its jobs.
//! `docs/running.md` tells how to run a site.
//!
//! `format DIR HOST`, `daemon DIR HOST TURNS`, `qsub|qstat|qdel|qmgr DIR HOST USER [WORD]..`,
//! `tick DIR HOST USER`, `shepherd DIR HOST ID START`.
#![tactic(auto)]

use nqs_cli::program;
use std::process::ExitCode;
use std::rt::HostRuntime;

fn main(rt: HostRuntime) -> ExitCode {
    program(&rt)
}
