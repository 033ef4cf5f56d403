//! The program: it runs its words over real files and streams, and ends with the status of the run.
#![tactic(auto)]

use abrlab_host::run_here;
use std::process::ExitCode;

fn main(rt: HostRuntime) -> ExitCode {
    run_here(&rt, rt.stdout(), rt.stderr())
}
