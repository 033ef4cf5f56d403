//! The program once more, for a second stored run: its network is a bad file, so it prints nothing and ends with status 3.
#![tactic(auto)]

use abrlab_host::run_here;
use std::process::ExitCode;

fn main(rt: HostRuntime) -> ExitCode {
    run_here(&rt, rt.stdout(), rt.stderr())
}
