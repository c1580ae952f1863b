//! Times the calls of the collections, entry by entry.
#![tactic(auto)]

use std::process::ExitCode;

fn main(rt: HostRuntime) -> ExitCode {
    speed_core::on_host(&rt)
}
