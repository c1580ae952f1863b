//! Reads a committee from standard input, and prints its members and their quorums.
#![tactic(auto)]

use std::process::ExitCode;

fn main(rt: HostRuntime) -> ExitCode {
    committee_core::on_host(&rt)
}
