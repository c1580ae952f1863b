//! Answers, for each line of standard input, what a text is as a value of a type that has a byte
//! form.
#![tactic(auto)]

use std::process::ExitCode;

fn main(rt: HostRuntime) -> ExitCode {
    judge_core::on_host(&rt)
}
