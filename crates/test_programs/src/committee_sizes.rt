//! The report on a committee of each size there can be.
use crate::committees::{committee_of, write_line};
use crate::counting::most_faults;
use crate::devices::WHOLE;
use crate::session_trial::{is_right, read_session};
use std::alloc::{AllocError, Global};

/// The report on the committee of `n` members.
fn report_on(alloc: Global, n: u64) -> Result<String, AllocError> {
    let mut report = String::new(alloc);
    writeln!(report, "members {n}")?;
    for member in 0..n {
        write_line(&mut report, member)?;
    }
    let n3f1_faults = most_faults(3, n);
    let quorum = n.saturating_sub(n3f1_faults);
    writeln!(report, "N3f1 faults {n3f1_faults} quorum {quorum}")?;
    let n5f1_faults = most_faults(5, n);
    let large = n.saturating_sub(n5f1_faults);
    let small = n5f1_faults.saturating_mul(2).saturating_add(1);
    writeln!(
        report,
        "N5f1 faults {n5f1_faults} quorum {large} m-quorum {small}"
    )?;
    Ok(report)
}

/// How many bytes come at once, and how many of the report go.
fn steps(n: u64) -> &'static [(usize, usize)] {
    if n < 5 || n > 254 {
        &[(WHOLE, WHOLE), (1, WHOLE), (7, 1)]
    } else {
        &[(WHOLE, WHOLE), (100, 1000)]
    }
}

#[test]
fn a_committee_of_each_size_is_reported(rt: HostRuntime) {
    let alloc = rt.alloc();
    for n in 1..=256 {
        let (bytes, report) = (
            committee_of(alloc, n).expect(&rt, "memory"),
            report_on(alloc, n).expect(&rt, "memory"),
        );
        for (given, taken) in steps(n) {
            let mut wanted = read_session(&bytes, &report);
            wanted.input.step = *given;
            wanted.output.step = *taken;
            assert!(rt; is_right(alloc, &wanted) == Ok(true), "{n} {given} {taken}");
        }
    }
}
