//! What the program says of itself.
ghost use Rattle.std.specs.Prelude.{◌≡◌, ◌↔◌, Err, IfErr, OnOk, false, true};
ghost use Rattle.std.specs.Io.KnownBytes.{Appends};
ghost use Rattle.judge_core.specs.Help.{help_text, version_text};

use crate::error::Failure;
use program_io::{Watched, write_whole};
use std::io::Write;

/// What `--help` says.
const HELP: &str = "\
usage: judge, judge --number, judge types, judge --help, or judge --version

judge            answers the lines of standard input, a line each
judge --number   the same, each answer after the number of its line
judge types      names the types that have a canonical encoding
judge --help     says this
judge --version  says the version

TYPE RANGE.. BYTES                what the bytes are as a value of the type, with a range a length
build TYPE BYTES                  what a builder makes of the listed items, of equal ones the first
build-unique TYPE BYTES           the same, where equal ones are refused
position TYPE BYTES ITEM          where the item stands in the set
faults MODEL N                    the numbers of N members: n3f1, n5f1, or k=7 for 7f + 1
refute MODEL N F                  why F of N members can't be faulty
quorum MODEL N BYTES              whether a quorum of N members signed the certificate
conflict MODEL N BYTES BYTES      who signed both certificates, for different values
equivocation MODEL N BYTES BYTES  who signed both, for different decisions of one slot

weights MODEL WEIGHTS                            the numbers of the weights that are listed
weighted-quorum MODEL WEIGHTS BYTES              whether signers that weigh a quorum signed it
weighted-conflict MODEL WEIGHTS BYTES BYTES      who signed both, where quorums are by weight
weighted-equivocation MODEL WEIGHTS BYTES BYTES  the same, for different decisions of one slot
";

/// What `--version` says.
const VERSION: &str = "judge 2.0.0\n";

/// Writes what words and what lines the program takes, and flushes.
pub fn say_help<W: Write>(output: &mut Watched<W>) -> Result<(), Failure>
    ensures done { OnOk result
        (Appends (W.contents output.old.inner) (W.contents output.new.inner) help_text) }
    ensures failed { IfErr result (λ failure. failure ≡ Failure.WriteFailed) }
    ensures write_failed { output.old.failed ≡ false
        → ((result ≡ Err Failure.WriteFailed) ↔ (output.new.failed ≡ true)) }
{
    Ok(write_whole(output, HELP.as_bytes())?)
}

/// Writes the version, and flushes.
pub fn say_version<W: Write>(output: &mut Watched<W>) -> Result<(), Failure>
    ensures done { OnOk result
        (Appends (W.contents output.old.inner) (W.contents output.new.inner) version_text) }
    ensures failed { IfErr result (λ failure. failure ≡ Failure.WriteFailed) }
    ensures write_failed { output.old.failed ≡ false
        → ((result ≡ Err Failure.WriteFailed) ↔ (output.new.failed ≡ true)) }
{
    Ok(write_whole(output, VERSION.as_bytes())?)
}
