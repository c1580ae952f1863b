//! Committees of members of 32 bytes, and inputs that are none.
use std::alloc::{AllocError, Global};

/// The bytes of the committee of two members: 31 bytes 0 and a 1, and 32 bytes ff.
pub const TWO: &[u8] = b"\x02\
    \x00\x00\x00\x00\x00\x00\x00\x00\x00\x00\x00\x00\x00\x00\x00\x00\
    \x00\x00\x00\x00\x00\x00\x00\x00\x00\x00\x00\x00\x00\x00\x00\x01\
    \xff\xff\xff\xff\xff\xff\xff\xff\xff\xff\xff\xff\xff\xff\xff\xff\
    \xff\xff\xff\xff\xff\xff\xff\xff\xff\xff\xff\xff\xff\xff\xff\xff";

/// The report on it.
pub const TWO_REPORT: &str = "members 2\n\
    0 0000000000000000000000000000000000000000000000000000000000000001\n\
    1 ffffffffffffffffffffffffffffffffffffffffffffffffffffffffffffffff\n\
    N3f1 faults 0 quorum 2\n\
    N5f1 faults 0 quorum 2 m-quorum 1\n";

/// The two members in the wrong order.
pub const TWO_FALLING: &[u8] = b"\x02\
    \xff\xff\xff\xff\xff\xff\xff\xff\xff\xff\xff\xff\xff\xff\xff\xff\
    \xff\xff\xff\xff\xff\xff\xff\xff\xff\xff\xff\xff\xff\xff\xff\xff\
    \x00\x00\x00\x00\x00\x00\x00\x00\x00\x00\x00\x00\x00\x00\x00\x00\
    \x00\x00\x00\x00\x00\x00\x00\x00\x00\x00\x00\x00\x00\x00\x00\x01";

/// The first of them twice.
pub const TWO_EQUAL: &[u8] = b"\x02\
    \x00\x00\x00\x00\x00\x00\x00\x00\x00\x00\x00\x00\x00\x00\x00\x00\
    \x00\x00\x00\x00\x00\x00\x00\x00\x00\x00\x00\x00\x00\x00\x00\x01\
    \x00\x00\x00\x00\x00\x00\x00\x00\x00\x00\x00\x00\x00\x00\x00\x00\
    \x00\x00\x00\x00\x00\x00\x00\x00\x00\x00\x00\x00\x00\x00\x00\x01";

/// The committee of the first of them, and a byte after it.
pub const ONE_AND_A_BYTE: &[u8] = b"\x01\
    \x00\x00\x00\x00\x00\x00\x00\x00\x00\x00\x00\x00\x00\x00\x00\x00\
    \x00\x00\x00\x00\x00\x00\x00\x00\x00\x00\x00\x00\x00\x00\x00\x01\
    \x00";

/// The committee of one member, without its last byte.
pub const ONE_CUT_SHORT: &[u8] = b"\x01\
    \x00\x00\x00\x00\x00\x00\x00\x00\x00\x00\x00\x00\x00\x00\x00\x00\
    \x00\x00\x00\x00\x00\x00\x00\x00\x00\x00\x00\x00\x00\x00\x00";

/// The bytes of the committee of `n` members, for `n` from 1 to 256. Each has 31 bytes 0 and then
/// one of the bytes from 0 to n - 1.
pub fn committee_of(alloc: Global, n: u64) -> Result<Vec<u8>, AllocError> {
    let mut bytes = Vec::new(alloc);
    if n < 128 {
        bytes.push((n % 128) as u8)?;
    } else {
        bytes.push((128 + n % 128) as u8)?;
        bytes.push((n / 128 % 128) as u8)?;
    }
    for member in 0..n {
        bytes.extend_from_slice(&[0; 31])?;
        bytes.push((member % 256) as u8)?;
    }
    Ok(bytes)
}

/// The line of one of these members in a report.
pub fn write_line(report: &mut String, member: u64) -> Result<(), AllocError> {
    let zeros = "0000000000000000000000000000000000000000000000000000000000000";
    let (high, low) = (
        DIGITS[(member / 16 % 16) as usize],
        DIGITS[(member % 16) as usize],
    );
    writeln!(report, "{member} {zeros}0{high}{low}")
}

/// The hexadecimal digits.
static DIGITS: [char; 16] = [
    '0', '1', '2', '3', '4', '5', '6', '7', '8', '9', 'a', 'b', 'c', 'd', 'e', 'f',
];

/// The 8194 bytes of the committee of all the members there can be, and the report of 17631 bytes
/// on it.
pub fn committee_of_256(alloc: Global) -> Result<(Vec<u8>, String), AllocError> {
    let mut report = String::from_str(alloc, "members 256\n")?;
    for member in 0..256 {
        write_line(&mut report, member)?;
    }
    report.push_str("N3f1 faults 85 quorum 171\nN5f1 faults 51 quorum 205 m-quorum 103\n")?;
    Ok((committee_of(alloc, 256)?, report))
}
