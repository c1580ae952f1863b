//! The worked example of the README.
use crate::Participant;
use crate::codec::{EncodeSize, Error, RangeCfg, Read, Source, Write};
use crate::ordered::Set;
use std::alloc::Global;

fn signers(alloc: Global) -> Result<usize, Error> {
    let indices = [3u32, 1, 3].map(Participant::new);
    let Ok(signers) = Set::from_iter_dedup(alloc, indices) else {
        return Err(Error::Memory);
    };
    let mut bytes: Vec<u8> = Vec::new(alloc);
    if signers.is_writable() && signers.write(&mut bytes).is_err() {
        return Err(Error::Memory);
    }
    let mut source = Source::new(&bytes);
    let limits = (RangeCfg::from(1..=256), ());
    let again: Set<Participant, Global> = Set::read_cfg(alloc, &mut source, &limits)?;
    Ok(again.len())
}

#[test]
fn two_participants_sign(rt: HostRuntime) {
    assert!(rt; signers(rt.alloc()).expect(&rt, "memory") == 2);
}
