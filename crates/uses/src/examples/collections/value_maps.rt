//! Examples of maps of new values.
use commonware_utils::ordered::{Error, Map, MapError};
use std::alloc::Global;
use std::process::Abort;

fn all(rt: &impl Abort, alloc: Global) -> Result<(), Error> {
    let map = Map::try_from_array(alloc, [(2u8, 20u8), (1, 10)])?;
    let wide = map.map_values(|_, value| u32::from(*value))?;
    assert!(rt; wide.values() == [10u32, 20].as_slice());
    let wide = map.map_values_into(|_, value| u32::from(value))?;
    assert!(rt; wide.values() == [10u32, 20].as_slice());
    Ok(())
}

fn first_errors(rt: &impl Abort, alloc: Global) -> Result<(), Error> {
    let map = Map::try_from_array(alloc, [(2u8, 20u8), (1, 10)])?;
    let failed = map.try_map_values(|_, value| value.checked_sub(15).ok_or(*value));
    assert!(rt; failed.err() == Some(MapError::Closure(10)));
    let failed = map.try_map_values_into(|_, value| value.checked_sub(15).ok_or(value));
    assert!(rt; failed.err() == Some(MapError::Closure(10)));
    Ok(())
}

#[test]
fn examples_of_new_values(rt: HostRuntime) {
    assert!(rt; all(&rt, rt.alloc()).is_ok());
    assert!(rt; first_errors(&rt, rt.alloc()).is_ok());
}
