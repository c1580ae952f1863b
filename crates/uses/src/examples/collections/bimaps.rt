//! Examples of bimaps. A function has few: the paths through it, and its proof, grow with each.
use commonware_utils::ordered::{BiMap, Error, Map, Uncounted};
use std::alloc::Global;
use std::process::Abort;

fn columns(rt: &impl Abort, alloc: Global) -> Result<(), Error> {
    let bimap = BiMap::try_from_array(alloc, [(2u8, 20u8), (1, 10)])?;
    assert!(rt; bimap.len() == 2);
    assert!(rt; !bimap.is_empty());
    assert!(rt; bimap.keys().as_slice() == [1u8, 2].as_slice());
    assert!(rt; bimap.values() == [10u8, 20].as_slice());
    assert!(rt; bimap.iter().eq([1u8, 2].iter()));
    Ok(())
}

fn places(rt: &impl Abort, alloc: Global) -> Result<(), Error> {
    let bimap = BiMap::try_from_array(alloc, [(2u8, 20u8), (1, 10)])?;
    assert!(rt; bimap.get(1) == Some(&2) && bimap.get(2) == None);
    assert!(rt; bimap.value(1) == Some(&20) && bimap.value(2) == None);
    Ok(())
}

fn look_ups(rt: &impl Abort, alloc: Global) -> Result<(), Error> {
    let bimap = BiMap::try_from_array(alloc, [(2u8, 20u8), (1, 10)])?;
    assert!(rt; bimap.position(&2) == Some(1) && bimap.position(&3) == None);
    assert!(rt; bimap.get_value(&2) == Some(&20) && bimap.get_value(&3) == None);
    Ok(())
}

fn keys_of_values(rt: &impl Abort, alloc: Global) -> Result<(), Error> {
    let bimap = BiMap::try_from_array(alloc, [(2u8, 20u8), (1, 10)])?;
    assert!(rt; bimap.get_key(&20) == Some(&2) && bimap.get_key(&30) == None);
    Ok(())
}

fn counted(rt: &impl Abort, alloc: Global) -> Result<(), Error> {
    let bimap = BiMap::try_from_array(alloc, [(2u8, 20u8), (1, 10)])?;
    assert!(rt; bimap.position_counted(&2, &mut Uncounted) == Some(1));
    assert!(rt; bimap.get_value_counted(&2, &mut Uncounted) == Some(&20));
    Ok(())
}

fn pairs(rt: &impl Abort, alloc: Global) -> Result<(), Error> {
    let bimap = BiMap::try_from_array(alloc, [(2u8, 20u8), (1, 10)])?;
    let mut sum = 0u64;
    for (key, value) in bimap.iter_pairs() {
        sum = sum.wrapping_add(u64::from(*key) * u64::from(*value));
    }
    assert!(rt; sum == 50);
    Ok(())
}

fn keys(rt: &impl Abort, alloc: Global) -> Result<(), Error> {
    let none: BiMap<u8, u8, Global> = BiMap::empty(alloc);
    assert!(rt; none.is_empty());
    let bimap = BiMap::try_from_array(alloc, [(2u8, 20u8), (1, 10)])?;
    assert!(rt; bimap.into_keys().as_slice() == [1u8, 2].as_slice());
    Ok(())
}

fn of_a_map(rt: &impl Abort, alloc: Global) -> Result<(), Error> {
    let map = Map::try_from_array(alloc, [(2u8, 20u8), (1, 10)])?;
    let pairs = BiMap::try_from_map(map)?.into_pairs()?;
    assert!(rt; pairs.as_slice() == [(1u8, 10u8), (2, 20)].as_slice());
    Ok(())
}

fn of_a_list(rt: &impl Abort, alloc: Global) -> Result<(), Error> {
    let bimap = BiMap::try_from_vec(vec![in alloc; (2u8, 20u8), (1, 10)]?)?;
    assert!(rt; bimap.get_key(&20) == Some(&2));
    Ok(())
}

fn of_a_slice(rt: &impl Abort, alloc: Global) -> Result<(), Error> {
    let bimap = BiMap::try_from_slice(alloc, &[(2u8, 20u8), (1, 10)])?;
    assert!(rt; bimap.get_key(&20) == Some(&2));
    Ok(())
}

fn repeated(rt: &impl Abort, alloc: Global) -> Result<(), Error> {
    let twice = BiMap::try_from_array(alloc, [(2u8, 20u8), (1, 20)]);
    assert!(rt; twice.err() == Some(Error::DuplicateValue));
    Ok(())
}

fn of_an_array(rt: &impl Abort, alloc: Global) -> Result<(), Error> {
    let bimap = BiMap::try_from_array_ref(alloc, &[(2u8, 20u8), (1, 10)])?;
    assert!(rt; bimap.get_key(&20) == Some(&2));
    Ok(())
}

#[test]
fn examples_of_bimaps(rt: HostRuntime) {
    assert!(rt; columns(&rt, rt.alloc()).is_ok());
    assert!(rt; places(&rt, rt.alloc()).is_ok());
    assert!(rt; look_ups(&rt, rt.alloc()).is_ok());
    assert!(rt; keys_of_values(&rt, rt.alloc()).is_ok());
    assert!(rt; counted(&rt, rt.alloc()).is_ok());
    assert!(rt; pairs(&rt, rt.alloc()).is_ok());
    assert!(rt; keys(&rt, rt.alloc()).is_ok());
    assert!(rt; of_a_map(&rt, rt.alloc()).is_ok());
    assert!(rt; of_a_list(&rt, rt.alloc()).is_ok());
    assert!(rt; of_a_slice(&rt, rt.alloc()).is_ok());
    assert!(rt; repeated(&rt, rt.alloc()).is_ok());
    assert!(rt; of_an_array(&rt, rt.alloc()).is_ok());
}
