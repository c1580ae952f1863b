//! Examples of maps. A function has few: the paths through it, and its proof, grow with each.
use commonware_utils::ordered::{Error, Map, Set, Uncounted};
use std::alloc::Global;
use std::process::Abort;

fn columns(rt: &impl Abort, alloc: Global) -> Result<(), Error> {
    let map = Map::try_from_array(alloc, [(2u8, 20u8), (1, 10)])?;
    assert!(rt; map.len() == 2);
    assert!(rt; !map.is_empty());
    assert!(rt; map.keys().as_slice() == [1u8, 2].as_slice());
    assert!(rt; map.values() == [10u8, 20].as_slice());
    assert!(rt; map.iter().eq([1u8, 2].iter()));
    Ok(())
}

fn places(rt: &impl Abort, alloc: Global) -> Result<(), Error> {
    let map = Map::try_from_array(alloc, [(2u8, 20u8), (1, 10)])?;
    assert!(rt; map.get(1) == Some(&2) && map.get(2) == None);
    assert!(rt; map.value(1) == Some(&20) && map.value(2) == None);
    Ok(())
}

fn look_ups(rt: &impl Abort, alloc: Global) -> Result<(), Error> {
    let map = Map::try_from_array(alloc, [(2u8, 20u8), (1, 10)])?;
    assert!(rt; map.position(&2) == Some(1) && map.position(&3) == None);
    assert!(rt; map.get_value(&2) == Some(&20) && map.get_value(&3) == None);
    Ok(())
}

fn counted(rt: &impl Abort, alloc: Global) -> Result<(), Error> {
    let map = Map::try_from_array(alloc, [(2u8, 20u8), (1, 10)])?;
    assert!(rt; map.position_counted(&2, &mut Uncounted) == Some(1));
    assert!(rt; map.get_value_counted(&2, &mut Uncounted) == Some(&20));
    Ok(())
}

fn pairs(rt: &impl Abort, alloc: Global) -> Result<(), Error> {
    let map = Map::try_from_array(alloc, [(2u8, 20u8), (1, 10)])?;
    let mut sum = 0u64;
    for (key, value) in map.iter_pairs() {
        sum = sum.wrapping_add(u64::from(*key) * u64::from(*value));
    }
    assert!(rt; sum == 50);
    Ok(())
}

fn sizes(rt: &impl Abort, alloc: Global) -> Result<(), Error> {
    let none: Map<u8, u8, Global> = Map::empty(alloc);
    assert!(rt; none.is_empty());
    assert!(rt; Map::<u8, u8, Global>::max_encode_size(10, 1) == 22);
    Ok(())
}

fn truncated(rt: &impl Abort, alloc: Global) -> Result<(), Error> {
    let mut map = Map::try_from_array(alloc, [(2u8, 20u8), (1, 10)])?;
    map.truncate(1);
    assert!(rt; map.get_value(&1) == Some(&10) && map.get_value(&2) == None);
    Ok(())
}

fn allocators(rt: &impl Abort, alloc: Global) -> Result<(), Error> {
    let map = Map::try_from_array(alloc, [(2u8, 20u8), (1, 10)])?;
    let beside = Map::try_from_array(*map.allocator(), [(3u8, 30u8)])?;
    assert!(rt; beside.len() == 1);
    Ok(())
}

fn parts(rt: &impl Abort, alloc: Global) -> Result<(), Error> {
    let keys = Set::try_from_array(alloc, [1u8, 2])?;
    let values = vec![in alloc; 10u8, 20]?;
    let map = Map::from_parts(keys, values).expect(rt, "a value for each key");
    assert!(rt; map.get_value(&2) == Some(&20));
    let pairs = map.into_pairs()?;
    assert!(rt; pairs.as_slice() == [(1u8, 10u8), (2, 20)].as_slice());
    Ok(())
}

fn keys(rt: &impl Abort, alloc: Global) -> Result<(), Error> {
    let map = Map::try_from_array(alloc, [(2u8, 20u8), (1, 10)])?;
    assert!(rt; map.into_keys().as_slice() == [1u8, 2].as_slice());
    Ok(())
}

fn borrowed_value(rt: &impl Abort, alloc: Global) -> Result<(), Error> {
    let mut map = Map::try_from_array(alloc, [(2u8, 20u8), (1, 10)])?;
    if let Some(value) = map.get_value_mut(&2) {
        *value = 21;
    }
    assert!(rt; map.values() == [10u8, 21].as_slice());
    Ok(())
}

fn borrowed_values(rt: &impl Abort, alloc: Global) -> Result<(), Error> {
    let mut map = Map::try_from_array(alloc, [(2u8, 20u8), (1, 10)])?;
    map.values_mut().reverse();
    assert!(rt; map.get_value(&1) == Some(&20));
    Ok(())
}

fn borrowed_pairs(rt: &impl Abort, alloc: Global) -> Result<(), Error> {
    let mut map = Map::try_from_array(alloc, [(2u8, 20u8), (1, 10)])?;
    for (key, value) in map.iter_pairs_mut() {
        *value = *key;
    }
    assert!(rt; map.values() == [1u8, 2].as_slice());
    Ok(())
}

fn of_an_iterator(rt: &impl Abort, alloc: Global) -> Result<(), Error> {
    let map = Map::from_iter_dedup(alloc, [(2u8, 20u8), (1, 10), (2, 21)])?;
    assert!(rt; map.get_value(&2) == Some(&20));
    Ok(())
}

fn of_a_list(rt: &impl Abort, alloc: Global) -> Result<(), Error> {
    let map = Map::try_from_vec(vec![in alloc; (2u8, 20u8), (1, 10)]?)?;
    assert!(rt; map.get_value(&2) == Some(&20));
    Ok(())
}

fn of_a_slice(rt: &impl Abort, alloc: Global) -> Result<(), Error> {
    let map = Map::try_from_slice(alloc, &[(2u8, 20u8), (1, 10)])?;
    assert!(rt; map.get_value(&2) == Some(&20));
    Ok(())
}

fn repeated(rt: &impl Abort, alloc: Global) -> Result<(), Error> {
    let twice = Map::try_from_array(alloc, [(2u8, 20u8), (2, 21)]);
    assert!(rt; twice.err() == Some(Error::DuplicateKey));
    Ok(())
}

fn of_an_array(rt: &impl Abort, alloc: Global) -> Result<(), Error> {
    let map = Map::try_from_array_ref(alloc, &[(2u8, 20u8), (1, 10)])?;
    assert!(rt; map.get_value(&2) == Some(&20));
    Ok(())
}

#[test]
fn examples_of_maps(rt: HostRuntime) {
    assert!(rt; columns(&rt, rt.alloc()).is_ok());
    assert!(rt; places(&rt, rt.alloc()).is_ok());
    assert!(rt; look_ups(&rt, rt.alloc()).is_ok());
    assert!(rt; counted(&rt, rt.alloc()).is_ok());
    assert!(rt; pairs(&rt, rt.alloc()).is_ok());
    assert!(rt; sizes(&rt, rt.alloc()).is_ok());
    assert!(rt; truncated(&rt, rt.alloc()).is_ok());
    assert!(rt; allocators(&rt, rt.alloc()).is_ok());
    assert!(rt; parts(&rt, rt.alloc()).is_ok());
    assert!(rt; keys(&rt, rt.alloc()).is_ok());
    assert!(rt; borrowed_value(&rt, rt.alloc()).is_ok());
    assert!(rt; borrowed_values(&rt, rt.alloc()).is_ok());
    assert!(rt; borrowed_pairs(&rt, rt.alloc()).is_ok());
    assert!(rt; of_an_iterator(&rt, rt.alloc()).is_ok());
    assert!(rt; of_a_list(&rt, rt.alloc()).is_ok());
    assert!(rt; of_a_slice(&rt, rt.alloc()).is_ok());
    assert!(rt; repeated(&rt, rt.alloc()).is_ok());
    assert!(rt; of_an_array(&rt, rt.alloc()).is_ok());
}
