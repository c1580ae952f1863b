//! Examples of sets. A function has few: the paths through it, and its proof, grow with each.
use commonware_utils::Participant;
use commonware_utils::ordered::{Error, Set, Uncounted};
use std::alloc::Global;
use std::process::Abort;

fn items(rt: &impl Abort, alloc: Global) -> Result<(), Error> {
    let set = Set::try_from_array(alloc, [5u8, 1, 3])?;
    assert!(rt; set.len() == 3);
    assert!(rt; !set.is_empty());
    assert!(rt; set.as_slice() == [1u8, 3, 5].as_slice());
    assert!(rt; set.iter().eq([1u8, 3, 5].iter()));
    Ok(())
}

fn places(rt: &impl Abort, alloc: Global) -> Result<(), Error> {
    let set = Set::try_from_array(alloc, [5u8, 1, 3])?;
    assert!(rt; set.get(1) == Some(&3) && set.get(3) == None);
    assert!(rt; set.len() == 3 && set.slice(1..3) == [3u8, 5].as_slice());
    Ok(())
}

fn look_ups(rt: &impl Abort, alloc: Global) -> Result<(), Error> {
    let set = Set::try_from_array(alloc, [5u8, 1, 3])?;
    assert!(rt; set.position(&3) == Some(1) && set.position(&4) == None);
    assert!(rt; set.contains(&3) && !set.contains(&4));
    Ok(())
}

fn counted(rt: &impl Abort, alloc: Global) -> Result<(), Error> {
    let set = Set::try_from_array(alloc, [5u8, 1, 3])?;
    assert!(rt; set.position_counted(&3, &mut Uncounted) == Some(1));
    assert!(rt; set.contains_counted(&3, &mut Uncounted));
    assert!(rt; set.len() == 3);
    assert!(rt; set.index_counted(&3, &mut Uncounted) == Some(Participant::new(1)));
    Ok(())
}

fn sizes(rt: &impl Abort, alloc: Global) -> Result<(), Error> {
    let none: Set<u8, Global> = Set::empty(alloc);
    assert!(rt; none.is_empty());
    assert!(rt; Set::<u8, Global>::max_encode_size(200) == 202);
    Ok(())
}

fn truncated(rt: &impl Abort, alloc: Global) -> Result<(), Error> {
    let mut set = Set::try_from_array(alloc, [5u8, 1, 3])?;
    set.truncate(2);
    assert!(rt; set.as_slice() == [1u8, 3].as_slice());
    Ok(())
}

fn allocators(rt: &impl Abort, alloc: Global) -> Result<(), Error> {
    let set = Set::try_from_array(alloc, [5u8, 1, 3])?;
    let beside = Set::try_from_array(*set.allocator(), [7u8])?;
    assert!(rt; beside.len() == 1);
    Ok(())
}

fn of_an_iterator(rt: &impl Abort, alloc: Global) -> Result<(), Error> {
    let set = Set::from_iter_dedup(alloc, [5u8, 1, 3, 1])?;
    assert!(rt; set.as_slice() == [1u8, 3, 5].as_slice());
    Ok(())
}

fn of_a_list(rt: &impl Abort, alloc: Global) -> Result<(), Error> {
    let set = Set::try_from_vec(vec![in alloc; 5u8, 1, 3]?)?;
    assert!(rt; set.as_slice() == [1u8, 3, 5].as_slice());
    Ok(())
}

fn of_a_slice(rt: &impl Abort, alloc: Global) -> Result<(), Error> {
    let set = Set::try_from_slice(alloc, &[5u8, 1, 3])?;
    assert!(rt; set.as_slice() == [1u8, 3, 5].as_slice());
    Ok(())
}

fn repeated(rt: &impl Abort, alloc: Global) -> Result<(), Error> {
    let twice = Set::try_from_array(alloc, [5u8, 1, 5]);
    assert!(rt; twice.err() == Some(Error::DuplicateKey));
    Ok(())
}

fn of_an_array(rt: &impl Abort, alloc: Global) -> Result<(), Error> {
    let set = Set::try_from_array_ref(alloc, &[5u8, 1, 3])?;
    assert!(rt; set.as_slice() == [1u8, 3, 5].as_slice());
    Ok(())
}

fn of_a_strict_list(rt: &impl Abort, alloc: Global) -> Result<(), Error> {
    let set = Set::from_strict(vec![in alloc; 1u8, 3, 5]?);
    assert!(rt; set.as_slice() == [1u8, 3, 5].as_slice());
    Ok(())
}

#[test]
fn examples_of_sets(rt: HostRuntime) {
    assert!(rt; items(&rt, rt.alloc()).is_ok());
    assert!(rt; places(&rt, rt.alloc()).is_ok());
    assert!(rt; look_ups(&rt, rt.alloc()).is_ok());
    assert!(rt; counted(&rt, rt.alloc()).is_ok());
    assert!(rt; sizes(&rt, rt.alloc()).is_ok());
    assert!(rt; truncated(&rt, rt.alloc()).is_ok());
    assert!(rt; allocators(&rt, rt.alloc()).is_ok());
    assert!(rt; of_an_iterator(&rt, rt.alloc()).is_ok());
    assert!(rt; of_a_list(&rt, rt.alloc()).is_ok());
    assert!(rt; of_a_slice(&rt, rt.alloc()).is_ok());
    assert!(rt; repeated(&rt, rt.alloc()).is_ok());
    assert!(rt; of_an_array(&rt, rt.alloc()).is_ok());
    assert!(rt; of_a_strict_list(&rt, rt.alloc()).is_ok());
}
