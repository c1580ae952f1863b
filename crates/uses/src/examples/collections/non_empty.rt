//! Examples of non-empty lists.
use commonware_utils::NZUsize;
use commonware_utils::vec::{Error, NonEmptyVec};
use std::alloc::Global;
use std::process::Abort;

fn look_ups(rt: &impl Abort, alloc: Global) -> Result<(), Error> {
    let list = NonEmptyVec::try_from_array(alloc, [3u8, 1, 2])?;
    assert!(rt; list.len() == NZUsize!(3));
    assert!(rt; !list.is_singleton());
    assert!(rt; list.as_slice() == [3u8, 1, 2].as_slice());
    assert!(rt; *list.first() == 3);
    assert!(rt; *list.last() == 2);
    assert!(rt; list.into_vec().as_slice() == [3u8, 1, 2].as_slice());
    Ok(())
}

fn borrows(rt: &impl Abort, alloc: Global) -> Result<(), Error> {
    let mut list = NonEmptyVec::try_from_array(alloc, [3u8, 1, 2])?;
    *list.first_mut() = 4;
    assert!(rt; list.as_slice() == [4u8, 1, 2].as_slice());
    let mut list = NonEmptyVec::try_from_array(alloc, [3u8, 1, 2])?;
    *list.last_mut() = 4;
    assert!(rt; list.as_slice() == [3u8, 1, 4].as_slice());
    let mut list = NonEmptyVec::try_from_array(alloc, [3u8, 1, 2])?;
    list.as_mut_slice().reverse();
    assert!(rt; list.as_slice() == [2u8, 1, 3].as_slice());
    Ok(())
}

fn changes(rt: &impl Abort, alloc: Global) -> Result<(), Error> {
    let mut list = NonEmptyVec::try_from_array(alloc, [3u8, 1])?;
    assert!(rt; list.push(2).is_ok() && list.as_slice() == [3u8, 1, 2].as_slice());
    let mut list = NonEmptyVec::try_from_array(alloc, [3u8, 1])?;
    assert!(rt; list.insert(0, 2).is_ok() && list.as_slice() == [2u8, 3, 1].as_slice());
    let mut list = NonEmptyVec::try_from_array(alloc, [3u8, 1])?;
    assert!(rt; list.remove(0) == Some(3) && list.remove(0) == None);
    let mut list = NonEmptyVec::try_from_array(alloc, [3u8, 1])?;
    assert!(rt; list.pop() == Some(1) && list.pop() == None);
    Ok(())
}

fn sizes(rt: &impl Abort, alloc: Global) -> Result<(), Error> {
    let mut list = NonEmptyVec::new(alloc, 3u8)?;
    list.extend([1u8, 2])?;
    assert!(rt; list.as_slice() == [3u8, 1, 2].as_slice());
    let mut list = NonEmptyVec::new(alloc, 3u8)?;
    list.resize(NZUsize!(3), 7)?;
    assert!(rt; list.as_slice() == [3u8, 7, 7].as_slice());
    let mut list = NonEmptyVec::new(alloc, 3u8)?;
    list.resize_with(NZUsize!(3), || 9)?;
    assert!(rt; list.as_slice() == [3u8, 9, 9].as_slice());
    Ok(())
}

fn closures(rt: &impl Abort, alloc: Global) -> Result<(), Error> {
    let list = NonEmptyVec::try_from_array(alloc, [3u8, 1, 2])?;
    let wide = list.map(|item| u32::from(*item))?;
    assert!(rt; wide.as_slice() == [3u32, 1, 2].as_slice());
    let wide = list.map_into(|item| u32::from(item))?;
    assert!(rt; wide.as_slice() == [3u32, 1, 2].as_slice());
    Ok(())
}

fn builders(rt: &impl Abort, alloc: Global) -> Result<(), Error> {
    let one = NonEmptyVec::new(alloc, 7u8)?;
    assert!(rt; one.as_slice() == [7u8].as_slice());
    let list = NonEmptyVec::try_from_slice(alloc, &[3u8, 1, 2])?;
    assert!(rt; list.as_slice() == [3u8, 1, 2].as_slice());
    let none = NonEmptyVec::try_from_array(alloc, [0u8; 0]);
    assert!(rt; none.err() == Some(Error::Empty));
    let list = NonEmptyVec::try_from_array_ref(alloc, &[3u8, 1, 2])?;
    assert!(rt; list.as_slice() == [3u8, 1, 2].as_slice());
    let list = NonEmptyVec::from_unchecked(vec![in alloc; 3u8, 1, 2]?);
    assert!(rt; list.as_slice() == [3u8, 1, 2].as_slice());
    Ok(())
}

#[test]
fn examples_of_non_empty_lists(rt: HostRuntime) {
    assert!(rt; look_ups(&rt, rt.alloc()).is_ok());
    assert!(rt; borrows(&rt, rt.alloc()).is_ok());
    assert!(rt; changes(&rt, rt.alloc()).is_ok());
    assert!(rt; sizes(&rt, rt.alloc()).is_ok());
    assert!(rt; closures(&rt, rt.alloc()).is_ok());
    assert!(rt; builders(&rt, rt.alloc()).is_ok());
}
