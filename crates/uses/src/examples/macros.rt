//! Each form of each macro.
use commonware_utils::vec::{Error, NonEmptyVec};
use commonware_utils::{NZU8, NZU16, NZU32, NZU64, NZUsize, non_empty_vec};
use std::alloc::Global;

/// Whether each macro of numbers gives the number that is written.
fn are_numbers() -> bool {
    NZUsize!(3).get() == 3
        && NZU8!(255).get() == 255
        && NZU16!(65535).get() == 65535
        && NZU32!(7).get() == 7
        && NZU64!(9).get() == 9
}

/// Whether each form of the macro of lists gives the list of 4, 4 and 4.
fn are_lists(alloc: Global) -> Result<bool, Error> {
    let count = NZUsize!(3);
    let whole: NonEmptyVec<u8, Global> = non_empty_vec!(@vec![in alloc; 4, 4, 4]?);
    Ok(
        whole.as_slice() == [4, 4, 4].as_slice()
            && non_empty_vec!(alloc => 4, 4, 4)? == whole
            && non_empty_vec!(alloc => 4, 4, 4,)? == whole
            && non_empty_vec!(alloc => 4; 3)? == whole
            && non_empty_vec!(alloc => 4; NZUsize!(3))? == whole
            && non_empty_vec!(alloc => 4; @count)? == whole,
    )
}

#[test]
fn each_form_of_each_macro(rt: HostRuntime) {
    assert!(rt; are_numbers() && are_lists(rt.alloc()) == Ok(true));
}
