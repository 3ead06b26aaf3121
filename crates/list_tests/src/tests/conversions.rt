//! Tests of conversions from and to arrays, vectors and boxed slices, granted and refused.
use crate::check;
use crate::checks::leaked_refusing;
use std::alloc::Global;
use std::process::Abort;
use thin_vec::{ThinVec, ThinVecError};

const OUT_OF_MEMORY: ThinVecError = ThinVecError::OutOfMemory;

#[test]
fn into_array_returns_all_items(rt: HostRuntime) {
    let list = check!(rt; list_of(rt.alloc(), &[1, 2, 3]));
    check!(rt; same(list.into_array::<3>().ok(), Some([1, 2, 3])));
    let nothing = ThinVec::<i32>::new(rt.alloc()).into_array::<0>().ok();
    check!(rt; same(nothing, Some([])));
}

#[test]
fn from_array_moves_thousands_of_items(rt: HostRuntime) {
    let list = check!(rt; ThinVec::from_array(rt.alloc(), [7; 5000]));
    check!(rt; holds(&list, &[7; 5000], 5000));
}

// Asserts that the list has these items and no spare capacity, and that a boxed slice takes them.
fn assert_exact(rt: &impl Abort, alloc: Global, list: ThinVec<i32>, items: [i32; 3]) {
    check!(rt; holds(&list, &items, 3));
    let boxed = check!(rt; list.into_boxed_slice(alloc));
    check!(rt; same_items(boxed.as_slice(), &items));
}

#[test]
fn converted_lists_have_no_spare_capacity(rt: HostRuntime) {
    let (alloc, items) = (rt.alloc(), [1, 2, 3]);
    let list = check!(rt; ThinVec::from_slice(alloc, &items));
    assert_exact(&rt, alloc, list, items);
    let list = check!(rt; ThinVec::from_array(alloc, items));
    assert_exact(&rt, alloc, list, items);
    let mut roomy = check!(rt; items.to_vec(alloc));
    check!(rt; roomy.reserve(5));
    let list = check!(rt; ThinVec::from_vec(alloc, roomy));
    assert_exact(&rt, alloc, list, items);
    let boxed = check!(rt; items.to_vec(alloc)).into_boxed_slice();
    let list = check!(rt; ThinVec::from_boxed_slice(alloc, boxed));
    assert_exact(&rt, alloc, list, items);
}

#[test]
fn refused_conversions_into_a_list_return_their_source(rt: HostRuntime) {
    let refusing = leaked_refusing(&rt, rt.alloc(), 1);
    let items = [1, 2, 3];
    let refused = check!(rt; ThinVec::from_array(refusing, items).err());
    let value = refused.value;
    check!(rt; same((value, refused.cause), (items, OUT_OF_MEMORY)));
    check!(rt; counts(refusing, 1, 0));
    refusing.refuse(1);
    let vec = check!(rt; items.to_vec(rt.alloc()));
    let refused = check!(rt; ThinVec::from_vec(refusing, vec).err());
    check!(rt; same((refused.value.as_slice(), refused.cause), (&items, OUT_OF_MEMORY)));
    check!(rt; counts(refusing, 1, 0));
    refusing.refuse(1);
    let boxed = check!(rt; items.to_vec(rt.alloc())).into_boxed_slice();
    let refused = check!(rt; ThinVec::from_boxed_slice(refusing, boxed).err());
    check!(rt; same((refused.value.as_slice(), refused.cause), (&items, OUT_OF_MEMORY)));
    check!(rt; counts(refusing, 1, 0));
}

#[test]
fn refused_conversions_of_a_list_return_the_list(rt: HostRuntime) {
    let own = leaked_refusing(&rt, rt.alloc(), 0);
    let other = leaked_refusing(&rt, rt.alloc(), 1);
    let list = check!(rt; list_of(own, &[1, 2, 3, 4, 5]));
    let refused = check!(rt; list.into_vec(other).err());
    check!(rt; same(refused.cause, OUT_OF_MEMORY));
    check!(rt; holds(&refused.value, &[1, 2, 3, 4, 5], 5));
    check!(rt; counts(other, 1, 0));
    other.refuse(1);
    let refused = check!(rt; refused.value.into_boxed_slice(other).err());
    check!(rt; same(refused.cause, OUT_OF_MEMORY));
    check!(rt; holds(&refused.value, &[1, 2, 3, 4, 5], 5));
    check!(rt; counts(other, 1, 0));
    check!(rt; counts(own, 1, 1));
    let list = check!(rt; refused.value.into_array::<2>().err());
    check!(rt; holds(&list, &[1, 2, 3, 4, 5], 5));
}
