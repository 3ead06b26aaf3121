//! The items after each call.
use crate::check;
use crate::tests::ported::boxes_of;
use thin_vec::ThinVec;

#[test]
fn index_reads_and_writes_an_item(rt: HostRuntime) {
    let mut list = check!(rt; list_of(rt.alloc(), &[1, 2, 3]));
    check!(rt; same(list[1], 2));
    list[1] = 22;
    check!(rt; same_items(&list, &[1, 22, 3]));
}

fn add(amount: i32, items: &mut [i32]) {
    for item in items {
        *item = item.saturating_add(amount);
    }
}

#[test]
fn writes_through_parts_of_the_slice(rt: HostRuntime) {
    let mut list = check!(rt; list_of(rt.alloc(), &[1, 2, 3, 4, 5]));
    add(2, &mut list.as_mut_slice()[2..]);
    check!(rt; same_items(&list, &[1, 2, 5, 6, 7]));
    let mut list = check!(rt; list_of(rt.alloc(), &[1, 2, 3, 4, 5]));
    add(1, &mut list.as_mut_slice()[..2]);
    check!(rt; same_items(&list, &[2, 3, 3, 4, 5]));
    let mut list = check!(rt; list_of(rt.alloc(), &[1, 2, 3, 4, 5]));
    let (left, right) = list.as_mut_slice().split_at_mut(2);
    add(1, left);
    add(2, right);
    check!(rt; same_items(&list, &[2, 3, 5, 6, 7]));
}

#[test]
fn compares_lists_by_their_items(rt: HostRuntime) {
    let zero = check!(rt; list_of(rt.alloc(), &[0]));
    let other = check!(rt; list_of(rt.alloc(), &[0]));
    check!(rt; same(zero == other, true));
    let other = check!(rt; list_of(rt.alloc(), &[1]));
    check!(rt; same(zero == other, false));
}

#[test]
fn append_moves_all_items(rt: HostRuntime) {
    let mut list = check!(rt; list_of(rt.alloc(), &[1, 2, 3]));
    let mut other = check!(rt; list_of(rt.alloc(), &[4, 5, 6]));
    check!(rt; list.append(&mut other));
    check!(rt; holds(&list, &[1, 2, 3, 4, 5, 6], 6));
    check!(rt; holds(&other, &[], 3));
}

#[test]
fn extend_appends_all_items(rt: HostRuntime) {
    let mut list = ThinVec::new(rt.alloc());
    for numbers in [0..0, 0..3, 3..10] {
        check!(rt; list.extend(numbers));
    }
    let clone = check!(rt; list.clone(rt.alloc()));
    check!(rt; list.extend(clone.as_slice().iter().copied()));
    let twice = [0, 1, 2, 3, 4, 5, 6, 7, 8, 9, 0, 1, 2, 3, 4, 5, 6, 7, 8, 9];
    check!(rt; holds(&list, &twice, 20));
    let mut units = ThinVec::new(rt.alloc());
    check!(rt; units.extend((0..2).map(|_| ())));
    check!(rt; same((units.len(), units.capacity()), (2, 4)));
}

#[test]
fn clones_equal_their_lists(rt: HostRuntime) {
    for items in [&[][..], &[1, 2, 3][..]] {
        let list = check!(rt; list_of(rt.alloc(), items));
        let copy = check!(rt; list.clone(rt.alloc()));
        check!(rt; holds(&copy, items, items.len()));
    }
}

#[test]
fn clones_of_boxed_items_are_assigned(rt: HostRuntime) {
    let alloc = rt.alloc();
    let three = check!(rt; boxes_of(alloc, &[1, 2, 3]));
    let two = check!(rt; boxes_of(alloc, &[4, 5]));
    let mut list = ThinVec::new(alloc);
    for source in [&three, &three, &two, &three] {
        list = check!(rt; source.clone(alloc));
        check!(rt; same(list.as_slice(), source.as_slice()));
    }
}

#[test]
fn pushes_pops_and_clears_zero_sized_items(rt: HostRuntime) {
    let mut list = ThinVec::new(rt.alloc());
    for _ in 0..2 {
        check!(rt; list.push(()));
    }
    let popped = [list.pop(), list.pop(), list.pop()];
    check!(rt; same(popped, [Some(()), Some(()), None]));
    for _ in 0..4 {
        check!(rt; list.push(()));
    }
    check!(rt; same(list.iter().count(), 4));
    list.clear();
    check!(rt; same(list.iter().count(), 0));
}
