//! Tests that the public names of `thin_vec` exist, and that its types have the traits that
//! programs rely on, `Send` and `Sync` among them. The compiler checks this, so no thread is
//! started.
use crate::check;
use std::alloc::{AllocError, Allocator, Global};
use std::convert::AsSlice;
use std::default::{Emptied, MadeWith};
use std::error::Error;
use std::fmt::Debug;
use std::hash::Hash;
use std::io::Write;
use std::iter::{ExactSizeIterator, Extend, FromIterator, FusedIterator, empty};
use std::marker::{Send, Sync};
use std::ops::{DerefSlice, DerefSliceMut, Index, IndexMut};
use thin_vec::{
    Doubling, ExtractIf, Growth, IntoIter, PowerBytes, Rejected, ThinVec, ThinVecError, fits,
    thin_vec,
};

fn needs_list_traits<L>(_list: &L)
where
    L: Clone + Eq + Ord + Hash + Debug + Drop,
    L: AsSlice<u8> + DerefSlice<Elem = u8> + DerefSliceMut,
    L: Index<usize, Output = u8> + IndexMut<usize> + IntoIterator<Item = u8> + Write,
    L: Extend<u8> + FromIterator<u8> + Emptied + MadeWith<Global> + Send + Sync,
{}

fn needs_iterator_traits<I>(_items: &I)
where
    I: DoubleEndedIterator + ExactSizeIterator + FusedIterator + Iterator<Item = u8>,
    I: Debug + Drop + Send + Sync,
{}

fn needs_extract_if<F>(_items: &ExtractIf<'_, u8, F>) {}

fn needs_iterator<I: Iterator<Item = u8> + Drop + Send + Sync>(_items: &I) {}

fn needs_send_and_sync<X: Send + Sync>(_value: &X) {}

// Shows that a list is `Send` whenever its items, its allocator and its growth rule are.
fn needs_send<T: Send, A: Allocator + Send, G: Growth + Send>(list: &ThinVec<T, A, G>) {
    is_send(list);
}

fn is_send<X: Send>(_value: &X) {}

// Shows that a list is `Sync` whenever its items, its allocator and its growth rule are.
fn needs_sync<T: Sync, A: Allocator + Sync, G: Growth + Sync>(list: &ThinVec<T, A, G>) {
    is_sync(list);
}

fn is_sync<X: Sync>(_value: &X) {}

// A node of a tree, with a list of its child nodes.
#[derive(Drop)]
struct Node {
    children: ThinVec<Node>,
}

fn needs_error_traits<E>(_cause: &E)
where
    E: Error + Copy + Eq + From<AllocError> + From<Rejected<u8>>,
{}

fn capacity_under_rule<G: Growth, A: Allocator>(list: &ThinVec<u8, A, G>) -> usize {
    list.capacity()
}

#[test]
fn public_names_and_traits_exist(rt: HostRuntime) {
    let list: ThinVec<u8, Global, Doubling> = check!(rt; thin_vec![rt.alloc() => 1, 2]);
    needs_list_traits(&list);
    check!(rt; same(capacity_under_rule::<Doubling, Global>(&list), 2));
    needs_error_traits(&ThinVecError::OutOfMemory);
    check!(rt; same(fits::<u8>(3), true));
    needs_send(&list);
    needs_sync(&list);
    let powers: ThinVec<u8, Global, PowerBytes> = ThinVec::ruled(rt.alloc());
    needs_send_and_sync(&powers);
    let node = Node {
        children: ThinVec::new(rt.alloc()),
    };
    needs_send_and_sync(&node);
}

#[test]
fn public_iterators_and_their_traits_exist(rt: HostRuntime) {
    let mut bytes = ThinVec::new(rt.alloc());
    needs_iterator_traits(&bytes.drain(0, 0));
    needs_extract_if(&bytes.extract_if(0, 0, |_item: &mut u8| true));
    needs_iterator(&bytes.extract_if(0, 0, |_item: &mut u8| true));
    let splice = bytes.splice(0, 0, empty());
    needs_send_and_sync(&splice);
    check!(rt; splice.finish(rt.alloc()));
    let items: IntoIter<u8, Global, Doubling> = bytes.into_iter();
    needs_iterator_traits(&items);
}
