//! Defines `Checks`, which collects the results of the comparisons in a row.
use std::alloc::Allocator;
use thin_vec::{Growth, ThinVec};

/// Says whether a row has compared anything, and whether a result differed from its expected value.
#[derive(Clone, Copy)]
pub struct Checks {
    compared: bool,
    differed: bool,
}

impl Checks {
    /// Makes a value that has seen no comparison.
    pub fn new() -> Checks {
        Checks {
            compared: false,
            differed: false,
        }
    }

    /// Returns true if something was compared, and no result differed from its expected value.
    pub fn is_ok(&self) -> bool {
        self.compared && !self.differed
    }

    /// Notes a comparison. `right` says whether the result had the expected value.
    pub fn is(&mut self, right: bool) {
        self.compared = true;
        self.differed = self.differed || !right;
    }

    /// Compares `found` with the expected value `wanted`.
    pub fn same<T: PartialEq + Drop>(&mut self, found: T, wanted: T) {
        self.is(found == wanted);
    }

    /// Compares the items of `found` with the expected items `wanted`.
    pub fn items<T: PartialEq>(&mut self, found: &[T], wanted: &[T]) {
        self.is(found == wanted);
    }

    /// Compares the items of `list` with `items`, and its capacity with `capacity`.
    pub fn holds<T: PartialEq, A: Allocator, G: Growth>(
        &mut self,
        list: &ThinVec<T, A, G>,
        items: &[T],
        capacity: usize,
    ) {
        self.items(list.as_slice(), items);
        self.same(list.capacity(), capacity);
    }
}
