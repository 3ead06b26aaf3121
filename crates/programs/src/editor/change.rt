//! The type `Change`. A change replaces a range of the items of a text, and then undoes this. It
//! exchanges items, so they need not be `Copy` or `Clone`.
ghost use Rattle.std.specs.Prelude.{◌≡◌, OnErr, OnOk};

use std::alloc::{Allocator, Global};
use thin_vec::{ThinVec, ThinVecError};

/// A change that replaces the items `start..end` of a text with `items`.
#[derive(Drop)]
pub struct Change<T, A: Allocator = Global> {
    pub start: usize,
    pub end: usize,
    pub items: ThinVec<T, A>,
}

impl<T, A: Allocator> Change<T, A> {
    ghost use Rattle.programs.specs.Changes.{Fits, changed};

    /// Applies the change to `text`: exchanges the items of its range with `items`. The change is
    /// then the one that undoes this.
    ///
    /// # Errors
    ///
    /// Fails if there is not enough memory for the list that becomes longer, `text` or `items`. On
    /// failure, neither list changes.
    pub fn make(&mut self, text: &mut ThinVec<T, A>) -> Result<(), ThinVecError>
        requires fits { Fits self.old text.old.items }

        // On success.
        ensures text { OnOk result (text.new.items ≡ changed self.old text.old.items) }
        ensures undoes { OnOk result (changed self.new text.new.items ≡ text.old.items) }
        ensures fits { OnOk result (Fits self.new text.new.items) }

        // On failure.
        ensures err { OnErr result (self.new ≡ self.old) }
        ensures text_err { OnErr result (text.new ≡ text.old) }
    {
        let count = self.items.len();
        text.swap_range(self.start, self.end, &mut self.items)?;
        self.end = self.start + count;
        Ok(())
    }
}
