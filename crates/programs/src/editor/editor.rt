//! The type `Editor`. An editor owns a text, which is a list of items, and two lists of changes.
//! The changes in one list undo edits, and those in the other redo edits that have been undone.
ghost use Rattle.std.specs.Prelude.{◌≡◌, ◌↔◌, ◌⊎◌, ◌<◌, [], ◌∷◌, IsErrOf, OnErr, OnOk, length, take};
ghost use Rattle.std.specs.List.{replace_range};
ghost use Rattle.programs.specs.Changes.{AllFit, texts_of};
ghost use Rattle.programs.specs.History.{IsNew};

use crate::editor::change::Change;
use crate::editor::edit_error::EditError;
use std::alloc::{Allocator, Global};
use std::marker::Model;
use thin_vec::{ThinVec, ThinVecError};

/// A text, such as a list of lines, with the history of its edits. In contracts, an editor is a
/// `History`: the text, the texts that `undo` can restore, and the texts that `redo` can restore.
#[derive(Drop)]
pub struct Editor<T, A: Allocator = Global> {
    text: ThinVec<T, A>,
    past: ThinVec<Change<T, A>, A>,
    future: ThinVec<Change<T, A>, A>,
}

impl<T, A: Allocator> Model for Editor<T, A> {
    ghost use Rattle.programs.specs.History.{History};

    ghost Value = { History T };

    ghost use Rattle.programs.specs.Changes.{AllFit, texts_of};

    ghost view = { λ e. record {
      past = texts_of e.past.items e.text.items;
      text = e.text.items;
      future = texts_of e.future.items e.text.items;
    } };

    ghost invariant = { λ e. AllFit e.past.items e.text.items
        × AllFit e.future.items e.text.items };
}

impl<T: Drop, A: Allocator + Copy> Editor<T, A> {
    /// Makes an editor with an empty text. There is nothing to undo and nothing to redo. The call
    /// allocates no memory.
    pub fn new(alloc: A) -> Editor<T, A>
        ensures new { IsNew result }
    {
        Editor {
            text: ThinVec::new(alloc),
            past: ThinVec::new(alloc),
            future: ThinVec::new(alloc),
        }
    }

    /// Returns the items of the text.
    pub fn text(&self) -> &[T]
        ensures value { result.now ≡ self.now.text }
    {
        self.text.as_slice()
    }

    /// Replaces the items `start..end` with `items`. Edits that were undone before the call can no
    /// longer be redone.
    ///
    /// # Errors
    ///
    /// Returns `OutOfBounds` if `end` is less than `start` or greater than the length of the text.
    /// Returns `NoRoom` if there is not enough memory for the edit. On failure, the editor is
    /// unchanged, and `items` is dropped.
    pub fn replace(
        &mut self,
        start: usize,
        end: usize,
        items: ThinVec<T, A>,
    ) -> Result<(), EditError>
        ensures out_of_bounds { IsErrOf result EditError.OutOfBounds
            ↔ ((end < start) ⊎ (length self.old.text < end)) }
        ensures text { OnOk result
            (self.new.text ≡ replace_range self.old.text start end items.items) }
        ensures past { OnOk result (self.new.past ≡ self.old.text ∷ self.old.past) }
        ensures future { OnOk result (self.new.future ≡ []) }
        ensures err { OnErr result (self.new ≡ self.old) }
    {
        if end < start || self.text.len() < end {
            return Err(EditError::OutOfBounds);
        }
        let mut change = Change { start, end, items };
        self.past.reserve(1)?;
        change.make(&mut self.text)?;
        self.past.push_reserved(change);
        self.future.clear();
        Ok(())
    }

    /// Undoes the last edit that has not been undone.
    ///
    /// # Errors
    ///
    /// Returns `NothingToUndo` if there is no such edit, and `NoRoom` if there is not enough
    /// memory. On failure, the editor is unchanged.
    #[tactic(auto, using(crate::proofs::ChangesLemmas::no_text))]
    pub fn undo(&mut self) -> Result<(), EditError>
        ensures nothing { IsErrOf result EditError.NothingToUndo ↔ (self.old.past ≡ []) }
        ensures text { OnOk result (self.old.past ≡ self.new.text ∷ self.new.past) }
        ensures future { OnOk result (self.new.future ≡ self.old.text ∷ self.old.future) }
        ensures err { OnErr result (self.new ≡ self.old) }
    {
        if self.past.is_empty() {
            return Err(EditError::NothingToUndo);
        }
        step(&mut self.text, &mut self.past, &mut self.future)?;
        Ok(())
    }

    /// Redoes the edit that was undone last.
    ///
    /// # Errors
    ///
    /// Returns `NothingToRedo` if there is no such edit, and `NoRoom` if there is not enough
    /// memory. On failure, the editor is unchanged.
    #[tactic(auto, using(crate::proofs::ChangesLemmas::no_text))]
    pub fn redo(&mut self) -> Result<(), EditError>
        ensures nothing { IsErrOf result EditError.NothingToRedo ↔ (self.old.future ≡ []) }
        ensures text { OnOk result (self.old.future ≡ self.new.text ∷ self.new.future) }
        ensures past { OnOk result (self.new.past ≡ self.old.text ∷ self.old.past) }
        ensures err { OnErr result (self.new ≡ self.old) }
    {
        if self.future.is_empty() {
            return Err(EditError::NothingToRedo);
        }
        step(&mut self.text, &mut self.future, &mut self.past)?;
        Ok(())
    }

    /// Forgets the oldest edits, so that at most `count` edits can still be undone. The text does
    /// not change.
    pub fn forget(&mut self, count: usize)
        ensures past { self.new.past ≡ take count self.old.past }
        ensures text { self.new.text ≡ self.old.text }
        ensures future { self.new.future ≡ self.old.future }
    {
        if count < self.past.len() {
            self.past.drain(0, self.past.len() - count);
        }
    }
}

// Applies the last change of the list `from` to `text`, and moves it to the list `to`, where it
// undoes this. On failure, `text` and the items of both lists are unchanged.
fn step<T, A: Allocator>(
    text: &mut ThinVec<T, A>,
    from: &mut ThinVec<Change<T, A>, A>,
    to: &mut ThinVec<Change<T, A>, A>,
) -> Result<(), ThinVecError>
    requires nonempty { 0 < length from.old.items }
    requires from_fit { AllFit from.old.items text.old.items }
    requires to_fit { AllFit to.old.items text.old.items }

    // On success.
    ensures texts { OnOk result (texts_of from.old.items text.old.items
        ≡ text.new.items ∷ texts_of from.new.items text.new.items) }
    ensures back { OnOk result (texts_of to.new.items text.new.items
        ≡ text.old.items ∷ texts_of to.old.items text.old.items) }
    ensures from_fit { OnOk result (AllFit from.new.items text.new.items) }
    ensures to_fit { OnOk result (AllFit to.new.items text.new.items) }

    // On failure.
    ensures err { OnErr result (text.new ≡ text.old) }
    ensures from_err { OnErr result (from.new.items ≡ from.old.items) }
    ensures to_err { OnErr result (to.new.items ≡ to.old.items) }
{
    to.reserve(1)?;
    let mut change = from.pop().unwrap();
    if let Err(cause) = change.make(text) {
        from.push_reserved(change);
        return Err(cause);
    }
    to.push_reserved(change);
    Ok(())
}
