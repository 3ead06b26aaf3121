//! Examples of structs that hold a list.
ghost use Rattle.std.specs.List.{All, filter};
ghost use Rattle.std.specs.Prelude.{◌≡◌, ℕ, ◌+◌, ◌-◌, ◌^◌, ◌<◌, ◌≤◌, ◌++◌, List, [], ◌∷◌, ◌↔◌, IfOk, IsTrue, OnErr, OnOk, length, nat_lt, slice_index};

use std::alloc::{AllocError, Global};
use std::marker::Model;
use thin_vec::{ThinVec, ThinVecError};

/// A style: its name, and its rules in order.
#[derive(Clone, Debug, Drop, PartialEq, Eq, PartialOrd, Ord, Hash)]
pub struct Style {
    pub name: u32,
    pub rules: ThinVec<u32>,
}

impl Style {
    /// Makes a style without rules. Its list has no allocation.
    pub fn new(alloc: Global, name: u32) -> Style
        ensures name { result.name ≡ name }
        ensures rules { result.rules.items ≡ [] }
    {
        Style {
            name,
            rules: ThinVec::new(alloc),
        }
    }

    /// Appends a rule.
    ///
    /// # Errors
    ///
    /// Fails if there is no room for the rule. On failure, the style is unchanged.
    pub fn add_rule(&mut self, rule: u32) -> Result<(), ThinVecError>
        ensures name { self.new.name ≡ self.old.name }
        ensures rules { OnOk result (self.new.rules.items ≡ self.old.rules.items ++ rule ∷ []) }
        ensures err { OnErr result (self.new ≡ self.old) }
    {
        self.rules.push(rule)?;
        Ok(())
    }

    /// Returns whether the styles have the same name and the same rules.
    pub fn is_same(&self, other: &Style) -> bool
        ensures value { IsTrue result
            ↔ ((self.now.name ≡ other.now.name) × (self.now.rules.items ≡ other.now.rules.items)) }
    {
        self == other
    }

    /// Returns a copy of this style with another name.
    ///
    /// # Errors
    ///
    /// Fails if there is not enough memory for the rules.
    pub fn renamed(&self, name: u32) -> Result<Style, AllocError>
        ensures name { IfOk result (λ style. style.name ≡ name) }
        ensures rules { IfOk result (λ style. style.rules.items ≡ self.now.rules.items) }
    {
        let mut style = self.clone()?;
        style.name = name;
        Ok(style)
    }
}

/// A page of lines. The ghost field `small` lets methods add 1 to the index of a line without
/// calling a method of the list.
#[derive(Drop)]
pub struct Page {
    pub lines: ThinVec<u32>,
    pub ghost small: { length lines.items < 2 ^ 63 },
}

impl Page {
    /// Makes a page of the lines. The call to `len` shows that there are fewer than 2^63 of them.
    pub fn new(lines: ThinVec<u32>) -> Page
        ensures lines { result.lines ≡ lines }
    {
        let _len = lines.len();
        Page { lines }
    }

    /// Returns the index after `line`.
    pub fn after(&self, line: usize) -> usize
        requires in_bounds { line < length self.now.lines.items }
        ensures value { result ≡ line + 1 }
    {
        line + 1
    }
}

/// A list of percentages, which are at most 100. In contracts, it is the list of these numbers.
#[derive(Debug, Drop)]
pub struct Percents {
    list: ThinVec<u32>,
}

impl Model for Percents {
    ghost Value = { List ℕ };

    ghost view = { λ percents. percents.list.items };

    ghost invariant = { λ percents. All (λ percent. percent ≤ 100) percents.list.items };
}

impl Percents {
    /// Makes an empty list.
    pub fn new(alloc: Global) -> Percents
        ensures empty { result ≡ [] }
    {
        Percents {
            list: ThinVec::new(alloc),
        }
    }

    /// Appends `percent`.
    ///
    /// # Errors
    ///
    /// Fails if there is no room for it. On failure, nothing changes.
    pub fn push(&mut self, percent: u32) -> Result<(), ThinVecError>
        requires at_most { percent ≤ 100 }
        ensures items { OnOk result (self.new ≡ self.old ++ percent ∷ []) }
        ensures err { OnErr result (self.new ≡ self.old) }
    {
        self.list.push(percent)?;
        Ok(())
    }

    /// Returns 100 less the percentage at `index`. The difference is not negative, because the
    /// percentage is at most 100.
    pub fn remaining(&self, index: usize) -> u32
        requires in_bounds { index < length self.now }
        ensures value { result ≡ 100 - slice_index self.now index }
    {
        100 - self.list[index]
    }

    /// Removes each percentage that is 0.
    pub fn remove_zeros(&mut self)
        ensures items { self.new ≡ filter (nat_lt 0) self.old }
    {
        self.list.retain(|percent| *percent > 0);
    }
}
