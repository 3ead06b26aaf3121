//! Tests of lists, and of the crates that use lists. The modules `checks`, `lists` and `texts` have
//! what the tests share.
//!
//! The module `tests` has the tests of lists. Most compare items, capacities, requests, and what a
//! refused call returns with figures that were computed by hand. The first lines of each module say
//! what it tests. Its modules `checks` and `refusals` test what the tests themselves use. The
//! module `widths` has no test: its contract states the size of a list.
//!
//! The module `clients` has the tests of commands (`runner`), of the sparse table `Rows` (`rows`),
//! and of what `programs` does for `thin_replay`, `thin_bench` and `text_editor` if a line is
//! wrong, or if a read, a write or a request fails.
#![tactic(auto)]

#[cfg(test)]
mod checks;
#[cfg(test)]
mod clients;
#[cfg(test)]
mod lists;
#[cfg(test)]
mod tests;
#[cfg(test)]
mod texts;
