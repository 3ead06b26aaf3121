//! Runs the rows, and writes a report of them. A row is a function that compares the results of
//! some calls with values that were computed by hand. The program `thin_bench` prints the report.
mod checks;
mod reporting;
mod rows;

pub use checks::Checks;
pub use reporting::{Outcome, report, report_rows};
