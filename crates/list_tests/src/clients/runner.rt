//! Tests of commands: what `run` and `step` answer and leave if a request is refused, and after
//! each number of steps over a range. Tables in the tests state the replies as texts. `runs` has
//! long lists, long runs, and another growth rule, for which the list itself says what is right.
mod commands;
mod given_up;
pub mod judges;
pub mod made;
mod requests;
mod runs;
mod shown;
mod worked;
