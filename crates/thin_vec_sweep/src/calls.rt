//! Groups of calls. Some groups accept every item type, and others only types that can be copied or
//! compared, or bytes.
pub mod adding;
pub mod bytes;
pub mod copying;
pub mod filtering;
pub mod making;
pub mod reading;
pub mod removing;
pub mod replacing;
