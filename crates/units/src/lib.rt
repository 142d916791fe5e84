//! The unit in a delivery: tokens with nested static conditionals, as records, and the guards of its branches.
#![tactic(auto)]

mod guards;
mod records;
mod scans;

pub use guards::{Guard, Guards, OPERANDS, Word, word_of};
pub use records::{Record, record_of};
pub use scans::{NESTING, check_records};
