//! A checked delivery: LR tables and a unit with static conditionals, in lent bytes.
#![tactic(auto)]

mod deliveries;

pub use deliveries::{Delivery, check};
pub use format::{Counts, Numbered, Refusal};
pub use tables::{Action, Production};
pub use units::{Guard, Record, Word};
