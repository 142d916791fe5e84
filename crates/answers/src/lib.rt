//! What the program that reads one configuration answers, and what it prints of it.
#![tactic(auto)]

mod answer;
mod numbers;
mod texts;

pub use answer::{LONGEST, Reading, Refused, answer_for};
pub use numbers::number_in;
pub use texts::{Answer, text_of};
