//! The outer form of a delivery: its numbers, its head, where its parts lie, and what may be wrong with it.
#![tactic(auto)]

mod heads;
mod numbered;
mod parts;
mod refusals;
mod words;

pub use heads::{Counts, Head, Span, read_head};
pub use numbered::{Numbered, told};
pub use parts::{Parts, read_parts};
pub use refusals::Refusal;
pub use words::{number_of, row_at, u16_at, word_at, words_in, words_of};
