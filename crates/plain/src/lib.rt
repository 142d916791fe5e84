//! The plain reading of one configuration: what an LR parser does on the tokens that the configuration has.
#![tactic(auto)]

mod automaton;
mod configuration;
mod cursor;
mod frame;
mod guards;
mod reader;
mod tokens;

pub use automaton::{Move, Reason, act};
pub use configuration::Fault;
pub use delivery::Numbered;
pub use reader::{Ending, Reader, Report, Status, read};
