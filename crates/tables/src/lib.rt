//! The tables of an LR parser in a delivery: what their words say, and which are allowed.
#![tactic(auto)]

mod actions;
mod gotos;
mod productions;
mod table;

pub use actions::{Action, action_of, check_actions};
pub use gotos::{check_gotos, goto_of};
pub use productions::{Production, check_productions, production_of};
pub use table::Table;
