//! Tests of the plain reading.
#![tactic(auto)]

#[cfg(test)]
mod branches;
#[cfg(test)]
mod endings;
