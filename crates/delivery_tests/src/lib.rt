//! Tests of what is taken and what is refused, at the edges.
#![tactic(auto)]

#[cfg(test)]
mod heads;
#[cfg(test)]
mod table_words;
#[cfg(test)]
mod unit_records;
