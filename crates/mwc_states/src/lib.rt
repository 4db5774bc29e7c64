//! Counts the minimal winning coalitions of a game, and its winning ones, by one graph of states.
#![tactic(auto)]

mod choices;
mod count;
mod graph;
mod later;
mod row;
mod set_counts;
mod state;
mod sums;
mod table;

pub use count::{count_by_states, count_swings};
