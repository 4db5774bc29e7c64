//! Calls that make games and lists.
mod refusals;
