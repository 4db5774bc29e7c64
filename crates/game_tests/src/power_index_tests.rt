//! The counts and the indices of a worked game.
mod refusals;
