//! The game that a file holds.
//!
//! ```text
//! let game = parse_game(alloc, b"[51; 50, 49, 1]")?;
//! ```
#![tactic(auto)]

mod bracket;
mod keys;
pub mod laws;
mod members;
mod parse;
mod reading;
mod rules;
mod scanner;
mod tree;
mod ways;

pub use council_game::write_notation;
pub use parse::parse_game;
pub use reading::{read_bytes, read_game};
