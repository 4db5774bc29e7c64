//! Weighted voting games, and their rules as text; and what all crates share: coalitions, `Memory`
//! and lists with room for all, the limits, the options of a run and how it finds coalitions, the
//! observer of its workers, readers and writers seen call by call, and text that is safe to show.
//!
//! ```text
//! let game = Game::new(alloc, None, names, weights, 51)?;
//! let first_two = game.coalition_of(&[0, 1]);
//! let wins = game.wins(first_two);
//! ```
#![tactic(auto)]

mod checks;
mod coalition;
mod contribution;
mod fault;
mod game;
mod gate;
pub mod laws;
pub mod limits;
mod memory;
mod naming;
mod notation;
mod numbers;
mod options;
mod plan;
mod ranks;
mod renumbering;
mod report_lines;
mod rule;
mod sanitized;
mod sink;
mod source;
mod way;
mod winning;

pub use checks::is_title;
pub use coalition::Coalition;
pub use fault::{GameFault, short_text};
pub use game::{Game, copy_title};
pub use gate::{Gate, INFORM_EVERY, NoGate};
pub use memory::{Memory, list_from_fn};
pub use notation::write_notation;
pub use numbers::{push_decimal, push_joined};
pub use options::Options;
pub use plan::Plan;
pub use ranks::members_by_rank;
pub use report_lines::ReportLines;
pub use rule::Rule;
pub use sanitized::{Sanitized, sanitize};
pub use sink::Sink;
pub use source::Source;
pub use way::{Way, are_ways};
pub use winning::plain_list;
