//! A run, from the bytes of a weighted voting game to its report: read the game, find its minimal
//! winning coalitions or count them, and write the report with both power indices.
//!
//! ```text
//! let length = run(rt, alloc, &mut reader, &options, &NoGate, &mut writer)?;
//! let length = tally(rt, alloc, &mut reader, &options, &NoGate, &mut writer)?;
//! ```
#![tactic(auto)]

mod columns;
mod counting;
mod fault;
mod findings;
mod found;
pub mod laws;
mod listing;
mod plain;
mod runs;

pub use columns::Columns;
pub use council_game::{Gate, NoGate, Options, limits};
pub use counting::{
    LEAST_BITS, ROOM, choose_game, count_by_threads, count_by_workers, count_states, find_swings,
    number_by_states,
};
pub use fault::{Cause, RunFault, status};
pub use findings::Findings;
pub use found::{Coalitions, Found, on_heap};
pub use listing::{FEW_STATES, count_few, list_by_workers};
pub use runs::{report_game, run, tally};
