//! Counts all minimal winning coalitions of a game by several threads, slice by slice, without
//! keeping any, so there may be any number of them.
//!
//! ```text
//! let counts = tally(rt, alloc, &game, 6, 4, &NoGate)?;
//! let index = public_good(&counts, 0);
//! ```
#![tactic(auto)]

mod fault;
mod slice;
mod slice_queue;
mod sliced_game;
mod thread_counts;
mod threads;

pub use fault::TallyFault;
pub use slice::tally_slice;
pub use threads::tally;
