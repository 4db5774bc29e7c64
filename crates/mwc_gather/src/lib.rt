//! Workers that list the minimal winning coalitions of a game beside each other, slice by slice on
//! demand, and send them through rings.
//!
//! ```text
//! let gathered = gather(rt, alloc, &Guarded::new(&game, &NoGate), 6, 4, limits::COALITIONS)?;
//! let list = gathered.in_order(alloc)?;
//! ```
#![tactic(auto)]

mod channels;
mod fault;
mod gathered;
mod gathering;
mod guarded;
mod job;
mod marks;
mod observer;
mod part;
mod part_builder;
mod promise;
mod putting;
mod scheduler;
mod send;
mod sent;
mod waiting;
mod word_buffer;
mod worker;
mod worker_handle;

pub use council_game::{Gate, NoGate};
pub use fault::GatherFault;
pub use gathered::Gathered;
pub use gathering::gather;
pub use guarded::Guarded;
pub use marks::Marks;
pub use part::Part;
pub use send::send_slice;
pub use sent::Sent;
pub use worker::work;
