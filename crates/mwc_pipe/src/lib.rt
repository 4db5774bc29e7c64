//! A bounded queue that can be closed, as a pure machine, and the ring between two threads that
//! keeps the same law.
//!
//! ```text
//! let mut pipe = Pipe::new(alloc, 2);
//! let put = pipe.put(7);
//! let taken = pipe.take();
//!
//! let (mut words, mut out) = ring(alloc, 64)?;
//! let put = words.put_some(&row);
//! let taken = out.take_some(&mut into);
//! ```
#![tactic(auto)]

mod batch;
mod closed;
pub mod laws;
mod pipe;
mod pipe_in;
mod rest;
mod ring_in;
mod ring_out;
mod step;
mod trace;
mod word;

pub use batch::Batch;
pub use closed::{Closed, Unfinished};
pub use pipe::Pipe;
pub use pipe_in::PipeIn;
pub use rest::Rest;
pub use ring_in::{RingIn, ring};
pub use ring_out::RingOut;
pub use step::{Refused, Reply, Step, Taken};
pub use trace::{Trace, replay};
pub use word::Word;
