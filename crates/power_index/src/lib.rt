//! Counts of coalitions, fractions in lowest terms, and power indices: over minimal winning
//! coalitions those of Deegan and Packel (1978) and the public good index (Holler 1982; Holler and
//! Packel 1983); over swings those of Banzhaf, Penrose, Coleman, and Shapley and Shubik, in the
//! terms of Felsenthal and Machover (1998).
//!
//! A member's swings are the winning coalitions that lose without it. They follow from the counts
//! of the winning coalitions: one with the member either is a swing, or wins without the member
//! too, and then so does that smaller one. Nothing here but `all_indices` takes memory.
//!
//! ```text
//! let counts = Counts::of(&game, &list);
//! let index = deegan_packel(&counts, 0);
//! let text = index.decimals();
//! let order = Index::of(index).compare(Index::of(public_good(&counts, 0)));
//! let swings = Swings::of(&game, winning);
//! let index = banzhaf(&swings, 0);
//! ```
#![tactic(auto)]

mod counts;
mod fraction;
mod index;
mod indices;
pub mod laws;
mod member_indices;
mod swing_indices;
mod swings;

pub use counts::{Counts, SizeCounts};
pub use fraction::{Fraction, lowest};
pub use index::Index;
pub use indices::{deegan_packel, public_good};
pub use member_indices::{MemberIndices, all_indices};
pub use swing_indices::{
    banzhaf, penrose, power_to_act, power_to_initiate, power_to_prevent, shapley_shubik,
};
pub use swings::Swings;
