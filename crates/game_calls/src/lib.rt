//! Further calls on games, for callers: members by their places in the file, coalitions by names,
//! critical members, vetoers, what votes decide, the indices of a member, games from slices, under
//! other rules, with other weights or at another quota, and a count by a walk.
//!
//! ```text
//! let game = game_from_slices(alloc, &["Ada", "Bo"], &[2, 1], 2)?;
//! let coalition = coalition_named(&game, &["Ada"])?;
//! let critical = critical_members(alloc, &game, coalition)?;
//! ```
#![tactic(auto)]

mod critical;
mod forecast;
mod indices;
pub mod laws;
mod membership;
mod names;
mod new_games;
mod veto;

pub use critical::{critical_members, is_critical};
pub use forecast::{Forecast, foresee};
pub use indices::{count_minimal, member_indices};
pub use membership::{everyone, has_member, outsiders, with_member, without_member};
pub use names::{coalition_named, first_unnamed};
pub use new_games::{at_quota, game_from_slices, under_rules, with_quota, with_weights};
pub use veto::{is_vetoer, vetoers};
