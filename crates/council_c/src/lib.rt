//! Calls for other languages, in the caller's thread and with the caller's buffers: from a game as
//! arrays to its numbers, or from the bytes of a game file to its report. `include/council.h`
//! declares them for C.
//!
//! ```text
//! uint32_t status = council_indices(quotas, 1, weights, 3, &options, members, 3, &summary);
//! uint32_t status = council_report(game, strlen(game), &options, text, sizeof text, &length);
//! ```
#![tactic(auto)]

mod arrays;
mod bounded;
mod call;
mod explain;
mod fault;
mod fill;
mod finding;
mod indices;
mod masks;
mod numbers;
mod options;
mod page;
mod results;

pub use call::{
    council_explain, council_indices_raw, council_list_raw, council_report_raw, council_version,
};
pub use fault::Fault;
pub use results::{CouncilFraction, CouncilMember, CouncilSummary, CouncilWide};
