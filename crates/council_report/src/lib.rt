//! The report of a game, line by line.
//!
//! ```text
//! let length = write_report(alloc, &game, &list, shown, &mut writer)?;
//! ```
#![tactic(auto)]

mod count_lines;
mod fault;
mod game_numbers;
mod heading;
mod label;
mod lines;
mod output;
mod report;
mod shared_line;
mod stream;
mod subtotal;

pub use council_game::ReportLines;
pub use fault::ReportFault;
pub use report::{write_report, write_report_of, write_swings};
