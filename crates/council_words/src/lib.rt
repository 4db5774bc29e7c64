//! What a person sees of `council` beside the report: its command line, each number in its range,
//! its progress in one line on a terminal, which is wiped before the report, and what it says on
//! standard error. Tests show what the words mean and what a terminal shows, since no contract can
//! say that.
//!
//! ```text
//! let words = collect_words(rt)?;
//! let arguments = parse_arguments(rt, words.as_slice())?;
//! let progress = Progress::new(rt, rt.stderr().is_terminal(), 64);
//! ```
#![tactic(auto)]

mod command_line;
mod progress;
mod remarks;
mod thousands;
mod words;

pub use command_line::{collect_words, parse_arguments};
pub use progress::Progress;
pub use remarks::{
    remark_on_columns, remark_on_names, remark_on_quotas, remark_on_thousands, report_unopened,
    say, say_more,
};
pub use words::{Arguments, read_words};
