//! Tests of calls that start no thread: games, files, walks, counts, reports and command lines.
//!
//! Each module `NAME_tests` tests the public calls of the crate NAME.
#![tactic(auto)]

#[cfg(test)]
mod council_file_tests;
#[cfg(test)]
mod council_game_tests;
#[cfg(test)]
mod council_report_tests;
#[cfg(test)]
mod council_words_tests;
#[cfg(test)]
mod helpers;
#[cfg(test)]
mod mwc_states_tests;
#[cfg(test)]
mod mwc_walk_tests;
#[cfg(test)]
mod power_index_tests;
