//! Tests of threads and rings: pipes, gatherings, tallies and whole runs. Each module `NAME_tests`
//! tests the public calls of the crate NAME.
#![tactic(auto)]

#[cfg(test)]
mod council_run_tests;
#[cfg(test)]
mod helpers;
#[cfg(test)]
mod mwc_gather_tests;
#[cfg(test)]
mod mwc_pipe_tests;
#[cfg(test)]
mod mwc_tally_tests;
#[cfg(test)]
mod watch;
