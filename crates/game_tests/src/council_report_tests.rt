//! Reports of thousands of lines.
mod refusals;
