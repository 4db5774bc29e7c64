//! Counts by states. That games of all kinds are counted right, `tests/random_games.py` and
//! `tests/tally.sh` show through the program.
mod refusals;
