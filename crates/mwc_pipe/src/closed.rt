//! A closed end of a ring.
use crate::word::Word;
use rtrb::Finished;
use std::marker::Model;
use thiserror::Error;

/// The closed in-end of a ring, which `RingOut::end` takes.
///
/// Contracts see which ring it is of, and the words that were accepted.
#[derive(Drop)]
pub struct Closed {
    pub(crate) finished: Finished<Word>,
}

impl Model for Closed {
    ghost use Rattle.mwc_pipe.specs.RingViews.{ClosedView};
    ghost use Rattle.mwc_pipe.specs.Inner.RingViews.{ring_of_finished};
    ghost use Rattle.rtrb.specs.Ring.{all_sent};

    ghost Value = { ClosedView };

    ghost view = { λ r.
        record { ring = ring_of_finished r.finished; accepted = all_sent r.finished } };
}

/// The fault of a ring that could not be finished: it can never be ended.
#[derive(Clone, Copy, Debug, Eq, Error, PartialEq)]
#[error("a ring could not be finished")]
pub struct Unfinished;
