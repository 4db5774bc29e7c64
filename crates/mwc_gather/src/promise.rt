//! What a worker promises of its answer.
ghost use Rattle.mwc_gather.specs.Slicing.{slicing};
ghost use Rattle.mwc_gather.specs.Sending.{HasWorked};

use council_game::Game;
use mwc_pipe::{Closed, RingIn, RingOut, Unfinished};
use std::snapshot::Snapshot;
use std::thread::Promise;

/// What a worker hands back: its closed end, and the end that its tasks came from.
pub(crate) type Answer = (Result<Closed, Unfinished>, RingOut);

/// For the prover: the job that a worker was given, and its ends of two rings.
#[derive(Drop)]
pub(crate) struct GivenJob {
    /// The game whose slices it lists.
    pub game: Snapshot<Game>,
    /// How many of the heaviest members are fixed in each slice.
    pub bits: u8,
    /// How many coalitions are wanted at most.
    pub most: u32,
    /// The end that its words go into, as it was at the start.
    pub out: Snapshot<RingIn>,
    /// The end that its tasks come from, as it was at the start.
    pub tasks: Snapshot<RingOut>,
}

impl Promise<Answer> for GivenJob {
    ghost kept_by = { λ t r.
        HasWorked (slicing t.game.value t.bits) t.most t.out.value t.tasks.value r };
}
