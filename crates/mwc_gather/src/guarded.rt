//! A game behind a gate.
ghost use Rattle.std.specs.Prelude.{◌≡◌};

use crate::observer::SliceObserver;
use council_game::{Game, Gate};
use mwc_walk::Informed;
use std::marker::Model;
use std::snapshot::Snapshot;

/// A game behind a gate: the only way to the game is to pass.
///
/// Contracts see the game.
#[derive(Drop)]
pub struct Guarded<'a, G> {
    game: &'a Game,
    gate: &'a G,
}

impl<'a, G> Model for Guarded<'a, G> {
    ghost use Rattle.council_game.specs.Game.{GameView};

    ghost Value = { GameView };

    ghost view = { λ g. g.game.now };
}

impl<'a, G: Gate> Guarded<'a, G> {
    /// Puts the game behind the gate.
    pub fn new(game: &'a Game, gate: &'a G) -> Guarded<'a, G>
        ensures { result ≡ game.now }
    {
        Guarded { game, gate }
    }

    /// Passes the gate once, and then returns the game.
    pub fn pass(&self, worker: u8, slice: u16) -> &Game
        ensures { result.now ≡ self.now }
    {
        self.admit(worker, slice)
    }
}

impl<'a, G: SliceObserver> Guarded<'a, G> {
    /// Announces a worker and slice to an observer that takes them; returns the game.
    pub(crate) fn admit(&self, worker: u8, slice: u16) -> &Game
        requires { G.takes worker slice }
        ensures { result.now ≡ self.now }
    {
        self.gate.announce(worker, slice);
        self.game
    }
}

impl<'a, G: SliceObserver> Informed for Guarded<'a, G> {
    fn note(&self, prefixes: u64, found: u64) {
        self.gate.note(prefixes, found);
    }
}

impl<'a, G> Guarded<'a, G> {
    /// Returns the same game behind the same gate, for another thread.
    pub(crate) fn for_thread(&self) -> Guarded<'a, G>
        ensures { result ≡ self.now }
    {
        Guarded {
            game: self.game,
            gate: self.gate,
        }
    }

    /// For the prover: returns the game as proofs see it, which takes no bytes.
    pub(crate) fn snapshot(&self) -> Snapshot<Game>
        ensures { result.value ≡ self.now }
    {
        Snapshot::of(self.game)
    }
}
