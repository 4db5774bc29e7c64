//! Steps of a walk over a game of several ways.
ghost use Rattle.std.specs.Prelude.{◌≡◌, ◌+◌, ◌*◌, ◌-◌, ◌^◌, ◌<◌, ◌≤◌, true, false, length, IfSome};
ghost use Rattle.council_game.specs.Game.{votes_of};
ghost use Rattle.council_game.specs.Votes.{minimal};
ghost use Rattle.mwc_walk.specs.Inner.Cursor.{CursorIs, Steps};
ghost use Rattle.mwc_walk.specs.Inner.Places.{IsSomeWay, NothingBelow, NothingMeets, SetPasses, can_meet, meets_at, reaches, wins_at};
ghost use Rattle.mwc_walk.specs.Inner.Prices.{ArePrices};

use crate::cursor::Cursor;
use crate::price::PriceTable;
use crate::rule_set::RuleSet;
use crate::seek::Seek;
use council_game::Game;

impl Cursor {
    /// Examines a fresh prefix: gives it if it wins and is minimal, passes by it if no coalition
    /// below is minimal, and else takes in the next member.
    ///
    /// Each way is looked at by itself, because a minimal coalition is minimal under each way that
    /// it meets.
    #[inline(never)]
    pub(crate) fn enter_ways(&mut self, game: &Game, prices: Option<&PriceTable>) -> Seek
        requires is { CursorIs (votes_of game.now) self.old }
        requires several { 1 < self.old.rules }
        requires prices { IfSome prices (λ t. ArePrices (votes_of game.now) t.now) }
        requires fresh { self.old.fresh ≡ true }
        ensures steps { Steps (votes_of game.now) self.old result self.new }
        ensures few { self.new.visits ≤ self.old.visits + 1 }
    {
        if self.wins(game) {
            if !self.spares_won(game) {
                return self.give(game);
            }
        } else if !self.has_nothing_below(game, prices) {
            return self.take_next(game, self.rules);
        }
        self.fresh = false;
        Seek::NotYet
    }

    /// Returns whether the prefix meets each rule of a set.
    fn meets(&self, game: &Game, set: &RuleSet) -> bool
        requires { CursorIs (votes_of game.now) self.now }
        ensures met { result ≡ true →
            SetPasses (meets_at self.now.place self.now.prefix) (votes_of game.now) set.now }
        ensures not { result ≡ false →
            SetPasses (meets_at self.now.place self.now.prefix) (votes_of game.now) set.now → ⊥ }
    {
        for rule in 0..self.rules {
            if set[rule] && !self.lanes[rule].wins() {
                return false;
            }
        }
        true
    }

    /// Returns whether each rule of a set can still be met.
    fn can_meet(&self, game: &Game, set: &RuleSet) -> bool
        requires { CursorIs (votes_of game.now) self.now }
        ensures can { result ≡ true →
            SetPasses (can_meet self.now.place self.now.prefix) (votes_of game.now) set.now }
        ensures not { result ≡ false →
            SetPasses (can_meet self.now.place self.now.prefix) (votes_of game.now) set.now → ⊥ }
    {
        for rule in 0..self.rules {
            if set[rule] && !self.lanes[rule].reaches(self.place) {
                return false;
            }
        }
        true
    }

    /// Returns whether the prefix wins.
    fn wins(&self, game: &Game) -> bool
        requires { CursorIs (votes_of game.now) self.now }
        ensures { result ≡ wins_at (votes_of game.now) self.now.place self.now.prefix }
    {
        for way in 0..self.ways {
            if self.meets(game, &self.sets[way]) {
                return true;
            }
        }
        false
    }

    /// Returns whether a winning prefix still wins without one of its members; else it is minimal.
    fn spares_won(&self, game: &Game) -> bool
        requires is { CursorIs (votes_of game.now) self.now }
        requires won { wins_at (votes_of game.now) self.now.place self.now.prefix ≡ true }
        ensures some { result ≡ true →
            NothingBelow (votes_of game.now) self.now.place self.now.prefix }
        ensures none { result ≡ false → minimal (votes_of game.now)
            (self.now.prefix * 2 ^ ((votes_of game.now).members - self.now.place)) ≡ true }
    {
        let excess = self.excess(game);
        for way in 0..self.ways {
            let set = &self.sets[way];
            if self.meets(game, set) && self.has_spared(game, set, &excess) {
                return true;
            }
        }
        false
    }

    /// Returns whether no coalition below that meets the rules of a way is minimal, as far as the
    /// walk can tell: they cannot all be met, or can spare a member of the prefix.
    fn bars(&self, game: &Game, set: &RuleSet, prices: Option<&PriceTable>) -> bool
        requires is { CursorIs (votes_of game.now) self.now }
        requires way { IsSomeWay (votes_of game.now) set.now }
        requires prices { IfSome prices (λ t. ArePrices (votes_of game.now) t.now) }
        ensures none { result ≡ true →
            NothingMeets (votes_of game.now) set.now self.now.place self.now.prefix }
        ensures can { result ≡ false →
            SetPasses (can_meet self.now.place self.now.prefix) (votes_of game.now) set.now }
    {
        if !self.can_meet(game, set) || self.has_spared(game, set, &self.excess(game)) {
            return true;
        }
        match prices {
            Some(prices) => self.prunes(game, set, prices),
            None => false,
        }
    }

    /// Returns whether no coalition below is minimal, as far as the walk can tell.
    fn has_nothing_below(&self, game: &Game, prices: Option<&PriceTable>) -> bool
        requires is { CursorIs (votes_of game.now) self.now }
        requires prices { IfSome prices (λ t. ArePrices (votes_of game.now) t.now) }
        ensures none { result ≡ true →
            NothingBelow (votes_of game.now) self.now.place self.now.prefix }
        ensures can { result ≡ false →
            reaches (votes_of game.now) self.now.place self.now.prefix ≡ true }
    {
        for way in 0..self.ways {
            if !self.bars(game, &self.sets[way], prices) {
                return false;
            }
        }
        true
    }
}
