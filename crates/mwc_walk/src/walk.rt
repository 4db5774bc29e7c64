//! A walk over the minimal winning coalitions of a slice.
ghost use Rattle.std.specs.Prelude.{◌≡◌, ◌+◌, ◌-◌, ◌*◌, ◌^◌, ◌<◌, ◌≤◌, ◌≢◌, [], ◌∷◌, ◌++◌, drop, length, IfSome, MatchOption};
ghost use Rattle.council_game.specs.declared.limits.TheConstants.{BITS};
ghost use Rattle.council_game.specs.Game.{votes_of};
ghost use Rattle.mwc_walk.specs.Listed.{IsListed};
ghost use Rattle.mwc_walk.specs.Slices.{slice};
ghost use Rattle.mwc_walk.specs.WalkView.{given, given_count};
ghost use Rattle.mwc_walk.specs.Seeks.{Seeks, seeks_left};

use crate::cursor::Cursor;
use crate::price::PriceTable;
use crate::seek::Seek;
use council_game::{Coalition, Game};
use std::marker::Model;

/// A walk over the minimal winning coalitions of one slice, in listing order.
///
/// It stops at each coalition and goes on from there, and allocates nothing. Under one rule a visit
/// past the fixed places costs the same for any number of members. At the fixed places, and under
/// several rules at each visit, the walk looks for a member that each rule can spare: if the prefix
/// has one, nothing below it is visited.
///
/// Contracts see the votes of its game, the bits, the number of its slice, the coalitions that are
/// still to come, and the count of visits.
#[derive(Drop)]
pub struct Walk<'a> {
    game: &'a Game,
    cursor: Cursor,
    /// The prices of the game, once the walk has needed them.
    prices: Option<PriceTable>,
}

impl<'a> Model for Walk<'a> {
    ghost use Rattle.mwc_walk.specs.WalkView.{WalkView};

    ghost Value = { WalkView };

    ghost use Rattle.mwc_walk.specs.Inner.WalkInside.{walk_view, IsInside};

    ghost view = { walk_view };

    ghost invariant = { IsInside };
}

impl<'a> Walk<'a> {
    /// Returns a walk at the start of slice `j` of a game at `bits` bits.
    ///
    /// The slice has the minimal winning coalitions whose first `bits` places are those of the
    /// number 2^bits - 1 - j. There are at most 10 bits, and no more than members; `j` is below
    /// 2^bits. The check of each fixed place is a visit.
    ///
    /// Listing order goes by rank place and not by weight: a coalition that comes first has members
    /// of lower rank places, and may weigh less than one that comes later.
    pub fn new(game: &'a Game, bits: u8, j: u16) -> Walk<'a>
        requires few { bits ≤ BITS }
        requires bits { bits ≤ length game.now.names }
        requires slice { j < 2 ^ bits }
        ensures view { result ≡ record {
          votes = votes_of game.now;
          bits = bits;
          number = j;
          to_come = slice (votes_of game.now) bits j;
          visits = bits;
        } }
        ensures none_given { given result ≡ [] }
    {
        Walk {
            game,
            cursor: Cursor::start(game, bits, j),
            prices: None,
        }
    }

    /// Returns the next coalition of the slice; none at its end, and ever after.
    ///
    /// It is a minimal winning coalition of the game. What was given so far and what is still to
    /// come are together the whole slice.
    pub fn next(&mut self) -> Option<Coalition>
        ensures next { MatchOption result ((self.old.to_come ≡ []) × (self.new.to_come ≡ []))
            (λ c. self.old.to_come ≡ c ∷ self.new.to_come) }
        ensures listed { IfSome result (IsListed self.old.votes) }
        ensures given { MatchOption result (given self.new ≡ given self.old)
            (λ c. given self.new ≡ given self.old ++ c ∷ []) }
        ensures whole { given self.new ++ self.new.to_come
            ≡ slice self.new.votes self.new.bits self.new.number }
        ensures votes { self.new.votes ≡ self.old.votes }
        ensures bits { self.new.bits ≡ self.old.bits }
        ensures number { self.new.number ≡ self.old.number }
        ensures counted { self.old.visits ≤ self.new.visits }
    {
        match self.cursor.find(self.game, &mut self.prices) {
            Seek::Found(coalition) => Some(coalition),
            Seek::End | Seek::NotYet => None,
        }
    }

    /// Seeks the next coalition as `next` does, by at most `visits` visits.
    ///
    /// `visits` is 1 or more.
    ///
    /// After these it answers `NotYet`, with nothing else changed, and goes on when you call it
    /// again. It never answers `NotYet` under one rule, where the next coalition is near, or if the
    /// count of visits could not hold that many more.
    #[tactic(auto, unfolding(crate::specs::Seeks::seeks_left))]
    pub fn seek(&mut self, visits: u64) -> Seek
        requires { 0 < visits }
        ensures seeks { Seeks visits self.old result self.new }
        ensures whole { given self.new ++ self.new.to_come
            ≡ slice self.new.votes self.new.bits self.new.number }
        ensures same { (self.new.votes ≡ self.old.votes) × (self.new.bits ≡ self.old.bits)
            × (self.new.number ≡ self.old.number) }
        ensures counted { self.old.visits ≤ self.new.visits }
        ensures one { length self.old.votes.rules ≡ 1 → result ≢ Seek.NotYet }
        ensures few { length self.old.votes.rules ≢ 1 → self.new.visits ≤ self.old.visits + visits }
        ensures falls { result ≢ Seek.End → seeks_left self.new < seeks_left self.old }
    {
        self.cursor.seek(self.game, &mut self.prices, visits)
    }

    /// Returns how many visits there were.
    ///
    /// Each fixed place is visited once, when it is checked, and a later place each time that the
    /// walk reaches it from above to decide whether its member is in; the decision to leave the
    /// member out after all belongs to that visit. The count stops at the greatest number that it
    /// can hold.
    ///
    /// It is never below the number of coalitions given. It is at most `bits` plus, for each set of
    /// members, the number of all members; with one rule `bits` plus, for each coalition given, the
    /// number of places that are not fixed.
    pub fn visits(&self) -> u64
        ensures count { result ≡ self.now.visits }
        ensures rest { self.now.to_come ≡
            drop (given_count self.now) (slice self.now.votes self.now.bits self.now.number) }
        ensures least { given_count self.now ≤ result }
        ensures most { length self.now.votes.rules ≡ 1 →
            result ≤ self.now.bits +
            (self.now.votes.members - self.now.bits) * given_count self.now }
        ensures ever { result ≤ self.now.bits + self.now.votes.members * 2 ^ self.now.votes.members }
    {
        self.cursor.visits
    }
}
