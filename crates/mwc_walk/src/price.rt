//! The least that members weigh by one rule for what they weigh by another.
ghost use Rattle.std.specs.Prelude.{◌≡◌, ◌<◌, ◌≤◌, ◌+◌, ◌*◌, ℕ, true, false, length, take, drop};
ghost use Rattle.council_game.specs.declared.limits.TheConstants.{MEMBERS};
ghost use Rattle.council_game.specs.Game.{votes_of};
ghost use Rattle.council_game.specs.Votes.{weight};
ghost use Rattle.mwc_walk.specs.Inner.Places.{LanesStand};
ghost use Rattle.mwc_walk.specs.Inner.Prices.{IsPrice, IsRow, ArePrices, price_at};

use crate::lane::Lane;
use council_game::{Game, limits};

/// The cheapest of some members: its weight by one rule, `own`, and by another, `other`. No member
/// weighs less by the one for what it weighs by the other. Both are 0 if none weighs by the other.
#[derive(Clone, Copy)]
pub(crate) struct Price {
    pub(crate) own: u64,
    pub(crate) other: u64,
}

impl Price {
    /// Returns whether a member is cheaper, or the first with weight by the other rule.
    fn is_above(&self, own: u64, other: u64) -> bool
        ensures some { result ≡ true → 0 < other }
        ensures less { result ≡ true → own * self.now.other ≤ self.now.own * other }
        ensures more { result ≡ false → self.now.own * other ≤ own * self.now.other }
        ensures none { result ≡ false → self.now.other ≡ 0 → other ≡ 0 }
    {
        if other == 0 || self.other == 0 {
            return other > 0;
        }
        u128::from(own) * u128::from(self.other) < u128::from(self.own) * u128::from(other)
    }

    /// Returns the price of these members and one more.
    fn or(&self, own: u64, other: u64) -> Price
        ensures { (f g d : ℕ) → IsPrice self.now f g → IsPrice result (d * other + f) (d * own + g) }
    {
        if self.is_above(own, other) {
            Price { own, other }
        } else {
            *self
        }
    }

    /// Returns the least that members weigh by the one rule if they weigh `need` by the other.
    pub(crate) fn of(&self, need: u64) -> u64
        ensures { (f g : ℕ) → IsPrice self.now f g → need ≤ f → result ≤ g }
    {
        if self.other == 0 || need == 0 {
            return 0;
        }
        if let Some(own) = need.checked_mul(self.own) {
            return own.div_ceil(self.other);
        }
        let least = (u128::from(need) * u128::from(self.own)).div_ceil(u128::from(self.other));
        least.min(u128::from(u64::MAX)) as u64
    }
}

/// For each place the price of the members from it on.
#[derive(Clone, Copy)]
pub(crate) struct Prices {
    pub(crate) from: [Price; limits::SIZES],
}

impl Prices {
    /// Returns the prices of members by their weights under the two rules.
    pub(crate) fn new(
        own: &[u64; limits::MEMBERS],
        other: &[u64; limits::MEMBERS],
        members: usize,
    ) -> Prices
        requires { members ≤ MEMBERS }
        ensures { (p c : ℕ) → p ≤ members →
            IsPrice (price_at result p)
            (weight (drop p (take members other.now)) c)
            (weight (drop p (take members own.now)) c) }
    {
        let mut from = [Price { own: 0, other: 0 }; limits::SIZES];
        for place in (0..members).rev() {
            from[place] = from[place + 1].or(own[place], other[place]);
        }
        Prices { from }
    }
}

/// The prices by each rule for each other; copies of the first after them.
#[derive(Clone, Copy)]
pub(crate) struct PriceTable {
    pub(crate) by: [[Prices; limits::RULES]; limits::RULES],
}

impl PriceTable {
    /// Returns the prices of the members of a game.
    pub(crate) fn new(game: &Game, lanes: &[Lane; limits::RULES]) -> PriceTable
        requires { LanesStand (votes_of game.now) lanes.now }
        ensures { ArePrices (votes_of game.now) result }
    {
        game.was_checked();
        let mut by = [PriceTable::row(game, lanes, 0); limits::RULES];
        for rule in 1..game.rules() {
            by[rule] = PriceTable::row(game, lanes, rule);
        }
        PriceTable { by }
    }

    /// Returns the prices by one rule.
    fn row(game: &Game, lanes: &[Lane; limits::RULES], rule: usize) -> [Prices; limits::RULES]
        requires rule { rule < length (votes_of game.now).rules }
        requires lanes { LanesStand (votes_of game.now) lanes.now }
        ensures { IsRow (votes_of game.now) rule result }
    {
        game.was_checked();
        let none = Prices {
            from: [Price { own: 0, other: 0 }; limits::SIZES],
        };
        let mut row = [none; limits::RULES];
        for other in 0..game.rules() {
            row[other] = Prices::new(&lanes[rule].weights, &lanes[other].weights, game.members());
        }
        row
    }
}
