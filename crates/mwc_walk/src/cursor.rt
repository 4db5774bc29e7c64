//! How far a walk has come, and its steps.
ghost use Rattle.std.specs.Prelude.{◌≡◌, ◌≢◌, ℕ, ◌*◌, ◌+◌, ◌-◌, ◌^◌, ◌<◌, ◌≤◌, false, true, bit_and, length};
ghost use Rattle.std.specs.Prelude.{IfSome, MatchOption};
ghost use Rattle.council_game.specs.declared.limits.TheConstants.{BITS, MEMBERS};
ghost use Rattle.council_game.specs.Game.{votes_of};
ghost use Rattle.council_game.specs.Votes.{has, minimal, without};
ghost use Rattle.mwc_walk.specs.Inner.Places.{reaches, wins_at, in_set, NothingBelow, NothingMeets, AreExcesses, CanSpare, IsSomeWay};
ghost use Rattle.mwc_walk.specs.Inner.Prices.{ArePrices};
ghost use Rattle.mwc_walk.specs.Inner.Spared.{CanPassBy, ExcessIs, IsNeed, NoneSpared, Tried};
ghost use Rattle.mwc_walk.specs.Inner.Cursor.{CursorIs, Steps, SomeSteps, Starts};

use crate::lane::{Lane, all_reach, all_win, lanes_of, leave_out, take_in};
use crate::price::PriceTable;
use crate::rule_set::{RuleSet, sets_of};
use crate::seek::Seek;
use council_game::{Coalition, Game, limits};

/// After so many steps without a coalition a walk over several rules also asks what the prices say.
const NEAR: u64 = 512;

/// How far the walk over one slice has come: the first `place` places are decided, as the binary
/// digits of `prefix` say, the first place first.
#[derive(Drop)]
pub(crate) struct Cursor {
    /// A lane for each rule; copies of the first after them.
    pub(crate) lanes: [Lane; limits::RULES],
    pub(crate) rules: usize,
    /// The rules of each way; copies of the first after them.
    pub(crate) sets: [RuleSet; limits::WAYS],
    pub(crate) ways: usize,
    pub(crate) members: usize,
    /// How many places are fixed: the walk never goes back past them.
    pub(crate) bits: usize,
    /// The number of the slice.
    pub(crate) number: u16,
    pub(crate) prefix: u64,
    pub(crate) place: usize,
    /// True if nothing below this prefix was examined yet; false if all of it was.
    pub(crate) fresh: bool,
    pub(crate) visits: u64,
}

/// Returns the fixed places of a slice, as a number.
#[inline(always)]
fn first_prefix(bits: usize, number: u16) -> u64
    requires few { bits ≤ BITS }
    requires number { number < 2 ^ bits }
    ensures { result ≡ 2 ^ bits - 1 - number }
{
    (1 << bits) - 1 - number as u64
}

/// Returns the rank mask of the members of a prefix.
#[tactic(auto, using(crate::proofs::Steps::masks))]
#[inline(always)]
fn mask_of(prefix: u64, place: usize, members: usize) -> u64
    requires few { members ≤ MEMBERS }
    requires place { place ≤ members }
    requires short { prefix < 2 ^ place }
    ensures mask { result ≡ prefix * 2 ^ (members - place) }
    ensures below { result < 2 ^ MEMBERS }
{
    prefix << (members - place)
}

impl Cursor {
    /// Returns the cursor at the fixed places of a slice, with the whole slice still to come.
    pub(crate) fn start(game: &Game, bits: u8, number: u16) -> Cursor
        requires few { bits ≤ BITS }
        requires bits { bits ≤ length game.now.names }
        requires number { number < 2 ^ bits }
        ensures { Starts (votes_of game.now) bits number result }
    {
        let members = game.members();
        let rules = game.rules();
        let bits = bits as usize;
        let prefix = first_prefix(bits, number);
        let fixed = Coalition::of_mask(mask_of(prefix, bits, members));
        Cursor {
            lanes: lanes_of(game, fixed),
            rules,
            sets: sets_of(game),
            ways: game.ways(),
            members,
            bits,
            number,
            prefix,
            place: bits,
            fresh: true,
            visits: bits as u64,
        }
    }

    /// Steps to the next coalition of the slice, or to its end.
    ///
    /// Under several rules the first steps do without the prices; `prices` keeps them after they
    /// were needed once.
    pub(crate) fn find(&mut self, game: &Game, prices: &mut Option<PriceTable>) -> Seek
        requires is { CursorIs (votes_of game.now) self.old }
        requires prices { IfSome prices.old (ArePrices (votes_of game.now)) }
        ensures steps { SomeSteps (votes_of game.now) self.old result self.new }
        ensures comes { result ≢ Seek.NotYet }
        ensures prices { IfSome prices.new (ArePrices (votes_of game.now)) }
    {
        if self.rules == 1 {
            return self.next(game, 1, None);
        }
        match self.some_steps(game, NEAR) {
            Seek::NotYet => {}
            step => return step,
        }
        if prices.is_none() {
            self.find_prices(game, prices);
        }
        self.next(game, self.rules, prices.as_ref())
    }

    /// Does as `find`, but stops after `visits` more visits. Under one rule it never stops before a
    /// coalition or the end.
    pub(crate) fn seek(&mut self, game: &Game, prices: &mut Option<PriceTable>, visits: u64) -> Seek
        requires is { CursorIs (votes_of game.now) self.old }
        requires prices { IfSome prices.old (ArePrices (votes_of game.now)) }
        ensures steps { SomeSteps (votes_of game.now) self.old result self.new }
        ensures not_yet { result ≡ Seek.NotYet →
            (self.new.visits ≡ self.old.visits + visits) × (self.new.visits < 2 ^ 64) }
        ensures one { self.old.rules ≡ 1 → result ≢ Seek.NotYet }
        ensures few { self.old.rules ≢ 1 → self.new.visits ≤ self.old.visits + visits }
        ensures prices { IfSome prices.new (ArePrices (votes_of game.now)) }
    {
        let Some(most) = self.most_visits(visits) else {
            let step = self.find(game, prices);
            // For the prover: the count fits its type
            let _visits = self.visits;
            return step;
        };
        match self.some_steps(game, NEAR.min(visits)) {
            Seek::NotYet => {}
            step => return step,
        }
        if prices.is_none() {
            self.find_prices(game, prices);
        }
        self.up_to(game, prices.as_ref(), most)
    }

    /// Finds the prices of the game. Kept out of line: inlined, so large a value would cost stack
    /// on every call.
    #[cold]
    #[inline(never)]
    fn find_prices(&self, game: &Game, prices: &mut Option<PriceTable>)
        requires { CursorIs (votes_of game.now) self.now }
        ensures { IfSome prices.new (ArePrices (votes_of game.now)) }
    {
        *prices = Some(PriceTable::new(game, &self.lanes));
    }

    /// Returns the number of visits after `more` of them; none if nothing is to stop the walk,
    /// because there is one rule or because the count cannot hold so many.
    fn most_visits(&self, more: u64) -> Option<u64>
        ensures { MatchOption result (self.now.rules ≢ 1 → 2 ^ 64 ≤ self.now.visits + more)
            (λ most. (self.now.rules ≢ 1) × (most ≡ self.now.visits + more)) }
    {
        if self.rules == 1 {
            return None;
        }
        self.visits.checked_add(more)
    }

    /// Makes at most `steps` steps towards the next coalition of the slice or its end, without the
    /// prices.
    fn some_steps(&mut self, game: &Game, steps: u64) -> Seek
        requires { CursorIs (votes_of game.now) self.old }
        ensures steps { SomeSteps (votes_of game.now) self.old result self.new }
        ensures few { self.new.visits ≤ self.old.visits + steps }
    {
        for _ in 0..steps {
            match self.step(game, self.rules, None) {
                Seek::NotYet => {}
                step => return step,
            }
        }
        Seek::NotYet
    }

    /// Steps to the next coalition of the slice, to its end, or until there were `visits` visits.
    fn up_to(&mut self, game: &Game, prices: Option<&PriceTable>, visits: u64) -> Seek
        requires is { CursorIs (votes_of game.now) self.old }
        requires prices { IfSome prices (λ t. ArePrices (votes_of game.now) t.now) }
        requires more { self.old.visits ≤ visits }
        ensures steps { SomeSteps (votes_of game.now) self.old result self.new }
        ensures not_yet { result ≡ Seek.NotYet → self.new.visits ≡ visits }
        ensures few { self.new.visits ≤ visits }
    {
        while self.visits < visits {
            match self.step(game, self.rules, prices) {
                Seek::NotYet => {}
                step => return step,
            }
        }
        Seek::NotYet
    }

    /// Steps to the next coalition of the slice, or to its end. Inlined where it is called with one
    /// rule, so no step loops over the rules there.
    #[inline(always)]
    fn next(&mut self, game: &Game, rules: usize, prices: Option<&PriceTable>) -> Seek
        requires is { CursorIs (votes_of game.now) self.old }
        requires rules { rules ≡ length (votes_of game.now).rules }
        requires prices { IfSome prices (λ t. ArePrices (votes_of game.now) t.now) }
        ensures steps { SomeSteps (votes_of game.now) self.old result self.new }
        ensures comes { result ≢ Seek.NotYet }
    {
        loop {
            match self.step(game, rules, prices) {
                Seek::NotYet => {}
                step => return step,
            }
        }
    }

    /// Makes one step, and at most one visit. Inlined into each loop: a call per step would double
    /// the time of a walk.
    #[inline(always)]
    fn step(&mut self, game: &Game, rules: usize, prices: Option<&PriceTable>) -> Seek
        requires is { CursorIs (votes_of game.now) self.old }
        requires rules { rules ≡ length (votes_of game.now).rules }
        requires prices { IfSome prices (λ t. ArePrices (votes_of game.now) t.now) }
        ensures steps { Steps (votes_of game.now) self.old result self.new }
        ensures few { self.new.visits ≤ self.old.visits + 1 }
    {
        if !self.fresh {
            self.back(game, rules)
        } else if rules > 1 && self.ways > 1 {
            self.enter_ways(game, prices)
        } else {
            self.enter(game, rules, prices)
        }
    }

    /// Examines a fresh prefix of a game of one way: passes by it if no coalition below is minimal
    /// or some quota cannot be met any more, takes in the next member if it does not win yet, and
    /// gives it if it wins.
    #[inline(always)]
    fn enter(&mut self, game: &Game, rules: usize, prices: Option<&PriceTable>) -> Seek
        requires is { CursorIs (votes_of game.now) self.old }
        requires rules { rules ≡ length (votes_of game.now).rules }
        requires one { length (votes_of game.now).ways ≡ 1 }
        requires prices { IfSome prices (λ t. ArePrices (votes_of game.now) t.now) }
        requires fresh { self.old.fresh ≡ true }
        ensures steps { Steps (votes_of game.now) self.old result self.new }
        ensures few { self.new.visits ≤ self.old.visits + 1 }
    {
        let place = self.place;
        if !all_reach(&self.lanes[..rules], place) || self.passes_by(game, rules, prices) {
            self.fresh = false;
            return Seek::NotYet;
        }
        if !all_win(&self.lanes[..rules]) {
            return self.take_next(game, rules);
        }
        self.give(game)
    }

    /// Takes in the member of the next place.
    #[inline(always)]
    pub(crate) fn take_next(&mut self, game: &Game, rules: usize) -> Seek
        requires is { CursorIs (votes_of game.now) self.old }
        requires rules { rules ≡ length (votes_of game.now).rules }
        requires fresh { self.old.fresh ≡ true }
        requires can { reaches (votes_of game.now) self.old.place self.old.prefix ≡ true }
        requires lost { wins_at (votes_of game.now) self.old.place self.old.prefix ≡ false }
        ensures steps { Steps (votes_of game.now) self.old result self.new }
        ensures few { self.new.visits ≤ self.old.visits + 1 }
    {
        let place = self.place;
        take_in(&mut self.lanes[..rules], place);
        self.prefix = 2 * self.prefix + 1;
        self.place += 1;
        self.visits = self.visits.saturating_add(1);
        Seek::NotYet
    }

    /// Gives a prefix that is a minimal coalition.
    #[inline(always)]
    pub(crate) fn give(&mut self, game: &Game) -> Seek
        requires is { CursorIs (votes_of game.now) self.old }
        requires fresh { self.old.fresh ≡ true }
        requires won { wins_at (votes_of game.now) self.old.place self.old.prefix ≡ true }
        requires minimal { minimal (votes_of game.now)
            (self.old.prefix * 2 ^ ((votes_of game.now).members - self.old.place)) ≡ true }
        ensures steps { Steps (votes_of game.now) self.old result self.new }
        ensures few { self.new.visits ≤ self.old.visits }
    {
        let found = Coalition::of_mask(mask_of(self.prefix, self.place, self.members));
        self.fresh = false;
        Seek::Found(found)
    }

    /// Returns whether the prefix is passed by, because no coalition below it is minimal: it has a
    /// member that each rule can spare, or the prices say so. A winning prefix that is not passed
    /// by is minimal.
    #[inline(always)]
    fn passes_by(&self, game: &Game, rules: usize, prices: Option<&PriceTable>) -> bool
        requires is { CursorIs (votes_of game.now) self.now }
        requires rules { rules ≡ length (votes_of game.now).rules }
        requires one_way { length (votes_of game.now).ways ≡ 1 }
        requires prices { IfSome prices (λ t. ArePrices (votes_of game.now) t.now) }
        ensures passes { CanPassBy (votes_of game.now) self.now.place self.now.prefix result }
        ensures one { result ≡ true → rules ≡ 1 → self.now.place ≡ self.now.bits }
    {
        if self.spares_one(game, rules) {
            return true;
        }
        match prices {
            Some(prices) => rules > 1 && self.prunes(game, &[true; limits::RULES], prices),
            None => false,
        }
    }

    /// Returns whether the prefix has a member that each rule can spare, here and so in each
    /// coalition below. Sought only at the fixed places and after a member was taken in. With one
    /// rule not after that either: the last member is the lightest, and was needed.
    #[inline(always)]
    fn spares_one(&self, game: &Game, rules: usize) -> bool
        requires is { CursorIs (votes_of game.now) self.now }
        requires rules { rules ≡ length (votes_of game.now).rules }
        requires one_way { length (votes_of game.now).ways ≡ 1 }
        ensures passes { CanPassBy (votes_of game.now) self.now.place self.now.prefix result }
        ensures one { result ≡ true → rules ≡ 1 → self.now.place ≡ self.now.bits }
    {
        if self.place > self.bits && (rules == 1 || self.prefix % 2 == 0) {
            return false;
        }
        if rules == 1 {
            return self.spares_fixed(game);
        }
        self.spares_here(game)
    }

    /// Returns whether the prefix has a member that each rule can spare. One rule asks it only at
    /// the fixed places. Kept out of line: inlined, it computes the excess of all lanes for each
    /// coalition, which costs a walk a third of its time.
    #[inline(never)]
    fn spares_fixed(&self, game: &Game) -> bool
        requires is { CursorIs (votes_of game.now) self.now }
        requires one_way { length (votes_of game.now).ways ≡ 1 }
        ensures { CanPassBy (votes_of game.now) self.now.place self.now.prefix result }
    {
        self.spares_here(game)
    }

    /// Returns whether the prefix has a member that each rule can spare.
    #[inline(always)]
    fn spares_here(&self, game: &Game) -> bool
        requires is { CursorIs (votes_of game.now) self.now }
        requires one_way { length (votes_of game.now).ways ≡ 1 }
        ensures { CanPassBy (votes_of game.now) self.now.place self.now.prefix result }
    {
        self.has_spared(game, &[true; limits::RULES], &self.excess(game))
    }

    /// Returns by how much the prefix passes each rule's quota; 0 if it does not. All four at once:
    /// a loop over the rules would write the array number by number, and a copy that reads it at
    /// once waits for that.
    #[inline(always)]
    pub(crate) fn excess(&self, game: &Game) -> [u64; limits::RULES]
        requires { CursorIs (votes_of game.now) self.now }
        ensures { ExcessIs (votes_of game.now) self.now.place self.now.prefix result }
    {
        [
            self.lanes[0].excess(),
            self.lanes[1].excess(),
            self.lanes[2].excess(),
            self.lanes[3].excess(),
        ]
    }

    /// Returns whether the prices show that no coalition below which meets the rules of a way is
    /// minimal: some rule needs more than can still come, or what must come lets each rule pass its
    /// quota by enough to spare a member.
    #[inline(never)]
    pub(crate) fn prunes(&self, game: &Game, set: &RuleSet, prices: &PriceTable) -> bool
        requires is { CursorIs (votes_of game.now) self.now }
        requires way { IsSomeWay (votes_of game.now) set.now }
        requires prices { ArePrices (votes_of game.now) prices.now }
        ensures { result ≡ true →
            NothingMeets (votes_of game.now) set.now self.now.place self.now.prefix }
    {
        let mut excess = [0; limits::RULES];
        for rule in 0..self.rules {
            if set[rule] {
                let lane = &self.lanes[rule];
                let need = self.need(game, set, prices, rule);
                if need > lane.rest[self.place] {
                    return true;
                }
                excess[rule] = lane.sum.saturating_add(need).saturating_sub(lane.quota);
            }
        }
        self.has_spared(game, set, &excess)
    }

    /// Returns what each coalition below that meets the rules of a set gets under one of them from
    /// the places to come, at least: what the rule lacks, and what comes with the needs of the
    /// others.
    fn need(&self, game: &Game, set: &RuleSet, prices: &PriceTable, rule: usize) -> u64
        requires is { CursorIs (votes_of game.now) self.now }
        requires prices { ArePrices (votes_of game.now) prices.now }
        requires rule { rule < self.now.rules }
        requires inside { in_set set.now rule ≡ true }
        ensures { IsNeed (votes_of game.now) set.now self.now.place self.now.prefix rule result }
    {
        let mut need = self.lanes[rule].lacks();
        for other in 0..self.rules {
            if other != rule && set[other] {
                need = need.max(self.need_via_other_rule(game, set, prices, rule, other));
            }
        }
        need
    }

    /// Returns what comes under a rule with what another rule lacks, at least.
    #[inline(always)]
    fn need_via_other_rule(
        &self,
        game: &Game,
        set: &RuleSet,
        prices: &PriceTable,
        rule: usize,
        other: usize,
    ) -> u64
        requires is { CursorIs (votes_of game.now) self.now }
        requires prices { ArePrices (votes_of game.now) prices.now }
        requires rule { rule < self.now.rules }
        requires other { other < self.now.rules }
        requires inside { in_set set.now other ≡ true }
        ensures { IsNeed (votes_of game.now) set.now self.now.place self.now.prefix rule result }
    {
        prices.by[rule][other].from[self.place].of(self.lanes[other].lacks())
    }

    /// Returns whether the prefix has a member that each rule of a way can spare if it passes its
    /// quota by its `excess`.
    #[inline(always)]
    pub(crate) fn has_spared(
        &self,
        game: &Game,
        set: &RuleSet,
        excess: &[u64; limits::RULES],
    ) -> bool
        requires is { CursorIs (votes_of game.now) self.now }
        requires way { IsSomeWay (votes_of game.now) set.now }
        ensures some { result ≡ true →
            AreExcesses (votes_of game.now) set.now self.now.place self.now.prefix excess.now →
            NothingMeets (votes_of game.now) set.now self.now.place self.now.prefix }
        ensures none { result ≡ false →
            NoneSpared (votes_of game.now) set.now self.now.place self.now.prefix excess.now }
    {
        let few = self.may_be_spared(game, set, excess);
        few != 0 && self.spares_any(game, set, excess, few)
    }

    /// Returns whether each rule of a way can spare one of a few members. Kept out of line, since
    /// there are seldom any.
    #[inline(never)]
    fn spares_any(
        &self,
        game: &Game,
        set: &RuleSet,
        excess: &[u64; limits::RULES],
        few: u64,
    ) -> bool
        requires is { CursorIs (votes_of game.now) self.now }
        requires way { IsSomeWay (votes_of game.now) set.now }
        requires tried { Tried (votes_of game.now) set.now self.now.place self.now.prefix excess.now few }
        ensures some { result ≡ true →
            AreExcesses (votes_of game.now) set.now self.now.place self.now.prefix excess.now →
            NothingMeets (votes_of game.now) set.now self.now.place self.now.prefix }
        ensures none { result ≡ false →
            NoneSpared (votes_of game.now) set.now self.now.place self.now.prefix excess.now }
    {
        let mut rest = few;
        while rest != 0 {
            let place = self.last_place(game, rest);
            if self.spares(game, set, excess, place) {
                return true;
            }
            rest &= rest - 1;
        }
        false
    }

    /// Returns the last place of a mask of some members.
    #[inline(always)]
    fn last_place(&self, game: &Game, rest: u64) -> usize
        requires is { CursorIs (votes_of game.now) self.now }
        requires some { 0 < rest }
        requires short { rest < 2 ^ (votes_of game.now).members }
        ensures below { result < (votes_of game.now).members }
        ensures inside { has (votes_of game.now).members result rest ≡ true }
        ensures left { bit_and rest (rest - 1) ≡ without (votes_of game.now).members result rest }
    {
        self.members - 1 - rest.trailing_zeros() as usize
    }

    /// Returns those members of the prefix that each rule of a set may spare.
    ///
    /// A rule that passes its quota by less than the lightest member weighs can spare only members
    /// without weight.
    #[inline(always)]
    fn may_be_spared(&self, game: &Game, set: &RuleSet, excess: &[u64; limits::RULES]) -> u64
        requires { CursorIs (votes_of game.now) self.now }
        ensures { Tried (votes_of game.now) set.now self.now.place self.now.prefix excess.now result }
    {
        let mut few = mask_of(self.prefix, self.place, self.members);
        let last = self.place.saturating_sub(1);
        for rule in 0..self.rules {
            let lane = &self.lanes[rule];
            if set[rule] && excess[rule] < lane.lightest[last] {
                few &= lane.weightless;
            }
        }
        few
    }

    /// Returns whether each rule of a set can spare the member of a place.
    #[inline(always)]
    fn spares(
        &self,
        game: &Game,
        set: &RuleSet,
        excess: &[u64; limits::RULES],
        place: usize,
    ) -> bool
        requires is { CursorIs (votes_of game.now) self.now }
        requires place { place < self.now.members }
        ensures all { result ≡ true → CanSpare (votes_of game.now) set.now excess.now place }
        ensures none { result ≡ false → CanSpare (votes_of game.now) set.now excess.now place → ⊥ }
    {
        for rule in 0..self.rules {
            if set[rule] && self.lanes[rule].weights[place] > excess[rule] {
                return false;
            }
        }
        true
    }

    /// Comes back: goes up to the last member that is in, and leaves it out.
    #[inline(always)]
    fn back(&mut self, game: &Game, rules: usize) -> Seek
        requires is { CursorIs (votes_of game.now) self.old }
        requires rules { rules ≡ length (votes_of game.now).rules }
        requires stale { self.old.fresh ≡ false }
        ensures steps { Steps (votes_of game.now) self.old result self.new }
        ensures few { self.new.visits ≤ self.old.visits + 1 }
    {
        let out = self.prefix.trailing_zeros();
        let place = self.place.saturating_sub(out as usize);
        if place <= self.bits {
            return Seek::End;
        }
        leave_out(&mut self.lanes[..rules], place - 1);
        self.prefix = (self.prefix >> out) - 1;
        self.place = place;
        self.fresh = true;
        Seek::NotYet
    }
}
