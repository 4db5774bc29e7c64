//! What the walk knows of each rule. Most games have one rule: the functions over all rules then go
//! straight to its lane, which saves a fifth of the time of a walk.
ghost use Rattle.std.specs.Prelude.{◌≡◌, ◌==◌, ◌+◌, ◌-◌, ◌^◌, ◌<◌, ◌≤◌, ℕ, length, take, drop, map, slice_index};
ghost use Rattle.std.specs.List.{list_all, All, sum};
ghost use Rattle.council_game.specs.declared.limits.TheConstants.{MEMBERS, RULES};
ghost use Rattle.council_game.specs.Game.{votes_of};
ghost use Rattle.council_game.specs.Votes.{rule_at, has, weight};
ghost use Rattle.mwc_walk.specs.Inner.Places.{LaneIs, LanesStand};
ghost use Rattle.mwc_walk.specs.Inner.Lanes.{lane_at, lane_reaches, lane_wins, lane_with, lane_without};

use council_game::{Coalition, Game, limits};

/// What the walk knows of one rule.
#[derive(Clone, Copy)]
pub(crate) struct Lane {
    pub(crate) quota: u64,
    /// The weight of the members that are in.
    pub(crate) sum: u64,
    /// The rank mask of the members without weight.
    pub(crate) weightless: u64,
    /// For each place the least weight but 0 up to it; the greatest number if none there has
    /// weight.
    pub(crate) lightest: [u64; limits::MEMBERS],
    /// The weights, in rank order.
    pub(crate) weights: [u64; limits::MEMBERS],
    /// For each place what the members from it on weigh together.
    pub(crate) rest: [u64; limits::SIZES],
}

impl Lane {
    /// Returns the lane of a rule, with the members of a coalition in.
    pub(crate) fn new(game: &Game, rule: usize, fixed: Coalition) -> Lane
        requires { rule < length game.now.rules }
        ensures lane { LaneIs (votes_of game.now).members
            (rule_at (votes_of game.now).rules rule) result }
        ensures sum { result.sum ≡ weight (rule_at (votes_of game.now).rules rule).weights fixed }
    {
        let members = game.members();
        let weights = weights_of(game, rule);
        Lane {
            quota: game.rule_quota(rule),
            sum: game.rule_weight_of(rule, fixed),
            weightless: weightless_of(&weights, members),
            lightest: lightest_of(&weights, members),
            weights,
            rest: rest_of(&weights, members),
        }
    }

    /// Returns whether the quota can still be met, by all members from a place on.
    pub(crate) fn reaches(&self, place: usize) -> bool
        requires { place ≤ MEMBERS }
        ensures { result ≡ lane_reaches place self.now }
    {
        self.lacks() <= self.rest[place]
    }

    /// Returns what is missing from the quota; 0 if it is met.
    #[inline(always)]
    pub(crate) fn lacks(&self) -> u64
        ensures { result ≡ self.now.quota - self.now.sum }
    {
        self.quota.saturating_sub(self.sum)
    }

    /// Returns by how much the quota is passed; 0 if it is not.
    #[inline(always)]
    pub(crate) fn excess(&self) -> u64
        ensures { result ≡ self.now.sum - self.now.quota }
    {
        self.sum.saturating_sub(self.quota)
    }

    /// Returns whether the quota is met.
    pub(crate) fn wins(&self) -> bool
        ensures { result ≡ lane_wins self.now }
    {
        self.quota <= self.sum
    }
}

/// Returns the lane of each rule, with the members of a coalition in; copies of the first after
/// them.
pub(crate) fn lanes_of(game: &Game, fixed: Coalition) -> [Lane; limits::RULES]
    ensures long { length result ≡ RULES }
    ensures lanes { LanesStand (votes_of game.now) result }
    ensures sums { (i : ℕ) → i < length (votes_of game.now).rules →
        (lane_at result i).sum ≡ weight (rule_at (votes_of game.now).rules i).weights fixed }
{
    game.was_checked();
    let mut lanes = [Lane::new(game, 0, fixed); limits::RULES];
    for rule in 1..game.rules() {
        lanes[rule] = Lane::new(game, rule, fixed);
    }
    lanes
}

/// Returns the weights of a rule, in rank order.
fn weights_of(game: &Game, rule: usize) -> [u64; limits::MEMBERS]
    requires { rule < length game.now.rules }
    ensures long { length result ≡ MEMBERS }
    ensures same { take (votes_of game.now).members result
        ≡ (rule_at (votes_of game.now).rules rule).weights }
{
    let mut weights = [0; limits::MEMBERS];
    for place in 0..game.members() {
        weights[place] = game.rule_weight(rule, game.member_at(place));
    }
    weights
}

/// Returns for each place what the members from it on weigh together.
fn rest_of(weights: &[u64; limits::MEMBERS], members: usize) -> [u64; limits::SIZES]
    requires { members ≤ MEMBERS }
    ensures { sum (take members weights.now) < 2 ^ 64 → (q : ℕ) → q ≤ members →
        slice_index result q ≡ sum (drop q (take members weights.now)) }
{
    let mut rest = [0u64; limits::SIZES];
    for place in (0..members).rev() {
        rest[place] = rest[place + 1].saturating_add(weights[place]);
    }
    rest
}

/// Returns the rank mask of the members without weight.
#[tactic(auto, using(crate::proofs::Rules::weightless))]
fn weightless_of(weights: &[u64; limits::MEMBERS], members: usize) -> u64
    requires { members ≤ MEMBERS }
    ensures { (q : ℕ) → q < members → has members q result ≡ (slice_index weights.now q == 0) }
{
    let mut none = Coalition::none();
    for place in 0..members {
        if weights[place] == 0 {
            none = none.with(members, place);
        }
    }
    none.mask()
}

/// Returns for each place the least weight but 0 up to it.
fn lightest_of(weights: &[u64; limits::MEMBERS], members: usize) -> [u64; limits::MEMBERS]
    requires { members ≤ MEMBERS }
    ensures { (p q : ℕ) → p < members → q ≤ p → slice_index weights.now q < slice_index result p →
        slice_index weights.now q ≡ 0 }
{
    let mut lightest = [u64::MAX; limits::MEMBERS];
    let mut least = u64::MAX;
    for place in 0..members {
        if weights[place] > 0 {
            least = least.min(weights[place]);
        }
        lightest[place] = least;
    }
    lightest
}

/// Returns whether each quota can still be met, by all members from a place on.
pub(crate) fn all_reach(lanes: &[Lane], place: usize) -> bool
    requires { place ≤ MEMBERS }
    ensures { result ≡ list_all (lane_reaches place) lanes.now }
{
    match lanes {
        [lane] => lane.reaches(place),
        _ => lanes.iter().all(|lane| lane.reaches(place)),
    }
}

/// Returns whether each quota is met.
pub(crate) fn all_win(lanes: &[Lane]) -> bool
    ensures { result ≡ list_all lane_wins lanes.now }
{
    match lanes {
        [lane] => lane.wins(),
        _ => lanes.iter().all(Lane::wins),
    }
}

/// Takes the member of a place in.
pub(crate) fn take_in(lanes: &mut [Lane], place: usize)
    requires place { place < MEMBERS }
    requires fits { All (λ l. l.sum + slice_index l.weights place < 2 ^ 64) lanes.old }
    ensures { lanes.new ≡ map (lane_with place) lanes.old }
{
    if let [lane] = lanes {
        lane.sum += lane.weights[place];
        return;
    }
    for lane in lanes.iter_mut() {
        lane.sum += lane.weights[place];
    }
}

/// Leaves the member of a place out again.
pub(crate) fn leave_out(lanes: &mut [Lane], place: usize)
    requires place { place < MEMBERS }
    requires fits { All (λ l. slice_index l.weights place ≤ l.sum) lanes.old }
    ensures { lanes.new ≡ map (lane_without place) lanes.old }
{
    if let [lane] = lanes {
        lane.sum -= lane.weights[place];
        return;
    }
    for lane in lanes.iter_mut() {
        lane.sum -= lane.weights[place];
    }
}
