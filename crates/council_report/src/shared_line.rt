//! A line that one coalition shares with the next.
ghost use Rattle.std.specs.Prelude.{◌≡◌, ◌+◌, ◌^◌, ◌<◌, ◌≤◌, true, false, length, IfOk};
ghost use Rattle.std.specs.List.{flat_map};
ghost use Rattle.council_game.specs.declared.limits.TheConstants.{MEMBERS};
ghost use Rattle.council_game.specs.Game.{votes_of};
ghost use Rattle.council_game.specs.Votes.{has, rule_at, weight};
ghost use Rattle.council_report.specs.Lines.{coalition_line, with_tab, with_slashes, weights_of_coalition, names_of};
ghost use Rattle.council_report.specs.Inner.Ready.{AppendsInRoom};
ghost use Rattle.council_report.specs.Inner.SharedLine.{HasNoneFrom, IsLine, IsReadyLine, IsWholeLine, SameBefore};

use crate::label::{Label, labels_of};
use crate::lines::{push_number, push_values};
use crate::output::{Block, LINE};
use crate::subtotal::Subtotal;
use council_game::{Coalition, Game, limits};
use std::alloc::{AllocError, Global};

/// Returns the first place at which two coalitions differ.
///
/// It is `members` if they are the same.
fn first_difference(members: usize, a: Coalition, b: Coalition) -> usize
    requires few { members ≤ MEMBERS }
    requires a_below { a < 2 ^ members }
    requires b_below { b < 2 ^ members }
    ensures within { result ≤ members }
    ensures same { SameBefore members result a b }
{
    let digits = 64 - (a.mask() ^ b.mask()).leading_zeros() as usize;
    members - digits
}

/// Returns the place after the last one that is in a coalition.
#[tactic(auto, using(crate::proofs::Differences::last))]
fn past_last(members: usize, coalition: Coalition) -> usize
    requires few { members ≤ MEMBERS }
    requires some { 0 < coalition }
    requires below { coalition < 2 ^ members }
    ensures within { result ≤ members }
    ensures none { HasNoneFrom members result coalition }
{
    members - coalition.mask().trailing_zeros() as usize
}

/// The line of a coalition, with a subtotal at each place up to its last member. What the next
/// coalition shares with it is kept, and only what follows is made anew; in listing order this is
/// little.
#[derive(Drop)]
pub(crate) struct SharedLine {
    /// What each member adds, by rank.
    pub(crate) labels: Vec<Label>,
    /// The coalition whose line this is.
    pub(crate) coalition: Coalition,
    /// The names of its members, each after a TAB.
    pub(crate) names: Vec<u8>,
    /// How many places were looked at: no member comes after.
    pub(crate) end: usize,
    /// How long the names before each place are, and what their members weigh.
    pub(crate) subtotals: [Subtotal; limits::SIZES],
}

impl SharedLine {
    /// Returns the line of no member, with room for those of all.
    pub(crate) fn new(alloc: Global, game: &Game) -> Result<SharedLine, AllocError>
        ensures { IfOk result (IsReadyLine game.now) }
    {
        Ok(SharedLine {
            labels: labels_of(alloc, game)?,
            coalition: Coalition::of_mask(0),
            // memory: a line, whose room a clause says
            names: Vec::with_capacity(alloc, LINE)?,
            end: 0,
            subtotals: [Subtotal::none(); limits::SIZES],
        })
    }

    /// Keeps what comes before a place, as the beginning of another coalition's line.
    fn keep(&mut self, shared: usize, coalition: Coalition, game: &Game)
        requires line { IsLine game.now self.old }
        requires within { shared ≤ self.old.end }
        requires same { SameBefore (length game.now.names) shared self.old.coalition coalition }
        ensures line { IsLine game.now self.new }
        ensures coalition { self.new.coalition ≡ coalition }
        ensures end { self.new.end ≡ shared }
    {
        self.names.truncate(self.subtotals[shared].length);
        self.end = shared;
        self.coalition = coalition;
    }

    /// Takes in the next place, if no member of it is in.
    fn pass(&mut self, game: &Game)
        requires line { IsLine game.now self.old }
        requires more { self.old.end < length game.now.names }
        requires out { has (length game.now.names) self.old.end self.old.coalition ≡ false }
        ensures line { IsLine game.now self.new }
        ensures coalition { self.new.coalition ≡ self.old.coalition }
        ensures end { self.new.end ≡ self.old.end + 1 }
    {
        let subtotal = self.subtotals[self.end];
        self.end += 1;
        self.subtotals[self.end] = subtotal;
    }

    /// Takes in the next place, whose member is in.
    fn add(&mut self, game: &Game)
        requires line { IsLine game.now self.old }
        requires more { self.old.end < length game.now.names }
        requires inside { has (length game.now.names) self.old.end self.old.coalition ≡ true }
        ensures line { IsLine game.now self.new }
        ensures coalition { self.new.coalition ≡ self.old.coalition }
        ensures end { self.new.end ≡ self.old.end + 1 }
    {
        let label = &self.labels[self.end];
        let subtotal = self.subtotals[self.end];
        let subtotal = subtotal.with(label);
        match self.names.extend_from_slice(&label.field) {
            Ok(()) => {}
            Err(_) => unreachable!(),
        }
        self.end += 1;
        self.subtotals[self.end] = subtotal;
    }

    /// Moves on to the line of another coalition, whichever that is.
    pub(crate) fn move_to(&mut self, game: &Game, coalition: Coalition)
        requires ready { IsReadyLine game.now self.old }
        requires some { 0 < coalition }
        requires below { coalition < 2 ^ length game.now.names }
        ensures { IsWholeLine game.now coalition self.new }
    {
        let members = game.members();
        let last = past_last(members, coalition);
        let shared = first_difference(members, self.coalition, coalition);
        self.keep(shared.min(self.end), coalition, game);
        while self.end < last {
            if coalition.has(members, self.end) {
                self.add(game);
            } else {
                self.pass(game);
            }
        }
    }

    /// Returns the weight of the coalition under a rule.
    #[tactic(auto, using(crate::proofs::SharedLines::whole_weight))]
    fn weight_under(&self, game: &Game, rule: usize) -> u64
        requires line { IsWholeLine game.now self.now.coalition self.now }
        requires rule { rule < length game.now.rules }
        ensures { result ≡
            weight (rule_at (votes_of game.now).rules rule).weights self.now.coalition }
    {
        let subtotal = self.subtotals[self.end];
        subtotal.weights[rule]
    }

    /// Appends the weights of the coalition, one for each rule.
    fn push_weights(&self, out: &mut Block, game: &Game)
        requires { IsWholeLine game.now self.now.coalition self.now }
        ensures { AppendsInRoom out.old out.new
            (with_tab (with_slashes (weights_of_coalition game.now self.now.coalition))) }
    {
        push_values(out, game.rules(), |r| self.weight_under(game, r));
    }

    /// Appends the names of the coalition's members, in rank order.
    #[tactic(auto, using(crate::proofs::SharedLines::whole))]
    fn push_names(&self, out: &mut Block, game: &Game)
        requires { IsWholeLine game.now self.now.coalition self.now }
        ensures { AppendsInRoom out.old out.new
            (flat_map with_tab (names_of game.now self.now.coalition)) }
    {
        out.push(&self.names);
    }

    /// Puts the line: `coalition`, its size, its weight under each rule, the names of its members
    /// in rank order.
    #[tactic(auto, unfolding(crate::specs::Lines::coalition_line))]
    pub(crate) fn push(&self, out: &mut Block, game: &Game)
        requires line { IsWholeLine game.now self.now.coalition self.now }
        requires below { self.now.coalition < 2 ^ length game.now.names }
        ensures { AppendsInRoom out.old out.new
            (coalition_line game.now self.now.coalition) }
    {
        out.push(b"coalition");
        push_number(out, u64::from(self.coalition.size()));
        self.push_weights(out, game);
        self.push_names(out, game);
        out.push(b"\n");
    }
}
