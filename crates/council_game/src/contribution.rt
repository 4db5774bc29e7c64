//! The order of members by what they contribute to winning.
ghost use Rattle.std.specs.Prelude.{◌≡◌, ◌<◌, ◌⊎◌, IfOk, MatchOption, length, map};
ghost use Rattle.council_game.specs.Contribution.{by_contribution, contribution};
ghost use Rattle.council_game.specs.Members.{members};

use crate::{Game, Memory};
use std::alloc::Global;

/// The number of equal parts of what a rule can do without, in which contributions to it are
/// counted.
pub const PARTS: u128 = 1_000_000_000_000_000;

/// The greatest contribution to a rule. Four of them fit 64 bits.
pub const MOST: u128 = 4_000_000_000_000_000_000;

impl Game {
    /// Returns a copy of the game with its places by contribution.
    ///
    /// Members who contribute more come first: in this order a walk over the coalitions is short.
    /// It is none if the places are in this order, or if the game has one rule.
    ///
    /// What a member contributes to a rule is its weight divided by what the rule can do without
    /// (total - quota + 1). So members who can veto come first, and large members before small
    /// ones, whatever the order of the rules.
    ///
    /// # Errors
    ///
    /// `Memory` if an allocation was refused.
    pub fn by_contribution(&self, alloc: Global) -> Result<Option<Game>, Memory>
        ensures { IfOk result (λ game. MatchOption game
            ((length self.now.rules ≡ 1) ⊎ (by_contribution self.now ≡ self.now))
            (λ game. game ≡ by_contribution self.now)) }
    {
        if self.rules() == 1 {
            return Ok(None);
        }
        let contributions = contributions(alloc, self)?;
        self.rank_by(alloc, &contributions)
    }
}

/// Returns what each member contributes, in the order of the file.
#[tactic(auto, using(crate::proofs::Shared::Lists::map_one_more))]
fn contributions(alloc: Global, game: &Game) -> Result<Vec<u64>, Memory>
    ensures { IfOk result (λ list. list.items ≡ map (contribution game.now) (members game.now)) }
{
    let members = game.members();
    let mut list = Vec::with_capacity(alloc, members)?;
    for member in 0..members {
        list.push(contribution(game, member))?;
    }
    Ok(list)
}

/// Returns what a member contributes to all rules together.
fn contribution(game: &Game, member: usize) -> u64
    requires { member < length game.now.names }
    ensures { result ≡ contribution game.now member }
{
    let mut sum = 0;
    for rule in 0..game.rules() {
        let spare = game.rule_total(rule) - game.rule_quota(rule) + 1;
        let share = game.rule_weight(rule, member) as u128 * PARTS / spare as u128;
        sum += share.min(MOST) as u64;
    }
    sum
}
