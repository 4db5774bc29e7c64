//! The indices and measures that rest on swings.
ghost use Rattle.council_game.specs.declared.limits.TheConstants.{MEMBERS};
ghost use Rattle.council_game.specs.Game.{GameView, IsGame};
ghost use Rattle.power_index.specs.Fractions.{IsIndex, lowest_terms, pair_of};
ghost use Rattle.std.specs.Prelude.{◌≡◌, ◌<◌, ◌≤◌, ◌^◌};
ghost use Rattle.power_index.specs.SwingIndices.{banzhaf, penrose, power_to_act, power_to_initiate, power_to_prevent, shapley_shubik};
ghost use Rattle.power_index.specs.Inner.Orders.{order_share};
ghost use Rattle.power_index.specs.Swings.{AreWinningCounts};
ghost use Rattle.power_index.specs.declared.indices.TheConstants.{DENOMINATOR};

use crate::indices::{DENOMINATOR, ratio};
use crate::{Fraction, Swings};

/// Returns how many coalitions there are of some members.
fn coalitions(members: usize) -> u128
    requires { members ≤ MEMBERS }
    ensures { result ≡ 2 ^ members }
{
    1 << members as u32
}

/// Computes the Banzhaf index of a member, in lowest terms.
///
/// It is the member's share of the swings of all members (Banzhaf 1965).
pub fn banzhaf(swings: &Swings, member: usize) -> Fraction
    requires { member < swings.now.members }
    ensures terms { (g : GameView) → IsGame g → AreWinningCounts g swings.now
        → pair_of result ≡ lowest_terms (banzhaf g member) }
    ensures index { IsIndex (pair_of result) }
{
    ratio(swings.of_member(member).into(), swings.all().into())
}

/// Computes Penrose's measure of a member, in lowest terms.
///
/// It is the probability that the member decides, if each other one says yes or no with equal
/// chances (Penrose 1946): its swings, over 2^(n-1) for n members. It is also called the absolute
/// Banzhaf index.
pub fn penrose(swings: &Swings, member: usize) -> Fraction
    requires { member < swings.now.members }
    ensures terms { (g : GameView) → IsGame g → AreWinningCounts g swings.now
        → pair_of result ≡ lowest_terms (penrose g member) }
    ensures index { IsIndex (pair_of result) }
{
    let choices = coalitions(swings.members() - 1);
    ratio(swings.of_member(member).into(), choices)
}

/// Returns the share of the orders in which certain members come first and a certain one next.
///
/// It is over `DENOMINATOR`; `before` is the number of those that come first.
fn order_share(members: usize, before: usize) -> u128
    requires before { before < members }
    requires few { members ≤ MEMBERS }
    ensures share { result ≡ order_share members before }
    ensures few { result ≤ DENOMINATOR }
{
    let mut share = DENOMINATOR / members as u128;
    for k in 1..before + 1 {
        share = share * k as u128 / (members - k) as u128;
    }
    share
}

/// Computes the Shapley-Shubik index of a member, in lowest terms.
///
/// Of all orders of the n members, it is the share of those in which the members up to this one
/// win, and lose without it (Shapley and Shubik 1954): the sum over all sizes s of its swings of
/// size s times (s-1)! (n-s)! / n!.
pub fn shapley_shubik(swings: &Swings, member: usize) -> Fraction
    requires { member < swings.now.members }
    ensures terms { (g : GameView) → IsGame g → AreWinningCounts g swings.now
        → pair_of result ≡ lowest_terms (shapley_shubik g member) }
    ensures index { IsIndex (pair_of result) }
{
    let members = swings.members();
    let mut sum = 0;
    for size in 1..members + 1 {
        let swings = swings.of_member_size(member, size);
        sum += u128::from(swings) * order_share(members, size - 1);
    }
    ratio(sum, DENOMINATOR)
}

/// Computes Coleman's power of the body to act, in lowest terms.
///
/// It is the share of the winning coalitions in all coalitions (Coleman 1971).
pub fn power_to_act(swings: &Swings) -> Fraction
    ensures terms { (g : GameView) → IsGame g → AreWinningCounts g swings.now
        → pair_of result ≡ lowest_terms (power_to_act g) }
    ensures index { IsIndex (pair_of result) }
{
    ratio(swings.winning().into(), coalitions(swings.members()))
}

/// Computes Coleman's power of a member to prevent action, in lowest terms.
///
/// It is the share of the member's swings in the winning coalitions (Coleman 1971).
pub fn power_to_prevent(swings: &Swings, member: usize) -> Fraction
    requires { member < swings.now.members }
    ensures terms { (g : GameView) → IsGame g → AreWinningCounts g swings.now
        → pair_of result ≡ lowest_terms (power_to_prevent g member) }
    ensures index { IsIndex (pair_of result) }
{
    ratio(swings.of_member(member).into(), swings.winning().into())
}

/// Computes Coleman's power of a member to initiate action, in lowest terms.
///
/// It is the quotient of the member's swings and the losing coalitions (Coleman 1971).
pub fn power_to_initiate(swings: &Swings, member: usize) -> Fraction
    requires { member < swings.now.members }
    ensures terms { (g : GameView) → IsGame g → AreWinningCounts g swings.now
        → pair_of result ≡ lowest_terms (power_to_initiate g member) }
    ensures index { IsIndex (pair_of result) }
{
    let losing = coalitions(swings.members()) - u128::from(swings.winning());
    ratio(swings.of_member(member).into(), losing)
}
