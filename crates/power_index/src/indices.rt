//! The two power indices of a member over minimal winning coalitions.
ghost use Rattle.council_game.specs.Game.{GameView};
ghost use Rattle.power_index.specs.Fractions.{IsIndex, IsLowestOf, lowest_terms, pair_of};
ghost use Rattle.power_index.specs.Indices.{deegan_packel, public_good};
ghost use Rattle.council_game.specs.declared.limits.TheConstants.{MEMBERS};
ghost use Rattle.power_index.specs.declared.indices.TheConstants.{DENOMINATOR};
ghost use Rattle.power_index.specs.Tables.{AreCounts, table_deegan_packel, table_public_good, table_total};
ghost use Rattle.power_index.specs.Tables.{table_of_member_size, weighted_sum};
ghost use Rattle.std.specs.Prelude.{◌≡◌, ℕ, ◌*◌, List, ◌<◌, ◌≤◌, ◌^◌, length};

use crate::{Counts, Fraction, lowest};

/// The least common multiple of the numbers 1 to 40.
pub(crate) const DENOMINATOR: u128 = 5_342_931_457_063_200;

/// Divides a part by a whole, in lowest terms: 0/1 if there is nothing to share.
pub(crate) fn ratio(part: u128, whole: u128) -> Fraction
    requires part { part ≤ whole }
    requires small { whole ≤ 10 ^ 30 }
    ensures lowest { IsLowestOf (part, whole) (pair_of result) }
    ensures terms { 0 < whole → pair_of result ≡ lowest_terms (part, whole) }
    ensures index { IsIndex (pair_of result) }
{
    lowest(part, whole.max(1))
}

/// Adds up 1 / size over the coalitions that contain a member, times `DENOMINATOR`.
fn weight(counts: &Counts, member: usize) -> u128
    requires { member < counts.now.members }
    ensures sum { result ≡ weighted_sum DENOMINATOR (table_of_member_size counts.now member) counts.now.members }
    ensures light { result ≤ DENOMINATOR * table_total counts.now }
    ensures few { counts.now.members ≤ MEMBERS }
{
    let mut sum = 0;
    for size in 1..counts.members() + 1 {
        sum += u128::from(counts.wide_of_member_size(member, size)) * (DENOMINATOR / size as u128);
    }
    sum
}

/// Computes the Deegan-Packel index of a member, in lowest terms.
///
/// For each list with these counts it is the sum of 1 / size over the coalitions that contain the
/// member, divided by the number of all coalitions (Deegan and Packel 1978, over the minimal
/// winning coalitions). It is 0/1 for a member of none.
pub fn deegan_packel(counts: &Counts, member: usize) -> Fraction
    requires { member < counts.now.members }
    ensures lowest { (g : GameView) (list : List ℕ) → AreCounts g list counts.now →
        IsLowestOf (deegan_packel g list member) (pair_of result) }
    ensures terms { (g : GameView) (list : List ℕ) → 0 < length list → AreCounts g list counts.now →
        pair_of result ≡ lowest_terms (deegan_packel g list member) }
    ensures tables { 1 ≤ table_total counts.now →
        pair_of result ≡ lowest_terms (table_deegan_packel counts.now member) }
    ensures index { IsIndex (pair_of result) }
{
    let sum = weight(counts, member);
    ratio(sum, DENOMINATOR * u128::from(counts.wide_total()))
}

/// Computes the public good index of a member, in lowest terms.
///
/// For each list with these counts it is the number of coalitions that contain the member, divided
/// by the sum of these numbers over all members (Holler 1982; Holler and Packel 1983, over the
/// minimal winning coalitions). It is 0/1 for a member of none.
pub fn public_good(counts: &Counts, member: usize) -> Fraction
    requires { member < counts.now.members }
    ensures lowest { (g : GameView) (list : List ℕ) → AreCounts g list counts.now →
        IsLowestOf (public_good g list member) (pair_of result) }
    ensures terms { (g : GameView) (list : List ℕ) → 0 < length list → AreCounts g list counts.now →
        pair_of result ≡ lowest_terms (public_good g list member) }
    ensures tables { 1 ≤ table_total counts.now →
        pair_of result ≡ lowest_terms (table_public_good counts.now member) }
    ensures index { IsIndex (pair_of result) }
{
    ratio(
        u128::from(counts.wide_of_member(member)),
        u128::from(counts.memberships()),
    )
}
