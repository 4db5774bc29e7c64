//! The lines of what was counted: one for each size, and one for each member.
ghost use Rattle.std.specs.Prelude.{◌≡◌, ◌++◌, ◌<◌, ◌≤◌, ◌∷◌, length, map, decimal, []};
ghost use Rattle.std.specs.List.{flat_map};
ghost use Rattle.std.specs.Option.{option_map_or};
ghost use Rattle.council_game.specs.Game.{GameView, IsGame};
ghost use Rattle.power_index.specs.Counting.{members};
ghost use Rattle.power_index.specs.Tables.{table_of_member_size, table_total};
ghost use Rattle.power_index.specs.Fractions.{IsIndex, pair_of};
ghost use Rattle.power_index.specs.Swings.{AreWinningCounts};
ghost use Rattle.council_report.specs.Lines.{with_tab, with_slashes, weights_of_member, index_fields};
ghost use Rattle.council_report.specs.SwingLines.{added_fields, swing_fields};
ghost use Rattle.council_report.specs.Inner.Ready.{AppendsInRoom};
ghost use Rattle.council_report.specs.Inner.Numbers.{AreSomeCounts};
ghost use Rattle.council_report.specs.Inner.Lines.{fields_of, fields_of_counts, line_of_size, line_of_member};

use crate::game_numbers::GameNumbers;
use crate::lines::{push_field, push_number, push_values};
use crate::output::Block;
use council_game::Game;
use itoa::Buffer;
use power_index::{
    Counts, Fraction, Swings, banzhaf, deegan_packel, penrose, power_to_initiate, power_to_prevent,
    public_good, shapley_shubik,
};

/// Appends a field `top/bottom`.
fn push_fraction(out: &mut Block, fraction: Fraction)
    ensures { AppendsInRoom out.old out.new (with_tab (decimal fraction.top ++ 47 ∷ decimal fraction.bottom)) }
{
    let mut buffer = Buffer::new();
    push_field(out, buffer.format(fraction.top).as_bytes());
    out.push(b"/");
    out.push(buffer.format(fraction.bottom).as_bytes());
}

/// Appends two fields: an index as a fraction and as decimals.
pub(crate) fn push_index(out: &mut Block, index: Fraction)
    requires { IsIndex (pair_of index) }
    ensures { AppendsInRoom out.old out.new (flat_map with_tab (index_fields (pair_of index))) }
{
    push_fraction(out, index);
    push_field(out, &index.decimals());
}

/// Appends for each member how many coalitions of a size contain it.
fn push_counts(out: &mut Block, counts: &Counts, size: usize)
    requires { size ≤ counts.now.members }
    ensures { (g : GameView) → length g.names ≡ counts.now.members → AppendsInRoom out.old out.new
        (flat_map with_tab (map (λ i. decimal (table_of_member_size counts.now i size)) (members g))) }
{
    for member in 0..counts.members() {
        push_number(out, counts.wide_of_member_size(member, size));
    }
}

/// Appends the line of a size, unless no coalition has it.
///
/// It has the size, how many coalitions have it, and how many of those contain each member.
#[tactic(auto, unfolding(crate::specs::Lines::size_line))]
pub(crate) fn push_size(out: &mut Block, counts: &Counts, size: usize)
    requires { size ≤ counts.now.members }
    ensures { (g : GameView) → length g.names ≡ counts.now.members → AppendsInRoom out.old out.new
        (line_of_size g counts.now size) }
{
    let count = counts.wide_of_size(size);
    if count == 0 {
        return;
    }
    out.push(b"size");
    push_number(out, size as u64);
    push_number(out, count);
    push_counts(out, counts, size);
    out.push(b"\n");
}

/// Appends the weights of a member, one for each rule.
fn push_weights(out: &mut Block, game: &Game, member: usize)
    requires { member < length game.now.names }
    ensures { AppendsInRoom out.old out.new (with_tab (with_slashes (weights_of_member game.now member))) }
{
    push_values(out, game.rules(), |r| game.rule_weight(r, member));
}

/// Appends how many coalitions contain a member, and its two indices.
fn push_count_fields(out: &mut Block, counts: &Counts, member: usize)
    requires member { member < counts.now.members }
    requires some { 1 ≤ table_total counts.now }
    ensures { AppendsInRoom out.old out.new (flat_map with_tab (fields_of_counts counts.now member)) }
{
    push_number(out, counts.wide_of_member(member));
    push_index(out, deegan_packel(counts, member));
    push_index(out, public_good(counts, member));
}

/// Appends a member's swings and the five indices that rest on them.
#[tactic(auto, unfolding(crate::specs::SwingLines::swing_fields))]
fn push_swing_fields(out: &mut Block, swings: &Swings, member: usize)
    requires { member < swings.now.members }
    ensures { (g : GameView) → IsGame g → AreWinningCounts g swings.now
        → AppendsInRoom out.old out.new (flat_map with_tab (swing_fields g member)) }
{
    push_number(out, swings.of_member(member));
    push_index(out, banzhaf(swings, member));
    push_index(out, penrose(swings, member));
    push_index(out, shapley_shubik(swings, member));
    push_index(out, power_to_prevent(swings, member));
    push_index(out, power_to_initiate(swings, member));
}

/// Appends the fields of a member from the counts, if there are any.
fn push_counted(out: &mut Block, numbers: &GameNumbers<'_>, member: usize)
    requires { member < length numbers.now.game.now.names }
    ensures { AppendsInRoom out.old out.new (flat_map with_tab
        (option_map_or (λ c. fields_of_counts c.now member) numbers.now.counts [])) }
{
    if let Some(counts) = numbers.counts {
        push_count_fields(out, counts, member);
    }
}

/// Appends the fields of a member from the swings, if there are any.
fn push_added(out: &mut Block, numbers: &GameNumbers<'_>, member: usize)
    requires { member < length numbers.now.game.now.names }
    ensures { AppendsInRoom out.old out.new (flat_map with_tab
        (added_fields numbers.now.game.now numbers.now.swings member)) }
{
    if let Some(swings) = numbers.swings {
        push_swing_fields(out, swings, member);
    }
}

/// Appends the fields of a member from what was counted.
fn push_fields(out: &mut Block, numbers: &GameNumbers<'_>, member: usize)
    requires { member < length numbers.now.game.now.names }
    ensures { AppendsInRoom out.old out.new (flat_map with_tab (fields_of numbers.now member)) }
{
    push_counted(out, numbers, member);
    push_added(out, numbers, member);
}

/// Appends the line of a member: name, weights, and what was counted.
#[tactic(auto, unfolding(crate::specs::Lines::member_line))]
pub(crate) fn push_member(out: &mut Block, numbers: &GameNumbers<'_>, member: usize)
    requires { member < length numbers.now.game.now.names }
    ensures { AppendsInRoom out.old out.new (line_of_member numbers.now member) }
{
    out.push(b"member");
    push_field(out, numbers.game.name(member).as_bytes());
    push_weights(out, numbers.game, member);
    push_fields(out, numbers, member);
    out.push(b"\n");
}
