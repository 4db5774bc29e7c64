//! The lines before those of the coalitions.
ghost use Rattle.std.specs.Prelude.{◌≡◌, ◌<◌, ◌+◌, ◌++◌, [], codes, drop, length, slice_index, slice_index_or};
ghost use Rattle.std.specs.List.{flat_map};
ghost use Rattle.council_game.specs.Votes.{rule_at};
ghost use Rattle.council_game.specs.Game.{GameView, IsGame};
ghost use Rattle.council_game.specs.Notation.{notation};
ghost use Rattle.power_index.specs.Swings.{AreWinningCounts};
ghost use Rattle.council_report.specs.Inner.Ready.{AppendsText};
ghost use Rattle.council_report.specs.Lines.{notation_line, rules_of_way, ways_line};
ghost use Rattle.council_report.specs.Inner.Lines.{heading_of, minimal_lines};
ghost use Rattle.council_report.specs.Report.{game_lines, notation_lines};
ghost use Rattle.council_report.specs.SwingLines.{act_line, winning_lines};

use crate::ReportLines;
use crate::count_lines::push_index;
use crate::game_numbers::GameNumbers;
use crate::lines::{
    push_count, push_members, push_quota, push_title, push_total, push_winning_count,
};
use crate::output::Block;
use council_game::{Game, push_joined, write_notation};
use power_index::{Swings, power_to_act};

/// Returns the number of a rule of a way, from 1.
fn rule_number(game: &Game, way: usize, place: usize) -> u64
    requires way { way < length game.now.ways }
    requires place { place < length (slice_index_or game.now.ways way []) }
    ensures { result ≡ slice_index (slice_index_or game.now.ways way []) place + 1 }
{
    game.was_checked();
    game.way(way)[place] as u64 + 1
}

/// Appends the rules of a way, from 1.
fn push_way(out: &mut Block, game: &Game, way: usize)
    requires { way < length game.now.ways }
    ensures { AppendsText out.old out.new (rules_of_way (slice_index_or game.now.ways way [])) }
{
    let rules = game.way(way).len();
    let number = |place| rule_number(game, way, place);
    // memory: what was refused is noted, for the whole heading
    out.refused |= push_joined(&mut out.bytes, b",", rules, number).is_err();
}

/// Appends the ways after the first one, each after a blank.
fn push_more_ways(out: &mut Block, game: &Game)
    ensures { AppendsText out.old out.new (flat_map (λ way. codes " " ++ rules_of_way way)
        (drop 1 game.now.ways)) }
{
    for way in 1..game.ways() {
        out.push(b" ");
        push_way(out, game, way);
    }
}

/// Appends the line `ways`: the rules of each way; no line if there is one way.
#[tactic(auto, unfolding(crate::specs::Lines::ways_line))]
fn push_ways(out: &mut Block, game: &Game)
    ensures { AppendsText out.old out.new (ways_line game.now) }
{
    if game.ways() == 1 {
        return;
    }
    out.push(b"ways\t");
    push_way(out, game, 0);
    push_more_ways(out, game);
    out.push(b"\n");
}

/// Appends the line `notation`: a rule as `[q; w1, .., wn]`.
#[tactic(auto, unfolding(crate::specs::Lines::notation_line))]
fn push_notation(out: &mut Block, game: &Game, rule: usize)
    requires { rule < length game.now.rules }
    ensures { AppendsText out.old out.new (notation_line (rule_at game.now.rules rule)) }
{
    out.push(b"notation\t");
    // memory: what was refused is noted, for the whole heading
    out.refused |= write_notation(game, rule, &mut out.bytes).is_err();
    out.push(b"\n");
}

/// Appends a line for the notation of each rule.
fn push_each_notation(out: &mut Block, game: &Game)
    ensures { AppendsText out.old out.new (flat_map notation_line game.now.rules) }
{
    for rule in 0..game.rules() {
        push_notation(out, game, rule);
    }
}

/// Appends a line for the notation of each rule, if they are shown.
fn push_notations(out: &mut Block, game: &Game, shown: ReportLines)
    ensures { AppendsText out.old out.new (notation_lines shown game.now) }
{
    if shown.notation {
        push_each_notation(out, game);
    }
}

/// Appends the number of minimal winning coalitions, if they were counted.
fn push_minimal(out: &mut Block, numbers: &GameNumbers<'_>)
    ensures { AppendsText out.old out.new (minimal_lines numbers.now) }
{
    if let Some(counts) = numbers.counts {
        push_count(out, counts.wide_total());
    }
}

/// Appends the line `act`: Coleman's power of the body to act.
#[tactic(auto, unfolding(crate::specs::SwingLines::act_line))]
fn push_act(out: &mut Block, swings: &Swings)
    ensures { (g : GameView) → IsGame g → AreWinningCounts g swings.now → AppendsText out.old out.new (act_line g) }
{
    out.push(b"act");
    push_index(out, power_to_act(swings));
    out.push(b"\n");
}

/// Appends the number of winning coalitions and the power to act, if there are swings.
fn push_winning(out: &mut Block, numbers: &GameNumbers<'_>)
    ensures { AppendsText out.old out.new (winning_lines numbers.now.game.now numbers.now.swings) }
{
    if let Some(swings) = numbers.swings {
        push_winning_count(out, swings);
        push_act(out, swings);
    }
}

/// Appends the lines of the game itself.
fn push_game(out: &mut Block, game: &Game, shown: ReportLines)
    ensures { AppendsText out.old out.new (game_lines shown game.now) }
{
    push_title(out, game);
    push_members(out, game);
    push_quota(out, game);
    push_total(out, game);
    push_ways(out, game);
    push_notations(out, game, shown);
}

/// Appends the lines before those of coalitions, sizes and members.
pub(crate) fn push_heading(out: &mut Block, numbers: &GameNumbers<'_>, shown: ReportLines)
    ensures { AppendsText out.old out.new (heading_of shown numbers.now) }
{
    push_game(out, numbers.game, shown);
    push_minimal(out, numbers);
    push_winning(out, numbers);
}
