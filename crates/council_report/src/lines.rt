//! The fields of a line, and the lines of the game itself.
ghost use Rattle.std.specs.Prelude.{◌≡◌, ◌<◌, ℕ, List, Some, decimal, length};
ghost use Rattle.council_report.specs.Inner.Ready.{AppendsInRoom, AppendsText};
ghost use Rattle.council_game.specs.Game.{GameView};
ghost use Rattle.council_game.specs.Joined.{GivesEach};
ghost use Rattle.power_index.specs.Swings.{AreWinningCounts};
ghost use Rattle.council_report.specs.Lines.{members_line, minimal_line, quota_line, title_line, total_line, with_slashes, with_tab};
ghost use Rattle.council_report.specs.SwingLines.{winning_line};

use crate::output::Block;
use council_game::{Game, push_joined};
use itoa::Buffer;
use power_index::Swings;

/// Appends a field of bytes.
pub(crate) fn push_field(out: &mut Block, field: &[u8])
    ensures { AppendsInRoom out.old out.new (with_tab field.now) }
{
    out.push(b"\t");
    out.push(field);
}

/// Appends a field of one number.
pub(crate) fn push_number(out: &mut Block, number: u64)
    ensures { AppendsInRoom out.old out.new (with_tab (decimal number)) }
{
    let mut buffer = Buffer::new();
    push_field(out, buffer.format(number).as_bytes());
}

/// Appends a field of a value for each of some rules.
pub(crate) fn push_values<F: Fn(usize) -> u64>(out: &mut Block, rules: usize, value: F)
    requires { (r : ℕ) → r < rules → F.pre value r }
    ensures { (vs : List ℕ) → length vs ≡ rules → GivesEach (F.post value) vs
        → AppendsInRoom out.old out.new (with_tab (with_slashes vs)) }
{
    out.push(b"\t");
    // memory: what was refused is noted, and a clause says when it is not
    out.refused |= push_joined(&mut out.bytes, b"/", rules, value).is_err();
}

/// Appends the line `title`: the title; no line if there is none.
#[tactic(auto, unfolding(crate::specs::Lines::title_line))]
pub(crate) fn push_title(out: &mut Block, game: &Game)
    ensures { AppendsText out.old out.new (title_line game.now) }
{
    let Some(title) = game.title() else {
        return;
    };
    out.push(b"title");
    push_field(out, title.as_bytes());
    out.push(b"\n");
}

/// Appends the line `members`: the number of members.
#[tactic(auto, unfolding(crate::specs::Lines::members_line))]
pub(crate) fn push_members(out: &mut Block, game: &Game)
    ensures { AppendsText out.old out.new (members_line game.now) }
{
    out.push(b"members");
    push_number(out, game.members() as u64);
    out.push(b"\n");
}

/// Appends the line `quota`: the quota of each rule.
#[tactic(auto, unfolding(crate::specs::Lines::quota_line))]
pub(crate) fn push_quota(out: &mut Block, game: &Game)
    ensures { AppendsText out.old out.new (quota_line game.now) }
{
    out.push(b"quota");
    push_values(out, game.rules(), |r| game.rule_quota(r));
    out.push(b"\n");
}

/// Appends the line `total`: the total of each rule's weights.
#[tactic(auto, unfolding(crate::specs::Lines::total_line))]
pub(crate) fn push_total(out: &mut Block, game: &Game)
    ensures { AppendsText out.old out.new (total_line game.now) }
{
    out.push(b"total");
    push_values(out, game.rules(), |r| game.rule_total(r));
    out.push(b"\n");
}

/// Appends the line `minimal`: the number of minimal winning coalitions.
#[tactic(auto, unfolding(crate::specs::Lines::minimal_line))]
pub(crate) fn push_count(out: &mut Block, count: u64)
    ensures { AppendsText out.old out.new (minimal_line count) }
{
    out.push(b"minimal");
    push_number(out, count);
    out.push(b"\n");
}

/// Appends the line `winning`: the number of winning coalitions.
#[tactic(auto, unfolding(crate::specs::SwingLines::winning_line))]
pub(crate) fn push_winning_count(out: &mut Block, swings: &Swings)
    ensures { (g : GameView) → AreWinningCounts g swings.now → AppendsText out.old out.new (winning_line g) }
{
    out.push(b"winning");
    push_number(out, swings.winning());
    out.push(b"\n");
}
