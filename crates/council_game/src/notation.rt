//! The notation of a rule.
ghost use Rattle.std.specs.Prelude.{◌≡◌, ◌<◌, ◌≤◌, ◌++◌, length, OnOk, OnErr, IfOk};
ghost use Rattle.std.specs.Vec.{vec_capacity};
ghost use Rattle.council_game.specs.Votes.{rule_at};
ghost use Rattle.council_game.specs.Notation.{notation};

use crate::Memory;
use crate::game::Game;
use crate::numbers::{push_decimal, push_joined};
use std::alloc::{AllocError, Global};

/// Returns the notation of a rule.
#[tactic(auto, unfolding(crate::specs::Notation::notation))]
fn notation_of(alloc: Global, game: &Game, rule: usize) -> Result<Vec<u8>, AllocError>
    requires { rule < length game.now.rules }
    ensures { IfOk result (λ text. text.items ≡ notation (rule_at game.now.rules rule)) }
{
    let mut text = Vec::new(alloc);
    text.extend_from_slice(b"[")?;
    push_decimal(&mut text, game.rule_quota(rule))?;
    text.extend_from_slice(b"; ")?;
    push_joined(
        &mut text,
        b", ",
        game.members(),
        |i| game.rule_weight(rule, i),
    )?;
    text.extend_from_slice(b"]")?;
    Ok(text)
}

/// Appends the notation `[q; w1, .., wn]` of a rule.
///
/// It has the quota and the weights in the order of the file, in decimal without leading zeros.
///
/// # Errors
///
/// `Memory` if an allocation was refused; the vector is then unchanged.
pub fn write_notation(game: &Game, rule: usize, out: &mut Vec<u8>) -> Result<(), Memory>
    requires { rule < length game.now.rules }
    ensures ok { OnOk result
        (out.new.items ≡ out.old.items ++ notation (rule_at game.now.rules rule)) }
    ensures err { OnErr result (out.new.items ≡ out.old.items) }
    ensures capacity { vec_capacity out.old ≤ vec_capacity out.new }
{
    let alloc = *out.allocator();
    let text = notation_of(alloc, game, rule)?;
    out.extend_from_slice(&text)?;
    Ok(())
}
