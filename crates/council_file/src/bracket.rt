//! The game of a bracket text `[q; w1, .., wn]`.
ghost use Rattle.std.specs.Prelude.{◌≡◌, IfOk, map, option_map, string_bytes};
ghost use Rattle.council_game.specs.Fault.{Answers};
ghost use Rattle.council_game.specs.Rules.{rule_view};
ghost use Rattle.council_file.specs.Bracket.{symbols, weights_of, rule_of, is_bracket, counted_names, game_of_bracket};

use crate::scanner::{Scanner, Token};
use council_game::{Game, GameFault, Memory, Rule};
use std::alloc::{AllocError, Global};

/// Returns whether a text is a bracket text.
///
/// Apart from blanks, it begins with `[` and a digit.
pub(crate) fn is_bracket(bytes: &[u8]) -> bool
    ensures { result ≡ is_bracket bytes.now }
{
    let mut scanner = Scanner::new(bytes);
    scanner.take_opening() && scanner.take_digits()
}

/// Returns the weights up to the bracket that closes the text.
///
/// It is nothing if the text breaks the grammar.
#[tactic(auto, using(crate::proofs::Weights::commas))]
fn weights_of(alloc: Global, scanner: &mut Scanner<'_>) -> Result<Option<Vec<u64>>, AllocError>
    ensures { IfOk result (λ o. option_map (λ v. v.items) o ≡ weights_of scanner.old) }
{
    let mut weights = Vec::new(alloc);
    while let Some(weight) = scanner.number() {
        weights.push(weight)?;
        let Some(token) = scanner.next() else {
            return Ok(None);
        };
        match token {
            Token::Comma => {}
            Token::Closing => {
                return match scanner.next() {
                    None => Ok(Some(weights)),
                    Some(_) => Ok(None),
                };
            }
            _ => return Ok(None),
        }
    }
    Ok(None)
}

/// Returns the rule of a bracket text, or none if it breaks the grammar.
///
/// # Errors
///
/// Memory if an allocation was refused.
fn bracket_rule(alloc: Global, bytes: &[u8]) -> Result<Option<Rule>, Memory>
    ensures { IfOk result (λ o. option_map rule_view o ≡ rule_of (symbols bytes.now)) }
{
    let mut scanner = Scanner::new(bytes);
    if !scanner.take_opening() {
        return Ok(None);
    }
    let Some(quota) = scanner.number() else {
        return Ok(None);
    };
    if !scanner.take_semicolon() {
        return Ok(None);
    }
    match weights_of(alloc, &mut scanner)? {
        Some(weights) => Ok(Some(Rule { quota, weights })),
        None => Ok(None),
    }
}

/// Lists the numbers 1 to `count`, in decimal.
#[tactic(auto, using(crate::proofs::Digits::names_more))]
fn number_names(alloc: Global, count: usize) -> Result<Vec<String>, AllocError>
    ensures { IfOk result (λ v. map string_bytes v.items ≡ counted_names count) }
{
    let mut names = Vec::new(alloc);
    for k in 0..count {
        names.push(format!(in alloc; "{}", k + 1)?)?;
    }
    Ok(names)
}

/// Returns the game of a bracket text, or the first fault.
#[tactic(auto, using(crate::proofs::Digits::names_count), unfolding(crate::specs::Bracket::game_of_bracket))]
pub(crate) fn game_of_bracket(alloc: Global, bytes: &[u8]) -> Result<Game, GameFault>
    ensures { Answers result (game_of_bracket bytes.now) }
{
    let Some(rule) = bracket_rule(alloc, bytes)? else {
        return Err(GameFault::Bracket);
    };
    let names = number_names(alloc, rule.weights.len())?;
    Game::new(alloc, None, names, rule.weights, rule.quota)
}
