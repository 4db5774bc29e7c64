//! The ways to win in a tree.
ghost use Rattle.council_file.specs.File.{elements_at, named_ways, rule_number, rules_of, way_from, ways_of};
ghost use Rattle.council_game.specs.Fault.{Gives};
ghost use Rattle.council_game.specs.Rules.{way_view, way_views};
ghost use Rattle.council_game.specs.Ways.{one_way};
ghost use Rattle.std.specs.Option.{option_map_or};
ghost use Rattle.std.specs.Prelude.{◌≡◌, IfOk, codes, length, map};
ghost use Rattle.toml.specs.View.{table_view, view};

use crate::members::number_or;
use crate::tree::{elements_at, elements_of, has_key};
use council_game::{GameFault, Way, are_ways, limits};
use std::alloc::{AllocError, Global};
use toml::{Table, Value};

/// Returns the number of a rule, from 0, or that of none.
#[tactic(auto, unfolding(crate::specs::File::rule_number))]
fn rule_number(value: &Value) -> usize
    ensures { result ≡ rule_number (view value.now) }
{
    match number_or(0, Some(value)) {
        0 => limits::RULES,
        number => number as usize - 1,
    }
}

/// Returns the way of a value: the rules of its array, or none.
#[tactic(auto, unfolding(crate::specs::File::way_from))]
fn way_from(alloc: Global, value: &Value) -> Result<Way, AllocError>
    ensures { IfOk result (λ way. way_view way ≡ way_from (view value.now)) }
{
    let mut rules = Vec::new(alloc);
    for rule in elements_of(value) {
        rules.push(rule_number(rule))?;
    }
    Ok(Way { rules })
}

/// Lists the ways that a file names.
fn named_ways(alloc: Global, table: &Table) -> Result<Vec<Way>, AllocError>
    ensures { IfOk result (λ ways. way_views ways.items ≡ named_ways (table_view table.now)) }
{
    let mut ways = Vec::new(alloc);
    for value in elements_at(table, "ways") {
        ways.push(way_from(alloc, value)?)?;
    }
    Ok(ways)
}

/// Returns the ways that a file names, or none if it names none: then its one way has all rules.
///
/// # Errors
///
/// Ways if they are none by the quotas of the file; Memory if an allocation was refused.
pub(crate) fn ways_of(alloc: Global, table: &Table) -> Result<Option<Vec<Way>>, GameFault>
    ensures { Gives (λ o. option_map_or (λ ways. way_views ways.items) o
        (one_way (length (rules_of (table_view table.now))))) result
        (ways_of (table_view table.now)) }
{
    if !has_key(table, "ways") {
        return Ok(None);
    }
    if !has_key(table, "quotas") {
        return Err(GameFault::Ways);
    }
    let ways = named_ways(alloc, table)?;
    if !are_ways(elements_at(table, "quotas").len(), &ways) {
        return Err(GameFault::Ways);
    }
    Ok(Some(ways))
}
