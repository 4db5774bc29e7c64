//! The members of a game in a tree, and their names.
ghost use Rattle.council_file.specs.File.{member_list, are_members, name_from, number_or, only_weight, weight_under};
ghost use Rattle.std.specs.Prelude.{◌≡◌, map, is_some, IfOk, string_bytes, option_map};
ghost use Rattle.toml.specs.Data.{as_table};
ghost use Rattle.toml.specs.View.{view, table_view};

use crate::tree::{elements_at, elements_of};
use council_game::limits;
use std::alloc::{AllocError, Global};
use toml::{Table, Value};

/// Returns the elements of the array of members, or none if it is no array.
pub(crate) fn member_list(table: &Table) -> &[Value]
    ensures { map view result.now ≡ member_list (table_view table.now) }
{
    elements_at(table, "member")
}

/// Returns whether a value is a table.
fn is_table(value: &Value) -> bool
    ensures { result ≡ is_some (as_table (view value.now)) }
{
    value.as_table().is_some()
}

/// Returns whether they are 1 to 40 tables.
#[tactic(auto, using(crate::proofs::Views::each))]
pub(crate) fn are_members(values: &[Value]) -> bool
    ensures { result ≡ are_members (map view values.now) }
{
    if values.len() < 1 || limits::MEMBERS < values.len() {
        return false;
    }
    for value in values {
        if !is_table(value) {
            return false;
        }
    }
    true
}

/// Returns the name of a member, or the empty text.
#[tactic(auto, unfolding(crate::specs::File::name_from))]
fn name_from(member: &Value) -> &str
    ensures { result.now ≡ name_from (view member.now) }
{
    match member.get("name") {
        Some(Value::String(name)) => name.as_str(),
        _ => "",
    }
}

/// Copies the names of members.
#[tactic(auto, using(council_game::proofs::Shared::Lists::maps))]
pub(crate) fn names_of(alloc: Global, members: &[Value]) -> Result<Vec<String>, AllocError>
    ensures { IfOk result (λ v. map string_bytes v.items ≡ map name_from (map view members.now)) }
{
    let mut names = Vec::with_capacity(alloc, members.len())?;
    for member in members {
        names.push(String::from_str(alloc, name_from(member))?)?;
    }
    Ok(names)
}

/// Returns an integer of at least 0, or another number, which is out of range.
pub(crate) fn number_or(other: u64, value: Option<&Value>) -> u64
    ensures { result ≡ number_or other (option_map (λ v. view v.now) value.entry) }
{
    match value {
        Some(Value::Integer(n)) if 0 <= *n => *n as u64,
        _ => other,
    }
}

/// Returns the weight of a member under one rule.
#[tactic(auto, unfolding(crate::specs::File::only_weight))]
pub(crate) fn only_weight(member: &Value) -> u64
    ensures { result ≡ only_weight (view member.now) }
{
    number_or(u64::MAX, member.get("weight"))
}

/// Returns the weight of a member under rule r of n.
#[tactic(auto, unfolding(crate::specs::File::weight_under))]
pub(crate) fn weight_under(member: &Value, n: usize, r: usize) -> u64
    ensures { result ≡ weight_under n r (view member.now) }
{
    let weights = match member.get("weights") {
        Some(value) => elements_of(value),
        None => &[],
    };
    if weights.len() == n {
        number_or(u64::MAX, weights.get(r))
    } else {
        u64::MAX
    }
}
