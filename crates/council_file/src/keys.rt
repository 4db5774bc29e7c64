//! The keys that a file may have.
ghost use Rattle.std.specs.Prelude.{◌≡◌, map, nat_eq, not, string_bytes, false};
ghost use Rattle.std.specs.Option.{option_map_or};
ghost use Rattle.std.specs.List.{list_any};
ghost use Rattle.std.specs.Map.{keys_of};
ghost use Rattle.std.specs.Cmp.Lexicographic.{pointwise};
ghost use Rattle.toml.specs.Data.{as_table};
ghost use Rattle.toml.specs.View.{view, table_view};
ghost use Rattle.council_file.specs.File.{top_keys, member_keys, has_other_key, has_unknown_key};

use crate::members::member_list;
use toml::{Table, Value};

/// Returns whether a file may have the key at its top.
fn is_top_key(key: &str) -> bool
    ensures { result ≡ list_any (pointwise nat_eq key.now) top_keys }
{
    matches!(key, "title" | "quota" | "quotas" | "ways" | "member")
}

/// Returns whether a member may have the key.
fn is_member_key(key: &str) -> bool
    ensures { result ≡ list_any (pointwise nat_eq key.now) member_keys }
{
    matches!(key, "name" | "weight" | "weights")
}

/// Returns whether a key is none that a file may have.
fn any_other_top_key(table: &Table) -> bool
    ensures { result ≡ list_any (λ k. not (list_any (pointwise nat_eq (string_bytes k)) top_keys))
        (keys_of table.now.entries) }
{
    table.keys().any(|key| !is_top_key(key.as_str()))
}

/// Returns whether a key is none that a member may have.
fn any_other_member_key(table: &Table) -> bool
    ensures { result ≡ list_any (λ k. not (list_any (pointwise nat_eq (string_bytes k))
        member_keys)) (keys_of table.now.entries) }
{
    table.keys().any(|key| !is_member_key(key.as_str()))
}

/// Returns whether a file has a key that it may not have.
#[tactic(auto, using(crate::proofs::Views::other_key))]
fn has_other_top_key(table: &Table) -> bool
    ensures { result ≡ has_other_key top_keys (table_view table.now) }
{
    any_other_top_key(table)
}

/// Returns whether a member has a key that it may not have.
#[tactic(auto, using(crate::proofs::Views::other_key))]
fn has_other_member_key(table: &Table) -> bool
    ensures { result ≡ has_other_key member_keys (table_view table.now) }
{
    any_other_member_key(table)
}

/// Returns whether a value is a table with a key that no member may have.
fn is_odd_member(member: &Value) -> bool
    ensures { result ≡ option_map_or (has_other_key member_keys)
        (as_table (view member.now)) false }
{
    match member.as_table() {
        Some(table) => has_other_member_key(table),
        None => false,
    }
}

/// Returns whether some member has a key that it may not have.
#[tactic(auto, using(council_game::proofs::Shared::Lists::found_any))]
fn any_odd_member(members: &[Value]) -> bool
    ensures { result ≡ list_any (λ d. option_map_or (has_other_key member_keys) (as_table d) false)
        (map view members.now) }
{
    for member in members {
        if is_odd_member(member) {
            return true;
        }
    }
    false
}

/// Returns whether the file, or one of its members, has a key that it may not have.
pub(crate) fn has_unknown_key(table: &Table) -> bool
    ensures { result ≡ has_unknown_key (table_view table.now) }
{
    has_other_top_key(table) || any_odd_member(member_list(table))
}
