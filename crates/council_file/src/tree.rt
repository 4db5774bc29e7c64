//! What stands in a tree of toml.
ghost use Rattle.council_file.specs.File.{tree_of, elements_at, elements_of, has_key, title_from, title_of};
ghost use Rattle.council_game.specs.Fault.{Gives};
ghost use Rattle.std.specs.Prelude.{◌≡◌, Ok, Err, option_map, map, [], Some};
ghost use Rattle.toml.specs.Data.{get_member};
ghost use Rattle.toml.specs.View.{view, table_view};

use council_game::{GameFault, is_title};
use std::alloc::Global;
use toml::{Table, Value};

/// Returns the tree of a text.
#[tactic(auto, using(crate::proofs::Views::texts), unfolding(crate::specs::File::tree_of))]
pub(crate) fn tree_of(alloc: Global, bytes: &[u8]) -> Result<Table, GameFault>
    ensures { Gives table_view result (tree_of bytes.now) }
{
    let text = match str::from_utf8(bytes) {
        Ok(text) => text,
        Err(_) => return Err(GameFault::Text),
    };
    match toml::table_from_str(alloc, text) {
        Ok(table) => Ok(table),
        Err(e) if e.is_memory() => Err(GameFault::Memory),
        Err(_) => Err(GameFault::Text),
    }
}

/// Returns the value at a key.
#[tactic(auto, using(toml::proofs::Views::table_get))]
pub(crate) fn value_at<'a>(table: &'a Table, key: &str) -> Option<&'a Value>
    ensures { option_map (λ v. view v.now) result ≡ get_member key.now (table_view table.now) }
{
    table.get(key)
}

/// Returns whether a key is there.
pub(crate) fn has_key(table: &Table, key: &str) -> bool
    ensures { result ≡ has_key key.now (table_view table.now) }
{
    value_at(table, key).is_some()
}

/// Returns the elements of an array, and none of any other value.
pub(crate) fn elements_of(value: &Value) -> &[Value]
    ensures { map view result.now ≡ elements_of (view value.now) }
{
    match value {
        Value::Array(items) => items.as_slice(),
        _ => &[],
    }
}

/// Returns the elements of the array at a key, and none of any other value.
pub(crate) fn elements_at<'a>(table: &'a Table, key: &str) -> &'a [Value]
    ensures { map view result.now ≡ elements_at key.now (table_view table.now) }
{
    match value_at(table, key) {
        Some(value) => elements_of(value),
        None => &[],
    }
}

/// Returns a title, if the value is one.
fn title_from(value: &Value) -> Result<Option<&str>, GameFault>
    ensures { Gives (option_map (λ s. s.now)) result (title_from (Some (view value.now))) }
{
    match value.as_str() {
        Some(text) if is_title(text) => Ok(Some(text)),
        _ => Err(GameFault::Title),
    }
}

/// Returns the title of a file, if it has one.
pub(crate) fn title_of(table: &Table) -> Result<Option<&str>, GameFault>
    ensures { Gives (option_map (λ s. s.now)) result (title_of (table_view table.now)) }
{
    match value_at(table, "title") {
        Some(value) => title_from(value),
        None => Ok(None),
    }
}
