//! The game of the bytes of a file.
ghost use Rattle.council_file.specs.File.{game_of, game_of_tree};
ghost use Rattle.council_game.specs.Fault.{Answers};
ghost use Rattle.council_game.specs.declared.fault.GameFault.TheVariants.{Read};
ghost use Rattle.std.specs.Prelude.{◌≢◌, IfErr};
ghost use Rattle.toml.specs.View.{table_view};

use crate::bracket::{game_of_bracket, is_bracket};
use crate::keys::has_unknown_key;
use crate::members::{are_members, member_list, names_of};
use crate::rules::{breaks_rules, lacks_quota, rules_of};
use crate::tree::{title_of, tree_of};
use crate::ways::ways_of;
use council_game::{Game, GameFault, copy_title, limits};
use std::alloc::Global;
use toml::Table;

/// Returns the game in the tree of a file, or the first fault.
#[tactic(auto, using(crate::proofs::Fits::held), unfolding(crate::specs::File::game_of_tree))]
fn game_of_tree(alloc: Global, table: &Table) -> Result<Game, GameFault>
    ensures { Answers result (game_of_tree (table_view table.now)) }
{
    if has_unknown_key(table) {
        return Err(GameFault::UnknownKey);
    }
    let title = title_of(table)?;
    if breaks_rules(table) {
        return Err(GameFault::Rules);
    }
    if lacks_quota(table) {
        return Err(GameFault::Quota);
    }
    let ways = ways_of(alloc, table)?;
    if !are_members(member_list(table)) {
        return Err(GameFault::Members);
    }
    let title = copy_title(alloc, title)?;
    let names = names_of(alloc, member_list(table))?;
    let rules = rules_of(alloc, table)?;
    match ways {
        Some(ways) => Game::with_ways(alloc, title, names, rules, ways),
        None => Game::with_rules(alloc, title, names, rules),
    }
}

/// Returns the game of the bytes of a game file, or the first fault.
///
/// The file is TOML or a bracket text.
///
/// # Errors
///
/// The first fault of the file in the order of its checks, which is never Read; or Memory if a
/// growth was refused.
#[tactic(auto, using(crate::proofs::NeverRead::unread), unfolding(crate::specs::File::game_of))]
pub fn parse_game(alloc: Global, bytes: &[u8]) -> Result<Game, GameFault>
    ensures game { Answers result (game_of bytes.now) }
    ensures no_read { IfErr result (λ fault. fault ≢ Read) }
{
    if limits::FILE_BYTES < bytes.len() {
        return Err(GameFault::TooLong);
    }
    if is_bracket(bytes) {
        return game_of_bracket(alloc, bytes);
    }
    let table = tree_of(alloc, bytes)?;
    game_of_tree(alloc, &table)
}
