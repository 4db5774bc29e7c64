//! Choices of the first members, by their size and the row that they lead to.
ghost use Rattle.std.specs.Prelude.{◌≡◌, ℕ, ◌+◌, ◌*◌, ◌/◌, ◌<◌, ◌≤◌, ◌^◌, All, IfOk, OnOk, length, slice_index};
ghost use Rattle.council_game.specs.declared.limits.TheConstants.{MEMBERS};
ghost use Rattle.mwc_states.specs.Inner.Counting.{AreLeading, IsWithin, worth};
ghost use Rattle.mwc_states.specs.Inner.Links.{IsGraph, link_at, lists};

use crate::graph::{Links, link_at};
use council_game::Memory;
use std::alloc::Global;

/// How many choices of one size lead to a row.
#[derive(Clone, Copy)]
pub(crate) struct Choices {
    pub(crate) size: u32,
    pub(crate) row: u32,
    pub(crate) count: u64,
}

/// Adds choices at the end of a list; to its last ones, if these have their size and row.
fn push(list: &mut Vec<Choices>, some: &Choices) -> Result<(), Memory>
    requires fits { worth list.old.items (λ _ _. 1) + some.now.count < 2 ^ 64 }
    ensures within { OnOk result ((rows most : ℕ) → All (IsWithin rows most) list.old.items
        → IsWithin rows most some.now → All (IsWithin rows most) list.new.items) }
    ensures adds { OnOk result ((value : ℕ → ℕ → ℕ) → worth list.new.items value
        ≡ worth list.old.items value + some.now.count * value some.now.row some.now.size) }
{
    let Some(last) = list.pop() else {
        list.push(*some)?;
        return Ok(());
    };
    if last.size == some.size && last.row == some.row {
        list.push(Choices {
            size: last.size,
            row: last.row,
            count: last.count + some.count,
        })?;
        return Ok(());
    }
    list.push(last)?;
    list.push(*some)?;
    Ok(())
}

/// Adds up choices of one size and row that are neighbours in a list.
fn merge(alloc: Global, all: &[Choices]) -> Result<Vec<Choices>, Memory>
    requires fits { worth all.now (λ _ _. 1) < 2 ^ 64 }
    ensures within { IfOk result (λ list. (rows most : ℕ) → All (IsWithin rows most) all.now
        → All (IsWithin rows most) list.items) }
    ensures sums { IfOk result (λ list. (value : ℕ → ℕ → ℕ) → worth list.items value ≡ worth all.now value) }
{
    let mut list = Vec::new(alloc);
    for some in all {
        push(&mut list, some)?;
    }
    Ok(list)
}

/// Adds where choices lead without the next member (0) or with it (1).
fn follow(
    choices: &[Choices],
    links: &Links,
    choice: u32,
    all: &mut Vec<Choices>,
) -> Result<(), Memory>
    requires choice { choice ≤ 1 }
    requires within { All (IsWithin (length links.now.items / 2) MEMBERS) choices.now }
    requires fits { worth all.old.items (λ _ _. 1) + worth choices.now (λ _ _. 1) < 2 ^ 64 }
    ensures within { OnOk result ((rows most : ℕ) → ((k : ℕ) → slice_index links.now.items k < rows)
        → All (λ some. some.size + choice ≤ most) choices.now
        → All (IsWithin rows most) all.old.items → All (IsWithin rows most) all.new.items) }
    ensures adds { OnOk result ((value : ℕ → ℕ → ℕ) → worth all.new.items value ≡ worth all.old.items value
        + worth choices.now (λ row size. value (link_at links.now.items row choice) (size + choice))) }
{
    for some in choices {
        push(
            all,
            &Choices {
                size: some.size + choice,
                row: link_at(links, some.row as usize, choice as usize),
                count: some.count,
            },
        )?;
    }
    Ok(())
}

/// Decides the member of a level in all choices of those before it.
#[tactic(auto, using(crate::proofs::Worth::leading))]
pub(crate) fn decide_all(
    alloc: Global,
    levels: &[Links],
    level: usize,
    choices: &[Choices],
) -> Result<Vec<Choices>, Memory>
    requires graph { IsGraph (lists levels.now) }
    requires level { level < length levels.now }
    requires choices { AreLeading (lists levels.now) level choices.now }
    ensures { IfOk result (λ next. AreLeading (lists levels.now) (level + 1) next.items) }
{
    let links = &levels[level];
    let mut all = Vec::new(alloc);
    follow(choices, links, 0, &mut all)?;
    follow(choices, links, 1, &mut all)?;
    all.sort_by(|a, b| (a.size, a.row).cmp(&(b.size, b.row)))?;
    Ok(merge(alloc, &all)?)
}
