//! Counts of the sets that a graph accepts.
ghost use Rattle.std.specs.Prelude.{◌≡◌, ℕ, ◌+◌, ◌/◌, ◌<◌, ◌≤◌, ◌^◌, [], true, false, All, IfOk, OnOk, length, slice_index, slice_index_or};
ghost use Rattle.council_game.specs.declared.limits.TheConstants.{SIZES};
ghost use Rattle.mwc_states.specs.Inner.Counting.{AreCompleting, AreLeading, count_at, later, with_later, worth};
ghost use Rattle.mwc_states.specs.Inner.Links.{AreSizesOf, IsGraph, link_at, lists};
ghost use Rattle.mwc_states.specs.Inner.Sets.{has};

use crate::choices::{Choices, decide_all};
use crate::graph::{Links, link_at};
use council_game::{Memory, limits};
use power_index::SizeCounts;
use std::alloc::Global;

/// Accepted sets by size: of all, and of those that have each member.
#[derive(Clone, Copy)]
pub(crate) struct SetCounts {
    pub(crate) all: SizeCounts,
    pub(crate) each: [SizeCounts; limits::MEMBERS],
}

/// Returns the count of a row, or 0 if it is not there.
#[inline]
fn count_of(counts: &[u64], row: u32) -> u64
    ensures { result ≡ slice_index counts.now row }
{
    let row = row as usize;
    if row < counts.len() { counts[row] } else { 0 }
}

/// Returns the counts of the rows for a size that is less by `more`, or none.
fn counts_of(sizes: &[Vec<u64>], size: usize, more: usize) -> &[u64]
    ensures { (k : ℕ) → slice_index result.now k ≡ later more (count_at (lists sizes.now) k) size }
{
    if more <= size && size - more < sizes.len() {
        &sizes[size - more]
    } else {
        &[]
    }
}

/// Returns the counts of row 0 by size.
#[tactic(auto, using(crate::proofs::Worth::counting))]
fn sizes_of_root(sizes: &[Vec<u64>]) -> SizeCounts
    ensures { (s : ℕ) → s < SIZES → slice_index result s ≡ count_at (lists sizes.now) 0 s }
{
    let mut all = [0; limits::SIZES];
    for size in 0..limits::SIZES {
        all[size] = count_of(counts_of(sizes, size, 0), 0);
    }
    all
}

/// Adds up the accepted sets that have the member of a level and `more` later ones.
///
/// `counts` has for each row the number of sets of `more` members that complete it.
#[tactic(auto, using(crate::proofs::Worth::counting))]
fn add_with(links: &Links, choices: &[Choices], counts: &[u64], more: usize, sizes: &mut SizeCounts)
    requires within { All (λ some. some.row < length links.now.items / 2) choices.now }
    requires more { more < SIZES }
    requires fits { (s : ℕ) → s < SIZES
        → slice_index sizes.old s + worth choices.now (with_later links.now.items counts.now more s) < 2 ^ 64 }
    ensures { (s : ℕ) → s < SIZES → slice_index sizes.new s
        ≡ slice_index sizes.old s + worth choices.now (with_later links.now.items counts.now more s) }
{
    if counts.is_empty() {
        return;
    }
    for some in choices {
        let size = some.size as usize + 1 + more;
        if size < limits::SIZES {
            sizes[size] += some.count * count_of(counts, link_at(links, some.row as usize, 1));
        }
    }
}

/// Counts the accepted sets that have the member of a level, by size.
fn count_with(
    levels: &[Links],
    level: usize,
    choices: &[Choices],
    completing: &[Vec<u64>],
) -> SizeCounts
    requires graph { IsGraph (lists levels.now) }
    requires level { level < length levels.now }
    requires choices { AreLeading (lists levels.now) level choices.now }
    requires completing { AreCompleting (lists levels.now) (level + 1) (lists completing.now) }
    ensures { AreSizesOf (lists levels.now) (has level) result }
{
    let links = &levels[level];
    let mut sizes = [0; limits::SIZES];
    for more in 0..completing.len().min(limits::SIZES) {
        add_with(links, choices, &completing[more], more, &mut sizes);
    }
    sizes
}

/// Counts the sets of one size that complete each row of a level; returns whether there are any.
///
/// They are the sets without the member of the level and those with it.
fn complete_rows(links: &Links, without: &[u64], with: &[u64], counts: &mut [u64]) -> bool
    requires rows { length counts.old ≡ length links.now.items / 2 }
    requires fits { (k : ℕ) → slice_index without.now (link_at links.now.items k 0)
        + slice_index with.now (link_at links.now.items k 1) < 2 ^ 64 }
    ensures counts { (k : ℕ) → k < length links.now.items / 2
        → slice_index counts.new k ≡ slice_index without.now (link_at links.now.items k 0)
        + slice_index with.now (link_at links.now.items k 1) }
    ensures none { result ≡ false → (k : ℕ) → slice_index counts.new k ≡ 0 }
{
    let mut any = false;
    for row in 0..counts.len() {
        let count = count_of(without, link_at(links, row, 0))
            + count_of(with, link_at(links, row, 1));
        any |= count > 0;
        counts[row] = count;
    }
    any
}

/// Counts the sets of one size that complete each row of a level; lists none if all counts are 0.
fn complete_size(
    alloc: Global,
    links: &Links,
    without: &[u64],
    with: &[u64],
) -> Result<Vec<u64>, Memory>
    requires fits { (k : ℕ) → slice_index without.now (link_at links.now.items k 0)
        + slice_index with.now (link_at links.now.items k 1) < 2 ^ 64 }
    ensures { IfOk result (λ counts. (k : ℕ) → k < length links.now.items / 2
        → slice_index counts.items k ≡ slice_index without.now (link_at links.now.items k 0)
        + slice_index with.now (link_at links.now.items k 1)) }
{
    if without.is_empty() && with.is_empty() {
        return Ok(Vec::new(alloc));
    }
    let mut counts = vec![in alloc; 0; links.len() / 2]?;
    if !complete_rows(links, without, with, &mut counts) {
        return Ok(Vec::new(alloc));
    }
    Ok(counts)
}

/// Counts the sets that complete the rows of a level, by size, instead of those of the next one.
fn complete(
    alloc: Global,
    levels: &[Links],
    level: usize,
    sizes: &mut Vec<Vec<u64>>,
) -> Result<(), Memory>
    requires graph { IsGraph (lists levels.now) }
    requires level { level < length levels.now }
    requires next { AreCompleting (lists levels.now) (level + 1) (lists sizes.old.items) }
    ensures { OnOk result (AreCompleting (lists levels.now) level (lists sizes.new.items)) }
{
    let links = &levels[level];
    sizes.push(Vec::new(alloc))?;
    for size in (0..sizes.len()).rev() {
        let (without, with) = (counts_of(sizes, size, 0), counts_of(sizes, size, 1));
        sizes[size] = complete_size(alloc, links, without, with)?;
    }
    Ok(())
}

/// Counts the accepted sets with each member from a level on, and those that complete its rows.
///
/// At first `completing` has those that complete the rows after the last level.
fn count_from(
    alloc: Global,
    levels: &[Links],
    level: usize,
    choices: &[Choices],
    completing: &mut Vec<Vec<u64>>,
    each: &mut [SizeCounts; limits::MEMBERS],
) -> Result<(), Memory>
    requires graph { IsGraph (lists levels.now) }
    requires level { level ≤ length levels.now }
    requires choices { AreLeading (lists levels.now) level choices.now }
    requires last { AreCompleting (lists levels.now) (length levels.now) (lists completing.old.items) }
    ensures completing { OnOk result
        (AreCompleting (lists levels.now) level (lists completing.new.items)) }
    ensures each { OnOk result ((i : ℕ) → level ≤ i → i < length levels.now
        → AreSizesOf (lists levels.now) (has i) (slice_index_or each.new i [])) }
{
    if level == levels.len() {
        return Ok(());
    }
    let next = decide_all(alloc, levels, level, choices)?;
    count_from(alloc, levels, level + 1, &next, completing, each)?;
    each[level] = count_with(levels, level, choices, completing);
    complete(alloc, levels, level, completing)
}

/// Counts the sets that a graph accepts by size: all, and those that have each member.
///
/// Member i is decided at level i, and the root is row 0 of level 0. Choices are counted from the
/// first level on, and sets that complete them from the last one back.
#[tactic(auto, using(crate::proofs::Worth::completing))]
pub(crate) fn count(alloc: Global, levels: &[Links]) -> Result<SetCounts, Memory>
    requires { IsGraph (lists levels.now) }
    ensures all { IfOk result (λ counts. AreSizesOf (lists levels.now) (λ set. true) counts.all) }
    ensures each { IfOk result (λ counts. (i : ℕ) → i < length levels.now
        → AreSizesOf (lists levels.now) (has i) (slice_index_or counts.each i [])) }
{
    let root = [Choices {
        size: 0,
        row: 0,
        count: 1,
    }];
    // The empty set completes row 1 after the last level, and no set completes row 0.
    let mut completing = Vec::new(alloc);
    completing.push(vec![in alloc; 0, 1]?)?;
    let mut each = [[0; limits::SIZES]; limits::MEMBERS];
    count_from(alloc, levels, 0, &root, &mut completing, &mut each)?;
    Ok(SetCounts {
        all: sizes_of_root(&completing),
        each,
    })
}
