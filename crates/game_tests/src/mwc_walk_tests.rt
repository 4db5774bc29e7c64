//! Games that only a pruned walk can end, and how many visits it makes.
//!
//! The visits under several rules were found by a plain program, which looks at the prefixes of
//! rank places one by one: a visit is a prefix that does not win yet, can still meet each quota,
//! and holds no member whom each rule can spare, by what is there or, past 512 steps without a
//! coalition, by what must still come.
mod refusals;

use crate::helpers::{are_masks, assert_same, game, game_of};
use council_game::{Coalition, Game, Rule};
use mwc_walk::{Seek, Walk, list_all, list_slice};
use std::alloc::Global;
use std::process::Abort;

/// Members who weigh alike: how many they are, and what each weighs under each rule.
type Group = (usize, &'static [u64]);

/// The quotas of rules, and the groups.
type Statute = (&'static [u64], &'static [Group]);

/// Twelve members in four groups, of each of which one is needed.
const FOUR_GROUPS: Statute = (
    &[1, 1, 1, 1],
    &[
        (3, &[1, 0, 0, 0]),
        (3, &[0, 1, 0, 0]),
        (3, &[0, 0, 1, 0]),
        (3, &[0, 0, 0, 1]),
    ],
);

/// Two chambers of twelve members, of each of which two are needed.
const CHAMBERS: Statute = (&[2, 2], &[(12, &[1, 0]), (12, &[0, 1])]);

/// Returns what the members of these groups weigh under a rule.
fn weights_of(rt: &impl Abort, alloc: Global, groups: &[Group], rule: usize) -> Vec<u64> {
    let mut weights = Vec::new(alloc);
    for (count, each) in groups {
        assert!(rt; rule < each.len());
        let weight = each[rule];
        for _ in 0..*count {
            weights.push(weight).expect(rt, "room");
        }
    }
    weights
}

/// Returns the game of a statute, its rules in this order.
fn game_by_groups(rt: &impl Abort, alloc: Global, order: &[usize], statute: &Statute) -> Game {
    let (quotas, groups) = *statute;
    let mut rules = Vec::new(alloc);
    for rule in order {
        assert!(rt; *rule < quotas.len());
        let weights = weights_of(rt, alloc, groups, *rule);
        let quota = quotas[*rule];
        rules.push(Rule { quota, weights }).expect(rt, "room");
    }
    game_of(rt, alloc, rules)
}

/// Returns the worked game: one member has 35 votes, one has 20 and three have 15, and 51 win.
fn worked_game(rt: &impl Abort, alloc: Global) -> Game {
    game(rt, alloc, 51, &[35, 20, 15, 15, 15])
}

/// Counts the coalitions that a walk gives up to its end.
fn count(walk: &mut Walk<'_>) -> u64 {
    let mut count: u64 = 0;
    for _ in 0..u64::MAX {
        if walk.next().is_none() {
            break;
        }
        count = count.saturating_add(1);
    }
    count
}

#[test]
fn forty_equal_members(rt: HostRuntime) {
    let rows: [(u64, u32, usize, u64); 2] = [
        (2, u32::MAX, 780, 780),
        (6, 1_000_001, 1_000_001, 3_838_380),
    ];
    for (quota, most, listed, walked) in rows {
        let game = game(&rt, rt.alloc(), quota, &[1; 40]);
        let list = list_slice(rt.alloc(), &game, 0, 0, most).expect(&rt, "a list");
        assert_same(&rt, list.len(), listed, "coalitions listed");
        assert_same(&rt, count(&mut Walk::new(&game, 0, 0)), walked, "walked");
    }
}

/// Checks that the walk gives `coalitions` coalitions by `visits` visits.
fn check(rt: &impl Abort, walk: &mut Walk<'_>, coalitions: u64, visits: u64) {
    let found = (count(walk), walk.visits());
    assert_same(rt, found, (coalitions, visits), "coalitions and visits");
}

/// A statute, how many coalitions it has, and by how many visits a walk gives them, with its places
/// by contribution, whatever the order of its rules.
type Row = (Statute, u64, u64);

/// Four groups of which one member each is needed; a chair who must agree, by the second rule; two
/// chambers; a president, a senate of seven and a house of eleven; 40 members of whom four, or six,
/// must sign with half of the shares, of which an owner has most; two classes of shares; vetoers
/// lighter than many members; joint owners; two chambers and a budget; a member who has what the
/// rules ask for without others; and the Security Council of the United Nations: nine of fifteen
/// members, with all five who are permanent.
const ROWS: [Row; 12] = [
    (FOUR_GROUPS, 81, 159),
    ((&[2, 1], &[(1, &[0, 1]), (39, &[1, 0])]), 741, 780),
    (CHAMBERS, 4_356, 5_379),
    (
        (
            &[1, 4, 6],
            &[(1, &[1, 0, 0]), (7, &[0, 1, 0]), (11, &[0, 0, 1])],
        ),
        16_170,
        32_396,
    ),
    ((&[4, 51], &[(39, &[1, 1]), (1, &[1, 61])]), 9_139, 9_880),
    (
        (&[6, 51], &[(39, &[1, 1]), (1, &[1, 61])]),
        575_757,
        658_008,
    ),
    (
        (&[3, 201], &[(36, &[1, 1]), (4, &[0, 100])]),
        42_840,
        46_764,
    ),
    ((&[11, 8], &[(32, &[1, 0]), (8, &[1, 1])]), 4_960, 5_463),
    ((&[2, 100], &[(38, &[1, 1]), (2, &[1, 60])]), 1, 2),
    (
        (
            &[2, 2, 100],
            &[(20, &[1, 0, 1]), (18, &[0, 1, 1]), (2, &[0, 1, 50])],
        ),
        190,
        211,
    ),
    ((&[1, 1, 20], &[(39, &[2, 0, 1]), (1, &[1, 1, 20])]), 1, 1),
    ((&[9, 5], &[(10, &[1, 0]), (5, &[1, 1])]), 210, 334),
];

/// Returns the game with its places by contribution.
fn by_contribution(rt: &impl Abort, alloc: Global, game: Game) -> Game {
    match game.by_contribution(alloc).expect(rt, "memory") {
        Some(other) => other,
        None => game,
    }
}

/// Checks that the walk over a row's statute is as the row says.
///
/// Its rules are in this order.
fn check_row(rt: &impl Abort, alloc: Global, order: &[usize], row: &Row) {
    let (statute, coalitions, visits) = row;
    let game = by_contribution(rt, alloc, game_by_groups(rt, alloc, order, statute));
    check(rt, &mut Walk::new(&game, 0, 0), *coalitions, *visits);
}

#[test]
fn visits_under_several_rules(rt: HostRuntime) {
    let (up, down) = ([0, 1, 2, 3], [3, 2, 1, 0]);
    for row in &ROWS {
        let statute = row.0;
        let count = statute.0.len();
        assert!(rt; count <= 4);
        check_row(&rt, rt.alloc(), &up[..count], row);
        check_row(&rt, rt.alloc(), &down[4 - count..], row);
    }
}

#[test]
fn visits_of_slices_under_several_rules(rt: HostRuntime) {
    let game = game_by_groups(&rt, rt.alloc(), &[0, 1], &CHAMBERS);
    assert!(rt; game.members() == 24);
    for (slice, coalitions, visits) in [
        (0, 66, 89),
        (1, 660, 827),
        (2, 660, 827),
        (3, 2_970, 3_641),
    ] {
        check(&rt, &mut Walk::new(&game, 2, slice), coalitions, visits);
    }
}

/// Of three groups one member each is needed: there is memory to list the coalitions.
#[test]
fn slices_under_several_rules(rt: HostRuntime) {
    let groups: &[Group] = &[(2, &[1, 0, 0]), (3, &[0, 1, 0]), (35, &[0, 0, 1])];
    let game = game_by_groups(&rt, rt.alloc(), &[0, 1, 2], &(&[1, 1, 1], groups));
    assert!(rt; game.members() == 40);
    let list = list_slice(rt.alloc(), &game, 2, 1, u32::MAX).expect(&rt, "a slice");
    assert_same(&rt, list.len(), 105, "coalitions of a slice");
}

/// Counts the coalitions that a walk gives if it is asked for the next one within a million visits.
fn seek_all(walk: &mut Walk<'_>) -> u64 {
    let mut found: u64 = 0;
    for _ in 0..1_000_000u32 {
        match walk.seek(1_000_000) {
            Seek::Found(_) => found = found.saturating_add(1),
            Seek::NotYet | Seek::End => break,
        }
    }
    found
}

/// Fourteen members who count by the first rule only come before ten who count by both. The walk
/// would make some 270,000 visits if it did not ask what must still come, and some 8,000 if it
/// rounded that down.
#[test]
fn what_must_come_saves_visits(rt: HostRuntime) {
    let statute: Statute = (&[10, 17], &[(14, &[1, 0]), (10, &[1, 2])]);
    let game = game_by_groups(&rt, rt.alloc(), &[0, 1], &statute);
    check(&rt, &mut Walk::new(&game, 0, 0), 141, 2_933);
    let mut walk = Walk::new(&game, 0, 0);
    let found = (seek_all(&mut walk), walk.visits());
    assert_same(&rt, found, (141, 2_933), "sought");
}
