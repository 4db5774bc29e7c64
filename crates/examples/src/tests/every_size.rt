//! With memory, a call works in games of every size: its contract lets it answer `Memory` whenever
//! it likes.
ghost use Rattle.std.specs.Prelude.{◌≡◌, ◌<◌, ◌≤◌, length};

use super::*;
use game_calls::{everyone, member_indices, under_rules, with_weights};
use mwc_walk::{list_all, list_slice};
use power_index::{Counts, all_indices};

/// Returns how many members are all but one, or the only one.
fn all_but(members: usize) -> u64 {
    (members as u64).saturating_sub(1).max(1)
}

/// Rules by which as many members have to agree, each of one vote.
fn agreeing(rt: &impl Abort, alloc: Global, members: usize, count: usize) -> Vec<Rule> {
    let mut rules = Vec::new(alloc);
    for _ in 0..count {
        let mut weights = Vec::new(alloc);
        for _ in 0..members {
            weights.push(1).expect(rt, "room");
        }
        let quota = all_but(members);
        rules.push(Rule { quota, weights }).expect(rt, "room");
    }
    rules
}

/// Returns the game that all but one of the members win, each of one vote.
fn all_but_one(rt: &impl Abort, alloc: Global, members: usize) -> Game {
    let letters = [
        "A", "B", "C", "D", "E", "F", "G", "H", "I", "J", "K", "L", "M", "N", "O", "P", "Q", "R",
        "S", "T", "a", "b", "c", "d", "e", "f", "g", "h", "i", "j", "k", "l", "m", "n", "o", "p",
        "q", "r", "s", "t",
    ];
    let weights = [1; 40];
    assert!(rt; 1 <= members && members <= 40);
    let quota = all_but(members);
    game_from_slices(alloc, &letters[..members], &weights[..members], quota).expect(rt, "a game")
}

/// Checks that the lists of the game, and the indices, are there.
fn check_lists(rt: &impl Abort, alloc: Global, game: &Game, wanted: usize) {
    let answer = list_all(alloc, game, 40).expect(rt, "memory");
    let list = answer.expect(rt, "a list of few");
    assert_same(rt, list.len(), wanted, "list_all");
    let slice = list_slice(alloc, game, 0, 0, 40).expect(rt, "memory");
    assert_same(rt, slice.len(), wanted, "list_slice");
    if game.members() <= 10 {
        assert!(rt; game.members() <= 20);
        let plain = plain_list(alloc, game).expect(rt, "memory");
        assert_same(rt, plain.len(), wanted, "plain_list");
    }
    for member in 0..game.members() {
        let answer = member_indices(alloc, game, member).expect(rt, "memory");
        assert!(rt; answer.is_some());
    }
}

/// Checks that the members of all, and those critical there, are listed.
fn check_members(rt: &impl Abort, alloc: Global, game: &Game) {
    let all = everyone(game);
    let members = game.members_of(alloc, all).expect(rt, "memory");
    assert_same(rt, members.len(), game.members(), "members_of");
    let critical = critical_members(alloc, game, all).expect(rt, "memory");
    let wanted = if game.members() == 1 { 1 } else { 0 };
    assert_same(rt, critical.len(), wanted, "critical_members");
    let names = game.copy_names(alloc).expect(rt, "memory");
    assert_same(rt, names.len(), game.members(), "copy_names");
}

/// Checks that games with other weights and at another quota are made.
fn check_other_games(rt: &impl Abort, alloc: Global, game: &Game) {
    assert!(rt; game.members() <= 40);
    let weights = [1; 40][..game.members()]
        .to_vec(alloc)
        .expect(rt, "weights");
    assert!(rt; weights.len() == game.members());
    let other = with_weights(alloc, game, weights).expect(rt, "memory");
    let quota = game.total();
    assert!(rt; 1 <= quota && quota <= other.total());
    let all = at_quota(alloc, &other, quota).expect(rt, "memory");
    assert_same(rt, all.quota(), quota, "at_quota");
}

/// Returns the game under as many rules by which all but one have to agree.
fn of_rules(rt: &impl Abort, alloc: Global, game: &Game, count: usize) -> Game {
    let rules = agreeing(rt, alloc, game.members(), count);
    assert!(rt; 1 <= rules.len() && rules.len() <= 4);
    assert!(rt;
        rules
            .iter()
            .all(|rule| rule.weights.len() == game.members())
    );
    under_rules(alloc, game, rules).expect(rt, "memory")
}

#[test]
fn calls_work_at_every_size(rt: HostRuntime) {
    let alloc = rt.alloc();
    for members in 1..=40usize {
        let game = all_but_one(&rt, alloc, members);
        assert!(rt; game.members() == members && game.rules() == 1);
        check_other_games(&rt, alloc, &game);
        for count in 1..=4usize {
            let several = of_rules(&rt, alloc, &game, count);
            assert_same(&rt, several.rules(), count, "under_rules");
            check_lists(&rt, alloc, &several, members);
            check_members(&rt, alloc, &several);
        }
    }
}
