//! Each use once, on a worked game.
mod every_size;

ghost use Rattle.std.specs.Prelude.{◌≡◌, length};

use crate::coalitions::{is_blocking, lightest};
use crate::counts::{counts_at_quotas, indices_by_swings, tally_index};
use crate::indices_of;
use crate::names::{find_critical, win_together};
use crate::rings::through_a_ring;
use crate::slices::{Passes, words_of_slice};
use crate::tables::{first_wrong_row, most_powerful, report_into_memory};
use council_file::parse_game;
use council_game::{Coalition, Game, GameFault, Rule, plain_list};
use council_report::ReportLines;
use game_calls::{
    Forecast, at_quota, coalition_named, critical_members, first_unnamed, foresee,
    game_from_slices, has_member, outsiders, vetoers, with_member, with_quota, without_member,
};
use mwc_pipe::Word;
use power_index::{Fraction, Index, lowest};
use std::alloc::Global;
use std::fmt::Debug;
use std::process::Abort;

const FIVE: &[u8] = b"[51; 35, 20, 15, 15, 15]";

/// Fails with the label if what was found is not what was wanted.
fn assert_same<T: PartialEq + Debug + Drop, L: Debug + Drop>(
    rt: &impl Abort,
    found: T,
    wanted: T,
    label: L,
) {
    assert_eq!(rt; found, wanted, "{label:?}");
}

/// Asserts that an index is this fraction and these decimals.
fn assert_index(rt: &impl Abort, index: Index, top: u128, bottom: u128, decimals: &[u8; 8]) {
    assert_same(rt, index.top(), top, "index.top");
    assert_same(rt, index.bottom(), bottom, "index.bottom");
    assert_same(rt, index.decimals(), *decimals, "index.decimals");
}

/// Returns the game of five members.
fn five(rt: &impl Abort, alloc: Global) -> Game
    ensures { length result.names ≡ 5 }
{
    let game = parse_game(alloc, FIVE).expect(rt, "a game");
    assert!(rt; game.members() == 5);
    game
}

#[test]
fn indices_of_all_members(rt: HostRuntime) {
    let game = five(&rt, rt.alloc());
    let answer = indices_of(rt.alloc(), &game).expect(&rt, "memory");
    let indices = answer.expect(&rt, "a list of few");
    assert!(rt; indices.len() == 5);
    let both = [indices[0].public_good, indices[0].deegan_packel];
    assert_index(&rt, both[1], 3, 10, b"0.300000");
    assert_index(&rt, both[0], 4, 15, b"0.266666");
    assert_same(&rt, most_powerful(&both), Some(1), "most_powerful");
    let wrong = first_wrong_row(&both, &[(8, 30), (31, 100)]);
    assert_same(&rt, wrong, Some(1), "first_wrong_row");
}

#[test]
fn the_first_is_not_the_lightest(rt: HostRuntime) {
    let game = parse_game(rt.alloc(), b"[51; 40, 30, 11, 11]").expect(&rt, "a game");
    assert_same(
        &rt,
        lightest(&game),
        Some(Coalition::of_mask(10)),
        "lightest",
    );
    for (other, wanted) in [("3", Some(true)), ("1", Some(false)), ("5", None)] {
        assert_same(&rt, win_together(&game, "1", other), wanted, other);
    }
}

/// Returns the game of Ada, Bo and Cleo, of 50, 49 and 1 votes, at 51.
fn board(rt: &impl Abort, alloc: Global) -> Game {
    game_from_slices(alloc, &["Ada", "Bo", "Cleo"], &[50, 49, 1], 51).expect(rt, "a game")
}

#[test]
fn a_game_has_a_member(rt: HostRuntime) {
    let answer = game_from_slices(rt.alloc(), &[], &[], 1);
    assert_same(&rt, answer.err(), Some(GameFault::Members), "fault");
}

#[test]
fn members_of_coalitions(rt: HostRuntime) {
    let alloc = rt.alloc();
    let game = board(&rt, alloc);
    assert!(rt; game.members() == 3);
    let two = coalition_named(&game, &["Ada", "Bo"]).expect(&rt, "a coalition");
    let members = critical_members(alloc, &game, two).expect(&rt, "memory");
    assert!(rt; members.as_slice() == [0, 1].as_slice());
    assert!(rt; !has_member(&game, outsiders(&game, two), 0));
    assert!(rt; has_member(&game, outsiders(&game, two), 2));
    assert_same(
        &rt,
        with_member(&game, without_member(&game, two, 0), 0),
        two,
        "one member less and more",
    );
    assert_same(&rt, first_unnamed(&game, &["Bo", "Di"]), Some(1), "Di");
    assert!(rt; is_blocking(&game, two));
    assert!(rt; has_member(&game, vetoers(&game), 0));
    let answer = find_critical(alloc, &game, &["Cleo", "Ada", "Bo"]).expect(&rt, "memory");
    let critical = answer.expect(&rt, "members of these names");
    assert!(rt; critical.as_slice() == [0].as_slice());
    assert!(rt;
        find_critical(alloc, &game, &["Di"])
            .expect(&rt, "memory")
            .is_none()
    );
}

#[test]
fn other_quotas(rt: HostRuntime) {
    let alloc = rt.alloc();
    let game = board(&rt, alloc);
    assert!(rt; game.total() == 100);
    let counts = counts_at_quotas(alloc, &game, &[51, 100]).expect(&rt, "memory");
    assert!(rt; counts.as_slice() == [2, 1].as_slice());
    let unanimous = with_quota(alloc, &game, 0, 100).expect(&rt, "a game");
    assert_same(&rt, unanimous.quota(), 100, "with_quota");
}

#[test]
fn votes_that_are_not_all_cast(rt: HostRuntime) {
    let game = board(&rt, rt.alloc());
    assert!(rt; game.members() == 3);
    let (nobody, ada) = (Coalition::none(), with_member(&game, Coalition::none(), 0));
    let two = with_member(&game, ada, 1);
    for (ayes, nays, wanted) in [
        (ada, nobody, Forecast::Open),
        (two, nobody, Forecast::Passed),
        (nobody, ada, Forecast::Failed),
    ] {
        assert_same(&rt, foresee(&game, ayes, nays), wanted, "foresee");
    }
}

#[test]
fn words_to_another_thread(rt: HostRuntime) {
    let mut words = Vec::new(rt.alloc());
    for mask in 0..65_536 {
        words
            .push(Word::One(Coalition::of_mask(mask)))
            .expect(&rt, "room");
    }
    assert!(rt; words.len() == 65_536);
    let answer = through_a_ring(&rt, rt.alloc(), words).expect(&rt, "memory");
    let mut rest = answer.expect(&rt, "a thread");
    for mask in 0..65_536 {
        assert_same(
            &rt,
            rest.next(),
            Some(Word::One(Coalition::of_mask(mask))),
            "rest.next",
        );
    }
    assert_same(&rt, rest.next(), None, "rest.next 2");
}

#[test]
fn words_of_a_slice(rt: HostRuntime) {
    let game = five(&rt, rt.alloc());
    let passes = Passes::none();
    let words = words_of_slice(&rt, rt.alloc(), &game, &passes, 2, 1).expect(&rt, "words");
    assert_same(&rt, passes.count(), 1, "passes.count");
    let wanted = [
        Word::Open(1),
        Word::One(Coalition::of_mask(22)),
        Word::One(Coalition::of_mask(21)),
        Word::One(Coalition::of_mask(19)),
        Word::Done(1),
    ];
    assert_same(&rt, words.as_slice(), wanted.as_slice(), "words");
}

#[test]
fn a_report_in_memory(rt: HostRuntime) {
    let game = parse_game(rt.alloc(), b"[2; 1, 1]").expect(&rt, "a game");
    let shown = ReportLines {
        list: false,
        sizes: false,
        notation: false,
    };
    let answer = report_into_memory(rt.alloc(), &game, shown).expect(&rt, "memory");
    let bytes = answer.expect(&rt, "a list of few");
    let wanted = b"members\t2\nquota\t2\ntotal\t2\nminimal\t1
member\t1\t1\t1\t1/2\t0.500000\t1/2\t0.500000
member\t2\t1\t1\t1/2\t0.500000\t1/2\t0.500000\n";
    assert!(rt; bytes.as_slice() == wanted.as_slice());
}

#[test]
fn a_tally(rt: HostRuntime) {
    let game = five(&rt, rt.alloc());
    let index = tally_index(&rt, rt.alloc(), &game, 0, 2).expect(&rt, "memory");
    assert_index(&rt, index, 3, 10, b"0.300000");
}

#[test]
fn indices_of_published_games_by_swings(rt: HostRuntime) {
    let alloc = rt.alloc();
    let six: &[u8] = b"[12; 4, 4, 4, 2, 2, 1]";
    let nations: &[u8] = b"[39; 7, 7, 7, 7, 7, 1, 1, 1, 1, 1, 1, 1, 1, 1, 1]";
    for (text, member, banzhaf, shapley_shubik) in [
        (six, 0, Some(lowest(5, 21)), lowest(14, 60)),
        (six, 3, Some(lowest(3, 21)), lowest(9, 60)),
        (six, 5, Some(lowest(0, 1)), lowest(0, 1)),
        (nations, 0, None, lowest(421, 2145)),
        (nations, 14, None, lowest(4, 2145)),
    ] {
        let game = parse_game(alloc, text).expect(&rt, "a game");
        assert!(rt; member < game.members());
        let found: Option<(Fraction, Fraction)> = indices_by_swings(alloc, &game, member).expect(
            &rt, "memory",
        );
        let found = found.expect(&rt, "room");
        assert_eq!(&rt; found.1, shapley_shubik, "{member}");
        if let Some(banzhaf) = banzhaf {
            assert_eq!(&rt; found.0, banzhaf, "{member}");
        }
    }
}
