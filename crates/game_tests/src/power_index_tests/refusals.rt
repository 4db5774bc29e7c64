//! The counts and the indices, which take no memory, and all indices in a row, which take some.
//! `tests/call_allocations.sh` refuses allocations between the line `call` and the line of the
//! answer.
use crate::helpers::{assert_same, game, print_line};
use council_game::plain_list;
use power_index::laws::minimal_coalitions_can_be_counted;
use power_index::{Counts, Index, all_indices, deegan_packel, public_good};

const FIVE: [u64; 5] = [35, 20, 15, 15, 15];

#[test]
fn counts_without_memory(rt: HostRuntime) {
    let game = game(&rt, rt.alloc(), 51, &FIVE);
    assert!(rt; game.members() <= 20);
    let list = plain_list(rt.alloc(), &game).expect(&rt, "a list");
    minimal_coalitions_can_be_counted();
    print_line(&rt, "call");
    let counts = Counts::of(&game, &list);
    assert!(rt; counts.members() == 5);
    let first = Index::of(deegan_packel(&counts, 2));
    let second = Index::of(public_good(&counts, 2));
    assert_same(&rt, first.decimals(), *b"0.183333", "Deegan-Packel");
    assert_same(&rt, second.decimals(), *b"0.200000", "public good");
    print_line(&rt, "worked");
}

#[test]
fn gives_all_indices(rt: HostRuntime) {
    let game = game(&rt, rt.alloc(), 51, &FIVE);
    assert!(rt; game.members() <= 20);
    let list = plain_list(rt.alloc(), &game).expect(&rt, "a list");
    minimal_coalitions_can_be_counted();
    let counts = Counts::of(&game, &list);
    assert!(rt; counts.wide_total() == 5);
    print_line(&rt, "call");
    let Ok(all) = all_indices(rt.alloc(), &counts) else {
        return print_line(&rt, "out of memory");
    };
    print_line(&rt, "worked");
    assert!(rt; all.len() == 5);
    assert_same(&rt, all[0].deegan_packel.decimals(), *b"0.300000", "first");
    assert_same(&rt, all[1].public_good.decimals(), *b"0.133333", "second");
}
