//! The calls that take memory. `tests/call_allocations.sh` refuses the allocations between the line
//! `call` and the line of the answer, one after the other.
use super::*;
use crate::helpers::print_line;
use council_game::{push_decimal, push_joined};
use std::io::Print;

/// Prints the answer of a call: out of memory, or else what is wanted.
fn print_answer<R: Abort + Print>(
    rt: &R,
    alloc: Global,
    answer: Result<Game, GameFault>,
    wanted: &str,
) {
    if matches!(&answer, Err(GameFault::Memory)) {
        print_line(rt, "out of memory");
        return;
    }
    print_line(rt, "worked");
    assert_same(rt, describe(rt, alloc, answer).as_str(), wanted, "answer");
}

/// Parses the text, and prints the answer.
fn parses<R: Abort + Print>(rt: &R, alloc: Global, text: &str, wanted: &str) {
    print_line(rt, "call");
    let answer = parse_game(alloc, text.as_bytes());
    print_answer(rt, alloc, answer, wanted);
}

#[test]
fn parses_toml(rt: HostRuntime) {
    let text =
        "title = \"Board\"\nquotas = [51, 2]\nmember = [{name = \"A\", weights = [50, 1]}, {name = \"B\", weights = [49, 1]}]";
    parses(&rt, rt.alloc(), text, "[51; 50, 49]");
}

#[test]
fn parses_brackets(rt: HostRuntime) {
    parses(&rt, rt.alloc(), "[51; 50, 49, 1]", "[51; 50, 49, 1]");
}

#[test]
fn finds_a_repeated_name(rt: HostRuntime) {
    let text =
        "title = \"Board\"\nquotas = [51, 2]\nmember = [{name = \"A\", weights = [50, 1]}, {name = \"A\", weights = [49, 1]}]";
    parses(&rt, rt.alloc(), text, "member 2 repeats a name");
}

#[test]
fn finds_an_unknown_key(rt: HostRuntime) {
    let text =
        "quota = 51\nmember = [{name = \"A\", weight = 50}, {name = \"B\", weight = 49, vote = 1}]";
    parses(&rt, rt.alloc(), text, "unknown key");
}

#[test]
fn finds_a_bad_weight(rt: HostRuntime) {
    let text = "quota = 51\nmember = [{name = \"A\", weight = 50}, {name = \"B\", weight = 49.0}]";
    parses(&rt, rt.alloc(), text, "bad weight of member 2");
}

#[test]
fn finds_no_toml(rt: HostRuntime) {
    let text = "quota = 51\nmember = [{name = \"A\", weight = 50}, {name = \"B\"";
    parses(&rt, rt.alloc(), text, "the game file is not TOML");
}

#[test]
fn finds_a_bad_bracket_text(rt: HostRuntime) {
    let text = "[51; 50, 49, 1, 1, 1, 1, 1, 1, 1,, 1]";
    parses(&rt, rt.alloc(), text, "bad bracket text");
}

#[test]
fn finds_a_quota_out_of_range(rt: HostRuntime) {
    parses(&rt, rt.alloc(), "[101; 50, 49, 1]", "quota out of range");
}

/// Reads a game, and prints the answer.
fn reads<R: Abort + Print>(
    rt: &R,
    alloc: Global,
    text: &[u8],
    at_once: usize,
    error: Option<ErrorKind>,
    wanted: &str,
) {
    let mut reader = Piecemeal::new(text, at_once, error);
    print_line(rt, "call");
    let answer = read_game(alloc, &mut reader);
    print_answer(rt, alloc, answer, wanted);
}

#[test]
fn reads_pieces(rt: HostRuntime) {
    let text = BOARD.as_bytes();
    reads(&rt, rt.alloc(), text, 7, None, "[51; 50, 49, 1]");
}

#[test]
fn reads_a_fault(rt: HostRuntime) {
    let text = b"[51; 50, 49, 1";
    reads(&rt, rt.alloc(), text, 7, None, "bad bracket text");
}

#[test]
fn reads_up_to_an_error(rt: HostRuntime) {
    let (text, late) = (BOARD.as_bytes(), Some(ErrorKind::TimedOut));
    let wanted = "the game file cannot be read";
    reads(&rt, rt.alloc(), text, 7, late, wanted);
}

#[test]
fn reads_too_much(rt: HostRuntime) {
    let text = " ".repeat(rt.alloc(), 65_537).expect(&rt, "blanks");
    let wanted = "the game file is longer than 65536 bytes";
    reads(&rt, rt.alloc(), text.as_bytes(), 1, None, wanted);
}

#[test]
fn writes_notation(rt: HostRuntime) {
    let alloc = rt.alloc();
    let game = parse_game(alloc, BOARD.as_bytes()).expect(&rt, "a game");
    let mut out = b"x".to_vec(alloc).expect(&rt, "room");
    assert!(rt; 0 < game.rules());
    print_line(&rt, "call");
    match write_notation(&game, 0, &mut out) {
        Ok(()) => print_line(&rt, "worked"),
        Err(_) => {
            print_line(&rt, "out of memory");
            write_notation(&game, 0, &mut out).expect(&rt, "room");
        }
    }
    assert_same(&rt, out.as_slice(), b"x[51; 50, 49, 1]", "notation");
}

/// Appends numbers to a text that stays if a growth is refused.
#[test]
fn puts_numbers(rt: HostRuntime) {
    let mut text = b"x".to_vec(rt.alloc()).expect(&rt, "room");
    print_line(&rt, "call");
    let joined = push_joined(&mut text, b", ", 300, |i| 1_000_000 + i as u64);
    let last = push_decimal(&mut text, 7);
    if joined.is_ok() && last.is_ok() {
        print_line(&rt, "worked");
        assert_same(&rt, text.len(), 2_700, "length");
    } else {
        print_line(&rt, "out of memory");
    }
    assert_same(&rt, text.starts_with(b"x"), true, "what was there");
}
