//! Files that come in pieces, and long ones.
mod refusals;

use crate::helpers::assert_same;
use council_file::{parse_game, read_game, write_notation};
use council_game::{Game, GameFault};
use std::alloc::Global;
use std::io::{self, ErrorKind, Read};
use std::process::Abort;

const BOARD: &str = "quota = 51
[[member]]
name = \"A\"
weight = 50
[[member]]
name = \"B\"
weight = 49
[[member]]
name = \"C\"
weight = 1
";

/// Returns the notation of a game's first rule, or the text of the fault.
fn describe(rt: &impl Abort, alloc: Global, answer: Result<Game, GameFault>) -> String {
    match answer {
        Ok(game) => {
            let mut text = Vec::new(alloc);
            assert!(rt; 0 < game.rules());
            write_notation(&game, 0, &mut text).expect(rt, "room");
            String::from_utf8(text).expect(rt, "a text")
        }
        Err(fault) => format!(in alloc; "{fault}").expect(rt, "a text"),
    }
}

/// Gives bytes, at most `at_once` at once, and then the end or an error. It counts the reads.
#[derive(Drop)]
struct Piecemeal<'a> {
    left: &'a [u8],
    at_once: usize,
    error: Option<ErrorKind>,
    reads: usize,
}

impl<'a> Piecemeal<'a> {
    /// Returns a reader of these bytes.
    fn new(left: &'a [u8], at_once: usize, error: Option<ErrorKind>) -> Piecemeal<'a> {
        Piecemeal {
            left,
            at_once,
            error,
            reads: 0,
        }
    }
}

impl Read for Piecemeal<'_> {
    fn read(&mut self, buf: &mut [u8]) -> io::Result<usize> {
        self.reads = self.reads.saturating_add(1);
        if let Some(kind) = self.error
            && self.left.is_empty()
        {
            return Err(io::Error::from(kind));
        }
        let most = buf.len().min(self.at_once);
        self.left.read(&mut buf[..most])
    }
}

/// Checks what a reader answers, after at most `most` reads.
fn check(rt: &impl Abort, alloc: Global, reader: Piecemeal<'_>, wanted: &str, most: usize) {
    let mut reader = reader;
    let length = reader.left.len();
    let said = describe(rt, alloc, read_game(alloc, &mut reader));
    let found = (said.as_str(), reader.reads <= most);
    assert_same(rt, found, (wanted, true), length);
}

/// Whole files come by one read for each 4,096 bytes or part of them, and one that finds the end.
#[test]
fn readers(rt: HostRuntime) {
    let alloc = rt.alloc();
    let late = Some(ErrorKind::TimedOut);
    let reader = Piecemeal::new(BOARD.as_bytes(), 4096, None);
    check(&rt, alloc, reader, "[51; 50, 49, 1]", 2);
    for (length, error, wanted, most) in [
        (10_000, None, "bad quota", 4),
        (65_536, None, "bad quota", 17),
        (65_536, late, "the game file cannot be read", 17),
        (65_537, late, "the game file is longer than 65536 bytes", 17),
    ] {
        let text = " ".repeat(alloc, length).expect(&rt, "blanks");
        let reader = Piecemeal::new(text.as_bytes(), 1_000_000, error);
        check(&rt, alloc, reader, wanted, most);
    }
}

/// Bracket texts of up to 65,006 bytes, most of them blanks, are games.
#[test]
fn long_bracket_texts(rt: HostRuntime) {
    let alloc = rt.alloc();
    let mut text = b"[1; 1]".to_vec(alloc).expect(&rt, "room");
    for _ in 0..130 {
        text.extend_from_slice(&[b' '; 500]).expect(&rt, "room");
        assert!(rt; parse_game(alloc, &text).is_ok());
    }
}
