//! Command lines. What the program refuses, `tests/cases/refused-words` shows.
use council_game::Plan;
use council_words::read_words;
use std::alloc::Global;
use std::process::Abort;

/// Returns the words of a command line, the first the program's name.
fn words(rt: &impl Abort, alloc: Global, line: &str) -> Vec<String> {
    let mut words = Vec::new(alloc);
    for word in line.split_whitespace() {
        let word = String::from_str(alloc, word).expect(rt, "a word");
        words.push(word).expect(rt, "room");
    }
    words
}

/// Each line has a file, a plan, the numbers of workers, bits and coalitions, and four flags: list,
/// sizes, notation and explain.
#[test]
fn reads_command_lines(rt: HostRuntime) {
    let none = [false; 4];
    let listed = [true, true, true, false];
    for (line, file, plan, numbers, flags) in [
        (
            "council g",
            Some("g"),
            Plan::Either,
            [4, 6, 1_000_000],
            none,
        ),
        (
            "council --workers 1 --bits 0 --most 1",
            None,
            Plan::List,
            [1, 0, 1],
            none,
        ),
        (
            "council --workers 16 g --bits 10 --most 4000000 --list --sizes --notation",
            Some("g"),
            Plan::List,
            [16, 10, 4_000_000],
            listed,
        ),
        (
            "council --tally --sizes --workers 2 --bits 1 --explain",
            None,
            Plan::Count,
            [2, 1, 1_000_000],
            [false, true, false, true],
        ),
    ] {
        let words = words(&rt, rt.alloc(), line);
        let found = read_words(rt.alloc(), words.as_slice()).expect(&rt, "a command line");
        let options = &found.options;
        assert!(rt; found.file == file && found.plan == plan, "{line}");
        assert!(rt;
            [
                u32::from(options.workers),
                u32::from(options.bits),
                options.most
            ] == numbers
        );
        assert!(rt; [options.list, options.sizes, options.notation, found.explain] == flags);
    }
}
