//! Words that wait to be sent together.
ghost use Rattle.std.specs.Prelude.{◌≡◌, ◌<◌, ◌++◌, ◌∷◌, [], length, if◌then◌else◌};

use mwc_pipe::Word;
use std::marker::Model;

/// How many words a row has that lies on the stack, 1 KB.
pub(crate) const SHORT_ROW: usize = 64;

/// Words that wait to be sent together, in a row of the caller's.
///
/// Contracts see the words. No call takes memory.
#[derive(Drop)]
pub(crate) struct WordBuffer<'a> {
    row: &'a mut [Word],
    count: usize,
}

impl<'a> Model for WordBuffer<'a> {
    ghost use Rattle.std.specs.Prelude.{◌<◌, ◌≤◌, List, length, take};
    ghost use Rattle.mwc_pipe.specs.declared.word.Word.{Word};

    ghost Value = { List Word };

    ghost view = { λ b. take b.count b.row.now };

    ghost invariant = { λ b. (b.count ≤ length b.row.now) × (0 < length b.row.now) };
}

impl<'a> WordBuffer<'a> {
    /// Makes a buffer of no words, with room for as many as the row has.
    pub fn new(row: &'a mut [Word]) -> WordBuffer<'a>
        requires { 0 < length row.old }
        ensures { result ≡ [] }
    {
        WordBuffer { row, count: 0 }
    }

    /// Adds a word after the others if there is room, and returns whether there is.
    pub fn push(&mut self, word: &Word) -> bool
        ensures { self.new ≡ (if result then self.old ++ word.now ∷ [] else self.old) }
    {
        if self.count == self.row.len() {
            return false;
        }
        self.row[self.count] = *word;
        self.count += 1;
        true
    }

    /// Returns the words.
    pub fn words(&self) -> &[Word]
        ensures { result.now ≡ self.now }
    {
        &self.row[..self.count]
    }

    /// Removes all words, and adds one.
    pub fn restart(&mut self, word: Word)
        ensures { self.new ≡ word ∷ [] }
    {
        self.row[0] = word;
        self.count = 1;
    }
}
