//! A scanner that gives a bracket text symbol by symbol.
ghost use Rattle.std.specs.Prelude.{◌≡◌, ◌≤◌, ◌<◌, [], ◌∷◌, List, length, take, drop, false, IfSome, MatchOption, option_map, Some, None, if◌then◌else◌};
ghost use Rattle.std.specs.Str.Parse.{AllDigits};
ghost use Rattle.council_file.specs.Bracket.{Symbol, symbols, is_blank, mark, begins_with_digit, value_of};
ghost use Rattle.council_file.specs.Inner.Scan.{after_opening, after_semicolon, begins_with_number, begins_with_blank, symbol, IsWhole, first_number};

use std::marker::Model;

/// A symbol of a bracket text: the digits of a number, a mark, or any other byte that is not blank.
#[derive(Clone, Copy)]
pub(crate) enum Token<'a> {
    Number(&'a [u8]),
    Opening,
    Closing,
    Comma,
    Semicolon,
    Other,
}

/// Returns whether a byte is a blank.
fn is_blank(byte: u8) -> bool
    ensures { result ≡ is_blank byte }
{
    matches!(byte, b' ' | b'\t' | b'\n' | b'\r')
}

/// Returns the symbol of one byte.
fn mark(byte: u8) -> Token<'static>
    ensures is { symbol result ≡ mark byte }
    ensures whole { IsWhole result }
{
    match byte {
        b'[' => Token::Opening,
        b']' => Token::Closing,
        b',' => Token::Comma,
        b';' => Token::Semicolon,
        _ => Token::Other,
    }
}

/// Returns how many digits are first.
#[tactic(auto, using(std::proofs::lemmas::Int::Digits::digits_more))]
fn digits_in_front(bytes: &[u8]) -> usize
    ensures within { result ≤ length bytes.now }
    ensures digits { AllDigits 10 (take result bytes.now) }
    ensures all { begins_with_digit (drop result bytes.now) ≡ false }
{
    let mut n = 0;
    while n < bytes.len() && bytes[n].is_ascii_digit() {
        n += 1;
    }
    n
}

/// Returns the text from its first byte that is not blank.
#[tactic(auto, using(crate::proofs::Digits::symbols_behind_blank))]
fn after_blanks(text: &[u8]) -> &[u8]
    ensures same { symbols result.now ≡ symbols text.now }
    ensures all { begins_with_blank result.now ≡ false }
{
    let mut left = text;
    while let [first, rest @ ..] = left {
        if !is_blank(*first) {
            break;
        }
        left = rest;
    }
    left
}

/// Returns the first symbol of a text, and the text after it.
///
/// The text begins with no blank.
#[tactic(auto, using(crate::proofs::Digits::first_symbols))]
fn first_symbol(text: &[u8]) -> Option<(Token<'_>, &[u8])>
    requires { begins_with_blank text.now ≡ false }
    ensures is { MatchOption result (symbols text.now ≡ [])
        (λ f. symbols text.now ≡ symbol f.0 ∷ symbols f.1.now) }
    ensures whole { IfSome result (λ f. IsWhole f.0) }
{
    match text {
        [] => None,
        [first, ..] if first.is_ascii_digit() => {
            let (digits, rest) = text.split_at(digits_in_front(text));
            Some((Token::Number(digits), rest))
        }
        [first, rest @ ..] => Some((mark(*first), rest)),
    }
}

/// Returns the value of 1 to 18 digits.
#[tactic(auto, using(crate::proofs::Digits::values))]
fn value_of(digits: &[u8]) -> Option<u64>
    requires { AllDigits 10 digits.now }
    ensures { result ≡ value_of digits.now }
{
    if 18 < digits.len() {
        return None;
    }
    let mut value: u64 = 0;
    for digit in digits {
        value = value * 10 + (*digit - b'0') as u64;
    }
    Some(value)
}

/// What is left of a text. Contracts see it as its symbols.
#[derive(Drop)]
pub(crate) struct Scanner<'a> {
    left: &'a [u8],
}

impl<'a> Model for Scanner<'a> {
    ghost Value = { List Symbol };

    ghost view = { λ s. symbols s.left.now };
}

impl<'a> Scanner<'a> {
    /// Begins with a text.
    pub(crate) fn new(text: &'a [u8]) -> Self
        ensures { result ≡ symbols text.now }
    {
        Scanner { left: text }
    }

    /// Returns the next symbol.
    pub(crate) fn next(&mut self) -> Option<Token<'a>>
        ensures is { MatchOption result ((self.old ≡ []) × (self.new ≡ []))
            (λ t. self.old ≡ symbol t ∷ self.new) }
        ensures whole { IfSome result IsWhole }
    {
        let (token, left) = first_symbol(after_blanks(self.left))?;
        self.left = left;
        Some(token)
    }

    /// Takes the next symbol, and says whether it is `[`.
    pub(crate) fn take_opening(&mut self) -> bool
        ensures { after_opening self.old ≡ (if result then Some self.new else None) }
    {
        matches!(self.next(), Some(Token::Opening))
    }

    /// Takes the next symbol, and says whether it is `;`.
    pub(crate) fn take_semicolon(&mut self) -> bool
        ensures { after_semicolon self.old ≡ (if result then Some self.new else None) }
    {
        matches!(self.next(), Some(Token::Semicolon))
    }

    /// Takes the next symbol, and says whether it is a number.
    pub(crate) fn take_digits(&mut self) -> bool
        ensures { result ≡ begins_with_number self.old }
    {
        matches!(self.next(), Some(Token::Number(_)))
    }

    /// Returns the number that stands next, if it has 1 to 18 digits.
    pub(crate) fn number(&mut self) -> Option<u64>
        ensures { option_map (λ n. (n, self.new)) result ≡ first_number self.old }
    {
        match self.next() {
            Some(Token::Number(digits)) => value_of(digits),
            _ => None,
        }
    }
}
