//! Fractions in lowest terms, their decimals and their order.
ghost use Rattle.power_index.specs.Fractions.{IsLowestOf, decimals, digit, lowest_terms, pair_of, fraction_cmp};
ghost use Rattle.std.specs.Int.{IsGcd};
ghost use Rattle.std.specs.Prelude.{◌≡◌, ◌<◌, ◌≤◌, ◌^◌};

use std::cmp::Ordering;

/// A fraction: `top / bottom`.
#[derive(Clone, Copy, Debug, PartialEq, Eq)]
pub struct Fraction {
    /// The number above the line.
    pub top: u128,
    /// The number below the line, above 0 in the fractions that calls give.
    pub bottom: u128,
}

/// Computes the greatest common divisor, by Euclid's algorithm.
fn gcd(a: u128, b: u128) -> u128
    ensures { IsGcd a b result }
{
    let mut x = a;
    let mut y = b;
    while y != 0 {
        let rest = x % y;
        x = y;
        y = rest;
    }
    x
}

/// Returns `top / bottom` in lowest terms: no number above 1 divides both.
///
/// 0 becomes 0/1.
pub fn lowest(top: u128, bottom: u128) -> Fraction
    requires { 0 < bottom }
    ensures lowest { IsLowestOf (top, bottom) (pair_of result) }
    ensures terms { pair_of result ≡ lowest_terms (top, bottom) }
    ensures small { result.bottom ≤ bottom }
{
    let divisor = gcd(top, bottom);
    Fraction {
        top: top / divisor,
        bottom: bottom / divisor,
    }
}

/// Returns the last decimal digit of a number, as its code.
fn digit_of(n: u128) -> u8
    ensures { result ≡ digit n }
{
    b'0' + (n % 10) as u8
}

impl Fraction {
    /// Returns a fraction from 0 to 1 as one digit, a point and six digits.
    ///
    /// The millionths are cut off, not rounded.
    pub fn decimals(&self) -> [u8; 8]
        requires positive { 0 < self.now.bottom }
        requires at_most_one { self.now.top ≤ self.now.bottom }
        requires small { self.now.bottom ≤ 10 ^ 30 }
        ensures { result ≡ decimals (pair_of self.now) }
    {
        let millionths = 1_000_000 * self.top / self.bottom;
        [
            digit_of(millionths / 1_000_000),
            b'.',
            digit_of(millionths / 100_000),
            digit_of(millionths / 10_000),
            digit_of(millionths / 1000),
            digit_of(millionths / 100),
            digit_of(millionths / 10),
            digit_of(millionths),
        ]
    }
}

/// Compares two fractions, by Euclid's algorithm on both at once.
///
/// Their quotients decide, and if these are equal, the rests, turned upside down. No product of a
/// top and a bottom is made.
pub(crate) fn order(first: Fraction, second: Fraction) -> Ordering
    requires first { 0 < first.bottom }
    requires second { 0 < second.bottom }
    ensures { result ≡ fraction_cmp (pair_of first) (pair_of second) }
{
    let mut x = first;
    let mut y = second;
    while x.top / x.bottom == y.top / y.bottom && x.top % x.bottom != 0 && y.top % y.bottom != 0 {
        let turned = Fraction {
            top: y.bottom,
            bottom: y.top % y.bottom,
        };
        y = Fraction {
            top: x.bottom,
            bottom: x.top % x.bottom,
        };
        x = turned;
    }
    let quotients = (x.top / x.bottom).cmp(&(y.top / y.bottom));
    quotients.then((x.top % x.bottom).cmp(&(y.top % y.bottom)))
}
