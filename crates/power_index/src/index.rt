//! An index as a value: a fraction from 0 to 1 in lowest terms.
ghost use Rattle.power_index.specs.Fractions.{IsIndex, decimals, fraction_cmp, pair_of};
ghost use Rattle.std.specs.Prelude.{◌≡◌, ◌≤◌, ◌<◌, ◌^◌, Some};
ghost use Rattle.std.specs.Fmt.{WritesOnOk};
ghost use Rattle.std.specs.List.{All};

use crate::Fraction;
use crate::fraction::order;
use std::cmp::Ordering;
use std::fmt;
use std::marker::Model;

/// An index of a member: a fraction from 0 to 1 in lowest terms, whose bottom is 1 to 10^30.
///
/// Two are equal exactly if they are the same number. Contracts see the pair of top and bottom.
#[derive(Clone, Copy, Debug, PartialEq, Eq)]
pub struct Index {
    top: u128,
    bottom: u128,
}

impl Model for Index {
    ghost use Rattle.power_index.specs.Fractions.{IsIndex};
    ghost use Rattle.std.specs.Prelude.{ℕ};

    ghost Value = { ℕ × ℕ };

    ghost view = { λ i. (i.top, i.bottom) };

    ghost invariant = { λ i. IsIndex (i.top, i.bottom) };

    ghost inverse = { λ p. record { top = p.0; bottom = p.1 } };
}

impl Index {
    /// Makes an index of a fraction that `deegan_packel` or `public_good` gives.
    pub fn of(fraction: Fraction) -> Index
        requires { IsIndex (pair_of fraction) }
        ensures { result ≡ pair_of fraction }
    {
        Index {
            top: fraction.top,
            bottom: fraction.bottom,
        }
    }

    /// Returns the fraction; its contract says all that an index keeps.
    pub fn fraction(self) -> Fraction
        ensures same { pair_of result ≡ self }
        ensures index { IsIndex (pair_of result) }
    {
        Fraction {
            top: self.top,
            bottom: self.bottom,
        }
    }

    /// Returns the number above the line, at most that below it.
    pub fn top(self) -> u128
        ensures top { result ≡ self.0 }
        ensures at_most_one { result ≤ self.1 }
    {
        self.top
    }

    /// Returns the number below the line, 1 to 10^30.
    pub fn bottom(self) -> u128
        ensures bottom { result ≡ self.1 }
        ensures some { 1 ≤ result }
        ensures small { result ≤ 10 ^ 30 }
    {
        self.bottom
    }

    /// Returns one digit, a point and six digits.
    ///
    /// The millionths are cut off, not rounded.
    pub fn decimals(self) -> [u8; 8]
        ensures { result ≡ decimals self }
    {
        self.fraction().decimals()
    }

    /// Compares two indices, exactly.
    pub fn compare(self, other: Index) -> Ordering
        ensures { result ≡ fraction_cmp self other }
    {
        order(self.fraction(), other.fraction())
    }
}

/// An index prints as its decimals.
impl fmt::Display for Index {
    ghost output = { λ i. Some (decimals i) };

    fn fmt<W: fmt::Write>(&self, f: &mut fmt::Formatter<W>) -> fmt::Result {
        write_digits(f, &self.decimals())
    }
}

/// Writes digits and points, each as its character.
fn write_digits<W: fmt::Write>(f: &mut fmt::Formatter<W>, digits: &[u8]) -> fmt::Result
    requires ascii { All (λ d. d < 128) digits.now }
    ensures { WritesOnOk W.write_str_gives f.old result digits.now f.new }
{
    for digit in digits {
        f.write_char(char::from(*digit))?;
    }
    Ok(())
}
