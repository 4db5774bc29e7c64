//! The numbers that a call hands out, as C has them.
ghost use Rattle.std.specs.Prelude.{◌≡◌};
ghost use Rattle.council_c.specs.Numbers.{in_words, words_of};
ghost use Rattle.power_index.specs.Fractions.{pair_of};

use council_game::limits;
use power_index::Fraction;

/// A number of 128 bits, in two words.
#[repr(C)]
#[derive(Clone, Copy)]
pub struct CouncilWide {
    /// The number divided by 2^64.
    pub high: u64,
    /// The remainder.
    pub low: u64,
}

/// A fraction in lowest terms, from 0 to 1, whose bottom is 1 to 10^30; or 0/0 if nobody asked.
#[repr(C)]
#[derive(Clone, Copy)]
pub struct CouncilFraction {
    /// The number above the line.
    pub top: CouncilWide,
    /// The number below the line.
    pub bottom: CouncilWide,
}

/// The numbers of a member.
#[repr(C)]
#[derive(Clone, Copy)]
pub struct CouncilMember {
    /// How many minimal winning coalitions have the member.
    pub coalitions: u64,
    /// How many winning coalitions lose without the member, if you asked for swings.
    pub swings: u64,
    /// The Deegan-Packel index.
    pub deegan_packel: CouncilFraction,
    /// The public good index.
    pub public_good: CouncilFraction,
    /// The Banzhaf index, if you asked for swings, as for the next four.
    pub banzhaf: CouncilFraction,
    /// Penrose's measure, also called the absolute Banzhaf index.
    pub penrose: CouncilFraction,
    /// The Shapley-Shubik index.
    pub shapley_shubik: CouncilFraction,
    /// Coleman's power to prevent action.
    pub prevent: CouncilFraction,
    /// Coleman's power to initiate action.
    pub initiate: CouncilFraction,
    /// Words for later versions, all 0.
    pub reserved: [u64; 6],
}

/// The numbers of a game, or its fault.
#[repr(C)]
#[derive(Clone, Copy)]
pub struct CouncilSummary {
    /// The size of this struct in bytes. Set it before the call.
    pub size: u64,
    /// The size of `CouncilMember` in bytes. Set it before the call.
    pub member_size: u64,
    /// The number of the fault, if the status is 3; else 0.
    pub fault: u64,
    /// The member that the fault is of, from 1; 0 if of none.
    pub member: u64,
    /// The rule that the fault is of, from 1; 0 if of none.
    pub rule: u64,
    /// How many minimal winning coalitions there are.
    pub coalitions: u64,
    /// How many winning coalitions there are, if you asked for swings; else 0.
    pub winning: u64,
    /// How many minimal winning coalitions have each size, from 0 to 40.
    pub of_size: [u64; limits::SIZES],
    /// The total of the weights of each rule.
    pub totals: [u64; limits::RULES],
    /// Coleman's power of the body to act, if you asked for swings.
    pub act: CouncilFraction,
    /// Words for later versions, all 0.
    pub reserved: [u64; 12],
}

/// The sizes of the two structs in bytes.
pub(crate) const SUMMARY_SIZE: u64 = 544;

pub(crate) const MEMBER_SIZE: u64 = 288;

impl CouncilWide {
    /// Returns the words of a number.
    fn of(number: u128) -> CouncilWide
        ensures { result ≡ words_of number }
    {
        CouncilWide {
            high: (number >> 64) as u64,
            low: (number % (1 << 64)) as u64,
        }
    }
}

impl CouncilFraction {
    /// What there is if nobody asked.
    pub(crate) const NONE: CouncilFraction = CouncilFraction {
        top: CouncilWide { high: 0, low: 0 },
        bottom: CouncilWide { high: 0, low: 0 },
    };

    /// Returns the words of a fraction.
    pub(crate) fn of(fraction: Fraction) -> CouncilFraction
        ensures { result ≡ in_words (pair_of fraction) }
    {
        CouncilFraction {
            top: CouncilWide::of(fraction.top),
            bottom: CouncilWide::of(fraction.bottom),
        }
    }
}
