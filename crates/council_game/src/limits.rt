//! The limits of games and of runs, each in one place.
ghost use Rattle.std.specs.Prelude.{◌≡◌, ◌*◌, ◌^◌, ◌+◌};
ghost use Rattle.council_game.specs.declared.limits.TheConstants.{MEMBERS, SIZES, RULES, WAYS, WEIGHT, TOTAL, TITLE_BYTES, NAME_BYTES, FILE_BYTES, BITS, SLICES, WORKERS, COALITIONS, STATES, CAPACITY, PLAIN_MEMBERS};

/// The most members of a game.
pub const MEMBERS: usize = 40;

/// How many sizes a coalition can have: 0 to 40 members.
pub const SIZES: usize = 41;

/// The most rules that a game can have.
pub const RULES: usize = 4;

/// The most ways to win that a game can have: of 4 rules, none with all rules of another one.
pub const WAYS: usize = 6;

/// The greatest weight of a member.
pub const WEIGHT: u64 = 1_000_000_000_000;

/// The greatest total of a rule's weights: that of 40 members of the greatest weight.
pub const TOTAL: u64 = 40_000_000_000_000;

/// The most bytes of a title.
pub const TITLE_BYTES: usize = 200;

/// The most bytes of a member's name.
pub const NAME_BYTES: usize = 64;

/// The most bytes of a game file.
pub const FILE_BYTES: usize = 65_536;

/// The most members that are fixed in each slice.
pub const BITS: u8 = 10;

/// The most slices that a game is cut into: 2^10.
pub const SLICES: usize = 1_024;

/// The most worker threads of a run.
pub const WORKERS: u8 = 16;

/// The most coalitions that a run keeps.
pub const COALITIONS: u32 = 4_000_000;

/// The most states that a count keeps: 2^27.
pub const STATES: u32 = 134_217_728;

/// The most words that a ring can have room for.
pub const CAPACITY: usize = 65_536;

/// The most members of a game whose coalitions are all tried.
pub const PLAIN_MEMBERS: usize = 20;

/// For the prover: the numbers of the limits, which contracts and definitions name.
pub fn are_these_numbers()
    ensures members { MEMBERS ≡ 40 }
    ensures sizes { SIZES ≡ MEMBERS + 1 }
    ensures rules { RULES ≡ 4 }
    ensures ways { WAYS ≡ 6 }
    ensures weight { WEIGHT ≡ 10 ^ 12 }
    ensures total { TOTAL ≡ MEMBERS * WEIGHT }
    ensures title { TITLE_BYTES ≡ 200 }
    ensures name { NAME_BYTES ≡ 64 }
    ensures file { FILE_BYTES ≡ 65536 }
    ensures bits { BITS ≡ 10 }
    ensures slices { SLICES ≡ 2 ^ BITS }
    ensures workers { WORKERS ≡ 16 }
    ensures coalitions { COALITIONS ≡ 4000000 }
    ensures states { STATES ≡ 2 ^ 27 }
    ensures capacity { CAPACITY ≡ 65536 }
    ensures plain { PLAIN_MEMBERS ≡ 20 }
{}
