//! Counts of coalitions, by member and by size.
ghost use Rattle.council_game.specs.declared.limits.TheConstants.{MEMBERS};
ghost use Rattle.council_game.specs.Game.{GameView, AreNonemptyCoalitions};
ghost use Rattle.council_game.specs.Votes.{has};
ghost use Rattle.power_index.specs.Tables.{AreCounts, AreOfOneGame, AreSizeCounts, AreSound, AreTallies};
ghost use Rattle.power_index.specs.Tables.{table_memberships, table_of_member};
ghost use Rattle.power_index.specs.Tables.{table_of_member_size, table_of_size, table_total, total_of_sizes};
ghost use Rattle.power_index.specs.Inner.Tables.{AreAdded, with_one};
ghost use Rattle.std.specs.Prelude.{◌≡◌, ℕ, ◌+◌, ◌-◌, ◌*◌, ◌<◌, ◌≤◌, ◌^◌, if◌then◌else◌, List, [], ◌∷◌, ◌++◌, length, slice_index, slice_index_or, All, min, true};

use council_game::{Coalition, Game, limits};
use std::marker::Model;

/// How many coalitions there are of each size, from 0 to 40 members.
pub type SizeCounts = [u64; limits::SIZES];

/// The counts of a list of nonempty coalitions of a game.
///
/// They say how many coalitions there are, how many have each size, how many contain each member,
/// and how many of those have each size. Coalitions are counted one by one, and the counts of two
/// lists can be added.
///
/// The numbers have 64 bits. A game of 40 members has at most 2^40 coalitions, so no number
/// overflows as long as each coalition is counted once. The plain readers return 32 bits, enough
/// for the list of any run, which has at most 4,000,000 coalitions; the wide ones return 64.
/// Contracts see the tables.
#[derive(Drop)]
pub struct Counts {
    members: usize,
    /// The rank place of each member, in file order.
    ranks: [usize; limits::MEMBERS],
    /// How many coalitions there are.
    all: SizeCounts,
    /// How many contain each member, by rank place.
    each: [SizeCounts; limits::MEMBERS],
}

impl Model for Counts {
    ghost use Rattle.power_index.specs.Tables.{Tables};
    ghost use Rattle.power_index.specs.Inner.Tables.{AreKept};

    ghost Value = { Tables };

    ghost view = { λ c. record {
      members = c.members;
      ranks = c.ranks;
      all = c.all;
      each = c.each;
    } };

    ghost invariant = { λ c. AreKept (record {
      members = c.members;
      ranks = c.ranks;
      all = c.all;
      each = c.each;
    }) };
}

/// Counts a coalition at each place that is in it, one step for each 1 of its mask.
fn add_to_places(
    members: usize,
    coalition: Coalition,
    size: usize,
    by_place: &mut [SizeCounts; limits::MEMBERS],
)
    requires few { members ≤ MEMBERS }
    requires below { coalition < 2 ^ members }
    requires size { size ≤ MEMBERS }
    requires room { (p : ℕ) → p < members →
        slice_index (slice_index_or by_place.old p []) size ≤ 2 ^ MEMBERS }
    ensures { (p : ℕ) → p < members → slice_index_or by_place.new p [] ≡
        if has members p coalition
        then with_one (slice_index_or by_place.old p []) size
        else slice_index_or by_place.old p [] }
{
    let mut rest = coalition.mask();
    while rest != 0 {
        let place = members - 1 - rest.trailing_zeros() as usize;
        by_place[place][size] += 1;
        rest &= rest - 1;
    }
}

/// Adds `more` to `sum`, size by size.
fn add_counts(sum: &mut SizeCounts, more: &SizeCounts)
    requires { (s : ℕ) → s ≤ MEMBERS → slice_index sum.old s + slice_index more.now s < 2 ^ 64 }
    ensures { AreAdded sum.old more.now sum.new }
{
    for size in 0..limits::SIZES {
        sum[size] += more[size];
    }
}

/// Adds the counts of other coalitions, place by place.
fn join_places(
    members: usize,
    by_place: &mut [SizeCounts; limits::MEMBERS],
    other: &[SizeCounts; limits::MEMBERS],
)
    requires few { members ≤ MEMBERS }
    requires room { (p s : ℕ) → p < members → s ≤ MEMBERS →
        slice_index (slice_index_or by_place.old p []) s +
        slice_index (slice_index_or other.now p []) s < 2 ^ 64 }
    ensures { (p : ℕ) → p < members →
        AreAdded (slice_index_or by_place.old p []) (slice_index_or other.now p [])
        (slice_index_or by_place.new p []) }
{
    for place in 0..members {
        add_counts(&mut by_place[place], &other[place]);
    }
}

/// Adds up the coalitions of the sizes from 0 to the number of members.
#[tactic(auto, using(crate::proofs::Sizes::one_more))]
fn total(sizes: &SizeCounts, members: usize) -> u64
    requires members { members ≤ MEMBERS }
    requires room { total_of_sizes members sizes.now ≤ 2 ^ MEMBERS }
    ensures { result ≡ total_of_sizes members sizes.now }
{
    let mut total = 0;
    for size in 0..members + 1 {
        total += sizes[size];
    }
    total
}

/// Returns a number in 32 bits, or the greatest of these.
fn narrow(number: u64) -> u32
    ensures { result ≡ min number (2 ^ 32 - 1) }
{
    number.min(u64::from(u32::MAX)) as u32
}

impl Counts {
    /// Returns the counts of no coalition of a game.
    pub fn none(game: &Game) -> Counts
        ensures tallies { AreTallies game.now [] result }
        ensures counts { AreCounts game.now [] result }
    {
        let members = game.members();
        let mut ranks = [0; limits::MEMBERS];
        for i in 0..members {
            ranks[i] = game.place_of(i);
        }
        Counts {
            members,
            ranks,
            all: [0; limits::SIZES],
            each: [[0; limits::SIZES]; limits::MEMBERS],
        }
    }

    /// Returns the counts of a list of nonempty coalitions that were counted elsewhere.
    ///
    /// `all` has the number of each size, and `each`, by rank place, the numbers of those that
    /// contain it.
    pub fn of_sizes(game: &Game, all: SizeCounts, each: [SizeCounts; limits::MEMBERS]) -> Counts
        ghost list: { List ℕ }
        requires few { length list ≤ 2 ^ MEMBERS }
        requires coalitions { AreNonemptyCoalitions game.now list }
        requires all { AreSizeCounts (length game.now.names) (λ _. true) list all }
        requires each { (p : ℕ) → p < length game.now.names →
            AreSizeCounts (length game.now.names) (has (length game.now.names) p) list
            (slice_index_or each p []) }
        ensures tallies { AreTallies game.now list result }
        ensures counts { AreCounts game.now list result }
    {
        let mut counts = Counts::none(game);
        counts.all = all;
        counts.each = each;
        counts
    }

    /// Counts one more coalition: the list gets it at its end.
    pub fn count(&mut self, coalition: Coalition)
        requires some { 0 < coalition }
        requires below { coalition < 2 ^ self.old.members }
        requires room { table_total self.old < 2 ^ MEMBERS }
        ensures game { AreOfOneGame self.old self.new }
        ensures total { table_total self.new ≡ table_total self.old + 1 }
        ensures tallies { (g : GameView) (list : List ℕ) → AreTallies g list self.old →
            AreTallies g (list ++ coalition ∷ []) self.new }
    {
        let size = usize::from(coalition.size());
        self.all[size] += 1;
        add_to_places(self.members, coalition, size, &mut self.each);
    }

    /// Counts the coalitions of a slice as well, at the end of the list.
    pub fn count_row(&mut self, row: &[Coalition])
        requires coalitions { All (λ c. (0 < c) × (c < 2 ^ self.old.members)) row.now }
        requires room { table_total self.old + length row.now ≤ 2 ^ MEMBERS }
        ensures game { AreOfOneGame self.old self.new }
        ensures total { table_total self.new ≡ table_total self.old + length row.now }
        ensures tallies { (g : GameView) (list : List ℕ) → AreTallies g list self.old →
            AreTallies g (list ++ row.now) self.new }
    {
        for coalition in row {
            self.count(*coalition);
        }
    }

    /// Adds the counts of another list of coalitions of the same game.
    ///
    /// The result counts both lists, one after the other.
    pub fn add(&mut self, other: &Counts)
        requires game { AreOfOneGame self.old other.now }
        requires room { table_total self.old + table_total other.now ≤ 2 ^ MEMBERS }
        ensures game { AreOfOneGame self.old self.new }
        ensures total { table_total self.new ≡ table_total self.old + table_total other.now }
        ensures tallies { (g : GameView) (first second : List ℕ) → AreTallies g first self.old →
            AreTallies g second other.now → AreTallies g (first ++ second) self.new }
    {
        add_counts(&mut self.all, &other.all);
        join_places(self.members, &mut self.each, &other.each);
    }

    /// Counts a list of nonempty coalitions in one pass.
    pub fn of(game: &Game, list: &[Coalition]) -> Counts
        requires few { length list.now ≤ 2 ^ MEMBERS }
        requires coalitions { AreNonemptyCoalitions game.now list.now }
        ensures tallies { AreTallies game.now list.now result }
        ensures counts { AreCounts game.now list.now result }
    {
        let mut counts = Counts::none(game);
        counts.count_row(list);
        counts
    }

    /// Returns the number of members of the game, 1 to 40.
    ///
    /// Its contract also says what all counts keep: there are at most 2^40 coalitions, no count
    /// exceeds that of all, and the fractions of each member add up to at most 1.
    pub fn members(&self) -> usize
        ensures members { result ≡ self.now.members }
        ensures some { 1 ≤ result }
        ensures few { result ≤ MEMBERS }
        ensures sound { AreSound self.now }
    {
        self.members
    }

    /// Returns the number of coalitions, at most 2^40.
    pub fn wide_total(&self) -> u64
        ensures total { result ≡ table_total self.now }
        ensures few { result ≤ 2 ^ MEMBERS }
    {
        total(&self.all, self.members)
    }

    /// Returns the number of coalitions of a size.
    pub fn wide_of_size(&self, size: usize) -> u64
        requires { size ≤ self.now.members }
        ensures count { result ≡ table_of_size self.now size }
        ensures few { result ≤ table_total self.now }
    {
        let all = &self.all;
        all[size]
    }

    /// Returns the number of coalitions that contain a member.
    ///
    /// The member is given by its place in the file.
    pub fn wide_of_member(&self, member: usize) -> u64
        requires { member < self.now.members }
        ensures count { result ≡ table_of_member self.now member }
        ensures few { result ≤ table_total self.now }
    {
        let each = &self.each;
        total(&each[self.ranks[member]], self.members)
    }

    /// Returns the number of coalitions of a size that contain a member.
    pub fn wide_of_member_size(&self, member: usize, size: usize) -> u64
        requires member { member < self.now.members }
        requires size { size ≤ self.now.members }
        ensures count { result ≡ table_of_member_size self.now member size }
        ensures few { result ≤ table_total self.now }
    {
        let each = &self.each;
        each[self.ranks[member]][size]
    }

    /// Returns the number of coalitions, or 2^32 - 1 if there are more.
    pub fn total(&self) -> u32
        ensures { result ≡ min (table_total self.now) (2 ^ 32 - 1) }
    {
        narrow(self.wide_total())
    }

    /// Returns `wide_of_size`, or the greatest number of 32 bits if it is greater.
    pub fn of_size(&self, size: usize) -> u32
        requires { size ≤ self.now.members }
        ensures count { table_total self.now < 2 ^ 32 → result ≡ table_of_size self.now size }
        ensures most { result ≡ min (table_of_size self.now size) (2 ^ 32 - 1) }
        ensures within { result ≤ table_total self.now }
    {
        narrow(self.wide_of_size(size))
    }

    /// Returns `wide_of_member`, or the greatest number of 32 bits if it is greater.
    pub fn of_member(&self, member: usize) -> u32
        requires { member < self.now.members }
        ensures count { table_total self.now < 2 ^ 32 → result ≡ table_of_member self.now member }
        ensures most { result ≡ min (table_of_member self.now member) (2 ^ 32 - 1) }
        ensures within { result ≤ table_total self.now }
    {
        narrow(self.wide_of_member(member))
    }

    /// Returns `wide_of_member_size`, or 2^32 - 1 if that is less.
    pub fn of_member_size(&self, member: usize, size: usize) -> u32
        requires member { member < self.now.members }
        requires size { size ≤ self.now.members }
        ensures count { table_total self.now < 2 ^ 32 →
            result ≡ table_of_member_size self.now member size }
        ensures most { result ≡ min (table_of_member_size self.now member size) (2 ^ 32 - 1) }
        ensures within { result ≤ table_total self.now }
    {
        narrow(self.wide_of_member_size(member, size))
    }

    /// Adds up the numbers of all members.
    #[tactic(auto, using(crate::proofs::Sizes::one_more))]
    pub(crate) fn memberships(&self) -> u64
        ensures sum { result ≡ table_memberships self.now }
        ensures some { table_total self.now ≤ result }
        ensures few { result ≤ MEMBERS * 2 ^ MEMBERS }
    {
        let mut sum = 0;
        for i in 0..self.members {
            sum += self.wide_of_member(i);
        }
        sum
    }
}
