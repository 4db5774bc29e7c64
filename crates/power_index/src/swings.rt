//! The swings of the members of a game.
ghost use Rattle.council_game.specs.declared.limits.TheConstants.{MEMBERS};
ghost use Rattle.council_game.specs.Game.{GameView, IsGame};
ghost use Rattle.std.specs.Prelude.{◌≡◌, ◌*◌, ◌<◌, ◌≤◌, ◌^◌, length};
ghost use Rattle.power_index.specs.Counting.{count_of_member, count_of_member_size, count_of_size};
ghost use Rattle.power_index.specs.Swings.{AreOfSomeGame, AreWinningCounts, all_swings, swings, swings_of_size, winning_coalitions};

use crate::Counts;
use council_game::Game;
use std::marker::Model;

/// The swings of the members of a game.
///
/// Contracts see the counts of the winning coalitions, and say the swings of each game that has
/// these. Members are given by their places in the file.
#[derive(Drop)]
pub struct Swings {
    winning: Box<Counts>,
}

impl Model for Swings {
    ghost use Rattle.power_index.specs.Tables.{Tables};
    ghost use Rattle.power_index.specs.Swings.{AreOfSomeGame};

    ghost Value = { Tables };

    ghost view = { λ s. s.winning.value };

    ghost invariant = { λ s. AreOfSomeGame s.winning.value };
}

impl Swings {
    /// Returns the swings of a game, from the counts of its winning coalitions.
    pub fn of(game: &Game, winning: Box<Counts>) -> Swings
        requires { AreWinningCounts game.now winning.value }
        ensures { AreWinningCounts game.now result }
    {
        game.was_checked();
        Swings { winning }
    }

    /// Returns the counts of the winning coalitions.
    fn counts(&self) -> &Counts
        ensures same { result.now ≡ self.now }
        ensures kept { AreOfSomeGame self.now }
    {
        &self.winning
    }

    /// Returns the number of members, 1 to 40.
    ///
    /// Its contract also says that the swings are those of some game.
    pub fn members(&self) -> usize
        ensures members { result ≡ self.now.members }
        ensures some { 1 ≤ result }
        ensures few { result ≤ MEMBERS }
        ensures kept { AreOfSomeGame self.now }
    {
        self.counts().members()
    }

    /// Returns the number of winning coalitions, at most 2^40.
    pub fn winning(&self) -> u64
        ensures winning { (g : GameView) → AreWinningCounts g self.now
            → result ≡ length (winning_coalitions g) }
        ensures few { result ≤ 2 ^ MEMBERS }
    {
        self.counts().wide_total()
    }

    /// Returns the number of winning coalitions of a size.
    pub fn winning_of_size(&self, size: usize) -> u64
        requires { size ≤ self.now.members }
        ensures { (g : GameView) → AreWinningCounts g self.now
            → result ≡ count_of_size g size (winning_coalitions g) }
    {
        self.counts().wide_of_size(size)
    }

    /// Returns the number of winning coalitions that have a member.
    pub fn winning_with(&self, member: usize) -> u64
        requires { member < self.now.members }
        ensures { (g : GameView) → AreWinningCounts g self.now
            → result ≡ count_of_member g member (winning_coalitions g) }
    {
        self.counts().wide_of_member(member)
    }

    /// Returns the number of winning coalitions of a size that have a member.
    pub fn winning_with_of_size(&self, member: usize, size: usize) -> u64
        requires member { member < self.now.members }
        requires size { size ≤ self.now.members }
        ensures { (g : GameView) → AreWinningCounts g self.now
            → result ≡ count_of_member_size g member size (winning_coalitions g) }
    {
        self.counts().wide_of_member_size(member, size)
    }

    /// Returns how many swings a member has.
    ///
    /// A winning coalition with the member is a swing, or wins without it too.
    pub fn of_member(&self, member: usize) -> u64
        requires { member < self.now.members }
        ensures swings { (g : GameView) → IsGame g → AreWinningCounts g self.now
            → result ≡ swings g member }
        ensures few { result ≤ 2 ^ MEMBERS }
        ensures kept { AreOfSomeGame self.now }
    {
        let winning = self.counts();
        let with_member = winning.wide_of_member(member);
        with_member - (winning.wide_total() - with_member)
    }

    /// Returns how many swings of a size a member has, the member counted.
    pub fn of_member_size(&self, member: usize, size: usize) -> u64
        requires member { member < self.now.members }
        requires size { size ≤ self.now.members }
        ensures swings { (g : GameView) → IsGame g → AreWinningCounts g self.now
            → result ≡ swings_of_size g member size }
        ensures few { result ≤ 2 ^ MEMBERS }
    {
        if size == 0 {
            return 0;
        }
        let winning = self.counts();
        let smaller = size - 1;
        let without_member = winning.wide_of_size(smaller)
            - winning.wide_of_member_size(member, smaller);
        winning.wide_of_member_size(member, size) - without_member
    }

    /// Returns how many swings all members have together.
    pub fn all(&self) -> u64
        ensures swings { (g : GameView) → IsGame g → AreWinningCounts g self.now
            → result ≡ all_swings g }
        ensures few { result ≤ MEMBERS * 2 ^ MEMBERS }
    {
        let mut sum = 0;
        for member in 0..self.members() {
            sum += self.of_member(member);
        }
        sum
    }
}
