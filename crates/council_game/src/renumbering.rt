//! Coalitions of the same members in two games.
ghost use Rattle.std.specs.Prelude.{◌≡◌, ◌<◌, ◌^◌, length};
ghost use Rattle.council_game.specs.Game.{votes_of};
ghost use Rattle.council_game.specs.Members.{HaveSameMembers};
ghost use Rattle.council_game.specs.Votes.{minimal_coalitions};

use crate::{Coalition, Game};

impl Game {
    /// Turns the list of this game's coalitions into that of another game.
    ///
    /// The other game has the same members and rules, and other rank places. Both lists are those
    /// of the minimal winning coalitions, in listing order.
    pub fn renumber_all(&self, list: &mut [Coalition], other: &Game)
        requires names { other.now.names ≡ self.now.names }
        requires rules { other.now.rules ≡ self.now.rules }
        requires ways { other.now.ways ≡ self.now.ways }
        requires all { list.old ≡ minimal_coalitions (votes_of self.now) }
        ensures { list.new ≡ minimal_coalitions (votes_of other.now) }
    {
        self.was_checked();
        other.was_checked();
        for place in 0..list.len() {
            list[place] = self.renumber(list[place], other);
        }
        list.sort_unstable_by_key(|coalition| u64::MAX - coalition.mask());
    }

    /// Returns the coalition of another game with the same members.
    ///
    /// The other game has as many members, and may have them at other rank places.
    pub fn renumber(&self, coalition: Coalition, other: &Game) -> Coalition
        requires members { length other.now.names ≡ length self.now.names }
        requires below { coalition < 2 ^ length self.now.names }
        ensures same { HaveSameMembers self.now other.now coalition result }
        ensures below { result < 2 ^ length self.now.names }
    {
        let members = self.members();
        let mut result = Coalition::none();
        for place in 0..members {
            if coalition.has(members, place) {
                result = other.with_member(result, self.member_at(place));
            }
        }
        result
    }
}
