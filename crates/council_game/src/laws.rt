//! Laws of games: what the definitions say, with nothing to run.
ghost use Rattle.std.specs.Prelude.{◌≡◌, ◌<◌, ◌^◌, ◌↔◌, ℕ, Contains, length, true};
ghost use Rattle.council_game.specs.Game.{GameView, IsGame};
ghost use Rattle.council_game.specs.Votes.{Votes, IsVotes, minimal, minimal_coalitions};
ghost use Rattle.council_game.specs.Laws.{WeighsItsMembers, NeedsEachMember, NeedsEachMemberOf, ProperSubsetsLose, ProperSubsetsOfLose, IsListing};
ghost use Rattle.council_game.specs.Ranks.{RanksAre};
ghost use Rattle.council_game.specs.Renaming.{AreAlike, AreInverse, AreSymmetric, HaveEqualWeights, HaveRenamedRules, IsRenaming};
ghost use Rattle.council_game.specs.Laws.{HasEachSet, IsSameByMembers};

/// A coalition weighs what its members weigh together.
#[tactic(auto, using(crate::proofs::Searches::for_laws))]
pub fn coalitions_weigh_their_members()
    ensures { WeighsItsMembers }
{}

/// A coalition is minimal exactly if it wins, and loses without any member.
#[tactic(auto, using(crate::proofs::Searches::for_laws))]
pub fn minimal_coalitions_need_each_member()
    ensures votes { (v : Votes) → NeedsEachMember v }
    ensures members { (g : GameView) → IsGame g → NeedsEachMemberOf g }
{}

/// No proper subset of a minimal coalition wins.
#[tactic(auto, using(crate::proofs::Searches::for_laws))]
pub fn proper_subsets_lose()
    ensures votes { (v : Votes) → IsVotes v → ProperSubsetsLose v }
    ensures members { (g : GameView) → IsGame g → ProperSubsetsOfLose g }
{}

/// There is a minimal coalition; their list descends, each once, and none is empty.
#[tactic(auto, using(crate::proofs::Searches::for_laws))]
pub fn minimal_coalitions_are_listed()
    ensures { (v : Votes) → IsVotes v → IsListing v }
{}

/// A coalition is in the list exactly if it is a coalition of the game and minimal.
pub fn minimal_coalitions_are_those_listed()
    ensures { (v : Votes) (c : ℕ) → Contains (minimal_coalitions v) c
        ↔ ((c < 2 ^ v.members) × (minimal v c ≡ true)) }
{}

/// Each member has its rank place, and each place its member.
#[tactic(auto, using(crate::proofs::Searches::for_laws))]
pub fn members_have_places()
    ensures { (g : GameView) → IsGame g → RanksAre (length g.names) g.ranks }
{}

/// A coalition is a set of members: each set of members is that of one coalition.
#[tactic(auto, using(crate::proofs::Searches::for_sets))]
pub fn coalitions_are_sets()
    ensures { (g : GameView) → IsGame g → HasEachSet g }
{}

/// Which places the members have changes nothing.
///
/// In two games of the same members and rules, coalitions of the same members win alike and are
/// minimal alike, and as many minimal winning coalitions pass any test of their members.
#[tactic(auto, using(crate::proofs::Searches::for_sets))]
pub fn places_do_not_matter()
    ensures { (g h : GameView) → IsGame g → IsGame h → h.names ≡ g.names → h.rules ≡ g.rules
        → h.ways ≡ g.ways → IsSameByMembers g h }
{}

/// Games whose members have the same weights under new names are renamings.
///
/// Each rule has the same quota in both games, and gives each member, renamed, the same weight.
#[tactic(auto, using(crate::proofs::Searches::for_renaming))]
pub fn renamed_rules_win_alike()
    ensures { (to from : ℕ → ℕ) (g h : GameView) → IsGame g → IsGame h → length h.names ≡ length g.names
        → AreInverse (length g.names) to from → HaveRenamedRules to g h → h.ways ≡ g.ways → IsRenaming to from g h }
{}

/// Which names the members have changes nothing.
///
/// Coalitions of renamed members are as large, win alike and are minimal alike, and as many minimal
/// winning coalitions pass any test of their members.
#[tactic(auto, using(crate::proofs::Searches::for_renaming))]
pub fn names_do_not_matter()
    ensures { (to from : ℕ → ℕ) (g h : GameView) → IsGame g → IsGame h → IsRenaming to from g h
        → AreAlike to g h }
{}

/// Members of the same weight under each rule are symmetric.
#[tactic(auto, using(crate::proofs::Searches::for_renaming))]
pub fn members_of_equal_weight_are_symmetric()
    ensures { (g : GameView) → IsGame g → (i j : ℕ) → i < length g.names → j < length g.names
        → HaveEqualWeights g i j → AreSymmetric g i j }
{}
