//! Laws of the definitions, with nothing to run: each index adds up to 1, what lowest terms are,
//! which indices are equal, and that names and places change no count and no swing.
ghost use Rattle.council_game.specs.declared.limits.TheConstants.{MEMBERS};
ghost use Rattle.council_game.specs.Game.{GameView, IsGame, votes_of, AreNonemptyCoalitions};
ghost use Rattle.council_game.specs.Renaming.{AreSymmetric, IsRenaming};
ghost use Rattle.council_game.specs.Votes.{minimal_coalitions};
ghost use Rattle.power_index.specs.Counting.{members};
ghost use Rattle.power_index.specs.Fractions.{AddUpToOne, HasLowestTerms, IsIndex, SameFraction};
ghost use Rattle.power_index.specs.Indices.{deegan_packel, public_good};
ghost use Rattle.power_index.specs.MemberIndices.{indices_of_member};
ghost use Rattle.power_index.specs.Renaming.{HaveRenamedCounts, HaveRenamedSwings};
ghost use Rattle.power_index.specs.SwingIndices.{shapley_shubik, swing_indices};
ghost use Rattle.power_index.specs.Swings.{AreWinningCounts, all_swings, swings, swings_of_size, winning_coalitions};
ghost use Rattle.power_index.specs.Tables.{AreCounts, AreCountsOfGame, AreTallies, Tables};
ghost use Rattle.std.specs.Prelude.{◌≡◌, ◌<◌, ◌≤◌, ◌+◌, ◌^◌, ℕ, List, length, map, sum_by};

/// The Deegan-Packel indices of all members add up to 1.
///
/// This holds over any list of nonempty coalitions that is not itself empty.
#[tactic(auto, using(crate::proofs::Shared::AddUp::deegan_packel_adds_up))]
pub fn deegan_packel_adds_up()
    ensures { (g : GameView) (list : List ℕ) → IsGame g → 0 < length list
        → AreNonemptyCoalitions g list → AddUpToOne (map (deegan_packel g list) (members g)) }
{}

/// The public good indices of all members add up to 1.
///
/// This holds over any list of nonempty coalitions that is not itself empty.
#[tactic(auto, using(crate::proofs::Shared::AddUp::public_good_adds_up))]
pub fn public_good_adds_up()
    ensures { (g : GameView) (list : List ℕ) → IsGame g
        → 0 < length list → AreNonemptyCoalitions g list
        → AddUpToOne (map (public_good g list) (members g)) }
{}

/// There are 1 to 2^40 minimal winning coalitions, and none is empty.
#[tactic(auto, using(crate::proofs::Shared::Minimal::can_be_counted))]
pub fn minimal_coalitions_can_be_counted()
    ensures few { (g : GameView) → IsGame g → length (minimal_coalitions (votes_of g)) ≤ 2 ^ MEMBERS }
    ensures some { (g : GameView) → IsGame g → 0 < length (minimal_coalitions (votes_of g)) }
    ensures coalitions { (g : GameView) → IsGame g →
        AreNonemptyCoalitions g (minimal_coalitions (votes_of g)) }
{}

/// A pair with a bottom above 0 has one form in lowest terms.
///
/// It is the one that is computed.
#[tactic(auto, using(crate::proofs::Shared::LowestTerms::has_lowest_terms))]
pub fn lowest_terms_are_unique()
    ensures { (p : ℕ × ℕ) → 0 < p.1 → HasLowestTerms p }
{}

/// Tables counted by rank place hold the counts of their list.
pub fn tallies_are_counts()
    ensures { (g : GameView) (list : List ℕ) (t : Tables) →
        AreTallies g list t → AreCounts g list t }
{}

/// Which places the members have changes no count and no index.
///
/// The counts of a game are those of each game of the same members and rules.
pub fn places_change_no_count()
    ensures { (g h : GameView) (t : Tables) → IsGame g → IsGame h → h.names ≡ g.names → h.rules ≡ g.rules → h.ways ≡ g.ways
        → AreCountsOfGame h t → AreCountsOfGame g t }
{}

/// Which names the members have changes no count and no index.
///
/// If the members of a game, renamed, are those of another one, each has the counts and the indices
/// of the member of its new name.
pub fn names_change_no_count()
    ensures { (to from : ℕ → ℕ) (g h : GameView) → IsGame g → IsGame h → IsRenaming to from g h
        → HaveRenamedCounts to g h }
{}

/// Symmetric members have equal indices.
pub fn symmetric_members_have_equal_indices()
    ensures { (g : GameView) (i j : ℕ) → IsGame g → i < length g.names → j < length g.names
        → AreSymmetric g i j → indices_of_member g (minimal_coalitions (votes_of g)) i
        ≡ indices_of_member g (minimal_coalitions (votes_of g)) j }
{}

/// Two indices that are the same number have equal pairs.
#[tactic(auto, using(crate::proofs::Unique::index_unique))]
pub fn same_indices_are_equal()
    ensures { (p q : ℕ × ℕ) → IsIndex p → IsIndex q → SameFraction p q → p ≡ q }
{}

/// Some member has a swing.
pub fn some_member_has_a_swing()
    ensures { (g : GameView) → IsGame g → 0 < all_swings g }
{}

/// A member has no more swings than there are winning coalitions, or losing ones.
pub fn swings_are_winning_and_leave_losing_coalitions()
    ensures winning { (g : GameView) (i : ℕ) → IsGame g → i < length g.names
        → swings g i ≤ length (winning_coalitions g) }
    ensures losing { (g : GameView) (i : ℕ) → IsGame g → i < length g.names
        → swings g i + length (winning_coalitions g) ≤ 2 ^ length g.names }
{}

/// The Shapley-Shubik indices of all members add up to 1.
///
/// All have the bottom n!, and their tops add up to it.
pub fn shapley_shubik_adds_up()
    ensures { (g : GameView) (i : ℕ) → IsGame g
        → sum_by (λ j. (shapley_shubik g j).0) (members g) ≡ (shapley_shubik g i).1 }
{}

/// Which places the members have changes no swing.
///
/// The counts of the winning coalitions of a game are those of each game of the same members and
/// rules.
pub fn places_change_no_swing()
    ensures { (g h : GameView) (t : Tables) → IsGame g → IsGame h → h.names ≡ g.names → h.rules ≡ g.rules → h.ways ≡ g.ways
        → AreWinningCounts h t → AreWinningCounts g t }
{}

/// Which names the members have changes no swing.
///
/// If the members of a game, renamed, are those of another one, each has the swings, by size too,
/// and the indices of the member of its new name.
pub fn names_change_no_swing()
    ensures { (to from : ℕ → ℕ) (g h : GameView) → IsGame g → IsGame h → IsRenaming to from g h
        → HaveRenamedSwings to g h }
{}

/// Symmetric members have equal swings, by size too, and equal indices.
///
/// Members of the same weight under each rule are symmetric
/// (`council_game::laws::members_of_equal_weight_are_symmetric`).
#[tactic(auto, using(crate::proofs::SwingPlaces::symmetric))]
pub fn symmetric_members_have_equal_swings()
    ensures sizes { (g : GameView) (i j : ℕ) → IsGame g → i < length g.names → j < length g.names
        → AreSymmetric g i j → (s : ℕ) → swings_of_size g i s ≡ swings_of_size g j s }
    ensures indices { (g : GameView) (i j : ℕ) → IsGame g → i < length g.names → j < length g.names
        → AreSymmetric g i j → swing_indices g i ≡ swing_indices g j }
{}
