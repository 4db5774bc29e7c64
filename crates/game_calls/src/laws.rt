//! Laws: what the definitions say of each other, with nothing to run. You call a law, and what it
//! ensures is then known to the proof of your function.
//!
//! ```text
//! game_calls::laws::lowest_terms_add_up();
//! ```
ghost use Rattle.council_game.specs.Coalitions.{has};
ghost use Rattle.council_game.specs.declared.limits.TheConstants.{MEMBERS};
ghost use Rattle.council_game.specs.Game.{GameView, IsGame, AreNonemptyCoalitions, first_weights, has_low_quotas, made_game, total, votes_of};
ghost use Rattle.council_game.specs.Members.{HaveSameMembers, IsSubsetOf, size_of};
ghost use Rattle.council_game.specs.Ranks.{rank_places};
ghost use Rattle.council_game.specs.Renaming.{AreInverse, IsRenaming, exchanged};
ghost use Rattle.council_game.specs.Votes.{RuleView, Votes, IsVotes, minimal_coalitions, wins, rule_at};
ghost use Rattle.game_calls.specs.Quotas.{at_quota};
ghost use Rattle.power_index.specs.Counting.{contains, count_of_member, count_of_member_size, count_of_size, members};
ghost use Rattle.power_index.specs.Fractions.{SameFraction, fraction_cmp, lowest_terms, AddUpToOne};
ghost use Rattle.power_index.specs.Indices.{deegan_packel, public_good};
ghost use Rattle.std.specs.List.Sorted.{IsPermutation};
ghost use Rattle.std.specs.List.{filter, list_any, range_with_len};
ghost use Rattle.std.specs.Ordering.{nat_cmp};
ghost use Rattle.std.specs.Prelude.{◌≡◌, ℕ, ◌<◌, ◌^◌, false, [], length, slice_index, slice_index_or, true, All, ◌+◌, ◌++◌, ◌∷◌, Bool, if◌then◌else◌, ◌↔◌, ◌*◌, ◌≤◌, ◌&&◌, List, map, nat_le, Ok, Option, sum_by};
ghost use Rattle.game_calls.specs.Winning.{IsSubset, HasMinimalSubsets, HasVetoersInAll, HasMinimalSubsetOf, HaveSameWays, IsInAll, IsProper, IsVetoer, by_way, have_high_rules};
ghost use Rattle.power_index.specs.SwingIndices.{banzhaf};
ghost use Rattle.power_index.specs.Swings.{coalitions, is_critical, swings, swings_of_size, winning_coalitions};

use power_index::laws::some_member_has_a_swing;

/// Nobody is in the empty coalition.
#[tactic(auto, using(crate::proofs::Masks::empty))]
pub fn nobody_is_in_the_empty_coalition()
    ensures { (n p : ℕ) → has n p 0 ≡ false }
{}

/// Two coalitions of a game of n members that have the same members are the same.
pub fn same_members_are_one_coalition()
    ensures places { (n a c : ℕ) → a < 2 ^ n → c < 2 ^ n
        → ((p : ℕ) → p < n → has n p a ≡ has n p c) → a ≡ c }
    ensures members { (g : GameView) → IsGame g → (a c : ℕ) → a < 2 ^ length g.names
        → c < 2 ^ length g.names → HaveSameMembers g g a c → a ≡ c }
{}

/// No two members have the same rank place.
#[tactic(auto, using(crate::proofs::Distinct::distinct_places))]
pub fn rank_places_are_distinct()
    ensures { (g : GameView) → IsGame g → (i j : ℕ) → i < length g.names → j < length g.names
        → slice_index g.ranks i ≡ slice_index g.ranks j → i ≡ j }
{}

/// No two members have the same name.
#[tactic(auto, using(crate::proofs::Distinct::distinct_names))]
pub fn names_are_distinct()
    ensures { (g : GameView) → IsGame g → (i j : ℕ) → i < length g.names → j < length g.names
        → slice_index_or g.names i [] ≡ slice_index_or g.names j [] → i ≡ j }
{}

/// A coalition wins if a subset of it wins.
#[tactic(auto, using(crate::proofs::Minimal::larger))]
pub fn larger_coalitions_win()
    ensures votes { (v : Votes) → IsVotes v → (a c : ℕ) → IsSubset v.members a c
        → wins v a ≡ true → wins v c ≡ true }
    ensures members { (g : GameView) → IsGame g → (a c : ℕ) → IsSubsetOf g a c
        → wins (votes_of g) a ≡ true → wins (votes_of g) c ≡ true }
{}

/// Each winning coalition has a subset that is a minimal winning coalition.
#[tactic(auto, using(crate::proofs::Minimal::minimal_ones))]
pub fn winning_coalitions_have_minimal_ones()
    ensures votes { (v : Votes) → IsVotes v → HasMinimalSubsets v }
    ensures members { (g : GameView) → IsGame g → (c : ℕ) → c < 2 ^ length g.names
        → wins (votes_of g) c ≡ true → HasMinimalSubsetOf g c }
{}

/// A member of all minimal winning coalitions is a vetoer.
///
/// No coalition wins without a vetoer.
pub fn members_of_all_are_vetoers()
    ensures votes { (v : Votes) → IsVotes v → HasVetoersInAll v }
    ensures members { (g : GameView) → IsGame g → (i : ℕ) → i < length g.names
        → IsInAll g i ↔ IsVetoer g i }
{}

/// A member has a swing exactly if some minimal winning coalition has it.
///
/// All others are dummies.
#[tactic(auto, using(crate::proofs::Swings::in_some))]
pub fn members_of_some_have_swings()
    ensures { (g : GameView) → IsGame g → (i : ℕ) → i < length g.names
        → (0 < swings g i) ↔ (0 < count_of_member g i (minimal_coalitions (votes_of g))) }
{}

/// A vetoer has a swing in each winning coalition.
#[tactic(auto, using(crate::proofs::Swings::vetoer_swings))]
pub fn vetoers_swing_in_all()
    ensures { (g : GameView) (i : ℕ) → IsVetoer g i → swings g i ≡ length (winning_coalitions g) }
{}

/// A member of at least the weight of another has no fewer swings.
///
/// It has at least that weight under each rule.
#[tactic(auto, using(crate::proofs::Weighing::no_fewer))]
pub fn more_weight_has_no_fewer_swings()
    ensures { (g : GameView) → IsGame g → (i j : ℕ) → i < length g.names → j < length g.names
        → All (λ r. slice_index r.weights j ≤ slice_index r.weights i) g.rules
        → swings g j ≤ swings g i }
{}

/// Under one rule a vetoer leaves the others less than the quota.
///
/// No other member does.
#[tactic(auto, using(crate::proofs::Weighing::by_weight))]
pub fn weights_tell_vetoers()
    ensures { (g : GameView) → IsGame g → length g.rules ≡ 1 → (i : ℕ) → i < length g.names
        → IsVetoer g i ↔ (total (rule_at g.rules 0)
        < (rule_at g.rules 0).quota + slice_index (rule_at g.rules 0).weights i) }
{}

/// A higher quota of the first rule takes no veto away.
pub fn higher_quotas_keep_vetoers()
    ensures { (g : GameView) (i q r : ℕ) → q ≤ r → IsVetoer (at_quota g q) i
        → IsVetoer (at_quota g r) i }
{}

/// No two disjoint coalitions win if each two ways share a high quota.
///
/// That is, a rule whose quota is above half of its total. Such a game is proper (Felsenthal and
/// Machover 1998). A game of one way has such a rule exactly if `Game::has_low_quotas` returns
/// false.
pub fn high_quotas_make_games_proper()
    ensures ways { (g : GameView) → IsGame g → have_high_rules g ≡ true → IsProper g }
    ensures one { (g : GameView) → IsGame g → length g.ways ≡ 1 → has_low_quotas g ≡ false → IsProper g }
{}

/// A coalition wins exactly if it wins under only the rules of some way.
#[tactic(auto, using(crate::proofs::Ways::by_ways))]
pub fn ways_win_alone()
    ensures { (v : Votes) (c : ℕ) → wins v c ≡ list_any (λ way. wins (by_way v way) c) v.ways }
{}

/// Rules in another order change nothing: coalitions of the same members win alike.
///
/// Nor do ways in another order. So sizes, counts and indices are the same (`names_do_not_matter`,
/// `names_change_no_count`).
pub fn order_of_rules_does_not_matter()
    ensures ways { (to : ℕ → ℕ) (g h : GameView) → IsGame g → IsGame h
        → length h.names ≡ length g.names → HaveSameWays to g h → IsRenaming (λ i. i) (λ i. i) g h }
    ensures one { (g h : GameView) → IsGame g → IsGame h → length h.names ≡ length g.names
        → length g.ways ≡ 1 → length h.ways ≡ 1 → IsPermutation g.rules h.rules
        → IsRenaming (λ i. i) (λ i. i) g h }
{}

/// A subset of a coalition has no more members.
#[tactic(auto, using(crate::proofs::Minimal::subset_sizes))]
pub fn subsets_are_no_larger()
    ensures { (g : GameView) → IsGame g → (a c : ℕ) → IsSubsetOf g a c
        → size_of g a ≤ size_of g c }
{}

/// A game has the title, the names, the rules and the ways that it is made of.
///
/// Its rank places are those by the first rule.
#[tactic(auto, using(crate::proofs::Parts::made))]
pub fn made_games_have_their_parts()
    ensures { (title : Option (List ℕ)) (names : List (List ℕ)) (rules : List RuleView)
        (ways : List (List ℕ)) (g : GameView) → made_game title names rules ways ≡ Ok g → g ≡ record {
          title = title;
          names = names;
          rules = rules;
          ways = ways;
          ranks = rank_places (first_weights rules);
        } }
{}

/// Members that are exchanged twice are where they were.
pub fn exchanging_goes_back()
    ensures { (n i j : ℕ) → i < n → j < n → AreInverse n (exchanged i j) (exchanged i j) }
{}

/// The first rule of a game at a quota from 1 to its total is a game.
///
/// No check refuses it.
pub fn quotas_can_be_changed()
    ensures { (g : GameView) → IsGame g → (q : ℕ) → 1 ≤ q → q ≤ total (rule_at g.rules 0)
        → IsGame (at_quota g q) }
{}

/// At most 40 members, and at most 2^40 coalitions, pass a test.
#[tactic(auto, using(crate::proofs::Few::few_pass))]
pub fn few_pass_a_test()
    ensures members { (g : GameView) (test : ℕ → Bool) → IsGame g
        → length (filter test (members g)) ≤ MEMBERS }
    ensures coalitions { (g : GameView) (test : ℕ → Bool) → IsGame g
        → length (filter test (coalitions g)) ≤ 2 ^ MEMBERS }
{}

/// What passes up to n is what passes below n, and then n if it passes.
///
/// This is one step of a loop that keeps the members or places that pass a test.
#[tactic(auto, using(council_game::proofs::Shared::Lists::filter_one_more))]
pub fn filters_take_one_more()
    ensures { (test : ℕ → Bool) (n : ℕ) → filter test (range_with_len 0 (n + 1))
        ≡ filter test (range_with_len 0 n) ++ (if test n then n ∷ [] else []) }
{}

/// What is given up to n is what is given below n, and then that for n.
///
/// This is one step of a loop that pushes something for each member or place.
#[tactic(auto, using(council_game::proofs::Shared::Lists::map_one_more))]
pub fn maps_take_one_more()
    ensures { (f : ℕ → ℕ) (n : ℕ) → map f (range_with_len 0 (n + 1))
        ≡ map f (range_with_len 0 n) ++ f n ∷ [] }
{}

/// Fractions with bottoms above 0 are ordered as their lowest terms are.
///
/// So `Index::compare` orders the indices as they are defined.
#[tactic(auto, using(crate::proofs::Ordered::lowest_terms_ordered))]
pub fn lowest_terms_keep_order()
    ensures { (p q : ℕ × ℕ) → 0 < p.1 → 0 < q.1 →
        fraction_cmp (lowest_terms p) (lowest_terms q) ≡ fraction_cmp p q }
{}

/// Public good indices are ordered as the counts of coalitions with the member.
#[tactic(auto, using(crate::proofs::Ordered::by_counts))]
pub fn counts_order_public_good()
    ensures { (g : GameView) (list : List ℕ) (i j : ℕ) → IsGame g → 0 < length list
        → AreNonemptyCoalitions g list → fraction_cmp (public_good g list i) (public_good g list j)
        ≡ nat_cmp (count_of_member g i list) (count_of_member g j list) }
{}

/// Banzhaf indices are ordered as the swings.
#[tactic(auto, using(crate::proofs::Ordered::by_swings))]
pub fn swings_order_banzhaf()
    ensures { (g : GameView) (i j : ℕ) → IsGame g
        → fraction_cmp (banzhaf g i) (banzhaf g j) ≡ nat_cmp (swings g i) (swings g j) }
{
    some_member_has_a_swing();
}

/// Counts by size add up: those of sizes 0 to k count all of at most k members.
pub fn sizes_add_up()
    ensures all { (g : GameView) (list : List ℕ) (k : ℕ)
        → sum_by (λ s. count_of_size g s list) (range_with_len 0 (k + 1))
        ≡ length (filter (λ c. nat_le (size_of g c) k) list) }
    ensures members { (g : GameView) (list : List ℕ) (i k : ℕ)
        → sum_by (λ s. count_of_member_size g i s list) (range_with_len 0 (k + 1))
        ≡ length (filter (λ c. contains g i c && nat_le (size_of g c) k) list) }
    ensures swings { (g : GameView) (i k : ℕ)
        → sum_by (swings_of_size g i) (range_with_len 0 (k + 1))
        ≡ length (filter (λ c. is_critical g c i && nat_le (size_of g c) k) (coalitions g)) }
{}

/// Fractions have the same lowest terms exactly if they are the same number.
///
/// Their bottoms are above 0.
#[tactic(auto, using(crate::proofs::Ordered::apart))]
pub fn lowest_terms_tell_fractions_apart()
    ensures { (p q : ℕ × ℕ) → 0 < p.1 → 0 < q.1 →
        (lowest_terms p ≡ lowest_terms q) ↔ SameFraction p q }
{}

/// A fraction that is at most another, which is below a third, is below the third.
#[tactic(auto, using(crate::proofs::Ordered::at_most_then_below))]
pub fn fractions_are_ordered()
    ensures { (p q r : ℕ × ℕ) → 0 < p.1 → p.0 * q.1 ≤ q.0 * p.1 → q.0 * r.1 < r.0 * q.1
        → p.0 * r.1 < r.0 * p.1 }
{}

/// The indices of a game's members in lowest terms add up to 1, of each kind.
///
/// This holds over each list of coalitions that are not empty, if there is one in it.
#[tactic(auto, using(crate::proofs::LowestTermsAddUp::sums))]
pub fn lowest_terms_add_up()
    ensures deegan_packel { (g : GameView) (list : List ℕ) → IsGame g → 0 < length list
        → AreNonemptyCoalitions g list → AddUpToOne (map (λ i. lowest_terms (deegan_packel g list i)) (members g)) }
    ensures public_good { (g : GameView) (list : List ℕ) → IsGame g → 0 < length list
        → AreNonemptyCoalitions g list → AddUpToOne (map (λ i. lowest_terms (public_good g list i)) (members g)) }
{}

/// The bottom of each index, before it is in lowest terms, is above 0.
#[tactic(auto, using(crate::proofs::LowestTermsAddUp::bottoms))]
pub fn bottoms_are_positive()
    ensures deegan_packel { (g : GameView) (list : List ℕ) (i : ℕ) → IsGame g → 0 < length list
        → AreNonemptyCoalitions g list → 0 < (deegan_packel g list i).1 }
    ensures public_good { (g : GameView) (list : List ℕ) (i : ℕ) → IsGame g → 0 < length list
        → AreNonemptyCoalitions g list → 0 < (public_good g list i).1 }
{}
