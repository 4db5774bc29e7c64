//! Laws of reading: what the definitions say, with nothing to run.
ghost use Rattle.council_game.specs.Game.{GameView, IsGame};
ghost use Rattle.council_file.specs.File.{game_of};
ghost use Rattle.council_file.specs.Laws.{NotationReadsBack};
ghost use Rattle.council_file.specs.Reads.{Gave};
ghost use Rattle.std.specs.Prelude.{◌≡◌, ℕ, List, Option, Some};

/// The notation of a rule reads back as the game of only that rule.
///
/// The game has no title, and its members are named 1, 2, .. So one program can write a game, and
/// another read it:
///
/// ```text
/// let mut text = Vec::new(alloc);
/// write_notation(&game, 0, &mut text)?;
/// let same = parse_game(alloc, &text)?;
/// notation_reads_back();
/// ```
#[tactic(auto, using(crate::proofs::ReadsBack::reads_back))]
pub fn notation_reads_back()
    ensures { (g : GameView) → IsGame g → NotationReadsBack g }
{}

/// If a reader's bytes are known, the game of what it gave is that of all.
///
/// So is the first fault: `game_of` is the game that bytes hold, or the first fault that they have,
/// and `Gave` says which bytes a reader gave, and which it has after that.
///
/// A reader of no more bytes than the limit gives them all, and one of more gives enough to show
/// that the file is too long:
///
/// ```text
/// let mut reader = bytes.as_slice();
/// let game = read_game(alloc, &mut reader);
/// known_bytes_give_their_game();
/// ```
#[tactic(auto, using(crate::proofs::Given::known_bytes))]
pub fn known_bytes_give_their_game()
    ensures { (all bytes : List ℕ) (after : Option (List ℕ)) → Gave (Some all) after bytes →
        game_of bytes ≡ game_of all }
{}
