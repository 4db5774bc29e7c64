//! Laws of runs: free at run time, each is the contract of its function.
ghost use Rattle.std.specs.Prelude.{◌≡◌, ℕ, List, Ok, Option, Some};
ghost use Rattle.council_game.specs.Game.{GameView};
ghost use Rattle.council_file.specs.Reads.{Reads};
ghost use Rattle.council_report.specs.Outcome.{Writes};
ghost use Rattle.council_run.specs.Run.{IsOutcome};

use council_file::laws::known_bytes_give_their_game;
use council_game::{Sink, Source};

/// States that workers change no report, nor do bits, schedules, limits and gates.
///
/// If two runs over the same known bytes, with reports of one kind, both succeed, then they wrote
/// the same text. So do tallies. After a run the reader r is r2, and the writer v is v2; after the
/// other s is s2, and w is w2. `text` is the report that both are asked for, as a text of the game;
/// `most` and `limit` are how many coalitions there may be, and `n` and `m` how many bytes each run
/// wrote.
///
/// After these two runs `text` and `copy` hold the same bytes, if `options` and `others` agree in
/// the lines of the report that they ask for:
///
/// ```text
/// let (mut first, mut second) = (bytes.as_slice(), bytes.as_slice());
/// run(rt, alloc, &mut first, &options, &NoGate, &mut text)?;
/// run(rt, alloc, &mut second, &others, &gate, &mut copy)?;
/// workers_change_no_report();
/// ```
pub fn workers_change_no_report<R: Source, S: Source, V: Sink, W: Sink>()
    ensures { (text : GameView → List ℕ) (bytes : List ℕ) (most limit : Option ℕ)
        (r r2 : R) (s s2 : S) (v v2 : V) (w w2 : W) (n m : ℕ)
        → R.left r ≡ Some bytes → S.left s ≡ Some bytes
        → IsOutcome text most (Reads R.left R.is_read r r2)
        (λ text. Writes V.held V.is_write V.is_flush text v v2) (v2 ≡ v) (Ok n)
        → IsOutcome text limit (Reads S.left S.is_read s s2)
        (λ text. Writes W.held W.is_write W.is_flush text w w2) (w2 ≡ w) (Ok m)
        → (wrote : List ℕ) × Writes V.held V.is_write V.is_flush wrote v v2 (Ok n)
        × Writes W.held W.is_write W.is_flush wrote w w2 (Ok m) }
{
    known_bytes_give_their_game();
}
