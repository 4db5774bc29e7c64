//! Laws of the definitions: free at run time, each is the contract of its function.
ghost use Rattle.std.specs.Prelude.{ℕ, List};
ghost use Rattle.mwc_pipe.specs.History.{replies};
ghost use Rattle.mwc_pipe.specs.Laws.{NothingIsLost, NothingEntersAfterClose, EachReplyIsCounted, HasPast};
ghost use Rattle.mwc_pipe.specs.PipeView.{PipeView};
ghost use Rattle.mwc_pipe.specs.declared.step.Step.{Step};

/// States that what came out is the beginning of what went in.
///
/// It holds after any steps: what came out, followed by what is left inside, is what went in. At
/// most `capacity` items are left.
#[tactic(auto, using(crate::proofs::WholeRuns::laws))]
pub fn nothing_is_lost<T>()
    ensures { (capacity : ℕ) (steps : List (Step T)) → NothingIsLost capacity steps }
{}

/// States that each put after a close is answered Closed.
///
/// It stays so for ever: no step opens a pipe again.
#[tactic(auto, using(crate::proofs::WholeRuns::laws))]
pub fn nothing_enters_after_close<T>()
    ensures { (capacity : ℕ) (steps : List (Step T))
        → NothingEntersAfterClose steps (replies capacity steps) }
{}

/// States that the reply to a step is counted from the steps and replies before it.
///
/// It rests on what went in and what came out, and on whether the pipe was closed.
#[tactic(auto, using(crate::proofs::WholeRuns::laws))]
pub fn each_reply_is_counted<T>()
    ensures { (capacity : ℕ) (steps : List (Step T)) → EachReplyIsCounted capacity steps }
{}

/// States that whatever a pipe holds, some history leaves it so.
///
/// So what holds after every history holds of every pipe.
#[tactic(auto, using(crate::proofs::WholeRuns::laws))]
pub fn each_pipe_has_a_past<T>()
    ensures { (pipe : PipeView T) → HasPast pipe }
{}
