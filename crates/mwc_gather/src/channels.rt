//! The rings of one worker, and room for its part.
ghost use Rattle.std.specs.Prelude.{◌≡◌, ◌<◌, [], false, length, IfErr, IfOk};
ghost use Rattle.mwc_gather.specs.Inner.PartBuilders.{IsBuilderOf};
ghost use Rattle.mwc_gather.specs.Inner.Fault.{IsEarly};
ghost use Rattle.mwc_gather.specs.declared.channels.TheConstants.{TASKS, WORDS};

use crate::fault::GatherFault;
use crate::part_builder::PartBuilder;
use mwc_pipe::{RingIn, RingOut, Word, ring};
use std::alloc::{AllocError, Global};

/// How many words a worker may be ahead of the gatherer, 64 KB.
///
/// With fewer, both sides wait for each other more often.
const WORDS: usize = 4096;

/// How many words go into a ring, or out of it, by one call at most, 8 KB.
///
/// With fewer, the two threads pass cache lines and wake-ups to each other more often.
const ROW: usize = 512;

/// How many tasks may wait for a worker.
const TASKS: usize = 2;

/// For the prover: the numbers of the constants, which clauses name.
fn are_these_numbers()
    ensures { (TASKS ≡ 2) × (WORDS ≡ 4096) }
{}

/// The ends of two new rings, and room for what is kept of a worker.
#[derive(Drop)]
pub(crate) struct Channels {
    /// The end that the worker's words go into.
    pub out: RingIn,
    /// The end that the worker's words come from.
    pub words: RingOut,
    /// The end that its tasks are put into.
    pub tasks: RingIn,
    /// The end that its tasks come from.
    pub list: RingOut,
    /// Room for the words that wait to be sent.
    pub row: Vec<Word>,
    /// Room for the slices that it is given.
    pub given: Vec<u16>,
    /// Room for its part.
    pub builder: PartBuilder,
    ghost some_room: { 0 < length row.items },
    ghost rings: { (words.ring ≡ out.ring) × (list.ring ≡ tasks.ring) },
    ghost no_words: { (out.accepted ≡ []) × (words.taken ≡ []) },
    ghost no_tasks: { (tasks.accepted ≡ []) × (list.taken ≡ []) },
    ghost none_given: { given.items ≡ [] },
    ghost none_kept: { IsBuilderOf [] builder × (builder.out_of_memory ≡ false) × (builder.cut ≡ false) },
}

/// Makes a row of words.
pub(crate) fn new_row(alloc: Global) -> Result<Vec<Word>, AllocError>
    ensures { IfOk result (λ row. 0 < length row.items) }
{
    Vec::from_elem(alloc, Word::Open(0), ROW)
}

impl Channels {
    /// Makes the channels of a worker that may be given `slices` slices.
    #[tactic(auto, using(std::proofs::lemmas::Grind::common_steps))]
    pub fn new(alloc: Global, slices: u16) -> Result<Channels, GatherFault>
        ensures { IfErr result IsEarly }
    {
        let given = Vec::with_capacity(alloc, usize::from(slices))?;
        let builder = PartBuilder::new(alloc, slices)?;
        let row = new_row(alloc)?;
        let (out, words) = ring(alloc, WORDS)?;
        let (tasks, list) = ring(alloc, TASKS)?;
        Ok(Channels {
            out,
            words,
            tasks,
            list,
            row,
            given,
            builder,
        })
    }
}
