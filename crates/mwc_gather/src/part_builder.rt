//! A part while its words come in.
ghost use Rattle.std.specs.Prelude.{◌≡◌, ◌<◌, [], ◌∷◌, length, None, IfOk, IfErr, true, false, vec_len, vec_capacity};
ghost use Rattle.std.specs.List.{list_any};
ghost use Rattle.mwc_pipe.specs.declared.word.Word.{Word};
ghost use Rattle.mwc_gather.specs.Pieces.{HasEnds};
ghost use Rattle.mwc_gather.specs.Inner.PartBuilders.{AddsWords, Grows, FailsOnlyWithoutRoom};
ghost use Rattle.mwc_gather.specs.Inner.PartBuilders.{IsBuilderOf, IsPartOfBuilder, fault_in_builder};
ghost use Rattle.mwc_gather.specs.Inner.Sending.{is_done, is_end};

use crate::fault::GatherFault;
use crate::part::Part;
use council_game::{Coalition, Memory};
use mwc_pipe::Word;
use std::alloc::Global;

/// What is kept of the words of a worker, of which its part is made.
#[derive(Drop)]
pub(crate) struct PartBuilder {
    /// How many coalitions there were at the end of each slice.
    pub ends: Vec<u32>,
    /// The coalitions so far.
    pub got: Vec<Coalition>,
    /// Whether a word said that the sending was cut.
    pub cut: bool,
    /// Whether a growth was refused. Nothing is kept after that.
    pub out_of_memory: bool,
}

/// What the words of a row say of their worker.
#[derive(Clone, Copy)]
pub(crate) struct Signals {
    /// Whether it has finished a slice.
    pub done: bool,
    /// Whether it has ended.
    pub end: bool,
}

impl PartBuilder {
    /// Makes a builder of no words, with room for the ends of `slices` slices.
    ///
    /// # Errors
    ///
    /// `Memory` if that room was refused.
    pub fn new(alloc: Global, slices: u16) -> Result<PartBuilder, Memory>
        ensures { IfOk result (λ d. IsBuilderOf [] d × (d.out_of_memory ≡ false) × (d.cut ≡ false)) }
    {
        Ok(PartBuilder {
            ends: Vec::with_capacity(alloc, usize::from(slices))?,
            got: Vec::new(alloc),
            cut: false,
            out_of_memory: false,
        })
    }

    /// Keeps one more word; there is room for its coalition.
    #[tactic(auto, using(crate::proofs::Searches::for_add_word))]
    fn add_word(&mut self, word: Word)
        requires { self.old.out_of_memory ≡ false → vec_len self.old.got < vec_capacity self.old.got }
        ensures adds { AddsWords self.old (word ∷ []) self.new }
        ensures grows { Grows self.old 1 self.new }
        ensures full { FailsOnlyWithoutRoom self.old 1 self.new }
    {
        match word {
            Word::One(coalition) if !self.out_of_memory => self.got.push_reserved(coalition),
            Word::Done(_) if !self.out_of_memory => match u32::try_from(self.got.len()) {
                // memory: the growth was refused
                Ok(end) => self.out_of_memory = self.ends.push(end).is_err(),
                // memory: 2^32 coalitions would take more than 32 GB
                Err(_) => self.out_of_memory = true,
            },
            Word::End { cut } => self.cut |= cut,
            Word::Open(_) | Word::One(_) | Word::Done(_) => {}
        }
    }

    /// Keeps the words of a row, and returns what they say of the worker.
    ///
    /// Room for their coalitions is made once.
    pub fn add_row(&mut self, row: &[Word]) -> Signals
        ensures adds { AddsWords self.old row.now self.new }
        ensures full { FailsOnlyWithoutRoom self.old (length row.now) self.new }
        ensures done { result.done ≡ list_any is_done row.now }
        ensures end { result.end ≡ list_any is_end row.now }
    {
        let mut signals = Signals {
            done: false,
            end: false,
        };
        if self.got.reserve(row.len()).is_err() {
            self.out_of_memory = true;
        }
        for word in row {
            self.add_word(*word);
            signals.done |= matches!(word, Word::Done(_));
            signals.end |= matches!(word, Word::End { .. });
        }
        signals
    }

    /// Returns the part of a worker that was given these slices and has ended.
    ///
    /// # Errors
    ///
    /// `Memory` if a growth was refused, else `TooMany` if the sending was cut.
    pub fn into_part(self, given: Vec<u16>) -> Result<Part, GatherFault>
        requires { fault_in_builder self ≡ None
            → HasEnds given.items self.ends.items (length self.got.items) }
        ensures part { IfOk result (IsPartOfBuilder self given.items) }
        ensures fault { IfErr result (λ why. fault_in_builder self ≡ Some why) }
    {
        if self.out_of_memory {
            // memory: a growth was refused
            return Err(GatherFault::Memory);
        }
        if self.cut {
            return Err(GatherFault::TooMany);
        }
        Ok(Part {
            slices: given,
            ends: self.ends,
            got: self.got,
        })
    }
}
