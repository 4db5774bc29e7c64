//! Out of memory, and lists whose room is reserved first.
ghost use Rattle.std.specs.List.{range_with_len};
ghost use Rattle.std.specs.Prelude.{◌≡◌, ◌<◌, ℕ, IfOk, map};

use std::alloc::{AllocError, AllocFailed, Global};
use thiserror::Error;

/// A refused allocation: out of memory.
#[derive(Clone, Copy, Debug, Error, PartialEq, Eq)]
#[error("out of memory")]
pub struct Memory;

impl From<AllocError> for Memory {
    fn from(_e: AllocError) -> Memory {
        Memory
    }
}

impl<T: Drop> From<AllocFailed<T>> for Memory {
    fn from(_e: AllocFailed<T>) -> Memory {
        Memory
    }
}

/// Lists what `made` returns for each number from 0 to `count - 1`.
///
/// Room for the list is reserved first.
///
/// # Errors
///
/// Returns `AllocError` if the room was refused.
pub fn list_from_fn<T: Copy, F: Fn(usize) -> T>(
    alloc: Global,
    count: usize,
    made: F,
) -> Result<Vec<T>, AllocError>
    requires { (i : ℕ) → i < count → F.pre made i }
    ensures { IfOk result (λ v. (f : ℕ → T) → ((i : ℕ) (x : T) → i < count → F.post made i x → x ≡ f i)
        → v.items ≡ map f (range_with_len 0 count)) }
{
    let mut list = Vec::with_capacity(alloc, count)?;
    for place in 0..count {
        list.push(made(place))?;
    }
    Ok(list)
}
