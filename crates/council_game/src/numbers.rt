//! Numbers in a row, put at the end of the bytes that are there.
ghost use Rattle.std.specs.Prelude.{◌≡◌, ◌++◌, ◌<◌, ◌≤◌, ℕ, List, OnErr, OnOk, decimal, length};
ghost use Rattle.council_game.specs.Front.{StaysInFront};
ghost use Rattle.std.specs.Vec.{vec_capacity};
ghost use Rattle.council_game.specs.Joined.{joined_numbers, GivesEach};
ghost use Rattle.council_game.specs.Room.{MakesRoomFor};

use itoa::Buffer;
use std::alloc::AllocError;

/// Appends a number in decimal.
///
/// # Errors
///
/// `AllocError` if an allocation was refused; the vector is then unchanged.
pub fn push_decimal(out: &mut Vec<u8>, number: u64) -> Result<(), AllocError>
    ensures items { OnOk result (out.new.items ≡ out.old.items ++ decimal number) }
    ensures err { OnErr result (out.new.items ≡ out.old.items) }
    ensures room { MakesRoomFor out.old out.new result (decimal number) }
{
    let mut buffer = Buffer::new();
    out.extend_from_slice(buffer.format(number).as_bytes())
}

/// Appends `count` values in decimal, with the separator between each two.
///
/// # Errors
///
/// `AllocError` if an allocation was refused; a part of the text may then follow what was there.
pub fn push_joined<F: Fn(usize) -> u64>(
    out: &mut Vec<u8>,
    separator: &[u8],
    count: usize,
    value: F,
) -> Result<(), AllocError>
    requires { (r : ℕ) → r < count → F.pre value r }
    ensures items { (vs : List ℕ) → length vs ≡ count → GivesEach (F.post value) vs
        → OnOk result (out.new.items ≡ out.old.items ++ joined_numbers separator.now vs) }
    ensures err { OnErr result (StaysInFront out.old.items out.new.items) }
    ensures capacity { vec_capacity out.old ≤ vec_capacity out.new }
    ensures room { (vs : List ℕ) → length vs ≡ count → GivesEach (F.post value) vs
        → MakesRoomFor out.old out.new result (joined_numbers separator.now vs) }
{
    for r in 0..count {
        if 0 < r {
            out.extend_from_slice(separator)?;
        }
        push_decimal(out, value(r))?;
    }
    Ok(())
}
