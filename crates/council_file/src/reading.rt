//! The bytes of a reader, and their game.
ghost use Rattle.std.specs.Prelude.{◌≡◌, ◌≤◌, ◌<◌, [], Err, IfErr, IfOk, MatchResult, Ok};
ghost use Rattle.std.specs.Io.KnownBytes.{IsAtEnd};
ghost use Rattle.council_file.specs.Reads.{Gave, Reading, Reads};
ghost use Rattle.council_file.specs.Inner.Reads.{Given, GrewBy, IsStop};

use crate::parse_game;
use council_game::{Game, GameFault, Source, limits};
use std::alloc::Global;

/// Reads at most `room` bytes, once, puts them at the end of the others, and returns how many came.
fn read_some<R: Source>(
    reader: &mut R,
    bytes: &mut Vec<u8>,
    room: usize,
) -> Result<usize, GameFault>
    requires { 0 < room }
    ensures once { IfOk result (Given R.is_read reader.old reader.new bytes.old.items bytes.new.items) }
    ensures grew { IfOk result (λ n. GrewBy (R.left reader.old) (R.left reader.new)
        bytes.old.items bytes.new.items n) }
    ensures end { IfOk result (λ n. n ≡ 0 → IsAtEnd (R.left reader.new)) }
    ensures bound { IfOk result (λ n. n ≤ room) }
    ensures stop { IfErr result (IsStop R.is_read reader.old reader.new) }
{
    let mut chunk = [0u8; 4096];
    let most = room.min(4096);
    match reader.read_once(&mut chunk[..most]) {
        Ok(n) => {
            bytes.extend_from_slice(&chunk[..n])?;
            Ok(n)
        }
        Err(_) => Err(GameFault::Read),
    }
}

/// Returns the bytes that the reader gives, up to its end, but at most 65,537.
///
/// No read is made after one that fails or gives none, or once 65,537 bytes have come; so there are
/// at most 65,537 reads.
///
/// # Errors
///
/// `Read` if a read failed, for whatever cause, also if it was interrupted; `Memory` if an
/// allocation was refused.
pub fn read_bytes<R: Source>(alloc: Global, reader: &mut R) -> Result<Vec<u8>, GameFault>
    ensures gave { IfOk result (λ v. Gave (R.left reader.old) (R.left reader.new) v.items) }
    ensures reads { MatchResult result
        (λ v. Reading R.is_read reader.old [] (Ok v.items) reader.new)
        (λ fault. Reads R.left R.is_read reader.old reader.new (Err fault)) }
{
    let mut bytes: Vec<u8> = Vec::new(alloc);
    while bytes.len() <= limits::FILE_BYTES {
        let room = limits::FILE_BYTES + 1 - bytes.len();
        if read_some(reader, &mut bytes, room)? == 0 {
            return Ok(bytes);
        }
    }
    Ok(bytes)
}

/// Returns the game of the bytes that the reader gives, up to its end.
///
/// The bytes are those of `read_bytes`.
///
/// # Errors
///
/// Those of `read_bytes`, or else of `parse_game` for the bytes.
pub fn read_game<R: Source>(alloc: Global, reader: &mut R) -> Result<Game, GameFault>
    ensures { MatchResult result
        (λ game. Reads R.left R.is_read reader.old reader.new (Ok game))
        (λ fault. Reads R.left R.is_read reader.old reader.new (Err fault)) }
{
    match read_bytes(alloc, reader) {
        Ok(bytes) => parse_game(alloc, &bytes),
        Err(stop) => Err(stop),
    }
}
