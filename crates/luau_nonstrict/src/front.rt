//! The front of a file.
ghost use Rattle.std.specs.Prelude.{◌≡◌, ◌<◌, ◌≤◌, IfOk, IfSome, OnErr, false, length, take};
ghost use Rattle.std.specs.Io.KnownBytes.{Consumes, IsAtEnd};
ghost use Rattle.luau_nonstrict.specs.Moved.{LosesAtMost, Moves};

use crate::turns::{TURNS, too_many_turns};
use std::alloc::Global;
use std::io;
use std::io::{ErrorKind, Read};

/// How many bytes one read asks for at most.
const CHUNK: usize = 8192;

/// The first `at_most` bytes of a file, or all of a shorter one. It reads no more of it than that,
/// and fails where `TURNS` reads are too few.
pub fn front<F: Read>(alloc: Global, file: &mut F, at_most: u64) -> io::Result<Vec<u8>>
    ensures front { IfOk result (λ bytes. IfSome (F.remaining file.old) (λ all.
        bytes.items ≡ take at_most all)) }
    ensures within { IfOk result (λ bytes. length bytes.items ≤ at_most) }

    // The reader has lost these bytes and no other, and no more than was asked for where it fails.
    ensures left { IfOk result (λ bytes.
        Consumes (F.remaining file.old) (F.remaining file.new) bytes.items) }
    ensures lost { OnErr result
        (LosesAtMost (F.remaining file.old) (F.remaining file.new) at_most) }
{
    let mut bytes = Vec::new(alloc);
    let mut buffer = [0u8; CHUNK];
    for _ in 0..TURNS {
        let left = at_most - bytes.len() as u64;
        let room = left.min(CHUNK as u64) as usize;
        if room == 0 || !read_more(file, &mut bytes, &mut buffer[..room])? {
            return Ok(bytes);
        }
    }
    Err(too_many_turns())
}

/// Moves some bytes from a file to the end of others, by way of a buffer, and says whether there
/// may be more.
fn read_more<F: Read>(file: &mut F, bytes: &mut Vec<u8>, buffer: &mut [u8]) -> io::Result<bool>
    ensures moved { IfOk result (λ _.
        Moves (F.remaining file.old) (F.remaining file.new)
        bytes.old.items bytes.new.items (length buffer.old)) }
    ensures lost { OnErr result
        (LosesAtMost (F.remaining file.old) (F.remaining file.new) (length buffer.old)) }
    ensures end { result ≡ Ok false → 0 < length buffer.old → IsAtEnd (F.remaining file.new) }
{
    match file.read(buffer) {
        Ok(count) => {
            bytes.extend_from_slice(&buffer[..count])?;
            Ok(count > 0)
        }
        Err(e) if e.kind() == ErrorKind::Interrupted => Ok(true),
        Err(e) => Err(e),
    }
}

#[cfg(test)]
mod tests;
