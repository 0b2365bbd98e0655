//! A bound on the turns of a call.
ghost use Rattle.std.specs.Prelude.{◌≡◌};
ghost use Rattle.std.specs.IoError.{error_kind};

use std::io;
use std::io::ErrorKind;

/// How many turns a call on a folder may take.
pub const TURNS: u32 = 16_777_216;

/// What a call answers that has taken all its turns.
pub fn too_many_turns() -> io::Error
    ensures { error_kind result ≡ ErrorKind.Other }
{
    io::Error::other("too many turns")
}
