ghost use Rattle.std.specs.Prelude.{◌≡◌, true, slice_index, length};
ghost use Rattle.luau_lex.specs.Bytes.{is_name_byte};
ghost use Rattle.luau_lex.specs.Computed.Pieces.{name_piece, name_kind};
ghost use Rattle.luau_lex.specs.Computed.Tokens.{IsWithin};
ghost use Rattle.luau_lex.specs.Names.{is_listed, reserved_words};

use crate::bytes::{Class, run_len};
use crate::piece::Piece;
use crate::token::Kind;

fn is_reserved(name: &[u8]) -> bool
    ensures { result ≡ is_listed name.now reserved_words }
{
    name == b"and".as_slice()
        || name == b"break".as_slice()
        || name == b"do".as_slice()
        || name == b"else".as_slice()
        || name == b"elseif".as_slice()
        || name == b"end".as_slice()
        || name == b"false".as_slice()
        || name == b"for".as_slice()
        || name == b"function".as_slice()
        || name == b"if".as_slice()
        || name == b"in".as_slice()
        || name == b"local".as_slice()
        || name == b"nil".as_slice()
        || name == b"not".as_slice()
        || name == b"or".as_slice()
        || name == b"repeat".as_slice()
        || name == b"return".as_slice()
        || name == b"then".as_slice()
        || name == b"true".as_slice()
        || name == b"until".as_slice()
        || name == b"while".as_slice()
}

/// A reserved word, or a name.
#[tactic(auto, unfolding(crate::specs::Computed::Pieces::name_kind))]
pub fn name_kind(name: &[u8]) -> Kind
    ensures { result ≡ name_kind name.now }
{
    if is_reserved(name) {
        Kind::Word
    } else {
        Kind::Name
    }
}

/// The name or word at the front.
#[tactic(auto, unfolding(crate::specs::Computed::Pieces::name_piece))]
pub fn name_piece(text: &[u8]) -> Piece
    requires { is_name_byte (slice_index text.now 0) ≡ true }
    ensures value { result ≡ name_piece text.now }
    ensures within { IsWithin result (length text.now) }
{
    let n = run_len(text, Class::NameByte);
    Piece::Found(name_kind(&text[..n]), n)
}
