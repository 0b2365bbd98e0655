//! What is told of the faults of a text.
ghost use Rattle.std.specs.Prelude.{◌≡◌};
ghost use Rattle.luau_lex.specs.Places as lexical;
ghost use Rattle.source_files.specs.Fault.{fault_offset, lexical_reason_of, reason_of};

use crate::reason::Reason;
use luau_grammar::ParseError;
use luau_lex::LexError;

// The offset of a fault of the tokens.
fn lexical_offset_of(fault: &LexError) -> u32
    ensures { result ≡ lexical.fault_offset fault.now }
{
    match fault {
        LexError::UnfinishedString(at)
        | LexError::UnfinishedComment(at)
        | LexError::BadEscape(at)
        | LexError::BadNumeral(at)
        | LexError::StrayByte(at)
        | LexError::DoubleBrace(at) => *at,
        LexError::NoMemory => 0,
    }
}

// The offset of a fault.
pub(crate) fn offset_of(fault: &ParseError) -> u32
    ensures { result ≡ fault_offset fault.now }
{
    match fault {
        ParseError::Lex(fault) => lexical_offset_of(fault),
        ParseError::Unexpected(at)
        | ParseError::UnexpectedEnd(at)
        | ParseError::AmbiguousCall(at)
        | ParseError::Nesting(at) => *at,
        ParseError::NoMemory => 0,
    }
}

// Why a file with the fault of the tokens is refused.
fn lexical_reason_of(fault: &LexError) -> Reason
    ensures { result ≡ lexical_reason_of fault.now }
{
    match fault {
        LexError::UnfinishedString(_) => Reason::UnfinishedString,
        LexError::UnfinishedComment(_) => Reason::UnfinishedComment,
        LexError::BadEscape(_) => Reason::BadEscape,
        LexError::BadNumeral(_) => Reason::BadNumeral,
        LexError::StrayByte(_) => Reason::StrayByte,
        LexError::DoubleBrace(_) => Reason::DoubleBrace,
        LexError::NoMemory => Reason::UnexpectedEnd,
    }
}

// Why a file with the fault is refused.
pub(crate) fn reason_of(fault: &ParseError) -> Reason
    ensures { result ≡ reason_of fault.now }
{
    match fault {
        ParseError::Lex(fault) => lexical_reason_of(fault),
        ParseError::Unexpected(_) => Reason::UnexpectedToken,
        ParseError::UnexpectedEnd(_) => Reason::UnexpectedEnd,
        ParseError::AmbiguousCall(_) => Reason::AmbiguousCall,
        ParseError::Nesting(_) => Reason::Nesting,
        ParseError::NoMemory => Reason::UnexpectedEnd,
    }
}
