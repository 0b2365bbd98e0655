ghost use Rattle.std.specs.Prelude.{◌≡◌, ◌<◌, ◌≤◌, length, slice_index};
ghost use Rattle.std.specs.List.{prefix_len};
ghost use Rattle.luau_lex.specs.Bytes.{is_blank, is_name_start};
ghost use Rattle.luau_lex.specs.Computed.Steps.{has};

/// A class of bytes that stand together in a token.
#[derive(Clone, Copy, Debug, PartialEq, Eq)]
pub enum Class {
    Blank,
    NameByte,
    DigitOrUnderscore,
    NumeralByte,
    HexOrUnderscore,
    BinaryOrUnderscore,
    HexDigit,
    DecimalDigit,
    EqualsSign,
    NoLineFeed,
}

impl Class {
    /// Whether the byte is of this class.
    pub fn has(self, b: u8) -> bool
        ensures { result ≡ has self b }
    {
        match self {
            Class::Blank => is_blank(b),
            Class::NameByte => b.is_ascii_alphanumeric() || b == b'_',
            Class::DigitOrUnderscore => b.is_ascii_digit() || b == b'_',
            Class::NumeralByte => b.is_ascii_digit() || b == b'_' || b == b'.',
            Class::HexOrUnderscore => b.is_ascii_hexdigit() || b == b'_',
            Class::BinaryOrUnderscore => b == b'0' || b == b'1' || b == b'_',
            Class::HexDigit => b.is_ascii_hexdigit(),
            Class::DecimalDigit => b.is_ascii_digit(),
            Class::EqualsSign => b == b'=',
            Class::NoLineFeed => b != b'\n',
        }
    }
}

/// Whether the byte separates tokens.
pub fn is_blank(b: u8) -> bool
    ensures { result ≡ is_blank b }
{
    b == b' ' || (9 <= b && b <= 13)
}

/// Whether a name may begin with the byte.
pub fn is_name_start(b: u8) -> bool
    ensures { result ≡ is_name_start b }
{
    b.is_ascii_alphabetic() || b == b'_'
}

/// The byte at a place, or 0 where the text ends before it.
pub fn byte_at(text: &[u8], place: usize) -> u8
    ensures value { result ≡ slice_index text.now place }
    ensures present { 0 < result → place < length text.now }
{
    if place < text.len() { text[place] } else { 0 }
}

/// How many bytes at the front are of the class.
pub fn run_len(text: &[u8], class: Class) -> usize
    ensures value { result ≡ prefix_len (has class) text.now }
    ensures within { result ≤ length text.now }
{
    for (i, b) in text.iter().enumerate() {
        if !class.has(*b) {
            return i;
        }
    }
    text.len()
}
