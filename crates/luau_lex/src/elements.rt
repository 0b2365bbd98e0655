ghost use Rattle.std.specs.Prelude.{◌≡◌, ◌≤◌, ◌<◌, ◌+◌, length, IsTrue, MatchOption, true, is_none};
ghost use Rattle.std.specs.Char.{is_ascii_hexdigit};
ghost use Rattle.luau_lex.specs.Numbers.{digit_number, number_in};
ghost use Rattle.luau_lex.specs.Computed.Strings.{byte_escape, decimal_escape, code_escape, letter_escape, escape, element};
ghost use Rattle.luau_lex.specs.Computed.Steps.{seen, stands_value, IsWritable};

use crate::bytes::{Class, byte_at, run_len};

/// What an element of a string stands for.
#[derive(Clone, Copy, Debug)]
pub enum Stands {
    Nothing,
    Byte(u8),
    /// The bytes of a number by the scheme of UTF-8.
    Code(u32),
    /// An escape that is malformed.
    Malformed,
}

impl Stands {
    /// Whether it is a malformed escape, which stands for nothing.
    pub fn is_malformed(self) -> bool
        ensures { result ≡ is_none (stands_value self) }
    {
        matches!(self, Stands::Malformed)
    }
}

/// One byte or one escape at the front of a text inside of a string.
#[derive(Clone, Copy, Debug)]
pub struct Parsed {
    /// How many bytes it takes.
    pub len: usize,
    pub stands: Stands,
}

/// The greatest number of a `\u` escape.
const MAX_CODE: u32 = 0x10_FFFF;

#[tactic(auto, unfolding(crate::specs::Numbers::digit_number))]
fn digit_number(b: u8) -> u8
    ensures value { result ≡ digit_number b }
    ensures small { is_ascii_hexdigit b ≡ true → result < 16 }
{
    if b <= b'9' {
        b.saturating_sub(48)
    } else if b <= b'F' {
        b.saturating_sub(55)
    } else {
        b.saturating_sub(87)
    }
}

/// The number that the digits write, unless it is above the greatest of a `\u` escape.
fn number_in(base: u32, digits: &[u8]) -> Option<u32>
    requires least { 1 ≤ base }
    requires most { base ≤ 16 }
    ensures { MatchOption result (0x10FFFF < number_in base digits.now)
        (λ n. (n ≡ number_in base digits.now) × (n ≤ 0x10FFFF)) }
{
    let mut n = 0;
    for d in digits {
        n = base * n + u32::from(digit_number(*d));
        if n > MAX_CODE {
            return None;
        }
    }
    Some(n)
}

/// `\x` and two hexadecimal digits. The text is what follows the `x`.
#[tactic(auto, unfolding(crate::specs::Computed::Strings::byte_escape))]
fn byte_escape(text: &[u8]) -> Parsed
    ensures value { seen result ≡ byte_escape text.now }
    ensures within { result.len ≤ 2 + length text.now }
    ensures nonempty { 2 ≤ result.len }
    ensures writable { IsWritable result.stands }
{
    let a = byte_at(text, 0);
    let b = byte_at(text, 1);
    if a.is_ascii_hexdigit() && b.is_ascii_hexdigit() {
        Parsed {
            len: 4,
            stands: Stands::Byte(16 * digit_number(a) + digit_number(b)),
        }
    } else {
        Parsed {
            len: 2,
            stands: Stands::Malformed,
        }
    }
}

/// A backslash and up to three decimal digits. The text begins with the digits.
#[tactic(auto, unfolding(crate::specs::Computed::Strings::decimal_escape))]
fn decimal_escape(text: &[u8]) -> Parsed
    ensures value { seen result ≡ decimal_escape text.now }
    ensures within { result.len ≤ 1 + length text.now }
    ensures nonempty { 1 ≤ result.len }
    ensures writable { IsWritable result.stands }
{
    let digits = run_len(text, Class::DecimalDigit).min(3);
    let stands = match number_in(10, &text[..digits]) {
        Some(n) if n <= 255 => Stands::Byte(n as u8),
        _ => Stands::Malformed,
    };
    Parsed {
        len: 1 + digits,
        stands,
    }
}

/// `\u{H}`. The text is what follows the `u`.
#[tactic(auto, unfolding(crate::specs::Computed::Strings::code_escape))]
fn code_escape(text: &[u8]) -> Parsed
    ensures value { seen result ≡ code_escape text.now }
    ensures within { result.len ≤ 2 + length text.now }
    ensures nonempty { 2 ≤ result.len }
    ensures writable { IsWritable result.stands }
{
    let malformed = Parsed {
        len: 2,
        stands: Stands::Malformed,
    };
    if byte_at(text, 0) != b'{' {
        return malformed;
    }
    let inside = &text[1..];
    let digits = run_len(inside, Class::HexDigit);
    if digits == 0 || byte_at(inside, digits) != b'}' {
        return malformed;
    }
    match number_in(16, &inside[..digits]) {
        Some(n) => Parsed {
            len: 4 + digits,
            stands: Stands::Code(n),
        },
        None => malformed,
    }
}

#[tactic(auto, unfolding(crate::specs::Computed::Strings::letter_escape))]
fn letter_escape(b: u8) -> u8
    ensures { result ≡ letter_escape b }
{
    match b {
        b'a' => 7,
        b'b' => 8,
        b'f' => 12,
        b'n' => 10,
        b'r' => 13,
        b't' => 9,
        b'v' => 11,
        _ => b,
    }
}

/// An escape. The text is what follows the backslash.
#[tactic(auto, unfolding(crate::specs::Computed::Strings::escape))]
fn escape(text: &[u8]) -> Parsed
    ensures value { seen result ≡ escape text.now }
    ensures within { result.len ≤ 1 + length text.now }
    ensures nonempty { 1 ≤ result.len }
    ensures writable { IsWritable result.stands }
{
    let b = byte_at(text, 0);
    if text.len() == 0 {
        Parsed {
            len: 1,
            stands: Stands::Malformed,
        }
    } else if b == b'z' {
        Parsed {
            len: 2 + run_len(&text[1..], Class::Blank),
            stands: Stands::Nothing,
        }
    } else if b == b'x' {
        byte_escape(&text[1..])
    } else if b == b'u' {
        code_escape(&text[1..])
    } else if b.is_ascii_digit() {
        decimal_escape(text)
    } else if b == b'\r' && byte_at(text, 1) == b'\n' {
        Parsed {
            len: 3,
            stands: Stands::Byte(b'\n'),
        }
    } else {
        Parsed {
            len: 2,
            stands: Stands::Byte(letter_escape(b)),
        }
    }
}

/// The byte or escape at the front of a text inside of a string.
#[tactic(auto, unfolding(crate::specs::Computed::Strings::element))]
pub fn element(text: &[u8]) -> Parsed
    requires { 0 < length text.now }
    ensures value { seen result ≡ element text.now }
    ensures within { result.len ≤ length text.now }
    ensures nonempty { 1 ≤ result.len }
    ensures writable { IsWritable result.stands }
{
    let b = byte_at(text, 0);
    if b == b'\\' {
        escape(&text[1..])
    } else {
        Parsed {
            len: 1,
            stands: Stands::Byte(b),
        }
    }
}
