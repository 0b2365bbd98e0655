ghost use Rattle.std.specs.Prelude.{◌≡◌, ◌≢◌, true, false, map, IsTrue, ◌↔◌};
ghost use Rattle.luau_lex.specs.Tokens.{seen_token};
ghost use Rattle.luau_grammar.specs.Symbols.{same, look_up, symbol_of};
ghost use Rattle.luau_grammar.specs.Operators as operators;
ghost use Rattle.luau_grammar.specs.Expressions as expressions;
ghost use Rattle.luau_grammar.specs.Statements as statements;
ghost use Rattle.luau_grammar.specs.ReadPhrases as phrases;

use luau_lex::{Kind, Token};
use luau_tree::{BinOp, UnOp};

/// What the grammar tells tokens apart by: names, literals, each reserved word and each sign. The value of a name or a
/// literal stands beside it in its token.
#[derive(Clone, Copy, Debug, PartialEq, Eq)]
pub enum Symbol {
    Name,
    Number,
    /// A quoted or long string.
    Text,
    /// An interpolated string without a part in braces.
    Whole,
    /// The text of an interpolated string before its first part.
    Begin,
    /// The text between two parts.
    Mid,
    /// The text after the last part.
    Last,
    And,
    Break,
    Do,
    Else,
    ElseIf,
    End,
    False,
    For,
    Function,
    If,
    In,
    Local,
    Nil,
    Not,
    Or,
    Repeat,
    Return,
    Then,
    True,
    Until,
    While,
    Plus,
    Minus,
    Star,
    Slash,
    DoubleSlash,
    Percent,
    Caret,
    Hash,
    Equal,
    NotEqual,
    LessEqual,
    GreaterEqual,
    Less,
    Greater,
    Assign,
    AddAssign,
    SubAssign,
    MulAssign,
    DivAssign,
    FloorDivAssign,
    ModAssign,
    PowAssign,
    ConcatAssign,
    LeftParen,
    RightParen,
    LeftBrace,
    RightBrace,
    LeftBracket,
    RightBracket,
    DoubleColon,
    Semicolon,
    Colon,
    Comma,
    Dot,
    DoubleDot,
    Dots,
    Arrow,
    Question,
    Pipe,
    Ampersand,
    AtSign,
    /// The end of the text, behind the last token.
    Stop,
    /// A word or sign that is none of the grammar's. The lexer gives none.
    Stray,
}

/// Whether two symbols are one.
pub fn same(a: Symbol, b: Symbol) -> bool
    ensures { result ≡ same a b }
{
    a == b
}

/// The symbol of each reserved word.
const WORDS: [(&[u8], Symbol); 21] = [
    (b"and", Symbol::And),
    (b"break", Symbol::Break),
    (b"do", Symbol::Do),
    (b"else", Symbol::Else),
    (b"elseif", Symbol::ElseIf),
    (b"end", Symbol::End),
    (b"false", Symbol::False),
    (b"for", Symbol::For),
    (b"function", Symbol::Function),
    (b"if", Symbol::If),
    (b"in", Symbol::In),
    (b"local", Symbol::Local),
    (b"nil", Symbol::Nil),
    (b"not", Symbol::Not),
    (b"or", Symbol::Or),
    (b"repeat", Symbol::Repeat),
    (b"return", Symbol::Return),
    (b"then", Symbol::Then),
    (b"true", Symbol::True),
    (b"until", Symbol::Until),
    (b"while", Symbol::While),
];

/// The symbol of each sign.
const SIGNS: [(&[u8], Symbol); 41] = [
    (b"(", Symbol::LeftParen),
    (b")", Symbol::RightParen),
    (b",", Symbol::Comma),
    (b".", Symbol::Dot),
    (b"=", Symbol::Assign),
    (b":", Symbol::Colon),
    (b"{", Symbol::LeftBrace),
    (b"}", Symbol::RightBrace),
    (b"[", Symbol::LeftBracket),
    (b"]", Symbol::RightBracket),
    (b"==", Symbol::Equal),
    (b"~=", Symbol::NotEqual),
    (b"..", Symbol::DoubleDot),
    (b"+", Symbol::Plus),
    (b"-", Symbol::Minus),
    (b"*", Symbol::Star),
    (b"/", Symbol::Slash),
    (b"//", Symbol::DoubleSlash),
    (b"%", Symbol::Percent),
    (b"^", Symbol::Caret),
    (b"#", Symbol::Hash),
    (b"<", Symbol::Less),
    (b">", Symbol::Greater),
    (b"<=", Symbol::LessEqual),
    (b">=", Symbol::GreaterEqual),
    (b"+=", Symbol::AddAssign),
    (b"-=", Symbol::SubAssign),
    (b"*=", Symbol::MulAssign),
    (b"/=", Symbol::DivAssign),
    (b"//=", Symbol::FloorDivAssign),
    (b"%=", Symbol::ModAssign),
    (b"^=", Symbol::PowAssign),
    (b"..=", Symbol::ConcatAssign),
    (b"::", Symbol::DoubleColon),
    (b";", Symbol::Semicolon),
    (b"...", Symbol::Dots),
    (b"->", Symbol::Arrow),
    (b"?", Symbol::Question),
    (b"|", Symbol::Pipe),
    (b"&", Symbol::Ampersand),
    (b"@", Symbol::AtSign),
];

/// The symbol that a table has for these bytes.
fn look_up(mut table: &[(&[u8], Symbol)], bytes: &[u8]) -> Symbol
    ensures { result ≡ look_up (map (λ k. (k.0.now, k.1)) table.entry.now) bytes.now }
{
    while let [entry, rest @ ..] = table {
        if bytes == entry.0 {
            return entry.1;
        }
        table = rest;
    }
    Symbol::Stray
}

/// The symbol of a token.
#[tactic(auto, unfolding(crate::specs::Symbols::symbol_of))]
pub fn symbol_of(token: &Token<'_>) -> Symbol
    ensures { result ≡ symbol_of (seen_token token.now) }
{
    match token.kind {
        Kind::Name => Symbol::Name,
        Kind::Word => look_up(&WORDS, token.text),
        Kind::Numeral => Symbol::Number,
        Kind::Quoted => Symbol::Text,
        Kind::Long => Symbol::Text,
        Kind::Whole => Symbol::Whole,
        Kind::Begin => Symbol::Begin,
        Kind::Mid => Symbol::Mid,
        Kind::End => Symbol::Last,
        Kind::Sign => look_up(&SIGNS, token.text),
    }
}

/// The binary operator that a symbol is.
pub fn binary_of(symbol: Symbol) -> Option<BinOp>
    ensures { result ≡ operators.binary_of symbol }
{
    match symbol {
        Symbol::Or => Some(BinOp::Or),
        Symbol::And => Some(BinOp::And),
        Symbol::Less => Some(BinOp::Less),
        Symbol::Greater => Some(BinOp::Greater),
        Symbol::LessEqual => Some(BinOp::LessEqual),
        Symbol::GreaterEqual => Some(BinOp::GreaterEqual),
        Symbol::NotEqual => Some(BinOp::NotEqual),
        Symbol::Equal => Some(BinOp::Equal),
        Symbol::DoubleDot => Some(BinOp::Concat),
        Symbol::Plus => Some(BinOp::Add),
        Symbol::Minus => Some(BinOp::Sub),
        Symbol::Star => Some(BinOp::Mul),
        Symbol::Slash => Some(BinOp::Div),
        Symbol::DoubleSlash => Some(BinOp::FloorDiv),
        Symbol::Percent => Some(BinOp::Mod),
        Symbol::Caret => Some(BinOp::Pow),
        _ => None,
    }
}

/// The unary operator that a symbol is.
pub fn unary_of(symbol: Symbol) -> Option<UnOp>
    ensures { result ≡ operators.unary_of symbol }
{
    match symbol {
        Symbol::Minus => Some(UnOp::Minus),
        Symbol::Not => Some(UnOp::Not),
        Symbol::Hash => Some(UnOp::Length),
        _ => None,
    }
}

/// The operator of a compound assignment.
pub fn compound_of(symbol: Symbol) -> Option<BinOp>
    ensures { result ≡ operators.compound_of symbol }
{
    match symbol {
        Symbol::ConcatAssign => Some(BinOp::Concat),
        Symbol::AddAssign => Some(BinOp::Add),
        Symbol::SubAssign => Some(BinOp::Sub),
        Symbol::MulAssign => Some(BinOp::Mul),
        Symbol::DivAssign => Some(BinOp::Div),
        Symbol::FloorDivAssign => Some(BinOp::FloorDiv),
        Symbol::ModAssign => Some(BinOp::Mod),
        Symbol::PowAssign => Some(BinOp::Pow),
        _ => None,
    }
}

/// Whether an expression may begin with a symbol.
pub fn begins_expression(symbol: Symbol) -> bool
    ensures { result ≡ expressions.begins symbol }
{
    matches!(
        symbol,
        Symbol::Number
            | Symbol::Text
            | Symbol::Nil
            | Symbol::True
            | Symbol::False
            | Symbol::Dots
            | Symbol::LeftBrace
            | Symbol::AtSign
            | Symbol::Function
            | Symbol::Name
            | Symbol::LeftParen
            | Symbol::If
            | Symbol::Whole
            | Symbol::Begin
            | Symbol::Minus
            | Symbol::Not
            | Symbol::Hash
    )
}

/// Whether a type may begin with a symbol.
pub fn begins_type(symbol: Symbol) -> bool
    ensures { result ≡ phrases.begins_type symbol }
{
    matches!(
        symbol,
        Symbol::Pipe
            | Symbol::Ampersand
            | Symbol::Nil
            | Symbol::True
            | Symbol::False
            | Symbol::Text
            | Symbol::Name
            | Symbol::LeftBrace
            | Symbol::Less
            | Symbol::LeftParen
    )
}

/// Whether a statement may begin with a symbol.
pub fn begins_block(symbol: Symbol) -> bool
    ensures { result ≡ statements.begins symbol }
{
    matches!(
        symbol,
        Symbol::Name
            | Symbol::LeftParen
            | Symbol::Do
            | Symbol::While
            | Symbol::Repeat
            | Symbol::If
            | Symbol::For
            | Symbol::AtSign
            | Symbol::Function
            | Symbol::Local
            | Symbol::Return
            | Symbol::Break
    )
}

/// Whether a symbol ends a block or separates statements: what stands behind the statement `continue`.
pub fn closes(symbol: Symbol) -> bool
    ensures { result ≡ statements.closes symbol }
{
    matches!(
        symbol,
        Symbol::Semicolon
            | Symbol::End
            | Symbol::Else
            | Symbol::ElseIf
            | Symbol::Until
            | Symbol::Stop
    )
}
