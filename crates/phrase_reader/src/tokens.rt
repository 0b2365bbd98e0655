ghost use Rattle.std.specs.Prelude.{◌≡◌, ◌≤◌, ◌<◌, ◌==◌, length, map, take, drop, IfOk};
ghost use Rattle.std.specs.List.{list_any};
ghost use Rattle.luau_lex.specs.Tokens.{seen_token};
ghost use Rattle.luau_grammar.specs.Places as places;
ghost use Rattle.luau_grammar.specs.Modules.{on_one_line, before, max_level};
ghost use Rattle.luau_grammar.specs.Expressions as expressions;
ghost use Rattle.luau_grammar.specs.Statements as statements;
ghost use Rattle.luau_grammar.specs.ReadTypes as types;
ghost use Rattle.luau_grammar.specs.Reading as reading;
ghost use Rattle.luau_grammar.specs.Reading.{strictly, ◌>>◌, pure};
ghost use Rattle.phrase_reader.specs.Outcomes.{Reads, place_of, itself};

use luau_grammar::{ParseError, Symbol, closes, same, symbol_of};
use luau_lex::{Token, value_of};
use luau_tree::{Bytes, MAX_TEXT, Span};
use std::alloc::{AllocError, Global};

/// The deepest level at which a token may stand.
pub const MAX_LEVEL: u32 = 200;

/// A place in a list of tokens: those ahead, where the token before them ends, and the level at which the next stands.
#[derive(Drop)]
pub struct Tokens<'t, 's> {
    ahead: &'t [Token<'s>],
    last: u32,
    level: u32,
}

/// One level deeper, where anything may be opened.
#[tactic(auto, unfolding(luau_grammar::specs::Reading::deeper))]
pub fn deeper(level: u32) -> u32
    ensures { result ≡ reading.deeper max_level level }
{
    if level > MAX_LEVEL { level } else { level + 1 }
}

/// What is behind the first bytes of a text, so many.
fn behind(text: &[u8], n: usize) -> &[u8]
    ensures { result.now ≡ drop n text.now }
{
    if n <= text.len() { &text[n..] } else { &[] }
}

/// The first bytes of a text, so many.
fn front(text: &[u8], n: usize) -> &[u8]
    ensures { result.now ≡ take n text.now }
{
    if n <= text.len() { &text[..n] } else { text }
}

fn has_line_feed(text: &[u8]) -> bool
    ensures { result ≡ list_any (λ b. b == 10) text.now }
{
    text.iter().any(|b| *b == b'\n')
}

/// Whether no line feed stands in a text between two offsets.
fn on_one_line(text: &[u8], from: u32, to: u32) -> bool
    ensures { result ≡ on_one_line text.now from to }
{
    let gap = to.saturating_sub(from) as usize;
    !has_line_feed(front(behind(text, from as usize), gap))
}

impl<'t, 's> Tokens<'t, 's> {
    /// The place before all tokens.
    pub fn new(ahead: &'t [Token<'s>]) -> Tokens<'t, 's>
        ensures { place_of result ≡ before (map seen_token ahead.now) }
    {
        Tokens {
            ahead,
            last: 0,
            level: 0,
        }
    }

    /// The symbol of the next token.
    #[tactic(auto, unfolding(luau_grammar::specs::Places::symbol))]
    pub fn symbol(&self) -> Symbol
        ensures { result ≡ places.symbol (place_of self.now) }
    {
        match self.ahead.first() {
            None => Symbol::Stop,
            Some(token) => symbol_of(token),
        }
    }

    /// The symbol of the token behind the next.
    #[tactic(auto, unfolding(luau_grammar::specs::Places::symbol_behind))]
    pub fn symbol_behind(&self) -> Symbol
        ensures { result ≡ places.symbol_behind (place_of self.now) }
    {
        match self.ahead {
            [_, token, ..] => symbol_of(token),
            _ => Symbol::Stop,
        }
    }

    #[tactic(auto, unfolding(luau_grammar::specs::Places::sees))]
    pub fn sees(&self, symbol: Symbol) -> bool
        ensures { result ≡ places.sees symbol (place_of self.now) }
    {
        same(self.symbol(), symbol)
    }

    #[tactic(auto, unfolding(luau_grammar::specs::Places::sees_behind))]
    pub fn sees_behind(&self, symbol: Symbol) -> bool
        ensures { result ≡ places.sees_behind symbol (place_of self.now) }
    {
        same(self.symbol_behind(), symbol)
    }

    /// The bytes of the next token.
    fn bytes(&self) -> &[u8]
        ensures { result.now ≡ places.first_bytes (place_of self.now).ahead }
    {
        match self.ahead.first() {
            None => &[],
            Some(token) => token.text,
        }
    }

    /// Whether a prefix goes on: `.`, `[`, `:` or arguments.
    pub fn sees_suffix(&self) -> bool
        ensures { result ≡ expressions.begins_suffix (place_of self.now) }
    {
        self.sees(Symbol::Dot)
            || self.sees(Symbol::LeftBracket)
            || self.sees(Symbol::Colon)
            || self.sees(Symbol::LeftParen)
            || self.sees(Symbol::LeftBrace)
            || self.sees(Symbol::Text)
    }

    /// Whether the next token is this name, which is a word where the grammar has it.
    #[tactic(auto, unfolding(luau_grammar::specs::Places::sees_word))]
    pub fn sees_word(&self, word: &[u8]) -> bool
        ensures { result ≡ places.sees_word word.now (place_of self.now) }
    {
        self.sees(Symbol::Name) && self.bytes() == word
    }

    /// The bytes of the token behind the next.
    fn bytes_behind(&self) -> &[u8]
        ensures { result.now ≡ statements.second_bytes (place_of self.now).ahead }
    {
        match self.ahead {
            [_, token, ..] => token.text,
            _ => &[],
        }
    }

    /// Whether the next token is the word `continue`, and not a name.
    pub fn sees_continue(&self) -> bool
        ensures { result ≡ statements.sees_continue (place_of self.now) }
    {
        self.sees_word(b"continue") && closes(self.symbol_behind())
    }

    /// Whether the next token is the word `type`, and not a name.
    pub fn sees_type(&self) -> bool
        ensures { result ≡ statements.sees_type (place_of self.now) }
    {
        self.sees_word(b"type")
            && (self.sees_behind(Symbol::Name) || self.sees_behind(Symbol::Function))
    }

    /// Whether the next token is the word `export`, and not a name.
    pub fn sees_export(&self) -> bool
        ensures { result ≡ statements.sees_export (place_of self.now) }
    {
        self.sees_word(b"export")
            && self.sees_behind(Symbol::Name)
            && self.bytes_behind() == b"type".as_slice()
    }

    /// Where the next token begins.
    #[tactic(auto, unfolding(luau_grammar::specs::Places::start_of))]
    pub fn start(&self) -> u32
        ensures { result ≡ places.start_of (place_of self.now) }
    {
        match self.ahead.first() {
            None => 0,
            Some(token) => token.span.start,
        }
    }

    /// Where the token before ends.
    pub fn last(&self) -> u32
        ensures { result ≡ (place_of self.now).last }
    {
        self.last
    }

    /// From an offset to the end of the token before.
    pub fn span_from(&self, start: u32) -> Span
        ensures { result ≡ places.from_to start (place_of self.now) }
    {
        Span {
            start,
            end: self.last,
        }
    }

    /// How many tokens are ahead.
    pub fn left(&self) -> usize
        ensures { result ≡ length (place_of self.now).ahead }
    {
        self.ahead.len()
    }

    pub fn level(&self) -> u32
        ensures { result ≡ (place_of self.now).level }
    {
        self.level
    }

    pub fn set_level(&mut self, level: u32)
        ensures { place_of self.new ≡ places.at_level level (place_of self.old) }
    {
        self.level = level;
    }

    /// Nothing reads the next token.
    #[tactic(auto, unfolding(luau_grammar::specs::Reading::refusal))]
    pub fn refusal(&self, text: &[u8]) -> ParseError
        requires { length text.now ≤ MAX_TEXT }
        ensures { result ≡ reading.refusal (strictly text.now) (place_of self.now) }
    {
        match self.ahead.first() {
            None => ParseError::UnexpectedEnd(text.len() as u32),
            Some(token) => ParseError::Unexpected(token.span.start),
        }
    }

    /// The next token stands too deep.
    #[tactic(auto, unfolding(luau_grammar::specs::Reading::deep_refusal))]
    pub fn deep_refusal(&self, text: &[u8]) -> ParseError
        requires { length text.now ≤ MAX_TEXT }
        ensures { result ≡ reading.deep_refusal (strictly text.now) (place_of self.now) }
    {
        match self.ahead.first() {
            None => ParseError::UnexpectedEnd(text.len() as u32),
            Some(token) => ParseError::Nesting(token.span.start),
        }
    }

    /// Takes the next token.
    #[tactic(auto, unfolding(luau_grammar::specs::Reading::next))]
    pub fn next(&mut self, text: &[u8]) -> Result<Token<'s>, ParseError>
        requires { length text.now ≤ MAX_TEXT }
        ensures { Reads seen_token (reading.next (strictly text.now) (place_of self.old)) result self.new }
    {
        let Some(token) = self.ahead.first() else {
            return Err(ParseError::UnexpectedEnd(text.len() as u32));
        };
        let token = *token;
        if self.level > MAX_LEVEL {
            return Err(ParseError::Nesting(token.span.start));
        }
        self.ahead = &self.ahead[1..];
        self.last = token.span.end;
        Ok(token)
    }

    /// Takes the next token, which is to be this symbol.
    #[tactic(auto, unfolding(luau_grammar::specs::Reading::expect))]
    pub fn expect(&mut self, text: &[u8], symbol: Symbol) -> Result<Token<'s>, ParseError>
        requires { length text.now ≤ MAX_TEXT }
        ensures { Reads seen_token (reading.expect (strictly text.now) symbol (place_of self.old)) result self.new }
    {
        if self.sees(symbol) {
            self.next(text)
        } else {
            Err(self.refusal(text))
        }
    }

    /// Takes the next token where it is this symbol, and whether it was.
    #[tactic(auto, unfolding(luau_grammar::specs::Reading::eat))]
    pub fn eat(&mut self, text: &[u8], symbol: Symbol) -> Result<bool, ParseError>
        requires { length text.now ≤ MAX_TEXT }
        ensures { Reads itself (reading.eat (strictly text.now) symbol (place_of self.old)) result self.new }
    {
        if !self.sees(symbol) {
            return Ok(false);
        }
        let _token = self.next(text)?;
        Ok(true)
    }

    /// Takes a `,` or a `;`, and whether one stands there.
    #[tactic(auto, unfolding(luau_grammar::specs::ReadTypes::separator))]
    pub fn separator(&mut self, text: &[u8]) -> Result<bool, ParseError>
        requires { length text.now ≤ MAX_TEXT }
        ensures { Reads itself (types.separator (strictly text.now) (place_of self.old)) result self.new }
    {
        if !self.sees(Symbol::Comma) && !self.sees(Symbol::Semicolon) {
            return Ok(false);
        }
        let _token = self.next(text)?;
        Ok(true)
    }

    /// Takes a name.
    #[tactic(auto, unfolding(luau_grammar::specs::Reading::name))]
    pub fn name(&mut self, alloc: Global, text: &[u8]) -> Result<Bytes, ParseError>
        requires { length text.now ≤ MAX_TEXT }
        ensures { Reads itself (reading.name (strictly text.now) (place_of self.old)) result self.new }
    {
        let token = self.expect(text, Symbol::Name)?;
        Ok(copy(alloc, token.text)?)
    }

    /// Takes a string token, or a part of an interpolated string, and gives the bytes that it stands for.
    #[tactic(auto, unfolding(luau_grammar::specs::Reading::string))]
    pub fn string(
        &mut self,
        alloc: Global,
        text: &[u8],
        symbol: Symbol,
    ) -> Result<Bytes, ParseError>
        requires { length text.now ≤ MAX_TEXT }
        ensures { Reads itself (reading.string (strictly text.now) symbol (place_of self.old)) result self.new }
    {
        let token = self.expect(text, symbol)?;
        Ok(value_of(alloc, &token)?)
    }

    /// Takes the parenthesis that begins arguments.
    #[tactic(auto, unfolding(luau_grammar::specs::Reading::open_arguments, luau_grammar::specs::Reading::refusal, luau_grammar::specs::Places::sees, luau_grammar::specs::Places::symbol))]
    pub fn open_arguments(&mut self, text: &[u8]) -> Result<(), ParseError>
        requires { length text.now ≤ MAX_TEXT }
        ensures { Reads itself (reading.open_arguments (strictly text.now) (place_of self.old)) result self.new }
    {
        let Some(token) = self.ahead.first() else {
            return Err(ParseError::UnexpectedEnd(text.len() as u32));
        };
        let start = token.span.start;
        if !same(symbol_of(token), Symbol::LeftParen) {
            return Err(ParseError::Unexpected(start));
        }
        if !on_one_line(text, self.last, start) {
            return Err(ParseError::AmbiguousCall(start));
        }
        let _token = self.next(text)?;
        Ok(())
    }

    /// Goes one level deeper.
    #[tactic(auto, unfolding(luau_grammar::specs::Reading::raise))]
    pub fn raise(&mut self, text: &[u8]) -> Result<(), ParseError>
        requires { length text.now ≤ MAX_TEXT }
        ensures { Reads itself (reading.raise (strictly text.now) (place_of self.old)) result self.new }
    {
        if self.level > MAX_LEVEL {
            return Err(self.deep_refusal(text));
        }
        self.level += 1;
        Ok(())
    }
}

/// A copy of some bytes.
pub fn copy(alloc: Global, bytes: &[u8]) -> Result<Bytes, AllocError>
    ensures { IfOk result (λ b. b ≡ bytes.now) }
{
    Ok(Bytes::of(Vec::from_slice(alloc, bytes)?))
}
