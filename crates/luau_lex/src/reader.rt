ghost use Rattle.std.specs.Prelude.{◌≡◌, ◌≢◌, ◌≤◌, ◌<◌, ◌+◌, ◌++◌, ◌∷◌, [], length, take, drop, slice_index, All, AllPairs, IfOk, IfErr, OnOk, List, ℕ, map, Ok, Err, None, Some};
ghost use Rattle.luau_lex.specs.declared.token.LexError.TheVariants.{NoMemory};
ghost use Rattle.luau_lex.specs.Token.{Tok, seen_token};
ghost use Rattle.luau_lex.specs.Computed.Tokens.{token_at, tokens_of};
ghost use Rattle.luau_lex.specs.Lexed.{Lexed};
ghost use Rattle.luau_lex.specs.Places.{first_line_len, IsWithinText, fault_offset};
ghost use Rattle.luau_lex.specs.Computed.Pieces.{opens_behind, innermost};
ghost use Rattle.luau_lex.specs.Computed.Steps.{IsSmall, HasRead};
ghost use Rattle.luau_lex.specs.Computed.Reads.{HasTokens};

use crate::bytes::{Class, byte_at, run_len};
use crate::front::piece;
use crate::piece::{Open, Piece};
use crate::token::{Kind, LexError, Token};
use luau_tree::{MAX_TEXT, Span};
use std::alloc::{AllocError, Global};

/// A text that is read from its begin to its end: what is left of it, and what was found so far.
#[derive(Drop)]
struct Reader<'s> {
    /// The offset of what is left.
    at: u32,
    /// What is left of the text.
    rest: &'s [u8],
    /// The braces that are open, from the outermost to the innermost.
    opens: Vec<Open>,
    tokens: Vec<Token<'s>>,
}

impl<'s> Reader<'s> {
    /// Goes on behind the next `n` bytes.
    fn skip(&mut self, n: usize)
        requires within { n ≤ length self.old.rest.now }
        requires small { IsSmall self.old }
        ensures at { self.new.at ≡ self.old.at + n }
        ensures rest { self.new.rest.now ≡ drop n self.old.rest.now }
        ensures opens { self.new.opens.items ≡ self.old.opens.items }
        ensures tokens { self.new.tokens.items ≡ self.old.tokens.items }
    {
        self.at += n as u32;
        self.rest = &self.rest[n..];
    }

    /// Takes the token of this kind and length at the front.
    fn take(&mut self, kind: Kind, n: usize) -> Result<(), LexError>
        requires some { 1 ≤ n }
        requires within { n ≤ length self.old.rest.now }
        requires small { IsSmall self.old }
        ensures at { OnOk result (self.new.at ≡ self.old.at + n) }
        ensures rest { OnOk result (self.new.rest.now ≡ drop n self.old.rest.now) }
        ensures opens { OnOk result (self.new.opens.items
            ≡ opens_behind self.old.opens.items self.old.at kind (slice_index self.old.rest.now 0)) }
        ensures tokens { OnOk result (map seen_token self.new.tokens.items
            ≡ map seen_token self.old.tokens.items ++ token_at kind n self.old.at self.old.rest.now ∷ []) }
        ensures err { IfErr result (λ e. e ≡ NoMemory) }
    {
        let token = token_of(kind, self.at, self.rest, n);
        push_token(&mut self.tokens, token)?;
        follow(&mut self.opens, self.at, kind, byte_at(self.rest, 0))?;
        self.skip(n);
        Ok(())
    }

    /// Reads the piece at the front.
    fn read(&mut self) -> Result<(), LexError>
        requires some { 0 < length self.old.rest.now }
        requires small { IsSmall self.old }
        ensures pieces { OnOk result ((text : List ℕ) →
            HasRead text self.old → HasRead text self.new) }
        ensures fault { IfErr result (λ e. e ≢ NoMemory →
            (text : List ℕ) → HasRead text self.old → HasTokens text (Err e)) }
        ensures shorter { OnOk result (length self.new.rest.now < length self.old.rest.now) }
        ensures stays { OnOk result (IsSmall self.new) }
    {
        match piece(innermost(&self.opens), self.at, self.rest) {
            Piece::Gap(n) => {
                self.skip(n);
                Ok(())
            }
            Piece::Found(kind, n) => self.take(kind, n),
            Piece::Faulty(fault) => Err(fault),
        }
    }
}

/// The token of this kind and length at the front.
fn token_of<'s>(kind: Kind, at: u32, rest: &'s [u8], n: usize) -> Token<'s>
    requires within { n ≤ length rest.now }
    requires small { at + length rest.now ≤ MAX_TEXT }
    ensures { seen_token result ≡ token_at kind n at rest.now }
{
    let end = at + n as u32;
    Token {
        kind,
        span: Span { start: at, end },
        text: &rest[..n],
    }
}

fn push_token<'s>(tokens: &mut Vec<Token<'s>>, token: Token<'s>) -> Result<(), AllocError>
    ensures { OnOk result (map seen_token tokens.new.items
        ≡ map seen_token tokens.old.items ++ seen_token token.entry ∷ []) }
{
    tokens.push(token)?;
    Ok(())
}

/// The innermost open brace.
fn innermost(opens: &Vec<Open>) -> Option<Open>
    ensures { result ≡ innermost opens.now.items }
{
    opens.last().copied()
}

/// Keeps the open braces, behind a token at this offset that begins with the byte `first`.
#[tactic(auto, unfolding(crate::specs::Computed::Pieces::opens_behind))]
fn follow(opens: &mut Vec<Open>, at: u32, kind: Kind, first: u8) -> Result<(), AllocError>
    ensures { OnOk result (opens.new.items ≡ opens_behind opens.old.items at kind first) }
{
    match kind {
        Kind::Begin => opens.push(Open::Part(at))?,
        Kind::End => {
            let _ = opens.pop();
        }
        Kind::Sign if first == b'{' => opens.push(Open::Brace)?,
        Kind::Sign if first == b'}' => {
            let _ = opens.pop();
        }
        _ => {}
    }
    Ok(())
}

/// The length of a first line that begins with `#!`, which is read as a comment.
#[tactic(auto, unfolding(crate::specs::Places::first_line_len))]
fn first_line_len(text: &[u8]) -> usize
    ensures value { result ≡ first_line_len text.now }
    ensures within { result ≤ length text.now }
{
    if byte_at(text, 0) == b'#' && byte_at(text, 1) == b'!' {
        run_len(text, Class::NoLineFeed)
    } else {
        0
    }
}

/// The tokens of a text of at most 1,048,576 bytes, in order. Comments and blanks are left out. The
/// rules are in `docs/LANGUAGE.md`, "Tokens".
///
/// Fails at the first fault of the text, which has no tokens then, or where memory runs out.
pub fn lex<'s>(alloc: Global, text: &'s [u8]) -> Result<Vec<Token<'s>>, LexError>
    requires { length text.now ≤ MAX_TEXT }
    // The tokens meet the laws of a text's tokens, up to its end.
    ensures tokens { IfOk result (λ v. Lexed text.now (map seen_token v.items) None) }
    // Some tokens meet these laws up to the fault, and there the fault stands.
    ensures fault { IfErr result (λ e. e ≢ NoMemory →
        (ts : List Tok) × Lexed text.now ts (Some e)) }
    // Each token has a byte at least and lies within the text, and ends before the next ones begin.
    ensures spans { IfOk result (λ v. All (λ t. IsWithinText (length text.now) t.span) v.items) }
    ensures order { IfOk result (λ v. AllPairs (λ s t. s.span.end ≤ t.span.start) v.items) }
    // The fault stands at a byte of the text.
    ensures fault_within { IfErr result (λ e. e ≢ NoMemory → fault_offset e < length text.now) }
    // The same answers as a function.
    ensures computed { IfOk result (λ v. tokens_of text.now ≡ Ok (map seen_token v.items)) }
    ensures computed_fault { IfErr result (λ e. e ≢ NoMemory → tokens_of text.now ≡ Err e) }
{
    let mut reader = Reader {
        at: 0,
        rest: text,
        opens: Vec::new(alloc),
        tokens: Vec::new(alloc),
    };
    reader.skip(first_line_len(text));
    while !reader.rest.is_empty() {
        reader.read()?;
    }
    let Reader {
        at: _,
        rest: _,
        opens: _,
        tokens,
    } = reader;
    Ok(tokens)
}
