//! What begins the forms of types.
ghost use Rattle.std.specs.Prelude.{◌≡◌};
ghost use Rattle.luau_grammar.specs.Types as fronts;
ghost use Rattle.phrase_reader.specs.Outcomes.{place_of};

use crate::tokens::Tokens;
use luau_grammar::Symbol;

impl<'t, 's> Tokens<'t, 's> {
    /// Whether a name comes next that is a word here: `read` or `write` before a name or `[`.
    pub fn sees_access(&self, word: &[u8]) -> bool
        ensures { result ≡ fronts.sees_access word.now (place_of self.now) }
    {
        self.sees_word(word)
            && (self.sees_behind(Symbol::Name) || self.sees_behind(Symbol::LeftBracket))
    }

    /// Whether a property of a table type begins here.
    pub fn begins_property(&self) -> bool
        ensures { result ≡ fronts.begins_property (place_of self.now) }
    {
        self.sees(Symbol::LeftBracket)
            || self.begins_named()
            || self.sees_access(b"read")
            || self.sees_access(b"write")
    }

    /// Whether `typeof` before `(` comes next.
    pub fn sees_typeof(&self) -> bool
        ensures { result ≡ fronts.sees_typeof (place_of self.now) }
    {
        self.sees_word(b"typeof") && self.sees_behind(Symbol::LeftParen)
    }

    /// Whether a tail of a list of types begins here.
    pub fn begins_tail(&self) -> bool
        ensures { result ≡ fronts.begins_tail (place_of self.now) }
    {
        self.sees(Symbol::Dots) || (self.sees(Symbol::Name) && self.sees_behind(Symbol::Dots))
    }

    /// Whether a name before a `:` begins here.
    pub fn begins_named(&self) -> bool
        ensures { result ≡ fronts.begins_named (place_of self.now) }
    {
        self.sees(Symbol::Name) && self.sees_behind(Symbol::Colon)
    }

    /// Whether a type in parentheses goes on: with `?`, `|` or `&`.
    pub fn goes_on(&self) -> bool
        ensures { result ≡ fronts.goes_on (place_of self.now) }
    {
        self.sees(Symbol::Question) || self.sees(Symbol::Pipe) || self.sees(Symbol::Ampersand)
    }
}
