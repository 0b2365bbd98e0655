ghost use Rattle.std.specs.Prelude.{◌≡◌, is_some, map};
ghost use Rattle.luau_tree.specs.View.{view_type};
ghost use Rattle.phrase_reader.specs.Outcomes.{place_of, maybe_listed, seen_listed};
ghost use Rattle.luau_grammar.specs.Phrases as phrases;
ghost use Rattle.phrase_reader.specs.Outcomes.{seen_option};
ghost use Rattle.luau_grammar.specs.Types as fronts;

use crate::tokens::Tokens;
use luau_grammar::Symbol;
use luau_tree::types::pack_type;
use luau_tree::{Span, TypeSyntax};
use sqlite_items::Items;

/// A list in parentheses, `([NAME ':'] type, .., tail)`, before it is known whether it is parameters, a pack or a type.
#[derive(Drop)]
pub struct Listed {
    /// The offset of its `(`.
    pub start: u32,
    /// The offset behind its `)`.
    pub end: u32,
    pub types: Items<TypeSyntax>,
    /// Whether a name stands before one of its types.
    pub named: bool,
    /// Whether its last type is a tail.
    pub tailed: bool,
}

/// Whether there is one type alone.
fn is_one(types: &Items<TypeSyntax>) -> bool
    ensures { result ≡ is_some (phrases.one_of (map view_type types.now)) }
{
    matches!(types.as_slice(), [_])
}

/// The one type of some, where there is one alone.
#[tactic(auto, using(crate::proofs::OneType::popped, crate::proofs::OneType::not_some))]
fn one_of(types: Items<TypeSyntax>) -> Option<TypeSyntax>
    ensures { seen_option result ≡ phrases.one_of (map view_type types) }
{
    let mut types = types;
    if is_one(&types) { types.pop() } else { None }
}

/// Whether a list is a type in parentheses: one type without a name.
fn is_in_parens(l: &Listed) -> bool
    ensures { result ≡ is_some (phrases.in_parens (seen_listed l.now)) }
{
    !l.named && !l.tailed && is_one(&l.types)
}

/// The type that a list in parentheses is, if it is one.
pub fn in_parens(l: Listed) -> Option<TypeSyntax>
    ensures { seen_option result ≡ phrases.in_parens (seen_listed l) }
{
    if l.named || l.tailed {
        None
    } else {
        one_of(l.types)
    }
}

/// Whether a list in parentheses goes on as a type.
pub fn is_type_front(l: &Listed, tokens: &Tokens<'_, '_>) -> bool
    ensures { result ≡ fronts.is_type_front (seen_listed l.now) (place_of tokens.now) }
{
    tokens.sees(Symbol::Arrow) || (is_in_parens(l) && tokens.goes_on())
}

/// The pack that a list in parentheses is, or the one type in it.
#[tactic(auto, using(crate::proofs::Lists::types_seen, crate::proofs::OneType::popped, crate::proofs::OneType::not_some))]
pub fn pack_of(l: Listed) -> TypeSyntax
    ensures { view_type result ≡ fronts.pack_of (seen_listed l) }
{
    let Listed {
        start,
        end,
        mut types,
        tailed,
        ..
    } = l;
    let span = Span { start, end };
    if tailed || !is_one(&types) {
        return pack_type(span, types);
    }
    match types.pop() {
        Some(t) => t,
        None => pack_type(span, types),
    }
}

/// Where a type begins whose list in parentheses may have been read.
pub fn begin_of(begun: &Option<Listed>, tokens: &Tokens<'_, '_>) -> u32
    ensures { result ≡ fronts.begin_of (maybe_listed begun.now) (place_of tokens.now) }
{
    match begun {
        Some(l) => l.start,
        None => tokens.start(),
    }
}
