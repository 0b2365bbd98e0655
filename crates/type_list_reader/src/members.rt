//! Lists of types in parentheses: members with or without a name, and a tail.
ghost use Rattle.std.specs.Prelude.{◌≡◌, [], false};
ghost use Rattle.luau_tree.specs.View.{view_type};
ghost use Rattle.type_list_reader.specs.SeenMembers.{seen_members};
ghost use Rattle.phrase_reader.specs.Nests.{Nests};
ghost use Rattle.phrase_reader.specs.Outcomes.{Reads, place_of, itself, seen_listed};
ghost use Rattle.luau_grammar.specs.Reading.{strictly};
ghost use Rattle.luau_grammar.specs.ReadModules.{readers};
ghost use Rattle.luau_grammar.specs.ReadTypes as written;

use crate::reader::TypeLists;
use luau_grammar::{ParseError, Symbol};
use luau_tree::types::{generic_pack_type, variadic_type};
use luau_tree::{Block, Expr, TypeSyntax};
use phrase_reader::{Listed, Tokens};
use sqlite_items::Items;
use std::alloc::Global;

/// What was read of a list in parentheses.
#[derive(Drop)]
pub struct Members {
    pub types: Items<TypeSyntax>,
    /// Whether a name stands before one of them.
    pub named: bool,
    /// Whether the last is a tail.
    pub tailed: bool,
}

fn no_members(alloc: Global) -> Members
    ensures { seen_members result ≡ record { types = []; named = false; tailed = false } }
{
    Members {
        types: Items::new(alloc),
        named: false,
        tailed: false,
    }
}

/// Whether another member follows.
fn goes_on(found: &Members, tokens: &Tokens<'_, '_>) -> bool
    ensures { result ≡ written.goes_members (seen_members found.now) (place_of tokens.now) }
{
    !found.tailed && tokens.sees(Symbol::Comma)
}

impl<
    'g,
    's,
    E: Fn(Global, &[u8], &mut Tokens<'_, '_>, usize) -> Result<Expr, ParseError>,
    T: Fn(
        Global,
        &[u8],
        &mut Tokens<'_, '_>,
        usize,
        Option<Listed>,
    ) -> Result<TypeSyntax, ParseError>,
    B: Fn(Global, &[u8], &mut Tokens<'_, '_>, usize) -> Result<Block, ParseError>,
> TypeLists<'g, 's, E, T, B> {
    #[tactic(auto, unfolding(luau_grammar::specs::ReadTypes::variadic))]
    fn variadic(&self, tokens: &mut Tokens<'_, '_>) -> Result<TypeSyntax, ParseError>
        requires { Nests self.now.grammar.now.text.now self.now.grammar.now.depth (E.pre self.now.grammar.now.exp) (E.post self.now.grammar.now.exp) (T.pre self.now.grammar.now.typ) (T.post self.now.grammar.now.typ) (B.pre self.now.grammar.now.block) (B.post self.now.grammar.now.block) }
        ensures { Reads view_type (written.variadic (strictly self.now.grammar.now.text.now) (readers (strictly self.now.grammar.now.text.now) self.now.grammar.now.depth) (place_of tokens.old)) result tokens.new }
    {
        let from = tokens.start();
        let _dots = tokens.expect(self.grammar.text, Symbol::Dots)?;
        let t = self.grammar.typ(tokens, None)?;
        let span = tokens.span_from(from);
        Ok(variadic_type(self.grammar.alloc, span, t)?)
    }

    /// `NAME ...`
    #[tactic(auto, unfolding(luau_grammar::specs::ReadTypes::generic_pack))]
    pub fn generic_pack(&self, tokens: &mut Tokens<'_, '_>) -> Result<TypeSyntax, ParseError>
        requires { Nests self.now.grammar.now.text.now self.now.grammar.now.depth (E.pre self.now.grammar.now.exp) (E.post self.now.grammar.now.exp) (T.pre self.now.grammar.now.typ) (T.post self.now.grammar.now.typ) (B.pre self.now.grammar.now.block) (B.post self.now.grammar.now.block) }
        ensures { Reads view_type (written.generic_pack (strictly self.now.grammar.now.text.now) (readers (strictly self.now.grammar.now.text.now) self.now.grammar.now.depth) (place_of tokens.old)) result tokens.new }
    {
        let from = tokens.start();
        let name = tokens.name(self.grammar.alloc, self.grammar.text)?;
        let _dots = tokens.expect(self.grammar.text, Symbol::Dots)?;
        let span = tokens.span_from(from);
        Ok(generic_pack_type(span, name))
    }

    /// What ends a list of types in a generic parameter pack: `NAME ...` or `... type`.
    #[tactic(auto, unfolding(luau_grammar::specs::ReadTypes::tail))]
    pub fn tail(&self, tokens: &mut Tokens<'_, '_>) -> Result<TypeSyntax, ParseError>
        requires { Nests self.now.grammar.now.text.now self.now.grammar.now.depth (E.pre self.now.grammar.now.exp) (E.post self.now.grammar.now.exp) (T.pre self.now.grammar.now.typ) (T.post self.now.grammar.now.typ) (B.pre self.now.grammar.now.block) (B.post self.now.grammar.now.block) }
        ensures { Reads view_type (written.tail (strictly self.now.grammar.now.text.now) (readers (strictly self.now.grammar.now.text.now) self.now.grammar.now.depth) (place_of tokens.old)) result tokens.new }
    {
        if tokens.sees(Symbol::Dots) {
            self.variadic(tokens)
        } else {
            self.generic_pack(tokens)
        }
    }

    #[tactic(auto, unfolding(luau_grammar::specs::ReadTypes::member_name))]
    fn member_name(&self, tokens: &mut Tokens<'_, '_>) -> Result<bool, ParseError>
        requires { Nests self.now.grammar.now.text.now self.now.grammar.now.depth (E.pre self.now.grammar.now.exp) (E.post self.now.grammar.now.exp) (T.pre self.now.grammar.now.typ) (T.post self.now.grammar.now.typ) (B.pre self.now.grammar.now.block) (B.post self.now.grammar.now.block) }
        ensures { Reads itself (written.member_name (strictly self.now.grammar.now.text.now) (readers (strictly self.now.grammar.now.text.now) self.now.grammar.now.depth) (place_of tokens.old)) result tokens.new }
    {
        if !tokens.begins_named() {
            return Ok(false);
        }
        let _name = tokens.name(self.grammar.alloc, self.grammar.text)?;
        let _colon = tokens.expect(self.grammar.text, Symbol::Colon)?;
        Ok(true)
    }

    /// One more type, or the tail.
    #[tactic(auto, unfolding(luau_grammar::specs::ReadTypes::member))]
    fn member(&self, tokens: &mut Tokens<'_, '_>, found: Members) -> Result<Members, ParseError>
        requires { Nests self.now.grammar.now.text.now self.now.grammar.now.depth (E.pre self.now.grammar.now.exp) (E.post self.now.grammar.now.exp) (T.pre self.now.grammar.now.typ) (T.post self.now.grammar.now.typ) (B.pre self.now.grammar.now.block) (B.post self.now.grammar.now.block) }
        ensures { Reads seen_members (written.member (strictly self.now.grammar.now.text.now) (readers (strictly self.now.grammar.now.text.now) self.now.grammar.now.depth) (seen_members found) (place_of tokens.old)) result tokens.new }
    {
        let Members {
            mut types,
            named,
            ..
        } = found;
        if tokens.begins_tail() {
            let t = self.tail(tokens)?;
            types.push(t)?;
            let tailed = true;
            return Ok(Members {
                types,
                named,
                tailed,
            });
        }
        let here = self.member_name(tokens)?;
        let t = self.grammar.typ(tokens, None)?;
        types.push(t)?;
        Ok(Members {
            types,
            named: named || here,
            tailed: false,
        })
    }

    #[tactic(auto, unfolding(luau_grammar::specs::ReadTypes::another_member))]
    fn another_member(
        &self,
        tokens: &mut Tokens<'_, '_>,
        found: Members,
    ) -> Result<Members, ParseError>
        requires { Nests self.now.grammar.now.text.now self.now.grammar.now.depth (E.pre self.now.grammar.now.exp) (E.post self.now.grammar.now.exp) (T.pre self.now.grammar.now.typ) (T.post self.now.grammar.now.typ) (B.pre self.now.grammar.now.block) (B.post self.now.grammar.now.block) }
        ensures { Reads seen_members (written.another_member (strictly self.now.grammar.now.text.now) (readers (strictly self.now.grammar.now.text.now) self.now.grammar.now.depth) (seen_members found) (place_of tokens.old)) result tokens.new }
    {
        let _comma = tokens.expect(self.grammar.text, Symbol::Comma)?;
        self.member(tokens, found)
    }

    #[tactic(auto, unfolding(luau_grammar::specs::ReadTypes::members_from))]
    fn members_from(
        &self,
        tokens: &mut Tokens<'_, '_>,
        given: Members,
    ) -> Result<Members, ParseError>
        requires { Nests self.now.grammar.now.text.now self.now.grammar.now.depth (E.pre self.now.grammar.now.exp) (E.post self.now.grammar.now.exp) (T.pre self.now.grammar.now.typ) (T.post self.now.grammar.now.typ) (B.pre self.now.grammar.now.block) (B.post self.now.grammar.now.block) }
        ensures { Reads seen_members (written.members_from (strictly self.now.grammar.now.text.now) (readers (strictly self.now.grammar.now.text.now) self.now.grammar.now.depth) (seen_members given) (place_of tokens.old)) result tokens.new }
    {
        let mut found = given;
        let mut turns = tokens.left();
        while goes_on(&found, tokens) {
            if turns == 0 {
                return Err(tokens.refusal(self.grammar.text));
            }
            turns -= 1;
            found = self.another_member(tokens, found)?;
        }
        Ok(found)
    }

    #[tactic(auto, unfolding(luau_grammar::specs::ReadTypes::members))]
    fn members(&self, tokens: &mut Tokens<'_, '_>) -> Result<Members, ParseError>
        requires { Nests self.now.grammar.now.text.now self.now.grammar.now.depth (E.pre self.now.grammar.now.exp) (E.post self.now.grammar.now.exp) (T.pre self.now.grammar.now.typ) (T.post self.now.grammar.now.typ) (B.pre self.now.grammar.now.block) (B.post self.now.grammar.now.block) }
        ensures { Reads seen_members (written.members (strictly self.now.grammar.now.text.now) (readers (strictly self.now.grammar.now.text.now) self.now.grammar.now.depth) (place_of tokens.old)) result tokens.new }
    {
        let first = self.member(tokens, no_members(self.grammar.alloc))?;
        self.members_from(tokens, first)
    }

    #[tactic(auto, unfolding(luau_grammar::specs::ReadTypes::maybe_members))]
    fn maybe_members(&self, tokens: &mut Tokens<'_, '_>) -> Result<Members, ParseError>
        requires { Nests self.now.grammar.now.text.now self.now.grammar.now.depth (E.pre self.now.grammar.now.exp) (E.post self.now.grammar.now.exp) (T.pre self.now.grammar.now.typ) (T.post self.now.grammar.now.typ) (B.pre self.now.grammar.now.block) (B.post self.now.grammar.now.block) }
        ensures { Reads seen_members (written.maybe_members (strictly self.now.grammar.now.text.now) (readers (strictly self.now.grammar.now.text.now) self.now.grammar.now.depth) (place_of tokens.old)) result tokens.new }
    {
        if tokens.sees(Symbol::RightParen) {
            return Ok(no_members(self.grammar.alloc));
        }
        self.members(tokens)
    }

    /// `(` members `)`
    #[tactic(auto, unfolding(luau_grammar::specs::ReadTypes::listed))]
    pub fn listed(&self, tokens: &mut Tokens<'_, '_>) -> Result<Listed, ParseError>
        requires { Nests self.now.grammar.now.text.now self.now.grammar.now.depth (E.pre self.now.grammar.now.exp) (E.post self.now.grammar.now.exp) (T.pre self.now.grammar.now.typ) (T.post self.now.grammar.now.typ) (B.pre self.now.grammar.now.block) (B.post self.now.grammar.now.block) }
        ensures { Reads seen_listed (written.listed (strictly self.now.grammar.now.text.now) (readers (strictly self.now.grammar.now.text.now) self.now.grammar.now.depth) (place_of tokens.old)) result tokens.new }
    {
        let start = tokens.start();
        let _open = tokens.expect(self.grammar.text, Symbol::LeftParen)?;
        let found = self.maybe_members(tokens)?;
        let _close = tokens.expect(self.grammar.text, Symbol::RightParen)?;
        Ok(Listed {
            start,
            end: tokens.last(),
            types: found.types,
            named: found.named,
            tailed: found.tailed,
        })
    }
}
