//! Types with `?`, `|` and `&`.
ghost use Rattle.std.specs.Prelude.{map};
ghost use Rattle.luau_tree.specs.View.{view_type};
ghost use Rattle.phrase_reader.specs.Nests.{Nests};
ghost use Rattle.phrase_reader.specs.Outcomes.{Reads, place_of, itself, maybe_listed};
ghost use Rattle.luau_grammar.specs.Reading.{strictly};
ghost use Rattle.luau_grammar.specs.ReadModules.{readers};
ghost use Rattle.luau_grammar.specs.ReadTypes as written;

use crate::reader::Types;
use luau_grammar::{ParseError, Symbol};
use luau_tree::types::{meet_type, optional_type, union_type};
use luau_tree::{Block, Expr, TypeSyntax};
use phrase_reader::{Listed, Tokens, begin_of};
use sqlite_items::Items;
use std::alloc::Global;

impl<
    'g,
    's,
    E: Fn(Global, &[u8], &mut Tokens<'_, '_>, usize) -> Result<Expr, ParseError>,
    T: Fn(
        Global,
        &[u8],
        &mut Tokens<'_, '_>,
        usize,
        Option<Listed>,
    ) -> Result<TypeSyntax, ParseError>,
    B: Fn(Global, &[u8], &mut Tokens<'_, '_>, usize) -> Result<Block, ParseError>,
> Types<'g, 's, E, T, B> {
    #[tactic(auto, unfolding(luau_grammar::specs::ReadTypes::mark))]
    fn mark(
        &self,
        tokens: &mut Tokens<'_, '_>,
        from: u32,
        t: TypeSyntax,
    ) -> Result<TypeSyntax, ParseError>
        requires { Nests self.now.grammar.now.text.now self.now.grammar.now.depth (E.pre self.now.grammar.now.exp) (E.post self.now.grammar.now.exp) (T.pre self.now.grammar.now.typ) (T.post self.now.grammar.now.typ) (B.pre self.now.grammar.now.block) (B.post self.now.grammar.now.block) }
        ensures { Reads view_type (written.mark (strictly self.now.grammar.now.text.now) (readers (strictly self.now.grammar.now.text.now) self.now.grammar.now.depth) from (view_type t) (place_of tokens.old)) result tokens.new }
    {
        let _mark = tokens.expect(self.grammar.text, Symbol::Question)?;
        tokens.raise(self.grammar.text)?;
        let span = tokens.span_from(from);
        Ok(optional_type(self.grammar.alloc, span, t)?)
    }

    #[tactic(auto, unfolding(luau_grammar::specs::ReadTypes::all_marks))]
    fn all_marks(
        &self,
        tokens: &mut Tokens<'_, '_>,
        from: u32,
        t: TypeSyntax,
    ) -> Result<TypeSyntax, ParseError>
        requires { Nests self.now.grammar.now.text.now self.now.grammar.now.depth (E.pre self.now.grammar.now.exp) (E.post self.now.grammar.now.exp) (T.pre self.now.grammar.now.typ) (T.post self.now.grammar.now.typ) (B.pre self.now.grammar.now.block) (B.post self.now.grammar.now.block) }
        ensures { Reads view_type (written.all_marks (strictly self.now.grammar.now.text.now) (readers (strictly self.now.grammar.now.text.now) self.now.grammar.now.depth) from (view_type t) (place_of tokens.old)) result tokens.new }
    {
        let mut found = t;
        let mut turns = tokens.left();
        while tokens.sees(Symbol::Question) {
            if turns == 0 {
                return Err(tokens.refusal(self.grammar.text));
            }
            turns -= 1;
            found = self.mark(tokens, from, found)?;
        }
        Ok(found)
    }

    #[tactic(auto, unfolding(luau_grammar::specs::ReadTypes::marks))]
    fn marks(
        &self,
        tokens: &mut Tokens<'_, '_>,
        from: u32,
        t: TypeSyntax,
    ) -> Result<TypeSyntax, ParseError>
        requires { Nests self.now.grammar.now.text.now self.now.grammar.now.depth (E.pre self.now.grammar.now.exp) (E.post self.now.grammar.now.exp) (T.pre self.now.grammar.now.typ) (T.post self.now.grammar.now.typ) (B.pre self.now.grammar.now.block) (B.post self.now.grammar.now.block) }
        ensures { Reads view_type (written.marks (strictly self.now.grammar.now.text.now) (readers (strictly self.now.grammar.now.text.now) self.now.grammar.now.depth) from (view_type t) (place_of tokens.old)) result tokens.new }
    {
        let outer = tokens.level();
        let u = self.all_marks(tokens, from, t)?;
        tokens.set_level(outer);
        Ok(u)
    }

    #[tactic(auto, unfolding(luau_grammar::specs::ReadTypes::option))]
    fn type_option(
        &self,
        tokens: &mut Tokens<'_, '_>,
        begun: Option<Listed>,
    ) -> Result<TypeSyntax, ParseError>
        requires { Nests self.now.grammar.now.text.now self.now.grammar.now.depth (E.pre self.now.grammar.now.exp) (E.post self.now.grammar.now.exp) (T.pre self.now.grammar.now.typ) (T.post self.now.grammar.now.typ) (B.pre self.now.grammar.now.block) (B.post self.now.grammar.now.block) }
        ensures { Reads view_type (written.option (strictly self.now.grammar.now.text.now) (readers (strictly self.now.grammar.now.text.now) self.now.grammar.now.depth) (maybe_listed begun) (place_of tokens.old)) result tokens.new }
    {
        let from = begin_of(&begun, tokens);
        let t = self.basic_type(tokens, begun)?;
        self.marks(tokens, from, t)
    }

    #[tactic(auto, unfolding(luau_grammar::specs::ReadTypes::another_option))]
    fn another_option(
        &self,
        tokens: &mut Tokens<'_, '_>,
        sign: Symbol,
        mut found: Items<TypeSyntax>,
    ) -> Result<Items<TypeSyntax>, ParseError>
        requires { Nests self.now.grammar.now.text.now self.now.grammar.now.depth (E.pre self.now.grammar.now.exp) (E.post self.now.grammar.now.exp) (T.pre self.now.grammar.now.typ) (T.post self.now.grammar.now.typ) (B.pre self.now.grammar.now.block) (B.post self.now.grammar.now.block) }
        ensures { Reads (map view_type) (written.another_option (strictly self.now.grammar.now.text.now) (readers (strictly self.now.grammar.now.text.now) self.now.grammar.now.depth) sign (map view_type found) (place_of tokens.old)) result tokens.new }
    {
        let _sign = tokens.expect(self.grammar.text, sign)?;
        let t = self.type_option(tokens, None)?;
        found.push(t)?;
        Ok(found)
    }

    #[tactic(auto, unfolding(luau_grammar::specs::ReadTypes::options_from))]
    fn options_from(
        &self,
        tokens: &mut Tokens<'_, '_>,
        sign: Symbol,
        given: Items<TypeSyntax>,
    ) -> Result<Items<TypeSyntax>, ParseError>
        requires { Nests self.now.grammar.now.text.now self.now.grammar.now.depth (E.pre self.now.grammar.now.exp) (E.post self.now.grammar.now.exp) (T.pre self.now.grammar.now.typ) (T.post self.now.grammar.now.typ) (B.pre self.now.grammar.now.block) (B.post self.now.grammar.now.block) }
        ensures { Reads (map view_type) (written.options_from (strictly self.now.grammar.now.text.now) (readers (strictly self.now.grammar.now.text.now) self.now.grammar.now.depth) sign (map view_type given) (place_of tokens.old)) result tokens.new }
    {
        let mut found = given;
        let mut turns = tokens.left();
        while tokens.sees(sign) {
            if turns == 0 {
                return Err(tokens.refusal(self.grammar.text));
            }
            turns -= 1;
            found = self.another_option(tokens, sign, found)?;
        }
        Ok(found)
    }

    #[tactic(auto, unfolding(luau_grammar::specs::ReadTypes::options))]
    fn type_options(
        &self,
        tokens: &mut Tokens<'_, '_>,
        sign: Symbol,
        first: TypeSyntax,
    ) -> Result<Items<TypeSyntax>, ParseError>
        requires { Nests self.now.grammar.now.text.now self.now.grammar.now.depth (E.pre self.now.grammar.now.exp) (E.post self.now.grammar.now.exp) (T.pre self.now.grammar.now.typ) (T.post self.now.grammar.now.typ) (B.pre self.now.grammar.now.block) (B.post self.now.grammar.now.block) }
        ensures { Reads (map view_type) (written.options (strictly self.now.grammar.now.text.now) (readers (strictly self.now.grammar.now.text.now) self.now.grammar.now.depth) sign (view_type first) (place_of tokens.old)) result tokens.new }
    {
        let mut found = Items::new(self.grammar.alloc);
        found.push(first)?;
        self.options_from(tokens, sign, found)
    }

    #[tactic(auto, using(phrase_reader::proofs::Lists::types_seen), unfolding(luau_grammar::specs::ReadTypes::union_behind))]
    fn union_behind(
        &self,
        tokens: &mut Tokens<'_, '_>,
        from: u32,
        first: TypeSyntax,
    ) -> Result<TypeSyntax, ParseError>
        requires { Nests self.now.grammar.now.text.now self.now.grammar.now.depth (E.pre self.now.grammar.now.exp) (E.post self.now.grammar.now.exp) (T.pre self.now.grammar.now.typ) (T.post self.now.grammar.now.typ) (B.pre self.now.grammar.now.block) (B.post self.now.grammar.now.block) }
        ensures { Reads view_type (written.union_behind (strictly self.now.grammar.now.text.now) (readers (strictly self.now.grammar.now.text.now) self.now.grammar.now.depth) from (view_type first) (place_of tokens.old)) result tokens.new }
    {
        let types = self.type_options(tokens, Symbol::Pipe, first)?;
        let span = tokens.span_from(from);
        Ok(union_type(span, types))
    }

    #[tactic(auto, using(phrase_reader::proofs::Lists::types_seen), unfolding(luau_grammar::specs::ReadTypes::meet_behind))]
    fn meet_behind(
        &self,
        tokens: &mut Tokens<'_, '_>,
        from: u32,
        first: TypeSyntax,
    ) -> Result<TypeSyntax, ParseError>
        requires { Nests self.now.grammar.now.text.now self.now.grammar.now.depth (E.pre self.now.grammar.now.exp) (E.post self.now.grammar.now.exp) (T.pre self.now.grammar.now.typ) (T.post self.now.grammar.now.typ) (B.pre self.now.grammar.now.block) (B.post self.now.grammar.now.block) }
        ensures { Reads view_type (written.meet_behind (strictly self.now.grammar.now.text.now) (readers (strictly self.now.grammar.now.text.now) self.now.grammar.now.depth) from (view_type first) (place_of tokens.old)) result tokens.new }
    {
        let types = self.type_options(tokens, Symbol::Ampersand, first)?;
        let span = tokens.span_from(from);
        Ok(meet_type(span, types))
    }

    /// What follows the first option of a type that begins at an offset.
    #[tactic(auto, unfolding(luau_grammar::specs::ReadTypes::joined))]
    fn joined(
        &self,
        tokens: &mut Tokens<'_, '_>,
        from: u32,
        first: TypeSyntax,
    ) -> Result<TypeSyntax, ParseError>
        requires { Nests self.now.grammar.now.text.now self.now.grammar.now.depth (E.pre self.now.grammar.now.exp) (E.post self.now.grammar.now.exp) (T.pre self.now.grammar.now.typ) (T.post self.now.grammar.now.typ) (B.pre self.now.grammar.now.block) (B.post self.now.grammar.now.block) }
        ensures { Reads view_type (written.joined (strictly self.now.grammar.now.text.now) (readers (strictly self.now.grammar.now.text.now) self.now.grammar.now.depth) from (view_type first) (place_of tokens.old)) result tokens.new }
    {
        if tokens.sees(Symbol::Pipe) {
            return self.union_behind(tokens, from, first);
        }
        if tokens.sees(Symbol::Ampersand) {
            return self.meet_behind(tokens, from, first);
        }
        Ok(first)
    }

    /// The sign that may stand before the first option.
    #[tactic(auto, unfolding(luau_grammar::specs::ReadTypes::bar))]
    fn bar(&self, tokens: &mut Tokens<'_, '_>, begun: &Option<Listed>) -> Result<(), ParseError>
        requires { Nests self.now.grammar.now.text.now self.now.grammar.now.depth (E.pre self.now.grammar.now.exp) (E.post self.now.grammar.now.exp) (T.pre self.now.grammar.now.typ) (T.post self.now.grammar.now.typ) (B.pre self.now.grammar.now.block) (B.post self.now.grammar.now.block) }
        ensures { Reads itself (written.bar (strictly self.now.grammar.now.text.now) (readers (strictly self.now.grammar.now.text.now) self.now.grammar.now.depth) (maybe_listed begun.now) (place_of tokens.old)) result tokens.new }
    {
        if begun.is_some() {
            return Ok(());
        }
        if tokens.sees(Symbol::Pipe) || tokens.sees(Symbol::Ampersand) {
            let _bar = tokens.next(self.grammar.text)?;
        }
        Ok(())
    }

    /// A type, whose list in parentheses may have been read, at the level of what stands in it.
    #[tactic(auto, unfolding(luau_grammar::specs::ReadTypes::type_inside))]
    pub fn type_inside(
        &self,
        tokens: &mut Tokens<'_, '_>,
        begun: Option<Listed>,
    ) -> Result<TypeSyntax, ParseError>
        requires { Nests self.now.grammar.now.text.now self.now.grammar.now.depth (E.pre self.now.grammar.now.exp) (E.post self.now.grammar.now.exp) (T.pre self.now.grammar.now.typ) (T.post self.now.grammar.now.typ) (B.pre self.now.grammar.now.block) (B.post self.now.grammar.now.block) }
        ensures { Reads view_type (written.type_inside (strictly self.now.grammar.now.text.now) (readers (strictly self.now.grammar.now.text.now) self.now.grammar.now.depth) (maybe_listed begun) (place_of tokens.old)) result tokens.new }
    {
        self.bar(tokens, &begun)?;
        let from = begin_of(&begun, tokens);
        let first = self.type_option(tokens, begun)?;
        self.joined(tokens, from, first)
    }
}
