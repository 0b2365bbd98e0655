//! Results and type arguments: types, packs and tails.
ghost use Rattle.std.specs.Prelude.{map};
ghost use Rattle.luau_tree.specs.View.{view_type, view_types};
ghost use Rattle.luau_grammar.specs.Reading as reading;
ghost use Rattle.phrase_reader.specs.Nests.{Nests};
ghost use Rattle.phrase_reader.specs.Outcomes.{Reads, place_of, seen_listed};
ghost use Rattle.luau_grammar.specs.Reading.{strictly};
ghost use Rattle.luau_grammar.specs.ReadModules.{readers};
ghost use Rattle.luau_grammar.specs.ReadTypes as written;

use crate::reader::TypeLists;
use luau_grammar::{ParseError, Symbol};
use luau_tree::{Block, Expr, TypeSyntax};
use phrase_reader::{Listed, Tokens, is_type_front, pack_of};
use sqlite_items::Items;
use std::alloc::Global;

impl<
    'g,
    's,
    E: Fn(Global, &[u8], &mut Tokens<'_, '_>, usize) -> Result<Expr, ParseError>,
    T: Fn(
        Global,
        &[u8],
        &mut Tokens<'_, '_>,
        usize,
        Option<Listed>,
    ) -> Result<TypeSyntax, ParseError>,
    B: Fn(Global, &[u8], &mut Tokens<'_, '_>, usize) -> Result<Block, ParseError>,
> TypeLists<'g, 's, E, T, B> {
    #[tactic(auto, unfolding(luau_grammar::specs::ReadTypes::after_list))]
    fn after_list(&self, tokens: &mut Tokens<'_, '_>, l: Listed) -> Result<TypeSyntax, ParseError>
        requires { Nests self.now.grammar.now.text.now self.now.grammar.now.depth (E.pre self.now.grammar.now.exp) (E.post self.now.grammar.now.exp) (T.pre self.now.grammar.now.typ) (T.post self.now.grammar.now.typ) (B.pre self.now.grammar.now.block) (B.post self.now.grammar.now.block) }
        ensures { Reads view_type (written.after_list (strictly self.now.grammar.now.text.now) (readers (strictly self.now.grammar.now.text.now) self.now.grammar.now.depth) (seen_listed l) (place_of tokens.old)) result tokens.new }
    {
        if is_type_front(&l, tokens) {
            return self.grammar.typ(tokens, Some(l));
        }
        Ok(pack_of(l))
    }

    /// A function's result, or a type argument.
    #[tactic(auto, unfolding(luau_grammar::specs::ReadTypes::result))]
    pub fn type_result(&self, tokens: &mut Tokens<'_, '_>) -> Result<TypeSyntax, ParseError>
        requires { Nests self.now.grammar.now.text.now self.now.grammar.now.depth (E.pre self.now.grammar.now.exp) (E.post self.now.grammar.now.exp) (T.pre self.now.grammar.now.typ) (T.post self.now.grammar.now.typ) (B.pre self.now.grammar.now.block) (B.post self.now.grammar.now.block) }
        ensures { Reads view_type (written.result (strictly self.now.grammar.now.text.now) (readers (strictly self.now.grammar.now.text.now) self.now.grammar.now.depth) (place_of tokens.old)) result tokens.new }
    {
        if tokens.sees(Symbol::LeftParen) {
            let l = self.listed(tokens)?;
            return self.after_list(tokens, l);
        }
        if tokens.begins_tail() {
            return self.tail(tokens);
        }
        self.grammar.typ(tokens, None)
    }

    #[tactic(auto)]
    fn another_result(
        &self,
        tokens: &mut Tokens<'_, '_>,
        mut found: Items<TypeSyntax>,
    ) -> Result<Items<TypeSyntax>, ParseError>
        requires { Nests self.now.grammar.now.text.now self.now.grammar.now.depth (E.pre self.now.grammar.now.exp) (E.post self.now.grammar.now.exp) (T.pre self.now.grammar.now.typ) (T.post self.now.grammar.now.typ) (B.pre self.now.grammar.now.block) (B.post self.now.grammar.now.block) }
        ensures { Reads (map view_type) (reading.another (strictly self.now.grammar.now.text.now) (written.result (strictly self.now.grammar.now.text.now) (readers (strictly self.now.grammar.now.text.now) self.now.grammar.now.depth)) (map view_type found) (place_of tokens.old)) result tokens.new }
    {
        let _comma = tokens.expect(self.grammar.text, Symbol::Comma)?;
        let t = self.type_result(tokens)?;
        found.push(t)?;
        Ok(found)
    }

    #[tactic(auto, unfolding(luau_grammar::specs::Reading::separated_from))]
    fn results_from(
        &self,
        tokens: &mut Tokens<'_, '_>,
        given: Items<TypeSyntax>,
    ) -> Result<Items<TypeSyntax>, ParseError>
        requires { Nests self.now.grammar.now.text.now self.now.grammar.now.depth (E.pre self.now.grammar.now.exp) (E.post self.now.grammar.now.exp) (T.pre self.now.grammar.now.typ) (T.post self.now.grammar.now.typ) (B.pre self.now.grammar.now.block) (B.post self.now.grammar.now.block) }
        ensures { Reads (map view_type) (reading.separated_from (strictly self.now.grammar.now.text.now) (written.result (strictly self.now.grammar.now.text.now) (readers (strictly self.now.grammar.now.text.now) self.now.grammar.now.depth)) (map view_type given) (place_of tokens.old)) result tokens.new }
    {
        let mut found = given;
        let mut turns = tokens.left();
        while tokens.sees(Symbol::Comma) {
            if turns == 0 {
                return Err(tokens.refusal(self.grammar.text));
            }
            turns -= 1;
            found = self.another_result(tokens, found)?;
        }
        Ok(found)
    }

    #[tactic(auto, unfolding(luau_grammar::specs::Reading::separated))]
    fn results(&self, tokens: &mut Tokens<'_, '_>) -> Result<Items<TypeSyntax>, ParseError>
        requires { Nests self.now.grammar.now.text.now self.now.grammar.now.depth (E.pre self.now.grammar.now.exp) (E.post self.now.grammar.now.exp) (T.pre self.now.grammar.now.typ) (T.post self.now.grammar.now.typ) (B.pre self.now.grammar.now.block) (B.post self.now.grammar.now.block) }
        ensures { Reads (map view_type) (reading.separated (strictly self.now.grammar.now.text.now) (written.result (strictly self.now.grammar.now.text.now) (readers (strictly self.now.grammar.now.text.now) self.now.grammar.now.depth)) (place_of tokens.old)) result tokens.new }
    {
        let t = self.type_result(tokens)?;
        let mut found = Items::new(self.grammar.alloc);
        found.push(t)?;
        self.results_from(tokens, found)
    }

    #[tactic(auto, using(phrase_reader::proofs::Lists::types_seen), unfolding(luau_grammar::specs::ReadTypes::maybe_results))]
    fn maybe_results(&self, tokens: &mut Tokens<'_, '_>) -> Result<Items<TypeSyntax>, ParseError>
        requires { Nests self.now.grammar.now.text.now self.now.grammar.now.depth (E.pre self.now.grammar.now.exp) (E.post self.now.grammar.now.exp) (T.pre self.now.grammar.now.typ) (T.post self.now.grammar.now.typ) (B.pre self.now.grammar.now.block) (B.post self.now.grammar.now.block) }
        ensures { Reads view_types (written.maybe_results (strictly self.now.grammar.now.text.now) (readers (strictly self.now.grammar.now.text.now) self.now.grammar.now.depth) (place_of tokens.old)) result tokens.new }
    {
        if tokens.sees(Symbol::Greater) {
            return Ok(Items::new(self.grammar.alloc));
        }
        self.results(tokens)
    }

    /// `<` results `>`, where it stands.
    #[tactic(auto, unfolding(luau_grammar::specs::ReadTypes::type_arguments))]
    pub fn type_arguments(
        &self,
        tokens: &mut Tokens<'_, '_>,
    ) -> Result<Items<TypeSyntax>, ParseError>
        requires { Nests self.now.grammar.now.text.now self.now.grammar.now.depth (E.pre self.now.grammar.now.exp) (E.post self.now.grammar.now.exp) (T.pre self.now.grammar.now.typ) (T.post self.now.grammar.now.typ) (B.pre self.now.grammar.now.block) (B.post self.now.grammar.now.block) }
        ensures { Reads view_types (written.type_arguments (strictly self.now.grammar.now.text.now) (readers (strictly self.now.grammar.now.text.now) self.now.grammar.now.depth) (place_of tokens.old)) result tokens.new }
    {
        if !tokens.sees(Symbol::Less) {
            return Ok(Items::new(self.grammar.alloc));
        }
        let _open = tokens.expect(self.grammar.text, Symbol::Less)?;
        let args = self.maybe_results(tokens)?;
        let _close = tokens.expect(self.grammar.text, Symbol::Greater)?;
        Ok(args)
    }
}
