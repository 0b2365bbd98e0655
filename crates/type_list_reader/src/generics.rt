//! Generic parameters with their defaults.
ghost use Rattle.std.specs.Prelude.{map};
ghost use Rattle.luau_tree.specs.View.{view_gen, view_gens, view_maybe_type};
ghost use Rattle.luau_grammar.specs.Reading as reading;
ghost use Rattle.phrase_reader.specs.Nests.{Nests};
ghost use Rattle.phrase_reader.specs.Outcomes.{Reads, place_of};
ghost use Rattle.luau_grammar.specs.Reading.{strictly};
ghost use Rattle.luau_grammar.specs.ReadModules.{readers};
ghost use Rattle.luau_grammar.specs.ReadTypes as written;

use crate::reader::TypeLists;
use luau_grammar::{ParseError, Symbol};
use luau_tree::parts::gen_of;
use luau_tree::{Block, Expr, Gen, TypeSyntax};
use phrase_reader::{Listed, Tokens};
use sqlite_items::Items;
use std::alloc::Global;

impl<
    'g,
    's,
    E: Fn(Global, &[u8], &mut Tokens<'_, '_>, usize) -> Result<Expr, ParseError>,
    T: Fn(
        Global,
        &[u8],
        &mut Tokens<'_, '_>,
        usize,
        Option<Listed>,
    ) -> Result<TypeSyntax, ParseError>,
    B: Fn(Global, &[u8], &mut Tokens<'_, '_>, usize) -> Result<Block, ParseError>,
> TypeLists<'g, 's, E, T, B> {
    #[tactic(auto, unfolding(luau_grammar::specs::ReadTypes::default))]
    fn type_default(
        &self,
        tokens: &mut Tokens<'_, '_>,
        may: bool,
    ) -> Result<Option<TypeSyntax>, ParseError>
        requires { Nests self.now.grammar.now.text.now self.now.grammar.now.depth (E.pre self.now.grammar.now.exp) (E.post self.now.grammar.now.exp) (T.pre self.now.grammar.now.typ) (T.post self.now.grammar.now.typ) (B.pre self.now.grammar.now.block) (B.post self.now.grammar.now.block) }
        ensures { Reads view_maybe_type (written.default (strictly self.now.grammar.now.text.now) (readers (strictly self.now.grammar.now.text.now) self.now.grammar.now.depth) may (place_of tokens.old)) result tokens.new }
    {
        if !may || !tokens.sees(Symbol::Assign) {
            return Ok(None);
        }
        let _sign = tokens.expect(self.grammar.text, Symbol::Assign)?;
        let t = self.type_result(tokens)?;
        Ok(Some(t))
    }

    #[tactic(auto, unfolding(luau_grammar::specs::ReadTypes::generic))]
    fn generic(&self, tokens: &mut Tokens<'_, '_>, may: bool) -> Result<Gen, ParseError>
        requires { Nests self.now.grammar.now.text.now self.now.grammar.now.depth (E.pre self.now.grammar.now.exp) (E.post self.now.grammar.now.exp) (T.pre self.now.grammar.now.typ) (T.post self.now.grammar.now.typ) (B.pre self.now.grammar.now.block) (B.post self.now.grammar.now.block) }
        ensures { Reads view_gen (written.generic (strictly self.now.grammar.now.text.now) (readers (strictly self.now.grammar.now.text.now) self.now.grammar.now.depth) may (place_of tokens.old)) result tokens.new }
    {
        let from = tokens.start();
        let name = tokens.name(self.grammar.alloc, self.grammar.text)?;
        let span = tokens.span_from(from);
        let pack = tokens.eat(self.grammar.text, Symbol::Dots)?;
        let given = self.type_default(tokens, may)?;
        Ok(gen_of(name, span, pack, given))
    }

    #[tactic(auto)]
    fn another_generic(
        &self,
        tokens: &mut Tokens<'_, '_>,
        may: bool,
        mut found: Items<Gen>,
    ) -> Result<Items<Gen>, ParseError>
        requires { Nests self.now.grammar.now.text.now self.now.grammar.now.depth (E.pre self.now.grammar.now.exp) (E.post self.now.grammar.now.exp) (T.pre self.now.grammar.now.typ) (T.post self.now.grammar.now.typ) (B.pre self.now.grammar.now.block) (B.post self.now.grammar.now.block) }
        ensures { Reads (map view_gen) (reading.another (strictly self.now.grammar.now.text.now) (written.generic (strictly self.now.grammar.now.text.now) (readers (strictly self.now.grammar.now.text.now) self.now.grammar.now.depth) may) (map view_gen found) (place_of tokens.old)) result tokens.new }
    {
        let _comma = tokens.expect(self.grammar.text, Symbol::Comma)?;
        let g = self.generic(tokens, may)?;
        found.push(g)?;
        Ok(found)
    }

    #[tactic(auto, unfolding(luau_grammar::specs::Reading::separated_from))]
    fn generics_from(
        &self,
        tokens: &mut Tokens<'_, '_>,
        may: bool,
        given: Items<Gen>,
    ) -> Result<Items<Gen>, ParseError>
        requires { Nests self.now.grammar.now.text.now self.now.grammar.now.depth (E.pre self.now.grammar.now.exp) (E.post self.now.grammar.now.exp) (T.pre self.now.grammar.now.typ) (T.post self.now.grammar.now.typ) (B.pre self.now.grammar.now.block) (B.post self.now.grammar.now.block) }
        ensures { Reads (map view_gen) (reading.separated_from (strictly self.now.grammar.now.text.now) (written.generic (strictly self.now.grammar.now.text.now) (readers (strictly self.now.grammar.now.text.now) self.now.grammar.now.depth) may) (map view_gen given) (place_of tokens.old)) result tokens.new }
    {
        let mut found = given;
        let mut turns = tokens.left();
        while tokens.sees(Symbol::Comma) {
            if turns == 0 {
                return Err(tokens.refusal(self.grammar.text));
            }
            turns -= 1;
            found = self.another_generic(tokens, may, found)?;
        }
        Ok(found)
    }

    #[tactic(auto, unfolding(luau_grammar::specs::Reading::separated))]
    fn some_generics(
        &self,
        tokens: &mut Tokens<'_, '_>,
        may: bool,
    ) -> Result<Items<Gen>, ParseError>
        requires { Nests self.now.grammar.now.text.now self.now.grammar.now.depth (E.pre self.now.grammar.now.exp) (E.post self.now.grammar.now.exp) (T.pre self.now.grammar.now.typ) (T.post self.now.grammar.now.typ) (B.pre self.now.grammar.now.block) (B.post self.now.grammar.now.block) }
        ensures { Reads (map view_gen) (reading.separated (strictly self.now.grammar.now.text.now) (written.generic (strictly self.now.grammar.now.text.now) (readers (strictly self.now.grammar.now.text.now) self.now.grammar.now.depth) may) (place_of tokens.old)) result tokens.new }
    {
        let g = self.generic(tokens, may)?;
        let mut found = Items::new(self.grammar.alloc);
        found.push(g)?;
        self.generics_from(tokens, may, found)
    }

    /// Generic parameters and `>`, behind their `<`.
    #[tactic(auto, using(phrase_reader::proofs::Lists::gens_seen), unfolding(luau_grammar::specs::ReadTypes::generics_behind))]
    fn generics_behind(
        &self,
        tokens: &mut Tokens<'_, '_>,
        may: bool,
    ) -> Result<Items<Gen>, ParseError>
        requires { Nests self.now.grammar.now.text.now self.now.grammar.now.depth (E.pre self.now.grammar.now.exp) (E.post self.now.grammar.now.exp) (T.pre self.now.grammar.now.typ) (T.post self.now.grammar.now.typ) (B.pre self.now.grammar.now.block) (B.post self.now.grammar.now.block) }
        ensures { Reads view_gens (written.generics_behind (strictly self.now.grammar.now.text.now) (readers (strictly self.now.grammar.now.text.now) self.now.grammar.now.depth) may (place_of tokens.old)) result tokens.new }
    {
        let found = self.some_generics(tokens, may)?;
        let _close = tokens.expect(self.grammar.text, Symbol::Greater)?;
        Ok(found)
    }

    /// `<` generic parameters `>`, where it stands, with defaults where they may stand.
    #[tactic(auto, unfolding(luau_grammar::specs::ReadTypes::generics))]
    pub fn generics(&self, tokens: &mut Tokens<'_, '_>, may: bool) -> Result<Items<Gen>, ParseError>
        requires { Nests self.now.grammar.now.text.now self.now.grammar.now.depth (E.pre self.now.grammar.now.exp) (E.post self.now.grammar.now.exp) (T.pre self.now.grammar.now.typ) (T.post self.now.grammar.now.typ) (B.pre self.now.grammar.now.block) (B.post self.now.grammar.now.block) }
        ensures { Reads view_gens (written.generics (strictly self.now.grammar.now.text.now) (readers (strictly self.now.grammar.now.text.now) self.now.grammar.now.depth) may (place_of tokens.old)) result tokens.new }
    {
        if !tokens.sees(Symbol::Less) {
            return Ok(Items::new(self.grammar.alloc));
        }
        let _open = tokens.expect(self.grammar.text, Symbol::Less)?;
        self.generics_behind(tokens, may)
    }
}
