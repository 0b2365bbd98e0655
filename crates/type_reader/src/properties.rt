//! Table types and array types.
ghost use Rattle.std.specs.Prelude.{◌≡◌};
ghost use Rattle.luau_tree.specs.View.{view_prop, view_prop_key, view_props, view_type};
ghost use Rattle.luau_grammar.specs.Reading as reading;
ghost use Rattle.type_reader.specs.SeenProperties.{seen_properties};
ghost use Rattle.phrase_reader.specs.Nests.{Nests};
ghost use Rattle.phrase_reader.specs.Outcomes.{Reads, place_of, itself};
ghost use Rattle.luau_grammar.specs.Reading.{strictly};
ghost use Rattle.luau_grammar.specs.ReadModules.{readers};
ghost use Rattle.luau_grammar.specs.ReadTypes as written;

use crate::reader::Types;
use luau_grammar::{ParseError, Symbol};
use luau_tree::parts::{indexer_key, name_key, prop_of};
use luau_tree::types::{array_type, table_type};
use luau_tree::{Access, Block, Expr, Prop, PropKey, TypeSyntax};
use phrase_reader::{Listed, Tokens};
use sqlite_items::Items;
use std::alloc::Global;

/// What was read of the properties in braces, and whether one may follow.
#[derive(Drop)]
pub struct Properties {
    pub items: Items<Prop>,
    pub open_ended: bool,
}

/// Whether another property follows.
fn goes_on(found: &Properties, tokens: &Tokens<'_, '_>) -> bool
    ensures { result ≡ written.goes_braced (seen_properties found.now) (place_of tokens.now) }
{
    found.open_ended && !tokens.sees(Symbol::RightBrace)
}

impl<
    'g,
    's,
    E: Fn(Global, &[u8], &mut Tokens<'_, '_>, usize) -> Result<Expr, ParseError>,
    T: Fn(
        Global,
        &[u8],
        &mut Tokens<'_, '_>,
        usize,
        Option<Listed>,
    ) -> Result<TypeSyntax, ParseError>,
    B: Fn(Global, &[u8], &mut Tokens<'_, '_>, usize) -> Result<Block, ParseError>,
> Types<'g, 's, E, T, B> {
    #[tactic(auto, unfolding(luau_grammar::specs::ReadTypes::access))]
    fn access(&self, tokens: &mut Tokens<'_, '_>) -> Result<Access, ParseError>
        requires { Nests self.now.grammar.now.text.now self.now.grammar.now.depth (E.pre self.now.grammar.now.exp) (E.post self.now.grammar.now.exp) (T.pre self.now.grammar.now.typ) (T.post self.now.grammar.now.typ) (B.pre self.now.grammar.now.block) (B.post self.now.grammar.now.block) }
        ensures { Reads itself (written.access (strictly self.now.grammar.now.text.now) (readers (strictly self.now.grammar.now.text.now) self.now.grammar.now.depth) (place_of tokens.old)) result tokens.new }
    {
        if tokens.sees_access(b"read") {
            let _word = tokens.next(self.grammar.text)?;
            return Ok(Access::Read);
        }
        if tokens.sees_access(b"write") {
            let _word = tokens.next(self.grammar.text)?;
            return Ok(Access::Write);
        }
        Ok(Access::Both)
    }

    #[tactic(auto, unfolding(luau_grammar::specs::ReadTypes::indexer))]
    fn indexer(&self, tokens: &mut Tokens<'_, '_>) -> Result<PropKey, ParseError>
        requires { Nests self.now.grammar.now.text.now self.now.grammar.now.depth (E.pre self.now.grammar.now.exp) (E.post self.now.grammar.now.exp) (T.pre self.now.grammar.now.typ) (T.post self.now.grammar.now.typ) (B.pre self.now.grammar.now.block) (B.post self.now.grammar.now.block) }
        ensures { Reads view_prop_key (written.indexer (strictly self.now.grammar.now.text.now) (readers (strictly self.now.grammar.now.text.now) self.now.grammar.now.depth) (place_of tokens.old)) result tokens.new }
    {
        let _open = tokens.expect(self.grammar.text, Symbol::LeftBracket)?;
        let t = self.grammar.typ(tokens, None)?;
        let _close = tokens.expect(self.grammar.text, Symbol::RightBracket)?;
        let _colon = tokens.expect(self.grammar.text, Symbol::Colon)?;
        Ok(indexer_key(t))
    }

    #[tactic(auto, unfolding(luau_grammar::specs::ReadTypes::property_name))]
    fn property_name(&self, tokens: &mut Tokens<'_, '_>) -> Result<PropKey, ParseError>
        requires { Nests self.now.grammar.now.text.now self.now.grammar.now.depth (E.pre self.now.grammar.now.exp) (E.post self.now.grammar.now.exp) (T.pre self.now.grammar.now.typ) (T.post self.now.grammar.now.typ) (B.pre self.now.grammar.now.block) (B.post self.now.grammar.now.block) }
        ensures { Reads view_prop_key (written.property_name (strictly self.now.grammar.now.text.now) (readers (strictly self.now.grammar.now.text.now) self.now.grammar.now.depth) (place_of tokens.old)) result tokens.new }
    {
        let name = tokens.name(self.grammar.alloc, self.grammar.text)?;
        let _colon = tokens.expect(self.grammar.text, Symbol::Colon)?;
        Ok(name_key(name))
    }

    #[tactic(auto, unfolding(luau_grammar::specs::ReadTypes::key))]
    fn property_key(&self, tokens: &mut Tokens<'_, '_>) -> Result<PropKey, ParseError>
        requires { Nests self.now.grammar.now.text.now self.now.grammar.now.depth (E.pre self.now.grammar.now.exp) (E.post self.now.grammar.now.exp) (T.pre self.now.grammar.now.typ) (T.post self.now.grammar.now.typ) (B.pre self.now.grammar.now.block) (B.post self.now.grammar.now.block) }
        ensures { Reads view_prop_key (written.key (strictly self.now.grammar.now.text.now) (readers (strictly self.now.grammar.now.text.now) self.now.grammar.now.depth) (place_of tokens.old)) result tokens.new }
    {
        if tokens.sees(Symbol::LeftBracket) {
            self.indexer(tokens)
        } else {
            self.property_name(tokens)
        }
    }

    #[tactic(auto, unfolding(luau_grammar::specs::ReadTypes::property))]
    fn property(&self, tokens: &mut Tokens<'_, '_>) -> Result<Prop, ParseError>
        requires { Nests self.now.grammar.now.text.now self.now.grammar.now.depth (E.pre self.now.grammar.now.exp) (E.post self.now.grammar.now.exp) (T.pre self.now.grammar.now.typ) (T.post self.now.grammar.now.typ) (B.pre self.now.grammar.now.block) (B.post self.now.grammar.now.block) }
        ensures { Reads view_prop (written.property (strictly self.now.grammar.now.text.now) (readers (strictly self.now.grammar.now.text.now) self.now.grammar.now.depth) (place_of tokens.old)) result tokens.new }
    {
        let how = self.access(tokens)?;
        let what = self.property_key(tokens)?;
        let t = self.grammar.typ(tokens, None)?;
        Ok(prop_of(how, what, t))
    }

    #[tactic(auto)]
    fn another_property(
        &self,
        tokens: &mut Tokens<'_, '_>,
        found: Properties,
    ) -> Result<Properties, ParseError>
        requires { Nests self.now.grammar.now.text.now self.now.grammar.now.depth (E.pre self.now.grammar.now.exp) (E.post self.now.grammar.now.exp) (T.pre self.now.grammar.now.typ) (T.post self.now.grammar.now.typ) (B.pre self.now.grammar.now.block) (B.post self.now.grammar.now.block) }
        ensures { Reads seen_properties (written.one_braced (strictly self.now.grammar.now.text.now) (written.property (strictly self.now.grammar.now.text.now) (readers (strictly self.now.grammar.now.text.now) self.now.grammar.now.depth)) (seen_properties found) (place_of tokens.old)) result tokens.new }
    {
        let x = self.property(tokens)?;
        let open_ended = tokens.separator(self.grammar.text)?;
        let mut items = found.items;
        items.push(x)?;
        Ok(Properties { items, open_ended })
    }

    #[tactic(auto)]
    fn properties_from(
        &self,
        tokens: &mut Tokens<'_, '_>,
        given: Properties,
    ) -> Result<Properties, ParseError>
        requires { Nests self.now.grammar.now.text.now self.now.grammar.now.depth (E.pre self.now.grammar.now.exp) (E.post self.now.grammar.now.exp) (T.pre self.now.grammar.now.typ) (T.post self.now.grammar.now.typ) (B.pre self.now.grammar.now.block) (B.post self.now.grammar.now.block) }
        ensures { Reads seen_properties (reading.repeat (strictly self.now.grammar.now.text.now) written.goes_braced (written.one_braced (strictly self.now.grammar.now.text.now) (written.property (strictly self.now.grammar.now.text.now) (readers (strictly self.now.grammar.now.text.now) self.now.grammar.now.depth))) (seen_properties given) (place_of tokens.old)) result tokens.new }
    {
        let mut found = given;
        let mut turns = tokens.left();
        while goes_on(&found, tokens) {
            if turns == 0 {
                return Err(tokens.refusal(self.grammar.text));
            }
            turns -= 1;
            found = self.another_property(tokens, found)?;
        }
        Ok(found)
    }

    #[tactic(auto, unfolding(luau_grammar::specs::ReadTypes::braced))]
    fn properties(&self, tokens: &mut Tokens<'_, '_>) -> Result<Properties, ParseError>
        requires { Nests self.now.grammar.now.text.now self.now.grammar.now.depth (E.pre self.now.grammar.now.exp) (E.post self.now.grammar.now.exp) (T.pre self.now.grammar.now.typ) (T.post self.now.grammar.now.typ) (B.pre self.now.grammar.now.block) (B.post self.now.grammar.now.block) }
        ensures { Reads seen_properties (written.braced (strictly self.now.grammar.now.text.now) (written.property (strictly self.now.grammar.now.text.now) (readers (strictly self.now.grammar.now.text.now) self.now.grammar.now.depth)) (place_of tokens.old)) result tokens.new }
    {
        let none = Properties {
            items: Items::new(self.grammar.alloc),
            open_ended: true,
        };
        self.properties_from(tokens, none)
    }

    /// An array type, behind the `{` that begins at an offset.
    #[tactic(auto, unfolding(luau_grammar::specs::ReadTypes::array))]
    fn array_behind(&self, tokens: &mut Tokens<'_, '_>, from: u32) -> Result<TypeSyntax, ParseError>
        requires { Nests self.now.grammar.now.text.now self.now.grammar.now.depth (E.pre self.now.grammar.now.exp) (E.post self.now.grammar.now.exp) (T.pre self.now.grammar.now.typ) (T.post self.now.grammar.now.typ) (B.pre self.now.grammar.now.block) (B.post self.now.grammar.now.block) }
        ensures { Reads view_type (written.array (strictly self.now.grammar.now.text.now) (readers (strictly self.now.grammar.now.text.now) self.now.grammar.now.depth) from (place_of tokens.old)) result tokens.new }
    {
        let t = self.grammar.typ(tokens, None)?;
        let _close = tokens.expect(self.grammar.text, Symbol::RightBrace)?;
        let span = tokens.span_from(from);
        Ok(array_type(self.grammar.alloc, span, t)?)
    }

    /// A table type, behind the `{` that begins at an offset.
    #[tactic(auto, using(phrase_reader::proofs::Lists::props_seen), unfolding(luau_grammar::specs::ReadTypes::table))]
    fn table_behind(&self, tokens: &mut Tokens<'_, '_>, from: u32) -> Result<TypeSyntax, ParseError>
        requires { Nests self.now.grammar.now.text.now self.now.grammar.now.depth (E.pre self.now.grammar.now.exp) (E.post self.now.grammar.now.exp) (T.pre self.now.grammar.now.typ) (T.post self.now.grammar.now.typ) (B.pre self.now.grammar.now.block) (B.post self.now.grammar.now.block) }
        ensures { Reads view_type (written.table (strictly self.now.grammar.now.text.now) (readers (strictly self.now.grammar.now.text.now) self.now.grammar.now.depth) from (place_of tokens.old)) result tokens.new }
    {
        let found = self.properties(tokens)?;
        let _close = tokens.expect(self.grammar.text, Symbol::RightBrace)?;
        let span = tokens.span_from(from);
        Ok(table_type(span, found.items))
    }

    /// A table type or an array type.
    #[tactic(auto, unfolding(luau_grammar::specs::ReadTypes::table_or_array))]
    pub fn table_or_array(&self, tokens: &mut Tokens<'_, '_>) -> Result<TypeSyntax, ParseError>
        requires { Nests self.now.grammar.now.text.now self.now.grammar.now.depth (E.pre self.now.grammar.now.exp) (E.post self.now.grammar.now.exp) (T.pre self.now.grammar.now.typ) (T.post self.now.grammar.now.typ) (B.pre self.now.grammar.now.block) (B.post self.now.grammar.now.block) }
        ensures { Reads view_type (written.table_or_array (strictly self.now.grammar.now.text.now) (readers (strictly self.now.grammar.now.text.now) self.now.grammar.now.depth) (place_of tokens.old)) result tokens.new }
    {
        let from = tokens.start();
        let _open = tokens.expect(self.grammar.text, Symbol::LeftBrace)?;
        if tokens.sees(Symbol::RightBrace) || tokens.begins_property() {
            self.table_behind(tokens, from)
        } else {
            self.array_behind(tokens, from)
        }
    }
}
