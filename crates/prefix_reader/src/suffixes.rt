//! Names and expressions in parentheses, with indices, fields and calls behind them; and table constructors.
ghost use Rattle.std.specs.Prelude.{◌≡◌, ◌&&◌, not, map, IfOk};
ghost use Rattle.luau_tree.specs.Tree as tree;
ghost use Rattle.luau_grammar.specs.declared.symbol.Symbol.TheVariants as s;
ghost use Rattle.luau_grammar.specs.Places as places;
ghost use Rattle.luau_grammar.specs.Reading as reading;
ghost use Rattle.luau_grammar.specs.ReadTypes as types;
ghost use Rattle.luau_grammar.specs.ReadPhrases as phrases;
ghost use Rattle.prefix_reader.specs.SeenFields.{seen_fields};
ghost use Rattle.luau_tree.specs.View.{view_expr, view_exprs, view_item, view_items};
ghost use Rattle.phrase_reader.specs.Nests.{Nests};
ghost use Rattle.phrase_reader.specs.Outcomes.{Reads, place_of};
ghost use Rattle.luau_grammar.specs.Reading.{strictly};
ghost use Rattle.luau_grammar.specs.ReadModules.{readers};
ghost use Rattle.luau_grammar.specs.ReadExpressions as values;

use crate::reader::Prefixes;
use luau_grammar::{ParseError, Symbol};
use luau_tree::exprs::{
    at_expr, call_expr, index_expr, method_expr, name_expr, paren_expr, str_expr, table_expr,
};
use luau_tree::parts::{field_item, keyed_item, plain_item};
use luau_tree::{Block, Expr, ExprId, Item, TypeSyntax};
use phrase_reader::{Listed, Tokens, deeper, one};
use sqlite_items::Items;
use std::alloc::{AllocError, Global};

/// The items of a table constructor so far, and whether an item may follow.
#[derive(Drop)]
pub struct Fields {
    items: Items<Item>,
    open_ended: bool,
}

/// Whether another item of a table constructor stands at a place.
fn goes_on(tokens: &Tokens<'_, '_>, given: &Fields) -> bool
    ensures { result ≡ (given.now.open_ended && not (places.sees s.RightBrace (place_of tokens.now))) }
{
    given.open_ended && !tokens.sees(Symbol::RightBrace)
}

/// One expression alone, as arguments.
fn argument(alloc: Global, e: Expr) -> Result<Items<Expr>, AllocError>
    ensures { IfOk result (λ es. view_exprs es ≡ tree.more_exprs (view_expr e) tree.no_exprs) }
{
    one(alloc, e)
}

impl<
    'g,
    's,
    E: Fn(Global, &[u8], &mut Tokens<'_, '_>, usize) -> Result<Expr, ParseError>,
    T: Fn(
        Global,
        &[u8],
        &mut Tokens<'_, '_>,
        usize,
        Option<Listed>,
    ) -> Result<TypeSyntax, ParseError>,
    B: Fn(Global, &[u8], &mut Tokens<'_, '_>, usize) -> Result<Block, ParseError>,
> Prefixes<'g, 's, E, T, B> {
    /// One more expression behind a comma.
    #[tactic(auto)]
    fn another_expression(
        &self,
        tokens: &mut Tokens<'_, '_>,
        mut found: Items<Expr>,
    ) -> Result<Items<Expr>, ParseError>
        requires { Nests self.now.grammar.now.text.now self.now.grammar.now.depth (E.pre self.now.grammar.now.exp) (E.post self.now.grammar.now.exp) (T.pre self.now.grammar.now.typ) (T.post self.now.grammar.now.typ) (B.pre self.now.grammar.now.block) (B.post self.now.grammar.now.block) }
        ensures { Reads (map view_expr) (reading.another (strictly self.now.grammar.now.text.now) (phrases.expression (strictly self.now.grammar.now.text.now) (readers (strictly self.now.grammar.now.text.now) self.now.grammar.now.depth)) (map view_expr found) (place_of tokens.old)) result tokens.new }
    {
        let _comma = tokens.expect(self.grammar.text, Symbol::Comma)?;
        let e = self.grammar.expression(tokens)?;
        found.push(e)?;
        Ok(found)
    }

    /// Expressions with commas between them.
    #[tactic(auto, unfolding(luau_grammar::specs::ReadExpressions::expressions, luau_grammar::specs::Reading::separated, luau_grammar::specs::Reading::separated_from))]
    pub fn expressions(&self, tokens: &mut Tokens<'_, '_>) -> Result<Items<Expr>, ParseError>
        requires { Nests self.now.grammar.now.text.now self.now.grammar.now.depth (E.pre self.now.grammar.now.exp) (E.post self.now.grammar.now.exp) (T.pre self.now.grammar.now.typ) (T.post self.now.grammar.now.typ) (B.pre self.now.grammar.now.block) (B.post self.now.grammar.now.block) }
        ensures { Reads (map view_expr) (values.expressions (strictly self.now.grammar.now.text.now) (readers (strictly self.now.grammar.now.text.now) self.now.grammar.now.depth) (place_of tokens.old)) result tokens.new }
    {
        let first = self.grammar.expression(tokens)?;
        let mut found = one(self.grammar.alloc, first)?;
        let mut turns = tokens.left();
        while tokens.sees(Symbol::Comma) {
            if turns == 0 {
                return Err(tokens.refusal(self.grammar.text));
            }
            turns -= 1;
            found = self.another_expression(tokens, found)?;
        }
        Ok(found)
    }

    #[tactic(auto, unfolding(luau_grammar::specs::ReadExpressions::keyed))]
    fn keyed(&self, tokens: &mut Tokens<'_, '_>) -> Result<Item, ParseError>
        requires { Nests self.now.grammar.now.text.now self.now.grammar.now.depth (E.pre self.now.grammar.now.exp) (E.post self.now.grammar.now.exp) (T.pre self.now.grammar.now.typ) (T.post self.now.grammar.now.typ) (B.pre self.now.grammar.now.block) (B.post self.now.grammar.now.block) }
        ensures { Reads view_item (values.keyed (strictly self.now.grammar.now.text.now) (readers (strictly self.now.grammar.now.text.now) self.now.grammar.now.depth) (place_of tokens.old)) result tokens.new }
    {
        let _open = tokens.expect(self.grammar.text, Symbol::LeftBracket)?;
        let key = self.grammar.expression(tokens)?;
        let _close = tokens.expect(self.grammar.text, Symbol::RightBracket)?;
        let _sign = tokens.expect(self.grammar.text, Symbol::Assign)?;
        let value = self.grammar.expression(tokens)?;
        Ok(keyed_item(key, value))
    }

    #[tactic(auto, unfolding(luau_grammar::specs::ReadExpressions::field))]
    fn field(&self, tokens: &mut Tokens<'_, '_>) -> Result<Item, ParseError>
        requires { Nests self.now.grammar.now.text.now self.now.grammar.now.depth (E.pre self.now.grammar.now.exp) (E.post self.now.grammar.now.exp) (T.pre self.now.grammar.now.typ) (T.post self.now.grammar.now.typ) (B.pre self.now.grammar.now.block) (B.post self.now.grammar.now.block) }
        ensures { Reads view_item (values.field (strictly self.now.grammar.now.text.now) (readers (strictly self.now.grammar.now.text.now) self.now.grammar.now.depth) (place_of tokens.old)) result tokens.new }
    {
        let name = tokens.name(self.grammar.alloc, self.grammar.text)?;
        let _sign = tokens.expect(self.grammar.text, Symbol::Assign)?;
        let value = self.grammar.expression(tokens)?;
        Ok(field_item(name, value))
    }

    #[tactic(auto, unfolding(luau_grammar::specs::ReadExpressions::item))]
    fn item(&self, tokens: &mut Tokens<'_, '_>) -> Result<Item, ParseError>
        requires { Nests self.now.grammar.now.text.now self.now.grammar.now.depth (E.pre self.now.grammar.now.exp) (E.post self.now.grammar.now.exp) (T.pre self.now.grammar.now.typ) (T.post self.now.grammar.now.typ) (B.pre self.now.grammar.now.block) (B.post self.now.grammar.now.block) }
        ensures { Reads view_item (values.item (strictly self.now.grammar.now.text.now) (readers (strictly self.now.grammar.now.text.now) self.now.grammar.now.depth) (place_of tokens.old)) result tokens.new }
    {
        if tokens.sees(Symbol::LeftBracket) {
            return self.keyed(tokens);
        }
        if tokens.sees(Symbol::Name) && tokens.sees_behind(Symbol::Assign) {
            return self.field(tokens);
        }
        let value = self.grammar.expression(tokens)?;
        Ok(plain_item(value))
    }

    /// One more item, and whether an item may follow.
    #[tactic(auto)]
    fn another_item(&self, tokens: &mut Tokens<'_, '_>, given: Fields) -> Result<Fields, ParseError>
        requires { Nests self.now.grammar.now.text.now self.now.grammar.now.depth (E.pre self.now.grammar.now.exp) (E.post self.now.grammar.now.exp) (T.pre self.now.grammar.now.typ) (T.post self.now.grammar.now.typ) (B.pre self.now.grammar.now.block) (B.post self.now.grammar.now.block) }
        ensures { Reads seen_fields (types.one_braced (strictly self.now.grammar.now.text.now) (values.item (strictly self.now.grammar.now.text.now) (readers (strictly self.now.grammar.now.text.now) self.now.grammar.now.depth)) (seen_fields given) (place_of tokens.old)) result tokens.new }
    {
        let x = self.item(tokens)?;
        let open_ended = tokens.separator(self.grammar.text)?;
        let mut items = given.items;
        items.push(x)?;
        Ok(Fields { items, open_ended })
    }

    #[tactic(auto, using(phrase_reader::proofs::Lists::items_seen), unfolding(luau_grammar::specs::ReadExpressions::fields, luau_grammar::specs::ReadTypes::braced))]
    fn fields(&self, tokens: &mut Tokens<'_, '_>) -> Result<Items<Item>, ParseError>
        requires { Nests self.now.grammar.now.text.now self.now.grammar.now.depth (E.pre self.now.grammar.now.exp) (E.post self.now.grammar.now.exp) (T.pre self.now.grammar.now.typ) (T.post self.now.grammar.now.typ) (B.pre self.now.grammar.now.block) (B.post self.now.grammar.now.block) }
        ensures { Reads view_items (values.fields (strictly self.now.grammar.now.text.now) (readers (strictly self.now.grammar.now.text.now) self.now.grammar.now.depth) (place_of tokens.old)) result tokens.new }
    {
        let mut given = Fields {
            items: Items::new(self.grammar.alloc),
            open_ended: true,
        };
        let mut turns = tokens.left();
        while goes_on(tokens, &given) {
            if turns == 0 {
                return Err(tokens.refusal(self.grammar.text));
            }
            turns -= 1;
            given = self.another_item(tokens, given)?;
        }
        Ok(given.items)
    }

    /// A table constructor, whose inside stands at a level.
    #[tactic(auto, unfolding(luau_grammar::specs::ReadExpressions::table))]
    pub fn table(&self, tokens: &mut Tokens<'_, '_>, inside: u32) -> Result<Items<Item>, ParseError>
        requires { Nests self.now.grammar.now.text.now self.now.grammar.now.depth (E.pre self.now.grammar.now.exp) (E.post self.now.grammar.now.exp) (T.pre self.now.grammar.now.typ) (T.post self.now.grammar.now.typ) (B.pre self.now.grammar.now.block) (B.post self.now.grammar.now.block) }
        ensures { Reads view_items (values.table (strictly self.now.grammar.now.text.now) (readers (strictly self.now.grammar.now.text.now) self.now.grammar.now.depth) inside (place_of tokens.old)) result tokens.new }
    {
        let _open = tokens.expect(self.grammar.text, Symbol::LeftBrace)?;
        tokens.set_level(inside);
        let found = self.fields(tokens)?;
        let _close = tokens.expect(self.grammar.text, Symbol::RightBrace)?;
        Ok(found)
    }

    #[tactic(auto, using(phrase_reader::proofs::Lists::exprs_seen), unfolding(luau_grammar::specs::ReadExpressions::in_parens))]
    fn in_parens(&self, tokens: &mut Tokens<'_, '_>) -> Result<Items<Expr>, ParseError>
        requires { Nests self.now.grammar.now.text.now self.now.grammar.now.depth (E.pre self.now.grammar.now.exp) (E.post self.now.grammar.now.exp) (T.pre self.now.grammar.now.typ) (T.post self.now.grammar.now.typ) (B.pre self.now.grammar.now.block) (B.post self.now.grammar.now.block) }
        ensures { Reads view_exprs (values.in_parens (strictly self.now.grammar.now.text.now) (readers (strictly self.now.grammar.now.text.now) self.now.grammar.now.depth) (place_of tokens.old)) result tokens.new }
    {
        if tokens.sees(Symbol::RightParen) {
            return Ok(Items::new(self.grammar.alloc));
        }
        self.expressions(tokens)
    }

    #[tactic(auto, unfolding(luau_grammar::specs::ReadExpressions::list_arguments))]
    fn list_arguments(
        &self,
        tokens: &mut Tokens<'_, '_>,
        inside: u32,
    ) -> Result<Items<Expr>, ParseError>
        requires { Nests self.now.grammar.now.text.now self.now.grammar.now.depth (E.pre self.now.grammar.now.exp) (E.post self.now.grammar.now.exp) (T.pre self.now.grammar.now.typ) (T.post self.now.grammar.now.typ) (B.pre self.now.grammar.now.block) (B.post self.now.grammar.now.block) }
        ensures { Reads view_exprs (values.list_arguments (strictly self.now.grammar.now.text.now) (readers (strictly self.now.grammar.now.text.now) self.now.grammar.now.depth) inside (place_of tokens.old)) result tokens.new }
    {
        tokens.open_arguments(self.grammar.text)?;
        tokens.set_level(inside);
        let args = self.in_parens(tokens)?;
        let _close = tokens.expect(self.grammar.text, Symbol::RightParen)?;
        Ok(args)
    }

    #[tactic(auto, unfolding(luau_grammar::specs::ReadExpressions::table_argument))]
    fn table_argument(
        &self,
        tokens: &mut Tokens<'_, '_>,
        inside: u32,
    ) -> Result<Items<Expr>, ParseError>
        requires { Nests self.now.grammar.now.text.now self.now.grammar.now.depth (E.pre self.now.grammar.now.exp) (E.post self.now.grammar.now.exp) (T.pre self.now.grammar.now.typ) (T.post self.now.grammar.now.typ) (B.pre self.now.grammar.now.block) (B.post self.now.grammar.now.block) }
        ensures { Reads view_exprs (values.table_argument (strictly self.now.grammar.now.text.now) (readers (strictly self.now.grammar.now.text.now) self.now.grammar.now.depth) inside (place_of tokens.old)) result tokens.new }
    {
        let from = tokens.start();
        let fields = self.table(tokens, inside)?;
        let span = tokens.span_from(from);
        let args = argument(self.grammar.alloc, table_expr(ExprId(0), span, fields))?;
        Ok(args)
    }

    #[tactic(auto, unfolding(luau_grammar::specs::ReadExpressions::string_argument))]
    fn string_argument(
        &self,
        tokens: &mut Tokens<'_, '_>,
        inside: u32,
    ) -> Result<Items<Expr>, ParseError>
        requires { Nests self.now.grammar.now.text.now self.now.grammar.now.depth (E.pre self.now.grammar.now.exp) (E.post self.now.grammar.now.exp) (T.pre self.now.grammar.now.typ) (T.post self.now.grammar.now.typ) (B.pre self.now.grammar.now.block) (B.post self.now.grammar.now.block) }
        ensures { Reads view_exprs (values.string_argument (strictly self.now.grammar.now.text.now) (readers (strictly self.now.grammar.now.text.now) self.now.grammar.now.depth) inside (place_of tokens.old)) result tokens.new }
    {
        let from = tokens.start();
        let value = tokens.string(self.grammar.alloc, self.grammar.text, Symbol::Text)?;
        tokens.set_level(inside);
        let span = tokens.span_from(from);
        let args = argument(self.grammar.alloc, str_expr(ExprId(0), span, value))?;
        Ok(args)
    }

    /// The arguments of a call, whose inside stands at a level.
    #[tactic(auto, unfolding(luau_grammar::specs::ReadExpressions::arguments))]
    fn arguments(&self, tokens: &mut Tokens<'_, '_>, inside: u32) -> Result<Items<Expr>, ParseError>
        requires { Nests self.now.grammar.now.text.now self.now.grammar.now.depth (E.pre self.now.grammar.now.exp) (E.post self.now.grammar.now.exp) (T.pre self.now.grammar.now.typ) (T.post self.now.grammar.now.typ) (B.pre self.now.grammar.now.block) (B.post self.now.grammar.now.block) }
        ensures { Reads view_exprs (values.arguments (strictly self.now.grammar.now.text.now) (readers (strictly self.now.grammar.now.text.now) self.now.grammar.now.depth) inside (place_of tokens.old)) result tokens.new }
    {
        if tokens.sees(Symbol::LeftBrace) {
            self.table_argument(tokens, inside)
        } else if tokens.sees(Symbol::Text) {
            self.string_argument(tokens, inside)
        } else {
            self.list_arguments(tokens, inside)
        }
    }

    #[tactic(auto, unfolding(luau_grammar::specs::ReadExpressions::paren))]
    fn paren(&self, tokens: &mut Tokens<'_, '_>) -> Result<Expr, ParseError>
        requires { Nests self.now.grammar.now.text.now self.now.grammar.now.depth (E.pre self.now.grammar.now.exp) (E.post self.now.grammar.now.exp) (T.pre self.now.grammar.now.typ) (T.post self.now.grammar.now.typ) (B.pre self.now.grammar.now.block) (B.post self.now.grammar.now.block) }
        ensures { Reads view_expr (values.paren (strictly self.now.grammar.now.text.now) (readers (strictly self.now.grammar.now.text.now) self.now.grammar.now.depth) (place_of tokens.old)) result tokens.new }
    {
        let from = tokens.start();
        let _open = tokens.expect(self.grammar.text, Symbol::LeftParen)?;
        let e = self.grammar.expression(tokens)?;
        let _close = tokens.expect(self.grammar.text, Symbol::RightParen)?;
        let span = tokens.span_from(from);
        Ok(paren_expr(self.grammar.alloc, ExprId(0), span, e)?)
    }

    /// A name.
    #[tactic(auto, unfolding(luau_grammar::specs::ReadExpressions::name_expression))]
    pub fn name_expression(&self, tokens: &mut Tokens<'_, '_>) -> Result<Expr, ParseError>
        requires { Nests self.now.grammar.now.text.now self.now.grammar.now.depth (E.pre self.now.grammar.now.exp) (E.post self.now.grammar.now.exp) (T.pre self.now.grammar.now.typ) (T.post self.now.grammar.now.typ) (B.pre self.now.grammar.now.block) (B.post self.now.grammar.now.block) }
        ensures { Reads view_expr (values.name_expression (strictly self.now.grammar.now.text.now) (readers (strictly self.now.grammar.now.text.now) self.now.grammar.now.depth) (place_of tokens.old)) result tokens.new }
    {
        let from = tokens.start();
        let name = tokens.name(self.grammar.alloc, self.grammar.text)?;
        let span = tokens.span_from(from);
        Ok(name_expr(ExprId(0), span, name))
    }

    #[tactic(auto, unfolding(luau_grammar::specs::ReadExpressions::primary))]
    fn primary(&self, tokens: &mut Tokens<'_, '_>) -> Result<Expr, ParseError>
        requires { Nests self.now.grammar.now.text.now self.now.grammar.now.depth (E.pre self.now.grammar.now.exp) (E.post self.now.grammar.now.exp) (T.pre self.now.grammar.now.typ) (T.post self.now.grammar.now.typ) (B.pre self.now.grammar.now.block) (B.post self.now.grammar.now.block) }
        ensures { Reads view_expr (values.primary (strictly self.now.grammar.now.text.now) (readers (strictly self.now.grammar.now.text.now) self.now.grammar.now.depth) (place_of tokens.old)) result tokens.new }
    {
        if tokens.sees(Symbol::LeftParen) {
            self.paren(tokens)
        } else {
            self.name_expression(tokens)
        }
    }

    /// `.NAME`, behind what begins at an offset.
    #[tactic(auto, unfolding(luau_grammar::specs::ReadExpressions::index))]
    pub fn index(
        &self,
        tokens: &mut Tokens<'_, '_>,
        from: u32,
        base: Expr,
    ) -> Result<Expr, ParseError>
        requires { Nests self.now.grammar.now.text.now self.now.grammar.now.depth (E.pre self.now.grammar.now.exp) (E.post self.now.grammar.now.exp) (T.pre self.now.grammar.now.typ) (T.post self.now.grammar.now.typ) (B.pre self.now.grammar.now.block) (B.post self.now.grammar.now.block) }
        ensures { Reads view_expr (values.index (strictly self.now.grammar.now.text.now) (readers (strictly self.now.grammar.now.text.now) self.now.grammar.now.depth) from (view_expr base) (place_of tokens.old)) result tokens.new }
    {
        let _dot = tokens.expect(self.grammar.text, Symbol::Dot)?;
        tokens.raise(self.grammar.text)?;
        let name = tokens.name(self.grammar.alloc, self.grammar.text)?;
        let span = tokens.span_from(from);
        Ok(index_expr(self.grammar.alloc, ExprId(0), span, base, name)?)
    }

    #[tactic(auto, unfolding(luau_grammar::specs::ReadExpressions::at))]
    fn at(&self, tokens: &mut Tokens<'_, '_>, from: u32, base: Expr) -> Result<Expr, ParseError>
        requires { Nests self.now.grammar.now.text.now self.now.grammar.now.depth (E.pre self.now.grammar.now.exp) (E.post self.now.grammar.now.exp) (T.pre self.now.grammar.now.typ) (T.post self.now.grammar.now.typ) (B.pre self.now.grammar.now.block) (B.post self.now.grammar.now.block) }
        ensures { Reads view_expr (values.at (strictly self.now.grammar.now.text.now) (readers (strictly self.now.grammar.now.text.now) self.now.grammar.now.depth) from (view_expr base) (place_of tokens.old)) result tokens.new }
    {
        let _open = tokens.expect(self.grammar.text, Symbol::LeftBracket)?;
        tokens.raise(self.grammar.text)?;
        let key = self.grammar.expression(tokens)?;
        let _close = tokens.expect(self.grammar.text, Symbol::RightBracket)?;
        let span = tokens.span_from(from);
        Ok(at_expr(self.grammar.alloc, ExprId(0), span, base, key)?)
    }

    #[tactic(auto, unfolding(luau_grammar::specs::ReadExpressions::method))]
    fn method(&self, tokens: &mut Tokens<'_, '_>, from: u32, base: Expr) -> Result<Expr, ParseError>
        requires { Nests self.now.grammar.now.text.now self.now.grammar.now.depth (E.pre self.now.grammar.now.exp) (E.post self.now.grammar.now.exp) (T.pre self.now.grammar.now.typ) (T.post self.now.grammar.now.typ) (B.pre self.now.grammar.now.block) (B.post self.now.grammar.now.block) }
        ensures { Reads view_expr (values.method (strictly self.now.grammar.now.text.now) (readers (strictly self.now.grammar.now.text.now) self.now.grammar.now.depth) from (view_expr base) (place_of tokens.old)) result tokens.new }
    {
        let _colon = tokens.expect(self.grammar.text, Symbol::Colon)?;
        tokens.raise(self.grammar.text)?;
        let name_from = tokens.start();
        let name = tokens.name(self.grammar.alloc, self.grammar.text)?;
        let name_span = tokens.span_from(name_from);
        let inside = tokens.level();
        let args = self.arguments(tokens, inside)?;
        let span = tokens.span_from(from);
        Ok(method_expr(
            self.grammar.alloc,
            ExprId(0),
            span,
            base,
            name,
            name_span,
            args,
        )?)
    }

    #[tactic(auto, unfolding(luau_grammar::specs::ReadExpressions::call))]
    fn call(&self, tokens: &mut Tokens<'_, '_>, from: u32, callee: Expr) -> Result<Expr, ParseError>
        requires { Nests self.now.grammar.now.text.now self.now.grammar.now.depth (E.pre self.now.grammar.now.exp) (E.post self.now.grammar.now.exp) (T.pre self.now.grammar.now.typ) (T.post self.now.grammar.now.typ) (B.pre self.now.grammar.now.block) (B.post self.now.grammar.now.block) }
        ensures { Reads view_expr (values.call (strictly self.now.grammar.now.text.now) (readers (strictly self.now.grammar.now.text.now) self.now.grammar.now.depth) from (view_expr callee) (place_of tokens.old)) result tokens.new }
    {
        let outer = tokens.level();
        let args = self.arguments(tokens, deeper(outer))?;
        let span = tokens.span_from(from);
        Ok(call_expr(self.grammar.alloc, ExprId(0), span, callee, args)?)
    }

    #[tactic(auto, unfolding(luau_grammar::specs::ReadExpressions::suffix))]
    fn suffix(&self, tokens: &mut Tokens<'_, '_>, from: u32, base: Expr) -> Result<Expr, ParseError>
        requires { Nests self.now.grammar.now.text.now self.now.grammar.now.depth (E.pre self.now.grammar.now.exp) (E.post self.now.grammar.now.exp) (T.pre self.now.grammar.now.typ) (T.post self.now.grammar.now.typ) (B.pre self.now.grammar.now.block) (B.post self.now.grammar.now.block) }
        ensures { Reads view_expr (values.suffix (strictly self.now.grammar.now.text.now) (readers (strictly self.now.grammar.now.text.now) self.now.grammar.now.depth) from (view_expr base) (place_of tokens.old)) result tokens.new }
    {
        if tokens.sees(Symbol::Dot) {
            self.index(tokens, from, base)
        } else if tokens.sees(Symbol::LeftBracket) {
            self.at(tokens, from, base)
        } else if tokens.sees(Symbol::Colon) {
            self.method(tokens, from, base)
        } else {
            self.call(tokens, from, base)
        }
    }

    /// A name or an expression in parentheses, with indices, fields and calls behind it.
    #[tactic(auto, unfolding(luau_grammar::specs::ReadExpressions::prefix))]
    pub fn prefix(&self, tokens: &mut Tokens<'_, '_>) -> Result<Expr, ParseError>
        requires { Nests self.now.grammar.now.text.now self.now.grammar.now.depth (E.pre self.now.grammar.now.exp) (E.post self.now.grammar.now.exp) (T.pre self.now.grammar.now.typ) (T.post self.now.grammar.now.typ) (B.pre self.now.grammar.now.block) (B.post self.now.grammar.now.block) }
        ensures { Reads view_expr (values.prefix (strictly self.now.grammar.now.text.now) (readers (strictly self.now.grammar.now.text.now) self.now.grammar.now.depth) (place_of tokens.old)) result tokens.new }
    {
        let from = tokens.start();
        let mut e = self.primary(tokens)?;
        let mut turns = tokens.left();
        while tokens.sees_suffix() {
            if turns == 0 {
                return Err(tokens.refusal(self.grammar.text));
            }
            turns -= 1;
            e = self.suffix(tokens, from, e)?;
        }
        Ok(e)
    }
}
