//! Expressions without operators, by their first symbol.
ghost use Rattle.std.specs.Prelude.{map};
ghost use Rattle.luau_tree.specs.Tree as tree;
ghost use Rattle.luau_grammar.specs.ReadExpressions as values;
ghost use Rattle.luau_tree.specs.View.{view_choice, view_choices, view_expr};
ghost use Rattle.expr_reader.specs.SeenInterpolated.{seen_interpolated};
ghost use Rattle.phrase_reader.specs.Nests.{Nests};
ghost use Rattle.phrase_reader.specs.Outcomes.{Reads, place_of};
ghost use Rattle.luau_grammar.specs.Reading.{strictly};
ghost use Rattle.luau_grammar.specs.ReadModules.{readers};

use crate::interpolated::{Interpolated, begun, finished};
use crate::reader::Exprs;
use body_reader::Bodies;
use luau_grammar::{ParseError, Symbol};
use luau_tree::exprs::{
    assert_expr, false_expr, function_expr, if_else_expr, nil_expr, number_expr, str_expr,
    table_expr, true_expr, vararg_expr,
};
use luau_tree::parts::choice_of;
use luau_tree::{Block, Bytes, Choice, Expr, ExprId, TypeSyntax};
use phrase_reader::{Listed, Tokens, copy, one};
use prefix_reader::Prefixes;
use sqlite_items::Items;
use std::alloc::Global;

impl<
    'g,
    's,
    E: Fn(Global, &[u8], &mut Tokens<'_, '_>, usize) -> Result<Expr, ParseError>,
    T: Fn(
        Global,
        &[u8],
        &mut Tokens<'_, '_>,
        usize,
        Option<Listed>,
    ) -> Result<TypeSyntax, ParseError>,
    B: Fn(Global, &[u8], &mut Tokens<'_, '_>, usize) -> Result<Block, ParseError>,
> Exprs<'g, 's, E, T, B> {
    #[tactic(auto, unfolding(luau_grammar::specs::ReadExpressions::choice))]
    pub fn choice(&self, tokens: &mut Tokens<'_, '_>, word: Symbol) -> Result<Choice, ParseError>
        requires { Nests self.now.grammar.now.text.now self.now.grammar.now.depth (E.pre self.now.grammar.now.exp) (E.post self.now.grammar.now.exp) (T.pre self.now.grammar.now.typ) (T.post self.now.grammar.now.typ) (B.pre self.now.grammar.now.block) (B.post self.now.grammar.now.block) }
        ensures { Reads view_choice (values.choice (strictly self.now.grammar.now.text.now) (readers (strictly self.now.grammar.now.text.now) self.now.grammar.now.depth) word (place_of tokens.old)) result tokens.new }
    {
        let _word = tokens.expect(self.grammar.text, word)?;
        let cond = self.grammar.expression(tokens)?;
        let _then = tokens.expect(self.grammar.text, Symbol::Then)?;
        let value = self.grammar.expression(tokens)?;
        Ok(choice_of(cond, value))
    }

    #[tactic(auto, unfolding(luau_grammar::specs::ReadExpressions::another_choice))]
    pub fn another_choice(
        &self,
        tokens: &mut Tokens<'_, '_>,
        mut found: Items<Choice>,
    ) -> Result<Items<Choice>, ParseError>
        requires { Nests self.now.grammar.now.text.now self.now.grammar.now.depth (E.pre self.now.grammar.now.exp) (E.post self.now.grammar.now.exp) (T.pre self.now.grammar.now.typ) (T.post self.now.grammar.now.typ) (B.pre self.now.grammar.now.block) (B.post self.now.grammar.now.block) }
        ensures { Reads (map view_choice) (values.another_choice (strictly self.now.grammar.now.text.now) (readers (strictly self.now.grammar.now.text.now) self.now.grammar.now.depth) (map view_choice found) (place_of tokens.old)) result tokens.new }
    {
        let x = self.choice(tokens, Symbol::ElseIf)?;
        found.push(x)?;
        Ok(found)
    }

    #[tactic(auto, using(phrase_reader::proofs::Lists::choices_seen), unfolding(luau_grammar::specs::ReadExpressions::all_choices))]
    pub fn all_choices(&self, tokens: &mut Tokens<'_, '_>) -> Result<Items<Choice>, ParseError>
        requires { Nests self.now.grammar.now.text.now self.now.grammar.now.depth (E.pre self.now.grammar.now.exp) (E.post self.now.grammar.now.exp) (T.pre self.now.grammar.now.typ) (T.post self.now.grammar.now.typ) (B.pre self.now.grammar.now.block) (B.post self.now.grammar.now.block) }
        ensures { Reads view_choices (values.all_choices (strictly self.now.grammar.now.text.now) (readers (strictly self.now.grammar.now.text.now) self.now.grammar.now.depth) (place_of tokens.old)) result tokens.new }
    {
        let first = self.choice(tokens, Symbol::If)?;
        let mut found = one(self.grammar.alloc, first)?;
        let mut turns = tokens.left();
        while tokens.sees(Symbol::ElseIf) {
            if turns == 0 {
                return Err(tokens.refusal(self.grammar.text));
            }
            turns -= 1;
            found = self.another_choice(tokens, found)?;
        }
        Ok(found)
    }

    #[tactic(auto, unfolding(luau_grammar::specs::ReadExpressions::if_else))]
    pub fn if_else(&self, tokens: &mut Tokens<'_, '_>, from: u32) -> Result<Expr, ParseError>
        requires { Nests self.now.grammar.now.text.now self.now.grammar.now.depth (E.pre self.now.grammar.now.exp) (E.post self.now.grammar.now.exp) (T.pre self.now.grammar.now.typ) (T.post self.now.grammar.now.typ) (B.pre self.now.grammar.now.block) (B.post self.now.grammar.now.block) }
        ensures { Reads view_expr (values.if_else (strictly self.now.grammar.now.text.now) (readers (strictly self.now.grammar.now.text.now) self.now.grammar.now.depth) from (place_of tokens.old)) result tokens.new }
    {
        let arms = self.all_choices(tokens)?;
        let _else = tokens.expect(self.grammar.text, Symbol::Else)?;
        let e = self.grammar.expression(tokens)?;
        let span = tokens.span_from(from);
        Ok(if_else_expr(self.grammar.alloc, ExprId(0), span, arms, e)?)
    }

    #[tactic(auto, unfolding(luau_grammar::specs::ReadExpressions::part, luau_grammar::specs::ReadExpressions::part_end))]
    pub fn part(
        &self,
        tokens: &mut Tokens<'_, '_>,
        given: Interpolated,
    ) -> Result<Interpolated, ParseError>
        requires { Nests self.now.grammar.now.text.now self.now.grammar.now.depth (E.pre self.now.grammar.now.exp) (E.post self.now.grammar.now.exp) (T.pre self.now.grammar.now.typ) (T.post self.now.grammar.now.typ) (B.pre self.now.grammar.now.block) (B.post self.now.grammar.now.block) }
        ensures { Reads seen_interpolated (values.part (strictly self.now.grammar.now.text.now) (readers (strictly self.now.grammar.now.text.now) self.now.grammar.now.depth) (seen_interpolated given) (place_of tokens.old)) result tokens.new }
    {
        let e = self.grammar.expression(tokens)?;
        let open_ended = tokens.sees(Symbol::Mid);
        let symbol = if open_ended {
            Symbol::Mid
        } else {
            Symbol::Last
        };
        let text = tokens.string(self.grammar.alloc, self.grammar.text, symbol)?;
        let Interpolated {
            mut texts,
            mut parts,
            ..
        } = given;
        texts.push(text)?;
        parts.push(e)?;
        Ok(Interpolated {
            texts,
            parts,
            open_ended,
        })
    }

    /// The parts of an interpolated string, behind its first text.
    #[tactic(auto, unfolding(luau_grammar::specs::ReadExpressions::parts))]
    pub fn parts(
        &self,
        tokens: &mut Tokens<'_, '_>,
        text: Bytes,
    ) -> Result<Interpolated, ParseError>
        requires { Nests self.now.grammar.now.text.now self.now.grammar.now.depth (E.pre self.now.grammar.now.exp) (E.post self.now.grammar.now.exp) (T.pre self.now.grammar.now.typ) (T.post self.now.grammar.now.typ) (B.pre self.now.grammar.now.block) (B.post self.now.grammar.now.block) }
        ensures { Reads seen_interpolated (values.parts (strictly self.now.grammar.now.text.now) (readers (strictly self.now.grammar.now.text.now) self.now.grammar.now.depth) text (place_of tokens.old)) result tokens.new }
    {
        let mut given = begun(self.grammar.alloc, text)?;
        let mut turns = tokens.left();
        while given.open_ended {
            if turns == 0 {
                return Err(tokens.refusal(self.grammar.text));
            }
            turns -= 1;
            given = self.part(tokens, given)?;
        }
        Ok(given)
    }

    #[tactic(auto, unfolding(luau_grammar::specs::ReadExpressions::interpolation))]
    pub fn interpolation(&self, tokens: &mut Tokens<'_, '_>, from: u32) -> Result<Expr, ParseError>
        requires { Nests self.now.grammar.now.text.now self.now.grammar.now.depth (E.pre self.now.grammar.now.exp) (E.post self.now.grammar.now.exp) (T.pre self.now.grammar.now.typ) (T.post self.now.grammar.now.typ) (B.pre self.now.grammar.now.block) (B.post self.now.grammar.now.block) }
        ensures { Reads view_expr (values.interpolation (strictly self.now.grammar.now.text.now) (readers (strictly self.now.grammar.now.text.now) self.now.grammar.now.depth) from (place_of tokens.old)) result tokens.new }
    {
        let text = tokens.string(self.grammar.alloc, self.grammar.text, Symbol::Begin)?;
        let found = self.parts(tokens, text)?;
        let span = tokens.span_from(from);
        Ok(finished(span, found))
    }

    #[tactic(auto, unfolding(luau_grammar::specs::ReadExpressions::whole))]
    pub fn whole(&self, tokens: &mut Tokens<'_, '_>, from: u32) -> Result<Expr, ParseError>
        requires { Nests self.now.grammar.now.text.now self.now.grammar.now.depth (E.pre self.now.grammar.now.exp) (E.post self.now.grammar.now.exp) (T.pre self.now.grammar.now.typ) (T.post self.now.grammar.now.typ) (B.pre self.now.grammar.now.block) (B.post self.now.grammar.now.block) }
        ensures { Reads view_expr (values.whole (strictly self.now.grammar.now.text.now) (readers (strictly self.now.grammar.now.text.now) self.now.grammar.now.depth) from (place_of tokens.old)) result tokens.new }
    {
        let text = tokens.string(self.grammar.alloc, self.grammar.text, Symbol::Whole)?;
        let span = tokens.span_from(from);
        let found = begun(self.grammar.alloc, text)?;
        Ok(finished(span, found))
    }

    #[tactic(auto, unfolding(luau_grammar::specs::ReadExpressions::word))]
    pub fn nil(&self, tokens: &mut Tokens<'_, '_>, from: u32) -> Result<Expr, ParseError>
        requires { Nests self.now.grammar.now.text.now self.now.grammar.now.depth (E.pre self.now.grammar.now.exp) (E.post self.now.grammar.now.exp) (T.pre self.now.grammar.now.typ) (T.post self.now.grammar.now.typ) (B.pre self.now.grammar.now.block) (B.post self.now.grammar.now.block) }
        ensures { Reads view_expr (values.word (strictly self.now.grammar.now.text.now) (readers (strictly self.now.grammar.now.text.now) self.now.grammar.now.depth) from tree.NilExpr (place_of tokens.old)) result tokens.new }
    {
        let _word = tokens.next(self.grammar.text)?;
        Ok(nil_expr(ExprId(0), tokens.span_from(from)))
    }

    #[tactic(auto, unfolding(luau_grammar::specs::ReadExpressions::word))]
    pub fn truth(&self, tokens: &mut Tokens<'_, '_>, from: u32) -> Result<Expr, ParseError>
        requires { Nests self.now.grammar.now.text.now self.now.grammar.now.depth (E.pre self.now.grammar.now.exp) (E.post self.now.grammar.now.exp) (T.pre self.now.grammar.now.typ) (T.post self.now.grammar.now.typ) (B.pre self.now.grammar.now.block) (B.post self.now.grammar.now.block) }
        ensures { Reads view_expr (values.word (strictly self.now.grammar.now.text.now) (readers (strictly self.now.grammar.now.text.now) self.now.grammar.now.depth) from tree.TrueExpr (place_of tokens.old)) result tokens.new }
    {
        let _word = tokens.next(self.grammar.text)?;
        Ok(true_expr(ExprId(0), tokens.span_from(from)))
    }

    #[tactic(auto, unfolding(luau_grammar::specs::ReadExpressions::word))]
    pub fn falsehood(&self, tokens: &mut Tokens<'_, '_>, from: u32) -> Result<Expr, ParseError>
        requires { Nests self.now.grammar.now.text.now self.now.grammar.now.depth (E.pre self.now.grammar.now.exp) (E.post self.now.grammar.now.exp) (T.pre self.now.grammar.now.typ) (T.post self.now.grammar.now.typ) (B.pre self.now.grammar.now.block) (B.post self.now.grammar.now.block) }
        ensures { Reads view_expr (values.word (strictly self.now.grammar.now.text.now) (readers (strictly self.now.grammar.now.text.now) self.now.grammar.now.depth) from tree.FalseExpr (place_of tokens.old)) result tokens.new }
    {
        let _word = tokens.next(self.grammar.text)?;
        Ok(false_expr(ExprId(0), tokens.span_from(from)))
    }

    #[tactic(auto, unfolding(luau_grammar::specs::ReadExpressions::word))]
    pub fn vararg(&self, tokens: &mut Tokens<'_, '_>, from: u32) -> Result<Expr, ParseError>
        requires { Nests self.now.grammar.now.text.now self.now.grammar.now.depth (E.pre self.now.grammar.now.exp) (E.post self.now.grammar.now.exp) (T.pre self.now.grammar.now.typ) (T.post self.now.grammar.now.typ) (B.pre self.now.grammar.now.block) (B.post self.now.grammar.now.block) }
        ensures { Reads view_expr (values.word (strictly self.now.grammar.now.text.now) (readers (strictly self.now.grammar.now.text.now) self.now.grammar.now.depth) from tree.Vararg (place_of tokens.old)) result tokens.new }
    {
        let _dots = tokens.next(self.grammar.text)?;
        Ok(vararg_expr(ExprId(0), tokens.span_from(from)))
    }

    #[tactic(auto, unfolding(luau_grammar::specs::ReadExpressions::number))]
    pub fn number(&self, tokens: &mut Tokens<'_, '_>, from: u32) -> Result<Expr, ParseError>
        requires { Nests self.now.grammar.now.text.now self.now.grammar.now.depth (E.pre self.now.grammar.now.exp) (E.post self.now.grammar.now.exp) (T.pre self.now.grammar.now.typ) (T.post self.now.grammar.now.typ) (B.pre self.now.grammar.now.block) (B.post self.now.grammar.now.block) }
        ensures { Reads view_expr (values.number (strictly self.now.grammar.now.text.now) (readers (strictly self.now.grammar.now.text.now) self.now.grammar.now.depth) from (place_of tokens.old)) result tokens.new }
    {
        let token = tokens.expect(self.grammar.text, Symbol::Number)?;
        let span = tokens.span_from(from);
        let written = copy(self.grammar.alloc, token.text)?;
        Ok(number_expr(ExprId(0), span, written))
    }

    #[tactic(auto, unfolding(luau_grammar::specs::ReadExpressions::literal))]
    pub fn literal(&self, tokens: &mut Tokens<'_, '_>, from: u32) -> Result<Expr, ParseError>
        requires { Nests self.now.grammar.now.text.now self.now.grammar.now.depth (E.pre self.now.grammar.now.exp) (E.post self.now.grammar.now.exp) (T.pre self.now.grammar.now.typ) (T.post self.now.grammar.now.typ) (B.pre self.now.grammar.now.block) (B.post self.now.grammar.now.block) }
        ensures { Reads view_expr (values.literal (strictly self.now.grammar.now.text.now) (readers (strictly self.now.grammar.now.text.now) self.now.grammar.now.depth) from (place_of tokens.old)) result tokens.new }
    {
        let value = tokens.string(self.grammar.alloc, self.grammar.text, Symbol::Text)?;
        let span = tokens.span_from(from);
        Ok(str_expr(ExprId(0), span, value))
    }

    #[tactic(auto, unfolding(luau_grammar::specs::ReadExpressions::constructor))]
    pub fn constructor(&self, tokens: &mut Tokens<'_, '_>, from: u32) -> Result<Expr, ParseError>
        requires { Nests self.now.grammar.now.text.now self.now.grammar.now.depth (E.pre self.now.grammar.now.exp) (E.post self.now.grammar.now.exp) (T.pre self.now.grammar.now.typ) (T.post self.now.grammar.now.typ) (B.pre self.now.grammar.now.block) (B.post self.now.grammar.now.block) }
        ensures { Reads view_expr (values.constructor (strictly self.now.grammar.now.text.now) (readers (strictly self.now.grammar.now.text.now) self.now.grammar.now.depth) from (place_of tokens.old)) result tokens.new }
    {
        let inside = tokens.level();
        let prefixes = Prefixes {
            grammar: self.grammar,
        };
        let fields = prefixes.table(tokens, inside)?;
        let span = tokens.span_from(from);
        Ok(table_expr(ExprId(0), span, fields))
    }

    #[tactic(auto, unfolding(luau_grammar::specs::ReadExpressions::function))]
    pub fn function(&self, tokens: &mut Tokens<'_, '_>, from: u32) -> Result<Expr, ParseError>
        requires { Nests self.now.grammar.now.text.now self.now.grammar.now.depth (E.pre self.now.grammar.now.exp) (E.post self.now.grammar.now.exp) (T.pre self.now.grammar.now.typ) (T.post self.now.grammar.now.typ) (B.pre self.now.grammar.now.block) (B.post self.now.grammar.now.block) }
        ensures { Reads view_expr (values.function (strictly self.now.grammar.now.text.now) (readers (strictly self.now.grammar.now.text.now) self.now.grammar.now.depth) from (place_of tokens.old)) result tokens.new }
    {
        let bodies = Bodies {
            grammar: self.grammar,
        };
        bodies.attributes(tokens)?;
        let _word = tokens.expect(self.grammar.text, Symbol::Function)?;
        let body = bodies.body(tokens, None)?;
        let span = tokens.span_from(from);
        Ok(function_expr(self.grammar.alloc, ExprId(0), span, body)?)
    }

    /// An expression that is no prefix, by its first symbol.
    #[tactic(auto, unfolding(luau_grammar::specs::ReadExpressions::form))]
    pub fn expression_form(&self, tokens: &mut Tokens<'_, '_>) -> Result<Expr, ParseError>
        requires { Nests self.now.grammar.now.text.now self.now.grammar.now.depth (E.pre self.now.grammar.now.exp) (E.post self.now.grammar.now.exp) (T.pre self.now.grammar.now.typ) (T.post self.now.grammar.now.typ) (B.pre self.now.grammar.now.block) (B.post self.now.grammar.now.block) }
        ensures { Reads view_expr (values.form (strictly self.now.grammar.now.text.now) (readers (strictly self.now.grammar.now.text.now) self.now.grammar.now.depth) (place_of tokens.old)) result tokens.new }
    {
        let from = tokens.start();
        match tokens.symbol() {
            Symbol::Nil => self.nil(tokens, from),
            Symbol::True => self.truth(tokens, from),
            Symbol::False => self.falsehood(tokens, from),
            Symbol::Dots => self.vararg(tokens, from),
            Symbol::Number => self.number(tokens, from),
            Symbol::Text => self.literal(tokens, from),
            Symbol::LeftBrace => self.constructor(tokens, from),
            Symbol::Function => self.function(tokens, from),
            Symbol::AtSign => self.function(tokens, from),
            Symbol::If => self.if_else(tokens, from),
            Symbol::Whole => self.whole(tokens, from),
            Symbol::Begin => self.interpolation(tokens, from),
            _ => Err(tokens.refusal(self.grammar.text)),
        }
    }

    #[tactic(auto, unfolding(luau_grammar::specs::ReadExpressions::simple))]
    pub fn simple(&self, tokens: &mut Tokens<'_, '_>) -> Result<Expr, ParseError>
        requires { Nests self.now.grammar.now.text.now self.now.grammar.now.depth (E.pre self.now.grammar.now.exp) (E.post self.now.grammar.now.exp) (T.pre self.now.grammar.now.typ) (T.post self.now.grammar.now.typ) (B.pre self.now.grammar.now.block) (B.post self.now.grammar.now.block) }
        ensures { Reads view_expr (values.simple (strictly self.now.grammar.now.text.now) (readers (strictly self.now.grammar.now.text.now) self.now.grammar.now.depth) (place_of tokens.old)) result tokens.new }
    {
        if tokens.sees(Symbol::Name) || tokens.sees(Symbol::LeftParen) {
            let prefixes = Prefixes {
                grammar: self.grammar,
            };
            prefixes.prefix(tokens)
        } else {
            self.expression_form(tokens)
        }
    }

    #[tactic(auto, unfolding(luau_grammar::specs::ReadExpressions::asserted))]
    pub fn asserted(
        &self,
        tokens: &mut Tokens<'_, '_>,
        from: u32,
        e: Expr,
    ) -> Result<Expr, ParseError>
        requires { Nests self.now.grammar.now.text.now self.now.grammar.now.depth (E.pre self.now.grammar.now.exp) (E.post self.now.grammar.now.exp) (T.pre self.now.grammar.now.typ) (T.post self.now.grammar.now.typ) (B.pre self.now.grammar.now.block) (B.post self.now.grammar.now.block) }
        ensures { Reads view_expr (values.asserted (strictly self.now.grammar.now.text.now) (readers (strictly self.now.grammar.now.text.now) self.now.grammar.now.depth) from (view_expr e) (place_of tokens.old)) result tokens.new }
    {
        if !tokens.sees(Symbol::DoubleColon) {
            return Ok(e);
        }
        let _colons = tokens.expect(self.grammar.text, Symbol::DoubleColon)?;
        let t = self.grammar.typ(tokens, None)?;
        let span = tokens.span_from(from);
        Ok(assert_expr(self.grammar.alloc, ExprId(0), span, e, t)?)
    }

    /// An expression without operators, with the type that it is said to have.
    #[tactic(auto, unfolding(luau_grammar::specs::ReadExpressions::assertion))]
    pub fn assertion(&self, tokens: &mut Tokens<'_, '_>) -> Result<Expr, ParseError>
        requires { Nests self.now.grammar.now.text.now self.now.grammar.now.depth (E.pre self.now.grammar.now.exp) (E.post self.now.grammar.now.exp) (T.pre self.now.grammar.now.typ) (T.post self.now.grammar.now.typ) (B.pre self.now.grammar.now.block) (B.post self.now.grammar.now.block) }
        ensures { Reads view_expr (values.assertion (strictly self.now.grammar.now.text.now) (readers (strictly self.now.grammar.now.text.now) self.now.grammar.now.depth) (place_of tokens.old)) result tokens.new }
    {
        let from = tokens.start();
        let e = self.simple(tokens)?;
        self.asserted(tokens, from, e)
    }
}
