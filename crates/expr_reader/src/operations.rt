//! Operators and their operands.
ghost use Rattle.std.specs.Prelude.{◌≡◌, is_some};
ghost use Rattle.luau_grammar.specs.Operators as operators;
ghost use Rattle.luau_grammar.specs.ReadExpressions as values;
ghost use Rattle.luau_tree.specs.View.{view_expr};
ghost use Rattle.phrase_reader.specs.Nests.{Nests};
ghost use Rattle.phrase_reader.specs.Outcomes.{Reads, place_of};
ghost use Rattle.luau_grammar.specs.Reading.{strictly};
ghost use Rattle.luau_grammar.specs.ReadModules.{readers};

use crate::reader::Exprs;
use luau_grammar::{ParseError, binary_of, unary_of};
use luau_tree::exprs::{binary_expr, unary_expr};
use luau_tree::{BinOp, Block, Expr, ExprId, TypeSyntax, UnOp};
use phrase_reader::{Listed, Tokens, one};
use std::alloc::Global;

/// How tightly a unary operator binds.
const UNARY_TIGHTNESS: u32 = 7;

/// How tightly a binary operator binds, from the loosest, 1, to the tightest.
fn tightness(op: BinOp) -> u32
    ensures { result ≡ operators.tightness op }
{
    match op {
        BinOp::Or => 1,
        BinOp::And => 2,
        BinOp::Less => 3,
        BinOp::Greater => 3,
        BinOp::LessEqual => 3,
        BinOp::GreaterEqual => 3,
        BinOp::NotEqual => 3,
        BinOp::Equal => 3,
        BinOp::Concat => 4,
        BinOp::Add => 5,
        BinOp::Sub => 5,
        BinOp::Mul => 6,
        BinOp::Div => 6,
        BinOp::FloorDiv => 6,
        BinOp::Mod => 6,
        BinOp::Pow => 8,
    }
}

/// A right operand takes the operators that bind tighter than this.
#[tactic(auto, unfolding(luau_grammar::specs::ReadExpressions::right_least))]
fn right_least(op: BinOp) -> u32
    ensures { result ≡ values.right_least op }
{
    match op {
        BinOp::Concat => 3,
        BinOp::Pow => 7,
        _ => tightness(op),
    }
}

/// Whether an operator that binds tighter than a number comes next.
#[tactic(auto, unfolding(luau_grammar::specs::ReadExpressions::tighter))]
fn is_tighter(tokens: &Tokens<'_, '_>, least: u32) -> bool
    ensures { result ≡ is_some (values.tighter least (place_of tokens.now)) }
{
    match binary_of(tokens.symbol()) {
        None => false,
        Some(op) => least < tightness(op),
    }
}

impl<
    'g,
    's,
    E: Fn(Global, &[u8], &mut Tokens<'_, '_>, usize) -> Result<Expr, ParseError>,
    T: Fn(
        Global,
        &[u8],
        &mut Tokens<'_, '_>,
        usize,
        Option<Listed>,
    ) -> Result<TypeSyntax, ParseError>,
    B: Fn(Global, &[u8], &mut Tokens<'_, '_>, usize) -> Result<Block, ParseError>,
> Exprs<'g, 's, E, T, B> {
    /// A unary operator and its operand.
    #[cycle(operators)]
    #[tactic(auto, unfolding(luau_grammar::specs::ReadExpressions::unary))]
    pub fn unary(
        &self,
        tokens: &mut Tokens<'_, '_>,
        turns: usize,
        op: UnOp,
    ) -> Result<Expr, ParseError>
        requires { Nests self.now.grammar.now.text.now self.now.grammar.now.depth (E.pre self.now.grammar.now.exp) (E.post self.now.grammar.now.exp) (T.pre self.now.grammar.now.typ) (T.post self.now.grammar.now.typ) (B.pre self.now.grammar.now.block) (B.post self.now.grammar.now.block) }
        ensures { Reads view_expr (values.unary (strictly self.now.grammar.now.text.now) (readers (strictly self.now.grammar.now.text.now) self.now.grammar.now.depth) (values.operation (strictly self.now.grammar.now.text.now) (readers (strictly self.now.grammar.now.text.now) self.now.grammar.now.depth) turns operators.unary_tightness) op (place_of tokens.old)) result tokens.new }
    {
        let from = tokens.start();
        let _sign = tokens.next(self.grammar.text)?;
        tokens.raise(self.grammar.text)?;
        let e = self.operation(tokens, turns, UNARY_TIGHTNESS)?;
        let span = tokens.span_from(from);
        Ok(unary_expr(self.grammar.alloc, ExprId(0), span, op, e)?)
    }

    #[cycle(operators)]
    #[tactic(auto, unfolding(luau_grammar::specs::ReadExpressions::operand))]
    pub fn operand(&self, tokens: &mut Tokens<'_, '_>, turns: usize) -> Result<Expr, ParseError>
        requires { Nests self.now.grammar.now.text.now self.now.grammar.now.depth (E.pre self.now.grammar.now.exp) (E.post self.now.grammar.now.exp) (T.pre self.now.grammar.now.typ) (T.post self.now.grammar.now.typ) (B.pre self.now.grammar.now.block) (B.post self.now.grammar.now.block) }
        ensures { Reads view_expr (values.operand (strictly self.now.grammar.now.text.now) (readers (strictly self.now.grammar.now.text.now) self.now.grammar.now.depth) (values.operation (strictly self.now.grammar.now.text.now) (readers (strictly self.now.grammar.now.text.now) self.now.grammar.now.depth) turns) (place_of tokens.old)) result tokens.new }
    {
        match unary_of(tokens.symbol()) {
            None => self.assertion(tokens),
            Some(op) => self.unary(tokens, turns, op),
        }
    }

    /// A binary operator and its right operand, behind its left one.
    #[cycle(operators)]
    #[tactic(auto, unfolding(luau_grammar::specs::ReadExpressions::binary))]
    pub fn binary(
        &self,
        tokens: &mut Tokens<'_, '_>,
        turns: usize,
        from: u32,
        left: Expr,
        op: BinOp,
    ) -> Result<Expr, ParseError>
        requires { Nests self.now.grammar.now.text.now self.now.grammar.now.depth (E.pre self.now.grammar.now.exp) (E.post self.now.grammar.now.exp) (T.pre self.now.grammar.now.typ) (T.post self.now.grammar.now.typ) (B.pre self.now.grammar.now.block) (B.post self.now.grammar.now.block) }
        ensures { Reads view_expr (values.binary (strictly self.now.grammar.now.text.now) (readers (strictly self.now.grammar.now.text.now) self.now.grammar.now.depth) (values.operation (strictly self.now.grammar.now.text.now) (readers (strictly self.now.grammar.now.text.now) self.now.grammar.now.depth) turns) from (view_expr left) op (place_of tokens.old)) result tokens.new }
    {
        let _sign = tokens.next(self.grammar.text)?;
        tokens.raise(self.grammar.text)?;
        let right = self.operation(tokens, turns, right_least(op))?;
        let span = tokens.span_from(from);
        Ok(binary_expr(self.grammar.alloc, ExprId(0), span, op, left, right)?)
    }

    #[cycle(operators)]
    #[tactic(auto, unfolding(luau_grammar::specs::ReadExpressions::climb_step))]
    pub fn climb_step(
        &self,
        tokens: &mut Tokens<'_, '_>,
        turns: usize,
        from: u32,
        left: Expr,
    ) -> Result<Expr, ParseError>
        requires { Nests self.now.grammar.now.text.now self.now.grammar.now.depth (E.pre self.now.grammar.now.exp) (E.post self.now.grammar.now.exp) (T.pre self.now.grammar.now.typ) (T.post self.now.grammar.now.typ) (B.pre self.now.grammar.now.block) (B.post self.now.grammar.now.block) }
        ensures { Reads view_expr (values.climb_step (strictly self.now.grammar.now.text.now) (readers (strictly self.now.grammar.now.text.now) self.now.grammar.now.depth) (values.operation (strictly self.now.grammar.now.text.now) (readers (strictly self.now.grammar.now.text.now) self.now.grammar.now.depth) turns) from (view_expr left) (place_of tokens.old)) result tokens.new }
    {
        match binary_of(tokens.symbol()) {
            None => Err(tokens.refusal(self.grammar.text)),
            Some(op) => self.binary(tokens, turns, from, left, op),
        }
    }

    /// Operators that bind tighter than a number, behind the first operand.
    #[cycle(operators)]
    #[tactic(auto, unfolding(luau_grammar::specs::ReadExpressions::climb_from))]
    pub fn climb_from(
        &self,
        tokens: &mut Tokens<'_, '_>,
        turns: usize,
        least: u32,
        from: u32,
        first: Expr,
    ) -> Result<Expr, ParseError>
        requires { Nests self.now.grammar.now.text.now self.now.grammar.now.depth (E.pre self.now.grammar.now.exp) (E.post self.now.grammar.now.exp) (T.pre self.now.grammar.now.typ) (T.post self.now.grammar.now.typ) (B.pre self.now.grammar.now.block) (B.post self.now.grammar.now.block) }
        ensures { Reads view_expr (values.climb_from (strictly self.now.grammar.now.text.now) (readers (strictly self.now.grammar.now.text.now) self.now.grammar.now.depth) (values.operation (strictly self.now.grammar.now.text.now) (readers (strictly self.now.grammar.now.text.now) self.now.grammar.now.depth) turns) least from (view_expr first) (place_of tokens.old)) result tokens.new }
    {
        let mut e = first;
        let mut steps = tokens.left();
        while is_tighter(tokens, least) {
            if steps == 0 {
                return Err(tokens.refusal(self.grammar.text));
            }
            steps -= 1;
            e = self.climb_step(tokens, turns, from, e)?;
        }
        Ok(e)
    }

    /// Operands with operators that bind tighter than a number. The first number bounds how many operators stand within one another.
    #[cycle(operators)]
    #[tactic(auto, unfolding(luau_grammar::specs::ReadExpressions::operation, luau_grammar::specs::ReadExpressions::climb))]
    pub fn operation(
        &self,
        tokens: &mut Tokens<'_, '_>,
        turns: usize,
        least: u32,
    ) -> Result<Expr, ParseError>
        requires { Nests self.now.grammar.now.text.now self.now.grammar.now.depth (E.pre self.now.grammar.now.exp) (E.post self.now.grammar.now.exp) (T.pre self.now.grammar.now.typ) (T.post self.now.grammar.now.typ) (B.pre self.now.grammar.now.block) (B.post self.now.grammar.now.block) }
        ensures { Reads view_expr (values.operation (strictly self.now.grammar.now.text.now) (readers (strictly self.now.grammar.now.text.now) self.now.grammar.now.depth) turns least (place_of tokens.old)) result tokens.new }
    {
        if turns == 0 {
            return Err(tokens.refusal(self.grammar.text));
        }
        let inner = turns - 1;
        let from = tokens.start();
        let first = self.operand(tokens, inner)?;
        self.climb_from(tokens, inner, least, from, first)
    }

    /// An expression.
    #[tactic(auto, unfolding(luau_grammar::specs::ReadExpressions::expression_inside))]
    pub fn expression_inside(&self, tokens: &mut Tokens<'_, '_>) -> Result<Expr, ParseError>
        requires { Nests self.now.grammar.now.text.now self.now.grammar.now.depth (E.pre self.now.grammar.now.exp) (E.post self.now.grammar.now.exp) (T.pre self.now.grammar.now.typ) (T.post self.now.grammar.now.typ) (B.pre self.now.grammar.now.block) (B.post self.now.grammar.now.block) }
        ensures { Reads view_expr (values.expression_inside (strictly self.now.grammar.now.text.now) (readers (strictly self.now.grammar.now.text.now) self.now.grammar.now.depth) (place_of tokens.old)) result tokens.new }
    {
        let turns = tokens.left();
        self.operation(tokens, turns, 0)
    }
}
