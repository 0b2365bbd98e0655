//! Assignments and calls: the statements that begin with a prefix.
ghost use Rattle.std.specs.Prelude.{map, ◌∷◌, []};
ghost use Rattle.luau_tree.specs.View.{view_expr, view_stat};
ghost use Rattle.luau_grammar.specs.Reading as reading;
ghost use Rattle.phrase_reader.specs.Nests.{Nests};
ghost use Rattle.phrase_reader.specs.Outcomes.{Reads, place_of};
ghost use Rattle.luau_grammar.specs.Reading.{strictly};
ghost use Rattle.luau_grammar.specs.ReadModules.{readers};
ghost use Rattle.luau_grammar.specs.ReadStatements as statements;

use crate::kinds::{is_call, is_variable};
use crate::reader::Stats;
use luau_grammar::{ParseError, Symbol, compound_of};
use luau_tree::stats::{assign_stat, call_stat, compound_stat};
use luau_tree::{BinOp, Block, Expr, Stat, TypeSyntax};
use phrase_reader::{Listed, Tokens, one};
use prefix_reader::Prefixes;
use sqlite_items::Items;
use std::alloc::Global;

impl<
    'g,
    's,
    E: Fn(Global, &[u8], &mut Tokens<'_, '_>, usize) -> Result<Expr, ParseError>,
    T: Fn(
        Global,
        &[u8],
        &mut Tokens<'_, '_>,
        usize,
        Option<Listed>,
    ) -> Result<TypeSyntax, ParseError>,
    B: Fn(Global, &[u8], &mut Tokens<'_, '_>, usize) -> Result<Block, ParseError>,
> Stats<'g, 's, E, T, B> {
    /// A prefix of a statement's own: behind it the level is that of the statement again.
    #[tactic(auto, unfolding(luau_grammar::specs::ReadStatements::own_prefix))]
    fn own_prefix(&self, tokens: &mut Tokens<'_, '_>) -> Result<Expr, ParseError>
        requires { Nests self.now.grammar.now.text.now self.now.grammar.now.depth (E.pre self.now.grammar.now.exp) (E.post self.now.grammar.now.exp) (T.pre self.now.grammar.now.typ) (T.post self.now.grammar.now.typ) (B.pre self.now.grammar.now.block) (B.post self.now.grammar.now.block) }
        ensures { Reads view_expr (statements.own_prefix (strictly self.now.grammar.now.text.now) (readers (strictly self.now.grammar.now.text.now) self.now.grammar.now.depth) (place_of tokens.old)) result tokens.new }
    {
        let outer = tokens.level();
        let prefixes = Prefixes {
            grammar: self.grammar,
        };
        let e = prefixes.prefix(tokens)?;
        tokens.set_level(outer);
        Ok(e)
    }

    /// What can be assigned to.
    #[tactic(auto, unfolding(luau_grammar::specs::ReadStatements::variable))]
    fn variable(&self, tokens: &mut Tokens<'_, '_>) -> Result<Expr, ParseError>
        requires { Nests self.now.grammar.now.text.now self.now.grammar.now.depth (E.pre self.now.grammar.now.exp) (E.post self.now.grammar.now.exp) (T.pre self.now.grammar.now.typ) (T.post self.now.grammar.now.typ) (B.pre self.now.grammar.now.block) (B.post self.now.grammar.now.block) }
        ensures { Reads view_expr (statements.variable (strictly self.now.grammar.now.text.now) (readers (strictly self.now.grammar.now.text.now) self.now.grammar.now.depth) (place_of tokens.old)) result tokens.new }
    {
        let e = self.own_prefix(tokens)?;
        if is_variable(&e) {
            Ok(e)
        } else {
            Err(tokens.refusal(self.grammar.text))
        }
    }

    /// One more target behind a comma.
    #[tactic(auto)]
    fn another_target(
        &self,
        tokens: &mut Tokens<'_, '_>,
        mut found: Items<Expr>,
    ) -> Result<Items<Expr>, ParseError>
        requires { Nests self.now.grammar.now.text.now self.now.grammar.now.depth (E.pre self.now.grammar.now.exp) (E.post self.now.grammar.now.exp) (T.pre self.now.grammar.now.typ) (T.post self.now.grammar.now.typ) (B.pre self.now.grammar.now.block) (B.post self.now.grammar.now.block) }
        ensures { Reads (map view_expr) (reading.another (strictly self.now.grammar.now.text.now) (statements.variable (strictly self.now.grammar.now.text.now) (readers (strictly self.now.grammar.now.text.now) self.now.grammar.now.depth)) (map view_expr found) (place_of tokens.old)) result tokens.new }
    {
        let _comma = tokens.expect(self.grammar.text, Symbol::Comma)?;
        let e = self.variable(tokens)?;
        found.push(e)?;
        Ok(found)
    }

    /// The targets of an assignment, behind the first of them.
    #[tactic(auto, unfolding(luau_grammar::specs::Reading::separated_from))]
    fn targets(&self, tokens: &mut Tokens<'_, '_>, first: Expr) -> Result<Items<Expr>, ParseError>
        requires { Nests self.now.grammar.now.text.now self.now.grammar.now.depth (E.pre self.now.grammar.now.exp) (E.post self.now.grammar.now.exp) (T.pre self.now.grammar.now.typ) (T.post self.now.grammar.now.typ) (B.pre self.now.grammar.now.block) (B.post self.now.grammar.now.block) }
        ensures { Reads (map view_expr) (reading.separated_from (strictly self.now.grammar.now.text.now) (statements.variable (strictly self.now.grammar.now.text.now) (readers (strictly self.now.grammar.now.text.now) self.now.grammar.now.depth)) (view_expr first ∷ []) (place_of tokens.old)) result tokens.new }
    {
        let mut found = one(self.grammar.alloc, first)?;
        let mut turns = tokens.left();
        while tokens.sees(Symbol::Comma) {
            if turns == 0 {
                return Err(tokens.refusal(self.grammar.text));
            }
            turns -= 1;
            found = self.another_target(tokens, found)?;
        }
        Ok(found)
    }

    /// `a, b.c = x, y`, behind the first target.
    #[tactic(auto, using(phrase_reader::proofs::Lists::exprs_seen), unfolding(luau_grammar::specs::ReadStatements::assign))]
    fn assign(
        &self,
        tokens: &mut Tokens<'_, '_>,
        from: u32,
        first: Expr,
    ) -> Result<Stat, ParseError>
        requires { Nests self.now.grammar.now.text.now self.now.grammar.now.depth (E.pre self.now.grammar.now.exp) (E.post self.now.grammar.now.exp) (T.pre self.now.grammar.now.typ) (T.post self.now.grammar.now.typ) (B.pre self.now.grammar.now.block) (B.post self.now.grammar.now.block) }
        ensures { Reads view_stat (statements.assign (strictly self.now.grammar.now.text.now) (readers (strictly self.now.grammar.now.text.now) self.now.grammar.now.depth) from (view_expr first) (place_of tokens.old)) result tokens.new }
    {
        let targets = self.targets(tokens, first)?;
        let _sign = tokens.expect(self.grammar.text, Symbol::Assign)?;
        let prefixes = Prefixes {
            grammar: self.grammar,
        };
        let values = prefixes.expressions(tokens)?;
        let span = tokens.span_from(from);
        Ok(assign_stat(span, targets, values))
    }

    /// `a += x`, behind the target.
    #[tactic(auto, unfolding(luau_grammar::specs::ReadStatements::compound))]
    fn compound(
        &self,
        tokens: &mut Tokens<'_, '_>,
        from: u32,
        target: Expr,
        op: BinOp,
    ) -> Result<Stat, ParseError>
        requires { Nests self.now.grammar.now.text.now self.now.grammar.now.depth (E.pre self.now.grammar.now.exp) (E.post self.now.grammar.now.exp) (T.pre self.now.grammar.now.typ) (T.post self.now.grammar.now.typ) (B.pre self.now.grammar.now.block) (B.post self.now.grammar.now.block) }
        ensures { Reads view_stat (statements.compound (strictly self.now.grammar.now.text.now) (readers (strictly self.now.grammar.now.text.now) self.now.grammar.now.depth) from (view_expr target) op (place_of tokens.old)) result tokens.new }
    {
        let _sign = tokens.next(self.grammar.text)?;
        let value = self.grammar.expression(tokens)?;
        let span = tokens.span_from(from);
        Ok(compound_stat(span, target, op, value))
    }

    /// A statement behind the prefix that it begins with.
    #[tactic(auto, unfolding(luau_grammar::specs::ReadStatements::behind_prefix))]
    fn behind_prefix(
        &self,
        tokens: &mut Tokens<'_, '_>,
        from: u32,
        e: Expr,
    ) -> Result<Stat, ParseError>
        requires { Nests self.now.grammar.now.text.now self.now.grammar.now.depth (E.pre self.now.grammar.now.exp) (E.post self.now.grammar.now.exp) (T.pre self.now.grammar.now.typ) (T.post self.now.grammar.now.typ) (B.pre self.now.grammar.now.block) (B.post self.now.grammar.now.block) }
        ensures { Reads view_stat (statements.behind_prefix (strictly self.now.grammar.now.text.now) (readers (strictly self.now.grammar.now.text.now) self.now.grammar.now.depth) from (view_expr e) (place_of tokens.old)) result tokens.new }
    {
        match compound_of(tokens.symbol()) {
            Some(op) => {
                if is_variable(&e) {
                    self.compound(tokens, from, e, op)
                } else {
                    Err(tokens.refusal(self.grammar.text))
                }
            }
            None => {
                if is_variable(&e) {
                    self.assign(tokens, from, e)
                } else if is_call(&e) {
                    Ok(call_stat(tokens.span_from(from), e))
                } else {
                    Err(tokens.refusal(self.grammar.text))
                }
            }
        }
    }

    /// A statement that begins with a prefix.
    #[tactic(auto, unfolding(luau_grammar::specs::ReadStatements::prefix_statement))]
    pub fn prefix_statement(
        &self,
        tokens: &mut Tokens<'_, '_>,
        from: u32,
    ) -> Result<Stat, ParseError>
        requires { Nests self.now.grammar.now.text.now self.now.grammar.now.depth (E.pre self.now.grammar.now.exp) (E.post self.now.grammar.now.exp) (T.pre self.now.grammar.now.typ) (T.post self.now.grammar.now.typ) (B.pre self.now.grammar.now.block) (B.post self.now.grammar.now.block) }
        ensures { Reads view_stat (statements.prefix_statement (strictly self.now.grammar.now.text.now) (readers (strictly self.now.grammar.now.text.now) self.now.grammar.now.depth) from (place_of tokens.old)) result tokens.new }
    {
        let e = self.own_prefix(tokens)?;
        self.behind_prefix(tokens, from, e)
    }
}
