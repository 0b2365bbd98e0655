//! Statements that hold blocks: loops, branches and blocks of their own.
ghost use Rattle.std.specs.Prelude.{map, ◌∷◌, []};
ghost use Rattle.luau_tree.specs.View.{view_arm, view_arms, view_bind, view_block, view_maybe_block, view_maybe_expr, view_stat};
ghost use Rattle.luau_grammar.specs.Reading as reading;
ghost use Rattle.luau_grammar.specs.ReadExpressions as values;
ghost use Rattle.stat_reader.specs.SeenStatements.{seen_range};
ghost use Rattle.phrase_reader.specs.Nests.{Nests};
ghost use Rattle.phrase_reader.specs.Outcomes.{Reads, place_of};
ghost use Rattle.luau_grammar.specs.Reading.{strictly};
ghost use Rattle.luau_grammar.specs.ReadModules.{readers};
ghost use Rattle.luau_grammar.specs.ReadStatements as statements;

use crate::reader::Stats;
use body_reader::Bodies;
use luau_grammar::{ParseError, Symbol};
use luau_tree::parts::arm_of;
use luau_tree::stats::{do_stat, gen_for_stat, if_stat, num_for_stat, repeat_stat, while_stat};
use luau_tree::{Arm, Bind, Block, Expr, Stat, TypeSyntax};
use phrase_reader::{Listed, Tokens, one};
use prefix_reader::Prefixes;
use sqlite_items::Items;
use std::alloc::Global;

/// The bounds of a numeric loop, and its step.
#[derive(Drop)]
pub struct Range {
    first: Expr,
    to: Expr,
    step: Option<Expr>,
}

impl<
    'g,
    's,
    E: Fn(Global, &[u8], &mut Tokens<'_, '_>, usize) -> Result<Expr, ParseError>,
    T: Fn(
        Global,
        &[u8],
        &mut Tokens<'_, '_>,
        usize,
        Option<Listed>,
    ) -> Result<TypeSyntax, ParseError>,
    B: Fn(Global, &[u8], &mut Tokens<'_, '_>, usize) -> Result<Block, ParseError>,
> Stats<'g, 's, E, T, B> {
    /// `do .. end`
    #[tactic(auto, unfolding(luau_grammar::specs::ReadStatements::do_block))]
    fn do_block(&self, tokens: &mut Tokens<'_, '_>) -> Result<Block, ParseError>
        requires { Nests self.now.grammar.now.text.now self.now.grammar.now.depth (E.pre self.now.grammar.now.exp) (E.post self.now.grammar.now.exp) (T.pre self.now.grammar.now.typ) (T.post self.now.grammar.now.typ) (B.pre self.now.grammar.now.block) (B.post self.now.grammar.now.block) }
        ensures { Reads view_block (statements.do_block (strictly self.now.grammar.now.text.now) (readers (strictly self.now.grammar.now.text.now) self.now.grammar.now.depth) (place_of tokens.old)) result tokens.new }
    {
        let _do = tokens.expect(self.grammar.text, Symbol::Do)?;
        let b = self.grammar.block(tokens)?;
        let _end = tokens.expect(self.grammar.text, Symbol::End)?;
        Ok(b)
    }

    #[tactic(auto, unfolding(luau_grammar::specs::ReadStatements::do_statement))]
    pub fn do_statement(&self, tokens: &mut Tokens<'_, '_>, from: u32) -> Result<Stat, ParseError>
        requires { Nests self.now.grammar.now.text.now self.now.grammar.now.depth (E.pre self.now.grammar.now.exp) (E.post self.now.grammar.now.exp) (T.pre self.now.grammar.now.typ) (T.post self.now.grammar.now.typ) (B.pre self.now.grammar.now.block) (B.post self.now.grammar.now.block) }
        ensures { Reads view_stat (statements.do_statement (strictly self.now.grammar.now.text.now) (readers (strictly self.now.grammar.now.text.now) self.now.grammar.now.depth) from (place_of tokens.old)) result tokens.new }
    {
        let b = self.do_block(tokens)?;
        let span = tokens.span_from(from);
        Ok(do_stat(span, b))
    }

    #[tactic(auto, unfolding(luau_grammar::specs::ReadStatements::while_statement))]
    pub fn while_statement(
        &self,
        tokens: &mut Tokens<'_, '_>,
        from: u32,
    ) -> Result<Stat, ParseError>
        requires { Nests self.now.grammar.now.text.now self.now.grammar.now.depth (E.pre self.now.grammar.now.exp) (E.post self.now.grammar.now.exp) (T.pre self.now.grammar.now.typ) (T.post self.now.grammar.now.typ) (B.pre self.now.grammar.now.block) (B.post self.now.grammar.now.block) }
        ensures { Reads view_stat (statements.while_statement (strictly self.now.grammar.now.text.now) (readers (strictly self.now.grammar.now.text.now) self.now.grammar.now.depth) from (place_of tokens.old)) result tokens.new }
    {
        let _while = tokens.expect(self.grammar.text, Symbol::While)?;
        let cond = self.grammar.expression(tokens)?;
        let b = self.do_block(tokens)?;
        let span = tokens.span_from(from);
        Ok(while_stat(span, cond, b))
    }

    #[tactic(auto, unfolding(luau_grammar::specs::ReadStatements::repeat_statement))]
    pub fn repeat_statement(
        &self,
        tokens: &mut Tokens<'_, '_>,
        from: u32,
    ) -> Result<Stat, ParseError>
        requires { Nests self.now.grammar.now.text.now self.now.grammar.now.depth (E.pre self.now.grammar.now.exp) (E.post self.now.grammar.now.exp) (T.pre self.now.grammar.now.typ) (T.post self.now.grammar.now.typ) (B.pre self.now.grammar.now.block) (B.post self.now.grammar.now.block) }
        ensures { Reads view_stat (statements.repeat_statement (strictly self.now.grammar.now.text.now) (readers (strictly self.now.grammar.now.text.now) self.now.grammar.now.depth) from (place_of tokens.old)) result tokens.new }
    {
        let _repeat = tokens.expect(self.grammar.text, Symbol::Repeat)?;
        let b = self.grammar.block(tokens)?;
        let _until = tokens.expect(self.grammar.text, Symbol::Until)?;
        let cond = self.grammar.expression(tokens)?;
        let span = tokens.span_from(from);
        Ok(repeat_stat(span, b, cond))
    }

    #[tactic(auto, unfolding(luau_grammar::specs::ReadStatements::arm))]
    fn arm(&self, tokens: &mut Tokens<'_, '_>, word: Symbol) -> Result<Arm, ParseError>
        requires { Nests self.now.grammar.now.text.now self.now.grammar.now.depth (E.pre self.now.grammar.now.exp) (E.post self.now.grammar.now.exp) (T.pre self.now.grammar.now.typ) (T.post self.now.grammar.now.typ) (B.pre self.now.grammar.now.block) (B.post self.now.grammar.now.block) }
        ensures { Reads view_arm (statements.arm (strictly self.now.grammar.now.text.now) (readers (strictly self.now.grammar.now.text.now) self.now.grammar.now.depth) word (place_of tokens.old)) result tokens.new }
    {
        let _word = tokens.expect(self.grammar.text, word)?;
        let cond = self.grammar.expression(tokens)?;
        let _then = tokens.expect(self.grammar.text, Symbol::Then)?;
        let b = self.grammar.block(tokens)?;
        Ok(arm_of(cond, b))
    }

    #[tactic(auto, unfolding(luau_grammar::specs::ReadStatements::another_arm))]
    fn another_arm(
        &self,
        tokens: &mut Tokens<'_, '_>,
        mut found: Items<Arm>,
    ) -> Result<Items<Arm>, ParseError>
        requires { Nests self.now.grammar.now.text.now self.now.grammar.now.depth (E.pre self.now.grammar.now.exp) (E.post self.now.grammar.now.exp) (T.pre self.now.grammar.now.typ) (T.post self.now.grammar.now.typ) (B.pre self.now.grammar.now.block) (B.post self.now.grammar.now.block) }
        ensures { Reads (map view_arm) (statements.another_arm (strictly self.now.grammar.now.text.now) (readers (strictly self.now.grammar.now.text.now) self.now.grammar.now.depth) (map view_arm found) (place_of tokens.old)) result tokens.new }
    {
        let x = self.arm(tokens, Symbol::ElseIf)?;
        found.push(x)?;
        Ok(found)
    }

    #[tactic(auto, using(phrase_reader::proofs::Lists::arms_seen), unfolding(luau_grammar::specs::ReadStatements::all_arms))]
    fn all_arms(&self, tokens: &mut Tokens<'_, '_>) -> Result<Items<Arm>, ParseError>
        requires { Nests self.now.grammar.now.text.now self.now.grammar.now.depth (E.pre self.now.grammar.now.exp) (E.post self.now.grammar.now.exp) (T.pre self.now.grammar.now.typ) (T.post self.now.grammar.now.typ) (B.pre self.now.grammar.now.block) (B.post self.now.grammar.now.block) }
        ensures { Reads view_arms (statements.all_arms (strictly self.now.grammar.now.text.now) (readers (strictly self.now.grammar.now.text.now) self.now.grammar.now.depth) (place_of tokens.old)) result tokens.new }
    {
        let first = self.arm(tokens, Symbol::If)?;
        let mut found = one(self.grammar.alloc, first)?;
        let mut turns = tokens.left();
        while tokens.sees(Symbol::ElseIf) {
            if turns == 0 {
                return Err(tokens.refusal(self.grammar.text));
            }
            turns -= 1;
            found = self.another_arm(tokens, found)?;
        }
        Ok(found)
    }

    #[tactic(auto, unfolding(luau_grammar::specs::ReadStatements::maybe_else))]
    fn maybe_else(&self, tokens: &mut Tokens<'_, '_>) -> Result<Option<Block>, ParseError>
        requires { Nests self.now.grammar.now.text.now self.now.grammar.now.depth (E.pre self.now.grammar.now.exp) (E.post self.now.grammar.now.exp) (T.pre self.now.grammar.now.typ) (T.post self.now.grammar.now.typ) (B.pre self.now.grammar.now.block) (B.post self.now.grammar.now.block) }
        ensures { Reads view_maybe_block (statements.maybe_else (strictly self.now.grammar.now.text.now) (readers (strictly self.now.grammar.now.text.now) self.now.grammar.now.depth) (place_of tokens.old)) result tokens.new }
    {
        if !tokens.sees(Symbol::Else) {
            return Ok(None);
        }
        let _else = tokens.expect(self.grammar.text, Symbol::Else)?;
        let b = self.grammar.block(tokens)?;
        Ok(Some(b))
    }

    #[tactic(auto, unfolding(luau_grammar::specs::ReadStatements::if_statement))]
    pub fn if_statement(&self, tokens: &mut Tokens<'_, '_>, from: u32) -> Result<Stat, ParseError>
        requires { Nests self.now.grammar.now.text.now self.now.grammar.now.depth (E.pre self.now.grammar.now.exp) (E.post self.now.grammar.now.exp) (T.pre self.now.grammar.now.typ) (T.post self.now.grammar.now.typ) (B.pre self.now.grammar.now.block) (B.post self.now.grammar.now.block) }
        ensures { Reads view_stat (statements.if_statement (strictly self.now.grammar.now.text.now) (readers (strictly self.now.grammar.now.text.now) self.now.grammar.now.depth) from (place_of tokens.old)) result tokens.new }
    {
        let arms = self.all_arms(tokens)?;
        let last = self.maybe_else(tokens)?;
        let _end = tokens.expect(self.grammar.text, Symbol::End)?;
        let span = tokens.span_from(from);
        Ok(if_stat(span, arms, last))
    }

    #[tactic(auto, unfolding(luau_grammar::specs::ReadStatements::maybe_step))]
    fn maybe_step(&self, tokens: &mut Tokens<'_, '_>) -> Result<Option<Expr>, ParseError>
        requires { Nests self.now.grammar.now.text.now self.now.grammar.now.depth (E.pre self.now.grammar.now.exp) (E.post self.now.grammar.now.exp) (T.pre self.now.grammar.now.typ) (T.post self.now.grammar.now.typ) (B.pre self.now.grammar.now.block) (B.post self.now.grammar.now.block) }
        ensures { Reads view_maybe_expr (statements.maybe_step (strictly self.now.grammar.now.text.now) (readers (strictly self.now.grammar.now.text.now) self.now.grammar.now.depth) (place_of tokens.old)) result tokens.new }
    {
        if !tokens.sees(Symbol::Comma) {
            return Ok(None);
        }
        let _comma = tokens.expect(self.grammar.text, Symbol::Comma)?;
        let e = self.grammar.expression(tokens)?;
        Ok(Some(e))
    }

    /// `a, b, c`
    #[tactic(auto, unfolding(luau_grammar::specs::ReadStatements::range))]
    fn range(&self, tokens: &mut Tokens<'_, '_>) -> Result<Range, ParseError>
        requires { Nests self.now.grammar.now.text.now self.now.grammar.now.depth (E.pre self.now.grammar.now.exp) (E.post self.now.grammar.now.exp) (T.pre self.now.grammar.now.typ) (T.post self.now.grammar.now.typ) (B.pre self.now.grammar.now.block) (B.post self.now.grammar.now.block) }
        ensures { Reads seen_range (statements.range (strictly self.now.grammar.now.text.now) (readers (strictly self.now.grammar.now.text.now) self.now.grammar.now.depth) (place_of tokens.old)) result tokens.new }
    {
        let first = self.grammar.expression(tokens)?;
        let _comma = tokens.expect(self.grammar.text, Symbol::Comma)?;
        let to = self.grammar.expression(tokens)?;
        let step = self.maybe_step(tokens)?;
        Ok(Range { first, to, step })
    }

    /// `for i = a, b, c do .. end`, behind the variable.
    #[tactic(auto, unfolding(luau_grammar::specs::ReadStatements::numeric_for))]
    fn numeric_for(
        &self,
        tokens: &mut Tokens<'_, '_>,
        from: u32,
        x: Bind,
    ) -> Result<Stat, ParseError>
        requires { Nests self.now.grammar.now.text.now self.now.grammar.now.depth (E.pre self.now.grammar.now.exp) (E.post self.now.grammar.now.exp) (T.pre self.now.grammar.now.typ) (T.post self.now.grammar.now.typ) (B.pre self.now.grammar.now.block) (B.post self.now.grammar.now.block) }
        ensures { Reads view_stat (statements.numeric_for (strictly self.now.grammar.now.text.now) (readers (strictly self.now.grammar.now.text.now) self.now.grammar.now.depth) from (view_bind x) (place_of tokens.old)) result tokens.new }
    {
        let _sign = tokens.expect(self.grammar.text, Symbol::Assign)?;
        let range = self.range(tokens)?;
        let b = self.do_block(tokens)?;
        let span = tokens.span_from(from);
        Ok(num_for_stat(span, x, range.first, range.to, range.step, b))
    }

    /// One more name behind a comma.
    #[tactic(auto)]
    fn another_bind(
        &self,
        tokens: &mut Tokens<'_, '_>,
        mut found: Items<Bind>,
    ) -> Result<Items<Bind>, ParseError>
        requires { Nests self.now.grammar.now.text.now self.now.grammar.now.depth (E.pre self.now.grammar.now.exp) (E.post self.now.grammar.now.exp) (T.pre self.now.grammar.now.typ) (T.post self.now.grammar.now.typ) (B.pre self.now.grammar.now.block) (B.post self.now.grammar.now.block) }
        ensures { Reads (map view_bind) (reading.another (strictly self.now.grammar.now.text.now) (values.bind (strictly self.now.grammar.now.text.now) (readers (strictly self.now.grammar.now.text.now) self.now.grammar.now.depth)) (map view_bind found) (place_of tokens.old)) result tokens.new }
    {
        let _comma = tokens.expect(self.grammar.text, Symbol::Comma)?;
        let bodies = Bodies {
            grammar: self.grammar,
        };
        let x = bodies.bind(tokens)?;
        found.push(x)?;
        Ok(found)
    }

    /// Names with commas between them, behind the first of them.
    #[tactic(auto, unfolding(luau_grammar::specs::Reading::separated_from))]
    pub fn binds_from(
        &self,
        tokens: &mut Tokens<'_, '_>,
        first: Bind,
    ) -> Result<Items<Bind>, ParseError>
        requires { Nests self.now.grammar.now.text.now self.now.grammar.now.depth (E.pre self.now.grammar.now.exp) (E.post self.now.grammar.now.exp) (T.pre self.now.grammar.now.typ) (T.post self.now.grammar.now.typ) (B.pre self.now.grammar.now.block) (B.post self.now.grammar.now.block) }
        ensures { Reads (map view_bind) (reading.separated_from (strictly self.now.grammar.now.text.now) (values.bind (strictly self.now.grammar.now.text.now) (readers (strictly self.now.grammar.now.text.now) self.now.grammar.now.depth)) (view_bind first ∷ []) (place_of tokens.old)) result tokens.new }
    {
        let mut found = one(self.grammar.alloc, first)?;
        let mut turns = tokens.left();
        while tokens.sees(Symbol::Comma) {
            if turns == 0 {
                return Err(tokens.refusal(self.grammar.text));
            }
            turns -= 1;
            found = self.another_bind(tokens, found)?;
        }
        Ok(found)
    }

    #[tactic(auto, using(phrase_reader::proofs::Lists::binds_seen, phrase_reader::proofs::Lists::exprs_seen), unfolding(luau_grammar::specs::ReadStatements::generic_for))]
    fn generic_for(
        &self,
        tokens: &mut Tokens<'_, '_>,
        from: u32,
        x: Bind,
    ) -> Result<Stat, ParseError>
        requires { Nests self.now.grammar.now.text.now self.now.grammar.now.depth (E.pre self.now.grammar.now.exp) (E.post self.now.grammar.now.exp) (T.pre self.now.grammar.now.typ) (T.post self.now.grammar.now.typ) (B.pre self.now.grammar.now.block) (B.post self.now.grammar.now.block) }
        ensures { Reads view_stat (statements.generic_for (strictly self.now.grammar.now.text.now) (readers (strictly self.now.grammar.now.text.now) self.now.grammar.now.depth) from (view_bind x) (place_of tokens.old)) result tokens.new }
    {
        let names = self.binds_from(tokens, x)?;
        let _in = tokens.expect(self.grammar.text, Symbol::In)?;
        let prefixes = Prefixes {
            grammar: self.grammar,
        };
        let given = prefixes.expressions(tokens)?;
        let b = self.do_block(tokens)?;
        let span = tokens.span_from(from);
        Ok(gen_for_stat(span, names, given, b))
    }

    #[tactic(auto, unfolding(luau_grammar::specs::ReadStatements::for_statement))]
    pub fn for_statement(&self, tokens: &mut Tokens<'_, '_>, from: u32) -> Result<Stat, ParseError>
        requires { Nests self.now.grammar.now.text.now self.now.grammar.now.depth (E.pre self.now.grammar.now.exp) (E.post self.now.grammar.now.exp) (T.pre self.now.grammar.now.typ) (T.post self.now.grammar.now.typ) (B.pre self.now.grammar.now.block) (B.post self.now.grammar.now.block) }
        ensures { Reads view_stat (statements.for_statement (strictly self.now.grammar.now.text.now) (readers (strictly self.now.grammar.now.text.now) self.now.grammar.now.depth) from (place_of tokens.old)) result tokens.new }
    {
        let _for = tokens.expect(self.grammar.text, Symbol::For)?;
        let bodies = Bodies {
            grammar: self.grammar,
        };
        let x = bodies.bind(tokens)?;
        if tokens.sees(Symbol::Assign) {
            self.numeric_for(tokens, from, x)
        } else {
            self.generic_for(tokens, from, x)
        }
    }
}
