//! The phrases that hold one another: expressions, types and blocks. What reads the forms of one of them takes the
//! functions that read all three, so that each is proved by itself.
ghost use Rattle.std.specs.Prelude.{◌≡◌, ◌≤◌, length};
ghost use Rattle.luau_tree.specs.View.{view_block, view_expr, view_type};
ghost use Rattle.phrase_reader.specs.Nests.{Nests};
ghost use Rattle.phrase_reader.specs.Outcomes.{Reads, place_of, maybe_listed};
ghost use Rattle.luau_grammar.specs.Reading.{strictly};
ghost use Rattle.luau_grammar.specs.ReadModules.{readers};
ghost use Rattle.luau_grammar.specs.ReadPhrases as phrases;

use crate::listed::Listed;
use crate::tokens::{MAX_LEVEL, Tokens};
use luau_grammar::{ParseError, begins_block, begins_expression, begins_type};
use luau_tree::{Block, Expr, MAX_TEXT, TypeSyntax};
use std::alloc::Global;

/// A text, and the functions that read the phrases of its grammar at a depth.
#[derive(Clone, Copy)]
pub struct Grammar<'s, E, T, B> {
    pub alloc: Global,
    pub text: &'s [u8],
    /// How deep phrases may still nest.
    pub depth: usize,
    pub exp: E,
    pub typ: T,
    pub block: B,
}

impl<
    's,
    E: Fn(Global, &[u8], &mut Tokens<'_, '_>, usize) -> Result<Expr, ParseError>,
    T: Fn(
        Global,
        &[u8],
        &mut Tokens<'_, '_>,
        usize,
        Option<Listed>,
    ) -> Result<TypeSyntax, ParseError>,
    B: Fn(Global, &[u8], &mut Tokens<'_, '_>, usize) -> Result<Block, ParseError>,
> Grammar<'s, E, T, B> {
    /// An expression.
    #[tactic(auto, unfolding(luau_grammar::specs::ReadPhrases::expression, luau_grammar::specs::Reading::phrase))]
    pub fn expression(&self, tokens: &mut Tokens<'_, '_>) -> Result<Expr, ParseError>
        requires { Nests self.now.text.now self.now.depth (E.pre self.now.exp) (E.post self.now.exp) (T.pre self.now.typ) (T.post self.now.typ) (B.pre self.now.block) (B.post self.now.block) }
        ensures { Reads view_expr (phrases.expression (strictly self.now.text.now) (readers (strictly self.now.text.now) self.now.depth) (place_of tokens.old)) result tokens.new }
    {
        let level = tokens.level();
        if level > MAX_LEVEL {
            return Err(if begins_expression(tokens.symbol()) {
                tokens.deep_refusal(self.text)
            } else {
                tokens.refusal(self.text)
            });
        }
        tokens.set_level(level + 1);
        let e = (self.exp)(self.alloc, self.text, tokens, self.depth)?;
        tokens.set_level(level);
        Ok(e)
    }

    /// A type, whose list in parentheses may have been read.
    #[tactic(auto, unfolding(luau_grammar::specs::ReadPhrases::typ, luau_grammar::specs::Reading::phrase))]
    pub fn typ(
        &self,
        tokens: &mut Tokens<'_, '_>,
        begun: Option<Listed>,
    ) -> Result<TypeSyntax, ParseError>
        requires { Nests self.now.text.now self.now.depth (E.pre self.now.exp) (E.post self.now.exp) (T.pre self.now.typ) (T.post self.now.typ) (B.pre self.now.block) (B.post self.now.block) }
        ensures { Reads view_type (phrases.typ (strictly self.now.text.now) (readers (strictly self.now.text.now) self.now.depth) (maybe_listed begun) (place_of tokens.old)) result tokens.new }
    {
        let level = tokens.level();
        if level > MAX_LEVEL {
            return Err(if begun.is_some() || begins_type(tokens.symbol()) {
                tokens.deep_refusal(self.text)
            } else {
                tokens.refusal(self.text)
            });
        }
        tokens.set_level(level + 1);
        let t = (self.typ)(self.alloc, self.text, tokens, self.depth, begun)?;
        tokens.set_level(level);
        Ok(t)
    }

    /// A block.
    #[tactic(auto, unfolding(luau_grammar::specs::ReadPhrases::block, luau_grammar::specs::Reading::phrase))]
    pub fn block(&self, tokens: &mut Tokens<'_, '_>) -> Result<Block, ParseError>
        requires { Nests self.now.text.now self.now.depth (E.pre self.now.exp) (E.post self.now.exp) (T.pre self.now.typ) (T.post self.now.typ) (B.pre self.now.block) (B.post self.now.block) }
        ensures { Reads view_block (phrases.block (strictly self.now.text.now) (readers (strictly self.now.text.now) self.now.depth) (place_of tokens.old)) result tokens.new }
    {
        let level = tokens.level();
        if level > MAX_LEVEL {
            return Err(if begins_block(tokens.symbol()) {
                tokens.deep_refusal(self.text)
            } else {
                tokens.refusal(self.text)
            });
        }
        tokens.set_level(level + 1);
        let b = (self.block)(self.alloc, self.text, tokens, self.depth)?;
        tokens.set_level(level);
        Ok(b)
    }
}
