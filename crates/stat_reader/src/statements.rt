//! Statements by their first symbol, and blocks of them.
ghost use Rattle.std.specs.Prelude.{◌≡◌, ◌&&◌, not};
ghost use Rattle.luau_tree.specs.Tree as tree;
ghost use Rattle.luau_tree.specs.View.{view_block, view_exprs, view_stat};
ghost use Rattle.luau_grammar.specs.Places.{symbol};
ghost use Rattle.luau_grammar.specs.Statements as grammar;
ghost use Rattle.stat_reader.specs.SeenStatements.{seen_statements};
ghost use Rattle.phrase_reader.specs.Nests.{Nests};
ghost use Rattle.phrase_reader.specs.Outcomes.{Reads, place_of};
ghost use Rattle.luau_grammar.specs.Reading.{strictly};
ghost use Rattle.luau_grammar.specs.ReadModules.{readers};
ghost use Rattle.luau_grammar.specs.ReadStatements as statements;

use crate::kinds::is_last;
use crate::reader::Stats;
use luau_grammar::{ParseError, Symbol, begins_block, begins_expression};
use luau_tree::parts::block_of;
use luau_tree::stats::{break_stat, continue_stat, return_stat};
use luau_tree::{Block, Expr, Stat, TypeSyntax};
use phrase_reader::{Listed, Tokens};
use prefix_reader::Prefixes;
use sqlite_items::Items;
use std::alloc::Global;

/// The statements of a block so far, and whether the last of them ends it.
#[derive(Drop)]
pub struct Statements {
    found: Items<Stat>,
    ended: bool,
}

/// Whether another statement of a block stands at a place.
fn goes_on(tokens: &Tokens<'_, '_>, given: &Statements) -> bool
    ensures { result ≡ (not (seen_statements given.now).ended && grammar.begins (symbol (place_of tokens.now))) }
{
    !given.ended && begins_block(tokens.symbol())
}

impl<
    'g,
    's,
    E: Fn(Global, &[u8], &mut Tokens<'_, '_>, usize) -> Result<Expr, ParseError>,
    T: Fn(
        Global,
        &[u8],
        &mut Tokens<'_, '_>,
        usize,
        Option<Listed>,
    ) -> Result<TypeSyntax, ParseError>,
    B: Fn(Global, &[u8], &mut Tokens<'_, '_>, usize) -> Result<Block, ParseError>,
> Stats<'g, 's, E, T, B> {
    #[tactic(auto, using(phrase_reader::proofs::Lists::exprs_seen), unfolding(luau_grammar::specs::ReadStatements::maybe_expressions))]
    fn maybe_expressions(&self, tokens: &mut Tokens<'_, '_>) -> Result<Items<Expr>, ParseError>
        requires { Nests self.now.grammar.now.text.now self.now.grammar.now.depth (E.pre self.now.grammar.now.exp) (E.post self.now.grammar.now.exp) (T.pre self.now.grammar.now.typ) (T.post self.now.grammar.now.typ) (B.pre self.now.grammar.now.block) (B.post self.now.grammar.now.block) }
        ensures { Reads view_exprs (statements.maybe_expressions (strictly self.now.grammar.now.text.now) (readers (strictly self.now.grammar.now.text.now) self.now.grammar.now.depth) (place_of tokens.old)) result tokens.new }
    {
        if !begins_expression(tokens.symbol()) {
            return Ok(Items::new(self.grammar.alloc));
        }
        let prefixes = Prefixes {
            grammar: self.grammar,
        };
        prefixes.expressions(tokens)
    }

    #[tactic(auto, unfolding(luau_grammar::specs::ReadStatements::return_statement))]
    fn return_statement(&self, tokens: &mut Tokens<'_, '_>, from: u32) -> Result<Stat, ParseError>
        requires { Nests self.now.grammar.now.text.now self.now.grammar.now.depth (E.pre self.now.grammar.now.exp) (E.post self.now.grammar.now.exp) (T.pre self.now.grammar.now.typ) (T.post self.now.grammar.now.typ) (B.pre self.now.grammar.now.block) (B.post self.now.grammar.now.block) }
        ensures { Reads view_stat (statements.return_statement (strictly self.now.grammar.now.text.now) (readers (strictly self.now.grammar.now.text.now) self.now.grammar.now.depth) from (place_of tokens.old)) result tokens.new }
    {
        let _return = tokens.expect(self.grammar.text, Symbol::Return)?;
        let values = self.maybe_expressions(tokens)?;
        let span = tokens.span_from(from);
        Ok(return_stat(span, values))
    }

    #[tactic(auto, unfolding(luau_grammar::specs::ReadStatements::word_statement))]
    fn break_statement(&self, tokens: &mut Tokens<'_, '_>, from: u32) -> Result<Stat, ParseError>
        requires { Nests self.now.grammar.now.text.now self.now.grammar.now.depth (E.pre self.now.grammar.now.exp) (E.post self.now.grammar.now.exp) (T.pre self.now.grammar.now.typ) (T.post self.now.grammar.now.typ) (B.pre self.now.grammar.now.block) (B.post self.now.grammar.now.block) }
        ensures { Reads view_stat (statements.word_statement (strictly self.now.grammar.now.text.now) (readers (strictly self.now.grammar.now.text.now) self.now.grammar.now.depth) from tree.Break (place_of tokens.old)) result tokens.new }
    {
        let _break = tokens.next(self.grammar.text)?;
        Ok(break_stat(tokens.span_from(from)))
    }

    #[tactic(auto, unfolding(luau_grammar::specs::ReadStatements::word_statement))]
    fn continue_statement(&self, tokens: &mut Tokens<'_, '_>, from: u32) -> Result<Stat, ParseError>
        requires { Nests self.now.grammar.now.text.now self.now.grammar.now.depth (E.pre self.now.grammar.now.exp) (E.post self.now.grammar.now.exp) (T.pre self.now.grammar.now.typ) (T.post self.now.grammar.now.typ) (B.pre self.now.grammar.now.block) (B.post self.now.grammar.now.block) }
        ensures { Reads view_stat (statements.word_statement (strictly self.now.grammar.now.text.now) (readers (strictly self.now.grammar.now.text.now) self.now.grammar.now.depth) from tree.Continue (place_of tokens.old)) result tokens.new }
    {
        let _continue = tokens.next(self.grammar.text)?;
        Ok(continue_stat(tokens.span_from(from)))
    }

    /// A statement that begins with a name, which may be a word.
    #[tactic(auto, unfolding(luau_grammar::specs::ReadStatements::name_statement))]
    fn name_statement(&self, tokens: &mut Tokens<'_, '_>, from: u32) -> Result<Stat, ParseError>
        requires { Nests self.now.grammar.now.text.now self.now.grammar.now.depth (E.pre self.now.grammar.now.exp) (E.post self.now.grammar.now.exp) (T.pre self.now.grammar.now.typ) (T.post self.now.grammar.now.typ) (B.pre self.now.grammar.now.block) (B.post self.now.grammar.now.block) }
        ensures { Reads view_stat (statements.name_statement (strictly self.now.grammar.now.text.now) (readers (strictly self.now.grammar.now.text.now) self.now.grammar.now.depth) from (place_of tokens.old)) result tokens.new }
    {
        if tokens.sees_continue() {
            return self.continue_statement(tokens, from);
        }
        if tokens.sees_type() {
            return self.type_statement(tokens, from, false);
        }
        if !tokens.sees_export() {
            return self.prefix_statement(tokens, from);
        }
        let _export = tokens.next(self.grammar.text)?;
        self.type_statement(tokens, from, true)
    }

    #[tactic(auto, unfolding(luau_grammar::specs::ReadStatements::statement))]
    fn statement(&self, tokens: &mut Tokens<'_, '_>) -> Result<Stat, ParseError>
        requires { Nests self.now.grammar.now.text.now self.now.grammar.now.depth (E.pre self.now.grammar.now.exp) (E.post self.now.grammar.now.exp) (T.pre self.now.grammar.now.typ) (T.post self.now.grammar.now.typ) (B.pre self.now.grammar.now.block) (B.post self.now.grammar.now.block) }
        ensures { Reads view_stat (statements.statement (strictly self.now.grammar.now.text.now) (readers (strictly self.now.grammar.now.text.now) self.now.grammar.now.depth) (place_of tokens.old)) result tokens.new }
    {
        let from = tokens.start();
        match tokens.symbol() {
            Symbol::Name => self.name_statement(tokens, from),
            Symbol::LeftParen => self.prefix_statement(tokens, from),
            Symbol::Do => self.do_statement(tokens, from),
            Symbol::While => self.while_statement(tokens, from),
            Symbol::Repeat => self.repeat_statement(tokens, from),
            Symbol::If => self.if_statement(tokens, from),
            Symbol::For => self.for_statement(tokens, from),
            Symbol::AtSign => self.attributed(tokens, from),
            Symbol::Function => self.function_statement(tokens, from),
            Symbol::Local => self.local_statement(tokens, from),
            Symbol::Return => self.return_statement(tokens, from),
            Symbol::Break => self.break_statement(tokens, from),
            _ => Err(tokens.refusal(self.grammar.text)),
        }
    }

    /// One more statement, and the `;` behind it.
    #[tactic(auto, unfolding(luau_grammar::specs::ReadStatements::another_statement))]
    fn another_statement(
        &self,
        tokens: &mut Tokens<'_, '_>,
        given: Statements,
    ) -> Result<Statements, ParseError>
        requires { Nests self.now.grammar.now.text.now self.now.grammar.now.depth (E.pre self.now.grammar.now.exp) (E.post self.now.grammar.now.exp) (T.pre self.now.grammar.now.typ) (T.post self.now.grammar.now.typ) (B.pre self.now.grammar.now.block) (B.post self.now.grammar.now.block) }
        ensures { Reads seen_statements (statements.another_statement (strictly self.now.grammar.now.text.now) (readers (strictly self.now.grammar.now.text.now) self.now.grammar.now.depth) (seen_statements given) (place_of tokens.old)) result tokens.new }
    {
        let x = self.statement(tokens)?;
        let ended = is_last(&x);
        let _semicolon = tokens.eat(self.grammar.text, Symbol::Semicolon)?;
        let mut found = given.found;
        found.push(x)?;
        Ok(Statements { found, ended })
    }

    /// The statements of a block.
    #[tactic(auto, using(phrase_reader::proofs::Lists::stats_seen), unfolding(luau_grammar::specs::ReadStatements::block_inside))]
    pub fn block_inside(&self, tokens: &mut Tokens<'_, '_>) -> Result<Block, ParseError>
        requires { Nests self.now.grammar.now.text.now self.now.grammar.now.depth (E.pre self.now.grammar.now.exp) (E.post self.now.grammar.now.exp) (T.pre self.now.grammar.now.typ) (T.post self.now.grammar.now.typ) (B.pre self.now.grammar.now.block) (B.post self.now.grammar.now.block) }
        ensures { Reads view_block (statements.block_inside (strictly self.now.grammar.now.text.now) (readers (strictly self.now.grammar.now.text.now) self.now.grammar.now.depth) (place_of tokens.old)) result tokens.new }
    {
        let mut given = Statements {
            found: Items::new(self.grammar.alloc),
            ended: false,
        };
        let mut turns = tokens.left();
        while goes_on(tokens, &given) {
            if turns == 0 {
                return Err(tokens.refusal(self.grammar.text));
            }
            turns -= 1;
            given = self.another_statement(tokens, given)?;
        }
        Ok(block_of(given.found))
    }
}
