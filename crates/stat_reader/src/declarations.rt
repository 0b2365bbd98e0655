//! Statements that declare: functions, locals and types.
ghost use Rattle.luau_tree.specs.View.{view_expr, view_exprs, view_stat};
ghost use Rattle.stat_reader.specs.SeenStatements.{seen_method};
ghost use Rattle.phrase_reader.specs.Nests.{Nests};
ghost use Rattle.phrase_reader.specs.Outcomes.{Reads, place_of};
ghost use Rattle.luau_grammar.specs.Reading.{strictly};
ghost use Rattle.luau_grammar.specs.ReadModules.{readers};
ghost use Rattle.luau_grammar.specs.ReadStatements as statements;

use crate::reader::Stats;
use body_reader::Bodies;
use luau_grammar::{ParseError, Symbol};
use luau_tree::parts::bind_of;
use luau_tree::stats::{
    function_stat, local_function_stat, local_stat, type_alias_stat, type_function_stat,
};
use luau_tree::{Block, Bytes, Expr, Span, Stat, TypeSyntax};
use phrase_reader::{Listed, Tokens};
use prefix_reader::Prefixes;
use sqlite_items::Items;
use std::alloc::Global;
use type_list_reader::TypeLists;

/// The name of a method behind the path of a function, and the name's span.
#[derive(Drop)]
pub struct MethodName {
    name: Option<Bytes>,
    span: Option<Span>,
}

impl<
    'g,
    's,
    E: Fn(Global, &[u8], &mut Tokens<'_, '_>, usize) -> Result<Expr, ParseError>,
    T: Fn(
        Global,
        &[u8],
        &mut Tokens<'_, '_>,
        usize,
        Option<Listed>,
    ) -> Result<TypeSyntax, ParseError>,
    B: Fn(Global, &[u8], &mut Tokens<'_, '_>, usize) -> Result<Block, ParseError>,
> Stats<'g, 's, E, T, B> {
    /// `a.b.c`, as the expression that it spells.
    #[tactic(auto, unfolding(luau_grammar::specs::ReadStatements::path, luau_grammar::specs::ReadStatements::path_name))]
    fn path(&self, tokens: &mut Tokens<'_, '_>) -> Result<Expr, ParseError>
        requires { Nests self.now.grammar.now.text.now self.now.grammar.now.depth (E.pre self.now.grammar.now.exp) (E.post self.now.grammar.now.exp) (T.pre self.now.grammar.now.typ) (T.post self.now.grammar.now.typ) (B.pre self.now.grammar.now.block) (B.post self.now.grammar.now.block) }
        ensures { Reads view_expr (statements.path (strictly self.now.grammar.now.text.now) (readers (strictly self.now.grammar.now.text.now) self.now.grammar.now.depth) (place_of tokens.old)) result tokens.new }
    {
        let from = tokens.start();
        let prefixes = Prefixes {
            grammar: self.grammar,
        };
        let mut e = prefixes.name_expression(tokens)?;
        let mut turns = tokens.left();
        while tokens.sees(Symbol::Dot) {
            if turns == 0 {
                return Err(tokens.refusal(self.grammar.text));
            }
            turns -= 1;
            e = prefixes.index(tokens, from, e)?;
        }
        Ok(e)
    }

    #[tactic(auto, unfolding(luau_grammar::specs::ReadStatements::method_name))]
    fn method_name(&self, tokens: &mut Tokens<'_, '_>) -> Result<MethodName, ParseError>
        requires { Nests self.now.grammar.now.text.now self.now.grammar.now.depth (E.pre self.now.grammar.now.exp) (E.post self.now.grammar.now.exp) (T.pre self.now.grammar.now.typ) (T.post self.now.grammar.now.typ) (B.pre self.now.grammar.now.block) (B.post self.now.grammar.now.block) }
        ensures { Reads seen_method (statements.method_name (strictly self.now.grammar.now.text.now) (readers (strictly self.now.grammar.now.text.now) self.now.grammar.now.depth) (place_of tokens.old)) result tokens.new }
    {
        if !tokens.sees(Symbol::Colon) {
            return Ok(MethodName {
                name: None,
                span: None,
            });
        }
        let _colon = tokens.expect(self.grammar.text, Symbol::Colon)?;
        tokens.raise(self.grammar.text)?;
        let from = tokens.start();
        let name = tokens.name(self.grammar.alloc, self.grammar.text)?;
        let span = tokens.span_from(from);
        Ok(MethodName {
            name: Some(name),
            span: Some(span),
        })
    }

    /// `function a.b.c:m() .. end`, behind its attributes.
    #[tactic(auto, unfolding(luau_grammar::specs::ReadStatements::function_statement))]
    pub fn function_statement(
        &self,
        tokens: &mut Tokens<'_, '_>,
        from: u32,
    ) -> Result<Stat, ParseError>
        requires { Nests self.now.grammar.now.text.now self.now.grammar.now.depth (E.pre self.now.grammar.now.exp) (E.post self.now.grammar.now.exp) (T.pre self.now.grammar.now.typ) (T.post self.now.grammar.now.typ) (B.pre self.now.grammar.now.block) (B.post self.now.grammar.now.block) }
        ensures { Reads view_stat (statements.function_statement (strictly self.now.grammar.now.text.now) (readers (strictly self.now.grammar.now.text.now) self.now.grammar.now.depth) from (place_of tokens.old)) result tokens.new }
    {
        let _function = tokens.expect(self.grammar.text, Symbol::Function)?;
        let outer = tokens.level();
        let way = self.path(tokens)?;
        let method = self.method_name(tokens)?;
        tokens.set_level(outer);
        let bodies = Bodies {
            grammar: self.grammar,
        };
        let b = bodies.body(tokens, method.span)?;
        let span = tokens.span_from(from);
        Ok(function_stat(span, way, method.name, b))
    }

    /// `local function f() .. end`, behind the first word.
    #[tactic(auto, unfolding(luau_grammar::specs::ReadStatements::local_function))]
    fn local_function(&self, tokens: &mut Tokens<'_, '_>, from: u32) -> Result<Stat, ParseError>
        requires { Nests self.now.grammar.now.text.now self.now.grammar.now.depth (E.pre self.now.grammar.now.exp) (E.post self.now.grammar.now.exp) (T.pre self.now.grammar.now.typ) (T.post self.now.grammar.now.typ) (B.pre self.now.grammar.now.block) (B.post self.now.grammar.now.block) }
        ensures { Reads view_stat (statements.local_function (strictly self.now.grammar.now.text.now) (readers (strictly self.now.grammar.now.text.now) self.now.grammar.now.depth) from (place_of tokens.old)) result tokens.new }
    {
        let _function = tokens.expect(self.grammar.text, Symbol::Function)?;
        let name_from = tokens.start();
        let name = tokens.name(self.grammar.alloc, self.grammar.text)?;
        let name_span = tokens.span_from(name_from);
        let bodies = Bodies {
            grammar: self.grammar,
        };
        let b = bodies.body(tokens, None)?;
        let span = tokens.span_from(from);
        Ok(local_function_stat(span, bind_of(name, name_span, None), b))
    }

    #[tactic(auto, using(phrase_reader::proofs::Lists::exprs_seen), unfolding(luau_grammar::specs::ReadStatements::maybe_values))]
    fn maybe_values(&self, tokens: &mut Tokens<'_, '_>) -> Result<Items<Expr>, ParseError>
        requires { Nests self.now.grammar.now.text.now self.now.grammar.now.depth (E.pre self.now.grammar.now.exp) (E.post self.now.grammar.now.exp) (T.pre self.now.grammar.now.typ) (T.post self.now.grammar.now.typ) (B.pre self.now.grammar.now.block) (B.post self.now.grammar.now.block) }
        ensures { Reads view_exprs (statements.maybe_values (strictly self.now.grammar.now.text.now) (readers (strictly self.now.grammar.now.text.now) self.now.grammar.now.depth) (place_of tokens.old)) result tokens.new }
    {
        if !tokens.sees(Symbol::Assign) {
            return Ok(Items::new(self.grammar.alloc));
        }
        let _sign = tokens.expect(self.grammar.text, Symbol::Assign)?;
        let prefixes = Prefixes {
            grammar: self.grammar,
        };
        prefixes.expressions(tokens)
    }

    /// `local a, b = x, y`, behind the first word.
    #[tactic(auto, using(phrase_reader::proofs::Lists::binds_seen), unfolding(luau_grammar::specs::ReadStatements::local_names, luau_grammar::specs::Reading::separated))]
    fn local_names(&self, tokens: &mut Tokens<'_, '_>, from: u32) -> Result<Stat, ParseError>
        requires { Nests self.now.grammar.now.text.now self.now.grammar.now.depth (E.pre self.now.grammar.now.exp) (E.post self.now.grammar.now.exp) (T.pre self.now.grammar.now.typ) (T.post self.now.grammar.now.typ) (B.pre self.now.grammar.now.block) (B.post self.now.grammar.now.block) }
        ensures { Reads view_stat (statements.local_names (strictly self.now.grammar.now.text.now) (readers (strictly self.now.grammar.now.text.now) self.now.grammar.now.depth) from (place_of tokens.old)) result tokens.new }
    {
        let bodies = Bodies {
            grammar: self.grammar,
        };
        let first = bodies.bind(tokens)?;
        let names = self.binds_from(tokens, first)?;
        let given = self.maybe_values(tokens)?;
        let span = tokens.span_from(from);
        Ok(local_stat(span, names, given))
    }

    #[tactic(auto, unfolding(luau_grammar::specs::ReadStatements::local_statement))]
    pub fn local_statement(
        &self,
        tokens: &mut Tokens<'_, '_>,
        from: u32,
    ) -> Result<Stat, ParseError>
        requires { Nests self.now.grammar.now.text.now self.now.grammar.now.depth (E.pre self.now.grammar.now.exp) (E.post self.now.grammar.now.exp) (T.pre self.now.grammar.now.typ) (T.post self.now.grammar.now.typ) (B.pre self.now.grammar.now.block) (B.post self.now.grammar.now.block) }
        ensures { Reads view_stat (statements.local_statement (strictly self.now.grammar.now.text.now) (readers (strictly self.now.grammar.now.text.now) self.now.grammar.now.depth) from (place_of tokens.old)) result tokens.new }
    {
        let _local = tokens.expect(self.grammar.text, Symbol::Local)?;
        if tokens.sees(Symbol::Function) {
            self.local_function(tokens, from)
        } else {
            self.local_names(tokens, from)
        }
    }

    /// A function with attributes.
    #[tactic(auto, unfolding(luau_grammar::specs::ReadStatements::attributed))]
    pub fn attributed(&self, tokens: &mut Tokens<'_, '_>, from: u32) -> Result<Stat, ParseError>
        requires { Nests self.now.grammar.now.text.now self.now.grammar.now.depth (E.pre self.now.grammar.now.exp) (E.post self.now.grammar.now.exp) (T.pre self.now.grammar.now.typ) (T.post self.now.grammar.now.typ) (B.pre self.now.grammar.now.block) (B.post self.now.grammar.now.block) }
        ensures { Reads view_stat (statements.attributed (strictly self.now.grammar.now.text.now) (readers (strictly self.now.grammar.now.text.now) self.now.grammar.now.depth) from (place_of tokens.old)) result tokens.new }
    {
        let bodies = Bodies {
            grammar: self.grammar,
        };
        bodies.attributes(tokens)?;
        if !tokens.sees(Symbol::Local) {
            return self.function_statement(tokens, from);
        }
        let _local = tokens.expect(self.grammar.text, Symbol::Local)?;
        self.local_function(tokens, from)
    }

    /// `type T<U> = V`, behind the first word.
    #[tactic(auto, unfolding(luau_grammar::specs::ReadStatements::alias))]
    fn alias(
        &self,
        tokens: &mut Tokens<'_, '_>,
        from: u32,
        exported: bool,
    ) -> Result<Stat, ParseError>
        requires { Nests self.now.grammar.now.text.now self.now.grammar.now.depth (E.pre self.now.grammar.now.exp) (E.post self.now.grammar.now.exp) (T.pre self.now.grammar.now.typ) (T.post self.now.grammar.now.typ) (B.pre self.now.grammar.now.block) (B.post self.now.grammar.now.block) }
        ensures { Reads view_stat (statements.alias (strictly self.now.grammar.now.text.now) (readers (strictly self.now.grammar.now.text.now) self.now.grammar.now.depth) from exported (place_of tokens.old)) result tokens.new }
    {
        let name = tokens.name(self.grammar.alloc, self.grammar.text)?;
        let lists = TypeLists {
            grammar: self.grammar,
        };
        let generics = lists.generics(tokens, true)?;
        let _sign = tokens.expect(self.grammar.text, Symbol::Assign)?;
        let t = self.grammar.typ(tokens, None)?;
        let span = tokens.span_from(from);
        Ok(type_alias_stat(span, exported, name, generics, t))
    }

    /// `type function f() .. end`, behind the first word.
    #[tactic(auto, unfolding(luau_grammar::specs::ReadStatements::type_function))]
    fn type_function(
        &self,
        tokens: &mut Tokens<'_, '_>,
        from: u32,
        exported: bool,
    ) -> Result<Stat, ParseError>
        requires { Nests self.now.grammar.now.text.now self.now.grammar.now.depth (E.pre self.now.grammar.now.exp) (E.post self.now.grammar.now.exp) (T.pre self.now.grammar.now.typ) (T.post self.now.grammar.now.typ) (B.pre self.now.grammar.now.block) (B.post self.now.grammar.now.block) }
        ensures { Reads view_stat (statements.type_function (strictly self.now.grammar.now.text.now) (readers (strictly self.now.grammar.now.text.now) self.now.grammar.now.depth) from exported (place_of tokens.old)) result tokens.new }
    {
        let _function = tokens.expect(self.grammar.text, Symbol::Function)?;
        let name = tokens.name(self.grammar.alloc, self.grammar.text)?;
        let bodies = Bodies {
            grammar: self.grammar,
        };
        let b = bodies.body(tokens, None)?;
        let span = tokens.span_from(from);
        Ok(type_function_stat(span, exported, name, b))
    }

    #[tactic(auto, unfolding(luau_grammar::specs::ReadStatements::type_statement))]
    pub fn type_statement(
        &self,
        tokens: &mut Tokens<'_, '_>,
        from: u32,
        exported: bool,
    ) -> Result<Stat, ParseError>
        requires { Nests self.now.grammar.now.text.now self.now.grammar.now.depth (E.pre self.now.grammar.now.exp) (E.post self.now.grammar.now.exp) (T.pre self.now.grammar.now.typ) (T.post self.now.grammar.now.typ) (B.pre self.now.grammar.now.block) (B.post self.now.grammar.now.block) }
        ensures { Reads view_stat (statements.type_statement (strictly self.now.grammar.now.text.now) (readers (strictly self.now.grammar.now.text.now) self.now.grammar.now.depth) from exported (place_of tokens.old)) result tokens.new }
    {
        let _type = tokens.next(self.grammar.text)?;
        if tokens.sees(Symbol::Function) {
            self.type_function(tokens, from, exported)
        } else {
            self.alias(tokens, from, exported)
        }
    }
}
