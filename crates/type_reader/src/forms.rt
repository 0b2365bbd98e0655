//! Types without `?`, `|` and `&`.
ghost use Rattle.std.specs.Prelude.{◌≡◌};
ghost use Rattle.luau_tree.specs.Tree as tree;
ghost use Rattle.luau_tree.specs.View.{view_type};
ghost use Rattle.phrase_reader.specs.Nests.{Nests};
ghost use Rattle.phrase_reader.specs.Outcomes.{Reads, place_of, maybe_listed, seen_listed};
ghost use Rattle.luau_grammar.specs.Reading.{strictly};
ghost use Rattle.luau_grammar.specs.ReadModules.{readers};
ghost use Rattle.luau_grammar.specs.ReadTypes as written;

use crate::reader::Types;
use luau_grammar::{ParseError, Symbol};
use luau_tree::types::{bool_type, func_type, named_type, nil_type, str_type, typeof_type};
use luau_tree::{Block, Bytes, Expr, TypeSyntax};
use phrase_reader::{Listed, Tokens, in_parens};
use sqlite_items::Items;
use std::alloc::Global;
use type_list_reader::TypeLists;

impl<
    'g,
    's,
    E: Fn(Global, &[u8], &mut Tokens<'_, '_>, usize) -> Result<Expr, ParseError>,
    T: Fn(
        Global,
        &[u8],
        &mut Tokens<'_, '_>,
        usize,
        Option<Listed>,
    ) -> Result<TypeSyntax, ParseError>,
    B: Fn(Global, &[u8], &mut Tokens<'_, '_>, usize) -> Result<Block, ParseError>,
> Types<'g, 's, E, T, B> {
    #[tactic(auto, unfolding(luau_grammar::specs::ReadTypes::typeof_form))]
    fn typeof_form(&self, tokens: &mut Tokens<'_, '_>) -> Result<TypeSyntax, ParseError>
        requires { Nests self.now.grammar.now.text.now self.now.grammar.now.depth (E.pre self.now.grammar.now.exp) (E.post self.now.grammar.now.exp) (T.pre self.now.grammar.now.typ) (T.post self.now.grammar.now.typ) (B.pre self.now.grammar.now.block) (B.post self.now.grammar.now.block) }
        ensures { Reads view_type (written.typeof_form (strictly self.now.grammar.now.text.now) (readers (strictly self.now.grammar.now.text.now) self.now.grammar.now.depth) (place_of tokens.old)) result tokens.new }
    {
        let from = tokens.start();
        let _word = tokens.expect(self.grammar.text, Symbol::Name)?;
        let _open = tokens.expect(self.grammar.text, Symbol::LeftParen)?;
        let e = self.grammar.expression(tokens)?;
        let _close = tokens.expect(self.grammar.text, Symbol::RightParen)?;
        let span = tokens.span_from(from);
        Ok(typeof_type(self.grammar.alloc, span, e)?)
    }

    #[tactic(auto, unfolding(luau_grammar::specs::ReadTypes::dotted))]
    fn dotted(
        &self,
        tokens: &mut Tokens<'_, '_>,
        from: u32,
        first: Bytes,
    ) -> Result<TypeSyntax, ParseError>
        requires { Nests self.now.grammar.now.text.now self.now.grammar.now.depth (E.pre self.now.grammar.now.exp) (E.post self.now.grammar.now.exp) (T.pre self.now.grammar.now.typ) (T.post self.now.grammar.now.typ) (B.pre self.now.grammar.now.block) (B.post self.now.grammar.now.block) }
        ensures { Reads view_type (written.dotted (strictly self.now.grammar.now.text.now) (readers (strictly self.now.grammar.now.text.now) self.now.grammar.now.depth) from first (place_of tokens.old)) result tokens.new }
    {
        let _dot = tokens.expect(self.grammar.text, Symbol::Dot)?;
        let second = tokens.name(self.grammar.alloc, self.grammar.text)?;
        let lists = TypeLists {
            grammar: self.grammar,
        };
        let args = lists.type_arguments(tokens)?;
        let span = tokens.span_from(from);
        Ok(named_type(span, Some(first), second, args))
    }

    #[tactic(auto, unfolding(luau_grammar::specs::ReadTypes::undotted))]
    fn undotted(
        &self,
        tokens: &mut Tokens<'_, '_>,
        from: u32,
        first: Bytes,
    ) -> Result<TypeSyntax, ParseError>
        requires { Nests self.now.grammar.now.text.now self.now.grammar.now.depth (E.pre self.now.grammar.now.exp) (E.post self.now.grammar.now.exp) (T.pre self.now.grammar.now.typ) (T.post self.now.grammar.now.typ) (B.pre self.now.grammar.now.block) (B.post self.now.grammar.now.block) }
        ensures { Reads view_type (written.undotted (strictly self.now.grammar.now.text.now) (readers (strictly self.now.grammar.now.text.now) self.now.grammar.now.depth) from first (place_of tokens.old)) result tokens.new }
    {
        let lists = TypeLists {
            grammar: self.grammar,
        };
        let args = lists.type_arguments(tokens)?;
        let span = tokens.span_from(from);
        Ok(named_type(span, None, first, args))
    }

    #[tactic(auto, unfolding(luau_grammar::specs::ReadTypes::named, luau_grammar::specs::ReadTypes::named_behind))]
    fn named(&self, tokens: &mut Tokens<'_, '_>) -> Result<TypeSyntax, ParseError>
        requires { Nests self.now.grammar.now.text.now self.now.grammar.now.depth (E.pre self.now.grammar.now.exp) (E.post self.now.grammar.now.exp) (T.pre self.now.grammar.now.typ) (T.post self.now.grammar.now.typ) (B.pre self.now.grammar.now.block) (B.post self.now.grammar.now.block) }
        ensures { Reads view_type (written.named (strictly self.now.grammar.now.text.now) (readers (strictly self.now.grammar.now.text.now) self.now.grammar.now.depth) (place_of tokens.old)) result tokens.new }
    {
        let from = tokens.start();
        let first = tokens.name(self.grammar.alloc, self.grammar.text)?;
        if tokens.sees(Symbol::Dot) {
            self.dotted(tokens, from, first)
        } else {
            self.undotted(tokens, from, first)
        }
    }

    #[tactic(auto, using(phrase_reader::proofs::Lists::types_seen), unfolding(luau_grammar::specs::ReadTypes::generic_function))]
    fn generic_function(&self, tokens: &mut Tokens<'_, '_>) -> Result<TypeSyntax, ParseError>
        requires { Nests self.now.grammar.now.text.now self.now.grammar.now.depth (E.pre self.now.grammar.now.exp) (E.post self.now.grammar.now.exp) (T.pre self.now.grammar.now.typ) (T.post self.now.grammar.now.typ) (B.pre self.now.grammar.now.block) (B.post self.now.grammar.now.block) }
        ensures { Reads view_type (written.generic_function (strictly self.now.grammar.now.text.now) (readers (strictly self.now.grammar.now.text.now) self.now.grammar.now.depth) (place_of tokens.old)) result tokens.new }
    {
        let from = tokens.start();
        let lists = TypeLists {
            grammar: self.grammar,
        };
        let generics = lists.generics(tokens, false)?;
        let l = lists.listed(tokens)?;
        let _arrow = tokens.expect(self.grammar.text, Symbol::Arrow)?;
        let r = lists.type_result(tokens)?;
        let span = tokens.span_from(from);
        Ok(func_type(self.grammar.alloc, span, generics, l.types, r)?)
    }

    #[tactic(auto, unfolding(luau_grammar::specs::ReadTypes::word))]
    fn nil_form(&self, tokens: &mut Tokens<'_, '_>) -> Result<TypeSyntax, ParseError>
        requires { Nests self.now.grammar.now.text.now self.now.grammar.now.depth (E.pre self.now.grammar.now.exp) (E.post self.now.grammar.now.exp) (T.pre self.now.grammar.now.typ) (T.post self.now.grammar.now.typ) (B.pre self.now.grammar.now.block) (B.post self.now.grammar.now.block) }
        ensures { Reads view_type (written.word (strictly self.now.grammar.now.text.now) (readers (strictly self.now.grammar.now.text.now) self.now.grammar.now.depth) tree.NilType (place_of tokens.old)) result tokens.new }
    {
        let from = tokens.start();
        let _word = tokens.next(self.grammar.text)?;
        let span = tokens.span_from(from);
        Ok(nil_type(span))
    }

    #[tactic(auto, unfolding(luau_grammar::specs::ReadTypes::word))]
    fn bool_form(&self, tokens: &mut Tokens<'_, '_>, truth: bool) -> Result<TypeSyntax, ParseError>
        requires { Nests self.now.grammar.now.text.now self.now.grammar.now.depth (E.pre self.now.grammar.now.exp) (E.post self.now.grammar.now.exp) (T.pre self.now.grammar.now.typ) (T.post self.now.grammar.now.typ) (B.pre self.now.grammar.now.block) (B.post self.now.grammar.now.block) }
        ensures { Reads view_type (written.word (strictly self.now.grammar.now.text.now) (readers (strictly self.now.grammar.now.text.now) self.now.grammar.now.depth) (tree.BoolType truth) (place_of tokens.old)) result tokens.new }
    {
        let from = tokens.start();
        let _word = tokens.next(self.grammar.text)?;
        let span = tokens.span_from(from);
        Ok(bool_type(span, truth))
    }

    #[tactic(auto, unfolding(luau_grammar::specs::ReadTypes::literal))]
    fn text_form(&self, tokens: &mut Tokens<'_, '_>) -> Result<TypeSyntax, ParseError>
        requires { Nests self.now.grammar.now.text.now self.now.grammar.now.depth (E.pre self.now.grammar.now.exp) (E.post self.now.grammar.now.exp) (T.pre self.now.grammar.now.typ) (T.post self.now.grammar.now.typ) (B.pre self.now.grammar.now.block) (B.post self.now.grammar.now.block) }
        ensures { Reads view_type (written.literal (strictly self.now.grammar.now.text.now) (readers (strictly self.now.grammar.now.text.now) self.now.grammar.now.depth) (place_of tokens.old)) result tokens.new }
    {
        let from = tokens.start();
        let value = tokens.string(self.grammar.alloc, self.grammar.text, Symbol::Text)?;
        let span = tokens.span_from(from);
        Ok(str_type(span, value))
    }

    #[tactic(auto, unfolding(luau_grammar::specs::ReadTypes::name_form))]
    fn name_form(&self, tokens: &mut Tokens<'_, '_>) -> Result<TypeSyntax, ParseError>
        requires { Nests self.now.grammar.now.text.now self.now.grammar.now.depth (E.pre self.now.grammar.now.exp) (E.post self.now.grammar.now.exp) (T.pre self.now.grammar.now.typ) (T.post self.now.grammar.now.typ) (B.pre self.now.grammar.now.block) (B.post self.now.grammar.now.block) }
        ensures { Reads view_type (written.name_form (strictly self.now.grammar.now.text.now) (readers (strictly self.now.grammar.now.text.now) self.now.grammar.now.depth) (place_of tokens.old)) result tokens.new }
    {
        if tokens.sees_typeof() {
            self.typeof_form(tokens)
        } else {
            self.named(tokens)
        }
    }

    /// A type that does not begin with `(`.
    #[tactic(auto, unfolding(luau_grammar::specs::ReadTypes::form))]
    fn form(&self, tokens: &mut Tokens<'_, '_>) -> Result<TypeSyntax, ParseError>
        requires { Nests self.now.grammar.now.text.now self.now.grammar.now.depth (E.pre self.now.grammar.now.exp) (E.post self.now.grammar.now.exp) (T.pre self.now.grammar.now.typ) (T.post self.now.grammar.now.typ) (B.pre self.now.grammar.now.block) (B.post self.now.grammar.now.block) }
        ensures { Reads view_type (written.form (strictly self.now.grammar.now.text.now) (readers (strictly self.now.grammar.now.text.now) self.now.grammar.now.depth) (place_of tokens.old)) result tokens.new }
    {
        match tokens.symbol() {
            Symbol::Nil => self.nil_form(tokens),
            Symbol::True => self.bool_form(tokens, true),
            Symbol::False => self.bool_form(tokens, false),
            Symbol::Text => self.text_form(tokens),
            Symbol::Name => self.name_form(tokens),
            Symbol::LeftBrace => self.table_or_array(tokens),
            Symbol::Less => self.generic_function(tokens),
            _ => Err(tokens.refusal(self.grammar.text)),
        }
    }

    #[tactic(auto, using(phrase_reader::proofs::Lists::types_seen), unfolding(luau_grammar::specs::ReadTypes::function_behind))]
    fn function_behind(
        &self,
        tokens: &mut Tokens<'_, '_>,
        l: Listed,
    ) -> Result<TypeSyntax, ParseError>
        requires { Nests self.now.grammar.now.text.now self.now.grammar.now.depth (E.pre self.now.grammar.now.exp) (E.post self.now.grammar.now.exp) (T.pre self.now.grammar.now.typ) (T.post self.now.grammar.now.typ) (B.pre self.now.grammar.now.block) (B.post self.now.grammar.now.block) }
        ensures { Reads view_type (written.function_behind (strictly self.now.grammar.now.text.now) (readers (strictly self.now.grammar.now.text.now) self.now.grammar.now.depth) (seen_listed l) (place_of tokens.old)) result tokens.new }
    {
        let _arrow = tokens.expect(self.grammar.text, Symbol::Arrow)?;
        let lists = TypeLists {
            grammar: self.grammar,
        };
        let r = lists.type_result(tokens)?;
        let span = tokens.span_from(l.start);
        Ok(func_type(
            self.grammar.alloc,
            span,
            Items::new(self.grammar.alloc),
            l.types,
            r,
        )?)
    }

    /// A function type or a type in parentheses, behind its list.
    #[tactic(auto, unfolding(luau_grammar::specs::ReadTypes::listed_type))]
    fn listed_type(&self, tokens: &mut Tokens<'_, '_>, l: Listed) -> Result<TypeSyntax, ParseError>
        requires { Nests self.now.grammar.now.text.now self.now.grammar.now.depth (E.pre self.now.grammar.now.exp) (E.post self.now.grammar.now.exp) (T.pre self.now.grammar.now.typ) (T.post self.now.grammar.now.typ) (B.pre self.now.grammar.now.block) (B.post self.now.grammar.now.block) }
        ensures { Reads view_type (written.listed_type (strictly self.now.grammar.now.text.now) (readers (strictly self.now.grammar.now.text.now) self.now.grammar.now.depth) (seen_listed l) (place_of tokens.old)) result tokens.new }
    {
        if tokens.sees(Symbol::Arrow) {
            return self.function_behind(tokens, l);
        }
        match in_parens(l) {
            Some(t) => Ok(t),
            None => Err(tokens.refusal(self.grammar.text)),
        }
    }

    /// A type without `?`, `|` and `&`, whose list in parentheses may have been read.
    #[tactic(auto, unfolding(luau_grammar::specs::ReadTypes::basic))]
    pub fn basic_type(
        &self,
        tokens: &mut Tokens<'_, '_>,
        begun: Option<Listed>,
    ) -> Result<TypeSyntax, ParseError>
        requires { Nests self.now.grammar.now.text.now self.now.grammar.now.depth (E.pre self.now.grammar.now.exp) (E.post self.now.grammar.now.exp) (T.pre self.now.grammar.now.typ) (T.post self.now.grammar.now.typ) (B.pre self.now.grammar.now.block) (B.post self.now.grammar.now.block) }
        ensures { Reads view_type (written.basic (strictly self.now.grammar.now.text.now) (readers (strictly self.now.grammar.now.text.now) self.now.grammar.now.depth) (maybe_listed begun) (place_of tokens.old)) result tokens.new }
    {
        if let Some(l) = begun {
            return self.listed_type(tokens, l);
        }
        if tokens.sees(Symbol::LeftParen) {
            let lists = TypeLists {
                grammar: self.grammar,
            };
            let l = lists.listed(tokens)?;
            return self.listed_type(tokens, l);
        }
        self.form(tokens)
    }
}
