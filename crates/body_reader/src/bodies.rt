//! Function bodies and what stands before them.
ghost use Rattle.std.specs.Prelude.{◌≡◌, Some, map, IfOk};
ghost use Rattle.luau_grammar.specs.ReadExpressions as values;
ghost use Rattle.luau_tree.specs.View as view;
ghost use Rattle.luau_tree.specs.View.{view_bind, view_binds, view_body, view_maybe_type, view_type};
ghost use Rattle.body_reader.specs.SeenParameters.{seen_parameters};
ghost use Rattle.phrase_reader.specs.Nests.{Nests};
ghost use Rattle.phrase_reader.specs.Outcomes.{Reads, place_of, itself};
ghost use Rattle.luau_grammar.specs.Reading.{strictly};
ghost use Rattle.luau_grammar.specs.ReadModules.{readers};

use crate::reader::Bodies;
use luau_grammar::{ParseError, Symbol};
use luau_tree::parts::{bind_of, body_of};
use luau_tree::{Bind, Block, Body, Expr, FnId, Span, TypeSyntax};
use phrase_reader::{Listed, Tokens, copy, one};
use sqlite_items::Items;
use std::alloc::{AllocError, Global};
use type_list_reader::TypeLists;

/// The parameters of a body so far, and what stands for its further arguments.
#[derive(Drop)]
pub struct Parameters {
    found: Items<Bind>,
    rest: Option<Option<TypeSyntax>>,
}

fn no_parameters(alloc: Global) -> Parameters
    ensures { seen_parameters result ≡ values.no_parameters }
{
    Parameters {
        found: Items::new(alloc),
        rest: None,
    }
}

/// Whether another parameter stands at a place.
fn goes_on(tokens: &Tokens<'_, '_>, given: &Parameters) -> bool
    ensures { result ≡ values.goes_parameters (seen_parameters given.now) (place_of tokens.now) }
{
    given.rest.is_none() && tokens.sees(Symbol::Comma)
}

/// The parameters of a method's body: `self`, at the method's name, and then its own.
fn self_first(alloc: Global, span: Span, own: Items<Bind>) -> Result<Items<Bind>, AllocError>
    ensures { IfOk result (λ all. view_binds all ≡ view.binds (values.with_self (Some span) (map view_bind own))) }
{
    let name = copy(alloc, b"self")?;
    let mut all = one(alloc, bind_of(name, span, None))?;
    all.append(own)?;
    Ok(all)
}

/// The parameters of a body, with `self` before a method's own.
fn with_self(
    alloc: Global,
    method: Option<Span>,
    own: Items<Bind>,
) -> Result<Items<Bind>, AllocError>
    ensures { IfOk result (λ all. view_binds all ≡ view.binds (values.with_self method (map view_bind own))) }
{
    match method {
        None => Ok(own),
        Some(span) => self_first(alloc, span, own),
    }
}

impl<
    'g,
    's,
    E: Fn(Global, &[u8], &mut Tokens<'_, '_>, usize) -> Result<Expr, ParseError>,
    T: Fn(
        Global,
        &[u8],
        &mut Tokens<'_, '_>,
        usize,
        Option<Listed>,
    ) -> Result<TypeSyntax, ParseError>,
    B: Fn(Global, &[u8], &mut Tokens<'_, '_>, usize) -> Result<Block, ParseError>,
> Bodies<'g, 's, E, T, B> {
    #[tactic(auto, unfolding(luau_grammar::specs::ReadExpressions::attribute, luau_grammar::specs::Reading::name))]
    pub fn attribute(&self, tokens: &mut Tokens<'_, '_>) -> Result<(), ParseError>
        requires { Nests self.now.grammar.now.text.now self.now.grammar.now.depth (E.pre self.now.grammar.now.exp) (E.post self.now.grammar.now.exp) (T.pre self.now.grammar.now.typ) (T.post self.now.grammar.now.typ) (B.pre self.now.grammar.now.block) (B.post self.now.grammar.now.block) }
        ensures { Reads itself (values.attribute (strictly self.now.grammar.now.text.now) (readers (strictly self.now.grammar.now.text.now) self.now.grammar.now.depth) tt (place_of tokens.old)) result tokens.new }
    {
        let _sign = tokens.expect(self.grammar.text, Symbol::AtSign)?;
        let _name = tokens.expect(self.grammar.text, Symbol::Name)?;
        Ok(())
    }

    /// The attributes before a function.
    #[tactic(auto, unfolding(luau_grammar::specs::ReadExpressions::attributes))]
    pub fn attributes(&self, tokens: &mut Tokens<'_, '_>) -> Result<(), ParseError>
        requires { Nests self.now.grammar.now.text.now self.now.grammar.now.depth (E.pre self.now.grammar.now.exp) (E.post self.now.grammar.now.exp) (T.pre self.now.grammar.now.typ) (T.post self.now.grammar.now.typ) (B.pre self.now.grammar.now.block) (B.post self.now.grammar.now.block) }
        ensures { Reads itself (values.attributes (strictly self.now.grammar.now.text.now) (readers (strictly self.now.grammar.now.text.now) self.now.grammar.now.depth) (place_of tokens.old)) result tokens.new }
    {
        let mut turns = tokens.left();
        while tokens.sees(Symbol::AtSign) {
            if turns == 0 {
                return Err(tokens.refusal(self.grammar.text));
            }
            turns -= 1;
            self.attribute(tokens)?;
        }
        Ok(())
    }

    #[tactic(auto, unfolding(luau_grammar::specs::ReadExpressions::annotation))]
    pub fn annotation(&self, tokens: &mut Tokens<'_, '_>) -> Result<Option<TypeSyntax>, ParseError>
        requires { Nests self.now.grammar.now.text.now self.now.grammar.now.depth (E.pre self.now.grammar.now.exp) (E.post self.now.grammar.now.exp) (T.pre self.now.grammar.now.typ) (T.post self.now.grammar.now.typ) (B.pre self.now.grammar.now.block) (B.post self.now.grammar.now.block) }
        ensures { Reads view_maybe_type (values.annotation (strictly self.now.grammar.now.text.now) (readers (strictly self.now.grammar.now.text.now) self.now.grammar.now.depth) (place_of tokens.old)) result tokens.new }
    {
        if !tokens.sees(Symbol::Colon) {
            return Ok(None);
        }
        let _colon = tokens.expect(self.grammar.text, Symbol::Colon)?;
        let t = self.grammar.typ(tokens, None)?;
        Ok(Some(t))
    }

    /// A name, with the type that is written for it.
    #[tactic(auto, unfolding(luau_grammar::specs::ReadExpressions::bind))]
    pub fn bind(&self, tokens: &mut Tokens<'_, '_>) -> Result<Bind, ParseError>
        requires { Nests self.now.grammar.now.text.now self.now.grammar.now.depth (E.pre self.now.grammar.now.exp) (E.post self.now.grammar.now.exp) (T.pre self.now.grammar.now.typ) (T.post self.now.grammar.now.typ) (B.pre self.now.grammar.now.block) (B.post self.now.grammar.now.block) }
        ensures { Reads view_bind (values.bind (strictly self.now.grammar.now.text.now) (readers (strictly self.now.grammar.now.text.now) self.now.grammar.now.depth) (place_of tokens.old)) result tokens.new }
    {
        let from = tokens.start();
        let name = tokens.name(self.grammar.alloc, self.grammar.text)?;
        let span = tokens.span_from(from);
        let t = self.annotation(tokens)?;
        Ok(bind_of(name, span, t))
    }

    #[tactic(auto, unfolding(luau_grammar::specs::ReadExpressions::var_type))]
    pub fn var_type(&self, tokens: &mut Tokens<'_, '_>) -> Result<TypeSyntax, ParseError>
        requires { Nests self.now.grammar.now.text.now self.now.grammar.now.depth (E.pre self.now.grammar.now.exp) (E.post self.now.grammar.now.exp) (T.pre self.now.grammar.now.typ) (T.post self.now.grammar.now.typ) (B.pre self.now.grammar.now.block) (B.post self.now.grammar.now.block) }
        ensures { Reads view_type (values.var_type (strictly self.now.grammar.now.text.now) (readers (strictly self.now.grammar.now.text.now) self.now.grammar.now.depth) (place_of tokens.old)) result tokens.new }
    {
        if tokens.sees(Symbol::Name) && tokens.sees_behind(Symbol::Dots) {
            let lists = TypeLists {
                grammar: self.grammar,
            };
            lists.generic_pack(tokens)
        } else {
            self.grammar.typ(tokens, None)
        }
    }

    #[tactic(auto, unfolding(luau_grammar::specs::ReadExpressions::var_annotation))]
    pub fn var_annotation(
        &self,
        tokens: &mut Tokens<'_, '_>,
    ) -> Result<Option<TypeSyntax>, ParseError>
        requires { Nests self.now.grammar.now.text.now self.now.grammar.now.depth (E.pre self.now.grammar.now.exp) (E.post self.now.grammar.now.exp) (T.pre self.now.grammar.now.typ) (T.post self.now.grammar.now.typ) (B.pre self.now.grammar.now.block) (B.post self.now.grammar.now.block) }
        ensures { Reads view_maybe_type (values.var_annotation (strictly self.now.grammar.now.text.now) (readers (strictly self.now.grammar.now.text.now) self.now.grammar.now.depth) (place_of tokens.old)) result tokens.new }
    {
        if !tokens.sees(Symbol::Colon) {
            return Ok(None);
        }
        let _colon = tokens.expect(self.grammar.text, Symbol::Colon)?;
        let t = self.var_type(tokens)?;
        Ok(Some(t))
    }

    /// `...`, with the type that is written for it.
    #[tactic(auto, unfolding(luau_grammar::specs::ReadExpressions::varparam))]
    pub fn varparam(&self, tokens: &mut Tokens<'_, '_>) -> Result<Option<TypeSyntax>, ParseError>
        requires { Nests self.now.grammar.now.text.now self.now.grammar.now.depth (E.pre self.now.grammar.now.exp) (E.post self.now.grammar.now.exp) (T.pre self.now.grammar.now.typ) (T.post self.now.grammar.now.typ) (B.pre self.now.grammar.now.block) (B.post self.now.grammar.now.block) }
        ensures { Reads view_maybe_type (values.varparam (strictly self.now.grammar.now.text.now) (readers (strictly self.now.grammar.now.text.now) self.now.grammar.now.depth) (place_of tokens.old)) result tokens.new }
    {
        let _dots = tokens.expect(self.grammar.text, Symbol::Dots)?;
        self.var_annotation(tokens)
    }

    #[tactic(auto, unfolding(luau_grammar::specs::ReadExpressions::rest_parameter))]
    pub fn rest_parameter(
        &self,
        tokens: &mut Tokens<'_, '_>,
        given: Parameters,
    ) -> Result<Parameters, ParseError>
        requires { Nests self.now.grammar.now.text.now self.now.grammar.now.depth (E.pre self.now.grammar.now.exp) (E.post self.now.grammar.now.exp) (T.pre self.now.grammar.now.typ) (T.post self.now.grammar.now.typ) (B.pre self.now.grammar.now.block) (B.post self.now.grammar.now.block) }
        ensures { Reads seen_parameters (values.rest_parameter (strictly self.now.grammar.now.text.now) (readers (strictly self.now.grammar.now.text.now) self.now.grammar.now.depth) (seen_parameters given) (place_of tokens.old)) result tokens.new }
    {
        let t = self.varparam(tokens)?;
        Ok(Parameters {
            found: given.found,
            rest: Some(t),
        })
    }

    #[tactic(auto, unfolding(luau_grammar::specs::ReadExpressions::named_parameter))]
    pub fn named_parameter(
        &self,
        tokens: &mut Tokens<'_, '_>,
        given: Parameters,
    ) -> Result<Parameters, ParseError>
        requires { Nests self.now.grammar.now.text.now self.now.grammar.now.depth (E.pre self.now.grammar.now.exp) (E.post self.now.grammar.now.exp) (T.pre self.now.grammar.now.typ) (T.post self.now.grammar.now.typ) (B.pre self.now.grammar.now.block) (B.post self.now.grammar.now.block) }
        ensures { Reads seen_parameters (values.named_parameter (strictly self.now.grammar.now.text.now) (readers (strictly self.now.grammar.now.text.now) self.now.grammar.now.depth) (seen_parameters given) (place_of tokens.old)) result tokens.new }
    {
        let x = self.bind(tokens)?;
        let mut found = given.found;
        found.push(x)?;
        Ok(Parameters { found, rest: None })
    }

    /// One more parameter.
    #[tactic(auto, unfolding(luau_grammar::specs::ReadExpressions::parameter))]
    pub fn parameter(
        &self,
        tokens: &mut Tokens<'_, '_>,
        given: Parameters,
    ) -> Result<Parameters, ParseError>
        requires { Nests self.now.grammar.now.text.now self.now.grammar.now.depth (E.pre self.now.grammar.now.exp) (E.post self.now.grammar.now.exp) (T.pre self.now.grammar.now.typ) (T.post self.now.grammar.now.typ) (B.pre self.now.grammar.now.block) (B.post self.now.grammar.now.block) }
        ensures { Reads seen_parameters (values.parameter (strictly self.now.grammar.now.text.now) (readers (strictly self.now.grammar.now.text.now) self.now.grammar.now.depth) (seen_parameters given) (place_of tokens.old)) result tokens.new }
    {
        if tokens.sees(Symbol::Dots) {
            self.rest_parameter(tokens, given)
        } else {
            self.named_parameter(tokens, given)
        }
    }

    #[tactic(auto, unfolding(luau_grammar::specs::ReadExpressions::another_parameter))]
    pub fn another_parameter(
        &self,
        tokens: &mut Tokens<'_, '_>,
        given: Parameters,
    ) -> Result<Parameters, ParseError>
        requires { Nests self.now.grammar.now.text.now self.now.grammar.now.depth (E.pre self.now.grammar.now.exp) (E.post self.now.grammar.now.exp) (T.pre self.now.grammar.now.typ) (T.post self.now.grammar.now.typ) (B.pre self.now.grammar.now.block) (B.post self.now.grammar.now.block) }
        ensures { Reads seen_parameters (values.another_parameter (strictly self.now.grammar.now.text.now) (readers (strictly self.now.grammar.now.text.now) self.now.grammar.now.depth) (seen_parameters given) (place_of tokens.old)) result tokens.new }
    {
        let _comma = tokens.expect(self.grammar.text, Symbol::Comma)?;
        self.parameter(tokens, given)
    }

    #[tactic(auto, unfolding(luau_grammar::specs::ReadExpressions::parameters_from))]
    pub fn parameters_from(
        &self,
        tokens: &mut Tokens<'_, '_>,
        first: Parameters,
    ) -> Result<Parameters, ParseError>
        requires { Nests self.now.grammar.now.text.now self.now.grammar.now.depth (E.pre self.now.grammar.now.exp) (E.post self.now.grammar.now.exp) (T.pre self.now.grammar.now.typ) (T.post self.now.grammar.now.typ) (B.pre self.now.grammar.now.block) (B.post self.now.grammar.now.block) }
        ensures { Reads seen_parameters (values.parameters_from (strictly self.now.grammar.now.text.now) (readers (strictly self.now.grammar.now.text.now) self.now.grammar.now.depth) (seen_parameters first) (place_of tokens.old)) result tokens.new }
    {
        let mut given = first;
        let mut turns = tokens.left();
        while goes_on(tokens, &given) {
            if turns == 0 {
                return Err(tokens.refusal(self.grammar.text));
            }
            turns -= 1;
            given = self.another_parameter(tokens, given)?;
        }
        Ok(given)
    }

    #[tactic(auto, unfolding(luau_grammar::specs::ReadExpressions::some_parameters))]
    pub fn some_parameters(&self, tokens: &mut Tokens<'_, '_>) -> Result<Parameters, ParseError>
        requires { Nests self.now.grammar.now.text.now self.now.grammar.now.depth (E.pre self.now.grammar.now.exp) (E.post self.now.grammar.now.exp) (T.pre self.now.grammar.now.typ) (T.post self.now.grammar.now.typ) (B.pre self.now.grammar.now.block) (B.post self.now.grammar.now.block) }
        ensures { Reads seen_parameters (values.some_parameters (strictly self.now.grammar.now.text.now) (readers (strictly self.now.grammar.now.text.now) self.now.grammar.now.depth) (place_of tokens.old)) result tokens.new }
    {
        let first = self.parameter(tokens, no_parameters(self.grammar.alloc))?;
        self.parameters_from(tokens, first)
    }

    #[tactic(auto, unfolding(luau_grammar::specs::ReadExpressions::parameters))]
    pub fn parameters(&self, tokens: &mut Tokens<'_, '_>) -> Result<Parameters, ParseError>
        requires { Nests self.now.grammar.now.text.now self.now.grammar.now.depth (E.pre self.now.grammar.now.exp) (E.post self.now.grammar.now.exp) (T.pre self.now.grammar.now.typ) (T.post self.now.grammar.now.typ) (B.pre self.now.grammar.now.block) (B.post self.now.grammar.now.block) }
        ensures { Reads seen_parameters (values.parameters (strictly self.now.grammar.now.text.now) (readers (strictly self.now.grammar.now.text.now) self.now.grammar.now.depth) (place_of tokens.old)) result tokens.new }
    {
        if tokens.sees(Symbol::RightParen) {
            Ok(no_parameters(self.grammar.alloc))
        } else {
            self.some_parameters(tokens)
        }
    }

    #[tactic(auto, unfolding(luau_grammar::specs::ReadExpressions::maybe_result))]
    pub fn maybe_result(
        &self,
        tokens: &mut Tokens<'_, '_>,
    ) -> Result<Option<TypeSyntax>, ParseError>
        requires { Nests self.now.grammar.now.text.now self.now.grammar.now.depth (E.pre self.now.grammar.now.exp) (E.post self.now.grammar.now.exp) (T.pre self.now.grammar.now.typ) (T.post self.now.grammar.now.typ) (B.pre self.now.grammar.now.block) (B.post self.now.grammar.now.block) }
        ensures { Reads view_maybe_type (values.maybe_result (strictly self.now.grammar.now.text.now) (readers (strictly self.now.grammar.now.text.now) self.now.grammar.now.depth) (place_of tokens.old)) result tokens.new }
    {
        if !tokens.sees(Symbol::Colon) {
            return Ok(None);
        }
        let _colon = tokens.expect(self.grammar.text, Symbol::Colon)?;
        let lists = TypeLists {
            grammar: self.grammar,
        };
        let t = lists.type_result(tokens)?;
        Ok(Some(t))
    }

    /// A function from its generics to its `end`. A method's first parameter is `self`, at the method's name.
    #[tactic(auto, unfolding(luau_grammar::specs::ReadExpressions::body))]
    pub fn body(
        &self,
        tokens: &mut Tokens<'_, '_>,
        method: Option<Span>,
    ) -> Result<Body, ParseError>
        requires { Nests self.now.grammar.now.text.now self.now.grammar.now.depth (E.pre self.now.grammar.now.exp) (E.post self.now.grammar.now.exp) (T.pre self.now.grammar.now.typ) (T.post self.now.grammar.now.typ) (B.pre self.now.grammar.now.block) (B.post self.now.grammar.now.block) }
        ensures { Reads view_body (values.body (strictly self.now.grammar.now.text.now) (readers (strictly self.now.grammar.now.text.now) self.now.grammar.now.depth) method (place_of tokens.old)) result tokens.new }
    {
        let from = tokens.start();
        let lists = TypeLists {
            grammar: self.grammar,
        };
        let generics = lists.generics(tokens, false)?;
        let _open = tokens.expect(self.grammar.text, Symbol::LeftParen)?;
        let given = self.parameters(tokens)?;
        let _close = tokens.expect(self.grammar.text, Symbol::RightParen)?;
        let returned = self.maybe_result(tokens)?;
        let block = self.grammar.block(tokens)?;
        let _end = tokens.expect(self.grammar.text, Symbol::End)?;
        let span = tokens.span_from(from);
        let params = with_self(self.grammar.alloc, method, given.found)?;
        Ok(body_of(
            FnId(0),
            method.is_some(),
            generics,
            params,
            given.rest,
            returned,
            block,
            span,
        ))
    }
}
