//! Written types. The marks of `T???` are taken off by a loop, since there may be thousands of them.
ghost use Rattle.std.specs.Prelude.{◌≡◌, IfOk};
ghost use Rattle.luau_tree.specs.Tree as plain;
ghost use Rattle.luau_tree.specs.View.{view_gens, view_type, view_types};
ghost use Rattle.tree_numbers.specs.Calls.{Calls};
ghost use Rattle.tree_numbers.specs.Marks.{marked};
ghost use Rattle.tree_numbers.specs.Numbered.{of_type};
ghost use Rattle.tree_numbers.specs.Outcomes.{Gives};

use crate::error::NumberError;
use crate::numbers::Numbers;
use crate::pass::Pass;
use luau_tree::types::{
    array_type, bool_type, func_type, generic_pack_type, meet_type, named_type, nil_type,
    optional_type, pack_type, str_type, table_type, typeof_type, union_type, variadic_type,
};
use luau_tree::{Block, Expr, Gen, Span, TypeKind, TypeSyntax};
use sqlite_items::{Boxed, Items};
use std::alloc::{AllocError, Global};

/// A type without its marks, and the span of it with each mark, from the last mark to the first.
#[tactic(auto, using(crate::proofs::Layers::type_layer, crate::proofs::Marking::marked_last, luau_tree::proofs::Views::optional_type_seen, luau_tree::proofs::Views::type_seen))]
fn unmarked(alloc: Global, typ: TypeSyntax) -> Result<(Items<Span>, TypeSyntax), AllocError>
    ensures { IfOk result (λ found. view_type typ ≡ marked found.0 (view_type found.1)) }
{
    let mut spans = Items::new(alloc);
    let mut inner = typ;
    for _ in 0..u64::MAX {
        let TypeSyntax { span, kind } = inner;
        match kind {
            TypeKind::Optional(typ) => {
                spans.push(span)?;
                inner = typ.into_inner();
            }
            kind => return Ok((spans, TypeSyntax { span, kind })),
        }
    }
    Ok((spans, inner))
}

/// A type with its marks.
#[tactic(auto, using(crate::proofs::Marking::marked_last))]
fn with_marks(alloc: Global, spans: Items<Span>, typ: TypeSyntax) -> Result<TypeSyntax, AllocError>
    ensures { IfOk result (λ made. view_type made ≡ marked spans (view_type typ)) }
{
    let mut rest = spans;
    let mut done = typ;
    while let Some(span) = rest.pop() {
        done = optional_type(alloc, span, done)?;
    }
    Ok(done)
}

impl<
    E: Fn(Global, &mut Numbers, usize, Expr) -> Result<Expr, NumberError>,
    T: Fn(Global, &mut Numbers, usize, TypeSyntax) -> Result<TypeSyntax, NumberError>,
    B: Fn(Global, &mut Numbers, usize, Block) -> Result<Block, NumberError>,
> Pass<E, T, B> {
    /// `<T>(A, B) -> R`
    fn function_type(
        &self,
        numbers: &mut Numbers,
        span: Span,
        generics: Items<Gen>,
        params: Items<TypeSyntax>,
        returned: Boxed<TypeSyntax>,
    ) -> Result<TypeSyntax, NumberError>
        requires { Calls self.now.depth (E.pre self.now.exp) (E.post self.now.exp) (T.pre self.now.typ) (T.post self.now.typ) (B.pre self.now.block) (B.post self.now.block) }
        ensures { Gives view_type (of_type (plain.the_type span (plain.Func (view_gens generics) (view_types params) (view_type returned)))) numbers.old result numbers.new }
    {
        let generics = self.gens(numbers, generics)?;
        let params = self.types(numbers, params)?;
        let returned = self.typ(numbers, returned.into_inner())?;
        Ok(func_type(self.alloc, span, generics, params, returned)?)
    }

    /// What stands in a type, of which the last mark is one.
    #[tactic(auto, using(crate::proofs::Layers::type_layer, luau_tree::proofs::Views::nil_type_seen, luau_tree::proofs::Views::bool_type_seen, luau_tree::proofs::Views::str_type_seen, luau_tree::proofs::Views::named_type_seen, luau_tree::proofs::Views::typeof_type_seen, luau_tree::proofs::Views::array_type_seen, luau_tree::proofs::Views::table_type_seen, luau_tree::proofs::Views::func_type_seen, luau_tree::proofs::Views::union_type_seen, luau_tree::proofs::Views::meet_type_seen, luau_tree::proofs::Views::optional_type_seen, luau_tree::proofs::Views::pack_type_seen, luau_tree::proofs::Views::variadic_type_seen, luau_tree::proofs::Views::generic_pack_type_seen))]
    fn type_form(&self, numbers: &mut Numbers, typ: TypeSyntax) -> Result<TypeSyntax, NumberError>
        requires { Calls self.now.depth (E.pre self.now.exp) (E.post self.now.exp) (T.pre self.now.typ) (T.post self.now.typ) (B.pre self.now.block) (B.post self.now.block) }
        ensures { Gives view_type (of_type (view_type typ)) numbers.old result numbers.new }
    {
        let TypeSyntax { span, kind } = typ;
        match kind {
            TypeKind::Nil => Ok(nil_type(span)),
            TypeKind::Bool(truth) => Ok(bool_type(span, truth)),
            TypeKind::Str(bytes) => Ok(str_type(span, bytes)),
            TypeKind::Named { prefix, name, args } => {
                let args = self.types(numbers, args)?;
                Ok(named_type(span, prefix, name, args))
            }
            TypeKind::Typeof(e) => {
                let e = self.expression(numbers, e.into_inner())?;
                Ok(typeof_type(self.alloc, span, e)?)
            }
            TypeKind::Array(item) => {
                let item = self.typ(numbers, item.into_inner())?;
                Ok(array_type(self.alloc, span, item)?)
            }
            TypeKind::Table(props) => Ok(table_type(span, self.props(numbers, props)?)),
            TypeKind::Func {
                generics,
                params,
                result: returned,
            } => self.function_type(numbers, span, generics, params, returned),
            TypeKind::Union(types) => Ok(union_type(span, self.types(numbers, types)?)),
            TypeKind::Meet(types) => Ok(meet_type(span, self.types(numbers, types)?)),
            TypeKind::Optional(typ) => {
                let typ = self.typ(numbers, typ.into_inner())?;
                Ok(optional_type(self.alloc, span, typ)?)
            }
            TypeKind::Pack(types) => Ok(pack_type(span, self.types(numbers, types)?)),
            TypeKind::Variadic(typ) => {
                let typ = self.typ(numbers, typ.into_inner())?;
                Ok(variadic_type(self.alloc, span, typ)?)
            }
            TypeKind::GenericPack(name) => Ok(generic_pack_type(span, name)),
        }
    }

    /// What stands in a type.
    #[tactic(auto, using(crate::proofs::Marking::marked_gives))]
    pub fn type_inside(
        &self,
        numbers: &mut Numbers,
        typ: TypeSyntax,
    ) -> Result<TypeSyntax, NumberError>
        requires { Calls self.now.depth (E.pre self.now.exp) (E.post self.now.exp) (T.pre self.now.typ) (T.post self.now.typ) (B.pre self.now.block) (B.post self.now.block) }
        ensures { Gives view_type (of_type (view_type typ)) numbers.old result numbers.new }
    {
        let (spans, inner) = unmarked(self.alloc, typ)?;
        let inner = self.type_form(numbers, inner)?;
        Ok(with_marks(self.alloc, spans, inner)?)
    }
}
