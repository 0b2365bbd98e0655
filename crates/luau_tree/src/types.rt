//! Written types, each made of its parts. Contracts see the plain tree.
ghost use Rattle.std.specs.Prelude.{◌≡◌, IfOk};
ghost use Rattle.luau_tree.specs.Tree as plain;
ghost use Rattle.luau_tree.specs.View.{view_expr, view_gens, view_props, view_type, view_types};

use crate::containers::Bytes;
use crate::position::Span;
use crate::tree::{Expr, Gen, Prop, TypeKind, TypeSyntax};
use sqlite_items::{Boxed, Items};
use std::alloc::{AllocError, Global};

/// `nil`
#[tactic(auto, using(crate::proofs::Views::type_seen, crate::proofs::Views::nil_type_seen))]
pub fn nil_type(span: Span) -> TypeSyntax
    ensures { view_type result ≡ plain.the_type span plain.NilType }
{
    let kind = TypeKind::Nil;
    TypeSyntax { span, kind }
}

/// `true` or `false`
#[tactic(auto, using(crate::proofs::Views::type_seen, crate::proofs::Views::bool_type_seen))]
pub fn bool_type(span: Span, truth: bool) -> TypeSyntax
    ensures { view_type result ≡ plain.the_type span (plain.BoolType truth) }
{
    let kind = TypeKind::Bool(truth);
    TypeSyntax { span, kind }
}

/// A string literal, as the bytes that it stands for.
#[tactic(auto, using(crate::proofs::Views::type_seen, crate::proofs::Views::str_type_seen))]
pub fn str_type(span: Span, bytes: Bytes) -> TypeSyntax
    ensures { view_type result ≡ plain.the_type span (plain.StrType bytes) }
{
    let kind = TypeKind::Str(bytes);
    TypeSyntax { span, kind }
}

/// `prefix.name<args>`
#[tactic(auto, using(crate::proofs::Views::type_seen, crate::proofs::Views::named_type_seen))]
pub fn named_type(
    span: Span,
    prefix: Option<Bytes>,
    name: Bytes,
    args: Items<TypeSyntax>,
) -> TypeSyntax
    ensures { view_type result ≡ plain.the_type span (plain.Named prefix name (view_types args)) }
{
    let kind = TypeKind::Named { prefix, name, args };
    TypeSyntax { span, kind }
}

/// `typeof(e)`
#[tactic(auto, using(crate::proofs::Views::type_seen, crate::proofs::Views::typeof_type_seen))]
pub fn typeof_type(alloc: Global, span: Span, e: Expr) -> Result<TypeSyntax, AllocError>
    ensures { IfOk result (λ made. view_type made
        ≡ plain.the_type span (plain.Typeof (view_expr e))) }
{
    let e = Boxed::new(alloc, e)?;
    let kind = TypeKind::Typeof(e);
    Ok(TypeSyntax { span, kind })
}

/// `{T}`
#[tactic(auto, using(crate::proofs::Views::type_seen, crate::proofs::Views::array_type_seen))]
pub fn array_type(alloc: Global, span: Span, item: TypeSyntax) -> Result<TypeSyntax, AllocError>
    ensures { IfOk result (λ made. view_type made
        ≡ plain.the_type span (plain.Array (view_type item))) }
{
    let item = Boxed::new(alloc, item)?;
    let kind = TypeKind::Array(item);
    Ok(TypeSyntax { span, kind })
}

/// `{a: T, [K]: V}`
#[tactic(auto, using(crate::proofs::Views::type_seen, crate::proofs::Views::table_type_seen))]
pub fn table_type(span: Span, props: Items<Prop>) -> TypeSyntax
    ensures { view_type result ≡ plain.the_type span (plain.TableType (view_props props)) }
{
    let kind = TypeKind::Table(props);
    TypeSyntax { span, kind }
}

/// `<T>(A, B) -> R`
#[tactic(auto, using(crate::proofs::Views::type_seen, crate::proofs::Views::func_type_seen))]
pub fn func_type(
    alloc: Global,
    span: Span,
    generics: Items<Gen>,
    params: Items<TypeSyntax>,
    returned: TypeSyntax,
) -> Result<TypeSyntax, AllocError>
    ensures { IfOk result (λ made. view_type made
        ≡ plain.the_type span (plain.Func (view_gens generics) (view_types params) (view_type returned))) }
{
    let returned = Boxed::new(alloc, returned)?;
    let kind = TypeKind::Func {
        generics,
        params,
        result: returned,
    };
    Ok(TypeSyntax { span, kind })
}

/// `A | B`
#[tactic(auto, using(crate::proofs::Views::type_seen, crate::proofs::Views::union_type_seen))]
pub fn union_type(span: Span, types: Items<TypeSyntax>) -> TypeSyntax
    ensures { view_type result ≡ plain.the_type span (plain.Union (view_types types)) }
{
    let kind = TypeKind::Union(types);
    TypeSyntax { span, kind }
}

/// `A & B`
#[tactic(auto, using(crate::proofs::Views::type_seen, crate::proofs::Views::meet_type_seen))]
pub fn meet_type(span: Span, types: Items<TypeSyntax>) -> TypeSyntax
    ensures { view_type result ≡ plain.the_type span (plain.Meet (view_types types)) }
{
    let kind = TypeKind::Meet(types);
    TypeSyntax { span, kind }
}

/// `T?`
#[tactic(auto, using(crate::proofs::Views::type_seen, crate::proofs::Views::optional_type_seen))]
pub fn optional_type(alloc: Global, span: Span, typ: TypeSyntax) -> Result<TypeSyntax, AllocError>
    ensures { IfOk result (λ made. view_type made
        ≡ plain.the_type span (plain.Optional (view_type typ))) }
{
    let typ = Boxed::new(alloc, typ)?;
    let kind = TypeKind::Optional(typ);
    Ok(TypeSyntax { span, kind })
}

/// `(A, B)` as a result or a type argument.
#[tactic(auto, using(crate::proofs::Views::type_seen, crate::proofs::Views::pack_type_seen))]
pub fn pack_type(span: Span, types: Items<TypeSyntax>) -> TypeSyntax
    ensures { view_type result ≡ plain.the_type span (plain.Pack (view_types types)) }
{
    let kind = TypeKind::Pack(types);
    TypeSyntax { span, kind }
}

/// `...T`
#[tactic(auto, using(crate::proofs::Views::type_seen, crate::proofs::Views::variadic_type_seen))]
pub fn variadic_type(alloc: Global, span: Span, typ: TypeSyntax) -> Result<TypeSyntax, AllocError>
    ensures { IfOk result (λ made. view_type made
        ≡ plain.the_type span (plain.Variadic (view_type typ))) }
{
    let typ = Boxed::new(alloc, typ)?;
    let kind = TypeKind::Variadic(typ);
    Ok(TypeSyntax { span, kind })
}

/// `T...`
#[tactic(auto, using(crate::proofs::Views::type_seen, crate::proofs::Views::generic_pack_type_seen))]
pub fn generic_pack_type(span: Span, name: Bytes) -> TypeSyntax
    ensures { view_type result ≡ plain.the_type span (plain.GenericPack name) }
{
    let kind = TypeKind::GenericPack(name);
    TypeSyntax { span, kind }
}
