//! The parts of expressions, statements and types, each made of its own parts. Contracts see the plain tree.
ghost use Rattle.std.specs.Prelude.{◌≡◌};
ghost use Rattle.luau_tree.specs.Tree as plain;
ghost use Rattle.luau_tree.specs.View.{view_arm, view_bind, view_binds, view_block, view_body, view_choice, view_expr, view_gen, view_gens, view_item, view_maybe_type, view_prop, view_prop_key, view_stats, view_type, view_varargs};

use crate::containers::Bytes;
use crate::names::{Access, FnId};
use crate::position::Span;
use crate::tree::{
    Arm, Bind, Block, Body, Choice, Expr, Gen, Item, Prop, PropKey, Stat, TypeSyntax,
};
use sqlite_items::Items;

/// `name = value`
#[tactic(auto, using(crate::proofs::Views::field_item_seen))]
pub fn field_item(name: Bytes, value: Expr) -> Item
    ensures { view_item result ≡ plain.Field name (view_expr value) }
{
    Item::Field { name, value }
}

/// `[key] = value`
#[tactic(auto, using(crate::proofs::Views::keyed_item_seen))]
pub fn keyed_item(key: Expr, value: Expr) -> Item
    ensures { view_item result ≡ plain.Keyed (view_expr key) (view_expr value) }
{
    Item::Keyed { key, value }
}

/// A value without a key.
#[tactic(auto, using(crate::proofs::Views::plain_item_seen))]
pub fn plain_item(value: Expr) -> Item
    ensures { view_item result ≡ plain.Plain (view_expr value) }
{
    Item::Plain(value)
}

/// `name: T`
#[tactic(auto, using(crate::proofs::Views::name_key_seen))]
pub fn name_key(name: Bytes) -> PropKey
    ensures { view_prop_key result ≡ plain.NameKey name }
{
    PropKey::Name(name)
}

/// `[K]: T`
#[tactic(auto, using(crate::proofs::Views::indexer_key_seen))]
pub fn indexer_key(key: TypeSyntax) -> PropKey
    ensures { view_prop_key result ≡ plain.Indexer (view_type key) }
{
    PropKey::Indexer(key)
}

/// Statements in the order of the text.
#[tactic(auto, using(crate::proofs::Views::block_seen))]
pub fn block_of(stats: Items<Stat>) -> Block
    ensures { view_block result ≡ view_stats stats }
{
    Block { stats }
}

/// A condition, and the block that runs where it is true.
#[tactic(auto, using(crate::proofs::Views::arm_seen))]
pub fn arm_of(cond: Expr, block: Block) -> Arm
    ensures { view_arm result ≡ (view_expr cond, view_block block) }
{
    Arm { cond, block }
}

/// A condition, and the value where it is true.
#[tactic(auto, using(crate::proofs::Views::choice_seen))]
pub fn choice_of(cond: Expr, value: Expr) -> Choice
    ensures { view_choice result ≡ (view_expr cond, view_expr value) }
{
    Choice { cond, value }
}

/// A name that is declared, at its span, with the type that is written for it.
#[tactic(auto, using(crate::proofs::Views::bind_seen))]
pub fn bind_of(name: Bytes, span: Span, typ: Option<TypeSyntax>) -> Bind
    ensures { view_bind result ≡ plain.the_bind name span (view_maybe_type typ) }
{
    Bind { name, span, typ }
}

/// A generic parameter, at its name's span, with its default. `pack` says that `...` stands behind it.
#[tactic(auto, using(crate::proofs::Views::gen_seen))]
pub fn gen_of(name: Bytes, span: Span, pack: bool, default: Option<TypeSyntax>) -> Gen
    ensures { view_gen result ≡ plain.the_gen name span pack (view_maybe_type default) }
{
    Gen {
        name,
        span,
        pack,
        default,
    }
}

/// A property of a table type.
#[tactic(auto, using(crate::proofs::Views::prop_seen))]
pub fn prop_of(access: Access, key: PropKey, typ: TypeSyntax) -> Prop
    ensures { view_prop result ≡ plain.the_prop access (view_prop_key key) (view_type typ) }
{
    Prop { access, key, typ }
}

/// A function's generics, parameters, result and block. `returned` is the type that is written for its result.
#[tactic(auto, using(crate::proofs::Views::body_seen))]
pub fn body_of(
    id: FnId,
    has_self: bool,
    generics: Items<Gen>,
    params: Items<Bind>,
    vararg: Option<Option<TypeSyntax>>,
    returned: Option<TypeSyntax>,
    block: Block,
    span: Span,
) -> Body
    ensures { view_body result
        ≡ plain.the_body id.0 has_self (view_gens generics) (view_binds params)
        (view_varargs vararg) (view_maybe_type returned) (view_block block) span }
{
    Body {
        id,
        has_self,
        generics,
        params,
        vararg,
        result: returned,
        block,
        span,
    }
}
