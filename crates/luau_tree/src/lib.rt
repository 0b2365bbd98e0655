//! What every layer says about a module: the tree of its syntax, and spans of bytes, lines and columns of its text; with
//! the plain containers that trees and lines are made of, values in order, and sets of paths.
//!
//! Contracts speak of the plain tree in `specs/Tree.antt`; `specs/View.antt` says which one each part of a tree has. Parts
//! are made by the calls of [`exprs`], [`stats`], [`types`] and [`parts`], whose contracts say the plain tree.
#![tactic(auto)]

mod containers;
pub mod exprs;
mod laws;
mod names;
pub mod parts;
mod path_set;
mod position;
mod sorting;
pub mod stats;
mod tree;
pub mod types;

pub use containers::{Bytes, List, Text};
pub use laws::{
    an_expression_is_found_by_its_number, nodes_stand_in_the_order_of_the_text,
    plain_lists_have_each_part,
};
pub use names::{Access, BinOp, ExprId, FnId, LocalId, Op, Place, UnOp};
pub use path_set::PathSet;
pub use position::{Cursor, MAX_TEXT, Pos, Span, pos_of};
pub use sorting::{
    sort_once, sorted_values_are_determined, sorted_values_are_in_order,
    sorted_values_are_the_values,
};
pub use tree::{
    Arm, Bind, Block, Body, Choice, Expr, ExprKind, Gen, Item, Module, Prop, PropKey, Stat,
    StatKind, TypeKind, TypeSyntax,
};
