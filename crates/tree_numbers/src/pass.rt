//! The way through a tree. What numbers the forms of a part takes the functions that number expressions, types and
//! blocks, which hold one another, so that each is proved by itself.
ghost use Rattle.luau_tree.specs.View.{view_block, view_expr, view_type};
ghost use Rattle.tree_numbers.specs.Calls.{Calls};
ghost use Rattle.tree_numbers.specs.Numbered.{of_block, of_expr, of_type};
ghost use Rattle.tree_numbers.specs.Outcomes.{Gives};

use crate::error::NumberError;
use crate::numbers::Numbers;
use luau_tree::{Block, Expr, TypeSyntax};
use std::alloc::Global;

/// The functions that number parts at a depth.
#[derive(Clone, Copy)]
pub struct Pass<E, T, B> {
    pub alloc: Global,
    /// How deep parts may still nest.
    pub depth: usize,
    pub exp: E,
    pub typ: T,
    pub block: B,
}

impl<
    E: Fn(Global, &mut Numbers, usize, Expr) -> Result<Expr, NumberError>,
    T: Fn(Global, &mut Numbers, usize, TypeSyntax) -> Result<TypeSyntax, NumberError>,
    B: Fn(Global, &mut Numbers, usize, Block) -> Result<Block, NumberError>,
> Pass<E, T, B> {
    /// An expression.
    pub fn expression(&self, numbers: &mut Numbers, e: Expr) -> Result<Expr, NumberError>
        requires { Calls self.now.depth (E.pre self.now.exp) (E.post self.now.exp) (T.pre self.now.typ) (T.post self.now.typ) (B.pre self.now.block) (B.post self.now.block) }
        ensures { Gives view_expr (of_expr (view_expr e)) numbers.old result numbers.new }
    {
        (self.exp)(self.alloc, numbers, self.depth, e)
    }

    /// A type.
    pub fn typ(&self, numbers: &mut Numbers, typ: TypeSyntax) -> Result<TypeSyntax, NumberError>
        requires { Calls self.now.depth (E.pre self.now.exp) (E.post self.now.exp) (T.pre self.now.typ) (T.post self.now.typ) (B.pre self.now.block) (B.post self.now.block) }
        ensures { Gives view_type (of_type (view_type typ)) numbers.old result numbers.new }
    {
        (self.typ)(self.alloc, numbers, self.depth, typ)
    }

    /// A block.
    pub fn block(&self, numbers: &mut Numbers, block: Block) -> Result<Block, NumberError>
        requires { Calls self.now.depth (E.pre self.now.exp) (E.post self.now.exp) (T.pre self.now.typ) (T.post self.now.typ) (B.pre self.now.block) (B.post self.now.block) }
        ensures { Gives view_block (of_block (view_block block)) numbers.old result numbers.new }
    {
        (self.block)(self.alloc, numbers, self.depth, block)
    }
}
