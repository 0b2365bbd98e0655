//! Modules: the functions that number parts within one another, and the whole tree.
ghost use Rattle.std.specs.Prelude.{◌≡◌, IfOk};
ghost use Rattle.luau_tree.specs.View.{view_block, view_expr, view_type};
ghost use Rattle.tree_numbers.specs.Numbered.{numbered, of_block, of_expr, of_type};
ghost use Rattle.tree_numbers.specs.Outcomes.{Gives};

use crate::error::NumberError;
use crate::numbers::Numbers;
use crate::pass::Pass;
use luau_tree::{Block, Expr, TypeSyntax};
use std::alloc::Global;

/// Deeper than the parts of any tree nest that a memory can hold.
const MAX_DEPTH: usize = usize::MAX;

#[cycle(parts)]
fn expression_at(
    alloc: Global,
    numbers: &mut Numbers,
    depth: usize,
    e: Expr,
) -> Result<Expr, NumberError>
    ensures { Gives view_expr (of_expr (view_expr e)) numbers.old result numbers.new }
{
    if depth == 0 {
        return Err(NumberError::NoMemory);
    }
    let pass = Pass {
        alloc,
        depth: depth - 1,
        exp: expression_at,
        typ: type_at,
        block: block_at,
    };
    pass.expression_inside(numbers, e)
}

#[cycle(parts)]
fn type_at(
    alloc: Global,
    numbers: &mut Numbers,
    depth: usize,
    typ: TypeSyntax,
) -> Result<TypeSyntax, NumberError>
    ensures { Gives view_type (of_type (view_type typ)) numbers.old result numbers.new }
{
    if depth == 0 {
        return Err(NumberError::NoMemory);
    }
    let pass = Pass {
        alloc,
        depth: depth - 1,
        exp: expression_at,
        typ: type_at,
        block: block_at,
    };
    pass.type_inside(numbers, typ)
}

#[cycle(parts)]
fn block_at(
    alloc: Global,
    numbers: &mut Numbers,
    depth: usize,
    block: Block,
) -> Result<Block, NumberError>
    ensures { Gives view_block (of_block (view_block block)) numbers.old result numbers.new }
{
    if depth == 0 {
        return Err(NumberError::NoMemory);
    }
    let pass = Pass {
        alloc,
        depth: depth - 1,
        exp: expression_at,
        typ: type_at,
        block: block_at,
    };
    pass.block_inside(numbers, block)
}

/// A module's tree with its numbers: the same tree, but that each expression and each body has its own, whatever it had.
///
/// Goes as deep as parts stand in one another, where expressions that begin with one another, as those of `a.b.c`, and the
/// marks of `T??` count as one. Fails where memory runs out, or where there are more expressions or bodies than numbers.
pub fn number(alloc: Global, block: Block) -> Result<Block, NumberError>
    ensures { IfOk result (λ made. view_block made ≡ numbered (view_block block)) }
{
    let mut numbers = Numbers {
        exprs: 0,
        bodies: 0,
    };
    block_at(alloc, &mut numbers, MAX_DEPTH, block)
}
