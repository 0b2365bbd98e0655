//! The numbers of small trees.
use luau_tree::exprs::{call_expr, function_expr, index_expr, name_expr};
use luau_tree::parts::{bind_of, block_of, body_of};
use luau_tree::stats::{local_stat, return_stat};
use luau_tree::types::typeof_type;
use luau_tree::{Block, Bytes, Expr, ExprId, ExprKind, FnId, Span, Stat, StatKind, TypeKind};
use sqlite_items::Items;
use std::alloc::{AllocError, Global};
use std::test::Fail;
use tree_numbers::number;

const SPAN: Span = Span { start: 0, end: 0 };

/// A name, whose number is 7.
fn name(alloc: Global, text: &[u8]) -> Result<Expr, AllocError> {
    let text = Bytes::of(Vec::from_slice(alloc, text)?);
    Ok(name_expr(ExprId(7), SPAN, text))
}

fn one<T: Drop>(alloc: Global, item: T) -> Result<Items<T>, AllocError> {
    let mut items = Items::new(alloc);
    items.push(item)?;
    Ok(items)
}

/// `return f(a, b)`
fn returned_call(alloc: Global) -> Result<Block, AllocError> {
    let mut args = one(alloc, name(alloc, b"a")?)?;
    args.push(name(alloc, b"b")?)?;
    let callee = name(alloc, b"f")?;
    let call = call_expr(alloc, ExprId(7), SPAN, callee, args)?;
    let values = one(alloc, call)?;
    Ok(block_of(one(alloc, return_stat(SPAN, values))?))
}

/// The numbers of a call that is returned, of what it calls and of its arguments.
fn call_numbers(alloc: Global, block: &Block) -> Result<Vec<u32>, AllocError> {
    let mut out = Vec::new(alloc);
    let [stat] = block.stats.as_slice() else {
        return Ok(out);
    };
    let StatKind::Return(values) = &stat.kind else {
        return Ok(out);
    };
    let [call] = values.as_slice() else {
        return Ok(out);
    };
    let ExprKind::Call { callee, args } = &call.kind else {
        return Ok(out);
    };
    out.push(call.id.0)?;
    out.push(callee.get().id.0)?;
    for arg in args.as_slice() {
        out.push(arg.id.0)?;
    }
    Ok(out)
}

/// `local x: typeof(a) = function() return b end`
fn typed_function(alloc: Global) -> Result<Block, AllocError> {
    let x = Bytes::of(Vec::from_slice(alloc, b"x")?);
    let a = name(alloc, b"a")?;
    let bind = bind_of(x, SPAN, Some(typeof_type(alloc, SPAN, a)?));
    let values = one(alloc, name(alloc, b"b")?)?;
    let inner = block_of(one(alloc, return_stat(SPAN, values))?);
    let generics = Items::new(alloc);
    let params = Items::new(alloc);
    let body = body_of(FnId(7), false, generics, params, None, None, inner, SPAN);
    let function = function_expr(alloc, ExprId(7), SPAN, body)?;
    let binds = one(alloc, bind)?;
    let values = one(alloc, function)?;
    Ok(block_of(one(alloc, local_stat(SPAN, binds, values))?))
}

/// The numbers of the expression in the type of a local, of its value, and of the body that this is.
fn local_numbers(alloc: Global, block: &Block) -> Result<Vec<u32>, AllocError> {
    let mut out = Vec::new(alloc);
    let [stat] = block.stats.as_slice() else {
        return Ok(out);
    };
    let StatKind::Local { binds, values } = &stat.kind else {
        return Ok(out);
    };
    let [bind] = binds.as_slice() else {
        return Ok(out);
    };
    if let Some(typ) = &bind.typ {
        if let TypeKind::Typeof(e) = &typ.kind {
            out.push(e.get().id.0)?;
        }
    }
    let [value] = values.as_slice() else {
        return Ok(out);
    };
    out.push(value.id.0)?;
    if let ExprKind::Function(body) = &value.kind {
        out.push(body.get().id.0)?;
    }
    Ok(out)
}

/// `return a.b.b.b`, with so many `.b`.
fn returned_chain(alloc: Global, length: u32) -> Result<Block, AllocError> {
    let mut e = name(alloc, b"a")?;
    for _ in 0..length {
        let b = Bytes::of(Vec::from_slice(alloc, b"b")?);
        e = index_expr(alloc, ExprId(7), SPAN, e, b)?;
    }
    let values = one(alloc, e)?;
    Ok(block_of(one(alloc, return_stat(SPAN, values))?))
}

/// What a block returns that is one `return` of one value.
fn returned_value(block: Block) -> Option<Expr> {
    let Block { stats } = block;
    let mut stats = stats;
    let Stat { kind, .. } = stats.pop()?;
    match kind {
        StatKind::Return(values) => {
            let mut values = values;
            values.pop()
        }
        _ => None,
    }
}

/// Whether the expressions of such a chain have the numbers from 0 on, from the outside in. The chain is taken apart on
/// the way, since to let it go as a whole needs a stack for all of it.
fn chain_is_numbered(block: Block, length: u32) -> bool {
    let Some(value) = returned_value(block) else {
        return false;
    };
    let mut e = value;
    let mut all = true;
    for number in 0..length {
        let Expr { id, kind, .. } = e;
        let ExprKind::Index { base, .. } = kind else {
            return false;
        };
        all = all && id.0 == number;
        e = base.into_inner();
    }
    all && e.id.0 == length
}

#[test]
fn a_call_comes_before_its_parts(rt: HostRuntime) -> Result<(), Fail> {
    let alloc = rt.alloc();
    match number(alloc, returned_call(alloc)?) {
        Ok(block) => {
            let numbers = call_numbers(alloc, &block)?;
            assert_eq!(rt; numbers.as_slice(), [0u32, 1, 2, 3].as_slice());
        }
        Err(_) => assert!(rt; false),
    }
    Ok(())
}

#[test]
fn what_stands_in_a_type_comes_before_the_values(rt: HostRuntime) -> Result<(), Fail> {
    let alloc = rt.alloc();
    match number(alloc, typed_function(alloc)?) {
        Ok(block) => {
            let numbers = local_numbers(alloc, &block)?;
            assert_eq!(rt; numbers.as_slice(), [0u32, 1, 0].as_slice());
        }
        Err(_) => assert!(rt; false),
    }
    Ok(())
}

#[test]
fn a_long_chain_needs_no_stack(rt: HostRuntime) -> Result<(), Fail> {
    let alloc = rt.alloc();
    let length = 20_000;
    match number(alloc, returned_chain(alloc, length)?) {
        Ok(block) => assert!(rt; chain_is_numbered(block, length)),
        Err(_) => assert!(rt; false),
    }
    Ok(())
}
