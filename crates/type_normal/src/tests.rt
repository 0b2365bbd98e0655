//! The calls on an arena, with ample memory.
ghost use Rattle.std.specs.Prelude.{◌≡◌, ◌∷◌, [], IsTrue, IfOk, OnErr};
ghost use Rattle.type_arena.specs.Arena.{store_of};
ghost use Rattle.type_arena.specs.Store.{Keeps, has as has_node, refs_of};

use super::*;
use std::alloc::{AllocError, Global};
use std::test::Fail;
use type_arena::{Among, Arena, Label, List, Node, Row, TypeRef, over, shelf};

// A type without rows: nil, or never.
fn plain(alloc: Global, nil: bool) -> Result<Node, AllocError>
    ensures { IfOk result (λ node. refs_of node ≡ []) }
{
    Ok(Node {
        nil,
        truth: false,
        falsity: false,
        number: false,
        other: false,
        strings: Among::Only(List::of(Vec::new(alloc))),
        functions: Among::Only(List::of(Vec::new(alloc))),
        rows: List::of(Vec::new(alloc)),
    })
}

// The tables whose field `x` has a type.
fn with_x(alloc: Global, frozen: bool, x: TypeRef) -> Result<Node, AllocError>
    ensures { IfOk result (λ node. refs_of node ≡ x ∷ []) }
{
    let mut fields = Vec::new(alloc);
    fields.push((Label::of(vec![in alloc; b'x']?), x))?;
    let mut rows = Vec::new(alloc);
    rows.push(Row {
        frozen,
        fields: List::of(fields),
    })?;
    let mut node = plain(alloc, false)?;
    node.rows = List::of(rows);
    Ok(node)
}

// An arena with the tables whose field `x` is nil, and their type.
fn arena_with_x(alloc: Global, frozen: bool) -> Result<(Arena<'static>, TypeRef), AllocError>
    ensures { IfOk result (λ made. IsTrue (has_node (store_of made.0) made.1)) }
{
    let mut arena = over(alloc, shelf(&[]), 0)?;
    let nil = arena.intern(plain(alloc, true)?)?;
    let tables = arena.intern(with_x(alloc, frozen, nil)?)?;
    Ok((arena, tables))
}

#[test]
fn rows_that_may_change_are_dropped(rt: HostRuntime) -> Result<(), Fail> {
    let alloc = rt.alloc();
    let (mut arena, tables) = arena_with_x(alloc, false)?;
    assert!(rt; !is_empty(&arena, tables));
    let left = strip(alloc, &mut arena, tables)?;
    assert!(rt; is_empty(&arena, left));
    let (mut arena, frozen) = arena_with_x(alloc, true)?;
    let kept = strip(alloc, &mut arena, frozen)?;
    assert_eq!(rt; kept, frozen);
    Ok(())
}

#[test]
fn small_types_are_kept_and_complements_turn_back(rt: HostRuntime) -> Result<(), Fail> {
    let alloc = rt.alloc();
    let (mut arena, tables) = arena_with_x(alloc, false)?;
    let down = cut_down(alloc, &mut arena, tables)?;
    assert_eq!(rt; down, tables);
    let up = cut_up(alloc, &mut arena, down)?;
    assert_eq!(rt; up, tables);
    let nil = arena.intern(plain(alloc, true)?)?;
    let rest = not_free(alloc, &mut arena, nil)?;
    let again = not_free(alloc, &mut arena, rest)?;
    assert_eq!(rt; again, nil);
    Ok(())
}
