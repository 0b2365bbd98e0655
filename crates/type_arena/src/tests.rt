//! Equal nodes, frozen arenas and their copies, and types over several homes.
ghost use Rattle.std.specs.Prelude.{◌≡◌, ◌+◌, ◌<◌, ◌≤◌, ◌∷◌, ◌++◌, [], length, All, IsTrue, IfOk, OnOk};
ghost use Rattle.type_arena.specs.Frozen.{holding_of, holdings_of};
ghost use Rattle.type_arena.specs.Shelf.{shelf_store};
ghost use Rattle.type_arena.specs.declared.node.Node.{Node};
ghost use Rattle.type_arena.specs.Store.{Holding, IsPlaced, IsClosed, IsSound, has as has_node, refs_of, field_types};

use super::*;
use std::alloc::{AllocError, Global};
use std::test::Fail;

// A type without rows.
fn plain(alloc: Global, nil: bool, number: bool) -> Result<Node, AllocError>
    ensures { IfOk result (λ node. refs_of node ≡ []) }
{
    Ok(Node {
        nil,
        truth: false,
        falsity: false,
        number,
        other: false,
        strings: Among::Only(List::of(Vec::new(alloc))),
        functions: Among::Only(List::of(Vec::new(alloc))),
        rows: List::of(Vec::new(alloc)),
    })
}

// A row with one field, `x`.
fn row_with_x(alloc: Global, x: TypeRef) -> Result<Row, AllocError>
    ensures { IfOk result (λ row. field_types row.fields ≡ x ∷ []) }
{
    let name = vec![in alloc; b'x']?;
    let mut fields = Vec::new(alloc);
    fields.push((Label::of(name), x))?;
    Ok(Row {
        frozen: false,
        fields: List::of(fields),
    })
}

// The tables whose field `x` has the one or the other type.
fn tables(alloc: Global, one: TypeRef, other: TypeRef) -> Result<Node, AllocError>
    ensures { IfOk result (λ node. refs_of node ≡ one ∷ other ∷ []) }
{
    let mut node = plain(alloc, false, false)?;
    let mut rows = Vec::new(alloc);
    rows.push(row_with_x(alloc, one)?)?;
    rows.push(row_with_x(alloc, other)?)?;
    node.rows = List::of(rows);
    Ok(node)
}

// An arena of this home over a shelf, frozen with one node.
fn frozen_with(alloc: Global, below: Shelf<'_>, home: u32, node: Node) -> Result<Frozen, AllocError>
    requires above { length (shelf_store below) ≤ home }
    requires children { All (λ child. IsTrue (has_node (shelf_store below) child)) (refs_of node) }
    ensures nodes { IfOk result (λ frozen. holding_of frozen ≡ (record { home = home; nodes = node ∷ [] })) }
    ensures stands { IfOk result (λ frozen. IsSound (shelf_store below.entry ++ holding_of frozen ∷ [])) }
{
    let mut arena = over(alloc, below, home)?;
    arena.intern(node)?;
    Ok(arena.freeze())
}

#[test]
fn equal_nodes_have_one_reference(rt: HostRuntime) -> Result<(), Fail> {
    let alloc = rt.alloc();
    let mut arena = over(alloc, shelf(&[]), 0)?;
    let nil = arena.intern(plain(alloc, true, false)?)?;
    let number = arena.intern(plain(alloc, false, true)?)?;
    let again = arena.intern(plain(alloc, true, false)?)?;
    assert_eq!(rt; nil, TypeRef { home: 0, id: 0 });
    assert_eq!(rt; number, TypeRef { home: 0, id: 1 });
    assert_eq!(rt; again, nil);
    assert!(rt; arena.has(number));
    assert!(rt; !arena.has(TypeRef { home: 0, id: 2 }));
    assert!(rt; !arena.has(TypeRef { home: 1, id: 0 }));
    Ok(())
}

#[test]
fn a_frozen_arena_and_its_copy_have_the_nodes(rt: HostRuntime) -> Result<(), Fail> {
    let alloc = rt.alloc();
    let nil = TypeRef { home: 0, id: 0 };
    let frozen = [frozen_with(alloc, shelf(&[]), 0, plain(alloc, true, false)?)?];
    let kept = shelf(&frozen);
    assert!(rt; kept.has(nil));
    assert!(rt; *kept.node(nil) == plain(alloc, true, false)?);
    assert!(rt; !kept.has(TypeRef { home: 0, id: 1 }));
    let copies = [frozen[0].copy(alloc)?];
    let copied = shelf(&copies);
    assert!(rt; copied.has(nil));
    assert!(rt; *copied.node(nil) == plain(alloc, true, false)?);
    Ok(())
}

// Puts an arena with one node last on a shelf that is being filled.
fn add(alloc: Global, arenas: &mut Vec<Frozen>, node: Node) -> Result<(), AllocError>
    requires small { length arenas.old.items < 10 }
    requires placed { IsPlaced (holdings_of arenas.old.items) }
    requires closed { IsClosed (holdings_of arenas.old.items) }
    requires children { All (λ child. IsTrue (has_node (holdings_of arenas.old.items) child)) (refs_of node) }
    ensures nodes { OnOk result (holdings_of arenas.new.items ≡ holdings_of arenas.old.items ++ (record { home = length arenas.old.items; nodes = node ∷ [] }) ∷ []) }
    ensures len { OnOk result (length arenas.new.items ≡ length arenas.old.items + 1) }
    ensures placed { OnOk result (IsPlaced (holdings_of arenas.new.items)) }
    ensures closed { OnOk result (IsClosed (holdings_of arenas.new.items)) }
{
    let home = arenas.len() as u32;
    let frozen = frozen_with(alloc, shelf(arenas.as_slice()), home, node)?;
    arenas.push(frozen)?;
    Ok(())
}

// The types of nil and of numbers, with the homes 0 and 1.
fn two_arenas(alloc: Global) -> Result<Vec<Frozen>, AllocError>
    ensures nodes { IfOk result (λ arenas. (nil : Node) × (number : Node) × (refs_of nil ≡ []) × (holdings_of arenas.items ≡ (record { home = 0; nodes = nil ∷ [] }) ∷ (record { home = 1; nodes = number ∷ [] }) ∷ [])) }
    ensures len { IfOk result (λ arenas. length arenas.items ≡ 2) }
    ensures placed { IfOk result (λ arenas. IsPlaced (holdings_of arenas.items)) }
    ensures closed { IfOk result (λ arenas. IsClosed (holdings_of arenas.items)) }
{
    let mut arenas = Vec::new(alloc);
    add(alloc, &mut arenas, plain(alloc, true, false)?)?;
    add(alloc, &mut arenas, plain(alloc, false, true)?)?;
    Ok(arenas)
}

// The arena of home 0, an empty one of home 1, and one of home 2 that was made over others, and refers to home 0 alone.
fn without_second(alloc: Global) -> Result<[Frozen; 3], AllocError>
    ensures placed { IfOk result (λ arenas. IsPlaced (holdings_of arenas)) }
    ensures closed { IfOk result (λ arenas. IsClosed (holdings_of arenas)) }
{
    let nil = TypeRef { home: 0, id: 0 };
    let arenas = two_arenas(alloc)?;
    let node = tables(alloc, nil, nil)?;
    let third = frozen_with(alloc, shelf(arenas.as_slice()), 2, node)?;
    let empty = over(alloc, shelf(&[]), 1)?.freeze();
    let first = arenas[0].copy(alloc)?;
    Ok([first, empty, third])
}

#[test]
fn children_in_two_lower_homes(rt: HostRuntime) -> Result<(), Fail> {
    let alloc = rt.alloc();
    let nil = TypeRef { home: 0, id: 0 };
    let number = TypeRef { home: 1, id: 0 };
    let table = TypeRef { home: 2, id: 0 };
    let mut arenas = two_arenas(alloc)?;
    add(alloc, &mut arenas, tables(alloc, nil, number)?)?;
    let all = shelf(arenas.as_slice());
    assert!(rt; all.has(table));
    assert!(rt; *all.node(table) == tables(alloc, nil, number)?);
    assert!(rt; all.has(nil));
    assert!(rt; all.has(number));
    assert!(rt; !all.has(TypeRef { home: 3, id: 0 }));
    Ok(())
}

#[test]
fn a_shelf_without_what_is_not_reached(rt: HostRuntime) -> Result<(), Fail> {
    let alloc = rt.alloc();
    let nil = TypeRef { home: 0, id: 0 };
    let table = TypeRef { home: 2, id: 0 };
    let arenas = without_second(alloc)?;
    let without = shelf(&arenas);
    assert!(rt; without.has(table));
    assert!(rt; *without.node(table) == tables(alloc, nil, nil)?);
    assert!(rt; !without.has(TypeRef { home: 1, id: 0 }));
    Ok(())
}
