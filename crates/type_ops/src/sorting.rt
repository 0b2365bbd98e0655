ghost use Rattle.std.specs.Prelude.{◌≡◌, ◌++◌, IsTrue, IfOk, OnOk, All};
ghost use Rattle.type_arena.specs.Arena.{store_of};
ghost use Rattle.type_arena.specs.Meaning.{term_of};
ghost use Rattle.type_arena.specs.Store.{has as has_node, row_types, field_types};
ghost use Rattle.type_normal.specs.Members.{put as put_member, in_order};
ghost use Rattle.type_ops.specs.Comparing.{AreCompared, row_order};
ghost use Rattle.type_ops.specs.Places.{place};

use crate::comparing::{Comparisons, compare_rows};
use std::alloc::{AllocError, Global};
use std::cmp::Ordering;
use type_arena::{Arena, List, Row};

/// Rows in order, each once.
pub(crate) fn rows_in_order(
    alloc: Global,
    arena: &Arena<'_>,
    mut rows: Vec<Row>,
) -> Result<List<Row>, AllocError>
    requires { All (λ child. IsTrue (has_node (store_of arena.now) child)) (row_types rows.items) }
    ensures { IfOk result (λ all. all ≡ in_order (row_order (term_of (store_of arena.now))) rows.items) }
{
    let mut known = Comparisons::new(alloc);
    let mut all = Vec::new(alloc);
    while let Some(row) = rows.pop() {
        put_row(arena, &mut known, &mut all, row)?;
    }
    Ok(List::of(all))
}

// Puts a row into rows in order, unless it is there.
fn put_row(
    arena: &Arena<'_>,
    known: &mut Comparisons,
    rows: &mut Vec<Row>,
    row: Row,
) -> Result<(), AllocError>
    requires own { All (λ child. IsTrue (has_node (store_of arena.now) child)) (field_types row.fields) }
    requires there { All (λ child. IsTrue (has_node (store_of arena.now) child)) (row_types rows.old.items) }
    requires right { AreCompared (store_of arena.now) known.old }
    ensures rows { OnOk result (rows.new.items ≡ put_member (row_order (term_of (store_of arena.now))) row rows.old.items) }
    ensures right { OnOk result (AreCompared (store_of arena.now) known.new) }
{
    let place = place_of(arena, known, rows.as_slice(), &row)?;
    if let Some(at) = place {
        rows.insert(at, row)?;
    }
    Ok(())
}

// Where a row goes in rows in order: before the first that comes after it, and nowhere if it is there.
fn place_of(
    arena: &Arena<'_>,
    known: &mut Comparisons,
    rows: &[Row],
    row: &Row,
) -> Result<Option<usize>, AllocError>
    requires own { All (λ child. IsTrue (has_node (store_of arena.now) child)) (field_types row.now.fields) }
    requires there { All (λ child. IsTrue (has_node (store_of arena.now) child)) (row_types rows.now) }
    requires right { AreCompared (store_of arena.now) known.old }
    ensures place { IfOk result (λ p. p ≡ place (row_order (term_of (store_of arena.now)) row.now) rows.now) }
    ensures right { IfOk result (λ p. AreCompared (store_of arena.now) known.new) }
{
    for (i, other) in rows.iter().enumerate() {
        match compare_rows(arena, known, row, other)? {
            Ordering::Less => return Ok(Some(i)),
            Ordering::Equal => return Ok(None),
            Ordering::Greater => {}
        }
    }
    Ok(Some(rows.len()))
}
