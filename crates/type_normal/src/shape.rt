ghost use Rattle.std.specs.Prelude.{◌≡◌, true, IsTrue, IfOk, All};
ghost use Rattle.type_arena.specs.Arena.{store_of};
ghost use Rattle.type_arena.specs.Meaning.{term_of, rows_by, fields_by};
ghost use Rattle.type_arena.specs.Store.{has as has_node, row_types, field_types};
ghost use Rattle.type_normal.specs.Nodes.{is_nil};
ghost use Rattle.type_normal.specs.Shape.{IsRight, shape_of, shape_of_rows, shape_of_fields, both_shapes, as_field, as_row};

use std::alloc::AllocError;
use std::collections::HashMap;
use type_arena::{Arena, Label, Nodes, Row, TypeRef};

/// What the rows of a type amount to: whether they are heap-free, their depth, counted up to 9, and whether they are at
/// most 16 at every depth.
#[derive(Clone, Copy, Debug)]
pub(crate) struct Shape {
    pub(crate) heap_free: bool,
    pub(crate) depth: u64,
    pub(crate) few_rows: bool,
}

/// The shapes that are known, by reference.
pub(crate) type Shapes = HashMap<TypeRef, Shape>;

impl Shape {
    // The shape of nothing.
    fn none() -> Shape
        ensures { result ≡ (record { heap_free = true; depth = 0; few_rows = true }) }
    {
        Shape {
            heap_free: true,
            depth: 0,
            few_rows: true,
        }
    }

    // Two parts together.
    fn and(self, other: Shape) -> Shape
        ensures { result ≡ both_shapes self other }
    {
        Shape {
            heap_free: self.heap_free & other.heap_free,
            depth: self.depth.max(other.depth),
            few_rows: self.few_rows & other.few_rows,
        }
    }

    // A type as that of a field.
    fn as_field(self) -> Shape
        ensures { result ≡ as_field self }
    {
        let depth = if self.depth < 9 { self.depth + 1 } else { 9 };
        Shape {
            heap_free: self.heap_free,
            depth,
            few_rows: self.few_rows,
        }
    }

    // Fields as those of a row.
    pub(crate) fn as_row(self, row: &Row) -> Shape
        ensures { result ≡ as_row (is_nil row.now.fields) row.now.frozen self }
    {
        let bare = row.fields.as_slice().is_empty();
        Shape {
            heap_free: bare | (row.frozen & self.heap_free),
            depth: self.depth,
            few_rows: self.few_rows,
        }
    }
}

/// The shape of a type. Each node that is met is looked at once, and then remembered.
#[cycle(shapes)]
pub(crate) fn shape_at(
    arena: &Arena<'_>,
    known: &mut Shapes,
    at: TypeRef,
) -> Result<Shape, AllocError>
    requires there { IsTrue (has_node (store_of arena.now) at) }
    requires right { IsRight (store_of arena.now) known.old }
    ensures shape { IfOk result (λ shape. shape ≡ shape_of (term_of (store_of arena.now) at)) }
    ensures right { IfOk result (λ shape. IsRight (store_of arena.now) known.new) }
{
    if let Some(shape) = known.get(&at) {
        return Ok(*shape);
    }
    let rows = arena.node(at).rows.as_slice();
    let all = rows_shape(arena, known, rows)?;
    let shape = Shape {
        heap_free: all.heap_free,
        depth: all.depth,
        few_rows: all.few_rows & (rows.len() <= 16),
    };
    known.insert(at, shape)?;
    Ok(shape)
}

// The shape of some rows.
#[cycle(shapes)]
fn rows_shape(arena: &Arena<'_>, known: &mut Shapes, rows: &[Row]) -> Result<Shape, AllocError>
    requires there { All (λ child. IsTrue (has_node (store_of arena.now) child)) (row_types rows.now) }
    requires right { IsRight (store_of arena.now) known.old }
    ensures shape { IfOk result (λ shape. shape ≡ shape_of_rows (rows_by (term_of (store_of arena.now)) rows.now)) }
    ensures right { IfOk result (λ shape. IsRight (store_of arena.now) known.new) }
{
    let mut all = Shape::none();
    for row in rows {
        let fields = fields_shape(arena, known, row.fields.as_slice())?;
        all = all.and(fields.as_row(row));
    }
    Ok(all)
}

// The shape of some fields.
#[cycle(shapes)]
pub(crate) fn fields_shape(
    arena: &Arena<'_>,
    known: &mut Shapes,
    fields: &[(Label, TypeRef)],
) -> Result<Shape, AllocError>
    requires there { All (λ child. IsTrue (has_node (store_of arena.now) child)) (field_types fields.now) }
    requires right { IsRight (store_of arena.now) known.old }
    ensures shape { IfOk result (λ shape. shape ≡ shape_of_fields (fields_by (term_of (store_of arena.now)) fields.now)) }
    ensures right { IfOk result (λ shape. IsRight (store_of arena.now) known.new) }
{
    let mut all = Shape::none();
    for field in fields {
        let shape = shape_at(arena, known, field.1)?;
        all = all.and(shape.as_field());
    }
    Ok(all)
}
