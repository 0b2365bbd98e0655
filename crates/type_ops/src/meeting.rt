ghost use Rattle.std.specs.Prelude.{◌≡◌, ◌∷◌, ◌++◌, [], ◌&&◌, IsTrue, IfOk, OnOk, OnErr, All};
ghost use Rattle.luau_values.specs.Heap.{Heap};
ghost use Rattle.luau_values.specs.Value.{Value};
ghost use Rattle.type_arena.specs.Arena.{store_of};
ghost use Rattle.type_arena.specs.Meaning.{term_of, rows_by, fields_by};
ghost use Rattle.type_arena.specs.Store.{has as has_node, row_types, field_types};
ghost use Rattle.type_normal.specs.Adds.{Adds};
ghost use Rattle.type_normal.specs.Holds.{holds};
ghost use Rattle.type_normal.specs.Operations.{meet as meet_term, meet_fields as meet_fields_of, put_field as put_field_of};
ghost use Rattle.type_normal.specs.Growing.{given_refs, IsClean};
ghost use Rattle.type_ops.specs.Lists.{append_rows};
ghost use Rattle.type_ops.specs.Met.{met_each, met_rows, both_node, AreMeets};

use crate::copying::{copy_fields, copy_node};
use crate::names::place_of_name;
use crate::normalizing::normal_rows;
use crate::pairs::Pair;
use crate::sets::both;
use std::alloc::{AllocError, Global};
use std::collections::HashMap;
use type_arena::{Arena, Label, List, Node, Nodes, Row, TypeRef};

/// The meets that are known, by the two types.
type Meets = HashMap<Pair, TypeRef>;

/// The values of both types. After want of memory the arena holds what it held and perhaps more nodes.
pub fn meet(
    alloc: Global,
    arena: &mut Arena<'_>,
    a: TypeRef,
    b: TypeRef,
) -> Result<TypeRef, AllocError>
    requires first { IsTrue (has_node (store_of arena.old) a) }
    requires second { IsTrue (has_node (store_of arena.old) b) }

    // The result by form, and by its values.
    ensures term { IfOk result (λ at. term_of (store_of arena.new) at ≡ meet_term (term_of (store_of arena.old) a) (term_of (store_of arena.old) b)) }
    ensures values { IfOk result (λ at. (h : Heap) (v : Value) → holds h v (term_of (store_of arena.new) at) ≡ holds h v (term_of (store_of arena.old) a) && holds h v (term_of (store_of arena.old) b)) }

    // The arena only gets nodes, and each home that is reached from the answer may be used.
    ensures there { IfOk result (λ at. IsTrue (has_node (store_of arena.new) at)) }
    ensures adds { IfOk result (λ at. Adds arena.old arena.new (record { refs = a ∷ b ∷ []; literals = [] }) (at ∷ [])) }
    ensures clean { IfOk result (λ at. IsClean arena.old arena.new (given_refs (a ∷ b ∷ [])) at) }
    ensures err { OnErr result (Adds arena.old arena.new (record { refs = a ∷ b ∷ []; literals = [] }) []) }
{
    let mut known = Meets::new(alloc);
    let pair = Pair {
        first: a,
        second: b,
    };
    let at = meet_types(alloc, arena, &mut known, pair)?;
    Ok(at)
}

// The meet of two types. Each pair that is met is looked at once, and what its meet is is then remembered.
#[cycle(meets)]
fn meet_types(
    alloc: Global,
    arena: &mut Arena<'_>,
    known: &mut Meets,
    pair: Pair,
) -> Result<TypeRef, AllocError>
    requires first { IsTrue (has_node (store_of arena.old) pair.first) }
    requires second { IsTrue (has_node (store_of arena.old) pair.second) }
    requires right { AreMeets arena.old known.old }
    ensures term { IfOk result (λ met. term_of (store_of arena.new) met ≡ meet_term (term_of (store_of arena.old) pair.first) (term_of (store_of arena.old) pair.second)) }
    ensures there { IfOk result (λ met. IsTrue (has_node (store_of arena.new) met)) }
    ensures right { IfOk result (λ met. AreMeets arena.new known.new) }
    ensures clean { IfOk result (λ met. IsClean arena.old arena.new (given_refs (pair.first ∷ pair.second ∷ [])) met) }
    ensures adds { Adds arena.old arena.new (given_refs (pair.first ∷ pair.second ∷ [])) [] }
{
    if let Some(met) = known.get(&pair) {
        return Ok(*met);
    }
    let a = copy_node(arena.node(pair.first))?;
    let b = copy_node(arena.node(pair.second))?;
    let raw = meet_rows(alloc, arena, known, a.rows.as_slice(), b.rows.as_slice())?;
    let rows = normal_rows(alloc, arena, raw.as_slice())?;
    let node = both_part(alloc, &a, &b, rows)?;
    let met = arena.intern(node)?;
    known.insert(pair, met)?;
    Ok(met)
}

// Each of some rows met with each of others, before they are put in normal form.
#[cycle(meets)]
fn meet_rows(
    alloc: Global,
    arena: &mut Arena<'_>,
    known: &mut Meets,
    rows: &[Row],
    others: &[Row],
) -> Result<Vec<Row>, AllocError>
    requires first { All (λ child. IsTrue (has_node (store_of arena.old) child)) (row_types rows.now) }
    requires second { All (λ child. IsTrue (has_node (store_of arena.old) child)) (row_types others.now) }
    requires right { AreMeets arena.old known.old }
    ensures rows { IfOk result (λ raw. rows_by (term_of (store_of arena.new)) raw.items ≡ met_rows (rows_by (term_of (store_of arena.old)) rows.now) (rows_by (term_of (store_of arena.old)) others.now)) }
    ensures there { IfOk result (λ raw. All (λ child. IsTrue (has_node (store_of arena.new) child)) (row_types raw.items)) }
    ensures right { IfOk result (λ raw. AreMeets arena.new known.new) }
    ensures clean { IfOk result (λ raw. All (IsClean arena.old arena.new (given_refs (row_types rows.now ++ row_types others.now))) (row_types raw.items)) }
    ensures adds { Adds arena.old arena.new (given_refs (row_types rows.now ++ row_types others.now)) [] }
{
    let mut raw = Vec::new(alloc);
    for row in rows {
        meet_row(alloc, arena, known, row, others, &mut raw)?;
    }
    Ok(raw)
}

// A row met with each of some rows, behind other rows.
#[cycle(meets)]
fn meet_row(
    alloc: Global,
    arena: &mut Arena<'_>,
    known: &mut Meets,
    row: &Row,
    others: &[Row],
    raw: &mut Vec<Row>,
) -> Result<(), AllocError>
    requires first { All (λ child. IsTrue (has_node (store_of arena.old) child)) (field_types row.now.fields) }
    requires second { All (λ child. IsTrue (has_node (store_of arena.old) child)) (row_types others.now) }
    requires before { All (λ child. IsTrue (has_node (store_of arena.old) child)) (row_types raw.old.items) }
    requires right { AreMeets arena.old known.old }
    ensures rows { OnOk result (rows_by (term_of (store_of arena.new)) raw.new.items ≡ append_rows (rows_by (term_of (store_of arena.old)) raw.old.items) (met_each row.now.frozen (meet_fields_of (fields_by (term_of (store_of arena.old)) row.now.fields)) (rows_by (term_of (store_of arena.old)) others.now))) }
    ensures there { OnOk result (All (λ child. IsTrue (has_node (store_of arena.new) child)) (row_types raw.new.items)) }
    ensures right { OnOk result (AreMeets arena.new known.new) }
    ensures clean { OnOk result (All (IsClean arena.old arena.new (given_refs (field_types row.now.fields ++ row_types others.now ++ row_types raw.old.items))) (row_types raw.new.items)) }
    ensures adds { Adds arena.old arena.new (given_refs (field_types row.now.fields ++ row_types others.now ++ row_types raw.old.items)) [] }
{
    let fields = row.fields.as_slice();
    for other in others {
        let slice = other.fields.as_slice();
        let met = meet_fields(alloc, arena, known, fields, slice)?;
        raw.push(Row {
            frozen: row.frozen | other.frozen,
            fields: met,
        })?;
    }
    Ok(())
}

// The fields of two rows: fields of one name meet.
#[cycle(meets)]
fn meet_fields(
    alloc: Global,
    arena: &mut Arena<'_>,
    known: &mut Meets,
    fields: &[(Label, TypeRef)],
    others: &[(Label, TypeRef)],
) -> Result<List<(Label, TypeRef)>, AllocError>
    requires first { All (λ child. IsTrue (has_node (store_of arena.old) child)) (field_types fields.now) }
    requires second { All (λ child. IsTrue (has_node (store_of arena.old) child)) (field_types others.now) }
    requires right { AreMeets arena.old known.old }
    ensures fields { IfOk result (λ met. fields_by (term_of (store_of arena.new)) met ≡ meet_fields_of (fields_by (term_of (store_of arena.old)) fields.now) (fields_by (term_of (store_of arena.old)) others.now)) }
    ensures there { IfOk result (λ met. All (λ child. IsTrue (has_node (store_of arena.new) child)) (field_types met)) }
    ensures right { IfOk result (λ met. AreMeets arena.new known.new) }
    ensures clean { IfOk result (λ met. All (IsClean arena.old arena.new (given_refs (field_types fields.now ++ field_types others.now))) (field_types met)) }
    ensures adds { Adds arena.old arena.new (given_refs (field_types fields.now ++ field_types others.now)) [] }
{
    let mut met = copy_fields(alloc, others)?;
    let mut rest = copy_fields(alloc, fields)?;
    while let Some(field) = rest.pop() {
        put_field(alloc, arena, known, &mut met, field)?;
    }
    Ok(List::of(met))
}

// Puts a field into fields in order; with one of its name it is met.
#[cycle(meets)]
fn put_field(
    alloc: Global,
    arena: &mut Arena<'_>,
    known: &mut Meets,
    met: &mut Vec<(Label, TypeRef)>,
    field: (Label, TypeRef),
) -> Result<(), AllocError>
    requires own { IsTrue (has_node (store_of arena.old) field.1) }
    requires there { All (λ child. IsTrue (has_node (store_of arena.old) child)) (field_types met.old.items) }
    requires right { AreMeets arena.old known.old }
    ensures fields { OnOk result (fields_by (term_of (store_of arena.new)) met.new.items ≡ put_field_of field.0 (term_of (store_of arena.old) field.1) (meet_term (term_of (store_of arena.old) field.1)) (fields_by (term_of (store_of arena.old)) met.old.items)) }
    ensures there { OnOk result (All (λ child. IsTrue (has_node (store_of arena.new) child)) (field_types met.new.items)) }
    ensures right { OnOk result (AreMeets arena.new known.new) }
    ensures clean { OnOk result (All (IsClean arena.old arena.new (given_refs (field.1 ∷ field_types met.old.items))) (field_types met.new.items)) }
    ensures adds { Adds arena.old arena.new (given_refs (field.1 ∷ field_types met.old.items)) [] }
{
    match place_of_name(met.as_slice(), &field.0) {
        Ok(at) => {
            let pair = Pair {
                first: field.1,
                second: met[at].1,
            };
            let both = meet_types(alloc, arena, known, pair)?;
            met[at].1 = both;
        }
        Err(at) => met.insert(at, field)?,
    }
    Ok(())
}

// The node of what both of two nodes have, with other rows.
fn both_part(alloc: Global, a: &Node, b: &Node, rows: List<Row>) -> Result<Node, AllocError>
    ensures { IfOk result (λ n. n ≡ both_node a.now b.now rows) }
{
    let strings = both(alloc, a.strings.clone()?, b.strings.clone()?)?;
    let functions = both(alloc, a.functions.clone()?, b.functions.clone()?)?;
    Ok(Node {
        nil: a.nil & b.nil,
        truth: a.truth & b.truth,
        falsity: a.falsity & b.falsity,
        number: a.number & b.number,
        other: a.other & b.other,
        strings,
        functions,
        rows,
    })
}
