ghost use Rattle.std.specs.Prelude.{◌≡◌, ◌∷◌, [], false, IfOk};

use std::alloc::{AllocError, Global};
use type_arena::{List, Node, Row};

/// A node with other rows.
pub(crate) fn with_rows(node: &Node, rows: List<Row>) -> Result<Node, AllocError>
    ensures { IfOk result (λ n. n ≡ record node.now { rows = rows }) }
{
    Ok(Node {
        nil: node.nil,
        truth: node.truth,
        falsity: node.falsity,
        number: node.number,
        other: node.other,
        strings: node.strings.clone()?,
        functions: node.functions.clone()?,
        rows,
    })
}

/// The row of all tables, alone.
pub(crate) fn any_table(alloc: Global) -> Result<List<Row>, AllocError>
    ensures { IfOk result (λ rows. rows ≡ (record { frozen = false; fields = [] }) ∷ []) }
{
    let mut rows = Vec::new(alloc);
    rows.push(Row {
        frozen: false,
        fields: List::of(Vec::new(alloc)),
    })?;
    Ok(List::of(rows))
}
