ghost use Rattle.std.specs.Prelude.{◌≡◌, IfOk};

use std::alloc::{AllocError, Global};
use type_arena::{Label, Node, TypeRef};

/// A copy of a node.
pub(crate) fn copy_node(node: &Node) -> Result<Node, AllocError>
    ensures { IfOk result (λ copy. copy ≡ node.now) }
{
    let copy = node.clone()?;
    Ok(copy)
}

/// A copy of fields.
pub(crate) fn copy_fields(
    alloc: Global,
    fields: &[(Label, TypeRef)],
) -> Result<Vec<(Label, TypeRef)>, AllocError>
    ensures { IfOk result (λ copy. copy.items ≡ fields.now) }
{
    let mut copy = Vec::new(alloc);
    for field in fields {
        copy.push((field.0.clone()?, field.1))?;
    }
    Ok(copy)
}
