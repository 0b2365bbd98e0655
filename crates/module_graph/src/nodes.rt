//! The modules of a folder as the graph sees them.
ghost use Rattle.std.specs.Prelude.{◌≡◌, ◌≤◌, ◌^◌, length, map, IfOk};
ghost use Rattle.module_graph.specs.Names.{AreOrdered};
ghost use Rattle.module_graph.specs.Requires.{call_of, node_of, nodes_of};

use crate::names::{folder_of, meant_file};
use crate::needs::ModuleNeeds;
use crate::node::{Call, Node};
use luau_tree::List;
use std::alloc::{AllocError, Global};

/// The requires of a file, with what they mean.
fn calls_in(
    alloc: Global,
    files: &[ModuleNeeds],
    file: &ModuleNeeds,
) -> Result<Vec<Call>, AllocError>
    requires ordered { AreOrdered files.now }
    requires few { length files.now ≤ 2 ^ 32 }
    ensures { IfOk result (λ calls. calls.items ≡ map (call_of files.now file.now.path) file.now.needs) }
{
    let folder = folder_of(alloc, file.path.as_slice())?;
    let mut calls = Vec::new(alloc);
    for need in file.needs.as_slice() {
        let to = meant_file(alloc, files, &folder, need.target.as_slice())?;
        calls.push(Call { at: need.at, to })?;
    }
    Ok(calls)
}

/// A file as the graph sees it.
fn node_for(alloc: Global, files: &[ModuleNeeds], file: &ModuleNeeds) -> Result<Node, AllocError>
    requires ordered { AreOrdered files.now }
    requires few { length files.now ≤ 2 ^ 32 }
    ensures { IfOk result (λ node. node ≡ node_of files.now file.now) }
{
    let refused = file.refused;
    let calls = if refused {
        Vec::new(alloc)
    } else {
        calls_in(alloc, files, file)?
    };
    Ok(Node {
        refused,
        calls: List::of(calls),
    })
}

/// The files of a folder as the graph sees them.
pub fn nodes_for(alloc: Global, files: &[ModuleNeeds]) -> Result<Vec<Node>, AllocError>
    requires ordered { AreOrdered files.now }
    requires few { length files.now ≤ 2 ^ 32 }
    ensures { IfOk result (λ nodes. nodes.items ≡ nodes_of files.now) }
{
    let mut nodes = Vec::new(alloc);
    for file in files {
        nodes.push(node_for(alloc, files, file)?)?;
    }
    Ok(nodes)
}
