//! Which modules are refused, skipped and checked, and at which levels.
ghost use Rattle.std.specs.Prelude.{◌≡◌, ℕ, ◌^◌, ◌<◌, ◌≤◌, ◌↔◌, IsTrue, IfOk, Some, length, slice_get};
ghost use Rattle.module_graph.specs.Components.{AreComponents};
ghost use Rattle.module_graph.specs.Fates.{IsRefused};
ghost use Rattle.module_graph.specs.Requires.{Requires};
ghost use Rattle.module_graph.specs.Search.{IsGraph};
ghost use Rattle.module_graph.specs.Standing.{Refuses, IsStanding};
ghost use Rattle.module_graph.specs.declared.standing.Standing.{Standing};

use crate::components::Components;
use crate::node::{Call, Node};
use std::alloc::{AllocError, Global};

/// How a module stands.
#[derive(Clone, Copy, Debug)]
pub enum Standing {
    /// It is refused.
    Refused,
    /// It is skipped.
    Skipped,
    /// It is checked, at this level.
    Level { level: u32 },
}

/// Whether a require is a reason to refuse its module, whose group has the number `own`.
fn refuses(numbers: &[usize], own: usize, call: &Call) -> bool
    requires { (to : ℕ) → call.now.to ≡ Some to → to < length numbers.now }
    ensures { IsTrue result ↔ Refuses numbers.now own call.now.to }
{
    match call.to {
        None => true,
        Some(to) => numbers[to as usize] == own,
    }
}

/// Whether a module is refused.
fn is_refused(nodes: &[Node], found: &Components, file: usize) -> bool
    requires graph { IsGraph nodes.now }
    requires components { AreComponents nodes.now found.now.numbers.items found.now.order.items }
    requires file { file < length nodes.now }
    ensures { IsTrue result ↔ IsRefused nodes.now file }
{
    let node = &nodes[file];
    if node.refused {
        return true;
    }
    let own = found.numbers[file];
    for call in node.calls.as_slice() {
        if refuses(&found.numbers, own, call) {
            return true;
        }
    }
    false
}

/// How a module stands, where that is known of those that it requires, unless it is refused itself.
fn standing_of(nodes: &[Node], found: &Components, standings: &[Standing], file: usize) -> Standing
    requires graph { IsGraph nodes.now }
    requires components { AreComponents nodes.now found.now.numbers.items found.now.order.items }
    requires few { length nodes.now ≤ 2 ^ 32 }
    requires size { length standings.now ≡ length nodes.now }
    requires file { file < length nodes.now }
    requires settled { (to number : ℕ) (standing : Standing) → (IsRefused nodes.now file → ⊥) → Requires nodes.now file to → slice_get found.now.numbers.items to ≡ Some number → slice_get standings.now to ≡ Some standing → IsStanding nodes.now to number standing }
    ensures { (number : ℕ) → slice_get found.now.numbers.items file ≡ Some number → IsStanding nodes.now file number result }
{
    if is_refused(nodes, found, file) {
        return Standing::Refused;
    }
    let mut level: u32 = 0;
    for call in nodes[file].calls.as_slice() {
        let Some(to) = call.to else { continue };
        match standings[to as usize] {
            Standing::Level { level: below } => level = level.max(below + 1),
            _ => return Standing::Skipped,
        }
    }
    Standing::Level { level }
}

/// How each module stands, found in the order of the numbers.
pub fn find_standings(
    alloc: Global,
    nodes: &[Node],
    found: &Components,
) -> Result<Vec<Standing>, AllocError>
    requires graph { IsGraph nodes.now }
    requires components { AreComponents nodes.now found.now.numbers.items found.now.order.items }
    requires few { length nodes.now ≤ 2 ^ 32 }
    ensures size { IfOk result (λ standings. length standings.items ≡ length nodes.now) }
    ensures each { IfOk result (λ standings. (file number : ℕ) (standing : Standing) → slice_get found.now.numbers.items file ≡ Some number → slice_get standings.items file ≡ Some standing → IsStanding nodes.now file number standing) }
{
    let mut standings = vec![in alloc; Standing::Refused; nodes.len()]?;
    for file in &found.order {
        standings[*file] = standing_of(nodes, found, &standings, *file);
    }
    Ok(standings)
}
