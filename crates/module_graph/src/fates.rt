//! What becomes of each module.
ghost use Rattle.std.specs.Prelude.{◌≡◌, ℕ, ◌<◌, ◌⊎◌, IfOk, IfSome, Some, Contains, MatchOption, length};
ghost use Rattle.std.specs.Bool.{OnTrue, OnFalse};
ghost use Rattle.std.specs.List.{filter_map};
ghost use Rattle.module_graph.specs.declared.node.Call.{Call};
ghost use Rattle.module_graph.specs.Components.{AreComponents};
ghost use Rattle.module_graph.specs.Fates.{IsNoLater, IsFirst, IsFate, AreFates};
ghost use Rattle.module_graph.specs.Search.{IsGraph};
ghost use Rattle.module_graph.specs.Standing.{group_of as number_met, IsLeastOf, Stops, AreLevelled, AreStandings};

use crate::components::Components;
use crate::needs::{Fate, GraphRefusal};
use crate::node::{Call, Node};
use crate::standing::Standing;
use luau_tree::{List, Span};
use std::alloc::{AllocError, Global};

/// Whether a place comes no later than another.
fn is_no_later(a: Span, b: Span) -> bool
    ensures yes { OnTrue result (IsNoLater a b) }
    ensures no { OnFalse result (IsNoLater b a) }
{
    a.start < b.start || a.start == b.start && a.end <= b.end
}

/// The earlier of two places, if there are two.
fn earlier(least: Option<Span>, at: Span) -> Span
    ensures one { (result ≡ at) ⊎ (least ≡ Some result) }
    ensures before { IsNoLater result at }
    ensures least { IfSome least (λ other. IsNoLater result other) }
{
    match least {
        None => at,
        Some(other) => { if is_no_later(other, at) { other } else { at } }
    }
}

/// The number of the group of the module that a require means.
fn group_of(numbers: &[usize], call: &Call) -> Option<usize>
    requires { (to : ℕ) → call.now.to ≡ Some to → to < length numbers.now }
    ensures { result ≡ number_met numbers.now call.now.to }
{
    match call.to {
        None => None,
        Some(to) => Some(numbers[to as usize]),
    }
}

/// The place of the least require that means a module of a group, or that means no module.
fn least_at(calls: &[Call], numbers: &[usize], group: Option<usize>) -> Option<Span>
    requires { (to : ℕ) (call : Call) → Contains calls.now call → call.to ≡ Some to → to < length numbers.now }
    ensures { IsLeastOf (λ to. number_met numbers.now to ≡ group) calls.now result }
{
    let mut least = None;
    for call in calls {
        if group_of(numbers, call) == group {
            least = Some(earlier(least, call.at));
        }
    }
    least
}

/// The first require that means a module without a level: its place, and the module.
fn first_stop(calls: &[Call], standings: &[Standing]) -> Option<(Span, u32)>
    requires { (to : ℕ) (call : Call) → Contains calls.now call → call.to ≡ Some to → to < length standings.now }
    ensures { MatchOption result (AreLevelled standings.now calls.now) (λ stop. IsFirst (Stops standings.now) calls.now (record { at = stop.0; to = Some stop.1 })) }
{
    for call in calls {
        let Some(to) = call.to else { continue };
        let Standing::Level { .. } = standings[to as usize] else {
            return Some((call.at, to));
        };
    }
    None
}

/// The modules that some requires mean.
fn needs_of(alloc: Global, calls: &[Call]) -> Result<Vec<u32>, AllocError>
    ensures { IfOk result (λ needs. needs.items ≡ filter_map (λ call. call.to) calls.now) }
{
    calls.iter().filter_map(|call| call.to).collect(alloc)
}

/// What becomes of a module.
fn fate_of(
    alloc: Global,
    nodes: &[Node],
    found: &Components,
    standings: &[Standing],
    file: usize,
) -> Result<Fate, AllocError>
    requires graph { IsGraph nodes.now }
    requires components { AreComponents nodes.now found.now.numbers.items found.now.order.items }
    requires size { length standings.now ≡ length nodes.now }
    requires standings { AreStandings nodes.now found.now.numbers.items standings.now }
    requires file { file < length nodes.now }
    ensures { IfOk result (IsFate nodes.now file) }
{
    let node = &nodes[file];
    if node.refused {
        return Ok(Fate::Already);
    }
    let calls = node.calls.as_slice();
    if let Some(at) = least_at(calls, &found.numbers, None) {
        let why = GraphRefusal::MissingModule;
        return Ok(Fate::Refused { why, at });
    }
    let own = found.numbers[file];
    if let Some(at) = least_at(calls, &found.numbers, Some(own)) {
        let why = GraphRefusal::RequireCycle;
        return Ok(Fate::Refused { why, at });
    }
    if let Some((at, needs)) = first_stop(calls, standings) {
        return Ok(Fate::Skipped { at, needs });
    }
    let Standing::Level { level } = standings[file] else {
        unreachable!()
    };
    let needs = List::of(needs_of(alloc, calls)?);
    Ok(Fate::Checked { level, needs })
}

/// What becomes of each module.
pub fn find_fates(
    alloc: Global,
    nodes: &[Node],
    found: &Components,
    standings: &[Standing],
) -> Result<Vec<Fate>, AllocError>
    requires graph { IsGraph nodes.now }
    requires components { AreComponents nodes.now found.now.numbers.items found.now.order.items }
    requires size { length standings.now ≡ length nodes.now }
    requires standings { AreStandings nodes.now found.now.numbers.items standings.now }
    ensures { IfOk result (λ fates. AreFates nodes.now fates.items) }
{
    let mut fates = Vec::new(alloc);
    for file in 0..nodes.len() {
        fates.push(fate_of(alloc, nodes, found, standings, file)?)?;
    }
    Ok(fates)
}
