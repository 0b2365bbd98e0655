//! Two lists of locals in order, side by side.
ghost use Rattle.std.specs.Prelude.{◌≡◌, ◌∷◌, ◌+◌, ◌<◌, [], length, IfOk, MatchOption};
ghost use Rattle.guards.specs.Lists.{side_by_side};

use luau_tree::LocalId;
use std::alloc::{AllocError, Global};
use std::cmp::Ordering;
use type_arena::TypeRef;

/// A local with its type.
pub(crate) type Entry = (LocalId, TypeRef);

/// A local that one of two lists has, or that both have.
#[derive(Clone, Copy)]
pub(crate) enum Named {
    Once(LocalId, TypeRef),
    Twice(LocalId, TypeRef, TypeRef),
}

/// The first of two lists side by side, and what is behind it in each.
#[derive(Drop)]
struct Step<'a> {
    named: Named,
    left: &'a [Entry],
    right: &'a [Entry],
}

/// Two lists side by side.
pub(crate) fn side_by_side(
    alloc: Global,
    left: &[Entry],
    right: &[Entry],
) -> Result<Vec<Named>, AllocError>
    ensures { IfOk result (λ all. all.items ≡ side_by_side left.now right.now) }
{
    let mut all = Vec::new(alloc);
    let mut ahead = left;
    let mut others = right;
    while let Some(step) = next(ahead, others) {
        all.push(step.named)?;
        ahead = step.left;
        others = step.right;
    }
    Ok(all)
}

// The first of two lists side by side, if there is one.
fn next<'a>(left: &'a [Entry], right: &'a [Entry]) -> Option<Step<'a>>
    ensures all { MatchOption result (side_by_side left.entry.now right.entry.now ≡ []) (λ step. side_by_side left.entry.now right.entry.now ≡ step.named ∷ side_by_side step.left.now step.right.now) }
    ensures fewer { MatchOption result (side_by_side left.entry.now right.entry.now ≡ []) (λ step. length step.left.now + length step.right.now < length left.entry.now + length right.entry.now) }
{
    let [x, xs @ ..] = left else {
        return first_of(right);
    };
    let [y, ys @ ..] = right else {
        return Some(Step {
            named: Named::Once(x.0, x.1),
            left: xs,
            right,
        });
    };
    Some(match x.0.cmp(&y.0) {
        Ordering::Less => Step {
            named: Named::Once(x.0, x.1),
            left: xs,
            right,
        },
        Ordering::Equal => Step {
            named: Named::Twice(x.0, x.1, y.1),
            left: xs,
            right: ys,
        },
        Ordering::Greater => Step {
            named: Named::Once(y.0, y.1),
            left,
            right: ys,
        },
    })
}

// The first of a list, beside nothing.
fn first_of<'a>(right: &'a [Entry]) -> Option<Step<'a>>
    ensures all { MatchOption result (side_by_side [] right.entry.now ≡ []) (λ step. side_by_side [] right.entry.now ≡ step.named ∷ side_by_side step.left.now step.right.now) }
    ensures fewer { MatchOption result (side_by_side [] right.entry.now ≡ []) (λ step. length step.left.now + length step.right.now < length right.entry.now) }
{
    let [y, ys @ ..] = right else {
        return None;
    };
    Some(Step {
        named: Named::Once(y.0, y.1),
        left: &[],
        right: ys,
    })
}
