//! What becomes of the two sides of a pair.
ghost use Rattle.std.specs.Prelude.{◌≡◌, ◌∷◌, [], true, IsTrue, IfOk, IfSome, Contains};
ghost use Rattle.type_arena.specs.Arena.{store_of};
ghost use Rattle.type_arena.specs.Meaning.{term_of};
ghost use Rattle.type_arena.specs.Store.{has as has_node};
ghost use Rattle.type_normal.specs.Adds.{Adds};
ghost use Rattle.type_normal.specs.Cut.{cut_down as cut_down_term};
ghost use Rattle.type_normal.specs.Growing.{given_refs, IsClean};
ghost use Rattle.type_normal.specs.Operations.{union as union_term, meet as meet_term};
ghost use Rattle.error_context.specs.Entries.{is_cut};
ghost use Rattle.error_context.specs.Plain.{is_plain as is_plain_term};
ghost use Rattle.error_context.specs.Steps.{step_term, takes};

use crate::plain::is_plain;
use std::alloc::{AllocError, Global};
use type_arena::{Arena, Label, TypeRef};
use type_normal::{cut_down, is_empty, not_free, strip, strip_at};
use type_ops::{meet, union};

/// What becomes of the two sides of a pair.
#[derive(Debug, Drop)]
pub(crate) enum Step {
    /// Their union, cut down.
    Join,
    /// Their meet, cut down.
    Meet,
    /// What is left of the left side after tables may have changed.
    Strip,
    /// What is left of it after writes to fields of one name.
    StripAt(Label),
    /// What the left side leaves out.
    Complement,
}

/// What becomes of two types.
pub(crate) fn stepped(
    alloc: Global,
    arena: &mut Arena<'_>,
    step: &Step,
    left: TypeRef,
    right: TypeRef,
) -> Result<TypeRef, AllocError>
    requires left { IsTrue (has_node (store_of arena.old) left) }
    requires right { IsTrue (has_node (store_of arena.old) right) }
    requires left_taken { takes step.now (term_of (store_of arena.old) left) ≡ true }
    requires right_taken { takes step.now (term_of (store_of arena.old) right) ≡ true }
    ensures term { IfOk result (λ at. term_of (store_of arena.new) at
        ≡ step_term step.now (term_of (store_of arena.old) left) (term_of (store_of arena.old) right)) }
    ensures there { IfOk result (λ at. IsTrue (has_node (store_of arena.new) at)) }
    ensures clean { IfOk result (IsClean arena.old arena.new (given_refs (left ∷ right ∷ []))) }
    ensures adds { Adds arena.old arena.new (given_refs (left ∷ right ∷ [])) [] }
{
    match known(arena, step, left, right) {
        Some(at) => Ok(at),
        None => {
            let at = worked(alloc, arena, step, left, right)?;
            Ok(at)
        }
    }
}

// What becomes of two types, where that is seen without work: it is one of them.
fn known(arena: &Arena<'_>, step: &Step, left: TypeRef, right: TypeRef) -> Option<TypeRef>
    requires left { IsTrue (has_node (store_of arena.now) left) }
    requires right { IsTrue (has_node (store_of arena.now) right) }
    requires left_taken { takes step.now (term_of (store_of arena.now) left) ≡ true }
    requires right_taken { takes step.now (term_of (store_of arena.now) right) ≡ true }
    ensures term { IfSome result (λ at. term_of (store_of arena.now) at
        ≡ step_term step.now (term_of (store_of arena.now) left) (term_of (store_of arena.now) right)) }
    ensures among { IfSome result (Contains (left ∷ right ∷ [])) }
{
    match step {
        Step::Join => known_union(arena, left, right),
        Step::Meet => known_meet(arena, left, right),
        Step::Strip => {
            if is_plain(arena, left) {
                Some(left)
            } else {
                None
            }
        }
        Step::StripAt(_) => {
            if is_plain(arena, left) {
                Some(left)
            } else {
                None
            }
        }
        Step::Complement => None,
    }
}

// The side that is the union of two: where the other is empty, or the same.
fn known_union(arena: &Arena<'_>, left: TypeRef, right: TypeRef) -> Option<TypeRef>
    requires left { IsTrue (has_node (store_of arena.now) left) }
    requires right { IsTrue (has_node (store_of arena.now) right) }
    requires left_cut { is_cut (term_of (store_of arena.now) left) ≡ true }
    requires right_cut { is_cut (term_of (store_of arena.now) right) ≡ true }
    ensures term { IfSome result (λ at. term_of (store_of arena.now) at
        ≡ cut_down_term (union_term (term_of (store_of arena.now) left) (term_of (store_of arena.now) right))) }
    ensures among { IfSome result (Contains (left ∷ right ∷ [])) }
{
    let right_empty = is_empty(arena, right);
    if right_empty {
        return Some(left);
    }
    let left_empty = is_empty(arena, left);
    if left_empty {
        return Some(right);
    }
    let one = are_one_plain(arena, left, right);
    if one {
        return Some(left);
    }
    None
}

// The side that is the meet of two: where it is empty, or the same as the other.
fn known_meet(arena: &Arena<'_>, left: TypeRef, right: TypeRef) -> Option<TypeRef>
    requires left { IsTrue (has_node (store_of arena.now) left) }
    requires right { IsTrue (has_node (store_of arena.now) right) }
    requires left_cut { is_cut (term_of (store_of arena.now) left) ≡ true }
    ensures term { IfSome result (λ at. term_of (store_of arena.now) at
        ≡ cut_down_term (meet_term (term_of (store_of arena.now) left) (term_of (store_of arena.now) right))) }
    ensures among { IfSome result (Contains (left ∷ right ∷ [])) }
{
    let right_empty = is_empty(arena, right);
    if right_empty {
        return Some(right);
    }
    let left_empty = is_empty(arena, left);
    if left_empty {
        return Some(left);
    }
    let one = are_one_plain(arena, left, right);
    if one {
        return Some(left);
    }
    None
}

// Whether two types are one, that names nothing.
fn are_one_plain(arena: &Arena<'_>, left: TypeRef, right: TypeRef) -> bool
    requires { IsTrue (has_node (store_of arena.now) left) }
    ensures { IsTrue result → (left ≡ right) × (is_plain_term (term_of (store_of arena.now) left) ≡ true) }
{
    if left == right {
        is_plain(arena, left)
    } else {
        false
    }
}

// What becomes of two types, by work.
fn worked(
    alloc: Global,
    arena: &mut Arena<'_>,
    step: &Step,
    left: TypeRef,
    right: TypeRef,
) -> Result<TypeRef, AllocError>
    requires left { IsTrue (has_node (store_of arena.old) left) }
    requires right { IsTrue (has_node (store_of arena.old) right) }
    ensures term { IfOk result (λ at. term_of (store_of arena.new) at
        ≡ step_term step.now (term_of (store_of arena.old) left) (term_of (store_of arena.old) right)) }
    ensures there { IfOk result (λ at. IsTrue (has_node (store_of arena.new) at)) }
    ensures clean { IfOk result (IsClean arena.old arena.new (given_refs (left ∷ right ∷ []))) }
    ensures adds { Adds arena.old arena.new (given_refs (left ∷ right ∷ [])) [] }
{
    match step {
        Step::Join => {
            let joined = union_down(alloc, arena, left, right)?;
            Ok(joined)
        }
        Step::Meet => {
            let met = meet_down(alloc, arena, left, right)?;
            Ok(met)
        }
        Step::Strip => {
            let stripped = strip(alloc, arena, left)?;
            Ok(stripped)
        }
        Step::StripAt(name) => {
            let stripped_at = strip_at(alloc, arena, left, name)?;
            Ok(stripped_at)
        }
        Step::Complement => {
            let outside = not_free(alloc, arena, left)?;
            Ok(outside)
        }
    }
}

// The union of two types, cut down.
fn union_down(
    alloc: Global,
    arena: &mut Arena<'_>,
    left: TypeRef,
    right: TypeRef,
) -> Result<TypeRef, AllocError>
    requires left { IsTrue (has_node (store_of arena.old) left) }
    requires right { IsTrue (has_node (store_of arena.old) right) }
    ensures term { IfOk result (λ at. term_of (store_of arena.new) at
        ≡ cut_down_term (union_term (term_of (store_of arena.old) left) (term_of (store_of arena.old) right))) }
    ensures there { IfOk result (λ at. IsTrue (has_node (store_of arena.new) at)) }
    ensures clean { IfOk result (IsClean arena.old arena.new (given_refs (left ∷ right ∷ []))) }
    ensures adds { Adds arena.old arena.new (given_refs (left ∷ right ∷ [])) [] }
{
    let whole = union(alloc, arena, left, right)?;
    let at = cut_down(alloc, arena, whole)?;
    Ok(at)
}

// The meet of two types, cut down.
fn meet_down(
    alloc: Global,
    arena: &mut Arena<'_>,
    left: TypeRef,
    right: TypeRef,
) -> Result<TypeRef, AllocError>
    requires left { IsTrue (has_node (store_of arena.old) left) }
    requires right { IsTrue (has_node (store_of arena.old) right) }
    ensures term { IfOk result (λ at. term_of (store_of arena.new) at
        ≡ cut_down_term (meet_term (term_of (store_of arena.old) left) (term_of (store_of arena.old) right))) }
    ensures there { IfOk result (λ at. IsTrue (has_node (store_of arena.new) at)) }
    ensures clean { IfOk result (IsClean arena.old arena.new (given_refs (left ∷ right ∷ []))) }
    ensures adds { Adds arena.old arena.new (given_refs (left ∷ right ∷ [])) [] }
{
    let whole = meet(alloc, arena, left, right)?;
    let at = cut_down(alloc, arena, whole)?;
    Ok(at)
}
