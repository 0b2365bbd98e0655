//! The operations on contexts. After want of memory the arena holds what it held and perhaps more
//! nodes, in each of them.
ghost use Rattle.std.specs.Prelude.{◌≡◌, ◌++◌, ◌∷◌, [], ℕ, true, false, map, IsTrue, IfOk, Contains};
ghost use Rattle.luau_tree.specs.Tree.{Expr};
ghost use Rattle.type_arena.specs.Arena.{store_of};
ghost use Rattle.type_arena.specs.Meaning.{term_of};
ghost use Rattle.type_arena.specs.Store.{has as has_node};
ghost use Rattle.type_arena.specs.declared.arena.Arena.{Arena as AnArena};
ghost use Rattle.type_arena.specs.declared.node.TypeRef.{TypeRef as RefValue};
ghost use Rattle.type_normal.specs.Adds.{Adds};
ghost use Rattle.type_normal.specs.Growing.{given_refs};
ghost use Rattle.type_normal.specs.Rows.{is_normal};
ghost use Rattle.report_rules.specs.Context.{only_for as only_for_one, join as joined, meet_of, unless as unless_term, branch as branched, stripped, stripped_at, without as without_locals};
ghost use Rattle.report_rules.specs.Guard.{guard};
ghost use Rattle.report_rules.specs.Rules.{Rules, loose};
ghost use Rattle.error_context.specs.Entries.{AreClean, IsContext, IsGuard, context_of, guard_of, refs_in};

use crate::context::Context;
use crate::kept::{entry, retained};
use crate::sides::{both, one};
use crate::steps::Step;
use luau_tree::{List, LocalId};
use std::alloc::{AllocError, Global};
use type_arena::{Arena, Label, TypeRef};
use type_normal::cut_down;

/// Code fails by one local alone, where its value is in a set, which is cut down; of a loose local
/// nothing is known.
pub fn only_for(
    alloc: Global,
    arena: &mut Arena<'_>,
    local: LocalId,
    is_loose: bool,
    set: TypeRef,
) -> Result<Context, AllocError>
    requires there { IsTrue (has_node (store_of arena.old) set) }
    requires normal { is_normal (term_of (store_of arena.old) set) ≡ true }
    ensures sets { IfOk result (λ made. (rules : Rules) → loose rules local.0 ≡ is_loose
        → (other : ℕ) → context_of arena.new made.entries other
        ≡ only_for_one rules local.0 (term_of (store_of arena.old) set) other) }
    ensures context { IfOk result (λ made. IsContext arena.new made.entries) }
    ensures clean { IfOk result (λ made. AreClean arena.old arena.new (set ∷ []) made.entries) }
    ensures adds { Adds arena.old arena.new (given_refs (set ∷ [])) [] }
{
    if is_loose {
        let made = Context::none(alloc);
        return Ok(made);
    }
    let cut = cut_down(alloc, arena, set)?;
    let entries = entry(alloc, arena, local, cut)?;
    Ok(Context { entries })
}

/// Code fails by one of two contexts: each local by one of its sets. Linear in the entries; the
/// types of a local that has an entry in one of them alone are not looked at.
pub fn join(
    alloc: Global,
    arena: &mut Arena<'_>,
    a: Context,
    b: Context,
) -> Result<Context, AllocError>
    requires left { IsContext arena.old a.entries }
    requires right { IsContext arena.old b.entries }
    ensures sets { IfOk result (λ made. (local : ℕ) → context_of arena.new made.entries local
        ≡ joined (context_of arena.old a.entries) (context_of arena.old b.entries) local) }
    ensures context { IfOk result (λ made. IsContext arena.new made.entries) }
    ensures clean { IfOk result (λ made. AreClean arena.old arena.new
        (refs_in a.entries ++ refs_in b.entries) made.entries) }
    ensures adds { Adds arena.old arena.new
        (given_refs (refs_in a.entries ++ refs_in b.entries)) [] }
{
    let right_none = b.is_none();
    if right_none {
        return Ok(a);
    }
    let left_none = a.is_none();
    if left_none {
        return Ok(b);
    }
    let entries = both(alloc, arena, &Step::Join, &a.entries, &b.entries)?;
    Ok(Context { entries })
}

/// Code fails by both of two contexts: each local by what is in both of its sets. Linear in the
/// entries.
pub fn meet(
    alloc: Global,
    arena: &mut Arena<'_>,
    a: Context,
    b: Context,
) -> Result<Context, AllocError>
    requires left { IsContext arena.old a.entries }
    requires right { IsContext arena.old b.entries }
    ensures sets { IfOk result (λ made. (local : ℕ) → context_of arena.new made.entries local
        ≡ meet_of (context_of arena.old a.entries) (context_of arena.old b.entries) local) }
    ensures context { IfOk result (λ made. IsContext arena.new made.entries) }
    ensures clean { IfOk result (λ made. AreClean arena.old arena.new
        (refs_in a.entries ++ refs_in b.entries) made.entries) }
    ensures adds { Adds arena.old arena.new
        (given_refs (refs_in a.entries ++ refs_in b.entries)) [] }
{
    let right_none = b.is_none();
    if right_none {
        return Ok(b);
    }
    let left_none = a.is_none();
    if left_none {
        return Ok(a);
    }
    let entries = both(alloc, arena, &Step::Meet, &a.entries, &b.entries)?;
    Ok(Context { entries })
}

/// A condition decides between two contexts: a local fails by its set on the one side, unless what
/// the condition says there shows that the other side was taken, and likewise on the other. The
/// lists say what the condition's truth and falsity say of its locals; of other locals they say
/// nothing.
pub fn branch(
    alloc: Global,
    arena: &mut Arena<'_>,
    when_true: &[(LocalId, TypeRef)],
    when_false: &[(LocalId, TypeRef)],
    a: Context,
    b: Context,
) -> Result<Context, AllocError>
    requires truth { IsGuard arena.old when_true.now }
    requires falsity { IsGuard arena.old when_false.now }
    requires left { IsContext arena.old a.entries }
    requires right { IsContext arena.old b.entries }
    ensures sets { IfOk result (λ made. (rules : Rules) (cond : Expr)
        → ((local : ℕ) → guard_of arena.old when_true.now local ≡ guard rules cond true local)
        → ((local : ℕ) → guard_of arena.old when_false.now local ≡ guard rules cond false local)
        → (local : ℕ) → context_of arena.new made.entries local
        ≡ branched rules cond
        (context_of arena.old a.entries) (context_of arena.old b.entries) local) }
    ensures context { IfOk result (λ made. IsContext arena.new made.entries) }
    ensures clean { IfOk result (λ made. AreClean arena.old arena.new
        ((refs_in when_true.now ++ refs_in a.entries)
        ++ (refs_in when_false.now ++ refs_in b.entries)) made.entries) }
    ensures adds { Adds arena.old arena.new
        (given_refs ((refs_in when_true.now ++ refs_in a.entries)
        ++ (refs_in when_false.now ++ refs_in b.entries))) [] }
{
    let left = unless(alloc, arena, when_true, a)?;
    let right = unless(alloc, arena, when_false, b)?;
    let made = meet(alloc, arena, left, right)?;
    Ok(made)
}

// A local fails by its set, or where its value is none that a condition leaves it.
fn unless(
    alloc: Global,
    arena: &mut Arena<'_>,
    says: &[(LocalId, TypeRef)],
    a: Context,
) -> Result<Context, AllocError>
    requires says { IsGuard arena.old says.now }
    requires context { IsContext arena.old a.entries }
    ensures sets { IfOk result (λ made. (local : ℕ) → context_of arena.new made.entries local
        ≡ unless_term (guard_of arena.old says.now local) (context_of arena.old a.entries local)) }
    ensures context { IfOk result (λ made. IsContext arena.new made.entries) }
    ensures clean { IfOk result (λ made. AreClean arena.old arena.new
        (refs_in says.now ++ refs_in a.entries) made.entries) }
    ensures adds { Adds arena.old arena.new
        (given_refs (refs_in says.now ++ refs_in a.entries)) [] }
{
    let entries = one(alloc, arena, &Step::Complement, says)?;
    let made = join(alloc, arena, a, Context { entries })?;
    Ok(made)
}

/// What is left of a context after tables may have changed.
pub fn strip_all(alloc: Global, arena: &mut Arena<'_>, a: &Context) -> Result<Context, AllocError>
    requires { IsContext arena.old a.now.entries }
    ensures sets { IfOk result (λ made. (local : ℕ) → context_of arena.new made.entries local
        ≡ stripped (context_of arena.old a.now.entries) local) }
    ensures context { IfOk result (λ made. IsContext arena.new made.entries) }
    ensures clean { IfOk result (λ made. AreClean arena.old arena.new
        (refs_in a.now.entries) made.entries) }
    ensures adds { Adds arena.old arena.new (given_refs (refs_in a.now.entries)) [] }
{
    let old = a.entries.as_slice();
    let entries = one(alloc, arena, &Step::Strip, old)?;
    Ok(Context { entries })
}

/// What is left of a context after writes to fields of one name.
pub fn strip_name(
    alloc: Global,
    arena: &mut Arena<'_>,
    a: &Context,
    name: &Label,
) -> Result<Context, AllocError>
    requires { IsContext arena.old a.now.entries }
    ensures sets { IfOk result (λ made. (local : ℕ) → context_of arena.new made.entries local
        ≡ stripped_at name.now (context_of arena.old a.now.entries) local) }
    ensures context { IfOk result (λ made. IsContext arena.new made.entries) }
    ensures clean { IfOk result (λ made. AreClean arena.old arena.new
        (refs_in a.now.entries) made.entries) }
    ensures adds { Adds arena.old arena.new (given_refs (refs_in a.now.entries)) [] }
{
    let name = name.clone()?;
    let step = Step::StripAt(name);
    let old = a.entries.as_slice();
    let entries = one(alloc, arena, &step, old)?;
    Ok(Context { entries })
}

/// A context without some locals. Takes no memory.
pub fn restrict(a: Context, without: &[LocalId]) -> Context
    ensures sets { (arena : AnArena) (local : ℕ) → context_of arena result.entries local
        ≡ without_locals (map (λ l. l.0) without.now) (context_of arena a.entries) local }
    ensures context { (arena : AnArena) → IsContext arena a.entries
        → IsContext arena result.entries }
    ensures among { (at : RefValue) → Contains (refs_in result.entries) at
        → Contains (refs_in a.entries) at }
{
    let old = a.entries.into_vec();
    let kept = retained(old, without);
    let entries = List::of(kept);
    Context { entries }
}
