//! The guards of conditions, whose types stand among those of the maps.
ghost use Rattle.std.specs.Prelude.{◌≡◌, [], true, false, map, All, IsTrue, IfOk};
ghost use Rattle.luau_scope.specs.Laws.{AscendFrom};
ghost use Rattle.luau_tree.specs.View.{view_expr};
ghost use Rattle.local_types.specs.Entries.{arenas_of, type_of};
ghost use Rattle.local_types.specs.Growing.{Grows, IsMadeOf};
ghost use Rattle.local_types.specs.Locals.{said_meant, refs_said};
ghost use Rattle.module_reading.specs.Names.{Reads};
ghost use Rattle.report_rules.specs.Rules.{Rules};
ghost use Rattle.report_rules.specs.TypeMap.{TypeMap, refine};
ghost use Rattle.type_arena.specs.Store.{has as has_node};
ghost use Rattle.rule_state.specs.Conditions.{refined_by_said};

use guards::{Guard, guard_of};
use local_types::LocalTypes;
use luau_scope::Scoped;
use luau_tree::Expr;
use std::alloc::{AllocError, Global};

/// The guard of a condition. By what its lists say maps are refined as the condition does.
pub(crate) fn guard_in(
    alloc: Global,
    types: &mut LocalTypes<'_>,
    scoped: &Scoped,
    cond: &Expr,
) -> Result<Guard, AllocError>
    requires { AscendFrom 0 (map (λ u. u.0.0) scoped.now.uses) }
    ensures when_true { IfOk result (λ g. (rules : Rules) → Reads scoped.now.uses scoped.now.locals rules → (known : TypeMap) → refined_by_said (said_meant (type_of types.new) g.when_true) known ≡ refine rules (view_expr cond.now) true known) }
    ensures when_false { IfOk result (λ g. (rules : Rules) → Reads scoped.now.uses scoped.now.locals rules → (known : TypeMap) → refined_by_said (said_meant (type_of types.new) g.when_false) known ≡ refine rules (view_expr cond.now) false known) }
    ensures true_there { IfOk result (λ g. All (λ at. IsTrue (has_node (arenas_of types.new) at)) (refs_said g.when_true)) }
    ensures true_made { IfOk result (λ g. All (IsMadeOf types.old []) (refs_said g.when_true)) }
    ensures false_there { IfOk result (λ g. All (λ at. IsTrue (has_node (arenas_of types.new) at)) (refs_said g.when_false)) }
    ensures false_made { IfOk result (λ g. All (IsMadeOf types.old []) (refs_said g.when_false)) }
    ensures grows { Grows types.old types.new [] }
{
    let guard = guard_of(alloc, &mut types.arena, scoped, cond)?;
    Ok(guard)
}
