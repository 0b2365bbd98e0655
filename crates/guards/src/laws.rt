//! Laws of guards. Each is the contract of a function that does nothing.
ghost use Rattle.std.specs.Prelude.{◌≡◌, ℕ, List, true, false, map};
ghost use Rattle.luau_scope.specs.Laws.{AscendFrom};
ghost use Rattle.luau_scope.specs.Locals.{is_among};
ghost use Rattle.luau_tree.specs.Tree.{Expr};
ghost use Rattle.report_rules.specs.Guard.{guard, guarded};
ghost use Rattle.report_rules.specs.Rules.{Rules, loose};
ghost use Rattle.type_arena.specs.Arena.{store_of};
ghost use Rattle.type_arena.specs.Homes.{Given};
ghost use Rattle.type_arena.specs.Meaning.{term_of};
ghost use Rattle.type_arena.specs.declared.arena.Arena.{Arena};
ghost use Rattle.type_arena.specs.declared.node.TypeRef.{TypeRef};
ghost use Rattle.type_normal.specs.Adds.{Adds};
ghost use Rattle.guards.specs.Guards.{AreOwn, IsGuard};
ghost use Rattle.guards.specs.Lists.{meant, type_in, has_local};
ghost use Rattle.guards.specs.declared.guarding.Guard.{Guard};

/// Of each local a guard of a condition gives what the rules say of it. It lists the guarded locals, none of which is
/// loose, in their order and each once.
#[tactic(auto, using(crate::proofs::GuardFacts::true_says, crate::proofs::GuardFacts::false_says, crate::proofs::GuardFacts::true_has, crate::proofs::GuardFacts::false_has, crate::proofs::GuardFacts::true_firm, crate::proofs::GuardFacts::true_rises, crate::proofs::GuardFacts::false_rises))]
pub fn guards_say_what_the_rules_say()
    ensures when_true { (arena : Arena) (rules : Rules) (e : Expr) (g : Guard) → IsGuard arena rules e g
        → (local : ℕ) → type_in (meant (term_of (store_of arena)) g.when_true) local ≡ guard rules e true local }
    ensures when_false { (arena : Arena) (rules : Rules) (e : Expr) (g : Guard) → IsGuard arena rules e g
        → (local : ℕ) → type_in (meant (term_of (store_of arena)) g.when_false) local ≡ guard rules e false local }
    ensures true_locals { (arena : Arena) (rules : Rules) (e : Expr) (g : Guard) → IsGuard arena rules e g
        → (local : ℕ) → has_local g.when_true local ≡ is_among local (guarded rules e) }
    ensures false_locals { (arena : Arena) (rules : Rules) (e : Expr) (g : Guard) → IsGuard arena rules e g
        → (local : ℕ) → has_local g.when_false local ≡ is_among local (guarded rules e) }
    ensures firm { (arena : Arena) (rules : Rules) (e : Expr) (g : Guard) → IsGuard arena rules e g
        → (local : ℕ) → has_local g.when_true local ≡ true → loose rules local ≡ false }
    ensures true_ascends { (arena : Arena) (rules : Rules) (e : Expr) (g : Guard) → IsGuard arena rules e g
        → AscendFrom 0 (map (λ entry. entry.0.0) g.when_true) }
    ensures false_ascends { (arena : Arena) (rules : Rules) (e : Expr) (g : Guard) → IsGuard arena rules e g
        → AscendFrom 0 (map (λ entry. entry.0.0) g.when_false) }
{}

/// A guard stays one, and its references stay the arena's own, while the arena gets nodes.
pub fn guards_stay()
    ensures says { (old new : Arena) (given : Given) (answers : List TypeRef) → Adds old new given answers
        → (rules : Rules) (e : Expr) (g : Guard) → AreOwn old g → IsGuard old rules e g → IsGuard new rules e g }
    ensures own { (old new : Arena) (given : Given) (answers : List TypeRef) → Adds old new given answers
        → (g : Guard) → AreOwn old g → AreOwn new g }
{}
