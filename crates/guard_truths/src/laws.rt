//! Laws of guards. Each is the contract of a function that does nothing.
ghost use Rattle.std.specs.Prelude.{◌≡◌, ℕ, true};
ghost use Rattle.luau_run.specs.Operators.{is_true};
ghost use Rattle.luau_tree.specs.Tree.{Expr};
ghost use Rattle.luau_values.specs.Heap.{Heap};
ghost use Rattle.luau_values.specs.Value.{Value};
ghost use Rattle.report_rules.specs.Guard.{guard};
ghost use Rattle.report_rules.specs.Rules.{Rules};
ghost use Rattle.type_normal.specs.Holds.{holds};
ghost use Rattle.guard_truths.specs.Truths.{MayGive};

/// Where each local keeps its value and a condition comes out true, or false, what each local holds is of the type that the
/// condition's guard then says of it.
pub fn conditions_say_what_locals_hold()
    ensures { (rules : Rules) (held : ℕ → Value) (heap : Heap) (cond : Expr) (v : Value) → MayGive rules held cond v
        → (local : ℕ) → holds heap (held local) (guard rules cond (is_true v) local) ≡ true }
{}
