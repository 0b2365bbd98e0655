//! Laws of contexts and of what they are made of. Each is the contract of a function that does nothing.
ghost use Rattle.std.specs.Prelude.{◌≡◌, ℕ, Bool, List, true};
ghost use Rattle.luau_tree.specs.Tree.{Expr};
ghost use Rattle.luau_tree.specs.declared.names.BinOp.{BinOp};
ghost use Rattle.luau_tree.specs.declared.names.UnOp.{UnOp};
ghost use Rattle.type_arena.specs.Homes.{Given};
ghost use Rattle.type_arena.specs.Term.{Term};
ghost use Rattle.type_arena.specs.declared.arena.Arena.{Arena};
ghost use Rattle.type_arena.specs.declared.node.TypeRef.{TypeRef};
ghost use Rattle.type_normal.specs.Adds.{Adds};
ghost use Rattle.type_normal.specs.Kinds.{field_is};
ghost use Rattle.type_normal.specs.Operations.{fail};
ghost use Rattle.type_normal.specs.Rows.{is_normal};
ghost use Rattle.report_rules.specs.Checks.{ReportKind, left, operand_set, unary_set};
ghost use Rattle.report_rules.specs.Guard.{guard};
ghost use Rattle.report_rules.specs.Rules.{Rules};
ghost use Rattle.error_context.specs.Entries.{AreThere, AscendFrom, Entries, IsContext, IsGuard, context_of, guard_of, locals_in, refs_in};

/// While an arena gets nodes, contexts stay contexts with the same sets, and what conditions say
/// stays.
pub fn contexts_stay()
    ensures context { (old new : Arena) (given : Given) (answers : List TypeRef) (entries : Entries) → Adds old new given answers
        → IsContext old entries → IsContext new entries }
    ensures sets { (old new : Arena) (given : Given) (answers : List TypeRef) (entries : Entries) → Adds old new given answers
        → IsContext old entries → (local : ℕ) → context_of new entries local ≡ context_of old entries local }
    ensures guard { (old new : Arena) (given : Given) (answers : List TypeRef) (entries : Entries) → Adds old new given answers
        → IsGuard old entries → IsGuard new entries }
    ensures says { (old new : Arena) (given : Given) (answers : List TypeRef) (entries : Entries) → Adds old new given answers
        → IsGuard old entries → (local : ℕ) → guard_of new entries local ≡ guard_of old entries local }
{}

/// A list that has, in order, what a condition says of each local is what the condition says: its
/// types are in normal form.
pub fn lists_say_what_conditions_say()
    ensures said { (rules : Rules) (cond : Expr) (truth : Bool) (local : ℕ)
        → is_normal (guard rules cond truth local) ≡ true }
    ensures list { (arena : Arena) (entries : Entries) (rules : Rules) (cond : Expr) (truth : Bool)
        → AscendFrom 0 (locals_in entries) → AreThere arena (refs_in entries)
        → ((local : ℕ) → guard_of arena entries local ≡ guard rules cond truth local)
        → IsGuard arena entries }
{}

/// The sets that the rules ask for are in normal form, where those that they are made of are.
pub fn asked_sets_are_normal()
    ensures unary { (op : UnOp) → is_normal (unary_set op) ≡ true }
    ensures operand { (op : BinOp) (other : Term) → is_normal (operand_set op other) ≡ true }
    ensures field { (name : List ℕ) (type : Term) → is_normal type ≡ true
        → is_normal (field_is name type) ≡ true }
    ensures wanted { (type : Term) → is_normal type ≡ true → is_normal (fail type) ≡ true }
    ensures left { (kinds : List ReportKind) (set : Term) → is_normal set ≡ true
        → is_normal (left kinds set) ≡ true }
{}
