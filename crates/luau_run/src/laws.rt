//! What holds of all runs. Each law is the contract of a function that does nothing.

ghost use Rattle.std.specs.Prelude.{◌≡◌, ◌≢◌, ℕ, suc, ◌+◌, ◌<◌, List, ◌∷◌, ◌++◌, length, Some, None, IsTrue, IsFalse, slice_get, codes};
ghost use Rattle.luau_values.specs.Value.{Value, Builtin};
ghost use Rattle.luau_values.specs.Start.{start_heap};
ghost use Rattle.luau_values.specs.Later.{Later, Extends};
ghost use Rattle.luau_values.specs.Grows.{Grows};
ghost use Rattle.luau_tree.specs.Tree.{Expr, Stat};
ghost use Rattle.luau_run.specs.Program.{Program, paths};
ghost use Rattle.luau_run.specs.Signature.{Signature, declaration, takes};
ghost use Rattle.luau_run.specs.Machine.{Answer, State, Failed, Spent, Reply, Unfit, ask};
ghost use Rattle.luau_run.specs.Layer.{Frame, Layer};
ghost use Rattle.luau_run.specs.Calls.{call_builtin, enter_module};
ghost use Rattle.luau_run.specs.Run.{layer_of, start, run, trace, end_of};
ghost use Rattle.luau_run.specs.After.{LeavesLast, After, Begins, GoesOn};

/// A run with more steps and a longer tape ends the same where it wasn't spent before, and goes on
/// from there where it was: what it logged before stays.
#[tactic(auto, using(crate::proofs::GoodLayers::run_goes_on, crate::proofs::GoodLayers::trace_goes_on))]
pub fn runs_go_on()
    ensures ends { (program : Program) (entry steps n : ℕ) (tape more : List Answer)
        → GoesOn n more (run program entry steps tape) (run program entry (steps + n) (tape ++ more)) }
    ensures traces { (program : Program) (entry steps n : ℕ) (tape more : List Answer)
        → Begins (trace program entry steps tape) (trace program entry (steps + n) (tape ++ more)) }
{}

/// No run is spent for want of depth: over a deeper layer it is the same. A run is spent where
/// steps or answers end, where an answer doesn't fit, and where it is stuck, as at a name of which
/// its module's reading says nothing.
#[tactic(auto, using(crate::proofs::GoodLayers::deep_enough))]
pub fn depth_is_enough()
    ensures { (program : Program) (entry steps : ℕ) (tape : List Answer) (more : ℕ)
        → run program entry steps tape
        ≡ enter_module (layer_of program (suc (steps + length tape) + more)) entry
        (slice_get program.modules entry) (start program steps tape) }
{}

/// Whatever a module does, frozen tables stay, and the libraries' tables with them.
#[tactic(auto, using(crate::proofs::GoodLayers::heap_later))]
pub fn heap_is_later()
    ensures { (program : Program) (entry steps : ℕ) (tape : List Answer)
        → Later (start_heap (paths program)) (end_of (run program entry steps tape)).store.heap }
{}

/// The end of an activation's body is the last that the activation logs.
#[tactic(auto, using(crate::proofs::GoodLayers::leaves_last))]
pub fn end_is_last()
    ensures { (program : Program) (entry steps : ℕ) (tape : List Answer)
        → LeavesLast (trace program entry steps tape) }
{}

/// Each expression, statement and call, of whatever depth, only logs more, keeps frozen tables, and
/// takes steps and answers; what it logs belongs to the activation that runs or to new ones.
#[tactic(auto, using(crate::proofs::GoodLayers::values_after, crate::proofs::GoodLayers::stat_after, crate::proofs::GoodLayers::call_after))]
pub fn parts_only_add()
    ensures expressions { (program : Program) (depth : ℕ) (frame : Frame) (e : Expr) (s : State)
        → frame.activation < s.store.begun → After (Some frame.activation) s (end_of ((layer_of program depth).values frame e s)) }
    ensures statements { (program : Program) (depth : ℕ) (frame : Frame) (x : Stat) (s : State)
        → frame.activation < s.store.begun → After (Some frame.activation) s (end_of ((layer_of program depth).stat frame x s)) }
    ensures calls { (program : Program) (depth : ℕ) (callee : Value) (args : List Value) (s : State)
        → After None s (end_of ((layer_of program depth).call callee args s)) }
{}

/// A checked builtin fails on arguments outside its declaration, and asks for nothing first.
#[tactic(auto, using(crate::proofs::CallFacts::checked_call_fails))]
pub fn checked_call_fails()
    ensures { (program : Program) (layer : Layer) (path : List ℕ) (signature : Signature) (args : List Value) (state : State)
        → declaration program.builtins path ≡ Some signature → IsTrue signature.checked → IsFalse (takes signature state.store.heap args)
        → call_builtin program layer path args state ≡ Failed state }
{}

/// A call of a quiet builtin other than `table.freeze` changes no table that was there: it only
/// adds tables.
#[tactic(auto, using(crate::proofs::QuietFacts::quiet_extends))]
pub fn quiet_call_extends()
    ensures { (program : Program) (depth : ℕ) (path : List ℕ) (signature : Signature) (args : List Value) (s : State)
        → declaration program.builtins path ≡ Some signature → IsTrue signature.quiet → path ≢ codes "table.freeze"
        → Extends s.store.heap (end_of ((layer_of program depth).call (Builtin path) args s)).store.heap }
{}

/// A call of a quiet builtin, `table.freeze` among them, only makes and freezes tables; one of
/// `table.freeze` does so whatever its declaration says.
#[tactic(auto, using(crate::proofs::FreezeFacts::quiet_grows, crate::proofs::FreezeFacts::freeze_call_grows))]
pub fn quiet_call_grows()
    ensures quiet { (program : Program) (depth : ℕ) (path : List ℕ) (signature : Signature) (args : List Value) (s : State)
        → declaration program.builtins path ≡ Some signature → IsTrue signature.quiet
        → Grows s.store.heap (end_of ((layer_of program depth).call (Builtin path) args s)).store.heap }
    ensures freeze { (program : Program) (depth : ℕ) (args : List Value) (s : State)
        → Grows s.store.heap
        (end_of ((layer_of program depth).call (Builtin (codes "table.freeze")) args s)).store.heap }
{}

/// An answer that doesn't fit spends the run: it is no failure.
#[tactic(auto, using(crate::proofs::CallFacts::unfit_spends))]
pub fn unfit_answer_spends()
    ensures { (reply : Answer → Reply Value) (answer : Answer) (rest : List Answer) (state : State)
        → state.tape ≡ answer ∷ rest → reply answer ≡ Unfit → ask reply state ≡ Spent state }
{}
