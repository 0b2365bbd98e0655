//! What holds of every module. Each law is the contract of a function that does nothing.

ghost use Rattle.std.specs.Prelude.{◌≡◌, ℕ, List};
ghost use Rattle.luau_tree.specs.View.{view_block};
ghost use Rattle.luau_scope.specs.declared.reading.Scoped.{Scoped};
ghost use Rattle.luau_scope.specs.Locals.{uses_of, locals_of, requires_of};
ghost use Rattle.module_facts.specs.Facts.{IsInOrder};
ghost use Rattle.module_facts.specs.Ordered.{StandsInOrder};

/// What `resolve` gives of a module whose nodes stand in the order of the text is in that order too.
#[tactic(auto, using(crate::proofs::InOrder::resolved_in_order))]
pub fn resolved_modules_are_in_order()
    ensures { (paths : List (List ℕ)) (scoped : Scoped) → StandsInOrder (view_block scoped.«module».block)
        → scoped ≡ record {
          «module» = scoped.«module»;
          locals = locals_of paths (view_block scoped.«module».block);
          uses = uses_of paths (view_block scoped.«module».block);
          required = requires_of paths (view_block scoped.«module».block);
        } → IsInOrder scoped }
{}
