//! What holds of every module. Each law is the contract of a function that does nothing.

ghost use Rattle.std.specs.Prelude.{◌≡◌, ℕ, List, map};
ghost use Rattle.luau_tree.specs.Tree.{Block};
ghost use Rattle.luau_tree.specs.Nodes.{exprs_in, binds_in, expr_number};
ghost use Rattle.luau_scope.specs.Laws.{Within, AscendFrom, name_numbers, IsEarliest, bind_name_and_span, local_name_and_span};
ghost use Rattle.luau_scope.specs.Finds.{found_in};
ghost use Rattle.luau_scope.specs.Locals.{uses_of, locals_of};
ghost use Rattle.luau_scope.specs.Refusals.{refusals, refusal_of};

/// The uses are those of names, and of some other expressions, in the order of the text: each name has one at its turn,
/// and each expression at most one. So where the expressions are numbered in the order of the text, the uses are sorted.
pub fn uses_are_in_order()
    ensures names { (paths : List (List ℕ)) (block : Block) → Within (name_numbers (exprs_in block)) (map (λ u. u.0.0) (uses_of paths block)) }
    ensures expressions { (paths : List (List ℕ)) (block : Block) → Within (map (λ u. u.0.0) (uses_of paths block)) (map expr_number (exprs_in block)) }
    ensures sorted { (paths : List (List ℕ)) (block : Block) → AscendFrom 0 (map expr_number (exprs_in block)) → AscendFrom 0 (map (λ u. u.0.0) (uses_of paths block)) }
{}

/// The locals are the names that a module declares, in the order of the text: a local's number is the position of its
/// declaration.
pub fn locals_are_in_order()
    ensures { (paths : List (List ℕ)) (block : Block) → map local_name_and_span (locals_of paths block) ≡ map bind_name_and_span (binds_in block) }
{}

/// The refusal of a module is the earliest of what the profile refuses in it: none comes before it. Where nothing is
/// refused there is none.
pub fn refusal_is_earliest()
    ensures { (paths : List (List ℕ)) (block : Block) → IsEarliest (refusals (found_in paths block)) (refusal_of paths block) }
{}
