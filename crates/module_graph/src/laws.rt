//! What follows from the definitions alone, for every folder.
ghost use Rattle.std.specs.Prelude.{◌≡◌, ◌<◌, ℕ, suc, List, Some, Contains, slice_get};
ghost use Rattle.module_graph.specs.declared.needs.Fate.{Fate};
ghost use Rattle.module_graph.specs.declared.needs.Fate.TheVariants.{Checked};
ghost use Rattle.module_graph.specs.declared.needs.GraphRefusal.{GraphRefusal};
ghost use Rattle.module_graph.specs.declared.needs.ModuleNeeds.{ModuleNeeds};
ghost use Rattle.module_graph.specs.declared.needs.Plan.{Plan};
ghost use Rattle.module_graph.specs.declared.node.Node.{Node};
ghost use Rattle.luau_tree.specs.declared.position.Span.{Span};
ghost use Rattle.module_graph.specs.Requires.{nodes_of, Requires, Reaches};
ghost use Rattle.module_graph.specs.Fates.{IsFate, IsRefused, IsSkipped, IsLevel, RefusesAt};
ghost use Rattle.module_graph.specs.Levels.{IsPlan};
ghost use Rattle.module_graph.specs.Orders.{HasSameNeeds};

/// A checked module requires checked modules alone, each at a lower level.
pub fn checked_modules_require_checked_ones()
    ensures { (files : List ModuleNeeds) (plan : Plan) → IsPlan files plan → (file level next : ℕ) (needs : List ℕ) →
        slice_get plan.fates file ≡ Some (Checked level needs) → Requires (nodes_of files) file next →
        (lower : ℕ) × (others : List ℕ) × (slice_get plan.fates next ≡ Some (Checked lower others)) × (lower < level) }
{}

/// A module of a level that isn't the lowest requires one of the level right below, so no level below the highest is empty.
pub fn levels_stand_on_levels()
    ensures { (files : List ModuleNeeds) (plan : Plan) → IsPlan files plan → (file level : ℕ) (needs : List ℕ) →
        slice_get plan.fates file ≡ Some (Checked (suc level) needs) →
        (next : ℕ) × (others : List ℕ) × Requires (nodes_of files) file next × (slice_get plan.fates next ≡ Some (Checked level others)) }
{}

/// The levels list exactly the checked modules, each in its level.
pub fn levels_list_checked_modules()
    ensures listed { (files : List ModuleNeeds) (plan : Plan) → IsPlan files plan → (file level : ℕ) (needs : List ℕ) →
        slice_get plan.fates file ≡ Some (Checked level needs) →
        (modules : List ℕ) × (slice_get plan.levels level ≡ Some modules) × Contains modules file }
    ensures checked { (files : List ModuleNeeds) (plan : Plan) → IsPlan files plan → (file level : ℕ) (modules : List ℕ) →
        slice_get plan.levels level ≡ Some modules → Contains modules file →
        (needs : List ℕ) × (slice_get plan.fates file ≡ Some (Checked level needs)) }
{}

/// A module has one fate.
pub fn fates_are_unique()
    ensures { (nodes : List Node) (file : ℕ) (fate other : Fate) → IsFate nodes file fate → IsFate nodes file other → fate ≡ other }
{}

/// A skipped module reaches a refused one.
pub fn skipped_modules_reach_refused_ones()
    ensures { (nodes : List Node) (file : ℕ) → IsSkipped nodes file → (far : ℕ) × Reaches nodes file far × IsRefused nodes far }
{}

/// In which order the requires of a module are listed doesn't matter for what is refused, at which place, for what is
/// skipped, and for the levels.
pub fn the_order_of_needs_does_not_matter()
    ensures refused { (nodes other : List Node) → HasSameNeeds nodes other → (file : ℕ) → IsRefused nodes file → IsRefused other file }
    ensures places { (nodes other : List Node) → HasSameNeeds nodes other → (file : ℕ) (why : GraphRefusal) (at : Span) → RefusesAt nodes file why at → RefusesAt other file why at }
    ensures skipped { (nodes other : List Node) → HasSameNeeds nodes other → (file : ℕ) → IsSkipped nodes file → IsSkipped other file }
    ensures levels { (nodes other : List Node) → HasSameNeeds nodes other → (file level : ℕ) → IsLevel nodes file level → IsLevel other file level }
{}
