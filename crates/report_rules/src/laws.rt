//! Laws of the rules. Each is the contract of a function that does nothing.

ghost use Rattle.std.specs.Prelude.{not, ◌&&◌, ◌||◌, ◌≡◌, ◌≢◌, ◌↔◌, ℕ, Bool, List, [], true, false, Contains, AllPairs};
ghost use Rattle.std.specs.Cmp.{IsTotalOrder};
ghost use Rattle.std.specs.FinMap.{IsAntisymmetric};
ghost use Rattle.std.specs.declared.cmp.Ordering.TheVariants.{Less};
ghost use Rattle.luau_tree.specs.Tree.{Block, Stat, Expr, Bind};
ghost use Rattle.luau_run.specs.Statements.{place_of};
ghost use Rattle.luau_values.specs.Heap.{Heap};
ghost use Rattle.luau_values.specs.Value.{Value};
ghost use Rattle.type_arena.specs.Term.{Term};
ghost use Rattle.type_normal.specs.Holds.{holds};
ghost use Rattle.type_normal.specs.HeapFree.{heap_free};
ghost use Rattle.luau_tree.specs.declared.names.Place.{Place};
ghost use Rattle.report_rules.specs.Rules.{Rules};
ghost use Rattle.report_rules.specs.Effects.{effects, stirs, touches, branches};
ghost use Rattle.type_normal.specs.Cut.{is_small};
ghost use Rattle.report_rules.specs.TypeMap.{TypeMap, set, refine, joined_live};
ghost use Rattle.report_rules.specs.Guard.{guard};
ghost use Rattle.report_rules.specs.Forward.{after};
ghost use Rattle.report_rules.specs.After.{after_stat, after_block, summary};
ghost use Rattle.report_rules.specs.Seen.{Seen, is_live, seen_module};
ghost use Rattle.subtype_check.specs.Below.{below};
ghost use Rattle.report_rules.specs.Context.{Context, only_for, join, meet_of, branch, stripped};
ghost use Rattle.luau_run.specs.SyntaxNode.{of_block};
ghost use Rattle.report_rules.specs.Findings.{parameter_kinds};
ghost use Rattle.report_rules.specs.Places.{places_of, found_at, AreLive, numbered, seen_numbers};
ghost use Rattle.report_rules.specs.Reports.{Report, findings, reported_places};
ghost use Rattle.report_rules.specs.Program.{IsLinked, linked, RequireEarlier};
ghost use Rattle.report_rules.specs.Printed.{report_cmp, printed};
ghost use Rattle.report_rules.specs.Checks.{ReportKind, check};

/// A dead map stays dead, whatever comes.
#[tactic(auto, using(crate::proofs::DeadFacts::stat_dead, crate::proofs::DeadFacts::block_dead))]
pub fn dead_maps_stay_dead()
    ensures statement { (rules : Rules) (map : TypeMap) (s : Stat) → map.dead ≡ true → (after_stat rules map s).dead ≡ true }
    ensures block { (rules : Rules) (map : TypeMap) (b : Block) → map.dead ≡ true → (after_block rules map b).dead ≡ true }
{}

/// The map after an expression without effects is the map before it.
#[tactic(auto, using(crate::proofs::PlaceFacts::kept))]
pub fn expressions_without_effects_change_nothing()
    ensures { (rules : Rules) (map : TypeMap) (e : Expr) → effects rules e ≡ false → after rules map e ≡ map }
{}

/// What is reported by a check stands at a live place.
#[tactic(auto, using(crate::proofs::PlaceFacts::checked_live))]
pub fn checks_report_live_places()
    ensures { (seen : List Seen) (e : Expr) (set : Term) (kind : ReportKind) → check seen e set kind ≢ []
        → is_live seen (place_of e) ≡ true }
{}

/// What a module gives stays what it is in every later heap.
#[tactic(auto, using(crate::proofs::PlaceFacts::summary_free))]
pub fn summaries_are_heap_free()
    ensures { (rules : Rules) → heap_free (summary rules) ≡ true }
{}

/// A larger set gives each report that a smaller one gives, at an expression and at a parameter.
#[tactic(auto, using(crate::proofs::PlaceFacts::larger_check, crate::proofs::PlaceFacts::larger_body))]
pub fn larger_sets_report_more()
    ensures check { (seen : List Seen) (e : Expr) (small large : Term) (kind : ReportKind) → below small large ≡ true
        → check seen e small kind ≢ [] → check seen e large kind ≢ [] }
    ensures parameter { (rules : Rules) (live : Bool) (annotation : Term) (small large : Context) (bind : Bind)
        → ((x : ℕ) → below (small x) (large x) ≡ true)
        → parameter_kinds rules live annotation small bind ≢ [] → parameter_kinds rules live annotation large bind ≢ [] }
{}

/// Each expression of a module and each parameter of its functions has one entry of findings, in
/// the order of the text.
#[tactic(auto, using(crate::proofs::FoundPlaces::one_each))]
pub fn places_have_one_entry_each()
    ensures { (rules : Rules) → found_at (findings rules) ≡ places_of (of_block rules.reading.block) }
{}

/// What is reported stands at a live place.
#[tactic(auto, using(crate::proofs::FoundLive::all_live))]
pub fn reports_stand_at_live_places()
    ensures { (rules : Rules) → AreLive (seen_module rules) (findings rules) }
{}

/// Each expression of a module and each of its bodies has one entry of what is seen, in the order
/// of the text.
#[tactic(auto, using(crate::proofs::SeenPlaces::one_seen))]
pub fn expressions_are_seen_once()
    ensures { (rules : Rules) → seen_numbers (seen_module rules) ≡ numbered (of_block rules.reading.block) }
{}

/// Reports are compared by a total order, in which only equal ones tie.
#[tactic(auto, using(crate::proofs::PrintedFacts::report_cmp_total, crate::proofs::PrintedFacts::same_report))]
pub fn reports_are_ordered()
    ensures total { IsTotalOrder report_cmp }
    ensures ties { IsAntisymmetric report_cmp }
{}

/// The reports that are given are the reports of the module, in order, each once; and no other list is.
pub fn reports_are_given_in_order()
    ensures sorted { (reports : List Report) → AllPairs (λ a b. report_cmp a b ≡ Less) (printed reports) }
    ensures same { (reports : List Report) (report : Report) → (Contains (printed reports) report ↔ Contains reports report) }
    ensures alone { (reports other : List Report) → AllPairs (λ a b. report_cmp a b ≡ Less) other
        → ((report : Report) → (Contains other report ↔ Contains reports report)) → other ≡ printed reports }
{}

/// Modules of which each requires earlier ones alone, and that are linked one after the other, know each other's summaries.
#[tactic(auto, using(crate::proofs::LinkedFacts::linked_is_linked))]
pub fn linked_modules_have_summaries()
    ensures { (modules : List Rules) → RequireEarlier 0 modules → IsLinked (linked modules) }
{}

/// The map after a statement that stirs nothing gives each local that the statement doesn't touch what the map before gave, unless
/// it is joined out of the branches of an `if`.
#[tactic(auto, using(crate::proofs::KeptFacts::stat_kept))]
pub fn untouched_locals_stay_known()
    ensures { (rules : Rules) (map : TypeMap) (s : Stat) (x : ℕ) → branches s ≡ false → stirs rules s ≡ false → touches rules x s ≡ false
        → (after_stat rules map s).entry x ≡ map.entry x }
{}

/// Each new entry of a map is small, and so is each entry that a context is made with.
#[tactic(auto, using(crate::proofs::SmallFacts::set_small, crate::proofs::SmallFacts::refine_small, crate::proofs::SmallFacts::joined_small, crate::proofs::SmallFacts::one_small, crate::proofs::SmallFacts::join_small, crate::proofs::SmallFacts::meet_small, crate::proofs::SmallFacts::branch_small))]
pub fn new_entries_are_small()
    ensures set { (rules : Rules) (x : ℕ) (type : Term) (map : TypeMap) → ((y : ℕ) → is_small (map.entry y) ≡ true)
        → (y : ℕ) → is_small ((set rules x type map).entry y) ≡ true }
    ensures refined { (rules : Rules) (cond : Expr) (truth : Bool) (map : TypeMap) → ((y : ℕ) → is_small (map.entry y) ≡ true)
        → (y : ℕ) → is_small ((refine rules cond truth map).entry y) ≡ true }
    ensures joined_maps { (live : List TypeMap) (y : ℕ) → is_small ((joined_live live).entry y) ≡ true }
    ensures one { (rules : Rules) (x : ℕ) (type : Term) (y : ℕ) → is_small (only_for rules x type y) ≡ true }
    ensures joined { (a b : Context) (y : ℕ) → is_small (join a b y) ≡ true }
    ensures met { (a b : Context) (y : ℕ) → is_small (meet_of a b y) ≡ true }
    ensures branched { (rules : Rules) (cond : Expr) (a b : Context) (y : ℕ) → is_small (branch rules cond a b y) ≡ true }
{}

/// The places of the reports that are given are the reported places of the module.
pub fn given_reports_have_the_reported_places()
    ensures { (module_at : ℕ) (reports : List Report) (place : ℕ × Place)
        → (Contains (reported_places module_at (printed reports)) place ↔ Contains (reported_places module_at reports) place) }
{}

/// In every heap a value in an entry of a joined context is in one of the two, of a met one in both, of a stripped one in what was
/// stripped. In a branch it is in the one side's entry or out of what the condition says there, and likewise on the other.
#[tactic(auto, using(crate::proofs::ContextFacts::join_holds, crate::proofs::ContextFacts::meet_of_holds, crate::proofs::ContextFacts::branch_holds, crate::proofs::ContextFacts::stripped_holds))]
pub fn entries_hold_what_they_were_made_of()
    ensures joined { (heap : Heap) (value : Value) (a b : Context) (x : ℕ) → holds heap value (join a b x) ≡ true
        → holds heap value (a x) || holds heap value (b x) ≡ true }
    ensures met { (heap : Heap) (value : Value) (a b : Context) (x : ℕ) → holds heap value (meet_of a b x) ≡ true
        → holds heap value (a x) && holds heap value (b x) ≡ true }
    ensures branched { (rules : Rules) (cond : Expr) (heap : Heap) (value : Value) (a b : Context) (x : ℕ) → holds heap value (branch rules cond a b x) ≡ true
        → (holds heap value (a x) || not (holds heap value (guard rules cond true x))) && (holds heap value (b x) || not (holds heap value (guard rules cond false x))) ≡ true }
    ensures stripped { (heap : Heap) (value : Value) (a : Context) (x : ℕ) → holds heap value (stripped a x) ≡ true → holds heap value (a x) ≡ true }
{}
