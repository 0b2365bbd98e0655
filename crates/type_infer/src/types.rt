//! The types of a module's expressions.
ghost use Rattle.std.specs.Prelude.{◌≡◌, ◌≤◌, ℕ, Bool, List, length, Option, All, IsTrue, IfOk, map};
ghost use Rattle.luau_tree.specs.View.{view_block};
ghost use Rattle.type_arena.specs.Arena.{below_of, home_of, store_of};
ghost use Rattle.type_arena.specs.Meaning.{term_of};
ghost use Rattle.type_arena.specs.Shelf.{shelf_store};
ghost use Rattle.type_arena.specs.Store.{Keeps, has as has_node};
ghost use Rattle.type_arena.specs.Term.{Term};
ghost use Rattle.type_decl.specs.Tables.{alone, declared_in};
ghost use Rattle.local_types.specs.Growing.{HaveHomes};
ghost use Rattle.module_facts.specs.Facts.{IsInOrder};
ghost use Rattle.module_reading.specs.ReadRules.{rules_of_scoped};
ghost use Rattle.report_rules.specs.After.{summary as summary_term};
ghost use Rattle.report_rules.specs.Seen.{seen_module};
ghost use Rattle.rule_state.specs.Sound.{StartsWithin};
ghost use Rattle.seen_types.specs.Seen.{refs_seen, seen_with};
ghost use Rattle.seen_types.specs.Tables.{seen_in};
ghost use Rattle.rule_state.specs.Work.{work_of};
ghost use Rattle.rule_work.specs.Work.{begun};
ghost use Rattle.type_infer.specs.Handing.{one_handed};
ghost use Rattle.type_infer.specs.Homes.{AnswerWithin};
ghost use Rattle.type_infer.specs.Imports.{AreImports, types_imported};
ghost use Rattle.type_infer.specs.Outside.{around_of};

use crate::handing::handed;
use crate::imports::{Imports, by_number, outside};
use crate::walk::{summarize, walk};
use local_types::LocalTypes;
use luau_scope::Scoped;
use luau_tree::ExprId;
use module_facts::Facts;
use rule_state::{Answers, RuleState};
use seen_types::SeenTypes;
use std::alloc::{AllocError, Global};
use type_arena::{Arena, Shelf, TypeRef, over};
use type_decl::SigTable;

/// The types of a module's expressions, and what it gives who requires it, in an arena.
#[derive(Drop)]
pub struct Types<'a> {
    pub arena: Arena<'a>,
    pub seen: SeenTypes,
    pub summary: TypeRef,
}

/// The types of a module's expressions, in an arena of its own over the shelf. The shelf begins with the arena of the declared
/// builtins, and has what static requires give; those that lead to a module, and no others, are listed.
pub fn types_of<'a>(
    alloc: Global,
    scoped: &Scoped,
    table: &'a SigTable,
    shelf: Shelf<'a>,
    home: u32,
    imports: &Imports,
) -> Result<Types<'a>, AllocError>
    requires in_order { IsInOrder scoped.now }
    requires above { length (shelf_store shelf) ≤ home }
    requires declared { Keeps (alone table.now.arena) (shelf_store shelf) }
    requires imported { All (λ at. IsTrue (has_node (shelf_store shelf) at)) (types_imported imports.now.list) }

    // What was seen, and what the module gives, is what the rules say.
    ensures seen { IfOk result (λ types. (leads : List ℕ → Option ℕ) (import : ℕ → Term) → AreImports scoped.now (shelf_store shelf.entry) imports.now.list leads import
        → seen_with (term_of (store_of types.arena)) (seen_in types.seen) ≡ seen_module (rules_of_scoped scoped.now home leads (declared_in table.now.arena table.now.paths table.now.sigs) import)) }
    ensures summary { IfOk result (λ types. (leads : List ℕ → Option ℕ) (import : ℕ → Term) → AreImports scoped.now (shelf_store shelf.entry) imports.now.list leads import
        → term_of (store_of types.arena) types.summary ≡ summary_term (rules_of_scoped scoped.now home leads (declared_in table.now.arena table.now.paths table.now.sigs) import)) }

    // Each reference is there, in an arena over the shelf.
    ensures summary_there { IfOk result (λ types. IsTrue (has_node (store_of types.arena) types.summary)) }
    ensures seen_there { IfOk result (λ types. All (λ at. IsTrue (has_node (store_of types.arena) at)) (refs_seen (seen_in types.seen))) }
    ensures home { IfOk result (λ types. home_of types.arena ≡ home) }
    ensures below { IfOk result (λ types. below_of types.arena ≡ shelf_store shelf.entry) }

    // Nothing leads to a home to which neither the shelf does, nor the declared builtins, nor what static requires give.
    ensures homes { IfOk result (λ types. (test : ℕ → Bool) → StartsWithin test types.arena → IsTrue (test 0) → HaveHomes test (types_imported imports.now.list) → AnswerWithin test types) }
{
    let mut state = start(alloc, table, shelf, home, imports)?;
    let facts = Facts {
        scoped,
        table,
        home,
    };
    walk(alloc, &facts, &mut state, &scoped.module.block)?;
    summarize(&mut state)?;
    hand_over(alloc, state.into_answers())
}

/// Nothing is known and nothing was seen.
fn start<'a>(
    alloc: Global,
    table: &'a SigTable,
    shelf: Shelf<'a>,
    home: u32,
    imports: &Imports,
) -> Result<RuleState<'a>, AllocError>
    requires above { length (shelf_store shelf) ≤ home }
    requires declared { Keeps (alone table.now.arena) (shelf_store shelf) }
    requires imported { All (λ at. IsTrue (has_node (shelf_store shelf) at)) (types_imported imports.now.list) }
    ensures { IfOk result (λ state. work_of state ≡ begun (around_of (shelf_store shelf.entry) home table.now imports.now.list)) }
{
    let arena = over(alloc, shelf, home)?;
    let types = LocalTypes::new(alloc, arena);
    let found = by_number(alloc, imports.list.as_slice())?;
    let away = outside(alloc, imports.list.as_slice())?;
    RuleState::new(alloc, types, home, table, found, away)
}

/// What was seen, by the numbers of expressions and bodies.
fn hand_over<'a>(alloc: Global, answers: Answers<'a>) -> Result<Types<'a>, AllocError>
    ensures arena { IfOk result (λ types. types.arena ≡ answers.entry.arena) }
    ensures summary { IfOk result (λ types. types.summary ≡ answers.entry.value) }
    ensures seen { IfOk result (λ types. seen_in types.seen ≡ map one_handed answers.entry.seen.items) }
{
    let list = handed(alloc, answers.seen.as_slice())?;
    let seen = SeenTypes::of(alloc, list)?;
    Ok(Types {
        arena: answers.arena,
        seen,
        summary: answers.value,
    })
}

impl<'a> Types<'a> {
    ghost use Rattle.std.specs.Prelude.{is_some, IfSome};
    ghost use Rattle.std.specs.Option.{option_map_or};
    ghost use Rattle.type_normal.specs.Kinds.{unknown};
    ghost use Rattle.report_rules.specs.Seen.{is_live, type_at};

    /// The type of the first value of an expression. None exactly where its place is dead.
    pub fn of(&self, at: ExprId) -> Option<TypeRef>
        ensures live { is_live (seen_with (term_of (store_of self.now.arena)) (seen_in self.now.seen)) at.0 ≡ is_some result }
        ensures meant { IfSome result (λ found. type_at (seen_with (term_of (store_of self.now.arena)) (seen_in self.now.seen)) at.0 ≡ term_of (store_of self.now.arena) found) }
    {
        self.seen.live_type(at)
    }

    /// The type of an expression in a dead place too, where the rules ask for it; None where it stands in a written type.
    pub fn anywhere(&self, at: ExprId) -> Option<TypeRef>
        ensures { type_at (seen_with (term_of (store_of self.now.arena)) (seen_in self.now.seen)) at.0 ≡ option_map_or (term_of (store_of self.now.arena)) result unknown }
    {
        self.seen.type_at(at)
    }

    /// What the module gives who requires it.
    pub fn summary(&self) -> TypeRef
        ensures { result ≡ self.now.summary }
    {
        self.summary
    }
}
