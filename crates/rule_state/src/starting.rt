//! The first state.
ghost use Rattle.std.specs.Prelude.{◌≡◌, IfOk};
ghost use Rattle.type_arena.specs.Arena.{home_of};
ghost use Rattle.local_types.specs.Entries.{arena_of};
ghost use Rattle.rule_state.specs.Sound.{IsConfined, KnowsImports, KnowsTable};
ghost use Rattle.rule_work.specs.Work.{begun};
ghost use Rattle.rule_state.specs.Work.{around_in, work_of};

use crate::state::RuleState;
use local_types::{LocalTypes, Point};
use std::alloc::{AllocError, Global};
use std::collections::BTreeMap;
use type_arena::TypeRef;
use type_decl::SigTable;
use type_fields::Plain;

impl<'a> RuleState<'a> {
    /// Nothing is known and nothing was seen. The types of the declared builtins, and what static requires give by the numbers
    /// of their calls, are among the types that come from elsewhere. The types lead to no home but their own, those to which
    /// the arenas below lead and those of the types that come from elsewhere.
    pub fn new(
        alloc: Global,
        mut types: LocalTypes<'a>,
        home: u32,
        table: &'a SigTable,
        imports: BTreeMap<u32, TypeRef>,
        outside: Vec<TypeRef>,
    ) -> Result<RuleState<'a>, AllocError>
        requires own { home ≡ home_of (arena_of types) }
        requires confined { IsConfined types outside.items }
        requires known { KnowsTable types outside.items table.now }
        requires imports { KnowsImports types outside.items imports }
        ensures { IfOk result (λ state. work_of state ≡ begun (around_in types.entry home outside.items table.now imports)) }
    {
        let value = types.plain(alloc, Plain::Unknown)?;
        let map = types.everywhere(value)?;
        Ok(RuleState {
            alloc,
            home,
            types,
            outside,
            table,
            imports,
            value,
            held: Vec::new(alloc),
            lists: Vec::new(alloc),
            point: Point { map, dead: false },
            saved: Vec::new(alloc),
            ends: Vec::new(alloc),
            seen: Vec::new(alloc),
            pending: Vec::new(alloc),
        })
    }
}
