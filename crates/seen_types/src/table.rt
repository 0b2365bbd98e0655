ghost use Rattle.std.proofs.Props.{props};
ghost use Rattle.std.specs.Prelude.{◌≡◌, ℕ, nat_eq};
ghost use Rattle.std.specs.HashMap.{get};
ghost use Rattle.seen_types.specs.Seen.{expr_at, body_at};

use crate::indexing::{bodies_in, exprs_in};
use crate::seen::Seen;
use luau_tree::{ExprId, FnId};
use std::alloc::{AllocError, Global};
use std::collections::HashMap;
use type_arena::TypeRef;

/// What was seen of a module, in the order of the text, and by the numbers of expressions and bodies.
#[derive(Drop)]
pub struct SeenTypes {
    pub(crate) list: Vec<Seen>,
    pub(crate) exprs: HashMap<u32, (TypeRef, bool)>,
    pub(crate) bodies: HashMap<u32, bool>,
    ghost exprs_found: { (id : ℕ) → get nat_eq exprs id ≡ expr_at list.items id } by { Prim.hlevel props },
    ghost bodies_found: { (id : ℕ) → get nat_eq bodies id ≡ body_at list.items id } by { Prim.hlevel props },
}

impl SeenTypes {
    ghost use Rattle.std.specs.Prelude.{IfOk, IfSome, Contains, is_some, option_map};
    ghost use Rattle.std.specs.Option.{option_map_or};
    ghost use Rattle.type_arena.specs.Term.{Term};
    ghost use Rattle.type_arena.specs.declared.node.TypeRef.{TypeRef as RefValue};
    ghost use Rattle.type_normal.specs.Kinds.{unknown};
    ghost use Rattle.report_rules.specs.Seen as rules;
    ghost use Rattle.seen_types.specs.Seen.{ref_at, live_at, seen_with, refs_seen};
    ghost use Rattle.seen_types.specs.Tables.{seen_in};

    /// What was seen, which is given in the order of the text.
    pub fn of(alloc: Global, list: Vec<Seen>) -> Result<SeenTypes, AllocError>
        ensures { IfOk result (λ table. seen_in table ≡ list.items) }
    {
        let exprs = exprs_in(alloc, list.as_slice())?;
        let bodies = bodies_in(alloc, list.as_slice())?;
        Ok(SeenTypes {
            list,
            exprs,
            bodies,
        })
    }

    /// The type of an expression; None where it wasn't seen. Of a number that was seen more than once the first counts.
    pub fn type_at(&self, id: ExprId) -> Option<TypeRef>
        ensures at { result ≡ ref_at (seen_in self.now) id.0 }

        // Without one the rules say unknown.
        ensures meant { (means : RefValue → Term) → rules.type_at (seen_with means (seen_in self.now)) id.0 ≡ option_map_or means result unknown }
        ensures among { IfSome result (Contains (refs_seen (seen_in self.now))) }
    {
        self.exprs.get(&id.0).map(|found| found.0)
    }

    /// The type of an expression whose place is live; None where it isn't.
    pub fn live_type(&self, id: ExprId) -> Option<TypeRef>
        ensures live { (means : RefValue → Term) → rules.is_live (seen_with means (seen_in self.now)) id.0 ≡ is_some result }
        ensures meant { (means : RefValue → Term) → IfSome result (λ at. rules.type_at (seen_with means (seen_in self.now)) id.0 ≡ means at) }
        ensures among { IfSome result (Contains (refs_seen (seen_in self.now))) }
    {
        match self.exprs.get(&id.0) {
            None => None,
            Some(found) => { if found.1 { Some(found.0) } else { None } }
        }
    }

    /// Whether the place of an expression is live; not so where it wasn't seen.
    pub fn is_live(&self, id: ExprId) -> bool
        ensures live { result ≡ live_at (seen_in self.now) id.0 }
        ensures rules { (means : RefValue → Term) → rules.is_live (seen_with means (seen_in self.now)) id.0 ≡ result }
    {
        match self.exprs.get(&id.0) {
            None => false,
            Some(found) => found.1,
        }
    }

    /// Whether the place of a body is live; not so where it wasn't seen.
    pub fn is_body_live(&self, id: FnId) -> bool
        ensures { (means : RefValue → Term) → rules.is_body_live (seen_with means (seen_in self.now)) id.0 ≡ result }
    {
        match self.bodies.get(&id.0) {
            None => false,
            Some(live) => *live,
        }
    }
}
