//! What was seen.
ghost use Rattle.std.specs.Prelude.{◌≡◌, not, OnOk};
ghost use Rattle.report_rules.specs.Seen.{SeenBody};
ghost use Rattle.rule_work.specs.Moves.{with_seen, opened, closed};
ghost use Rattle.rule_state.specs.Work.{work_of, retyped_ref};

use crate::point::Seen;
use crate::state::RuleState;
use luau_tree::{ExprId, FnId};
use std::alloc::AllocError;
use type_arena::TypeRef;

impl<'a> RuleState<'a> {
    /// A body is seen.
    pub fn see_body(&mut self, id: FnId) -> Result<(), AllocError>
        ensures { OnOk result (work_of self.new ≡ with_seen (SeenBody id.0 (not (work_of self.old).map.dead)) (work_of self.old)) }
    {
        self.seen.push(Seen::Body(id, !self.point.dead))?;
        Ok(())
    }

    /// An expression is seen, whose type is still to come.
    pub fn open(&mut self, id: ExprId) -> Result<(), AllocError>
        ensures { OnOk result (work_of self.new ≡ opened id.0 (work_of self.old)) }
    {
        let place = self.seen.len();
        self.seen
            .push(Seen::Expr(id, self.value, !self.point.dead))?;
        self.pending.push(place)?;
        Ok(())
    }

    /// The type at hand is that of the last expression whose type was still to come.
    pub fn close(&mut self)
        ensures { work_of self.new ≡ closed (work_of self.old) }
    {
        if let Some(place) = self.pending.pop() {
            if place < self.seen.len() {
                self.seen[place] = retyped(self.seen[place], self.value);
            }
        }
    }
}

// What was seen, with another type.
fn retyped(seen: Seen, at: TypeRef) -> Seen
    ensures { result ≡ retyped_ref at seen }
{
    match seen {
        Seen::Expr(id, _, live) => Seen::Expr(id, at, live),
        Seen::Body(id, live) => Seen::Body(id, live),
    }
}
