//! Steps by what is at hand alone.
ghost use Rattle.std.specs.Prelude.{◌≡◌, OnOk};
ghost use Rattle.rule_state.specs.Work.{work_of};
ghost use Rattle.infer_plan.specs.Run.{act_step};

use infer_plan::Step;
use rule_state::RuleState;
use std::alloc::AllocError;

/// A step by what is at hand alone.
pub(crate) fn step(state: &mut RuleState<'_>, step: Step) -> Result<(), AllocError>
    ensures { OnOk result (work_of state.new ≡ act_step step (work_of state.old)) }
{
    match step {
        Step::Hold => state.hold(),
        Step::Take => {
            state.take();
            Ok(())
        }
        Step::Save => state.save(),
        Step::Restore => {
            state.restore();
            Ok(())
        }
        Step::BeginList => state.begin_list(),
        Step::Add => state.add(),
        Step::EndList => {
            state.end_list();
            Ok(())
        }
        Step::FirstOrNever => state.first_or_never(),
        Step::UnionList => state.union_list(),
        Step::TakeFirst(expanding) => state.take_first(expanding),
        Step::BeginEnds => state.begin_ends(),
        Step::AddEnd => state.add_end(),
        Step::JoinEnds => state.join_ends(),
        Step::End => {
            state.end();
            Ok(())
        }
        Step::LiveOnly => state.live_only(),
        Step::Close => {
            state.close();
            Ok(())
        }
        Step::Plain(kind) => state.plain(kind),
        Step::Keep(effects_later) => state.keep(effects_later),
        Step::After(has_effects) => state.after(has_effects),
        Step::Union => state.union_held(),
        Step::Meet => state.meet_held(),
        Step::Binary(op) => state.binary(op),
        Step::Unary(op) => state.unary(op),
    }
}
