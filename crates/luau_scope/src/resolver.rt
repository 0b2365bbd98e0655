//! The reading of a module.
ghost use Rattle.std.specs.Prelude.{◌≡◌, [], OnOk, IfOk, Ok, Err, Some, None};
ghost use Rattle.luau_tree.specs.View.{view_block};
ghost use Rattle.luau_scope.specs.Finds.{found_in};
ghost use Rattle.luau_scope.specs.Locals.{locals_of, uses_of, requires_of};
ghost use Rattle.luau_tree.specs.declared.position.Span.{Span};
ghost use Rattle.luau_scope.specs.Refusals.{refusal_of};
ghost use Rattle.luau_scope.specs.declared.refusal.Refusal.{Refusal};
ghost use Rattle.luau_scope.specs.declared.refusal.ScopeError.TheVariants.{Refused};
ghost use Rattle.luau_scope.specs.Steps.{act, added, after_stats, no_findings, run, within_module};

use crate::findings::Findings;
use crate::reading::Scoped;
use crate::refusal::ScopeError;
use crate::scope::Scope;
use crate::task::Task;
use crate::walker::Walker;
use crate::within::{LoopAround, Within};
use luau_tree::{Block, Bytes, Module, PathSet};
use sqlite_items::Items;
use std::alloc::{AllocError, Global};

impl<'p> Walker<'p> {
    /// Does a task that stood behind others, and puts what it leaves to be done in its place.
    fn go<'t>(&mut self, tasks: &mut Items<Task<'t>>, task: Task<'t>) -> Result<(), AllocError>
        ensures { OnOk result (run tasks.new self.new ≡ run tasks.old (act task.entry self.old)) }
    {
        match task {
            Task::Stats(w, stats) => self.stats(tasks, w, stats),
            Task::Block(w, block) => self.block(tasks, w, block),
            Task::Arms(w, arms) => self.arms(tasks, w, arms),
            Task::Last(w, last) => self.last(tasks, w, last),
            Task::Body(w, body) => self.body(tasks, w, body),
            Task::Params(w, params) => self.params(tasks, w, params),
            Task::Expr(w, e) => self.expr(tasks, w, e),
            Task::Exprs(w, es) => self.exprs(tasks, w, es),
            Task::MaybeExpr(w, e) => self.maybe_expr(tasks, w, e),
            Task::Choices(w, choices) => self.choices(tasks, w, choices),
            Task::Items(w, items) => self.items(tasks, w, items),
            Task::Type(w, typ) => self.written(tasks, w, typ),
            Task::Types(w, types) => self.types(tasks, w, types),
            Task::MaybeType(w, typ) => self.maybe_type(tasks, w, typ),
            Task::Varargs(w, vararg) => self.varargs(tasks, w, vararg),
            Task::Gens(w, gens) => self.gens(tasks, w, gens),
            Task::Props(w, props) => self.props(tasks, w, props),
            Task::Targets(w, targets, earlier) => self.targets(tasks, w, targets, earlier),
            Task::Aim(w, target, others, earlier) => {
                self.aims(tasks, w, target, others, earlier)
            }
            Task::Named(w, path, method) => self.named(w, path, method),
            Task::Locals(w, locals) => self.locals(tasks, w, locals),
            Task::Enter(w, binds, numbers) => self.enter(w, binds, numbers.as_slice()),
            Task::Entry(w, bind, number) => self.enter_one(w, bind, number),
            Task::Until(w, cond, depth, start) => self.until(tasks, w, cond, depth, start),
            Task::Pass(repeated) => {
                self.pass(&repeated);
                Ok(())
            }
            Task::Close(depth) => {
                self.scope.close(depth);
                Ok(())
            }
        }
    }

    /// Goes through a module. A module of more parts than 64 bits can count, which no memory holds, is answered by want of
    /// memory.
    fn walk(&mut self, block: &Block) -> Result<(), AllocError>
        ensures { OnOk result (self.new ≡ after_stats within_module (view_block block.now) self.old) }
    {
        let within = Within {
            function: None,
            takes: true,
            outside: 0,
            around: LoopAround::Without,
        };
        let mut tasks = Items::new(self.alloc);
        tasks.push(Task::Stats(within, block.stats.as_slice()))?;
        for _turn in 0..u64::MAX {
            let Some(task) = tasks.pop() else {
                return Ok(());
            };
            self.go(&mut tasks, task)?;
        }
        Err(AllocError)
    }
}

/// What is found in a module.
fn findings_of(alloc: Global, block: &Block, names: &[Bytes]) -> Result<Findings, AllocError>
    ensures { IfOk result (λ found. found ≡ added (found_in names.now (view_block block.now)) no_findings) }
{
    let mut walker = Walker {
        alloc,
        names,
        scope: Scope::new(alloc),
        found: Findings::new(alloc),
    };
    walker.walk(block)?;
    Ok(walker.found)
}

/// What the names of a module stand for, by the paths of the declared builtins. An `Err` names the refusal that counts,
/// which is the earliest, or says that memory is wanting; the module is dropped then. The rules are in `docs/LANGUAGE.md`,
/// "Scopes" and "What the profile refuses".
pub fn resolve(alloc: Global, module: Module, names: &PathSet) -> Result<Scoped, ScopeError>
    ensures reading { IfOk result (λ scoped. scoped ≡ record {
      «module» = «module»;
      locals = locals_of names.now (view_block «module».block);
      uses = uses_of names.now (view_block «module».block);
      required = requires_of names.now (view_block «module».block);
    }) }
    ensures accepted { IfOk result (λ scoped. refusal_of names.now (view_block «module».block) ≡ None) }
    ensures refused { (why : Refusal) (at : Span) → result ≡ Err (Refused why at) → refusal_of names.now (view_block «module».block) ≡ Some (why, at) }
{
    let found = findings_of(alloc, &module.block, names.as_slice())?;
    if let Some((why, at)) = found.refusal {
        return Err(ScopeError::Refused { why, at });
    }
    let locals = found.locals(alloc)?;
    Ok(Scoped {
        module,
        locals,
        uses: found.uses.into_list(),
        required: found.required.into_list(),
    })
}
