//! Which locals are declared.
ghost use Rattle.std.specs.Prelude.{◌≡◌, IfOk, map};
ghost use Rattle.luau_tree.specs.View.{view_bind, view_binds, view_body};
ghost use Rattle.luau_run.specs.Expressions.{number_of};
ghost use Rattle.type_arena.specs.Term.{function_of, literal};
ghost use Rattle.report_rules.specs.Effects as syntax;
ghost use Rattle.module_facts.specs.Facts.{IsInOrder, rules_of_facts};

use crate::facts::Facts;
use luau_tree::{Bind, Body, LocalId};
use std::alloc::{AllocError, Global};
use type_arena::FnName;

impl<'w> Facts<'w> {
    /// The local whose name is declared at an offset, found by halving, or the number of locals where there is none.
    fn local_at(&self, offset: u32) -> u32
        requires { IsInOrder self.now.scoped.now }
        ensures { result ≡ (rules_of_facts self.now).reading.local_at offset }
    {
        let locals = self.scoped.locals.as_slice();
        let mut first = 0;
        let mut end = locals.len();
        while first < end {
            let middle = first + (end - first) / 2;
            let start = locals[middle].declared.start;
            if start == offset {
                return middle as u32;
            }
            if start < offset {
                first = middle + 1;
            } else {
                end = middle;
            }
        }
        locals.len() as u32
    }

    /// The local of a declared name.
    pub fn local_of_bind(&self, bind: &Bind) -> LocalId
        requires { IsInOrder self.now.scoped.now }
        ensures { result.0 ≡ syntax.local_of_bind (rules_of_facts self.now) (view_bind bind.now) }
    {
        LocalId(self.local_at(bind.span.start))
    }

    /// The locals of declared names, in their order.
    pub fn locals_of_binds(&self, alloc: Global, binds: &[Bind]) -> Result<Vec<LocalId>, AllocError>
        requires { IsInOrder self.now.scoped.now }
        ensures { IfOk result (λ locals. map (λ local. local.0) locals.items ≡ syntax.locals_of_binds (rules_of_facts self.now) (view_binds binds.now)) }
    {
        let mut locals = Vec::new(alloc);
        for bind in binds {
            locals.push(self.local_of_bind(bind))?;
        }
        Ok(locals)
    }

    /// The name of a function literal.
    #[tactic(auto, unfolding(luau_tree::specs::View::view_body, crate::specs::Facts::rules_of_facts))]
    pub fn literal_name(&self, body: &Body) -> FnName
        ensures { function_of result ≡ literal (rules_of_facts self.now).reading.home (number_of (view_body body.now)) }
    {
        FnName::Literal {
            home: self.home,
            number: body.id.0,
        }
    }
}
