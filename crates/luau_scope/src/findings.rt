//! What was found on the way through a module.
ghost use Rattle.std.specs.Prelude.{◌≡◌, ◌∷◌, [], ◌++◌, length, OnOk, IfOk, drop, take};
ghost use Rattle.luau_scope.specs.Found as found;
ghost use Rattle.luau_scope.specs.Steps.{step, added, marked, marked_one, passed_locals, reach};
ghost use Rattle.luau_scope.specs.Refusals as refusals;

use crate::growing::Growing;
use crate::names::copy;
use crate::numbers::Numbers;
use crate::reading::{LocalInfo, RequireSite, Use};
use crate::refusal::Refusal;
use luau_tree::{Bytes, ExprId, FnId, List, Span};
use sqlite_items::Items;
use std::alloc::{AllocError, Global};

/// A local as it is declared.
#[derive(Debug, Drop)]
pub(crate) struct Declared {
    pub name: Bytes,
    pub declared: Span,
    pub function: Option<FnId>,
    pub given: Option<ExprId>,
}

/// What was found so far.
#[derive(Debug, Drop)]
pub(crate) struct Findings {
    pub locals: Items<Declared>,
    pub uses: Growing<(ExprId, Use)>,
    pub captured: Numbers,
    pub assigned: Numbers,
    pub required: Growing<RequireSite>,
    /// The `continue`s of the `repeat`s around, each with how many locals are declared before it.
    pub pending: Items<(Span, u32)>,
    /// The earliest refusal.
    pub refusal: Option<(Refusal, Span)>,
}

/// The place of a reason in the order of those at one offset.
fn rank(why: Refusal) -> u8
    ensures { result ≡ refusals.rank why }
{
    why as u8
}

fn comes_before(r: (Refusal, Span), s: (Refusal, Span)) -> bool
    ensures { result ≡ refusals.comes_before r s }
{
    r.1.start < s.1.start || (r.1.start == s.1.start && rank(r.0) < rank(s.0))
}

fn earlier(r: (Refusal, Span), s: (Refusal, Span)) -> (Refusal, Span)
    ensures { result ≡ refusals.earlier_of r s }
{
    if comes_before(s, r) { s } else { r }
}

impl Findings {
    pub(crate) fn new(alloc: Global) -> Findings
        ensures { result ≡ record { locals = []; uses = []; captured = []; assigned = []; required = []; pending = []; refusal = None } }
    {
        Findings {
            locals: Items::new(alloc),
            uses: Growing::new(alloc),
            captured: Numbers::new(alloc),
            assigned: Numbers::new(alloc),
            required: Growing::new(alloc),
            pending: Items::new(alloc),
            refusal: None,
        }
    }

    pub(crate) fn refuse(&mut self, why: Refusal, at: Span)
        ensures { self.new ≡ step (found.Refuses why at) self.old }
    {
        self.refusal = match self.refusal {
            None => Some((why, at)),
            Some(before) => Some(earlier(before, (why, at))),
        };
    }

    pub(crate) fn declare(&mut self, local: Declared) -> Result<(), AllocError>
        ensures { OnOk result (self.new ≡ step (found.Declares local.name local.declared local.function local.given) self.old) }
    {
        self.locals.push(local)
    }

    pub(crate) fn mean(&mut self, at: ExprId, meaning: Use) -> Result<(), AllocError>
        ensures { OnOk result (self.new ≡ step (found.Means at meaning) self.old) }
    {
        self.uses.push((at, meaning))
    }

    pub(crate) fn capture(&mut self, local: u32) -> Result<(), AllocError>
        ensures { OnOk result (self.new ≡ step (found.Captures local) self.old) }
    {
        self.captured.add(local)
    }

    pub(crate) fn assign(&mut self, local: u32) -> Result<(), AllocError>
        ensures { OnOk result (self.new ≡ step (found.Assigns local) self.old) }
    {
        self.assigned.add(local)
    }

    pub(crate) fn require(&mut self, site: RequireSite) -> Result<(), AllocError>
        ensures { OnOk result (self.new ≡ step (found.RequiresModule site) self.old) }
    {
        self.required.push(site)
    }

    pub(crate) fn postpone(&mut self, at: Span, before: u32) -> Result<(), AllocError>
        ensures { OnOk result (self.new ≡ step (found.Continues at before) self.old) }
    {
        self.pending.push((at, before))
    }

    /// Refuses the `continue`s that stand before the declaration of a local that an `until` uses: the uses from the first
    /// on, where so many locals are declared before the `until`.
    pub(crate) fn pass_locals(&mut self, own: &[(Span, u32)], first: usize, declared: usize)
        ensures { self.new ≡ added (passed_locals own.now (drop first self.old.uses) declared) self.old }
    {
        let reach = reach_of(from(self.uses.as_slice(), first), declared);
        let mut rest = own;
        while let [(at, before), others @ ..] = rest {
            if (*before as usize) < reach {
                self.refuse(Refusal::ContinuePastLocal, *at);
            }
            rest = others;
        }
    }

    /// The locals, with what is known of each.
    pub(crate) fn locals(&self, alloc: Global) -> Result<List<LocalInfo>, AllocError>
        ensures { IfOk result (λ locals. locals ≡ marked self.now.assigned self.now.captured 0 self.now.locals) }
    {
        let mut locals = Vec::new(alloc);
        let mut number = 0u32;
        let mut rest = self.locals.as_slice();
        while let [local, others @ ..] = rest {
            locals.push(self.marked(alloc, number, local)?)?;
            let Some(next) = number.checked_add(1) else {
                return Err(AllocError);
            };
            number = next;
            rest = others;
        }
        Ok(List::of(locals))
    }

    /// A local with a number.
    fn marked(&self, alloc: Global, number: u32, local: &Declared) -> Result<LocalInfo, AllocError>
        ensures { IfOk result (λ info. info ≡ marked_one self.now.assigned self.now.captured number local.now) }
    {
        let name = copy(alloc, &local.name)?;
        let assigned = self.assigned.has(number);
        let captured = self.captured.has(number);
        Ok(LocalInfo {
            name,
            declared: local.declared,
            function: local.function,
            given: local.given,
            assigned,
            captured,
            loose: assigned & captured,
        })
    }

    /// Takes out the `continue`s from one on.
    pub(crate) fn take_own(
        &mut self,
        alloc: Global,
        start: usize,
    ) -> Result<Items<(Span, u32)>, AllocError>
        ensures own { IfOk result (λ own. own ≡ drop start self.old.pending) }
        ensures rest { OnOk result (self.new ≡ record self.old { pending = take start self.old.pending }) }
    {
        let own = Items::from_slice(alloc, from(self.pending.as_slice(), start))?;
        while self.pending.len() > start {
            let _ = self.pending.pop();
        }
        Ok(own)
    }
}

/// Some items from one on.
fn from<T>(items: &[T], first: usize) -> &[T]
    ensures { result.now ≡ drop first items.now }
{
    if first <= items.len() {
        &items[first..]
    } else {
        &[]
    }
}

/// One more than the last local with a number below some that is used, or 0.
fn reach_of(uses: &[(ExprId, Use)], declared: usize) -> usize
    ensures { result ≡ reach uses.now declared }
{
    let mut reach = 0;
    let mut rest = uses;
    while let [(_, meaning), others @ ..] = rest {
        if let Use::Local(local) = meaning {
            let number = local.0 as usize;
            if number < declared && reach <= number {
                reach = number + 1;
            }
        }
        rest = others;
    }
    reach
}
