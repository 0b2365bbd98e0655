//! A search for the groups of modules that reach each other, in one pass over the requires.
ghost use Rattle.std.specs.Prelude.{◌≡◌, ℕ, ◌+◌, ◌^◌, ◌<◌, ◌≤◌, ◌++◌, [], ◌∷◌, List, Some, map, OnOk, IfOk, IfSome, length, slice_get};
ghost use Rattle.module_graph.specs.Requires.{calls_at};
ghost use Rattle.module_graph.specs.Search.{Merges, Rises, close_mark};

use crate::node::{Call, Node};
use std::alloc::{AllocError, Global};

/// What is known of a module.
#[derive(Clone, Copy, Debug)]
pub enum Mark {
    /// It hasn't been met.
    New,
    /// It has been met: its place among the open modules, and how many of its requires were looked at.
    Open { at: usize, next: usize },
    /// All that it reaches is known. Modules that reach each other have one number.
    Closed { number: usize },
}

/// The require at a place among a module's requires.
fn call_at(nodes: &[Node], file: usize, place: usize) -> Option<Call>
    requires { file < length nodes.now }
    ensures call { result ≡ slice_get (calls_at nodes.now file) place }
    ensures fits { IfSome result (λ _. place + 1 < 2 ^ 64) }
{
    nodes[file].calls.as_slice().get(place).copied()
}

/// Joins the groups that begin after a place to the one that it is in.
fn merge(starts: &mut Vec<usize>, at: usize)
    requires { Rises starts.old.items }
    ensures { Merges at starts.old.items starts.new.items }
{
    while let Some(&start) = starts.last() {
        if start <= at {
            break;
        }
        starts.pop();
    }
}

/// Marks the open modules from a place on as closed.
fn close_all(marks: &mut [Mark], opened: &[usize], start: usize, number: usize)
    requires start { start ≤ length opened.now }
    requires placed { (p x : ℕ) → slice_get opened.now p ≡ Some x → (next : ℕ) × (slice_get marks.old x ≡ Some (Mark.Open p next)) }
    requires there { (x p next : ℕ) → slice_get marks.old x ≡ Some (Mark.Open p next) → slice_get opened.now p ≡ Some x }
    ensures { marks.new ≡ map (close_mark start number) marks.old }
{
    for i in start..opened.len() {
        marks[opened[i]] = Mark::Closed { number };
    }
}

/// A search. Each open module leads to the later ones. They stand in groups of modules that reach each other, and a
/// require that leads back joins the groups from there on. A group from which no require is left is closed.
#[derive(Drop)]
pub struct Search {
    /// What is known of each module.
    pub marks: Vec<Mark>,
    /// The open modules in the order in which they were met.
    pub opened: Vec<usize>,
    /// Places of the open modules that have requires to be looked at.
    pub path: Vec<usize>,
    /// Places of the open modules at which groups begin.
    pub starts: Vec<usize>,
    /// The closed modules in the order in which they were closed.
    pub order: Vec<usize>,
}

impl Search {
    ghost use Rattle.module_graph.specs.Search.{state_of, beginning, entered, advanced, closing, last_of, Meets, Follows, Leaves, IsGraph, IsSearch, Settles, steps_left};

    /// A search over so many modules, none of which has been met.
    pub fn new(alloc: Global, count: usize) -> Result<Search, AllocError>
        ensures { IfOk result (λ search. state_of search ≡ beginning count) }
    {
        Ok(Search {
            marks: vec![in alloc; Mark::New; count]?,
            opened: Vec::new(alloc),
            path: Vec::new(alloc),
            starts: Vec::new(alloc),
            order: Vec::new(alloc),
        })
    }

    /// Meets a new module.
    fn enter(&mut self, file: usize) -> Result<(), AllocError>
        requires { file < length self.old.marks.items }
        ensures { OnOk result (state_of self.new ≡ entered (state_of self.old) file) }
    {
        let at = self.opened.len();
        self.opened.push(file)?;
        self.path.push(at)?;
        self.starts.push(at)?;
        self.marks[file] = Mark::Open { at, next: 0 };
        Ok(())
    }

    /// Counts a require of an open module as looked at.
    fn advance(&mut self, file: usize, at: usize, next: usize)
        requires file { file < length self.old.marks.items }
        requires next { next + 1 < 2 ^ 64 }
        ensures { state_of self.new ≡ advanced (state_of self.old) file at next }
    {
        self.marks[file] = Mark::Open { at, next: next + 1 };
    }

    /// Closes the open modules from a place on.
    fn close(&mut self, start: usize) -> Result<(), AllocError>
        requires start { start ≤ length self.old.opened.items }
        requires placed { (p x : ℕ) → slice_get self.old.opened.items p ≡ Some x → (next : ℕ) × (slice_get self.old.marks.items x ≡ Some (Mark.Open p next)) }
        requires there { (x p next : ℕ) → slice_get self.old.marks.items x ≡ Some (Mark.Open p next) → slice_get self.old.opened.items p ≡ Some x }
        ensures { OnOk result (state_of self.new ≡ closing (state_of self.old) start self.old.starts.items) }
    {
        let number = self.order.len();
        close_all(
            self.marks.as_mut_slice(),
            self.opened.as_slice(),
            start,
            number,
        );
        self.order.extend_from_slice(&self.opened[start..])?;
        self.opened.truncate(start);
        Ok(())
    }

    /// Meets the module that a require of an open one means.
    fn meet(&mut self, file: usize) -> Result<(), AllocError>
        requires file { file < length self.old.marks.items }
        requires rises { Rises self.old.starts.items }
        ensures { OnOk result (Meets (state_of self.old) (state_of self.new) file) }
    {
        match self.marks[file] {
            Mark::New => self.enter(file),
            Mark::Open { at, .. } => {
                merge(&mut self.starts, at);
                Ok(())
            }
            Mark::Closed { .. } => Ok(()),
        }
    }

    /// Leaves the module at the end of the path, all of whose requires were looked at.
    fn leave(&mut self, at: usize) -> Result<(), AllocError>
        requires start { at ≤ length self.old.opened.items }
        requires last { last_of self.old.path.items ≡ Some at }
        requires placed { (p x : ℕ) → slice_get self.old.opened.items p ≡ Some x → (next : ℕ) × (slice_get self.old.marks.items x ≡ Some (Mark.Open p next)) }
        requires there { (x p next : ℕ) → slice_get self.old.marks.items x ≡ Some (Mark.Open p next) → slice_get self.old.opened.items p ≡ Some x }
        ensures { OnOk result (Leaves (state_of self.old) (state_of self.new) at) }
    {
        self.path.pop();
        if self.starts.last().copied() == Some(at) {
            self.starts.pop();
            self.close(at)?;
        }
        Ok(())
    }

    /// Looks at a require of an open module.
    fn follow(
        &mut self,
        file: usize,
        at: usize,
        next: usize,
        to: Option<u32>,
    ) -> Result<(), AllocError>
        requires file { file < length self.old.marks.items }
        requires to { (met : ℕ) → to ≡ Some met → met < length self.old.marks.items }
        requires next { next + 1 < 2 ^ 64 }
        requires rises { Rises self.old.starts.items }
        ensures { OnOk result (Follows (state_of self.old) (state_of self.new) file at next to) }
    {
        if let Some(to) = to {
            self.meet(to as usize)?;
        }
        self.advance(file, at, next);
        Ok(())
    }

    /// Looks at the next require of the module at the end of the path, or leaves it.
    fn step(&mut self, nodes: &[Node], at: usize) -> Result<(), AllocError>
        requires graph { IsGraph nodes.now }
        requires search { IsSearch nodes.now (state_of self.old) }
        requires last { last_of self.old.path.items ≡ Some at }
        ensures search { OnOk result (IsSearch nodes.now (state_of self.new)) }
        ensures settles { OnOk result (Settles (state_of self.old) (state_of self.new)) }
        ensures shorter { OnOk result (steps_left nodes.now (state_of self.new) < steps_left nodes.now (state_of self.old)) }
    {
        let file = self.opened[at];
        let Mark::Open { next, .. } = self.marks[file] else {
            unreachable!()
        };
        match call_at(nodes, file, next) {
            None => self.leave(at),
            Some(call) => self.follow(file, at, next, call.to),
        }
    }

    /// Goes on until the path is at its end.
    fn run(&mut self, nodes: &[Node]) -> Result<(), AllocError>
        requires graph { IsGraph nodes.now }
        requires search { IsSearch nodes.now (state_of self.old) }
        ensures search { OnOk result (IsSearch nodes.now (state_of self.new)) }
        ensures settles { OnOk result (Settles (state_of self.old) (state_of self.new)) }
        ensures path { OnOk result (self.new.path.items ≡ []) }
    {
        while let Some(&at) = self.path.last() {
            self.step(nodes, at)?;
        }
        Ok(())
    }

    /// Closes a module, with all that it reaches.
    pub fn visit(&mut self, nodes: &[Node], file: usize) -> Result<(), AllocError>
        requires graph { IsGraph nodes.now }
        requires search { IsSearch nodes.now (state_of self.old) }
        requires path { self.old.path.items ≡ [] }
        requires file { file < length nodes.now }
        ensures search { OnOk result (IsSearch nodes.now (state_of self.new)) }
        ensures settles { OnOk result (Settles (state_of self.old) (state_of self.new)) }
        ensures path { OnOk result (self.new.path.items ≡ []) }
        ensures closed { OnOk result ((number : ℕ) × (slice_get self.new.marks.items file ≡ Some (Mark.Closed number))) }
    {
        if let Mark::New = self.marks[file] {
            self.enter(file)?;
            self.run(nodes)?;
        }
        Ok(())
    }
}
