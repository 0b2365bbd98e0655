//! What workers do, and what is told of it.
ghost use Rattle.std.specs.Prelude.{ℕ, IfOk};

use std::alloc::AllocError;

/// Tasks that are told by numbers.
pub trait Task {
    type Out: Drop;

    /// Which outputs a number may have.
    ghost gives: { Self → ℕ → Self.Out → Type 0 };

    /// Does the task of a number. Only want of memory keeps it from an output.
    fn run(&self, number: u32) -> Result<Self::Out, AllocError>
        ensures { IfOk result (λ out. gives self.now number out) };
}

/// Is told when a task is begun and when it is done, by the thread that does it.
pub trait Gate {
    fn begun(&self, number: u32);

    fn done(&self, number: u32);
}

/// A gate whose calls do nothing.
pub struct NoGate;

impl Gate for NoGate {
    fn begun(&self, _number: u32) {}

    fn done(&self, _number: u32) {}
}
