//! What is around a piece of a module.
ghost use Rattle.std.specs.Prelude.{◌≡◌};

use luau_tree::FnId;

/// The loop around a statement, in its own function.
#[derive(Clone, Copy, Debug)]
pub(crate) enum LoopAround {
    Without,
    Repeat,
    Other,
}

/// What is around a piece of a module, apart from the locals in scope.
#[derive(Clone, Copy, Debug)]
pub(crate) struct Within {
    /// The body that it belongs to; None in the module's own block.
    pub function: Option<FnId>,
    /// Whether that takes `...`.
    pub takes: bool,
    /// How many locals in scope are not its own.
    pub outside: usize,
    pub around: LoopAround,
}

impl Within {
    /// The same with a loop around.
    pub(crate) fn in_loop(self, around: LoopAround) -> Within
        ensures { result ≡ record self { around = around } }
    {
        Within {
            function: self.function,
            takes: self.takes,
            outside: self.outside,
            around,
        }
    }
}
