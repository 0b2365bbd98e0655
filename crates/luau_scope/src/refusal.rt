ghost use Rattle.std.specs.Prelude.{◌≡◌};
ghost use Rattle.luau_scope.specs.declared.refusal.ScopeError.TheVariants.{NoMemory};

use luau_tree::Span;
use std::alloc::{AllocError, AllocFailed};
use thiserror::Error;

/// Why the profile refuses a module. Of two refusals at one offset the one that stands first here counts.
#[derive(Clone, Copy, Debug, PartialEq, Eq, PartialOrd, Ord)]
pub enum Refusal {
    /// The global `setmetatable`, `getmetatable` or `newproxy` is used; at the name.
    Metatable,
    /// The global `coroutine` is used; at the name.
    Coroutine,
    /// The global `getfenv`, `setfenv`, `loadstring` or `_G` is used; at the name.
    Environment,
    /// The global `require` is used, and is not the callee of a static require; at the name.
    DynamicRequire,
    /// A type function; at its statement.
    TypeFunction,
    /// A name with `...` in a type or a list of generics; at the name.
    GenericPack,
    /// A builtin or library, or a field of one, is assigned; at the target, or at the name of the function statement.
    AssignedBuiltin,
    /// A local is a target twice in one assignment; at the second one.
    RepeatedTarget,
    /// It is the 201st local in scope in one function; at its name.
    TooManyLocals,
    /// A `break` without a loop of the same function around it; at the word.
    BreakOutsideLoop,
    /// A `continue` without a loop of the same function around it; at the word.
    ContinueOutsideLoop,
    /// A `continue` of a `repeat` whose `until` uses a local that the body declares after it; at the word.
    ContinuePastLocal,
    /// `...` in a function that doesn't take it; at the token.
    VarargOutside,
}

/// Why there is no reading of a module.
#[derive(Debug, Drop, Error)]
pub enum ScopeError {
    /// The profile refuses the module; `at` is where.
    #[error("{why:?} at {at:?}")]
    Refused { why: Refusal, at: Span },
    #[error("out of memory")]
    NoMemory,
}

impl From<AllocError> for ScopeError {
    ghost from_gives = { λ _ e. e ≡ NoMemory };

    fn from(_e: AllocError) -> ScopeError {
        ScopeError::NoMemory
    }
}

impl<T: Drop> From<AllocFailed<T>> for ScopeError {
    ghost from_gives = { λ _ e. e ≡ NoMemory };

    fn from(_e: AllocFailed<T>) -> ScopeError {
        ScopeError::NoMemory
    }
}
