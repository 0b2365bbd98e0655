//! Why a run ends before anything is written.
use crate::{Limit, Status};
use outside::TreeError;
use std::alloc::{AllocError, AllocFailed};
use thiserror::Error;

/// Why a run ends before anything is written.
#[derive(Clone, Copy, Debug, PartialEq, Eq, Error)]
pub(crate) enum Stop {
    /// The words are no command.
    #[error("the words are no command")]
    Usage,
    /// The folder passes a limit.
    #[error("the folder passes a limit")]
    TooLarge(Limit),
    /// The folder could not be read.
    #[error("the folder can't be read")]
    ReadFault,
    /// Memory ran out.
    #[error("memory ran out")]
    NoMemory,
}

impl From<AllocError> for Stop {
    ghost use Rattle.std.specs.Prelude.{◌≡◌};
    ghost use Rattle.nonstrict_cli.specs.declared.stop.Stop.TheVariants.{NoMemory};

    ghost from_gives = { λ _ stop. stop ≡ NoMemory };

    fn from(_: AllocError) -> Self {
        Stop::NoMemory
    }
}

impl<T: Drop> From<AllocFailed<T>> for Stop {
    ghost use Rattle.std.specs.Prelude.{◌≡◌};
    ghost use Rattle.nonstrict_cli.specs.declared.stop.Stop.TheVariants.{NoMemory};

    ghost from_gives = { λ _ stop. stop ≡ NoMemory };

    fn from(_: AllocFailed<T>) -> Self {
        Stop::NoMemory
    }
}

impl From<TreeError> for Stop {
    ghost use Rattle.std.specs.Prelude.{◌≡◌};
    ghost use Rattle.nonstrict_cli.specs.Stop.{stop_at};

    ghost from_gives = { λ error stop. stop ≡ stop_at error };

    fn from(error: TreeError) -> Self {
        match error {
            TreeError::Absent | TreeError::Failed => Stop::ReadFault,
            TreeError::NoMemory => Stop::NoMemory,
        }
    }
}

impl From<Stop> for Status {
    ghost use Rattle.std.specs.Prelude.{◌≡◌};
    ghost use Rattle.nonstrict_cli.specs.Stop.{status_after};

    ghost from_gives = { λ stop status. status ≡ status_after stop };

    fn from(stop: Stop) -> Self {
        match stop {
            Stop::Usage => Status::Usage,
            Stop::TooLarge(limit) => Status::TooLarge(limit),
            Stop::ReadFault => Status::ReadFault,
            Stop::NoMemory => Status::NoMemory,
        }
    }
}
