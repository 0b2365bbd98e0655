ghost use Rattle.std.specs.Prelude.{◌≡◌, ◌≢◌, ◌<◌, ◌≤◌, ◌^◌, ◌∷◌, ℕ, List, [], Option, IfSome, IfOk, OnOk, map, string_bytes};
ghost use Rattle.outside.specs.Cause.{Rose};
ghost use Rattle.outside.specs.Contents.{Contents, IsOrdered, Lacks, Reads, paths_of};
ghost use Rattle.outside.specs.Written.{Appends};
ghost use Rattle.outside.specs.declared.question.Question.{Question};

use crate::Question;
use std::alloc::{AllocError, AllocFailed, Global};
use thiserror::Error;

/// Why a call on a tree gave nothing.
#[derive(Clone, Copy, Debug, PartialEq, Eq, Error)]
pub enum TreeError {
    /// There is no file at the path.
    #[error("no such file")]
    Absent,
    /// The tree itself failed.
    #[error("the folder can't be read")]
    Failed,
    /// Memory ran out.
    #[error("out of memory")]
    NoMemory,
}

impl From<AllocError> for TreeError {
    ghost use Rattle.outside.specs.declared.tree.TreeError.TheVariants.{NoMemory};

    ghost from_gives = { λ _ e. e ≡ NoMemory };

    fn from(_: AllocError) -> Self {
        TreeError::NoMemory
    }
}

impl<T: Drop> From<AllocFailed<T>> for TreeError {
    ghost use Rattle.outside.specs.declared.tree.TreeError.TheVariants.{NoMemory};

    ghost from_gives = { λ _ e. e ≡ NoMemory };

    fn from(_: AllocFailed<T>) -> Self {
        TreeError::NoMemory
    }
}

/// Folders of files, each under the name of its root. Paths have `/` between the names.
pub trait Tree {
    /// The files of each root, where the tree tells them.
    ghost contents: { Self → Option Contents };

    /// What it was asked so far, one question a call, from the first call on, where the tree tells
    /// it.
    ghost asked: { Self → Option (List Question) };

    /// How often the tree has failed. The count never falls.
    ghost faults: { Self → ℕ };

    /// The paths of all files of a root. Where contents are told, they are in order.
    fn list(&mut self, alloc: Global, root: &str) -> Result<Vec<String>, TreeError>
        ensures listed { IfOk result (λ paths.
            IfSome (contents self.old) (λ told.
            map string_bytes paths.items ≡ paths_of (told root.now))) }
        ensures asked { Appends (asked self.old) (asked self.new) (Question.List root.now ∷ []) }
        ensures never_absent { result ≢ Err TreeError.Absent }
        ensures failed { result ≡ Err TreeError.Failed → Rose (faults self.old) (faults self.new) }
        ensures quiet { OnOk result (faults self.new ≡ faults self.old) }
        ensures no_memory { result ≡ Err TreeError.NoMemory → faults self.new ≡ faults self.old }
        ensures never_falls { faults self.old ≤ faults self.new }
        ensures same { contents self.new ≡ contents self.old };

    /// The first `at_most` bytes of a file, or the whole file where it is shorter.
    fn read(
        &mut self,
        alloc: Global,
        root: &str,
        path: &str,
        at_most: u64,
    ) -> Result<Vec<u8>, TreeError>
        ensures bytes { IfOk result (λ bytes.
            Reads (contents self.old) root.now path.now at_most bytes.items) }
        ensures asked { Appends (asked self.old) (asked self.new)
            (Question.Read root.now path.now at_most ∷ []) }
        ensures absent { result ≡ Err TreeError.Absent →
            Lacks (contents self.old) root.now path.now (faults self.old) (faults self.new) }
        ensures failed { result ≡ Err TreeError.Failed → Rose (faults self.old) (faults self.new) }
        ensures quiet { OnOk result (faults self.new ≡ faults self.old) }
        ensures no_memory { result ≡ Err TreeError.NoMemory → faults self.new ≡ faults self.old }
        ensures never_falls { faults self.old ≤ faults self.new }
        ensures same { contents self.new ≡ contents self.old };

    /// Files are told in the order of their paths, and no path repeats.
    ghost ordered: { (tree : Self) → IfSome (contents tree) IsOrdered };

    /// The count is below 2^64.
    ghost bounded: { (tree : Self) → faults tree < 2 ^ 64 };
}
