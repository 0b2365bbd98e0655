//! A tree in memory that never fails.
use crate::roots::{file_at, files_of, front, paths_of};
use crate::{List, Root, Tree, TreeError};
use std::alloc::Global;

/// A tree in memory that never fails.
#[derive(Debug, Drop)]
pub struct SureTree {
    roots: List<Root>,
}

impl SureTree {
    ghost use Rattle.std.specs.Prelude.{◌≡◌};
    ghost use Rattle.outside.specs.Roots.{files_of};
    ghost use Rattle.outside.specs.SureTree.{contents_of};

    /// A tree of these roots. A root that isn't listed is empty; of two with one name the first
    /// counts.
    pub fn new(roots: Vec<Root>) -> SureTree
        ensures { contents_of result ≡ files_of roots.items }
    {
        SureTree {
            roots: List::of(roots),
        }
    }
}

impl Tree for SureTree {
    ghost use Rattle.std.specs.Prelude.{None, Some};
    ghost use Rattle.std.proofs.Common.{lit<};
    ghost use Rattle.outside.specs.Roots.{files_of-IsOrdered};
    ghost use Rattle.outside.specs.SureTree.{contents_of};

    ghost contents = { λ tree. Some (contents_of tree) };

    ghost asked = { λ _. None };

    ghost faults = { λ _. 0 };

    ghost ordered = { λ tree. files_of-IsOrdered tree.roots };

    ghost bounded = { λ _. lit< tt };

    fn list(&mut self, alloc: Global, root: &str) -> Result<Vec<String>, TreeError> {
        Ok(paths_of(alloc, files_of(self.roots.as_slice(), root))?)
    }

    fn read(
        &mut self,
        alloc: Global,
        root: &str,
        path: &str,
        at_most: u64,
    ) -> Result<Vec<u8>, TreeError> {
        match file_at(self.roots.as_slice(), root, path) {
            Some(file) => Ok(front(alloc, file.as_slice(), at_most)?),
            None => Err(TreeError::Absent),
        }
    }
}
