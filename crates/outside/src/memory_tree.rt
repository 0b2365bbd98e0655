//! A tree in memory whose calls fail as planned.
use crate::plan::Plan;
use crate::roots::{file_at, files_of, front, paths_of};
use crate::{List, Root, Tree, TreeError};
use std::alloc::Global;

/// A tree in memory some of whose calls fail: those that were named when it was made, by their
/// numbers from 0, calls of `list` and of `read` counted together.
#[derive(Debug, Drop)]
pub struct MemoryTree {
    roots: List<Root>,
    plan: Plan,
}

impl MemoryTree {
    ghost use Rattle.std.specs.Prelude.{◌≡◌};
    ghost use Rattle.outside.specs.Roots.{files_of};
    ghost use Rattle.outside.specs.MemoryTree.{contents_of, calls_of, failing_of, faults_of};

    /// A tree of these roots of which the calls numbered in `failing` fail. A root that isn't
    /// listed is empty; of two with one name the first counts.
    pub fn new(roots: Vec<Root>, failing: Vec<u64>) -> MemoryTree
        ensures contents { contents_of result ≡ files_of roots.items }
        ensures failing { failing_of result ≡ failing.items }
        ensures calls { calls_of result ≡ 0 }
        ensures faults { faults_of result ≡ 0 }
    {
        MemoryTree {
            roots: List::of(roots),
            plan: Plan::new(failing),
        }
    }
}

impl Tree for MemoryTree {
    ghost use Rattle.std.specs.Prelude.{◌≡◌, ◌≢◌, ◌≤◌, ◌↔◌, None, Some, IfOk, IsTrue, OnOk, map, string_bytes};
    ghost use Rattle.outside.specs.Cause.{Rose};
    ghost use Rattle.outside.specs.Contents.{Lacks, Reads, paths_of};
    ghost use Rattle.outside.specs.Plan.{count_after, is_listed};
    ghost use Rattle.outside.specs.Roots.{files_of-IsOrdered};
    ghost use Rattle.outside.specs.MemoryTree.{contents_of, calls_of, failing_of, faults_of};

    ghost contents = { λ tree. Some (contents_of tree) };

    ghost asked = { λ _. None };

    ghost faults = { faults_of };

    ghost ordered = { λ tree. files_of-IsOrdered tree.roots };

    ghost bounded = { λ tree. tree.plan.bounded };

    fn list(&mut self, alloc: Global, root: &str) -> Result<Vec<String>, TreeError>
        ensures listed { IfOk result (λ paths.
            map string_bytes paths.items ≡ paths_of (contents_of self.old root.now)) }
        ensures never_absent { result ≢ Err TreeError.Absent }
        ensures failed { result ≡ Err TreeError.Failed →
            Rose (faults_of self.old) (faults_of self.new) }
        ensures quiet { OnOk result (faults_of self.new ≡ faults_of self.old) }
        ensures no_memory { result ≡ Err TreeError.NoMemory →
            faults_of self.new ≡ faults_of self.old }
        ensures never_falls { faults_of self.old ≤ faults_of self.new }
        ensures same { contents_of self.new ≡ contents_of self.old }

        // The calls that were named fail, and no other.
        ensures planned { (result ≡ Err TreeError.Failed) ↔
            IsTrue (is_listed (failing_of self.old) (calls_of self.old)) }
        ensures plan { failing_of self.new ≡ failing_of self.old }
        ensures numbered { calls_of self.new ≡ count_after (calls_of self.old) }
    {
        let fails = self.plan.fails_next();
        self.plan.count(fails);
        if fails {
            return Err(TreeError::Failed);
        }
        Ok(paths_of(alloc, files_of(self.roots.as_slice(), root))?)
    }

    fn read(
        &mut self,
        alloc: Global,
        root: &str,
        path: &str,
        at_most: u64,
    ) -> Result<Vec<u8>, TreeError>
        ensures bytes { IfOk result (λ bytes.
            Reads (Some (contents_of self.old)) root.now path.now at_most bytes.items) }
        ensures absent { result ≡ Err TreeError.Absent →
            Lacks (Some (contents_of self.old)) root.now path.now
            (faults_of self.old) (faults_of self.new) }
        ensures failed { result ≡ Err TreeError.Failed →
            Rose (faults_of self.old) (faults_of self.new) }
        ensures quiet { OnOk result (faults_of self.new ≡ faults_of self.old) }
        ensures no_memory { result ≡ Err TreeError.NoMemory →
            faults_of self.new ≡ faults_of self.old }
        ensures never_falls { faults_of self.old ≤ faults_of self.new }
        ensures same { contents_of self.new ≡ contents_of self.old }

        // The calls that were named fail, and no other.
        ensures planned { (result ≡ Err TreeError.Failed) ↔
            IsTrue (is_listed (failing_of self.old) (calls_of self.old)) }
        ensures plan { failing_of self.new ≡ failing_of self.old }
        ensures numbered { calls_of self.new ≡ count_after (calls_of self.old) }
    {
        let fails = self.plan.fails_next();
        self.plan.count(fails);
        if fails {
            return Err(TreeError::Failed);
        }
        match file_at(self.roots.as_slice(), root, path) {
            Some(file) => Ok(front(alloc, file.as_slice(), at_most)?),
            None => Err(TreeError::Absent),
        }
    }
}
