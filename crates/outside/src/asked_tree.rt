//! The tree that keeps what it is asked.
use crate::roots::{file_at, files_of, front, paths_of};
use crate::{List, Question, Root, Tree, TreeError};
use std::alloc::{AllocError, Global};

/// A tree in memory that keeps what it is asked, question by question. It fails only for want of
/// memory, and tells nothing of its questions from the first on for which there was none.
#[derive(Debug, Drop)]
pub struct AskedTree {
    roots: List<Root>,
    questions: Vec<Question>,
    whole: bool,
}

impl AskedTree {
    ghost use Rattle.std.specs.Prelude.{◌≡◌, ◌∷◌, None, Some, [], IfOk, IfSome, IsErr, OnErr, OnOk};
    ghost use Rattle.outside.specs.Roots.{files_of};
    ghost use Rattle.outside.specs.Written.{Appends};
    ghost use Rattle.outside.specs.AskedTree.{asked_of, contents_of, tells};

    /// A tree of these roots that was asked nothing so far.
    pub fn new(alloc: Global, roots: Vec<Root>) -> AskedTree
        ensures contents { contents_of result ≡ files_of roots.items }
        ensures asked { asked_of result ≡ Some [] }
    {
        AskedTree {
            roots: List::of(roots),
            questions: Vec::new(alloc),
            whole: true,
        }
    }

    /// What it was asked so far, as long as there was memory for each question.
    pub fn questions(&self) -> &[Question]
        ensures { IfSome (asked_of self.now) (λ questions. result.now ≡ questions) }
    {
        self.questions.as_slice()
    }

    /// Keeps a question. Where there is no memory for it, nothing is told from here on.
    fn keep(&mut self, question: Result<Question, AllocError>) -> Result<(), AllocError>
        ensures asked { IfOk question (λ asked.
            Appends (asked_of self.old) (asked_of self.new) (asked ∷ [])) }
        ensures lost { OnErr question (asked_of self.new ≡ None) }
        ensures err { OnErr question (IsErr result) }
        ensures whole { OnOk result (tells self.new ≡ tells self.old) }
        ensures roots { self.new.roots ≡ self.old.roots }
    {
        if let Ok(asked) = question {
            if self.questions.push(asked).is_ok() {
                return Ok(());
            }
        }
        self.whole = false;
        Err(AllocError)
    }
}

impl Tree for AskedTree {
    ghost use Rattle.std.specs.Prelude.{◌≡◌, ◌≢◌, ◌∷◌, Some, [], IfOk, OnOk, map, string_bytes};
    ghost use Rattle.std.proofs.Common.{lit<};
    ghost use Rattle.outside.specs.Contents.{Lacks, Reads, paths_of};
    ghost use Rattle.outside.specs.Roots.{files_of-IsOrdered};
    ghost use Rattle.outside.specs.Written.{Appends};
    ghost use Rattle.outside.specs.AskedTree.{asked_of, contents_of, tells};

    ghost contents = { λ tree. Some (contents_of tree) };

    ghost asked = { asked_of };

    ghost faults = { λ _. 0 };

    ghost ordered = { λ tree. files_of-IsOrdered tree.roots };

    ghost bounded = { λ _. lit< tt };

    fn list(&mut self, alloc: Global, root: &str) -> Result<Vec<String>, TreeError>
        ensures listed { IfOk result (λ paths.
            map string_bytes paths.items ≡ paths_of (contents_of self.old root.now)) }
        ensures asked { Appends (asked_of self.old) (asked_of self.new)
            (Question.List root.now ∷ []) }
        ensures never_absent { result ≢ Err TreeError.Absent }
        ensures never_failed { result ≢ Err TreeError.Failed }
        ensures same { contents_of self.new ≡ contents_of self.old }

        // It goes on telling what it is asked as long as there is memory.
        ensures whole { OnOk result (tells self.new ≡ tells self.old) }
    {
        self.keep(Question::list(alloc, root))?;
        Ok(paths_of(alloc, files_of(self.roots.as_slice(), root))?)
    }

    fn read(
        &mut self,
        alloc: Global,
        root: &str,
        path: &str,
        at_most: u64,
    ) -> Result<Vec<u8>, TreeError>
        ensures bytes { IfOk result (λ bytes.
            Reads (Some (contents_of self.old)) root.now path.now at_most bytes.items) }
        ensures asked { Appends (asked_of self.old) (asked_of self.new)
            (Question.Read root.now path.now at_most ∷ []) }
        ensures absent { result ≡ Err TreeError.Absent →
            Lacks (Some (contents_of self.old)) root.now path.now 0 0 }
        ensures never_failed { result ≢ Err TreeError.Failed }
        ensures same { contents_of self.new ≡ contents_of self.old }

        // It goes on telling what it is asked as long as there is memory.
        ensures whole { OnOk result (tells self.new ≡ tells self.old) }
    {
        self.keep(Question::read(alloc, root, path, at_most))?;
        match file_at(self.roots.as_slice(), root, path) {
            Some(file) => Ok(front(alloc, file.as_slice(), at_most)?),
            None => Err(TreeError::Absent),
        }
    }
}
