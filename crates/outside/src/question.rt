//! What a tree can be asked.
ghost use Rattle.std.specs.Prelude.{◌≡◌, IfOk};

use crate::Text;
use std::alloc::{AllocError, Global};

/// What one call asks a tree.
#[derive(Debug, Drop)]
pub enum Question {
    /// Which files there are, by the root.
    List(Text),
    /// What a file begins with, by the root, the path and how many bytes are wanted at most.
    Read(Text, Text, u64),
}

impl Question {
    /// What a call of `list` asks.
    pub(crate) fn list(alloc: Global, root: &str) -> Result<Question, AllocError>
        ensures { IfOk result (λ asked. asked ≡ Question.List root.now) }
    {
        let root = Text::of(String::from_str(alloc, root)?);
        Ok(Question::List(root))
    }

    /// What a call of `read` asks.
    pub(crate) fn read(
        alloc: Global,
        root: &str,
        path: &str,
        at_most: u64,
    ) -> Result<Question, AllocError>
        ensures { IfOk result (λ asked. asked ≡ Question.Read root.now path.now at_most) }
    {
        let root = Text::of(String::from_str(alloc, root)?);
        let path = Text::of(String::from_str(alloc, path)?);
        Ok(Question::Read(root, path, at_most))
    }
}
