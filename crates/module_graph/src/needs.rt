use luau_tree::{Bytes, List, Span};

/// A static require: the text that it is given, and its place in the file's text.
#[derive(Debug, Drop)]
pub struct Need {
    /// The text, as bytes.
    pub target: Bytes,
    /// The place of the call.
    pub at: Span,
}

/// A file of the folder, with its static requires in the order of its text.
#[derive(Debug, Drop)]
pub struct ModuleNeeds {
    /// The file's path in the folder, its parts with `/` between them.
    pub path: Bytes,
    /// Whether the file is refused already. Its requires then don't count.
    pub refused: bool,
    /// The static requires.
    pub needs: List<Need>,
}

/// Why the graph refuses a module.
#[derive(Clone, Copy, Debug, PartialEq, Eq)]
pub enum GraphRefusal {
    /// A require means no module of the folder.
    MissingModule,
    /// The module reaches itself by requires.
    RequireCycle,
}

/// What becomes of a module. Modules are named by their positions.
#[derive(Debug, Drop)]
pub enum Fate {
    /// It is checked, after all that it requires.
    Checked {
        /// How many requires its longest chain of requires has.
        level: u32,
        /// The module that each require means, in the order of the requires.
        needs: List<u32>,
    },
    /// The graph refuses it.
    Refused {
        /// Why.
        why: GraphRefusal,
        /// The place of the least require that is the reason.
        at: Span,
    },
    /// It was refused already.
    Already,
    /// It isn't refused, and requires a module that is refused or skipped.
    Skipped {
        /// The place of the first such require.
        at: Span,
        /// The module that this require means.
        needs: u32,
    },
}

/// What becomes of each module of a folder, and in which order modules can be checked.
#[derive(Debug, Drop)]
pub struct Plan {
    /// What becomes of each module, at its position.
    pub fates: List<Fate>,
    /// The checked modules of each level, by their positions from the lowest on. Each requires modules of lower
    /// levels alone.
    pub levels: List<List<u32>>,
}
