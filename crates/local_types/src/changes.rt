use type_arena::Label;

/// How each entry of a map changes.
#[derive(Debug, Drop)]
pub enum Change {
    /// Tables may have changed: the types get larger.
    Widen,
    /// Fields of this name may have been written: the types get larger.
    WidenAt(Label),
    /// Tables may have changed: the types get smaller.
    Strip,
    /// Fields of this name may have been written: the types get smaller.
    StripAt(Label),
    /// Large types are cut up.
    CutUp,
}

/// How the entries of two maps make those of one.
#[derive(Clone, Copy, Debug, PartialEq, Eq)]
pub enum How {
    /// Their union.
    Union,
    /// Their union, cut down.
    Join,
    /// Their meet, cut down.
    Meet,
}
