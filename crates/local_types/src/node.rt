use type_arena::TypeRef;

/// A map from the numbers of locals to types, by its place among the maps of a [`crate::LocalTypes`].
#[derive(Clone, Copy, Debug, PartialEq, Eq)]
pub struct LocalMap {
    pub(crate) at: usize,
}

/// What is known of the locals at a point, and whether no run comes there.
#[derive(Clone, Copy, Debug)]
pub struct Point {
    pub map: LocalMap,
    pub dead: bool,
}

/// What a map has at 0, and the maps of the odd and of the even numbers: what it has at 2k+1 stands at k in the one, and
/// what it has at 2k+2 at k in the other.
#[derive(Clone, Copy, Debug)]
pub(crate) struct Parts {
    pub(crate) here: TypeRef,
    pub(crate) odd: LocalMap,
    pub(crate) even: LocalMap,
}

/// A map: one type for all numbers, or its parts.
#[derive(Clone, Copy, Debug)]
pub(crate) enum MapNode {
    /// This type at every number.
    All(TypeRef),
    /// These parts.
    Split(Parts),
}
