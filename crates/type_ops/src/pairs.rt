use type_arena::TypeRef;

/// Two types.
#[derive(Clone, Copy, Debug, PartialEq, Eq, Hash)]
pub(crate) struct Pair {
    pub(crate) first: TypeRef,
    pub(crate) second: TypeRef,
}
