use type_arena::{List, TypeRef};

/// What a builtin's arguments and results are in, as references into the arena of its table.
#[derive(Debug, Drop)]
pub struct Sig {
    /// The types of the parameters. An argument that isn't given is nil.
    pub params: List<TypeRef>,
    /// The type of the arguments past the parameters. Without it they are free.
    pub rest: Option<TypeRef>,
    /// The types of the results. One that isn't given is nil.
    pub results: List<TypeRef>,
    /// The type of the results past these. Without it there are none.
    pub more: Option<TypeRef>,
    /// A call fails where an argument isn't in the type of its parameter.
    pub checked: bool,
    /// A call writes no field of a table that was there, and calls nothing.
    pub quiet: bool,
}
