use luau_tree::{Bytes, ExprId, FnId, List, LocalId, Module, Span};

/// What a name, or the path of a builtin, stands for.
#[derive(Debug, Drop, PartialEq, Eq)]
pub enum Use {
    /// A local, by its position among the module's locals.
    Local(LocalId),
    /// A declared builtin, by its path: `print`, `math.abs`.
    Builtin(Bytes),
    /// A global that some declared path begins with: the `math` of `math.abs`.
    Library,
    /// A global that is neither.
    Global,
}

/// A local.
#[derive(Debug, Drop)]
pub struct LocalInfo {
    pub name: Bytes,
    /// The span of its name where it is declared; for a method's `self` that of the method's name.
    pub declared: Span,
    /// The innermost body that declares it, for a parameter its own body; None in the module's own block.
    pub function: Option<FnId>,
    /// The expression that its `local` gives it, at its position; None without one, and for other declarations.
    pub given: Option<ExprId>,
    /// An assignment other than its declaration exists.
    pub assigned: bool,
    /// A function literal inside the declaring function uses it.
    pub captured: bool,
    /// It is both assigned and captured.
    pub loose: bool,
}

/// A call of the global `require` with one string literal that begins with `./` or `../`.
#[derive(Debug, Drop)]
pub struct RequireSite {
    /// The call.
    pub at: ExprId,
    /// The call's span.
    pub span: Span,
    /// The value of its string.
    pub text: Bytes,
}

/// A module with what its names stand for.
#[derive(Debug, Drop)]
pub struct Scoped {
    pub module: Module,
    /// The locals in the order of their declarations in the text. A [`LocalId`] is a position here.
    pub locals: List<LocalInfo>,
    /// For each expression that is a name, and for each builtin's path, what it stands for, in the order of the text.
    pub uses: List<(ExprId, Use)>,
    /// The static requires in the order of the text. (The word `requires` is taken.)
    pub required: List<RequireSite>,
}
