use crate::containers::{Bytes, List};
use crate::names::{Access, BinOp, ExprId, FnId, UnOp};
use crate::position::Span;
use sqlite_items::{Boxed, Items};

/// A module: the block of its own body.
///
/// The span of each part goes from the first token of its phrase through the last. Where a rule is another one, it
/// stands at the part.
#[derive(Debug, Drop)]
pub struct Module {
    pub block: Block,
}

/// Statements in the order of the text.
#[cycle(tree)]
#[derive(Debug, Drop)]
pub struct Block {
    pub stats: Items<Stat>,
}

/// A statement. The span has the statement's attributes, and not the `;` behind it.
#[cycle(tree)]
#[derive(Debug, Drop)]
pub struct Stat {
    pub span: Span,
    pub kind: StatKind,
}

/// What a statement is.
#[cycle(tree)]
#[derive(Debug, Drop)]
pub enum StatKind {
    /// `a, b.c = x, y`. A target is a name, an `Index` or an `At`.
    Assign {
        targets: Items<Expr>,
        values: Items<Expr>,
    },
    /// `a += x`. The operator is one of the last eight of `BinOp`, from `Concat` on.
    Compound {
        target: Expr,
        op: BinOp,
        value: Expr,
    },
    /// An expression that is a call or a method call.
    CallStat(Expr),
    /// `do .. end`
    Do(Block),
    /// `while c do .. end`
    While {
        cond: Expr,
        body: Block,
    },
    /// `repeat .. until c`
    Repeat {
        body: Block,
        cond: Expr,
    },
    /// `if .. then .. elseif .. then .. else .. end`: at least one arm, and the block after `else`.
    If {
        arms: Items<Arm>,
        last: Option<Block>,
    },
    /// `for i = a, b, c do .. end`
    NumFor {
        bind: Bind,
        from: Expr,
        to: Expr,
        step: Option<Expr>,
        body: Block,
    },
    /// `for a, b in x, y do .. end`
    GenFor {
        binds: Items<Bind>,
        values: Items<Expr>,
        body: Block,
    },
    /// `function a.b.c:m() .. end`. The path is the expression that its names spell, without the method.
    Function {
        path: Expr,
        method: Option<Bytes>,
        body: Body,
    },
    /// `local function f() .. end`. The name has no type.
    LocalFunction {
        name: Bind,
        body: Body,
    },
    /// `local a, b = x, y`
    Local {
        binds: Items<Bind>,
        values: Items<Expr>,
    },
    /// `export type T<U> = V`
    TypeAlias {
        exported: bool,
        name: Bytes,
        generics: Items<Gen>,
        typ: TypeSyntax,
    },
    /// `export type function f() .. end`
    TypeFunction {
        exported: bool,
        name: Bytes,
        body: Body,
    },
    /// `return x, y`
    Return(Items<Expr>),
    /// `break`
    Break,
    /// `continue`
    Continue,
}

/// A condition, and the block that runs where it is true.
#[cycle(tree)]
#[derive(Debug, Drop)]
pub struct Arm {
    pub cond: Expr,
    pub block: Block,
}

/// An expression. The expressions of a module are numbered from 0 in the order of the text, parent before child and
/// left before right. Those in the `typeof(..)` of a type have their numbers at the place where they stand, and the
/// path of a function statement comes before what is in its body.
#[cycle(tree)]
#[derive(Debug, Drop)]
pub struct Expr {
    pub id: ExprId,
    pub span: Span,
    pub kind: ExprKind,
}

/// What an expression is.
#[cycle(tree)]
#[derive(Debug, Drop)]
pub enum ExprKind {
    /// `nil`
    Nil,
    /// `true`
    True,
    /// `false`
    False,
    /// A numeral, as it is written.
    Number(Bytes),
    /// A quoted or long string, as the bytes that it stands for.
    Str(Bytes),
    /// `...`
    Vararg,
    /// A function literal. With attributes the expression begins at the first `@`.
    Function(Boxed<Body>),
    /// A name.
    Name(Bytes),
    /// `base.name`
    Index {
        base: Boxed<Expr>,
        name: Bytes,
    },
    /// `base[key]`. A key that is a string literal is read as a name by all rules.
    At {
        base: Boxed<Expr>,
        key: Boxed<Expr>,
    },
    /// `callee(args)`, also with a table or a string in place of the parentheses.
    Call {
        callee: Boxed<Expr>,
        args: Items<Expr>,
    },
    /// `base:name(args)`. The name has a span of its own, as it is no expression.
    Method {
        base: Boxed<Expr>,
        name: Bytes,
        name_span: Span,
        args: Items<Expr>,
    },
    /// `(e)`
    Paren(Boxed<Expr>),
    /// `-e`, `not e` or `#e`
    Unary {
        op: UnOp,
        e: Boxed<Expr>,
    },
    /// `left op right`
    Binary {
        op: BinOp,
        left: Boxed<Expr>,
        right: Boxed<Expr>,
    },
    /// `if c then x elseif d then y else z`: at least one arm, and the value after `else`.
    IfElse {
        arms: Items<Choice>,
        last: Boxed<Expr>,
    },
    /// `{a = x, [k] = y, z}`
    Table(Items<Item>),
    /// An interpolated string: the texts around its parts, one more than there are parts. They are the bytes that the
    /// texts stand for, as those of a `Str`, and not as they are written.
    Interp {
        texts: List<Bytes>,
        parts: Items<Expr>,
    },
    /// `e :: T`
    Assert {
        e: Boxed<Expr>,
        typ: Boxed<TypeSyntax>,
    },
}

/// A condition, and the value where it is true.
#[cycle(tree)]
#[derive(Debug, Drop)]
pub struct Choice {
    pub cond: Expr,
    pub value: Expr,
}

/// An item of a table constructor.
#[cycle(tree)]
#[derive(Debug, Drop)]
pub enum Item {
    /// `name = value`
    Field { name: Bytes, value: Expr },
    /// `[key] = value`
    Keyed { key: Expr, value: Expr },
    /// A value without a key.
    Plain(Expr),
}

/// A function's generics, parameters, result and block. The bodies of a module are numbered from 0 in the order of
/// their first tokens. The span begins at the `<` of the generics, or at the `(` where there are none, and goes
/// through the `end`.
#[cycle(tree)]
#[derive(Debug, Drop)]
pub struct Body {
    pub id: FnId,
    /// Whether it is a method's. Then the first of `params` is `self`: without a type, at the method's name.
    pub has_self: bool,
    pub generics: Items<Gen>,
    pub params: Items<Bind>,
    /// None without `...`. With it, the type that is written behind it, if there is one.
    pub vararg: Option<Option<TypeSyntax>>,
    pub result: Option<TypeSyntax>,
    pub block: Block,
    pub span: Span,
}

/// A name that is declared, with the type that is written for it. The span is the name's.
#[cycle(tree)]
#[derive(Debug, Drop)]
pub struct Bind {
    pub name: Bytes,
    pub span: Span,
    pub typ: Option<TypeSyntax>,
}

/// A generic parameter, with its default. The span is the name's. `pack` says that `...` stands behind it.
#[cycle(tree)]
#[derive(Debug, Drop)]
pub struct Gen {
    pub name: Bytes,
    pub span: Span,
    pub pack: bool,
    pub default: Option<TypeSyntax>,
}

/// A type as it is written. A type in parentheses has the span of the type inside, and a leading `|` or `&` isn't
/// counted. The phrases around a type in parentheses cover the parentheses: in `(A)?` the span of `A` is that of the
/// name, and `(A)?` begins at the `(`.
#[cycle(tree)]
#[derive(Debug, Drop)]
pub struct TypeSyntax {
    pub span: Span,
    pub kind: TypeKind,
}

/// What a written type is.
#[cycle(tree)]
#[derive(Debug, Drop)]
pub enum TypeKind {
    /// `nil`
    Nil,
    /// `true` or `false`
    Bool(bool),
    /// A string literal, as the bytes that it stands for.
    Str(Bytes),
    /// `prefix.name<args>`. There are no `args` in `T` and in `T<>` alike.
    Named {
        prefix: Option<Bytes>,
        name: Bytes,
        args: Items<TypeSyntax>,
    },
    /// `typeof(e)`. The expression is never evaluated.
    Typeof(Boxed<Expr>),
    /// `{T}`
    Array(Boxed<TypeSyntax>),
    /// `{a: T, [K]: V}`
    Table(Items<Prop>),
    /// `<T>(A, B) -> R`. A name before a parameter's `:` isn't kept.
    Func {
        generics: Items<Gen>,
        params: Items<TypeSyntax>,
        result: Boxed<TypeSyntax>,
    },
    /// `A | B`
    Union(Items<TypeSyntax>),
    /// `A & B`
    Meet(Items<TypeSyntax>),
    /// `T?`
    Optional(Boxed<TypeSyntax>),
    /// `(A, B)` as a result or a type argument. With one type and no `...` it is that type, and no pack.
    Pack(Items<TypeSyntax>),
    /// `...T`
    Variadic(Boxed<TypeSyntax>),
    /// `T...`
    GenericPack(Bytes),
}

/// A property of a table type.
#[cycle(tree)]
#[derive(Debug, Drop)]
pub struct Prop {
    pub access: Access,
    pub key: PropKey,
    pub typ: TypeSyntax,
}

/// The key of a property.
#[cycle(tree)]
#[derive(Debug, Drop)]
pub enum PropKey {
    /// `name: T`
    Name(Bytes),
    /// `[K]: T`
    Indexer(TypeSyntax),
}
