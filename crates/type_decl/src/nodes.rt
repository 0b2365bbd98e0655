ghost use Rattle.std.specs.Prelude.{◌≡◌, [], ◌∷◌, false, IfOk, if◌then◌else◌};
ghost use Rattle.type_arena.specs.Meaning.{term_by};
ghost use Rattle.type_arena.specs.Store.{refs_of};
ghost use Rattle.type_arena.specs.Term.{Term};
ghost use Rattle.type_arena.specs.declared.node.Among.TheVariants.{Only, AllBut};
ghost use Rattle.type_arena.specs.declared.node.TypeRef.{TypeRef};
ghost use Rattle.type_normal.specs.Kinds.{kinds_type};
ghost use Rattle.type_decl.specs.Parts.{kinds_of};
ghost use Rattle.type_decl.specs.Signatures.{term_of_kinds};

use builtin_table::Kinds;
use std::alloc::{AllocError, Global};
use type_arena::{Among, List, Node, Row};

/// The kinds of values that belong to a type.
#[derive(Clone, Copy)]
pub(crate) struct Parts {
    pub nil: bool,
    pub boolean: bool,
    pub number: bool,
    pub string: bool,
    pub table: bool,
    pub function: bool,
    pub other: bool,
}

const NOTHING: Parts = Parts {
    nil: false,
    boolean: false,
    number: false,
    string: false,
    table: false,
    function: false,
    other: false,
};

/// The kinds of values that belong to a type of the table.
pub(crate) fn parts_of(kinds: Kinds) -> Parts
    ensures { kinds_type (kinds_of result) ≡ term_of_kinds kinds }
{
    match kinds {
        Kinds::Unknown => Parts {
            nil: true,
            boolean: true,
            number: true,
            string: true,
            table: true,
            function: true,
            other: true,
        },
        Kinds::Number => Parts {
            number: true,
            ..NOTHING
        },
        Kinds::Text => Parts {
            string: true,
            ..NOTHING
        },
        Kinds::Boolean => Parts {
            boolean: true,
            ..NOTHING
        },
        Kinds::Table => Parts {
            table: true,
            ..NOTHING
        },
        Kinds::Function => Parts {
            function: true,
            ..NOTHING
        },
        Kinds::OptionalNumber => Parts {
            number: true,
            nil: true,
            ..NOTHING
        },
        Kinds::OptionalText => Parts {
            string: true,
            nil: true,
            ..NOTHING
        },
        Kinds::OptionalBoolean => Parts {
            boolean: true,
            nil: true,
            ..NOTHING
        },
        Kinds::OptionalFunction => Parts {
            function: true,
            nil: true,
            ..NOTHING
        },
        Kinds::TableOrOther => Parts {
            table: true,
            other: true,
            ..NOTHING
        },
    }
}

/// The node of the values of some kinds.
pub(crate) fn node_of(alloc: Global, parts: Parts) -> Result<Node, AllocError>
    ensures term { IfOk result (λ node. (means : TypeRef → Term) → term_by means node ≡ kinds_type (kinds_of parts)) }
    ensures refs { IfOk result (λ node. refs_of node ≡ []) }
{
    let rows = rows_of(alloc, parts.table)?;
    Ok(Node {
        nil: parts.nil,
        truth: parts.boolean,
        falsity: parts.boolean,
        number: parts.number,
        other: parts.other,
        strings: all_or_none(alloc, parts.string),
        functions: all_or_none(alloc, parts.function),
        rows,
    })
}

// All members, or none.
fn all_or_none<T>(alloc: Global, all: bool) -> Among<T>
    ensures { result ≡ (if all then AllBut [] else Only []) }
{
    if all {
        Among::AllBut(List::of(Vec::new(alloc)))
    } else {
        Among::Only(List::of(Vec::new(alloc)))
    }
}

// The row of all tables, or none.
fn rows_of(alloc: Global, all: bool) -> Result<List<Row>, AllocError>
    ensures { IfOk result (λ rows. rows ≡ (if all then (record { frozen = false; fields = [] }) ∷ [] else [])) }
{
    let mut rows = Vec::new(alloc);
    if all {
        rows.push(Row {
            frozen: false,
            fields: List::of(Vec::new(alloc)),
        })?;
    }
    Ok(List::of(rows))
}
