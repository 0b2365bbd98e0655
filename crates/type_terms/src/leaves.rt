ghost use Rattle.std.specs.Prelude.{◌≡◌, ◌∷◌, [], IfOk};
ghost use Rattle.type_arena.specs.declared.node.Among.TheVariants.{Only};
ghost use Rattle.type_terms.specs.Leaves.{bare, whole, all_tables_alone, leaf_of, IsNodeOf};
ghost use Rattle.type_terms.specs.View.{view_term};

use crate::terms::TypeTerm;
use std::alloc::{AllocError, Global};
use type_arena::{Among, FnName, Label, List, Node, Row};

/// The node of a written type that is made of no other, and that of no values for any other.
pub(crate) fn leaf_node(alloc: Global, term: &TypeTerm) -> Result<Node, AllocError>
    ensures { IfOk result (λ node. IsNodeOf (leaf_of (view_term term.now)) node) }
{
    let none = no_kind(alloc);
    match term {
        TypeTerm::Unknown => every_kind(alloc),
        TypeTerm::Nil => Ok(Node { nil: true, ..none }),
        TypeTerm::True => Ok(Node {
            truth: true,
            ..none
        }),
        TypeTerm::False => Ok(Node {
            falsity: true,
            ..none
        }),
        TypeTerm::Number => Ok(Node {
            number: true,
            ..none
        }),
        TypeTerm::Other => Ok(Node {
            other: true,
            ..none
        }),
        TypeTerm::Table => Ok(Node {
            rows: all_tables(alloc)?,
            ..none
        }),
        TypeTerm::AnyString => Ok(Node {
            strings: Among::AllBut(List::of(Vec::new(alloc))),
            ..none
        }),
        TypeTerm::Function => Ok(Node {
            functions: Among::AllBut(List::of(Vec::new(alloc))),
            ..none
        }),
        TypeTerm::Str(text) => Ok(Node {
            strings: one_text(alloc, text)?,
            ..none
        }),
        TypeTerm::Named(name) => Ok(Node {
            functions: one_name(alloc, name)?,
            ..none
        }),
        _ => Ok(none),
    }
}

/// The node without values.
pub(crate) fn no_kind(alloc: Global) -> Node
    ensures { result ≡ bare }
{
    Node {
        nil: false,
        truth: false,
        falsity: false,
        number: false,
        other: false,
        strings: Among::Only(List::of(Vec::new(alloc))),
        functions: Among::Only(List::of(Vec::new(alloc))),
        rows: List::of(Vec::new(alloc)),
    }
}

// The row of all tables, alone.
fn all_tables(alloc: Global) -> Result<List<Row>, AllocError>
    ensures { IfOk result (λ rows. rows ≡ all_tables_alone) }
{
    let mut rows = Vec::new(alloc);
    rows.push(Row {
        frozen: false,
        fields: List::of(Vec::new(alloc)),
    })?;
    Ok(List::of(rows))
}

// The node of all values.
fn every_kind(alloc: Global) -> Result<Node, AllocError>
    ensures { IfOk result (λ node. node ≡ whole) }
{
    let rows = all_tables(alloc)?;
    Ok(Node {
        nil: true,
        truth: true,
        falsity: true,
        number: true,
        other: true,
        strings: Among::AllBut(List::of(Vec::new(alloc))),
        functions: Among::AllBut(List::of(Vec::new(alloc))),
        rows,
    })
}

// The set of one string.
fn one_text(alloc: Global, text: &Label) -> Result<Among<Label>, AllocError>
    ensures { IfOk result (λ set. set ≡ Only (text.now ∷ [])) }
{
    let mut texts = Vec::new(alloc);
    texts.push(text.clone()?)?;
    Ok(Among::Only(List::of(texts)))
}

// The set of one function.
fn one_name(alloc: Global, name: &FnName) -> Result<Among<FnName>, AllocError>
    ensures { IfOk result (λ set. set ≡ Only (name.now ∷ [])) }
{
    let mut names = Vec::new(alloc);
    names.push(name.clone()?)?;
    Ok(Among::Only(List::of(names)))
}
