//! One file, as it is read.
ghost use Rattle.std.specs.Prelude.{◌≡◌, ◌≤◌, IfOk, Ok, length};
ghost use Rattle.std.specs.List.Sorted.{IsSorted};
ghost use Rattle.luau_tree.specs.Position.{pos_at};
ghost use Rattle.luau_tree.specs.Sorted.{bytes_cmp};
ghost use Rattle.luau_tree.specs.View.{view_block};
ghost use Rattle.luau_tree.specs.declared.position.TheConstants.{MAX_TEXT};
ghost use Rattle.luau_parse.specs.Texts.{tree_of};
ghost use Rattle.source_files.specs.Names.{text_behind_mark};
ghost use Rattle.source_files.specs.Reading.{reading_by_tree, reading_of};
ghost use Rattle.source_files.specs.Sources.{reading_in, IsResolved};

use crate::fault::{offset_of, reason_of};
use crate::file::SourceFile;
use crate::names::{refusal_of, text_behind_mark};
use crate::reason::Reason;
use luau_grammar::ParseError;
use luau_parse::parse;
use luau_scope::{ScopeError, Scoped, resolve};
use luau_tree::{Bytes, Cursor, Module, PathSet, Pos};
use std::alloc::{AllocError, Global};

/// A file as it is read.
#[derive(Debug, Drop)]
pub enum Source {
    /// It is refused: where, and why.
    Refused(Pos, Reason),
    /// Its tree, with what its names stand for.
    Read(Scoped),
}

/// The first place of a file.
const FIRST: Pos = Pos { line: 1, column: 1 };

// The place of an offset in a text. An offset past the end has the place of the end.
fn place_in(text: &[u8], offset: u32) -> Pos
    requires { length text.now ≤ MAX_TEXT }
    ensures { result ≡ pos_at text.now offset }
{
    let mut cursor = Cursor::new(text);
    cursor.place(offset.min(text.len() as u32))
}

// A text with a tree.
fn with_tree(
    alloc: Global,
    table: &PathSet,
    text: &[u8],
    module: Module,
) -> Result<Source, AllocError>
    requires { length text.now ≤ MAX_TEXT }
    ensures meant { IfOk result (λ source. reading_in text.now source ≡ reading_by_tree table.now text.now (Ok (view_block «module».block))) }
    ensures resolved { IfOk result (IsResolved table.now) }
{
    match resolve(alloc, module, table) {
        Ok(scoped) => Ok(Source::Read(scoped)),
        Err(ScopeError::NoMemory) => Err(AllocError),
        Err(ScopeError::Refused { why, at }) => Ok(Source::Refused(
            place_in(text, at.start),
            Reason::Profile(why),
        )),
    }
}

// A text.
fn read_text(alloc: Global, table: &PathSet, text: &[u8]) -> Result<Source, AllocError>
    requires { length text.now ≤ MAX_TEXT }
    ensures meant { IfOk result (λ source. reading_in text.now source ≡ reading_by_tree table.now text.now (tree_of text.now)) }
    ensures resolved { IfOk result (IsResolved table.now) }
{
    match parse(alloc, text) {
        Ok(module) => with_tree(alloc, table, text, module),
        Err(ParseError::NoMemory) => Err(AllocError),
        Err(fault) => Ok(Source::Refused(place_in(text, offset_of(&fault)), reason_of(&fault))),
    }
}

/// How a file of a folder reads, over the paths of the declared builtins. The paths of the folder's files are in order. The first
/// reason counts: for its size, its name, its tokens, its grammar, and what the profile refuses; the reasons stand in
/// `docs/PROGRAM.md`.
pub fn read(
    alloc: Global,
    table: &PathSet,
    paths: &[Bytes],
    file: &SourceFile,
) -> Result<Source, AllocError>
    requires { IsSorted bytes_cmp paths.now }
    ensures meant { IfOk result (λ source. reading_in (text_behind_mark file.now.text) source ≡ reading_of table.now paths.now file.now) }
    ensures resolved { IfOk result (IsResolved table.now) }
{
    let bytes = file.text.as_slice();
    match refusal_of(alloc, paths, file.path.as_slice(), bytes)? {
        Some(why) => Ok(Source::Refused(FIRST, why)),
        None => read_text(alloc, table, text_behind_mark(bytes)),
    }
}
