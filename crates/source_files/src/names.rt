//! What is said of a file by its size and its name.
ghost use Rattle.std.specs.Prelude.{◌≡◌, ◌≤◌, IfNone, IfOk, length};
ghost use Rattle.std.specs.List.{list_any};
ghost use Rattle.std.specs.List.Sorted.{IsSorted};
ghost use Rattle.std.specs.Str.{bytes_eq};
ghost use Rattle.luau_tree.specs.Sorted.{bytes_cmp};
ghost use Rattle.luau_tree.specs.declared.position.TheConstants.{MAX_TEXT};
ghost use Rattle.source_files.specs.Names.{is_init, refusal_of, text_behind_mark, twin_of};

use crate::reason::Reason;
use luau_tree::{Bytes, MAX_TEXT};
use std::alloc::{AllocError, Global};

/// The text of a file behind a byte order mark, if it begins with one.
pub fn text_behind_mark(bytes: &[u8]) -> &[u8]
    ensures text { result.now ≡ text_behind_mark bytes.now }
    ensures shorter { length result.now ≤ length bytes.now }
{
    match bytes.strip_prefix(b"\xEF\xBB\xBF") {
        Some(rest) => rest,
        None => bytes,
    }
}

// Whether the last part of a path is `init.luau` or `init.lua`.
fn is_init(path: &[u8]) -> bool
    ensures { result ≡ is_init path.now }
{
    path == b"init.luau".as_slice()
        || path == b"init.lua".as_slice()
        || path.ends_with(b"/init.luau")
        || path.ends_with(b"/init.lua")
}

// The path of the same module name with the other ending.
fn twin_of(alloc: Global, path: &[u8]) -> Result<Bytes, AllocError>
    ensures { IfOk result (λ twin. twin ≡ twin_of path.now) }
{
    if path.ends_with(b".luau") {
        let (front, _) = path.split_at(path.len() - 1);
        return Ok(Bytes::of(Vec::from_slice(alloc, front)?));
    }
    let mut twin = Vec::from_slice(alloc, path)?;
    twin.push(b'u')?;
    Ok(Bytes::of(twin))
}

// Whether a path is among these, which are in order.
fn is_among(paths: &[Bytes], path: &Bytes) -> bool
    requires { IsSorted bytes_cmp paths.now }
    ensures { result ≡ list_any (λ other. bytes_eq other path.now) paths.now }
{
    let place = paths.binary_search(path);
    place.is_ok()
}

// Why a file of a folder with these paths, which are in order, is refused for its size or its name.
pub(crate) fn refusal_of(
    alloc: Global,
    paths: &[Bytes],
    path: &[u8],
    text: &[u8],
) -> Result<Option<Reason>, AllocError>
    requires { IsSorted bytes_cmp paths.now }
    ensures why { IfOk result (λ why. why ≡ refusal_of paths.now path.now text.now) }
    ensures short { IfOk result (λ why. IfNone why (length text.now ≤ MAX_TEXT)) }
{
    if text.len() > MAX_TEXT {
        return Ok(Some(Reason::FileTooLarge));
    }
    if is_init(path) {
        return Ok(Some(Reason::DirectoryModule));
    }
    let twin = twin_of(alloc, path)?;
    if is_among(paths, &twin) {
        return Ok(Some(Reason::RepeatedName));
    }
    Ok(None)
}
