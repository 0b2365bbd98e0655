//! The paths of the modules of a folder.
ghost use Rattle.std.specs.Prelude.{◌≡◌, IfOk, map, string_bytes};
ghost use Rattle.std.specs.List.{list_any};
ghost use Rattle.std.specs.List.Sorted.{IsSorted};
ghost use Rattle.std.specs.Str.{bytes_eq};
ghost use Rattle.luau_tree.specs.Sorted.{bytes_cmp};
ghost use Rattle.nonstrict_cli.specs.Folder.{is_init, is_module_path, modules_among, twin_of};

use luau_tree::{Bytes, Text, sort_once};
use std::alloc::{AllocError, Global};

/// Whether a path is that of a module.
fn is_module_path(path: &str) -> bool
    ensures { result ≡ is_module_path path.now }
{
    let bytes = path.as_bytes();
    bytes.ends_with(b".luau") || bytes.ends_with(b".lua")
}

/// The paths that are those of modules, in order, each once.
pub(crate) fn modules_among(alloc: Global, paths: Vec<String>) -> Result<Vec<Text>, AllocError>
    ensures paths { IfOk result (λ kept.
        kept.items ≡ modules_among (map string_bytes paths.items)) }
    ensures order { IfOk result (λ kept. IsSorted bytes_cmp kept.items) }
{
    let mut kept = Vec::with_capacity(alloc, paths.len())?;
    for path in paths {
        if is_module_path(path.as_str()) {
            kept.push(Text::of(path))?;
        }
    }
    Ok(sort_once(kept))
}

/// The same paths as bytes, in the same order.
pub(crate) fn as_bytes(alloc: Global, paths: &[Text]) -> Result<Vec<Bytes>, AllocError>
    ensures { IfOk result (λ bytes. bytes.items ≡ paths.now) }
{
    let mut bytes = Vec::with_capacity(alloc, paths.len())?;
    for path in paths {
        bytes.push(Bytes::of(Vec::from_slice(alloc, path.as_str().as_bytes())?))?;
    }
    Ok(bytes)
}

/// Whether a path is among these, which are in order.
fn is_among(paths: &[Bytes], path: &Bytes) -> bool
    requires { IsSorted bytes_cmp paths.now }
    ensures { result ≡ list_any (λ other. bytes_eq other path.now) paths.now }
{
    let place = paths.binary_search(path);
    place.is_ok()
}

/// Whether the last part of a path is `init.luau` or `init.lua`.
pub(crate) fn is_init(path: &str) -> bool
    ensures { result ≡ is_init path.now }
{
    let bytes = path.as_bytes();
    bytes == b"init.luau".as_slice()
        || bytes == b"init.lua".as_slice()
        || bytes.ends_with(b"/init.luau")
        || bytes.ends_with(b"/init.lua")
}

/// The path of the same module name with the other ending.
fn twin_of(alloc: Global, path: &str) -> Result<Bytes, AllocError>
    ensures { IfOk result (λ twin. twin ≡ twin_of path.now) }
{
    let bytes = path.as_bytes();
    if bytes.ends_with(b".luau") {
        let (front, _) = bytes.split_at(bytes.len() - 1);
        return Ok(Bytes::of(Vec::from_slice(alloc, front)?));
    }
    let mut twin = Vec::from_slice(alloc, bytes)?;
    twin.push(b'u')?;
    Ok(Bytes::of(twin))
}

/// Whether another file of a folder with these paths, which are in order, has the module name of
/// this one.
pub(crate) fn has_twin(alloc: Global, paths: &[Bytes], path: &str) -> Result<bool, AllocError>
    requires { IsSorted bytes_cmp paths.now }
    ensures { IfOk result (λ has. has ≡ list_any (λ other.
        bytes_eq other (twin_of path.now)) paths.now) }
{
    let twin = twin_of(alloc, path)?;
    Ok(is_among(paths, &twin))
}
