//! Looking things up in roots that live in memory.
ghost use Rattle.std.specs.Prelude.{◌≡◌, [], IfOk, MatchOption, map, string_bytes, option_copied, take};
ghost use Rattle.outside.specs.Contents.{paths_of, file_at, in_order};
ghost use Rattle.outside.specs.Roots.{files_of};

use crate::{List, Root, Text};
use std::alloc::{AllocError, Global};

/// The first root of this name, if one is listed.
fn root_of<'a>(roots: &'a [Root], name: &str) -> Option<&'a Root>
    ensures { MatchOption result (files_of roots.now name.now ≡ []) (λ root.
        files_of roots.now name.now ≡ root.now.files) }
{
    for root in roots {
        if root.name.as_str() == name {
            return Some(root);
        }
    }
    None
}

/// The files of a root, none where it isn't listed.
pub(crate) fn files_of<'a>(roots: &'a [Root], name: &str) -> &'a [(Text, List<u8>)]
    ensures { result.now ≡ files_of roots.now name.now }
{
    match root_of(roots, name) {
        Some(root) => root.files.as_slice(),
        None => &[],
    }
}

/// The bytes at a path of a root.
pub(crate) fn file_at<'a>(roots: &'a [Root], name: &str, path: &str) -> Option<&'a List<u8>>
    ensures { option_copied result ≡ file_at (files_of roots.now name.now) path.now }
{
    match root_of(roots, name) {
        Some(root) => root.file_at(path),
        None => None,
    }
}

/// The paths of some files, as texts of their own.
pub(crate) fn paths_of(alloc: Global, files: &[(Text, List<u8>)]) -> Result<Vec<String>, AllocError>
    ensures { IfOk result (λ paths. map string_bytes paths.items ≡ paths_of files.now) }
{
    let mut paths = Vec::with_capacity(alloc, files.len())?;
    for file in files {
        paths.push(String::from_str(alloc, file.0.as_str())?)?;
    }
    Ok(paths)
}

/// The first `at_most` bytes of a file.
pub(crate) fn front(alloc: Global, file: &[u8], at_most: u64) -> Result<Vec<u8>, AllocError>
    ensures { IfOk result (λ bytes. bytes.items ≡ take at_most file.now) }
{
    let len = file.len().min(at_most as usize);
    Vec::from_slice(alloc, &file[..len])
}

/// Whether the files are in the order of their paths, and no path repeats.
pub(crate) fn are_in_order(files: &[(Text, List<u8>)]) -> bool
    ensures { result ≡ in_order (paths_of files.now) }
{
    for i in 1..files.len() {
        if files[i - 1].0.as_str() >= files[i].0.as_str() {
            return false;
        }
    }
    true
}
