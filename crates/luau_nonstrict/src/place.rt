//! Where the files of a root lie.
ghost use Rattle.std.specs.Prelude.{◌≡◌, IfOk, string_bytes};
ghost use Rattle.luau_nonstrict.specs.Place.{join, place};

use std::alloc::{AllocError, Global};

/// A name inside a folder. The empty folder is the one where paths begin.
pub fn joined(alloc: Global, folder: &str, name: &str) -> Result<String, AllocError>
    ensures { IfOk result (λ path. string_bytes path ≡ join folder.now name.now) }
{
    let mut path = String::from_str(alloc, folder)?;
    if !folder.is_empty() {
        path.push('/')?;
    }
    path.push_str(name)?;
    Ok(path)
}

/// Where a path of a root lies. The root without a name is the folder in which the program runs,
/// and the path without a name is the root itself.
pub fn place_of(alloc: Global, root: &str, path: &str) -> Result<String, AllocError>
    ensures { IfOk result (λ there. string_bytes there ≡ place root.now path.now) }
{
    if !path.is_empty() {
        joined(alloc, root, path)
    } else if !root.is_empty() {
        String::from_str(alloc, root)
    } else {
        String::from_str(alloc, ".")
    }
}
