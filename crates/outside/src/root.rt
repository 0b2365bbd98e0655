ghost use Rattle.std.specs.Prelude.{IsTrue};
ghost use Rattle.outside.specs.Contents.{in_order, paths_of};

use crate::roots::are_in_order;
use crate::{List, Text};

/// A root and its files, for the forms that live in memory.
#[derive(Debug, Drop)]
pub struct Root {
    /// The name by which the root is asked for.
    pub name: Text,
    /// Each path with its bytes.
    pub files: List<(Text, List<u8>)>,
    /// The files are in the order of their paths, and no path repeats.
    pub ghost ordered: { IsTrue (in_order (paths_of files)) },
}

impl Root {
    ghost use Rattle.std.specs.Prelude.{◌≡◌, ◌↔◌, IsSome, IfSome, option_copied};
    ghost use Rattle.outside.specs.Contents.{file_at};

    /// A root of these files, or nothing where they aren't in the order of their paths or a path
    /// repeats.
    pub fn new(name: Text, files: List<(Text, List<u8>)>) -> Option<Root>
        ensures ordered { IsSome result ↔ IsTrue (in_order (paths_of files)) }
        ensures name { IfSome result (λ root. root.name ≡ name) }
        ensures files { IfSome result (λ root. root.files ≡ files) }
    {
        if are_in_order(files.as_slice()) {
            Some(Root { name, files })
        } else {
            None
        }
    }

    /// The bytes at a path, found by halving.
    pub(crate) fn file_at(&self, path: &str) -> Option<&List<u8>>
        ensures { option_copied result ≡ file_at self.now.files path.now }
    {
        let files = self.files.as_slice();
        match files.binary_search_by(|file| file.0.as_str().cmp(path)) {
            Ok(place) => Some(&files[place].1),
            Err(_) => None,
        }
    }
}
