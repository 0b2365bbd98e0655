//! Sets of paths.
ghost use Rattle.std.specs.Prelude.{◌≡◌, ◌↔◌, Contains, IsTrue};
ghost use Rattle.luau_tree.specs.Sorted.{bytes_cmp, IsAscending};

use crate::containers::{Bytes, List};
use std::marker::Model;

/// The paths of declared builtins, sorted by their bytes and without repeats, so that one is found by halving.
/// Contracts see the list of the paths.
#[derive(Debug, Drop)]
pub struct PathSet {
    paths: List<Bytes>,
}

impl Model for PathSet {
    ghost use Rattle.std.specs.Prelude as prelude;
    ghost use Rattle.std.specs.Prelude.{ℕ};
    ghost use Rattle.luau_tree.specs.Sorted.{IsAscending};

    ghost Value = { prelude.List (prelude.List ℕ) };

    ghost view = { λ s. s.paths };

    ghost invariant = { λ s. IsAscending s.paths };
}

impl PathSet {
    /// The set of these paths, each of which comes before the next by its bytes. Takes no memory.
    pub fn of(paths: Vec<Bytes>) -> PathSet
        requires { IsAscending paths.items }
        ensures { result ≡ paths.items }
    {
        PathSet {
            paths: List::of(paths),
        }
    }

    /// The paths, each of which comes before the next by its bytes.
    pub fn as_slice(&self) -> &[Bytes]
        ensures paths { result.now ≡ self.now }
        ensures ascending { IsAscending self.now }
    {
        self.paths.as_slice()
    }

    /// Whether a path is one of the set. Takes no memory.
    pub fn has(&self, path: &[u8]) -> bool
        ensures { IsTrue result ↔ Contains self.now path.now }
    {
        let paths = self.paths.as_slice();
        let place = paths.binary_search_by(
            |other|
                ensures { result ≡ bytes_cmp other.now path.entry.now }
            { other.as_slice().cmp(path) },
        );
        place.is_ok()
    }
}

#[cfg(test)]
mod tests {
    use super::*;
    use std::test::Fail;

    #[test]
    fn a_set_has_its_paths_alone(rt: HostRuntime) -> Result<(), Fail> {
        let alloc = rt.alloc();
        assert!(rt; !PathSet::of(Vec::new(alloc)).has(b""));
        let path = Bytes::of(Vec::from_slice(alloc, b"math.abs")?);
        let set = PathSet::of(vec![in alloc; path]?);
        assert!(rt; set.has(b"math.abs"));
        assert!(rt; set.as_slice().len() == 1);
        for other in ["", "math", "math.ab", "math.abs.", "math.bbs", "table.abs"] {
            assert!(rt; !set.has(other.as_bytes()), "{other}");
        }
        Ok(())
    }
}
