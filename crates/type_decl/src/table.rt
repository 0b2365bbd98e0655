ghost use Rattle.std.specs.Prelude.{◌≡◌, option_map, length, map, Contains, IfOk, IfSome};
ghost use Rattle.std.specs.Option.{option_copied};
ghost use Rattle.std.proofs.Props.{props};
ghost use Rattle.type_arena.specs.Frozen.{holding_of};
ghost use Rattle.type_arena.specs.Meaning.{term_of};
ghost use Rattle.type_arena.specs.Store.{IsSound};
ghost use Rattle.luau_tree.specs.Sorted.{bytes_cmp, IsAscending};
ghost use Rattle.type_decl.specs.Signatures.{declaration};
ghost use Rattle.type_decl.specs.Tables.{alone, meant, declared_in, AreThere};

use crate::sig::Sig;
use luau_tree::{Bytes, PathSet};
use std::alloc::{AllocError, Global};
use type_arena::{Frozen, Label, List};

/// Declared builtins with their signatures, which are references into an arena of the table's own.
#[derive(Drop)]
pub struct SigTable {
    pub(crate) paths: PathSet,
    pub(crate) sigs: List<Sig>,
    pub(crate) arena: Frozen,
    ghost as_many: { length paths ≡ length sigs } by { Prim.hlevel props },
    ghost home: { (holding_of arena).home ≡ 0 } by { Prim.hlevel props },
    ghost sound: { IsSound (alone arena) } by { Prim.hlevel props },
    ghost there: { AreThere (alone arena) sigs } by { Prim.hlevel props },
}

impl SigTable {
    /// The table of some paths with their signatures, whose references are in an arena that stands alone and has the home 0.
    /// The paths are in the order of their bytes, each once.
    pub fn of(alloc: Global, arena: Frozen, sigs: Vec<(Label, Sig)>) -> Result<SigTable, AllocError>
        requires home { (holding_of arena).home ≡ 0 }
        requires closed { IsSound (alone arena) }
        requires ascending { IsAscending (map (λ entry. entry.0) sigs.items) }
        requires there { AreThere (alone arena) (map (λ entry. entry.1) sigs.items) }
        ensures arena { IfOk result (λ table. table.arena ≡ arena) }
        ensures paths { IfOk result (λ table. table.paths ≡ map (λ entry. entry.0) sigs.items) }
        ensures sigs { IfOk result (λ table. table.sigs ≡ map (λ entry. entry.1) sigs.items) }
    {
        let mut names = Vec::new(alloc);
        let mut given = Vec::new(alloc);
        for (name, sig) in sigs {
            names.push(Bytes::of(name.into_vec()))?;
            given.push(sig)?;
        }
        Ok(SigTable {
            paths: PathSet::of(names),
            sigs: List::of(given),
            arena,
        })
    }

    /// The signature of a builtin, found by halving. None exactly for a path that isn't declared.
    pub fn get(&self, name: &[u8]) -> Option<&Sig>
        ensures means { option_map (meant (term_of (alone self.now.arena))) (option_copied result) ≡ declaration name.now (declared_in self.now.arena self.now.paths self.now.sigs) }
        ensures among { IfSome result (λ sig. Contains self.now.sigs sig.now) }
    {
        let place = self.paths.as_slice().binary_search_by(
            |other|
                ensures { result ≡ bytes_cmp other.now name.entry.now }
            { other.as_slice().cmp(name) },
        );
        match place {
            Ok(at) => Some(&self.sigs.as_slice()[at]),
            Err(_) => None,
        }
    }

    /// The declared paths, which are those of the signatures.
    pub fn paths(&self) -> &PathSet
        ensures paths { result.now ≡ self.now.paths }
        ensures all { map (λ entry. entry.0) (declared_in self.now.arena self.now.paths self.now.sigs) ≡ self.now.paths }
    {
        &self.paths
    }

    /// The arena in which the references of the signatures are. It stands alone as the first of a shelf.
    pub fn arena(&self) -> &Frozen
        ensures arena { result.now ≡ self.now.arena }
        ensures home { (holding_of result.now).home ≡ 0 }
        ensures sound { IsSound (alone result.now) }
        ensures there { AreThere (alone result.now) self.now.sigs }
    {
        &self.arena
    }
}
