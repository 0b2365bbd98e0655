ghost use Rattle.std.specs.Prelude.{◌≡◌, IfOk};
ghost use Rattle.type_arena.specs.Frozen.{holding_of};
ghost use Rattle.type_arena.specs.Store.{IsSound};
ghost use Rattle.type_decl.specs.Signatures.{standard_table};
ghost use Rattle.type_decl.specs.Tables.{alone, declared_in, AreThere};

use crate::building::sig_of;
use crate::sig::Sig;
use crate::table::SigTable;
use builtin_table::laws::paths_stand_in_order;
use luau_tree::{Bytes, PathSet};
use std::alloc::{AllocError, Global};
use type_arena::{List, over, shelf};

/// The table of the builtins that are declared where no declaration file is named. Its arena has the home 0.
pub fn standard(alloc: Global) -> Result<SigTable, AllocError>
    ensures table { IfOk result (λ table. declared_in table.arena table.paths table.sigs ≡ standard_table) }

    // The arena stands alone as the first of a shelf, and has all references of the signatures.
    ensures home { IfOk result (λ table. (holding_of table.arena).home ≡ 0) }
    ensures sound { IfOk result (λ table. IsSound (alone table.arena)) }
    ensures there { IfOk result (λ table. AreThere (alone table.arena) table.sigs) }
{
    paths_stand_in_order();
    let entries = builtin_table::paths();
    let mut arena = over(alloc, shelf(&[]), 0)?;
    let mut names = Vec::new(alloc);
    let mut sigs: Vec<Sig> = Vec::new(alloc);
    for entry in entries {
        names.push(Bytes::of(Vec::from_slice(alloc, entry.0)?))?;
        let sig = sig_of(alloc, &mut arena, entry.1)?;
        sigs.push(sig)?;
    }
    Ok(SigTable {
        paths: PathSet::of(names),
        sigs: List::of(sigs),
        arena: arena.freeze(),
    })
}
