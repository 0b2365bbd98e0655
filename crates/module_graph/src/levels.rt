//! The levels in which modules can be checked.
ghost use Rattle.std.specs.Prelude.{◌≡◌, ◌≤◌, ◌<◌, ◌^◌, ℕ, [], List, Vec, map, IfOk, OnOk, Some, length, slice_get};
ghost use Rattle.std.specs.declared.alloc.Global.{Global};
ghost use Rattle.module_graph.specs.Levels.{level_from, AreDense, AreLevels, IsCount};

use crate::needs::Fate;
use luau_tree::List;
use std::alloc::{AllocError, Global};

/// How many levels there are: one more than the highest.
fn count_of(fates: &[Fate]) -> usize
    ensures { IsCount fates.now result }
{
    let mut count: usize = 0;
    for fate in fates {
        if let Fate::Checked { level, .. } = fate {
            count = count.max(*level as usize + 1);
        }
    }
    count
}

/// So many levels without modules.
fn empty_levels(alloc: Global, count: usize) -> Result<Vec<Vec<u32>>, AllocError>
    ensures size { IfOk result (λ levels. length levels.items ≡ count) }
    ensures empty { IfOk result (λ levels. (level : ℕ) (modules : Vec ℕ Global) → slice_get levels.items level ≡ Some modules → modules.items ≡ []) }
{
    let mut levels = Vec::new(alloc);
    for _ in 0..count {
        levels.push(Vec::new(alloc))?;
    }
    Ok(levels)
}

/// Puts each checked module into its level.
fn fill_levels(levels: &mut [Vec<u32>], fates: &[Fate]) -> Result<(), AllocError>
    requires few { length fates.now ≤ 2 ^ 32 }
    requires count { IsCount fates.now (length levels.old) }
    requires empty { (level : ℕ) (modules : Vec ℕ Global) → slice_get levels.old level ≡ Some modules → modules.items ≡ [] }
    ensures { OnOk result ((level : ℕ) (modules : Vec ℕ Global) → slice_get levels.new level ≡ Some modules → modules.items ≡ level_from level 0 fates.now) }
{
    for (file, fate) in fates.iter().enumerate() {
        if let Fate::Checked { level, .. } = fate {
            levels[*level as usize].push(file as u32)?;
        }
    }
    Ok(())
}

/// The levels as lists.
fn lists_of(alloc: Global, levels: Vec<Vec<u32>>) -> Result<Vec<List<u32>>, AllocError>
    ensures { IfOk result (λ lists. lists.items ≡ map (λ level. level.items) levels.items) }
{
    levels
        .into_iter()
        .map(|level| List::of(level))
        .collect(alloc)
}

/// The checked modules, level by level. Modules are at most 4,294,967,296.
pub fn find_levels(alloc: Global, fates: &[Fate]) -> Result<Vec<List<u32>>, AllocError>
    requires few { length fates.now ≤ 2 ^ 32 }
    requires dense { AreDense fates.now }
    ensures { IfOk result (λ levels. AreLevels fates.now levels.items) }
{
    let mut levels = empty_levels(alloc, count_of(fates))?;
    fill_levels(levels.as_mut_slice(), fates)?;
    lists_of(alloc, levels)
}
