//! The plan of a folder.
ghost use Rattle.std.specs.Prelude.{◌≤◌, IfOk, length};
ghost use Rattle.module_graph.specs.Levels.{IsPlan};
ghost use Rattle.module_graph.specs.Names.{AreOrdered};

use crate::components::find_components;
use crate::fates::find_fates;
use crate::levels::find_levels;
use crate::needs::{ModuleNeeds, Plan};
use crate::nodes::nodes_for;
use crate::standing::find_standings;
use luau_tree::List;
use std::alloc::{AllocError, Global};

/// The most modules that a plan is made for.
pub const MAX_MODULES: usize = 10_000;

/// The plan of a folder: what becomes of each module, and the levels in which the checked ones can be checked.
///
/// The files are at most 10,000, in the order of their paths, which differ. A module is named by its file's path without
/// `.lua` or `.luau`. A require's text is split at `/` and walked from the folder of its file, where `.` stays and `..`
/// goes up; it means no module where a part is empty or where the walk leaves the root.
pub fn plan(alloc: Global, modules: &[ModuleNeeds]) -> Result<Plan, AllocError>
    requires few { length modules.now ≤ MAX_MODULES }
    requires ordered { AreOrdered modules.now }
    ensures { IfOk result (IsPlan modules.now) }
{
    let nodes = nodes_for(alloc, modules)?;
    let found = find_components(alloc, &nodes)?;
    let standings = find_standings(alloc, &nodes, &found)?;
    let fates = find_fates(alloc, &nodes, &found, &standings)?;
    let levels = find_levels(alloc, &fates)?;
    Ok(Plan {
        fates: List::of(fates),
        levels: List::of(levels),
    })
}
