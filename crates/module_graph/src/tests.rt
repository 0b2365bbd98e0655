ghost use Rattle.std.specs.Bool.{OnTrue};
ghost use Rattle.module_graph.specs.Names.{AreOrdered};

use crate::names::path_cmp;
use crate::needs::{Fate, ModuleNeeds, Need, Plan};
use crate::planning::{MAX_MODULES, plan};
use luau_tree::{Bytes, List, Span};
use std::alloc::{AllocError, Global};
use std::cmp::Ordering;
use std::test::Fail;

/// Whether the paths of some files rise.
fn are_ordered(files: &[ModuleNeeds]) -> bool
    ensures { OnTrue result (AreOrdered files.now) }
{
    for i in 1..files.len() {
        let Ordering::Less = path_cmp(&files[i - 1], files[i].path.as_slice()) else {
            return false;
        };
    }
    true
}

/// A require that is written as its text, `@` and its offset.
fn need_of(alloc: Global, written: &str) -> Result<Need, Fail> {
    let (text, offset) = written.split_once('@').ok_or("no offset")?;
    let start = offset.parse::<u32>()?;
    Ok(Need {
        target: Bytes::of(Vec::from_slice(alloc, text.as_bytes())?),
        at: Span { start, end: start },
    })
}

/// A file that is written as its path, `=` and its requires with `,` between them; one that is refused has a `!` first.
fn file_of(alloc: Global, written: &str) -> Result<ModuleNeeds, Fail> {
    let (name, listed) = written.split_once('=').ok_or("no requires")?;
    let path = name.strip_prefix('!').unwrap_or(name);
    let mut needs = Vec::new(alloc);
    for require in listed.split(',') {
        if !require.is_empty() {
            needs.push(need_of(alloc, require)?)?;
        }
    }
    Ok(ModuleNeeds {
        path: Bytes::of(Vec::from_slice(alloc, path.as_bytes())?),
        refused: name.starts_with('!'),
        needs: List::of(needs),
    })
}

/// The plan of some files.
fn planned(alloc: Global, files: &[ModuleNeeds]) -> Result<Plan, Fail> {
    if files.len() > MAX_MODULES || !are_ordered(files) {
        return Err(Fail::from("no folder"));
    }
    Ok(plan(alloc, files)?)
}

/// What becomes of a module, as text.
fn shown(alloc: Global, fate: &Fate) -> Result<String, AllocError> {
    match fate {
        Fate::Checked { level, needs } => {
            let needs = needs.as_slice();
            format!(in alloc; "{level} {needs:?};")
        }
        Fate::Refused { why, at } => {
            let start = at.start;
            format!(in alloc; "{why:?} {start};")
        }
        Fate::Already => String::from_str(alloc, "already;"),
        Fate::Skipped { at, needs } => {
            let start = at.start;
            format!(in alloc; "skipped {start} by {needs};")
        }
    }
}

/// The plan of a folder, as text: what becomes of each module, and the levels.
fn planned_text(alloc: Global, folder: &str) -> Result<String, Fail> {
    let mut files = Vec::new(alloc);
    for written in folder.split(' ') {
        if !written.is_empty() {
            files.push(file_of(alloc, written)?)?;
        }
    }
    let plan = planned(alloc, &files)?;
    let mut text = String::new(alloc);
    for fate in plan.fates.as_slice() {
        text.push_str(shown(alloc, fate)?.as_str())?;
    }
    for level in plan.levels.as_slice() {
        let modules = level.as_slice();
        text.push_str(format!(in alloc; " {modules:?}")?.as_str())?;
    }
    Ok(text)
}

#[test]
fn folders_are_planned(rt: HostRuntime) -> Result<(), Fail> {
    for (folder, expected) in [
        // no modules
        ("", ""),
        // a cycle of two, and a third that requires one of them
        (
            "a.luau=./b@8 b.luau=./a@8 c.luau=./a@8",
            "RequireCycle 8;RequireCycle 8;skipped 8 by 0;",
        ),
        // a module that isn't there, or is in another folder alone
        ("a.luau=./none@0", "MissingModule 0;"),
        ("a.luau=./b@1 x/b.luau=", "MissingModule 1;0 []; [1]"),
        // out of the root and back in
        ("a.luau=../a@3", "MissingModule 3;"),
        (
            "x/a.luau=../../x/b@3 x/b.luau=",
            "MissingModule 3;0 []; [1]",
        ),
        ("x/a.luau=../x/b@3 x/b.luau=", "1 [1];0 []; [1] [0]"),
        // parts that stay, and empty ones
        ("a.luau=./././b@1 b.luau=", "1 [1];0 []; [1] [0]"),
        ("a.luau=.//b@1 b.luau=", "MissingModule 1;0 []; [1]"),
        ("a.luau=./b/@1 b.luau=", "MissingModule 1;0 []; [1]"),
        ("a.luau=./@1 b.luau=", "MissingModule 1;0 []; [1]"),
        // a module that is refused already, whose own requires don't count
        (
            "a.luau=./b@8 !b.luau=./none@1,./a@2",
            "skipped 8 by 1;already;",
        ),
        (
            "!a.lua= !a.luau= b.luau=./a@4 c.luau=./b@6",
            "already;already;skipped 4 by 0;skipped 6 by 2;",
        ),
        // what is missing comes before a cycle, and its module still closes the cycle
        (
            "a.luau=./b@8 b.luau=./a@8,./none@20",
            "RequireCycle 8;MissingModule 20;",
        ),
        // the first of two files with one name
        ("a.lua= a.luau= b.luau=./a@4", "0 [];0 [];1 [0]; [0, 1] [2]"),
        // a file whose name is empty
        (".luau= x/a.luau=./..@2", "0 [];1 [0]; [0] [1]"),
        // the least of the requires by place, but the first of those that stop
        ("a.luau=./y@30,./x@10", "MissingModule 10;"),
        (
            "a.luau=./b@30,./a@10 b.luau=./a@5",
            "RequireCycle 10;RequireCycle 5;",
        ),
        (
            "!b.luau= !c.luau= d.luau=./c@30,./b@10",
            "already;already;skipped 30 by 1;",
        ),
        // between two cycles there is none
        (
            "a.luau=./b@1 b.luau=./a@1,./m@2 c.luau=./d@1 d.luau=./c@1 m.luau=./c@3",
            "RequireCycle 1;RequireCycle 1;RequireCycle 1;RequireCycle 1;skipped 3 by 2;",
        ),
        // levels are the longest chains
        (
            "a.luau= b.luau=./a@1,./a@2 c.luau=./a@1,./b@9 d.luau=./c@3,./a@4 e.luau=./a@5",
            "0 [];1 [0, 0];2 [0, 1];3 [2, 0];1 [0]; [0] [1, 4] [2] [3]",
        ),
        (
            "lib/log.lua= x/y/use.luau=../../lib/log@5",
            "0 [];1 [0]; [0] [1]",
        ),
    ] {
        let text = planned_text(rt.alloc(), folder)?;
        assert_eq!(rt; text.as_str(), expected, "{folder}");
    }
    Ok(())
}
