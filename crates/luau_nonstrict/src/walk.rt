//! The walk through a folder.
ghost use Rattle.std.specs.Prelude.{◌≡◌, ◌+◌, ◌≤◌, ◌↔◌, All, IfOk, OnOk, OnErr, IsErr, false, string_bytes, true};
ghost use Rattle.std.specs.Fs.{IsDir, IsFile};
ghost use Rattle.std.specs.List.Sorted.{IsSorted};
ghost use Rattle.luau_nonstrict.specs.Met.{Finds, IsToEnter};
ghost use Rattle.luau_nonstrict.specs.Place.{join};
ghost use Rattle.luau_nonstrict.specs.Visible.{is_hidden, IsName, IsShown, IsVisible, StaysVisible};

use crate::place::{joined, place_of};
use crate::turns::too_many_turns;
use std::alloc::Global;
use std::fs::FileType;
use std::rt::Files;
use std::{fs, io};

/// A walk through the folders of a root.
#[derive(Drop)]
struct Walk {
    /// How many turns are left.
    turns: u32,
    /// The paths of the folders that are still to be entered.
    pending: Vec<String>,
    /// The paths of the files met so far.
    found: Vec<String>,
}

/// The paths of all regular files of a root, in the order of their bytes. It enters no folder whose
/// name begins with `.`, follows no link but the root itself, and passes over what is neither a
/// file nor a folder. A name that isn't UTF-8 is an error. Each folder and each name in it takes a
/// turn, and it is an error if `turns` are too few.
pub fn list_files<R: Files + Alloc + Clone + Drop>(
    rt: &R,
    alloc: Global,
    root: &str,
    turns: u32,
) -> io::Result<Vec<String>>
    ensures sorted { IfOk result (λ paths. IsSorted ⟦<String as Ord>⟧.cmp paths.items) }
    ensures visible { IfOk result (λ paths. All (λ path.
        IsVisible (string_bytes path)) paths.items) }
{
    let mut walk = Walk::new(alloc, turns)?;
    while let Some(folder) = walk.pending.pop() {
        walk.take_turn()?;
        walk.enter(rt, alloc, root, folder.as_str())?;
    }
    let Walk { mut found, .. } = walk;
    found.sort()?;
    Ok(found)
}

impl Walk {
    /// A walk before its first turn.
    fn new(alloc: Global, turns: u32) -> io::Result<Walk>
        ensures turns { IfOk result (λ walk. walk.turns ≡ turns) }
        ensures visible { IfOk result StaysVisible }
    {
        let mut pending = Vec::new(alloc);
        pending.push(String::new(alloc))?;
        Ok(Walk {
            turns,
            pending,
            found: Vec::new(alloc),
        })
    }

    /// Counts a turn, or fails where none is left.
    fn take_turn(&mut self) -> io::Result<()>
        ensures one_fewer { OnOk result (self.old.turns ≡ self.new.turns + 1) }
        ensures none_left { IsErr result ↔ (self.old.turns ≡ 0) }
        ensures stays { OnErr result (self.new.turns ≡ self.old.turns) }
        ensures visible { StaysVisible self.old → StaysVisible self.new }
    {
        if self.turns == 0 {
            return Err(too_many_turns());
        }
        self.turns -= 1;
        Ok(())
    }

    /// Looks at what a folder of the root holds.
    fn enter<R: Files + Alloc + Clone + Drop>(
        &mut self,
        rt: &R,
        alloc: Global,
        root: &str,
        folder: &str,
    ) -> io::Result<()>
        requires shown { IsShown folder.now }
        requires visible { StaysVisible self.old }
        ensures turns { self.new.turns ≤ self.old.turns }
        ensures visible { OnOk result (StaysVisible self.new) }
    {
        let place = place_of(alloc, root, folder)?;
        for entry in fs::read_dir(rt, place.as_str())? {
            self.take_turn()?;
            let entry = entry?;
            let file_type = entry.file_type()?;
            self.meet(alloc, folder, entry.file_name(), file_type)?;
        }
        Ok(())
    }

    /// Keeps what the walk met in a folder, where it is a regular file or a folder to enter.
    fn meet(
        &mut self,
        alloc: Global,
        folder: &str,
        name: &str,
        file_type: FileType,
    ) -> io::Result<()>
        requires shown { IsShown folder.now }
        requires name { IsName name.now }
        requires visible { StaysVisible self.old }
        ensures turns { self.new.turns ≡ self.old.turns }
        ensures visible { OnOk result (StaysVisible self.new) }

        // A file is found, a folder is to be entered unless it is hidden, and nothing else is kept.
        ensures file { OnOk result (IsFile file_type →
            Finds self.old self.new (join folder.now name.now)) }
        ensures folder { OnOk result (IsDir file_type → is_hidden name.now ≡ false →
            IsToEnter self.old self.new (join folder.now name.now)) }
        ensures hidden { OnOk result (IsDir file_type → is_hidden name.now ≡ true →
            self.new ≡ self.old) }
        ensures other { OnOk result (¬ IsFile file_type → ¬ IsDir file_type → self.new ≡ self.old) }
    {
        if file_type.is_file() {
            self.found.push(joined(alloc, folder, name)?)?;
        } else if file_type.is_dir() && !is_hidden(name) {
            self.pending.push(joined(alloc, folder, name)?)?;
        }
        Ok(())
    }
}

/// Whether a name begins with `.`.
fn is_hidden(name: &str) -> bool
    ensures { result ≡ is_hidden name.now }
{
    name.starts_with('.')
}

#[cfg(test)]
mod tests;
