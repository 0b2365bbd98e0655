//! The folders of the file system.
ghost use Rattle.std.specs.Prelude.{◌≡◌, ◌≢◌, ◌≤◌, ◌↔◌, IfOk, IfSome, length};
ghost use Rattle.std.specs.IoError.{error_kind};
ghost use Rattle.outside.specs.Cause.{Rose};
ghost use Rattle.outside.specs.Plan.{count_after};
ghost use Rattle.luau_nonstrict.specs.Moved.{IsFront};

use crate::fault_count::FaultCount;
use crate::front::front;
use crate::place::place_of;
use crate::turns::TURNS;
use crate::walk::list_files;
use outside::{Tree, TreeError};
use std::alloc::Global;
use std::io::ErrorKind;
use std::rt::Files;
use std::{fs, io};

/// The folders of the file system as roots of files. A root's name is the folder's path, and the
/// root without a name is the folder in which the program runs, whose files may be named by any
/// path and through links. In every other root, as in every listing, a path whose last part is a
/// link is none of the files. It tells no contents.
#[derive(Drop)]
pub struct FolderTree<R> {
    rt: R,
    faults: FaultCount,
}

impl<R> FolderTree<R> {
    /// The folders that this runtime reaches, with no fault so far.
    pub fn new(rt: R) -> FolderTree<R>
        ensures { result.faults.count ≡ 0 }
    {
        FolderTree {
            rt,
            faults: FaultCount::new(),
        }
    }

    /// What an error of the system means, with the fault counted. Want of memory is none.
    fn fault(&mut self, error: io::Error) -> TreeError
        ensures never_absent { result ≢ TreeError.Absent }
        ensures failed { result ≡ TreeError.Failed →
            Rose self.old.faults.count self.new.faults.count }
        ensures once { result ≡ TreeError.Failed →
            self.new.faults.count ≡ count_after self.old.faults.count }
        ensures no_memory { (result ≡ TreeError.NoMemory) ↔
            (error_kind error ≡ ErrorKind.OutOfMemory) }
        ensures quiet { result ≡ TreeError.NoMemory →
            self.new.faults.count ≡ self.old.faults.count }
        ensures never_falls { self.old.faults.count ≤ self.new.faults.count }
    {
        if error.kind() == ErrorKind::OutOfMemory {
            TreeError::NoMemory
        } else {
            self.faults.rise();
            TreeError::Failed
        }
    }
}

impl<R: Files + Alloc + Clone + Drop> Tree for FolderTree<R> {
    ghost use Rattle.std.specs.Prelude.{All, None, OnOk, string_bytes};
    ghost use Rattle.std.specs.List.Sorted.{IsSorted};
    ghost use Rattle.luau_nonstrict.specs.Visible.{IsVisible};

    ghost contents = { λ _. None };

    ghost asked = { λ _. None };

    ghost faults = { λ tree. tree.faults.count };

    ghost ordered = { λ _. tt };

    ghost bounded = { λ tree. tree.faults.bounded };

    fn list(&mut self, alloc: Global, root: &str) -> Result<Vec<String>, TreeError>
        ensures never_absent { result ≢ Err TreeError.Absent }
        ensures failed { result ≡ Err TreeError.Failed →
            Rose self.old.faults.count self.new.faults.count }
        ensures quiet { OnOk result (self.new.faults.count ≡ self.old.faults.count) }
        ensures no_memory { result ≡ Err TreeError.NoMemory →
            self.new.faults.count ≡ self.old.faults.count }
        ensures never_falls { self.old.faults.count ≤ self.new.faults.count }

        // What is listed is sorted, and no hidden folder is on the way to it. A failure counts
        // once.
        ensures sorted { IfOk result (λ paths. IsSorted ⟦<String as Ord>⟧.cmp paths.items) }
        ensures visible { IfOk result (λ paths.
            All (λ path. IsVisible (string_bytes path)) paths.items) }
        ensures once { result ≡ Err TreeError.Failed →
            self.new.faults.count ≡ count_after self.old.faults.count }
    {
        match list_files(&self.rt, alloc, root, TURNS) {
            Ok(paths) => Ok(paths),
            Err(error) => Err(self.fault(error)),
        }
    }

    fn read(
        &mut self,
        alloc: Global,
        root: &str,
        path: &str,
        at_most: u64,
    ) -> Result<Vec<u8>, TreeError>
        ensures absent { result ≡ Err TreeError.Absent →
            Rose self.old.faults.count self.new.faults.count }
        ensures failed { result ≡ Err TreeError.Failed →
            Rose self.old.faults.count self.new.faults.count }
        ensures quiet { OnOk result (self.new.faults.count ≡ self.old.faults.count) }
        ensures no_memory { result ≡ Err TreeError.NoMemory →
            self.new.faults.count ≡ self.old.faults.count }
        ensures never_falls { self.old.faults.count ≤ self.new.faults.count }

        // What is read is the front of a file, and no more than is asked for. A failure counts
        // once, and so does an absent file.
        ensures front { IfOk result (λ bytes. IsFront R.File.remaining at_most bytes.items) }
        ensures within { IfOk result (λ bytes. length bytes.items ≤ at_most) }
        ensures once { result ≡ Err TreeError.Failed →
            self.new.faults.count ≡ count_after self.old.faults.count }
        ensures once_absent { result ≡ Err TreeError.Absent →
            self.new.faults.count ≡ count_after self.old.faults.count }
    {
        match read_front(&self.rt, alloc, root, path, at_most) {
            Ok(Some(bytes)) => Ok(bytes),
            Ok(None) => {
                self.faults.rise();
                Err(TreeError::Absent)
            }
            Err(error) => Err(self.fault(error)),
        }
    }
}

/// The first `at_most` bytes of the regular file at a path of a root, none where there is no such
/// file.
fn read_front<R: Files>(
    rt: &R,
    alloc: Global,
    root: &str,
    path: &str,
    at_most: u64,
) -> io::Result<Option<Vec<u8>>>
    ensures front { IfOk result (λ found. IfSome found (λ bytes.
        IsFront R.File.remaining at_most bytes.items)) }
    ensures within { IfOk result (λ found. IfSome found (λ bytes. length bytes.items ≤ at_most)) }
{
    let place = place_of(alloc, root, path)?;
    if !is_file(rt, place.as_str(), root.is_empty())? {
        return Ok(None);
    }
    let mut file = fs::open(rt, place.as_str())?;
    Ok(Some(front(alloc, &mut file, at_most)?))
}

/// Whether a regular file lies there. A link counts as what it leads to only where links are
/// followed.
fn is_file<R: Files>(rt: &R, place: &str, follows_links: bool) -> io::Result<bool> {
    let found = if follows_links {
        fs::metadata(rt, place)
    } else {
        fs::symlink_metadata(rt, place)
    };
    match found {
        Ok(metadata) => Ok(metadata.is_file()),
        Err(e) if e.kind() == ErrorKind::NotFound => Ok(false),
        Err(e) if e.kind() == ErrorKind::NotADirectory => Ok(false),
        Err(e) => Err(e),
    }
}

#[cfg(test)]
mod tests;
