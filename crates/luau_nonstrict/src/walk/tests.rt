use super::*;
use std::alloc::Allocator;
use std::fs::{File, Metadata, OpenOptions};
use std::test::Fail;

/// Folders that all hold the same names, each ended by a zero byte. A name that ends in `d` is a
/// folder's.
#[derive(Clone, Copy)]
struct Names(&'static [u8]);

fn refused<T>() -> io::Result<T> {
    Err(io::Error::from(io::ErrorKind::Unsupported))
}

impl Files for Names {
    type File = File;

    type Dir = &'static [u8];

    fn open_file(&self, _how: &OpenOptions, _path: &str) -> io::Result<File> {
        refused()
    }

    fn open_dir(&self, _path: &str) -> io::Result<&'static [u8]> {
        Ok(self.0)
    }

    fn metadata(&self, path: &str) -> io::Result<Metadata> {
        self.symlink_metadata(path)
    }

    fn symlink_metadata(&self, path: &str) -> io::Result<Metadata> {
        if path.ends_with('d') {
            Ok(Metadata::of_dir())
        } else {
            Ok(Metadata::of_file(0))
        }
    }

    fn copy(&self, _from: &str, _to: &str) -> io::Result<u64> {
        refused()
    }

    fn rename(&self, _from: &str, _to: &str) -> io::Result<()> {
        refused()
    }

    fn remove_file(&self, _path: &str) -> io::Result<()> {
        refused()
    }

    fn create_dir(&self, _path: &str) -> io::Result<()> {
        refused()
    }

    fn remove_dir(&self, _path: &str) -> io::Result<()> {
        refused()
    }

    fn remove_dir_all<B: Allocator>(&self, _alloc: B, _path: &str) -> io::Result<()> {
        refused()
    }
}

#[test]
fn a_walk_ends_at_a_bad_name_and_after_its_turns(rt: HostRuntime) -> Result<(), Fail> {
    for (names, turns, files) in [
        (b"".as_slice(), 1, Some(0)),
        (b"".as_slice(), 0, None),
        (b"b\0a\0".as_slice(), 3, Some(2)),
        (b"b\0a\0".as_slice(), 2, None),
        (b"a\0.d\0".as_slice(), 3, Some(1)),
        (b"a\0\xff\0".as_slice(), 1000, None),
        (b"a\0d\0".as_slice(), 1000, None),
    ] {
        let listed = list_files(&(Names(names), rt.alloc()), rt.alloc(), "root", turns);
        assert_eq!(rt;
            listed.ok().map(|paths| paths.len()),
            files,
            "{names:?} {turns}"
        );
    }
    Ok(())
}
