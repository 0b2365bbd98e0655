use super::*;
use std::fs;
use std::test::Fail;

/// The folder that a test makes, where it runs, and removes.
const LISTED: &str = "folder_tree_listed";

const READ: &str = "folder_tree_read";

/// What a folder of the file system may hold: folders, hidden ones too, files with odd names, and
/// links.
fn make(rt: &HostRuntime, base: &str) -> Result<(), Fail> {
    let alloc = rt.alloc();
    let _ = fs::remove_dir_all(rt, base);
    for folder in ["deep/er/empty", ".hidden/more", "deep/.git"] {
        fs::create_dir_all(rt, place_of(alloc, base, folder)?.as_str())?;
    }
    for (file, text) in [
        ("deep.luau", "0123456789"),
        ("deep-er.luau", ""),
        ("deep/er/end.lua", "end"),
        (".file.luau", "hidden"),
        (".hidden/a.luau", "no"),
        ("deep/.git/b.luau", "no"),
        ("odd \n\té\"'\\.luau", "odd"),
    ] {
        fs::write(rt, place_of(alloc, base, file)?.as_str(), text)?;
    }
    for (to, link) in [("deep", "folder_link"), ("deep.luau", "link.luau")] {
        rt.symlink(to, place_of(alloc, base, link)?.as_str())?;
    }
    Ok(())
}

#[test]
fn lists_regular_files_in_order(rt: HostRuntime) -> Result<(), Fail> {
    make(&rt, LISTED)?;
    let mut tree = FolderTree::new(&rt);
    let paths = tree.list(rt.alloc(), LISTED)?;
    let wanted = [
        ".file.luau",
        "deep-er.luau",
        "deep.luau",
        "deep/er/end.lua",
        "odd \n\té\"'\\.luau",
    ];
    assert_eq!(rt; paths.len(), wanted.len());
    for (path, want) in paths.iter().zip(wanted) {
        assert_eq!(rt; path.as_str(), want);
    }
    let through_a_link = tree.list(rt.alloc(), "folder_tree_listed/folder_link")?;
    assert_eq!(rt; through_a_link.len(), 1);
    assert_eq!(rt; through_a_link[0].as_str(), "er/end.lua");
    assert_eq!(rt; tree.faults.count, 0);
    for no_folder in ["folder_tree_listed/none", "folder_tree_listed/deep.luau"] {
        let answer = tree.list(rt.alloc(), no_folder);
        assert!(rt; matches!(answer, Err(TreeError::Failed)), "{no_folder}");
    }
    assert_eq!(rt; tree.faults.count, 2);
    fs::remove_dir_all(&rt, LISTED)?;
    Ok(())
}

#[test]
fn reads_the_front_of_a_file(rt: HostRuntime) -> Result<(), Fail> {
    make(&rt, READ)?;
    let mut tree = FolderTree::new(&rt);
    for (root, path, at_most, want) in [
        (READ, "deep.luau", 4, "0123"),
        (READ, "deep.luau", 10, "0123456789"),
        (READ, "deep.luau", u64::MAX, "0123456789"),
        (READ, "deep.luau", 0, ""),
        (READ, "deep-er.luau", 5, ""),
        (READ, "deep/er/end.lua", 11, "end"),
        (READ, "odd \n\té\"'\\.luau", 3, "odd"),
        ("", "folder_tree_read/deep/er/end.lua", 2, "en"),
        ("", "folder_tree_read/link.luau", 2, "01"),
    ] {
        let bytes = tree.read(rt.alloc(), root, path, at_most)?;
        assert_eq!(rt; bytes.as_slice(), want.as_bytes(), "{path}");
    }
    assert_eq!(rt; tree.faults.count, 0);
    for path in [
        "none",
        "none/none",
        "deep.luau/none",
        "deep",
        "link.luau",
        "",
    ] {
        let before = tree.faults.count;
        let answer = tree.read(rt.alloc(), READ, path, 9);
        assert!(rt; matches!(answer, Err(TreeError::Absent)), "{path}");
        assert!(rt; tree.faults.count > before, "{path}");
    }
    fs::remove_dir_all(&rt, READ)?;
    Ok(())
}
