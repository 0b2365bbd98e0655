//! The forms in memory at work: what is planned to fail fails, and what isn't is told.
use outside::{
    List, MemorySink, MemoryTree, Root, Sink, SinkFailed, SureSink, SureTree, Text, Tree, TreeError,
};
use std::alloc::Global;
use std::test::Fail;

/// The root `d` of files of three bytes at these paths, where they are in order.
fn root(alloc: Global, paths: &[&str]) -> Result<Option<Root>, Fail> {
    let mut files = Vec::new(alloc);
    for path in paths {
        let path = Text::of(String::from_str(alloc, path)?);
        files.push((path, List::of(Vec::from_slice(alloc, b"abc")?)))?;
    }
    let name = Text::of(String::from_str(alloc, "d")?);
    Ok(Root::new(name, List::of(files)))
}

/// Whether a file of the root `d` is read as these bytes.
fn reads<T: Tree>(
    alloc: Global,
    tree: &mut T,
    path: &str,
    at_most: u64,
    wanted: Result<&[u8], TreeError>,
) -> bool {
    match tree.read(alloc, "d", path, at_most) {
        Ok(bytes) => Ok(bytes.as_slice()) == wanted,
        Err(error) => Err(error) == wanted,
    }
}

#[test]
fn trees_tell_paths_and_bytes_and_fail_as_planned(rt: HostRuntime) -> Result<(), Fail> {
    let alloc = rt.alloc();
    assert!(rt; root(alloc, &["b.luau", "a.luau"])?.is_none());
    assert!(rt; root(alloc, &["a.luau", "a.luau"])?.is_none());
    let files = root(alloc, &["a.luau", "b/c.luau"])?.ok_or("not in order")?;
    let mut tree = SureTree::new(vec![in alloc; files]?);
    let paths = tree.list(alloc, "d")?;
    assert_eq!(rt; paths.len(), 2);
    assert_eq!(rt; paths[1].as_str(), "b/c.luau");
    assert_eq!(rt; tree.list(alloc, "e")?.len(), 0);
    assert!(rt; reads(alloc, &mut tree, "a.luau", 2, Ok(b"ab".as_slice())));
    assert!(rt; reads(alloc, &mut tree, "b/c.luau", 9, Ok(b"abc".as_slice())));
    assert!(rt; reads(alloc, &mut tree, "none", 9, Err(TreeError::Absent)));

    let files = root(alloc, &["a.luau"])?.ok_or("not in order")?;
    let mut tree = MemoryTree::new(vec![in alloc; files]?, vec![in alloc; 0u64, 2]?);
    assert!(rt; matches!(tree.list(alloc, "d"), Err(TreeError::Failed)));
    assert!(rt; reads(alloc, &mut tree, "a.luau", 9, Ok(b"abc".as_slice())));
    assert!(rt; reads(alloc, &mut tree, "a.luau", 9, Err(TreeError::Failed)));
    assert!(rt; reads(alloc, &mut tree, "none", 9, Err(TreeError::Absent)));
    Ok(())
}

#[test]
fn sinks_take_chunks_and_fail_as_planned(rt: HostRuntime) -> Result<(), Fail> {
    let alloc = rt.alloc();
    let mut sink = MemorySink::new(alloc, 6, 4, vec![in alloc; 1u64]?, vec![in alloc; 2u64]?)?;
    for (chunk, answer) in [
        ("abcdef", Ok(4)),
        ("ef", Err(SinkFailed)),
        ("ef", Ok(0)),
        ("ef", Ok(2)),
        ("g", Err(SinkFailed)),
    ] {
        assert!(rt; sink.write(chunk.as_bytes()) == answer);
    }
    assert_eq!(rt; sink.written(), b"abcdef".as_slice());

    let mut sink = SureSink::new(Vec::from_slice(alloc, b"abcd")?);
    for (chunk, complete) in [("ab", false), ("cd", true), ("e", false)] {
        assert!(rt; sink.write(chunk.as_bytes()) == Ok(chunk.len()));
        assert!(rt; sink.is_complete() == complete);
    }
    Ok(())
}
