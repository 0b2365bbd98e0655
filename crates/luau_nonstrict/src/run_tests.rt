//! Runs of the top call over folders in memory.
use nonstrict_cli::{Limit, Status, nonstrict};
use outside::{
    AskedTree, ChunkSink, List, MemorySink, MemoryTree, Question, Root, Sink, Text, Tree,
};
use std::alloc::Global;
use std::test::Fail;

const FORM: &str = "refused: form not built";

const FAILS: &str = "argument 1 of math.abs always fails";

/// The root `d` with these files, which are in the order of their paths.
fn root(alloc: Global, files: &[(&str, &[u8])]) -> Result<Root, Fail> {
    let mut list = Vec::new(alloc);
    for (path, bytes) in files {
        let path = Text::of(String::from_str(alloc, path)?);
        list.push((path, List::of(Vec::from_slice(alloc, bytes)?)))?;
    }
    let name = Text::of(String::from_str(alloc, "d")?);
    Ok(Root::new(name, List::of(list)).ok_or("not in order")?)
}

/// The root `d` with so many files of so many blanks.
fn blank_root(alloc: Global, count: u32, size: usize) -> Result<Root, Fail> {
    let mut list = Vec::new(alloc);
    for i in 0..count {
        let path = Text::of(format!(in alloc; "m{i:05}.luau")?);
        list.push((path, List::of(vec![in alloc; b' '; size]?)))?;
    }
    let name = Text::of(String::from_str(alloc, "d")?);
    Ok(Root::new(name, List::of(list)).ok_or("not in order")?)
}

/// The status of a run with these words, each followed by a semicolon.
fn status<T: Tree, S: Sink>(
    alloc: Global,
    words: &str,
    tree: &mut T,
    sink: &mut S,
) -> Result<Status, Fail> {
    let mut list = Vec::new(alloc);
    for word in words.split_terminator(';') {
        list.push(String::from_str(alloc, word)?)?;
    }
    Ok(nonstrict(alloc, &list, tree, sink))
}

/// Whether a run with these words over this root, in which these calls of the tree fail, ends so
/// and writes this.
fn gives(
    alloc: Global,
    words: &str,
    root: Root,
    failing: &[u64],
    ends: Status,
    writes: &str,
) -> Result<bool, Fail> {
    let mut tree = MemoryTree::new(vec![in alloc; root]?, Vec::from_slice(alloc, failing)?);
    let mut sink = MemorySink::new(alloc, 4096, 4096, vec![in alloc]?, vec![in alloc]?)?;
    let ended = status(alloc, words, &mut tree, &mut sink)?;
    Ok(ended == ends && sink.written() == writes.as_bytes())
}

/// Whether a run that has one line to write ends as a write fault after so many bytes.
fn breaks_off(
    alloc: Global,
    room: u64,
    per_call: u64,
    failing: &[u64],
    idle: &[u64],
    after: usize,
) -> Result<bool, Fail> {
    let line = b"a.luau:1:10: argument 1 of math.abs always fails\n".as_slice();
    let failing = Vec::from_slice(alloc, failing)?;
    let idle = Vec::from_slice(alloc, idle)?;
    let mut sink = MemorySink::new(alloc, room, per_call.max(1), failing, idle)?;
    let root = root(alloc, &[("a.luau", b"math.abs(\"hi\")".as_slice())])?;
    let mut tree = MemoryTree::new(vec![in alloc; root]?, vec![in alloc]?);
    let ended = status(alloc, "d;", &mut tree, &mut sink)?;
    Ok(ended == Status::WriteFault && Some(sink.written()) == line.get(..after))
}

/// Whether a folder with this text alone ends so, and writes nothing or this of it at a place.
fn tells(alloc: Global, text: &str, ends: Status, place: &str, what: &str) -> Result<bool, Fail> {
    let line = if what.is_empty() {
        String::new(alloc)
    } else {
        format!(in alloc; "a.luau:{place}: {what}\n")?
    };
    let root = root(alloc, &[("a.luau", text.as_bytes())])?;
    gives(alloc, "d;", root, &[], ends, line.as_str())
}

#[test]
fn calls_are_checked(rt: HostRuntime) -> Result<(), Fail> {
    let alloc = rt.alloc();
    for (text, ends, place, what) in [
        ("math.abs(\"hi\")", Status::Reports, "1:10", FAILS),
        ("math.abs(1)", Status::Clean, "", ""),
        ("math.abs(007)", Status::Clean, "", ""),
        ("", Status::Clean, "", ""),
        (" \t\n\r\u{b}\u{c}", Status::Clean, "", ""),
        ("math.abs(1)\nmath.abs(nil)", Status::Reports, "2:10", FAILS),
        ("math.abs(nil)", Status::Reports, "1:10", FAILS),
        ("math.abs(true)", Status::Reports, "1:10", FAILS),
        ("math.abs(false)", Status::Reports, "1:10", FAILS),
        ("math.abs(\"\u{e9}\u{1}'\")", Status::Reports, "1:10", FAILS),
        ("math.abs(\"a\\n\")", Status::Reports, "1:10", FAILS),
        ("math.abs('')", Status::Reports, "1:10", FAILS),
        ("math.abs(0x1F)math.abs(1e5)", Status::Clean, "", ""),
        ("math.abs([[x]]) -- y", Status::Reports, "1:10", FAILS),
        ("\u{feff}math.abs(\"hi\")", Status::Reports, "1:10", FAILS),
        (
            "#!/usr/bin/luau\nmath.abs(\"hi\")",
            Status::Reports,
            "2:10",
            FAILS,
        ),
        (
            "math --[[\n]] . abs --[[]] ( [==[\n]==] )",
            Status::Reports,
            "2:19",
            FAILS,
        ),
        (
            " \t\n\r\u{b}\u{c}math \n.\r\n abs\t\u{b}\u{c}\r ( \n\"\" \n)\n",
            Status::Reports,
            "5:1",
            FAILS,
        ),
        ("math.abs(1);", Status::Clean, "", ""),
        ("math.abs\"hi\"", Status::Reports, "1:9", FAILS),
        ("math.abs\"hi\";", Status::Reports, "1:9", FAILS),
    ] {
        let right = tells(alloc, text, ends, place, what)?;
        assert!(rt; right, "{text:?}");
    }
    Ok(())
}

#[test]
fn other_modules_are_refused(rt: HostRuntime) -> Result<(), Fail> {
    let alloc = rt.alloc();
    for text in [
        "local x",
        "math.abs()",
        "math.abs(nilx)",
        "math.abs(-1)",
        "math.abs(1, 2)",
        "math.abs(`a`)",
        "math.abs{}",
        "math.ab(1)",
        "Math.abs(1)",
        "math:abs(1)",
    ] {
        let right = tells(alloc, text, Status::Refused, "1:1", FORM)?;
        assert!(rt; right, "{text:?}");
    }
    Ok(())
}

#[test]
fn a_fault_is_told_at_its_place(rt: HostRuntime) -> Result<(), Fail> {
    let alloc = rt.alloc();
    for (text, place, what) in [
        ("math.abs\n(1)", "2:1", "refused: ambiguous call"),
        ("math.abs --[[\n]] (1)", "2:4", "refused: ambiguous call"),
        ("f\n(x)", "2:1", "refused: ambiguous call"),
        ("math.abs(1", "1:11", "refused: unexpected end"),
        ("math.abs(1) x", "1:14", "refused: unexpected end"),
        ("local x = (", "1:12", "refused: unexpected end"),
        ("if x then", "1:10", "refused: unexpected end"),
        ("x y", "1:3", "refused: unexpected token"),
        ("x = = 1", "1:5", "refused: unexpected token"),
        ("return 1 2", "1:10", "refused: unexpected token"),
        ("math.abs(\"x", "1:10", "refused: unfinished string"),
        ("math.abs(\"a\nb\")", "1:10", "refused: unfinished string"),
        ("local s = [[a", "1:11", "refused: unfinished string"),
        ("\n --[[", "2:2", "refused: unfinished comment"),
        ("math.abs(\"\\xZ1\")", "1:11", "refused: bad escape"),
        ("math.abs(1x)", "1:10", "refused: bad numeral"),
        ("\u{feff}\u{feff}", "1:1", "refused: stray byte"),
        ("`{{`", "1:2", "refused: interpolation brace"),
    ] {
        let right = tells(alloc, text, Status::Refused, place, what)?;
        assert!(rt; right, "{text:?}");
    }
    Ok(())
}

#[test]
fn a_part_of_a_call_is_refused(rt: HostRuntime) -> Result<(), Fail> {
    let alloc = rt.alloc();
    let whole = b"math . abs ( \"hi\" )".as_slice();
    for len in 1..whole.len() {
        let column = len + 1;
        let line = match len {
            14..=16 => String::from_str(alloc, "a.luau:1:14: refused: unfinished string\n")?,
            _ => format!(in alloc; "a.luau:1:{column}: refused: unexpected end\n")?,
        };
        let root = root(alloc, &[("a.luau", &whole[..len])])?;
        assert!(rt;
            gives(alloc, "d;", root, &[], Status::Refused, line.as_str())?,
            "{len}"
        );
    }
    Ok(())
}

#[test]
fn a_folder_gives_its_lines(rt: HostRuntime) -> Result<(), Fail> {
    let alloc = rt.alloc();
    let one = [("a.luau", b"x".as_slice())];
    let two = [("a.luau", b"x".as_slice()), ("b.luau", b"".as_slice())];
    for (words, files, failing, ends, writes) in [
        (
            "d;",
            [
                ("a.luau", b"math.abs(\"a\")".as_slice()),
                ("b\n.lua", b"x"),
                ("b.luau", b"math.abs(true) math.abs(\"b\")"),
                ("c.txt", b"math.abs(nil)"),
            ]
            .as_slice(),
            [].as_slice(),
            Status::Refused,
            "a.luau:1:10: argument 1 of math.abs always fails\n\
            b?.lua:1:2: refused: unexpected end\n\
            b.luau:1:10: argument 1 of math.abs always fails\n\
            b.luau:1:25: argument 1 of math.abs always fails\n",
        ),
        ("d;", &[], &[], Status::Clean, ""),
        (
            "d;",
            &[
                ("a.lua", b""),
                ("a.lua/b.luau", b""),
                ("a.luau", b"math.abs(nil)"),
                ("b/init.lua", b""),
                ("init.luau", b""),
                ("xinit.lua", b""),
            ],
            &[],
            Status::Refused,
            "a.lua:1:1: refused: repeated module name\n\
            a.luau:1:1: refused: repeated module name\n\
            b/init.lua:1:1: refused: directory module\n\
            init.luau:1:1: refused: directory module\n",
        ),
        ("", &one, &[], Status::Usage, ""),
        (";", &one, &[], Status::Usage, ""),
        ("-x;", &one, &[], Status::Usage, ""),
        ("sample:1;", &one, &[], Status::Usage, ""),
        ("d;d;", &one, &[], Status::Usage, ""),
        ("d;", &two, &[0], Status::ReadFault, ""),
        ("d;", &two, &[1], Status::ReadFault, ""),
        ("d;", &two, &[2], Status::ReadFault, ""),
    ] {
        let right = gives(alloc, words, root(alloc, files)?, failing, ends, writes)?;
        assert!(rt; right, "{words:?} {failing:?}");
    }
    Ok(())
}

#[test]
fn an_output_that_fails_keeps_its_front(rt: HostRuntime) -> Result<(), Fail> {
    let alloc = rt.alloc();
    assert!(rt; breaks_off(alloc, 4096, 8, &[2], &[], 16)?);
    assert!(rt; breaks_off(alloc, 4096, 8, &[], &[1], 8)?);
    assert!(rt; breaks_off(alloc, 48, 4096, &[], &[], 0)?);
    assert!(rt; breaks_off(alloc, 48, 8, &[], &[], 48)?);
    for k in 0..49u64 {
        assert!(rt; breaks_off(alloc, 4096, 1, &[k], &[], k as usize)?, "{k}");
    }
    Ok(())
}

#[test]
fn limits_are_told_with_their_numbers(rt: HostRuntime) -> Result<(), Fail> {
    let alloc = rt.alloc();
    // The first read fails where it is made, which tells that none is past the limit on files.
    for (count, size, failing, ends, writes) in [
        (64u32, 1_048_576usize, [].as_slice(), Status::Clean, ""),
        (
            65,
            1_048_576,
            &[],
            Status::TooLarge(Limit::Bytes(68_157_440)),
            "",
        ),
        (10_000, 0, &[], Status::Clean, ""),
        (
            10_001,
            0,
            &[1u64],
            Status::TooLarge(Limit::Files(10_001)),
            "",
        ),
        (1, 1_048_576, &[], Status::Clean, ""),
        (
            1,
            1_048_577,
            &[],
            Status::Refused,
            "m00000.luau:1:1: refused: file too large\n",
        ),
    ] {
        let right = gives(
            alloc,
            "d;",
            blank_root(alloc, count, size)?,
            failing,
            ends,
            writes,
        )?;
        assert!(rt; right, "{count} {size}");
    }
    Ok(())
}

/// Whether a question is a read of this path of the root `d`.
fn reads(question: &Question, wanted: &str) -> bool {
    match question {
        Question::Read(root, path, 1_048_577) => root.as_str() == "d" && path.as_str() == wanted,
        _ => false,
    }
}

#[test]
fn a_folder_is_listed_once_and_each_write_is_given_the_rest(rt: HostRuntime) -> Result<(), Fail> {
    let alloc = rt.alloc();
    let files = [
        ("a.luau", b"math.abs(\"hi\")".as_slice()),
        ("b.txt", b""),
        ("c.lua", b""),
    ];
    let mut tree = AskedTree::new(alloc, vec![in alloc; root(alloc, &files)?]?);
    let mut sink = ChunkSink::new(alloc, 20);
    let ended = status(alloc, "d;", &mut tree, &mut sink)?;
    assert_eq!(rt; ended, Status::Reports);
    assert_eq!(rt; sink.chunks().len(), 3);
    for (chunk, rest) in sink.chunks().iter().zip([
        "a.luau:1:10: argument 1 of math.abs always fails\n",
        "t 1 of math.abs always fails\n",
        "ys fails\n",
    ]) {
        assert_eq!(rt; chunk.as_slice(), rest.as_bytes());
    }
    let [Question::List(listed), first, second] = tree.questions() else {
        return Err(Fail::from("other questions"));
    };
    assert_eq!(rt; listed.as_str(), "d");
    assert!(rt; reads(first, "a.luau") && reads(second, "c.lua"));
    Ok(())
}
