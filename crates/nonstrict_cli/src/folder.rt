//! Reads the modules of a folder and gathers their lines.
ghost use Rattle.std.specs.Prelude.{◌≡◌, ◌≢◌, ◌+◌, ◌<◌, ◌≤◌, ◌++◌, ◌∷◌, [], None, Some, IfOk, IfSome, IsSome, OnOk};
ghost use Rattle.std.specs.List.Sorted.{IsSorted};
ghost use Rattle.luau_tree.specs.Sorted.{bytes_cmp};
ghost use Rattle.outside.specs.Cause.{Rose};
ghost use Rattle.outside.specs.Contents.{file_at};
ghost use Rattle.outside.specs.Written.{Appends};
ghost use Rattle.nonstrict_cli.specs.declared.status.Limit.{Limit};
ghost use Rattle.nonstrict_cli.specs.Asked.{asked_for, reading_of};
ghost use Rattle.nonstrict_cli.specs.Fate.{fate_of};
ghost use Rattle.nonstrict_cli.specs.Folder.{limit_of, size_read, source};
ghost use Rattle.nonstrict_cli.specs.Lines.{lines_for, lines_of};
ghost use Rattle.nonstrict_cli.specs.Written.{AppendsFront};

use crate::fate::fate_of;
use crate::lines::push_lines;
use crate::paths::{as_bytes, modules_among};
use crate::stop::Stop;
use crate::{Limit, MAX_FILES, MAX_READ, MAX_TOTAL};
use diag_text::{Line, sort_lines};
use luau_tree::Bytes;
use outside::Tree;
use std::alloc::Global;

/// Reads a file, adds its size to the sum of all sizes so far, and its lines to all lines so far.
#[tactic(auto, using(crate::proofs::Fates::lines_by_found))]
fn add_file<T: Tree>(
    alloc: Global,
    tree: &mut T,
    folder: &str,
    paths: &[Bytes],
    path: &str,
    total: &mut u64,
    lines: &mut Vec<Line>,
) -> Result<(), Stop>
    requires order { IsSorted bytes_cmp paths.now }
    requires within { total.old ≤ MAX_TOTAL }
    ensures lines { OnOk result (IfSome (T.contents tree.old) (λ told.
        let fate = fate_of paths.now path.now (source (told folder.now) path.now) in
        lines.new.items ≡ lines.old.items ++ lines_for path.now fate)) }
    ensures total { OnOk result (IfSome (T.contents tree.old) (λ told.
        total.new ≡ total.old + size_read (told folder.now) path.now)) }
    ensures within { OnOk result (total.new ≤ MAX_TOTAL) }
    ensures too_large { (limit : Limit) → result ≡ Err (Stop.TooLarge limit) →
        IfSome (T.contents tree.old) (λ told.
        let sum = total.old + size_read (told folder.now) path.now in
        (limit ≡ Limit.Bytes sum) × (MAX_TOTAL < sum)) }
    ensures asked { Appends (T.asked tree.old) (T.asked tree.new)
        (reading_of folder.now path.now ∷ []) }
    ensures read_fault { result ≡ Err Stop.ReadFault →
        IfSome (T.contents tree.old) (λ told. IsSome (file_at (told folder.now) path.now)) →
        Rose (T.faults tree.old) (T.faults tree.new) }
    ensures quiet { result ≢ Err Stop.ReadFault → T.faults tree.new ≡ T.faults tree.old }
    ensures no_usage { result ≢ Err Stop.Usage }
    ensures same { T.contents tree.new ≡ T.contents tree.old }
{
    let bytes = tree.read(alloc, folder, path, MAX_READ)?;
    *total += bytes.len() as u64;
    if *total > MAX_TOTAL {
        return Err(Stop::TooLarge(Limit::Bytes(*total)));
    }
    let fate = fate_of(alloc, paths, path, &bytes)?;
    push_lines(alloc, path, &fate, lines)?;
    Ok(())
}

/// The lines of a folder, or why there are none. It asks the tree once for the folder's files, and
/// then once for each module in order, and stops where the folder passes a limit.
pub(crate) fn folder_lines<T: Tree>(
    alloc: Global,
    tree: &mut T,
    folder: &str,
) -> Result<Vec<Line>, Stop>
    ensures within { OnOk result (IfSome (T.contents tree.old) (λ told.
        limit_of (told folder.now) ≡ None)) }
    ensures lines { IfOk result (λ lines. IfSome (T.contents tree.old) (λ told.
        lines.items ≡ lines_of (told folder.now))) }
    ensures too_large { (limit : Limit) → result ≡ Err (Stop.TooLarge limit) →
        IfSome (T.contents tree.old) (λ told. limit_of (told folder.now) ≡ Some limit) }
    ensures asked { IfSome (T.contents tree.old) (λ told.
        AppendsFront (T.asked tree.old) (T.asked tree.new) (asked_for (Some folder.now) told)) }
    ensures asked_all { result ≢ Err Stop.ReadFault → result ≢ Err Stop.NoMemory →
        IfSome (T.contents tree.old) (λ told.
        Appends (T.asked tree.old) (T.asked tree.new) (asked_for (Some folder.now) told)) }
    ensures read_fault { result ≡ Err Stop.ReadFault →
        Rose (T.faults tree.old) (T.faults tree.new) }
    ensures quiet { result ≢ Err Stop.ReadFault → T.faults tree.new ≡ T.faults tree.old }
    ensures no_usage { result ≢ Err Stop.Usage }
    ensures same { T.contents tree.new ≡ T.contents tree.old }
{
    let paths = modules_among(alloc, tree.list(alloc, folder)?)?;
    if paths.len() > MAX_FILES {
        return Err(Stop::TooLarge(Limit::Files(paths.len() as u64)));
    }
    let listed = as_bytes(alloc, &paths)?;
    let mut total = 0;
    let mut lines = Vec::new(alloc);
    for path in &paths {
        add_file(
            alloc,
            tree,
            folder,
            &listed,
            path.as_str(),
            &mut total,
            &mut lines,
        )?;
    }
    Ok(sort_lines(lines)?)
}
