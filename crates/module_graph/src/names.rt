//! The module that a require's text means.
ghost use Rattle.std.specs.Prelude.{◌≡◌, ◌≤◌, ℕ, List, Some, None, AllPairs, IfOk, Option, option_map, if◌then◌else◌, map, length, ◌^◌};
ghost use Rattle.std.specs.List.{join_with_byte, position};
ghost use Rattle.std.specs.Str.{bytes_eq};
ghost use Rattle.std.specs.Ordering.{nat_cmp};
ghost use Rattle.std.specs.Cmp.Lexicographic.{slice_cmp};
ghost use Rattle.module_graph.specs.Names.{parts as parts_of, without_last, step as step_to, walk as walk_to, file_named as first_named, file_from, AreOrdered};

use crate::needs::ModuleNeeds;
use std::alloc::{AllocError, Global};
use std::cmp::Ordering;

/// The parts between the slashes of a text.
fn parts<'a>(alloc: Global, text: &'a [u8]) -> Result<Vec<&'a [u8]>, AllocError>
    ensures { IfOk result (λ list. map (λ part. part.now) list.items ≡ parts_of text.now) }
{
    text.split(|byte| *byte == b'/').collect(alloc)
}

/// The parts of a file's folder.
pub fn folder_of<'a>(alloc: Global, path: &'a [u8]) -> Result<Vec<&'a [u8]>, AllocError>
    ensures { IfOk result (λ here. map (λ part. part.now) here.items ≡ without_last (parts_of path.now)) }
{
    let mut here = parts(alloc, path)?;
    here.pop();
    Ok(here)
}

/// Goes where a part leads, or answers `false` where it leads nowhere.
fn step<'a>(here: &mut Vec<&'a [u8]>, part: &'a [u8]) -> Result<bool, AllocError>
    ensures { IfOk result (λ goes. step_to (map (λ p. p.now) here.old.items) part.now ≡ (if goes then Some (map (λ p. p.now) here.new.items) else None)) }
{
    if part.is_empty() {
        return Ok(false);
    }
    if part == b".".as_slice() {
        return Ok(true);
    }
    if part == b"..".as_slice() {
        return Ok(here.pop().is_some());
    }
    here.push(part)?;
    Ok(true)
}

/// Goes where some parts lead, or answers `false` where they lead nowhere.
fn walk<'a>(here: &mut Vec<&'a [u8]>, parts: &[&'a [u8]]) -> Result<bool, AllocError>
    ensures { IfOk result (λ goes. walk_to (map (λ p. p.now) here.old.items) (map (λ p. p.now) parts.now) ≡ (if goes then Some (map (λ p. p.now) here.new.items) else None)) }
{
    for part in parts {
        if !step(here, part)? {
            return Ok(false);
        }
    }
    Ok(true)
}

/// Some parts with a slash between each two.
fn joined(alloc: Global, parts: &[&[u8]]) -> Result<Vec<u8>, AllocError>
    ensures { IfOk result (λ name. name.items ≡ join_with_byte 47 (map (λ p. p.now) parts.now)) }
{
    let mut name = Vec::new(alloc);
    for (i, part) in parts.iter().enumerate() {
        if i > 0 {
            name.push(b'/')?;
        }
        name.extend_from_slice(part)?;
    }
    Ok(name)
}

/// How a file's path compares with another path.
pub fn path_cmp(file: &ModuleNeeds, path: &[u8]) -> Ordering
    ensures { result ≡ slice_cmp nat_cmp file.now.path path.now }
{
    file.path.as_slice().cmp(path)
}

/// The file with this path.
fn file_at(files: &[ModuleNeeds], path: &[u8]) -> Option<usize>
    requires { AreOrdered files.now }
    ensures { result ≡ position (λ file. bytes_eq file.path path.now) files.now }
{
    files.binary_search_by(|file| path_cmp(file, path)).ok()
}

/// The first file with a name.
fn file_named(files: &[ModuleNeeds], name: Vec<u8>) -> Result<Option<usize>, AllocError>
    requires { AreOrdered files.now }
    ensures { IfOk result (λ found. found ≡ first_named files.now name.items) }
{
    let mut path = name;
    path.extend_from_slice(b".lua")?;
    if let Some(found) = file_at(files, &path) {
        return Ok(Some(found));
    }
    path.push(b'u')?;
    Ok(file_at(files, &path))
}

/// The file that a text means from a folder, if any. Files are at most 4,294,967,296.
pub fn meant_file<'a>(
    alloc: Global,
    files: &[ModuleNeeds],
    folder: &[&'a [u8]],
    text: &'a [u8],
) -> Result<Option<u32>, AllocError>
    requires ordered { AreOrdered files.now }
    requires few { length files.now ≤ 2 ^ 32 }
    ensures { IfOk result (λ found. found ≡ file_from files.now (map (λ part. part.now) folder.now) text.now) }
{
    let mut here = Vec::from_slice(alloc, folder)?;
    let steps = parts(alloc, text)?;
    if !walk(&mut here, &steps)? {
        return Ok(None);
    }
    let name = joined(alloc, &here)?;
    match file_named(files, name)? {
        None => Ok(None),
        Some(found) => Ok(Some(found as u32)),
    }
}
