//! Where the source of a file is looked for.
ghost use Rattle.std.specs.Prelude.{◌≡◌, ◌++◌, ◌∷◌, [], codes, map, Bool, if◌then◌else◌, IfOk};
ghost use Rattle.std.specs.Option.{option_copied};
ghost use Rattle.pp_source.specs.Paths.{after_front, path_entries, from_name, is_absolute, paths_of, paths_to_try, without_folder, in_each_folder, in_folder};

use pp_base::{List, Memory, Text};
use std::alloc::Global;

/// The paths at which the source of the file is looked for, in order. `source_path` and `trim_path` are folders joined
/// by colons, of which empty ones are passed over.
///
/// The first folder of `trim_path` that the file lies in is taken off. A file from the root that lies in none is looked
/// for as it is. What is left, without slashes at its front, is looked for in each folder of `source_path`; where there
/// is none, alone, but for a file from the root that nothing was taken off.
pub fn paths_to_try(
    alloc: Global,
    source_path: &[u8],
    trim_path: &[u8],
    file: &[u8],
) -> Result<List<Text>, Memory>
    ensures { IfOk result (λ paths. paths ≡ paths_to_try source_path.now trim_path.now file.now) }
{
    let folders = entries(alloc, source_path)?;
    let trims = entries(alloc, trim_path)?;
    let rest = trimmed(file, &trims);
    paths_of(alloc, &folders, file, rest)
}

// The entries of a list of paths, without those that are empty.
fn entries<'a>(alloc: Global, text: &'a [u8]) -> Result<Vec<&'a [u8]>, Memory>
    ensures { IfOk result (λ found. map (λ entry. entry.now) found.items ≡ path_entries text.now) }
{
    let mut found = Vec::new(alloc);
    for entry in text.split(|b| *b == b':') {
        if !entry.is_empty() {
            found.push(entry)?;
        }
    }
    Ok(found)
}

// What the first of the folders that the file lies in leaves of its path.
fn trimmed<'a>(file: &'a [u8], folders: &[&[u8]]) -> Option<&'a [u8]>
    ensures { option_copied result ≡ without_folder file.now (map (λ folder. folder.now) folders.now) }
{
    for folder in folders {
        let rest = after_folder(file, folder);
        if rest.is_some() {
            return rest;
        }
    }
    None
}

// What stands after the folder and a slash, where the file's path begins so.
fn after_folder<'a>(file: &'a [u8], folder: &[u8]) -> Option<&'a [u8]>
    ensures { option_copied result ≡ after_front (folder.now ++ codes "/") file.now }
{
    match file.strip_prefix(folder) {
        None => None,
        Some(rest) => rest.strip_prefix(b"/".as_slice()),
    }
}

// The paths of a file of which the front was taken off, or else of the whole file.
fn paths_of(
    alloc: Global,
    folders: &[&[u8]],
    file: &[u8],
    rest: Option<&[u8]>,
) -> Result<List<Text>, Memory>
    ensures { IfOk result (λ paths. paths
        ≡ paths_of (map (λ folder. folder.now) folders.now) file.now (option_copied rest.entry)) }
{
    let mut paths = List::new(alloc);
    let (path, alone) = match rest {
        Some(rest) => (rest, true),
        None => (file, !is_absolute(file)),
    };

    // A file from the root that nothing was taken off.
    if !alone {
        push_path(alloc, file, &mut paths)?;
    }
    put_under(alloc, folders, from_name(path), alone, &mut paths)?;
    Ok(paths)
}

// Whether the path is one from the root.
fn is_absolute(path: &[u8]) -> bool
    ensures { result ≡ is_absolute path.now }
{
    match path {
        [] => false,
        [first, ..] => *first == b'/',
    }
}

// The path without the slashes at its front.
fn from_name(path: &[u8]) -> &[u8]
    ensures { result.now ≡ from_name path.now }
{
    let mut rest = path;
    while let [b'/', after @ ..] = rest {
        rest = after;
    }
    rest
}

// Adds the path in each of the folders. Where there is none, it is added as it is, if it may stand alone.
fn put_under(
    alloc: Global,
    folders: &[&[u8]],
    path: &[u8],
    alone: bool,
    paths: &mut List<Text>,
) -> Result<(), Memory>
    ensures { IfOk result (λ _. paths.new ≡ paths.old
        ++ in_each_folder (map (λ folder. folder.now) folders.now) path.now
        (if alone then path.now ∷ [] else [])) }
{
    if folders.is_empty() {
        if alone {
            push_path(alloc, path, paths)?;
        }
        return Ok(());
    }
    for folder in folders {
        paths.push(in_folder(alloc, folder, path)?)?;
    }
    Ok(())
}

// Adds a copy of the path.
fn push_path(alloc: Global, path: &[u8], paths: &mut List<Text>) -> Result<(), Memory>
    ensures { IfOk result (λ _. paths.new ≡ paths.old ++ path.now ∷ []) }
{
    let copy = Text::from_slice(alloc, path)?;
    paths.push(copy)
}

// The path in the folder.
fn in_folder(alloc: Global, folder: &[u8], path: &[u8]) -> Result<Text, Memory>
    ensures { IfOk result (λ whole. whole ≡ in_folder path.now folder.now) }
{
    let mut whole = Text::from_slice(alloc, folder)?;
    whole.extend(b"/")?;
    whole.extend(path)?;
    Ok(whole)
}
