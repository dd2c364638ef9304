//! The folded report.
ghost use Rattle.std.specs.Prelude.{◌≡◌, ◌++◌, ℕ, map, All, Option, IfOk, OnOk, OnErr};
ghost use Rattle.std.specs.List.{flat_map};
ghost use Rattle.pp_model.specs.declared.config.Config.{Config};
ghost use Rattle.pp_model.specs.declared.verdicts.Verdicts.{Verdicts};
ghost use Rattle.pp_model.specs.Finders.{Finders};
ghost use Rattle.pp_grain.specs.Keys.{IsKeyOf};
ghost use Rattle.pp_count.specs.Seeing.{HoldsFilters};
ghost use Rattle.pp_count.specs.Table.{key_numbered, written_key};
ghost use Rattle.pp_calltree.specs.CallPaths.{path_written, ArePathsOf, HasKeysOf};
ghost use Rattle.pp_export.specs.Folded.{folded_text, names_joined, path_line};
ghost use Rattle.pp_export.specs.PathNames.{numbered_name, ArePathNames};

use crate::path_names::PathNames;
use itoa::Buffer;
use pp_base::{Memory, Text};
use pp_calltree::{PathSum, PathSums};
use pp_grain::Names;
use pp_model::Loaded;
use std::alloc::Global;

/// Appends the folded report, which programs for flame graphs read: a line for each path of the tree whose own sum
/// isn't 0, parents before children. A line is the names of the path's keys, root first and joined by `;`, a space and
/// the sum. The sum is in decimal, in the unit of the sample type. A `;` in a name is written `:`, and a line feed or
/// carriage return as a space. `Err` is want of memory, and `out` is then as it was.
pub fn write_folded(alloc: Global, l: &Loaded, t: &PathSums, out: &mut Text) -> Result<(), Memory>
    requires { All (HasKeysOf l.now.profile t.now.names.now) t.now.paths.items }
    ensures ok { (v : Verdicts) (config : Config) (column : Option ℕ) (f : Finders) →
        ArePathsOf l.now v config column t.now.names.now t.now.paths.items →
        HoldsFilters l.now v config.filtering f →
        OnOk result (out.new ≡ out.old ++ folded_text l.now.profile f config column) }
    ensures err { OnErr result (out.new ≡ out.old) }
{
    let mut text = Text::new(alloc);
    put_paths(alloc, l, t.names, &t.paths, &mut text)?;
    out.append(text)
}

// The lines of the paths.
fn put_paths(
    alloc: Global,
    l: &Loaded,
    names: &Names,
    paths: &[PathSum],
    out: &mut Text,
) -> Result<(), Memory>
    requires { All (HasKeysOf l.now.profile names.now) paths.now }
    ensures { IfOk result (λ _. out.new ≡ out.old
        ++ flat_map path_line (map (path_written l.now.profile names.now) paths.now)) }
{
    let mut path_names = PathNames::new(alloc);
    for path in paths {
        put_line(l, names, path, &mut path_names, out)?;
    }
    Ok(())
}

fn put_line(
    l: &Loaded,
    names: &Names,
    path: &PathSum,
    path_names: &mut PathNames,
    out: &mut Text,
) -> Result<(), Memory>
    requires keys { HasKeysOf l.now.profile names.now path.now }
    requires names { ArePathNames (numbered_name l.now.profile names.now) path_names.old }
    ensures names { IfOk result (λ _.
        ArePathNames (numbered_name l.now.profile names.now) path_names.new) }
    ensures line { IfOk result (λ _.
        out.new ≡ out.old ++ path_line (path_written l.now.profile names.now path.now)) }
{
    put_keys(l, names, path.keys, path_names, out)?;
    out.extend(b" ")?;
    out.extend(Buffer::new().format(path.sum).as_bytes())?;
    out.extend(b"\n")
}

// The names of the keys, joined by `;`.
fn put_keys(
    l: &Loaded,
    names: &Names,
    keys: &[u32],
    path_names: &mut PathNames,
    out: &mut Text,
) -> Result<(), Memory>
    requires keys { All (λ k. IsKeyOf l.now.profile (key_numbered names.now k)) keys.now }
    requires names { ArePathNames (numbered_name l.now.profile names.now) path_names.old }
    ensures names { IfOk result (λ _.
        ArePathNames (numbered_name l.now.profile names.now) path_names.new) }
    ensures keys { IfOk result (λ _. out.new
        ≡ out.old ++ names_joined (map (written_key l.now.profile names.now) keys.now)) }
{
    let start = out.len();
    for key in keys {
        path_names.put_name(l, names, *key, out)?;
    }
    let end = out.len().saturating_sub(1).max(start);
    out.truncate(end);
    Ok(())
}
