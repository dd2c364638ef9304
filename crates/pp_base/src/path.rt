//! Parts of a path.

ghost use Rattle.std.specs.Prelude.{◌≡◌};
ghost use Rattle.pp_base.specs.Paths.{last_name};

/// What stands after the last slash of a path: the whole path where it has none, and nothing where it ends in one.
pub fn last_name(path: &[u8]) -> &[u8]
    ensures { result.now ≡ last_name path.now }
{
    let mut start = path.len();
    while start > 0 && path[start - 1] != b'/' {
        start -= 1;
    }
    path.split_at(start).1
}
