//! Which frames count, and the key of a frame.
ghost use Rattle.std.specs.Prelude.{◌≡◌, ◌<◌, [], length};
ghost use Rattle.pp_model.specs.declared.grouping.Grain.TheVariants.{Lines};
ghost use Rattle.pp_model.specs.Conditions.{IsFrameOf};
ghost use Rattle.pp_model.specs.Lookup.{text_at};
ghost use Rattle.pp_model.specs.FrameTexts.{written};
ghost use Rattle.pp_grain.specs.Keys.{frame_counts, kept_by, is_nameless, key_texts, key_written, IsKeyOf};

use crate::key::Key;
use crate::texts::text;
use pp_model::{
    Frame, Grain, Loaded, Profile, Stack, address_of, column_in, file_of, function_of, line_of,
    object_of,
};

const NOTHING: Key = Key {
    function: 0,
    file: 0,
    line: 0,
    column: 0,
    address: 0,
    object: 0,
};

/// Whether the frame at `i` counts, where 0 is the leaf. With `noinlines` only the last frame of each
/// place does, the one that the others of the place were inlined into.
pub fn counted(stack: &Stack, i: usize, noinlines: bool) -> bool
    requires { i < length stack.now }
    ensures { result ≡ frame_counts stack.now i noinlines }
{
    if !noinlines {
        return true;
    }
    let frames = stack.as_slice();
    match frames.get(i + 1) {
        Some(next) => next.place != frames[i].place,
        None => true,
    }
}

/// The key of the frame: what the grain keeps of it. Only lines and addresses have columns.
pub fn key_of(l: &Loaded, f: &Frame, grain: Grain, showcolumns: bool) -> Key
    requires { IsFrameOf l.now.profile f.now }
    ensures texts { key_written l.now.profile result
        ≡ key_texts grain showcolumns (written l.now.profile f.now) }
    ensures of_profile { IsKeyOf l.now.profile result }
{
    let key = kept_by(l, f, grain, showcolumns);
    if is_nameless(l.profile.get(), &key) {
        Key {
            object: object_of(l, f),
            ..key
        }
    } else {
        key
    }
}

// Whether the key has neither a function, nor a file, nor a line.
fn is_nameless(p: &Profile, key: &Key) -> bool
    requires { IsKeyOf p.now key.now }
    ensures same { result ≡ is_nameless (key_written p.now key.now) }
{
    text(p, key.function).is_empty() && text(p, key.file).is_empty() && key.line == 0
}

// What the grain keeps, but for the object. Text 0, which stands for what isn't kept, is empty.
fn kept_by(l: &Loaded, f: &Frame, grain: Grain, showcolumns: bool) -> Key
    requires { IsFrameOf l.now.profile f.now }
    ensures texts { text_at l.now.profile 0 ≡ [] →
        key_written l.now.profile result ≡ kept_by grain showcolumns (written l.now.profile f.now) }
    ensures of_profile { IsKeyOf l.now.profile result }
{
    match grain {
        Grain::Functions => Key {
            function: function_of(l, f),
            ..NOTHING
        },
        Grain::FileFunctions => Key {
            function: function_of(l, f),
            file: file_of(l, f),
            ..NOTHING
        },
        Grain::Files => Key {
            file: file_of(l, f),
            ..NOTHING
        },
        Grain::Lines => line_key(l, f, 0, showcolumns),
        Grain::Addresses => line_key(l, f, address_of(l, f), showcolumns),
    }
}

// The key with line and column, and with this address.
fn line_key(l: &Loaded, f: &Frame, address: u64, showcolumns: bool) -> Key
    requires { IsFrameOf l.now.profile f.now }
    ensures texts { text_at l.now.profile 0 ≡ [] → key_written l.now.profile result
        ≡ record (kept_by Lines showcolumns (written l.now.profile f.now)) { address = address } }
    ensures of_profile { IsKeyOf l.now.profile result }
{
    Key {
        function: function_of(l, f),
        file: file_of(l, f),
        line: line_of(l, f),
        column: if showcolumns { column_in(l, f) } else { 0 },
        address,
        object: 0,
    }
}
