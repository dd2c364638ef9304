//! Tables of names, and of the options that the help tells.
ghost use Rattle.std.specs.Prelude.{◌≡◌, map};
ghost use Rattle.pp_options.specs.Tables.{entry_of, row_of, value_named, option_in};

use crate::text::is;

/// A name as it is written, and what it stands for. Letters of either case differ.
pub type Named<T> = (&'static [u8], T);

/// A row of a table of options. All rows in their order are the help. The type of texts is a parameter, since definitions
/// can't name a table whose type has references of its own.
#[derive(Clone, Copy, Debug)]
pub enum Row<S, T> {
    /// A heading, an example, or what the help has behind the name of an option: the default, or what stands for the value,
    /// and what the option is for, from 28 bytes after the name's first on.
    Text(S),
    /// An option by its name, and what it stands for.
    Option(S, T),
    /// Another name of the option before.
    Also(S, T),
}

/// A row of a table of options of this kind.
pub type OptionRow<T> = Row<&'static [u8], T>;

/// The value that the table has for the name, the first where it has several.
pub fn value_named<T: Copy>(table: &[Named<T>], name: &[u8]) -> Option<T>
    ensures { result ≡ value_named (map entry_of table.now) name.now }
{
    for named in table {
        if is(named.0, name) {
            return Some(named.1);
        }
    }
    None
}

/// What the option of the name stands for, the first where there are several.
pub fn option_in<T: Copy>(rows: &[OptionRow<T>], name: &[u8]) -> Option<T>
    ensures { result ≡ option_in (map row_of rows.now) name.now }
{
    for row in rows {
        match row {
            Row::Option(known, value) if is(known, name) => return Some(*value),
            Row::Also(known, value) if is(known, name) => return Some(*value),
            _ => {}
        }
    }
    None
}
