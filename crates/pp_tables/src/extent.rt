//! Where the payload of a sample lies in its file.
ghost use Rattle.std.specs.Prelude.{◌≡◌, ◌<◌, ◌^◌, ◌++◌, length};
ghost use Rattle.pp_wire.specs.Fields.{item, content_of};
ghost use Rattle.pp_tables.specs.Message.{Run, fault_by};
ghost use Rattle.pp_tables.specs.Skim.{extents_in, payload_of};
ghost use Rattle.pp_tables.specs.Takes.{TakesField};

use crate::ReadRefusal;
use crate::fields::run_of;
use pp_base::List;
use pp_wire::Field;

/// A part of a file below 4 GiB.
#[derive(Clone, Copy, Debug)]
pub(crate) struct Extent {
    /// The place of the first byte, counted from 0.
    pub(crate) start: u32,
    /// How many bytes there are.
    pub(crate) len: u32,
}

impl Extent {
    /// Its bytes, of those of the file.
    pub(crate) fn cut<'a>(&self, bytes: &'a [u8]) -> &'a [u8]
        ensures is { result.now ≡ (payload_of bytes.now self.now).bytes }
        ensures short { length result.now < 2 ^ 32 }
    {
        let start = (self.start as usize).min(bytes.len());
        let rest = &bytes[start..];
        let len = (self.len as usize).min(rest.len());
        &rest[..len]
    }
}

/// Notes where the payload of the field lies.
pub(crate) fn push_extent(list: &mut List<Extent>, field: &Field<'_>) -> Result<(), ReadRefusal>
    ensures { TakesField result (fault_by Run (content_of field.now.payload) field.now.at)
        (list.new ≡ list.old ++ extents_in (item field.now)) }
{
    let (bytes, at) = run_of(field)?;
    list.push(Extent {
        start: (at % (1 << 32)) as u32,
        len: (bytes.len() % (1 << 32)) as u32,
    })?;
    Ok(())
}
