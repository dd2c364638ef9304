//! Reading the samples of a file, which can be cut anywhere.
ghost use Rattle.std.specs.Prelude.{map};
ghost use Rattle.pp_tables.specs.Skim.{payload_of};

use crate::decoded::decode;
use crate::extent::Extent;
use crate::packed::with_room;
use pp_base::{List, Memory};
use pp_model::Sample;
use pp_steal::Piecewise;
use std::alloc::Global;

/// The bytes of a file, of which any thread may read samples.
#[derive(Drop)]
pub(crate) struct Decoding<'a> {
    /// Where the samples are allocated.
    pub(crate) alloc: Global,
    /// The bytes of the file.
    pub(crate) bytes: &'a [u8],
}

impl Piecewise<Extent> for Decoding<'_> {
    /// The samples, or `None` where one has a fault.
    type Out = Option<List<Sample>>;

    ghost use Rattle.pp_tables.specs.Apart.{AreSamples};

    ghost right = { λ work extents samples. AreSamples (map (payload_of work.bytes.now) extents) samples };

    fn begin(&self, room: usize) -> Result<Option<List<Sample>>, Memory> {
        Ok(Some(with_room(self.alloc, room)?))
    }

    fn run(&self, extents: &[Extent]) -> Result<Option<List<Sample>>, Memory> {
        decode(self.alloc, self.bytes, extents)
    }

    fn append(
        &self,
        front: Option<List<Sample>>,
        back: Option<List<Sample>>,
    ) -> Result<Option<List<Sample>>, Memory> {
        let Some(mut samples) = front else {
            return Ok(None);
        };
        let Some(more) = back else {
            return Ok(None);
        };
        samples.append(more)?;
        Ok(Some(samples))
    }
}
