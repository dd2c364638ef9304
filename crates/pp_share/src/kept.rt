//! Renumberings under which samples stay as they are.
ghost use Rattle.std.specs.Prelude.{IfSome};
ghost use Rattle.std.specs.Bool.{OnTrue};
ghost use Rattle.pp_share.specs.Hashes.{AreHashes, AreOwnHashes, KeepsSamples};
ghost use Rattle.pp_share.specs.Renumbered.{new_ids};

use crate::hashes::Hashes;
use crate::renumbering::Renumbering;
use pp_model::Sample;

/// The known hashes of the samples, if they are also those of the samples with their new ids: if no location and no
/// text gets another id.
pub fn kept_hashes(known: Option<Hashes>, samples: &[Sample], by: &Renumbering) -> Option<Hashes>
    requires { IfSome known (AreOwnHashes samples.now) }
    ensures { IfSome result (AreHashes (new_ids by.now) samples.now) }
{
    if keeps_samples(by) {
        return known;
    }
    None
}

// Whether samples keep their ids.
fn keeps_samples(by: &Renumbering) -> bool
    ensures { OnTrue result (KeepsSamples by.now) }
{
    by.location.keeps_all() && by.text.keeps_all()
}
