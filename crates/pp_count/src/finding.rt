//! Whether a pattern finds a label's key, by the verdicts of the texts.
ghost use Rattle.std.specs.Prelude.{◌≡◌};
ghost use Rattle.std.specs.List.{list_any};
ghost use Rattle.pp_tags.specs.Verdicts.{verdict_on};

use pp_base::List;
use pp_model::Label;

/// Whether the pattern finds the key of one of the labels.
pub fn finds_key(found: &List<bool>, labels: &[Label]) -> bool
    ensures { result ≡ list_any (λ label. verdict_on found.now label.key) labels.now }
{
    labels.iter().any(|label| verdict_on(found, label.key))
}

// The verdict on the text of the index, false where there is no such text.
fn verdict_on(found: &List<bool>, index: i64) -> bool
    ensures { result ≡ verdict_on found.now index }
{
    let place = if index < 0 { 0 } else { index as usize };
    match found.as_slice().get(place) {
        None => false,
        Some(found) => *found,
    }
}
