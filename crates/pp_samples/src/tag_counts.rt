//! The tags of a report's samples, with their sums.
ghost use Rattle.std.specs.Prelude.{◌≡◌, [], ◌∷◌, ◌++◌, map, List as Seq, IfOk, OnOk};
ghost use Rattle.pp_model.specs.declared.profile.Profile.{Profile as Tables};
ghost use Rattle.pp_model.specs.Conditions.{IsSampleOf};
ghost use Rattle.pp_model.specs.Finders.{Finders};
ghost use Rattle.pp_count.specs.Counts.{samples_at};
ghost use Rattle.pp_samples.specs.Tables.{Event, AreKeys, AreSmall, label_event, sample_events, events_from};
ghost use Rattle.pp_samples.specs.Places.{AreEven};
ghost use Rattle.pp_samples.specs.Counting.{AreSound};
ghost use Rattle.pp_samples.specs.Surveyed.{survey_profile, FindsInSurvey, survey_tagged};

use crate::key_table::{TagKeyTable, add_known_label, add_label, no_keys};
use crate::recent::Recent;
use crate::tag_name::{key_name, tag_name};
use pp_base::{List, Memory};
use pp_count::{Survey, selected};
use pp_keys::HashKeys;
use pp_model::{Label, Profile, Sample};
use pp_tags::show_tags_into;
use std::alloc::Global;

/// The tags that were counted so far, and where labels have theirs. So the texts of a label are read once, where it comes
/// again soon.
#[derive(Drop)]
pub struct TagCounts<'a> {
    /// The keys and their tags so far.
    pub keys: TagKeyTable<'a>,
    /// Where the tags of the labels stand that were counted last.
    pub recent: Recent,
}

/// The sums of the tags that are shown of the samples with these numbers, and of their keys.
pub fn count_tags<'a>(
    alloc: Global,
    survey: &Survey<'a>,
    kept: &[u32],
) -> Result<TagKeyTable<'a>, Memory>
    ensures even { IfOk result AreEven }
    ensures keys { (f : Finders) → FindsInSurvey survey.now f →
        AreSmall (events_from 0
        (map (survey_tagged survey.now f) (samples_at (survey_profile survey.now) kept.now))) →
        IfOk result (AreKeys (events_from 0
        (map (survey_tagged survey.now f) (samples_at (survey_profile survey.now) kept.now)))) }
{
    let samples = survey.l.profile.get().sample.as_slice();
    let mut counts = no_counts(alloc, survey.hash_keys())?;
    let mut shown = List::new(alloc);
    let mut turn: u64 = 0;
    for number in kept {
        if let Some(s) = samples.get(*number as usize) {
            turn += 1;
            count_sample(alloc, survey, s, turn, &mut shown, &mut counts)?;
        }
    }
    Ok(counts.keys)
}

// No tags.
fn no_counts<'a>(alloc: Global, hash_keys: HashKeys) -> Result<TagCounts<'a>, Memory>
    ensures sound { IfOk result (λ counts. (p : Tables) → AreSound p counts) }
    ensures keys { IfOk result (λ counts. AreKeys [] counts.keys) }
{
    Ok(TagCounts {
        keys: no_keys(alloc, hash_keys)?,
        recent: Recent::new(alloc, hash_keys)?,
    })
}

// The tags that are shown of the sample, which has this turn. `shown` is room for its labels.
fn count_sample<'a>(
    alloc: Global,
    survey: &Survey<'a>,
    s: &Sample,
    turn: u64,
    shown: &mut List<Label>,
    counts: &mut TagCounts<'a>,
) -> Result<(), Memory>
    requires sample { IsSampleOf (survey_profile survey.now) s.now }
    requires sound { AreSound (survey_profile survey.now) counts.old }
    ensures sound { OnOk result (AreSound (survey_profile survey.now) counts.new) }
    ensures keys { (f : Finders) → FindsInSurvey survey.now f → (events : Seq Event) →
        AreKeys events counts.old.keys →
        AreSmall (events ++ sample_events turn (survey_tagged survey.now f s.now)) →
        OnOk result (AreKeys (events ++ sample_events turn (survey_tagged survey.now f s.now))
        counts.new.keys) }
{
    show_tags_into(survey.l, survey.v, s, shown)?;
    let value = selected(
        survey.l,
        s,
        survey.column,
        survey.config.presentation.divide_by,
    );
    count_labels(
        alloc,
        survey.l.profile.get(),
        shown.as_slice(),
        value,
        turn,
        counts,
    )
}

fn count_labels<'a>(
    alloc: Global,
    p: &'a Profile,
    labels: &[Label],
    value: i64,
    turn: u64,
    counts: &mut TagCounts<'a>,
) -> Result<(), Memory>
    requires { AreSound p.now counts.old }
    ensures sound { OnOk result (AreSound p.now counts.new) }
    ensures keys { (events : Seq Event) → AreKeys events counts.old.keys →
        AreSmall (events ++ map (label_event p.now value turn) labels.now) →
        OnOk result (AreKeys (events ++ map (label_event p.now value turn) labels.now) counts.new.keys) }
{
    for label in labels {
        count_label(alloc, p, label, value, turn, counts)?;
    }
    Ok(())
}

fn count_label<'a>(
    alloc: Global,
    p: &'a Profile,
    label: &Label,
    value: i64,
    turn: u64,
    counts: &mut TagCounts<'a>,
) -> Result<(), Memory>
    requires { AreSound p.now counts.old }
    ensures sound { OnOk result (AreSound p.now counts.new) }
    ensures keys { (events : Seq Event) → AreKeys events counts.old.keys →
        AreSmall (events ++ label_event p.now value turn label.now ∷ []) →
        OnOk result (AreKeys (events ++ label_event p.now value turn label.now ∷ []) counts.new.keys) }
{
    if let Some(place) = counts.recent.place(label) {
        add_known_label(&mut counts.keys, place, value, turn);
        return Ok(());
    }
    let key = key_name(p, label);
    let tag = tag_name(p, label);
    let place = add_label(alloc, &mut counts.keys, key, tag, value, turn)?;
    counts.recent.note(*label, place);
    Ok(())
}
