//! Traces and tags show all samples that the filters leave.
ghost use Rattle.pp_sums.specs.Shown.{TagsAddUp, TracesAddUp};

// What would break it: a `trace_of` (pp_samples, `Traces`) that leaves out a sample with frames, or that prints another
// value than the column's.
/// The traces report shows each sample that the filters leave, if some frame of it counts. Its values add up to those
/// of the filtered samples of which some frame counts, which is also the sum of all flats.
///
/// No premise: values may have either sign.
pub fn traces_add_up()
    ensures { TracesAddUp }
{}

// What would break it: a `tagged_samples` (pp_samples, `TagLines`) over other samples than the filters leave. Or a
// `tag_sum` that counts a sample for each of its labels, or a key that lists a tag twice.
/// The tags report is over the samples that the filters leave, also those without a frame. The total of a key that each
/// of them has is their sum. The values of a key add up to its total.
///
/// Premises: for `keys` each sample has the key. For `tags` no sample has two different values of the key: a sample of
/// 5 with a=x and a=y is in both lines of a, and once in its total. Values may have either sign.
pub fn tags_add_up()
    ensures { TagsAddUp }
{}
