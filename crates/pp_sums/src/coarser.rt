//! A file in which is dropped what reports do not look at.
ghost use Rattle.pp_sums.specs.Coarser.{MergesAreLoaded, PassedSumsStay, PassedRowsStay, PassedColumnsStay};

// What would break it: an `aggregated` (pp_aggregate) that changes a location's mapping. Or a `first_alike` (pp_share,
// `Alike`) that looks at what is known of a mapping, or a `summed` (pp_share, `Sums`) that loses a value.
/// Names, lines, columns, addresses or inlined frames were dropped from a profile. Who loads its file sees the same
/// flat, cum and edges as before, in each report that looks at nothing of what was dropped. If no value of the column
/// is negative, the keys, the rows in their order and the total are the same, too.
///
/// Premises: the profile is as loading gives it (`loaded`: so is every merge). The report looks at nothing that is
/// dropped (`LooksAtNothing`), and the column is one of the profile. Values are divided by 1, since samples that become
/// one are divided once. Values may have either sign for `sums`. Samples of 5 and -3 whose stacks become one are a
/// sample of 2: the total was 8 and is 2.
pub fn coarser_files_report_alike()
    ensures loaded { MergesAreLoaded }
    ensures columns { PassedColumnsStay }
    ensures sums { PassedSumsStay }
    ensures rows { PassedRowsStay }
{}
