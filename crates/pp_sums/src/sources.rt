//! What a merge has of its sources, whatever their order.
ghost use Rattle.pp_sums.specs.Sources.{NoKeyVanishes, SourceOrderKeepsRows, SourceOrderKeepsSums};

// What would break it: a `counts` (pp_share, `Sums`) that drops a sample with a value that isn't 0, or a `merged` that
// drops a source.
/// The keys in the report of a merge are those in the reports of its sources, each reported alone, and so are the
/// edges: no function vanishes in a merge, and none is made.
///
/// Premises: those of `merged_reports_are_sums`, and that no value of the column is negative. A key with 5 in one
/// source and -5 in another one can be without a row in the merge.
pub fn no_key_vanishes_in_a_merge()
    ensures { NoKeyVanishes }
{}

// What would break it: a `merged` whose samples depend on which source is the first.
/// The order of sources changes no flat, cum and edge. If no value of the column is negative, it changes neither the
/// keys, the total, nor the rows and their order. It decides which mapping is the first, and whose patterns and default
/// sample type the merge has.
///
/// Premises: those of `merged_reports_are_sums`, in one of the orders.
pub fn source_order_is_free()
    ensures sums { SourceOrderKeepsSums }
    ensures rows { SourceOrderKeepsRows }
{}
