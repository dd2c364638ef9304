//! The order of samples does not matter.
ghost use Rattle.pp_laws.specs.Order.{OrderIsFree, LoadedOrderIsFree};

// What would break it: sums that depend on the turn of a sample, or a `sums_order` (pp_graph, `Trim`) that breaks
// ties by first sight.
/// A profile and one with its samples in another order have the same columns and the same total. Every key and edge has
/// the same figures in both, and they show the same rows in the same order.
///
/// Premise: the other samples are a permutation of the first; all else of the two profiles is equal.
pub fn order_of_samples_is_free()
    ensures { OrderIsFree }
{}

// What would break it: a `summed` (pp_share, `Sums`) that adds up only equal samples that follow each other. Or a
// `first_alike` (pp_share, `Alike`) that looks at the samples, or a key that is a number of a table.
/// A file and one with its samples in another order, each loaded, have the same columns and the same total. Every key
/// and edge has the same figures in both, and they show the same rows in the same order. Loading merges a file alone:
/// it adds up equal samples and numbers the tables along the samples, so the tables of the two may differ.
///
/// Premises: the other samples are a permutation of the first, and all else of the two files is equal. Each sample has
/// a value for each type, and no mapping starts past 64 bits. So it is in every profile that was read and in which no
/// table rule fails.
pub fn order_in_a_file_is_free()
    ensures { LoadedOrderIsFree }
{}
