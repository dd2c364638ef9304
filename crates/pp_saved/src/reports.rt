//! Reports of a saved profile, and of the bytes that a proto report writes.
ghost use Rattle.pp_saved.specs.SavedBytes.{SavedBytes};
ghost use Rattle.pp_saved.specs.SavedReports.{SavedReports};

// What would break it: a layout that reads more of a profile than its figures, or a saved profile with too much.
/// Top, tree, peek, table and folded of a saved profile under a configuration without its filters come to a text or a
/// refusal. It is the one that the profile's come to under the configuration with them. The saved profile is the one
/// that `pp_report::generate` writes for proto.
///
/// Premises: the profile stays as it is when it is merged alone, as each loaded one does; none of its values is below 0
/// and no sample carries `pprof::base` of the text `true`; relative_percentages is on, path_tree is off and divide_by
/// is 1; tagroot and tagleaf name no key; the matcher refuses no pattern.
pub fn saved_reports()
    ensures { SavedReports }
{}

// What would break it: bytes that are not read as what was saved, or filters that are lost or applied twice.
/// The text of a proto report is read as the profile that was saved. That profile keeps the table rules, stays as it is
/// when it is merged alone, and has no patterns of its own. Its columns can be added up, so it can be merged. Without
/// filters it has the figures that the loaded one has with them. Then its top, tree, peek, table and folded also come to
/// the same text or refusal.
///
/// Premises: tagroot and tagleaf name no key, and the loaded profile is countable, which `pp_report::generate` asks for.
/// The text is one of which the clause `saved` of `generate` speaks. For the reports also the premises of
/// `saved_reports`, under each configuration with the same filters.
pub fn saved_bytes()
    ensures { SavedBytes }
{}
