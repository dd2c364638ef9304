//! What holds of sessions over a file that another session saved.
ghost use Rattle.pp_alike.specs.SavedFiles.{SavedFilesReportAlike, SavedFilesSaveAlike};

// What would break it: a saved file that isn't read as what was saved, or filters that are lost or applied twice. Also
// a report that reads more of a profile than is saved.
/// A file that a session saved with filters is reported as its sources are with them. One session makes a top, tree,
/// peek, table or folded report of the file alone, and another makes it of the sources by the filters. Both print the
/// same and end alike. What the second tells of filters that match nothing stands before.
///
/// Premises: of the profile that the sources come to no value is below 0, and no sample carries `pprof::base` of the
/// text `true`; relative_percentages is on, path_tree is off and divide_by is 1; tagroot and tagleaf name no key; the
/// matcher refuses no pattern; the file is no longer than one may be, and none of the sources.
pub fn saved_files_report_alike()
    ensures { SavedFilesReportAlike }
{}

// What would break it: a saved file that isn't read as what was saved, patterns that it keeps of its own, tables in
// another order.
/// A file that a session saved is saved again as it is: a session that makes a proto report of the file alone, without
/// filters, prints the bytes of the file.
///
/// Premises: tagroot and tagleaf name no key in either session; the matcher refuses no pattern; the file is no longer
/// than one may be.
pub fn saved_files_save_alike()
    ensures { SavedFilesSaveAlike }
{}
