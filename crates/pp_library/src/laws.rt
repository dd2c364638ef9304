//! What the calls of this crate have to do with the command. These functions do nothing: their clauses are the laws.
ghost use Rattle.pp_library.specs.Figures.{TablesPrintFigures};
ghost use Rattle.pp_library.specs.Loads.{BytesLoadAsFiles};

// What would break it: a limit of bytes other than the command's, or a profile that isn't merged alone.
/// The command loads a file as `load` does its bytes: it reads the file, and then asks the same patterns and comes to
/// the same profile or refusal. So it is by whatever words have this file as their one source, and no base.
pub fn bytes_load_as_files()
    ensures { BytesLoadAsFiles }
{}

// What would break it: rows in another order than that of the table, or without its limit.
/// The command's table report is the figures that `figures` gives, printed: it asks the same patterns, prints a line for
/// each row in their order, and is refused where they are.
pub fn tables_print_figures()
    ensures { TablesPrintFigures }
{}
