// A profile that is saved under filters reports as the filters did.

use crate::fixtures::{fixture_files, put_file};
use crate::running::{Answer, answer_to, shown};
use pp_base::{List, OpenGate, Text};
use std::alloc::Global;
use std::test::Fail;
use std::thread::Threads;

// A profile, the filters that it is saved under, and settings that reports on both have. Each filter finds something.
const FILTERS: &str = "P1~focus=leaf~lines
P5~ignore=mallocgc~addresses
requests~ignore=Marshal~files;noinlines
P1~hide=work~sample_index=samples
P5~hide=mix~noinlines
P5~show=mix.go|main.main~cum;lines
requests~show_from=main.search~unit=ns
P5~prune_from=work~lines;noinlines
P1~tagfocus=thread=a,b~cum
P1~tagignore=thread=b~lines
requests~tagshow=endpoint~nodecount=2
P1~tagfocus=a;taghide=bytes;hide=leaf~addresses
P1~hide=main;tagignore=b~relative_percentages
requests~focus=search;ignore=Marshal;tagfocus=/search~nodefraction=0.5";

#[test]
fn filters_are_saved(rt: HostRuntime) -> Result<(), Fail> {
    for row in FILTERS.split('\n') {
        assert!(rt; is_saved(&rt, rt.alloc(), row)?, "{row}");
    }
    Ok(())
}

// Saves the profile between the filters and the reports. Nothing but prompts stands before the reports of either
// session.
fn is_saved<R: Threads + Sync>(rt: &R, alloc: Global, row: &str) -> Result<bool, Fail> {
    let (profile, rest) = row.split_once('~').ok_or("no profile")?;
    let (filters, settings) = rest.split_once('~').ok_or("no filters")?;
    let saving = format!(in alloc; "{filters};relative_percentages;proto >saved;{settings}")?;
    let before = reports(rt, alloc, profile, fixture_files(alloc)?, saving.as_str())?;
    let after = reports(rt, alloc, "saved", saved_of(alloc, &before)?, settings);
    after.map(|after| is_told_again(&before, &after))
}

// The session of these lines, which `;` parts, and the reports.
fn reports<R: Threads + Sync>(
    rt: &R,
    alloc: Global,
    profile: &str,
    files: List<(Text, Text)>,
    lines: &str,
) -> Result<Answer, Fail> {
    let lines = format!(in alloc; "{lines};top;tree;peek .;")?;
    let lines = lines.replace(alloc, ";", "\n")?;
    Ok(answer_to(rt, alloc, profile, files, lines.as_str(), &OpenGate)?)
}

// The file that the session wrote, alone.
fn saved_of(alloc: Global, session: &Answer) -> Result<List<(Text, Text)>, Fail> {
    let path = Text::from_slice(alloc, b"saved")?;
    let content = session.files.content(&path).ok_or("nothing saved")?;
    let mut files = List::new(alloc);
    put_file(alloc, &mut files, b"saved", content.as_slice())?;
    Ok(files)
}

// Whether both sessions print the same reports and nothing more, and each reads one path once.
fn is_told_again(before: &Answer, after: &Answer) -> bool {
    let (before_out, after_out) = (shown(&before.out), shown(&after.out));
    before.err.len() == 0
        && after.err.len() == 0
        && before.files.reads().len() == 1
        && after.files.reads().len() == 1
        && after_out.contains("%  ")
        && before_out.trim_start_matches("(pprof) ") == after_out.trim_start_matches("(pprof) ")
}
