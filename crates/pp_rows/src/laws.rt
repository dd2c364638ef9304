// Laws of the figures, shown on profiles: what several reports owe one another, whatever the figures are.

use crate::figures::{Figures, figures_of};
use std::alloc::Global;
use std::test::Fail;
use std::thread::Threads;

// How often the figures of the second and third report are in those of the first, and the words of the three. Merged
// profiles are sums, focus and ignore part the whole, a base is taken off, and values are scaled.
const LAWS: &str = "1 1|P1|-focus=work P1|-ignore=work P1
1 1|P5|-focus=hash P5|-ignore=hash P5
1 1|-hide=mix -lines P5|-hide=mix -focus=hash -lines P5|-hide=mix -ignore=hash -lines P5
1 1|requests|-tagfocus=/index requests|-tagignore=/index requests
1 1|P1 P1|P1|P1
1 1|requests P5|requests|P5
1 -1|-base=P5 requests|requests|P5
1 -1|-base=P5 P5 requests|P5 requests|P5
1 -1|-diff_base=requests P5|P5|requests
0 0|-base=requests -base=P5 P5 requests|P5|requests
-1 0|-base=P5 -base=requests requests|P5|
3 0|P5 P5 P5|P5|
10000000 0|P1|-unit=count -sample_index=samples P1|
1000 0|P5|-divide_by=1000 P5|
1 0|-lines requests P5|-lines P5 requests|";

// The words before those of each report: a tree of all nodes and edges.
const ALL_NODES: &str =
    "-tree -unit=ns -nodecount=0 -nodefraction=0 -edgefraction=0 -relative_percentages";

#[test]
fn laws_are_seen(rt: HostRuntime) -> Result<(), Fail> {
    for law in LAWS.split('\n') {
        assert!(rt; is_seen(&rt, rt.alloc(), law)?, "{law}");
    }
    Ok(())
}

fn is_seen<R: Threads + Sync>(rt: &R, alloc: Global, law: &str) -> Result<bool, Fail> {
    let (times, reports) = law.split_once('|').ok_or("no reports")?;
    let (first, others) = reports.split_once('|').ok_or("one report")?;
    let (second, third) = others.split_once('|').ok_or("two reports")?;
    let (of_second, of_third) = times.split_once(' ').ok_or("one number")?;
    let seen = ThreeReports {
        of_second: of_second.parse::<i64>().ok().ok_or("no number")?,
        of_third: of_third.parse::<i64>().ok().ok_or("no number")?,
        first: all_figures(rt, alloc, first)?,
        second: all_figures(rt, alloc, second)?,
        third: all_figures(rt, alloc, third)?,
    };
    Ok(
        seen.has_figures()
            && seen.is_sum_over(&seen.first)
            && seen.is_sum_over(&seen.second)
            && seen.is_sum_over(&seen.third),
    )
}

// No words have no figures.
fn all_figures<R: Threads + Sync>(rt: &R, alloc: Global, words: &str) -> Result<Figures, Fail> {
    if words.is_empty() {
        return Ok(Figures::none(alloc));
    }
    let words = format!(in alloc; "{ALL_NODES} {words}")?;
    figures_of(rt, alloc, words.as_str())
}

// Three reports, and how often the last two are in the first.
#[derive(Drop)]
struct ThreeReports {
    first: Figures,
    second: Figures,
    third: Figures,
    of_second: i64,
    of_third: i64,
}

impl ThreeReports {
    // Whether a report has a figure that isn't 0. A law over figures that are all 0 would show nothing.
    fn has_figures(&self) -> bool {
        self.first.has_figures() || self.second.has_figures()
    }

    // Whether the first report is the sum at each entry of these figures.
    fn is_sum_over(&self, figures: &Figures) -> bool {
        for entry in figures.entries.as_slice() {
            if !self.is_sum_at(entry.caller.as_slice(), entry.name.as_slice()) {
                return false;
            }
        }
        true
    }

    fn is_sum_at(&self, caller: &[u8], name: &[u8]) -> bool {
        let (flat, cum) = self.first.at(caller, name);
        let (second_flat, second_cum) = self.second.at(caller, name);
        let (third_flat, third_cum) = self.third.at(caller, name);
        flat == self.sum(second_flat, third_flat) && cum == self.sum(second_cum, third_cum)
    }

    fn sum(&self, second: i64, third: i64) -> i64 {
        let second = second.wrapping_mul(self.of_second);
        second.wrapping_add(third.wrapping_mul(self.of_third))
    }
}
