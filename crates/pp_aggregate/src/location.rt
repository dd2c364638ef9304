//! Locations with what is kept of them.
ghost use Rattle.std.specs.Prelude.{◌≡◌, map};
ghost use Rattle.pp_aggregate.specs.Aggregated.{aggregated_location, aggregated_line, outermost};

use crate::aggregating::Kept;
use pp_base::List;
use pp_model::{Line, Location};

/// Drops of each location what is not kept. It takes no memory.
pub fn aggregate_locations(locations: &mut [Location], keep: &Kept)
    ensures { locations.new ≡ map (aggregated_location keep.now) locations.old }
{
    for location in locations.iter_mut() {
        aggregate_location(location, keep);
    }
}

fn aggregate_location(location: &mut Location, keep: &Kept)
    ensures { location.new ≡ aggregated_location keep.now location.old }
{
    if !keep.inline_frames {
        keep_outermost(&mut location.line);
    }
    aggregate_lines(location.line.as_mut_slice(), keep);
    if !keep.addresses {
        location.address = 0;
    }
}

// Keeps the last line, which the others were inlined into.
fn keep_outermost(lines: &mut List<Line>)
    ensures { lines.new ≡ outermost lines.old }
{
    let count = lines.len();
    if count > 1 {
        *lines.item_mut(0) = lines.as_slice()[count - 1];
        lines.truncate(1);
    }
}

fn aggregate_lines(lines: &mut [Line], keep: &Kept)
    ensures { lines.new ≡ map (aggregated_line keep.now) lines.old }
{
    for line in lines.iter_mut() {
        aggregate_line(line, keep);
    }
}

fn aggregate_line(line: &mut Line, keep: &Kept)
    ensures { line.new ≡ aggregated_line keep.now line.old }
{
    if !keep.lines {
        line.line = 0;
    }
    if !(keep.lines && keep.columns) {
        line.column = 0;
    }
}
