// The sets met: each row has places for the sets that were left after it, and one place more, where the next one is built. Whatever further rows
// make of a set that is noted, by counting it, is in the list already.
ghost use Rattle.std.specs.Prelude.{◌≡◌, true, suc, ◌*◌, ◌≤◌, take};
ghost use Rattle.model.specs.Sizes.{most_departures, zone_size};
ghost use Rattle.memory.specs.Numbers.{times_in};
ghost use Rattle.starts.specs.Numbers as Starts;
ghost use Rattle.ahead.specs.Needs.{Unfit, Barred};
ghost use Rattle.lists.specs.Lists.{sets_met, places_met, zone_at};
ghost use Rattle.lists.specs.Met.{free_at, met_in, Counts, unmet, noted_in};
ghost use Rattle.lists.specs.Inner.{PlacedAt, FitReady, ShutReady, parent_in, ColumnReady, left_of};

use super::{MIDDLE, Path, Pull, places};
use memory::zone_size;
use zones::{Choice, Target};

// How many sets can be noted after each row: few in a large network, where a set has more numbers.
pub(crate) const MANY: usize = 128;

pub(crate) const FEW: usize = 32;

fn sets(n: usize) -> usize
    ensures { result ≡ sets_met n }
{
    if MIDDLE < n { FEW } else { MANY }
}

// The first place of row i.
fn first(n: usize, i: usize) -> usize
    requires { i ≤ most_departures }
    ensures { result ≡ i * places_met n }
{
    i * (sets(n) + 1)
}

// The free place of row i.
pub(crate) fn free(counts: &[usize], n: usize, i: usize) -> usize
    requires { Counts n counts.now × (i ≤ most_departures) }
    ensures { result ≡ free_at n counts.now i }
{
    first(n, i) + counts[i]
}

// Builds, at the free place of its row, what a column leaves of the set at the free place of the row before. False where that is nothing.
pub(crate) fn grow(seen: &mut [i32], path: &Path, target: Target<i32>, choice: Choice) -> bool
    requires { ColumnReady target.n target.times.now target.zone.now seen.old path.now.counts path.now.cols choice.row choice.column }
    ensures { let t = target.entry in PlacedAt (zone_size t.n) (free_at t.n path.now.counts choice.row)
        (left_of t.n t.times.now t.zone.now seen.old path.now.counts path.now.cols choice.row choice.column)
        seen.old result seen.new }
{
    let n = target.n;
    let parent = free(&path.counts, n, choice.row - 1);
    let here = free(&path.counts, n, choice.row);
    places::copy(seen, parent, here, zone_size(n));
    super::add_at(seen, here, target, &path.cols, choice)
}

// The same, but also false where the set is one of those noted after the row.
pub(crate) fn fresh(seen: &mut [i32], path: &Path, target: Target<i32>, choice: Choice) -> bool
    requires { ColumnReady target.n target.times.now target.zone.now seen.old path.now.counts path.now.cols choice.row choice.column }
    ensures { let t = target.entry in PlacedAt (zone_size t.n) (free_at t.n path.now.counts choice.row)
        (unmet (met_in t.n seen.old path.now.counts choice.row)
        (left_of t.n t.times.now t.zone.now seen.old path.now.counts path.now.cols choice.row choice.column))
        seen.old result seen.new }
{
    let n = target.n;
    let size = zone_size(n);
    let from = first(n, choice.row);
    let here = free(&path.counts, n, choice.row);
    grow(seen, path, target, choice) && !places::has(seen, from, here, places::at(seen, here, size))
}

// A column does not fit the set at the free place of the row before.
pub(crate) fn unfit(seen: &[i32], path: &Path, pull: Pull, choice: Choice) -> bool
    requires { FitReady pull.target.n seen.now pull.table.now pull.target.times.now path.now.counts choice.row choice.column }
    ensures { let t = pull.entry.target in result ≡ true → Unfit t.n (times_in t.times.now) (Starts.bounds_in pull.entry.table.now)
        (parent_in t.n seen.now path.now.counts choice.row) choice }
{
    let n = pull.target.n;
    let parent = free(&path.counts, n, choice.row - 1);
    let set = places::at(seen, parent, zone_size(n));
    ahead::unfit(set, pull.outlook(), choice)
}

// Nothing is left of the set at the free place of row i, whatever columns the rows below have.
pub(crate) fn shut(seen: &[i32], path: &Path, pull: Pull, i: usize) -> bool
    requires { ShutReady pull.target.n seen.now pull.table.now pull.target.times.now path.now.counts path.now.cols i }
    ensures { let t = pull.entry.target in result ≡ true → Barred t.n (times_in t.times.now) (Starts.bounds_in pull.entry.table.now)
        (zone_at (zone_size t.n) seen.now (free_at t.n path.now.counts i)) (take (suc i) path.now.cols) (suc i) }
{
    let n = pull.target.n;
    let here = free(&path.counts, n, i);
    let set = places::at(seen, here, zone_size(n));
    ahead::shut(set, pull.outlook(), &path.cols[..i + 1], i + 1)
}

// Notes the set at the free place of row i by counting it, if there is room for another.
pub(crate) fn note(path: &mut Path, n: usize, i: usize)
    requires { Counts n path.old.counts × (i ≤ most_departures) }
    ensures { (path.new.counts ≡ noted_in n path.old.counts i) × (path.new.cols ≡ path.old.cols) × (path.new.kept ≡ path.old.kept) }
{
    let count = path.counts[i];
    if count < sets(n) {
        path.counts[i] = count + 1;
    }
}
