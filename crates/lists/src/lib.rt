// Lists of zones in the workspace.
#![tactic(auto)]

ghost use Rattle.std.specs.Prelude.{◌≡◌, suc, ◌+◌, ◌*◌, ◌-◌, ◌≤◌, length, take, drop};
ghost use Rattle.std.proofs.Math.Option.{some};
ghost use mathlib.Core.List.{[], ◌∷◌, map, foldl};
ghost use Rattle.model.specs.Sizes.{most_departures, zone_size};
ghost use Rattle.model.specs.Matrix.{everything};
ghost use Rattle.model.specs.Search.{keep, preimage, selections, first_common};
ghost use Rattle.memory.specs.Numbers.{bounds_in, times_in};
ghost use Rattle.memory.specs.Conditions.{TimeCell, ZoneIn};
ghost use Rattle.lists.specs.Lists.{zone_at, list_in, ListHeld, Building, NextList, Meets, FirstList, Meeting, found_by, Wholable, WholeOf};
ghost use Rattle.lists.specs.Selecting.{extensions, with_column};
ghost use Rattle.lists.specs.Met.{free_at, unmet};
ghost use Rattle.lists.specs.Inner.{PlacedAt, AddReady, parent_in, ColumnReady, left_of, column_sets};
ghost use Rattle.lists.specs.Inner.{counted, PutReady, PutLast, SelectReady, TakeReady, Selected, PullReady};

use ahead::Outlook;
use ints::Seconds;
use memory::{holds_time, zone_size};
use model::{DEPARTURES, NUMBERS, ROWS};
use zones::{Choice, Target};

mod met;
mod places;

// The departures of a small and of a middling network, at most; any other is large.
pub const SMALL: usize = 5;

pub const MIDDLE: usize = model::FEW;

// The numbers of a table in which the sets met are kept: for a small, a middling and a large network.
pub const SMALL_SEEN: usize = (SMALL + 1) * (met::MANY + 1) * ((SMALL + 1) * (SMALL + 1));

pub const MIDDLE_SEEN: usize = (MIDDLE + 1) * (met::MANY + 1) * ((MIDDLE + 1) * (MIDDLE + 1));

pub const LARGE_SEEN: usize = ROWS * (met::FEW + 1) * NUMBERS;

// A list in the workspace: so many zones, which stand in it one behind another from base on.
#[derive(Clone, Copy)]
pub struct ZoneList {
    pub base: usize,
    pub count: usize,
}

impl ZoneList {
    // The numbers of its zones.
    pub fn numbers(self, work: &[i32], n: usize) -> &[i32]
        requires { (n ≤ most_departures) × (self.base + self.count * zone_size n ≤ length work.now) }
        ensures { result.now ≡ take (self.count * zone_size n) (drop self.base work.now) }
    {
        &work[self.base..self.base + self.count * zone_size(n)]
    }
}

// How each list is made from the one before it: through the table of n departures, with room for so many zones.
#[derive(Clone, Copy)]
pub struct Making<'a> {
    pub n: usize,
    pub capacity: usize,
    pub times: &'a [i32],
}

// A zone that is pulled back through a table, what it needs of each column, and how many zones the list has room for.
#[derive(Clone, Copy)]
struct Pull<'a, 'b> {
    target: Target<'a, i32>,
    table: &'b [i64],
    capacity: usize,
    ghost needs_in: { ZoneIn target.n table.now },
}

impl<'a, 'b> Pull<'a, 'b> {
    // What the times and the table show ahead.
    fn outlook(self) -> Outlook<'a, 'b>
        ensures { let t = self.entry.target in (result.times.now ≡ t.times.now) × (result.table.now ≡ self.entry.table.now) × (result.n ≡ t.n) }
    {
        Outlook {
            times: self.target.times,
            table: self.table,
            n: self.target.n,
        }
    }
}

// A selection under way: the column of each row, how many sets are noted after it, and how many zones the list has so far.
#[derive(Drop)]
struct Path {
    cols: [usize; ROWS],
    counts: [usize; ROWS],
    kept: usize,
}

// What a column leaves of the zone at place k of a list, in place. False where that is nothing.
fn add_at(list: &mut [i32], k: usize, target: Target<i32>, cols: &[usize], choice: Choice) -> bool
    requires { AddReady target.n k list.old target.times.now target.zone.now cols.now choice.row choice.column }
    ensures { let t = target.entry in PlacedAt (zone_size t.n) k
        (with_column t.n (times_in t.times.now) (bounds_in t.zone.now) (zone_at (zone_size t.n) list.old k)
        (take choice.row cols.now) choice.row choice.column)
        list.old result list.new }
{
    let size = zone_size(target.n);
    let base = k * size;
    let end = base + size;
    zones::add_row(&mut list[base..end], target, &cols[..choice.row], choice)
}

// Builds, at the place of the next zone of the list, what a column of the last row leaves of the set at the free place of the row before. False where that
// is nothing, or in the list already.
fn next_zone(list: &mut [i32], pull: Pull, seen: &[i32], path: &Path, choice: Choice) -> bool
    requires { ColumnReady pull.target.n pull.target.times.now pull.target.zone.now seen.now path.now.counts path.now.cols choice.row choice.column
        × (path.now.kept * zone_size pull.target.n + zone_size pull.target.n ≤ length list.old) }
    ensures { let t = pull.entry.target in PlacedAt (zone_size t.n) path.now.kept
        (unmet (list_in (zone_size t.n) path.now.kept list.old)
        (left_of t.n t.times.now t.zone.now seen.now path.now.counts path.now.cols choice.row choice.column))
        list.old result list.new }
{
    let n = pull.target.n;
    let size = zone_size(n);
    let count = path.kept;
    let parent = met::free(&path.counts, n, choice.row - 1);
    places::store(list, count, places::at(seen, parent, size));
    add_at(list, count, pull.target, &path.cols, choice)
        && !places::has(list, 0, count, places::at(list, count, size))
}

// The same where the list has no place left: the set is built beside, in the row's free place.
fn beside(list: &[i32], pull: Pull, seen: &mut [i32], path: &Path, choice: Choice) -> bool
    requires { ColumnReady pull.target.n pull.target.times.now pull.target.zone.now seen.old path.now.counts path.now.cols choice.row choice.column
        × (path.now.kept * zone_size pull.target.n ≤ length list.now) }
    ensures { let t = pull.entry.target in PlacedAt (zone_size t.n) (free_at t.n path.now.counts choice.row)
        (unmet (list_in (zone_size t.n) path.now.kept list.now)
        (left_of t.n t.times.now t.zone.now seen.old path.now.counts path.now.cols choice.row choice.column))
        seen.old result seen.new }
{
    let n = pull.target.n;
    let size = zone_size(n);
    let here = met::free(&path.counts, n, choice.row);
    met::grow(seen, path, pull.target, choice)
        && !places::has(list, 0, path.kept, places::at(seen, here, size))
}

// The set of a full selection, put to the list: it is kept by counting it. None where the list has no room for it.
fn put_last(
    list: &mut [i32],
    pull: Pull,
    seen: &mut [i32],
    path: &mut Path,
    choice: Choice,
) -> Option<()>
    requires { PutReady pull.target.n pull.capacity path.old.kept list.old pull.target.times.now pull.target.zone.now seen.old
        path.old.counts path.old.cols choice.row choice.column }
    ensures { let t = pull.entry.target in PutLast t.n pull.entry.capacity path.old.kept choice.row
        (left_of t.n t.times.now t.zone.now seen.old path.old.counts path.old.cols choice.row choice.column)
        list.old seen.old path.old.counts path.old.cols
        (counted result path.new.kept) list.new seen.new path.new.counts path.new.cols }
{
    if path.kept == pull.capacity {
        if beside(list, pull, seen, path, choice) {
            return None;
        }
        return Some(());
    }
    if !next_zone(list, pull, seen, path, choice) {
        return Some(());
    }
    path.kept += 1;
    Some(())
}

// The sets of the selections with one column in a row, put to the list. Of a column that does not fit what the zone needs, and of a set for which a row has
// none that does, nothing is left. None where the list has no room for them.
#[cycle(select_take_column)]
fn take_column(
    list: &mut [i32],
    pull: Pull,
    seen: &mut [i32],
    path: &mut Path,
    choice: Choice,
) -> Option<()>
    requires { TakeReady pull.target.n pull.capacity path.old.kept list.old pull.target.times.now pull.target.zone.now pull.table.now seen.old
        path.old.counts path.old.cols choice.row choice.column }
    ensures { let t = pull.entry.target in Selected t.n pull.entry.capacity choice.row t.times.now t.zone.now
        (foldl keep (list_in (zone_size t.n) path.old.kept list.old)
        (column_sets t.n (times_in t.times.now) (bounds_in t.zone.now)
        (parent_in t.n seen.old path.old.counts choice.row) (take choice.row path.old.cols) choice.row choice.column))
        list.old seen.old path.old.counts path.old.cols
        (counted result path.new.kept) list.new seen.new path.new.counts path.new.cols }
{
    if met::unfit(seen, path, pull, choice) {
        return Some(());
    }
    let i = choice.row;
    if i == pull.target.n {
        return put_last(list, pull, seen, path, choice);
    }
    if !met::fresh(seen, path, pull.target, choice) {
        return Some(());
    }
    path.cols[i] = choice.column;
    if met::shut(seen, path, pull, i) {
        return Some(());
    }
    select(list, pull, seen, path, i + 1)?;
    met::note(path, pull.target.n, i);
    Some(())
}

// The sets of the selections with any columns in rows i to n, put to the list. A set noted after its row would add nothing. None where the list has no room.
#[cycle(select_take_column)]
fn select(list: &mut [i32], pull: Pull, seen: &mut [i32], path: &mut Path, i: usize) -> Option<()>
    requires { SelectReady pull.target.n pull.capacity path.old.kept list.old pull.target.times.now pull.target.zone.now pull.table.now seen.old
        path.old.counts path.old.cols i }
    ensures { let t = pull.entry.target in Selected t.n pull.entry.capacity i t.times.now t.zone.now
        (foldl keep (list_in (zone_size t.n) path.old.kept list.old)
        (extensions t.n (times_in t.times.now) (bounds_in t.zone.now)
        (some (parent_in t.n seen.old path.old.counts i)) (take i path.old.cols) i (suc t.n - i)))
        list.old seen.old path.old.counts path.old.cols
        (counted result path.new.kept) list.new seen.new path.new.counts path.new.cols }
{
    let Target { times, n, .. } = pull.target;
    for s in 1..n + 1 {
        if holds_time(times, n, i, s) {
            let choice = Choice { row: i, column: s };
            take_column(list, pull, seen, path, choice)?;
        }
    }
    Some(())
}

// The preimages of a zone by all selections, put to the list. None where it has no room for them.
fn pull_back<'a>(
    list: &mut [i32],
    count: usize,
    making: Making<'a>,
    zone: &'a [i32],
    seen: &mut [i32],
) -> Option<usize>
    requires { PullReady making.n making.capacity count list.old making.times.now zone.now seen.old }
    ensures { let m = making.entry in ListHeld (zone_size m.n) m.capacity
        (foldl keep (list_in (zone_size m.n) count list.old)
        (map (preimage m.n (times_in m.times.now) (bounds_in zone.now)) (selections m.n (times_in m.times.now) m.n 1)))
        result list.old list.new }
{
    let Making { n, capacity, times } = making;
    let size = zone_size(n);
    zones::everything(&mut seen[..size], n);
    let target = Target { times, zone, n };
    let mut table = [0i64; NUMBERS];
    ahead::needs(&mut table[..size], target);
    let pull = Pull {
        target,
        table: &table[..size],
        capacity,
    };
    let mut path = Path {
        cols: [0; ROWS],
        counts: [0; ROWS],
        kept: count,
    };
    select(list, pull, seen, &mut path, 1)?;
    Some(path.kept)
}

// The list made from another, at goal: its length, or that it has no room. Nothing of the workspace outside the half at goal changes.
// By index, each zone copied: cut in two by `split_at_mut` it needs a loop of its own, called for either order of the halves, and is longer in code and proof.
pub fn next_list(
    work: &mut [i32],
    source: ZoneList,
    goal: usize,
    making: Making,
    seen: &mut [i32],
) -> Option<usize>
    requires { Building making.n making.capacity source.base goal source.count work.old making.times.now seen.old }
    ensures { let m = making.entry in
        NextList m.n m.capacity source.base goal source.count m.times.now work.old seen.old result work.new seen.new }
{
    let ZoneList { base, count } = source;
    let size = zone_size(making.n);
    let mut zone = [0i32; NUMBERS];
    let mut made = 0;
    for k in 0..count {
        zone[..size].copy_from_slice(places::at(&work[base..], k, size));
        made = pull_back(&mut work[goal..], made, making, &zone[..size], seen)?;
    }
    Some(made)
}

// List 0, at the front of the workspace: the target. False where that is nothing, and then the numbers of the first zone are free.
pub fn first_list(work: &mut [i32], pattern: &[i32], n: usize) -> bool
    requires { Meets n pattern.now (everything (suc n) ∷ []) × (zone_size n ≤ length work.old) }
    ensures { FirstList n pattern.now work.old work.new result }
{
    let size = zone_size(n);
    zones::everything(&mut work[..size], n);
    zones::common(&mut work[..size], pattern, n)
}

// The start, in parts, picked in what the first zone of the list that meets the pattern has in common with it, if one does. That is tightened beside,
// since the zone is needed for the next list.
pub fn first_common(
    work: &[i32],
    list: ZoneList,
    pattern: &[i32],
    n: usize,
    parts: usize,
) -> Option<[Seconds; DEPARTURES]>
    requires { Meeting n parts list.base list.count work.now pattern.now }
    ensures { result ≡ found_by n parts (first_common n (bounds_in pattern.now) (list_in (zone_size n) list.count (drop list.base work.now))) }
{
    let size = zone_size(n);
    let mut zone = [0i32; NUMBERS];
    for part in list.numbers(work, n).chunks_exact(size) {
        zone[..size].copy_from_slice(part);
        let some = zones::common(&mut zone[..size], pattern, n);
        if some {
            return Some(starts::start(&zone[..size], n, parts));
        }
    }
    None
}

// The zone of a pattern in whole parts of a second, at the front of an array of 64-bit numbers, if there are times in it.
pub fn whole_pattern(pattern: &[i32], n: usize, parts: usize) -> Option<[i64; NUMBERS]>
    requires { Wholable n pattern.now parts }
    ensures { WholeOf n pattern.now parts result }
{
    let mut zone = [0i32; NUMBERS];
    let some = first_list(&mut zone, pattern, n);
    if !some {
        return None;
    }
    Some(starts::whole_zone(&zone[..zone_size(n)], n, parts))
}
