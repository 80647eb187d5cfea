// One try: whether some times of a set go into a zone by one step of a table, which is a power of a network's table. Row by row, column after column, with one
// set for each row, over numbers of 64 bits. Where several columns attain a row's largest sum, the first of them counts.
#![tactic(auto)]

ghost use Rattle.std.specs.Prelude.{◌≡◌, suc, ◌≤◌, length};
ghost use Rattle.model.specs.Sizes.{most_departures, most_times};
ghost use Rattle.model.specs.Network.{scale_time};
ghost use Rattle.memory.specs.Numbers as Memory;
ghost use Rattle.memory.specs.Matrices.{leaves, Left};
ghost use Rattle.memory.specs.Wide.{bounds_in};
ghost use Rattle.descent.specs.Numbers.{time_in, TableOf};
ghost use Rattle.descent.specs.Rows.{added_by, RowReady};
ghost use Rattle.descent.specs.Trying.{left_of, column_ends, end_of_rows, PlacedIn, BuildReady, TryReady, DescendReady, Descended, MeetingReady, MeetingEnds};

use memory::{Stored, WIDE_NONE, changed, holds_time, zone_size};
use model::{NUMBERS, ROWS, TIMES};
use std::ops::ControlFlow;
use zones::{Choice, Target, attain, keep_images};

// The numbers of a set for each row.
pub const SETS: usize = ROWS * NUMBERS;

// Why a try stops: with a set, which is that of the last row, or out of steps. One that goes on has found none, and has so many steps left.
#[derive(Clone, Copy)]
pub enum Stop {
    Found,
    Spent,
}

// The number that stands for a time of a table, in parts.
fn part_of(raw: i32, parts: usize) -> i64
    requires { parts ≤ suc most_departures }
    ensures { time_in result ≡ scale_time parts (Memory.time_in raw) }
{
    let Some(time) = raw.time() else {
        return WIDE_NONE;
    };
    time.0 * (parts as i64)
}

// A table in parts, at the front of an array.
pub fn in_parts(times: &[i32], parts: usize) -> [i64; TIMES]
    requires { (length times.now ≤ most_times) × (parts ≤ suc most_departures) }
    ensures { TableOf times.now parts result }
{
    changed(times, 0, |raw| part_of(raw, parts))
}

// Adds to part what c.row adds with its column; cols holds the columns of the rows before. False where no times are left, and then what stands in part is
// free. One line, as add_row of zones is: each says the constraints of its own definition, which one function over both would not.
fn add_row(part: &mut [i64], target: Target<i64>, cols: &[usize], c: Choice) -> bool
    requires { RowReady target part.old cols.now c }
    ensures { let t = target.entry in Left (leaves t.n (bounds_in part.old) (added_by t cols.now c)) result (bounds_in part.new) }
{
    attain(part, target.times, target.n, c, true) && keep_images(part, target, cols, c)
}

// Builds, as the set of c.row, what its column leaves of the set of the row before. False where that is nothing.
fn build(sets: &mut [i64], target: Target<i64>, cols: &[usize], c: Choice) -> bool
    requires { BuildReady target sets.old cols.now c }
    ensures { let t = target.entry in PlacedIn t.n c.row (left_of t sets.old cols.now c) sets.old result sets.new }
{
    let size = zone_size(target.n);
    let base = c.row * size;
    sets.copy_within(base - size..base, base);
    add_row(&mut sets[base..base + size], target, &cols[..c.row], c)
}

// Column c.column of its row, with so many steps: it takes one where it holds a time, and the rows below go on from what it leaves.
#[cycle(descend_try_column)]
#[tactic(auto, using(crate::proofs::Descending::columns))]
fn try_column(
    sets: &mut [i64],
    cols: &mut [usize],
    target: Target<i64>,
    c: Choice,
    steps: usize,
) -> ControlFlow<Stop, usize>
    requires { TryReady target sets.old cols.old c }
    ensures { let t = target.entry in Descended t.n c.row (column_ends t sets.old cols.old c steps) sets.old cols.old result sets.new cols.new }
{
    if !holds_time(target.times, target.n, c.row, c.column) {
        return ControlFlow::Continue(steps);
    }
    if steps == 0 {
        return ControlFlow::Break(Stop::Spent);
    }
    if !build(sets, target, cols, c) {
        return ControlFlow::Continue(steps - 1);
    }
    if c.row == target.n {
        return ControlFlow::Break(Stop::Found);
    }
    cols[c.row] = c.column;
    descend(sets, cols, target, c.row + 1, steps - 1)
}

// Rows i to n, with any columns: column after column of row i, until one ends with a set.
#[cycle(descend_try_column)]
#[tactic(auto, using(crate::proofs::Descending::rows))]
fn descend(
    sets: &mut [i64],
    cols: &mut [usize],
    target: Target<i64>,
    i: usize,
    steps: usize,
) -> ControlFlow<Stop, usize>
    requires { DescendReady target sets.old cols.old i }
    ensures { let t = target.entry in Descended t.n i (end_of_rows t sets.old cols.old i steps) sets.old cols.old result sets.new cols.new }
{
    let mut left = steps;
    for s in 1..target.n + 1 {
        let c = Choice { row: i, column: s };
        left = try_column(sets, cols, target, c, left)?;
    }
    ControlFlow::Continue(left)
}

// All rows: whether some times of the set of row 0 go into the zone by one step of the table. Where a set is found it is that of row n; the set of row 0 stays.
pub fn meeting(sets: &mut [i64], target: Target<i64>, steps: usize) -> ControlFlow<Stop, usize>
    requires { MeetingReady target sets.old }
    ensures { MeetingEnds target.entry steps sets.old result sets.new }
{
    let mut cols = [0usize; ROWS];
    descend(sets, &mut cols, target, 1, steps)
}
