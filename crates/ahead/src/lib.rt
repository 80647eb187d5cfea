// Looking ahead: whether the rows of a selection that have no column yet can leave anything of a set. No set is built: what a zone needs of the times whose
// image is in it is tabled once for each zone. Where a column does not fit that, or a set is shut, nothing is left. Where it is not said, something may be
// left or not: then more is built, and the lists are the same.
#![tactic(auto)]

ghost use Rattle.std.specs.Prelude.{◌≡◌, true, suc, ◌≤◌};
ghost use Rattle.model.specs.Bound.{most};
ghost use Rattle.model.specs.Matrix.{entry};
ghost use Rattle.model.specs.Search.{chosen};
ghost use Rattle.model.specs.Conditions.{Column};
ghost use Rattle.memory.specs.Numbers.{times_in, InMemory};
ghost use Rattle.memory.specs.Numbers as Memory;
ghost use Rattle.memory.specs.Conditions.{TableIn, ZoneIn, ReadWithin, TimeRead, TimeCell};
ghost use Rattle.memory.specs.Matrices.{RowFilled};
ghost use Rattle.memory.specs.Wide.{bounds_in};
ghost use Rattle.ahead.specs.Needs.{row_time, asks, need, needs, NeedMost, Beyond, Unfit, UnfitBefore, NoneFits, UnfitFrom, Barred};
ghost use Rattle.ahead.specs.Outlook.{LookingAt, KnownRows};

use ints::{Seconds, ZERO};
use memory::{BLANK, Number, bound_at, put, time_at};
use zones::{Choice, Target};

// A(o, j); the clock, as row 0, has the time 0 in column 0, and no other.
fn row_time(times: &[i32], n: usize, o: usize, j: usize) -> Option<Seconds>
    requires { TableIn n times.now × (o ≤ n) × (j ≤ n) }
    ensures { TimeRead (row_time n (times_in times.now) o j) result }
{
    if 0 < o && 0 < j {
        return time_at(times, n, o, j);
    }
    if o == j { Some(ZERO) } else { None }
}

// What row o asks of x(j) less the image in row r.
fn asked(target: Target<i32>, o: usize, r: usize, j: usize) -> Number
    requires { (r ≤ target.n) × (o ≤ target.n) × (j ≤ target.n) }
    ensures { let t = target.entry in
        ReadWithin NeedMost (asks (entry (suc t.n) (Memory.bounds_in t.zone.now) o r) (row_time t.n (times_in t.times.now) o j)) result }
{
    let Some(time) = row_time(target.times, target.n, o, j) else {
        return BLANK;
    };
    bound_at(target.zone, target.n, o, r) + Number::difference(ZERO, time)
}

// The tightest that a row asks of it.
fn need(target: Target<i32>, r: usize, j: usize) -> Number
    requires { (r ≤ target.n) × (j ≤ target.n) }
    ensures { let t = target.entry in ReadWithin NeedMost (need t.n (times_in t.times.now) (Memory.bounds_in t.zone.now) r j) result }
{
    let mut least = BLANK;
    for o in (0..target.n + 1).rev() {
        least = asked(target, o, r, j).tighter(least);
    }
    least
}

// Row r of the table of needs.
fn need_row(table: &mut [i64], target: Target<i32>, r: usize)
    requires { (r ≤ target.n) × ZoneIn target.n table.old }
    ensures { let t = target.entry in RowFilled t.n (bounds_in table.old) (bounds_in table.new)
        (need t.n (times_in t.times.now) (Memory.bounds_in t.zone.now) r) r (suc t.n) }
{
    for j in 0..target.n + 1 {
        put(table, target.n, r, j, need(target, r, j));
    }
}

// The table of needs of a zone.
pub fn needs(table: &mut [i64], target: Target<i32>)
    requires { ZoneIn target.n table.old }
    ensures { let t = target.entry in bounds_in table.new ≡ needs t.n (times_in t.times.now) (Memory.bounds_in t.zone.now) }
{
    for r in 0..target.n + 1 {
        need_row(table, target, r);
    }
}

// The times of n departures, and the table of what a zone needs of the times whose image is in it.
#[derive(Clone, Copy)]
pub struct Outlook<'a, 'b> {
    pub times: &'a [i32],
    pub table: &'b [i64],
    pub n: usize,
    ghost times_in: { TableIn n times.now },
    ghost needs_in: { ZoneIn n table.now },
}

// At no time of part x(j) - x(c) is within what is needed of column c there: what the table has for its row, and own, which the column adds.
fn beyond(part: &[i32], outlook: Outlook, c: Choice, own: Number, j: usize) -> bool
    requires { LookingAt outlook.n part.now outlook.times.now c × (j ≤ outlook.n)
        × ReadWithin InMemory (most (chosen outlook.n (times_in outlook.times.now) c.row c.column)) own }
    ensures { let o = outlook.entry in
        result ≡ true → Beyond o.n (times_in o.times.now) (bounds_in o.table.now) (Memory.bounds_in part.now) c j }
{
    let needed = bound_at(outlook.table, outlook.n, c.row, j) + own;
    (bound_at(part, outlook.n, c.column, j) + needed).negative()
}

// What is needed of column c leaves nothing of part: x(j) - x(c) can be within it at no time of part, for some j.
pub fn unfit(part: &[i32], outlook: Outlook, c: Choice) -> bool
    requires { LookingAt outlook.n part.now outlook.times.now c }
    ensures { let o = outlook.entry in result ≡ true → Unfit o.n (times_in o.times.now) (bounds_in o.table.now) (Memory.bounds_in part.now) c }
{
    let added = zones::chosen(outlook.times, outlook.n, c.row, c.column);
    let own = Number::difference(added, ZERO);
    (0..outlook.n + 1).any(|j| beyond(part, outlook, c, own, j))
}

// The column of a row before does not fit.
fn known_unfit(part: &[i32], outlook: Outlook, cols: &[usize], i: usize) -> bool
    requires { ZoneIn outlook.n part.now × KnownRows outlook.n outlook.times.now cols.now i }
    ensures { let o = outlook.entry in
        result ≡ true → UnfitBefore o.n (times_in o.times.now) (bounds_in o.table.now) (Memory.bounds_in part.now) cols.now i }
{
    (0..i).any(|row| {
        let known = Choice {
            row,
            column: cols[row],
        };
        unfit(part, outlook, known)
    })
}

// Column c is blank, or does not fit.
fn column_out(part: &[i32], outlook: Outlook, c: Choice) -> bool
    requires { ZoneIn outlook.n part.now × TimeCell outlook.n outlook.times.now c.row c.column }
    ensures { let o = outlook.entry in
        result ≡ true → Column o.n (times_in o.times.now) c.row c.column
        → Unfit o.n (times_in o.times.now) (bounds_in o.table.now) (Memory.bounds_in part.now) c }
{
    time_at(outlook.times, outlook.n, c.row, c.column).is_none() || unfit(part, outlook, c)
}

// So it is of every column of row r.
fn row_out(part: &[i32], outlook: Outlook, r: usize) -> bool
    requires { ZoneIn outlook.n part.now × (1 ≤ r) × (r ≤ outlook.n) }
    ensures { let o = outlook.entry in
        result ≡ true → NoneFits o.n (times_in o.times.now) (bounds_in o.table.now) (Memory.bounds_in part.now) r }
{
    (1..outlook.n + 1).all(|column| column_out(part, outlook, Choice { row: r, column }))
}

// So it is of a row from row i on.
fn later_out(part: &[i32], outlook: Outlook, i: usize) -> bool
    requires { ZoneIn outlook.n part.now × (1 ≤ i) }
    ensures { let o = outlook.entry in
        result ≡ true → UnfitFrom o.n (times_in o.times.now) (bounds_in o.table.now) (Memory.bounds_in part.now) i }
{
    (i..outlook.n + 1).any(|r| row_out(part, outlook, r))
}

// Nothing is left of part, the columns of rows 0 to i - 1 being those of cols, whatever columns the rows from row i on have.
pub fn shut(part: &[i32], outlook: Outlook, cols: &[usize], i: usize) -> bool
    requires { ZoneIn outlook.n part.now × KnownRows outlook.n outlook.times.now cols.now i }
    ensures { let o = outlook.entry in
        result ≡ true → Barred o.n (times_in o.times.now) (bounds_in o.table.now) (Memory.bounds_in part.now) cols.now i }
{
    known_unfit(part, outlook, cols, i) || later_out(part, outlook, i)
}
