// Zones in memory: one more constraint in place, what a row of a preimage adds, what a zone has in common with a pattern.
#![tactic(auto)]

ghost use Rattle.std.specs.Prelude.{◌≡◌, true, suc, ◌+◌, ◌*◌, ◌≤◌, ◌<◌, ℕ, nat_abs, length};
ghost use Rattle.std.proofs.Math.Option.{some};
ghost use Rattle.model.specs.Sizes.{most_times_at_once, zone_size};
ghost use Rattle.model.specs.Bound.{Bound, plus, tighter};
ghost use Rattle.model.specs.Matrix.{diagonal, everything};
ghost use Rattle.model.specs.Pattern.{pattern_constraints};
ghost use Rattle.model.specs.Search.{row_constraints};
ghost use Rattle.model.specs.Conditions.{Small};
ghost use Rattle.memory.specs.Numbers.{of_halves, bound_in, bounds_in, as_bound, Limit, Widest};
ghost use Rattle.memory.specs.Conditions.{TableIn, ZoneIn};
ghost use Rattle.memory.specs.Matrices.{RowFilled, Relaxable, across, leaves, Left, limited, Takes, TakesOne, ConstrainReady};
ghost use Rattle.zones.specs.Conditions.{Taken, RowsReady, CommonReady};
ghost use Rattle.zones.specs.Inner.{narrow_most, Narrow, RowNarrow, room_of_row, RowIn, WidthOf, ColumnsOf, beside, EntryReady, EntriesReady};
ghost use Rattle.zones.specs.Inner.{RowMade, RelaxReady, Adding, AddedWithin, led, attains_by, keep_one, keep_both, images};
ghost use Rattle.zones.specs.Said.{said_row, said_all, Sayable, SaidLeft};
ghost use Rattle.zones.specs.Inner.{AttainsReady, Keeping, KeepsImages};

use ints::{Seconds, ZERO};
use memory::{Halves, NONE, Number, Stored, bound_at, diagonal, pair_bound, place, put, time_at};

// The column of a row in a selection.
#[derive(Clone, Copy)]
pub struct Choice {
    pub row: usize,
    pub column: usize,
}

// Room for the longest row, and a multiple of the numbers that the machine takes at once.
const ROW: usize = 32;

// The sum of two numbers that are at most this in size is one of 32 bits.
const NARROW: u64 = 1073741823;

// The sum of two bounds in halves, in 32 bits.
fn narrow_sum(a: i32, b: i32) -> i32
    requires { (nat_abs a ≤ narrow_most) × (nat_abs b ≤ narrow_most) }
    ensures { of_halves result ≡ plus (of_halves a) (of_halves b) }
{
    a + b + (a & b & 1)
}

// The tighter of a number in memory and a bound, as a number in memory.
fn tighter(old: i32, new: Halves) -> i32
    requires { Small Limit (tighter (bound_in old) (of_halves new.0)) }
    ensures { bound_in result ≡ tighter (bound_in old) (of_halves new.0) }
{
    (old as i64).min(new.0) as i32
}

// A number of row i with the way by row b, whose number there is rest. The sum is in 32 bits where narrow says so, else in 64.
fn relaxed(old: i32, rest: i32, way: Halves, narrow: bool) -> i32
    requires { EntryReady old rest way.0 narrow }
    ensures { bound_in result ≡ tighter (bound_in old) (plus (of_halves way.0) (bound_in rest)) }
{
    if rest == NONE {
        return old;
    }
    if narrow {
        let sum = narrow_sum(way.0 as i32, rest);
        return tighter(old, Halves(sum as i64));
    }
    tighter(old, way + Halves(rest as i64))
}

// How many columns are passed over in row i: width, or n + 1 where the zone ends before.
fn columns_at(size: usize, n: usize, i: usize, width: usize) -> usize
    requires { (size ≡ zone_size n) × (i < suc n) × WidthOf n width }
    ensures { ColumnsOf n i width size result }
{
    let base = place(n + 1, i, 0);
    if base + width <= size {
        return width;
    }
    n + 1
}

// A row that was copied: which it is, its numbers, how many of them are passed over, and whether those can be added in 32 bits.
#[derive(Clone, Copy)]
struct Rest<'a> {
    row: usize,
    numbers: &'a [i32],
    width: usize,
    narrow: bool,
}

// Row i takes in what follows by way of the row that was copied, place by place; way bounds x(i) - x(rest.row). Beyond the row rest is blank, and what
// stands there stays. The loop compiles to one over vectors of eight numbers.
fn relax_entries(zone: &mut [i32], n: usize, i: usize, rest: Rest, way: Halves)
    requires { EntriesReady n zone.old rest.numbers.now i rest.width way.0 rest.narrow }
    ensures { RowMade n zone.old zone.new (beside n zone.old rest.entry.numbers.now i (of_halves way.0)) i }
{
    let base = place(n + 1, i, 0);
    for (j, number) in zone[base..base + rest.width].iter_mut().enumerate() {
        *number = relaxed(*number, rest.numbers[j], way, rest.narrow);
    }
}

// Row i takes in the way by the row that was copied. Where way is blank, or the zone bounds x(i) - x(rest.row) by it already, nothing follows, and the row
// is passed over.
fn relax_row(zone: &mut [i32], n: usize, i: usize, rest: Rest, way: Number)
    requires { RelaxReady n zone.old rest.numbers.now i rest.row rest.width rest.narrow (as_bound way) }
    ensures { RowMade n zone.old zone.new (across n (bounds_in zone.old) i rest.entry.row (as_bound way)) i }
{
    let Some(c) = way.0 else {
        return;
    };
    if bound_at(zone, n, i, rest.row).implies(c) {
        return;
    }
    let passed = Rest {
        width: columns_at(zone.len(), n, i, rest.width),
        narrow: rest.narrow & !Seconds(c.0).beyond(NARROW),
        ..rest
    };
    relax_entries(zone, n, i, passed, c)
}

// The columns of a row, and so many more that they are a multiple of eight.
fn width_of(n: usize) -> usize
    requires { n ≤ most_times_at_once }
    ensures { WidthOf n result }
{
    (n + 8) / 8 * 8
}

// Row b of the zone, with blanks beyond it.
fn row_of(zone: &[i32], n: usize, b: usize) -> [i32; ROW]
    requires { ZoneIn n zone.now × (b < suc n) }
    ensures { RowIn n (bounds_in zone.now) b result }
{
    let base = place(n + 1, b, 0);
    let mut row = [NONE; ROW];
    row[..n + 1].copy_from_slice(&zone[base..base + n + 1]);
    row
}

// It stands for no bound, or can be added in 32 bits.
fn is_narrow(raw: i32) -> bool
    ensures { result ≡ true → Narrow raw }
{
    if raw == NONE {
        return true;
    }
    !Seconds::from(raw).beyond(NARROW)
}

// So does each of the first numbers of a row. The loop looks at all of them, and so compiles to one over vectors; `all`, which stops early, took up to twice
// as long.
fn all_narrow(row: &[i32], count: usize) -> bool
    requires { (count ≤ length row.now) × (count ≤ room_of_row) }
    ensures { result ≡ true → RowNarrow count row.now }
{
    let mut all = true;
    for raw in &row[..count] {
        all = all & is_narrow(*raw);
    }
    all
}

// Row i takes in what follows by way of row b, place by place; way bounds x(i) - x(b).
fn across_entries<T: Stored>(zone: &mut [T], n: usize, i: usize, b: usize, way: Number)
    requires { Relaxable n T.limit (4 * T.largest) zone.old (T.bounds_in zone.old) i b (as_bound way) }
    ensures { RowFilled n (T.bounds_in zone.old) (T.bounds_in zone.new) (across n (T.bounds_in zone.old) i b (as_bound way)) i (suc n) }
{
    for j in 0..n + 1 {
        let new = bound_at(zone, n, i, j).tighter(way + bound_at(zone, n, b, j));
        put(zone, n, i, j, new);
    }
}

// The same. Where way is blank, or the zone bounds x(i) - x(b) by it already, nothing follows, and the row is passed over.
fn across_row<T: Stored>(zone: &mut [T], n: usize, i: usize, b: usize, way: Number)
    requires { Relaxable n T.limit (4 * T.largest) zone.old (T.bounds_in zone.old) i b (as_bound way) }
    ensures { RowFilled n (T.bounds_in zone.old) (T.bounds_in zone.new) (across n (T.bounds_in zone.old) i b (as_bound way)) i (suc n) }
{
    let Some(c) = way.0 else {
        return;
    };
    if bound_at(zone, n, i, b).implies(c) {
        return;
    }
    across_entries(zone, n, i, b, way)
}

// How numbers of a width take in one more constraint.
pub trait Constrained: Stored {
    // In place: x(a) - x(b) is within c. Some times are left, so the way round, from b to a and back by c, is not negative, and row b stays.
    fn constrain(zone: &mut [Self], n: usize, a: usize, b: usize, c: Halves)
        requires { ConstrainReady n Self.limit (3 * Self.largest) (Self.bounds_in zone.old) a b (of_halves c.0) }
        ensures { leaves n (Self.bounds_in zone.old) (limited a b (of_halves c.0)) ≡ some (Self.bounds_in zone.new) };
}

// Row b is copied before, and the rows take it in by vectors.
impl Constrained for i32 {
    fn constrain(zone: &mut [i32], n: usize, a: usize, b: usize, c: Halves) {
        let row = row_of(zone, n, b);
        let width = width_of(n);
        let rest = Rest {
            row: b,
            numbers: &row,
            width,
            narrow: all_narrow(&row, width),
        };
        for i in 0..n + 1 {
            let way = bound_at(zone, n, i, a) + Number(Some(c));
            relax_row(zone, n, i, rest, way);
        }
    }
}

impl Constrained for i64 {
    fn constrain(zone: &mut [i64], n: usize, a: usize, b: usize, c: Halves) {
        for i in 0..n + 1 {
            let way = bound_at(zone, n, i, a) + Number(Some(c));
            across_row(zone, n, i, b, way);
        }
    }
}

// One more constraint, in place: x(a) - x(b) is within limit, which may be blank. False where no times are left, and then what stands in zone is free. What
// the zone implies already changes nothing. The zone may be of two times for each departure.
pub fn take_in<T: Constrained>(zone: &mut [T], n: usize, a: usize, b: usize, limit: Number) -> bool
    requires { TakesOne n T.limit (3 * T.largest) (T.bounds_in zone.old) a b (as_bound limit) }
    ensures { Left (leaves n (T.bounds_in zone.old) (limited a b (as_bound limit))) result (T.bounds_in zone.new) }
{
    let Some(c) = limit.0 else {
        return true;
    };
    if bound_at(zone, n, a, b).implies(c) {
        return true;
    }
    let around = bound_at(zone, n, b, a) + limit;
    if around.negative() {
        return false;
    }
    T::constrain(zone, n, a, b, c);
    true
}

// Row i of the zone of all times.
fn open_row<T: Stored>(zone: &mut [T], n: usize, i: usize)
    requires { ZoneIn n zone.old × (i < suc n) }
    ensures { RowFilled n (T.bounds_in zone.old) (T.bounds_in zone.new) (diagonal i) i (suc n) }
{
    for j in 0..n + 1 {
        put(zone, n, i, j, diagonal(i, j));
    }
}

// The zone of all times.
pub fn everything<T: Stored>(zone: &mut [T], n: usize)
    requires { ZoneIn n zone.old }
    ensures { T.bounds_in zone.new ≡ everything (suc n) }
{
    for i in 0..n + 1 {
        open_row(zone, n, i);
    }
}

// What column s adds in row i. The clock, as row 0, adds 0.
pub fn chosen<T: Stored>(times: &[T], n: usize, i: usize, s: usize) -> Seconds
    requires { Adding n times.now (T.times_in times.now) i s }
    ensures { AddedWithin T.largest n (T.times_in times.now) i s result }
{
    if i == 0 {
        return ZERO;
    }
    time_at(times, n, i, s).unwrap_or(ZERO)
}

// What column s adds, against column j: where the first column counts, one less against an earlier one, which then attains less.
fn lead(first: bool, j: usize, s: usize, c: Seconds) -> Seconds
    requires { nat_abs c.0 ≤ Widest }
    ensures { (result.0 ≡ led first j s c.0) × (nat_abs result.0 ≤ suc (nat_abs c.0)) }
{
    let earlier = j < s;
    if first && earlier {
        return Seconds(c.0 - 1);
    }
    c
}

// In its row the column attains the largest sum: with others, or as the first that does.
pub fn attain<T: Constrained>(part: &mut [T], times: &[T], n: usize, c: Choice, first: bool) -> bool
    requires { AttainsReady T.limit n (T.bounds_in part.old) times.now (T.times_in times.now) c.row c.column first }
    ensures { Left (leaves n (T.bounds_in part.old) (attains_by first n (T.times_in times.now) c.row c.column)) result (T.bounds_in part.new) }
{
    let added = chosen(times, n, c.row, c.column);
    for j in 1..n + 1 {
        let limit = Number::slack(lead(first, j, c.column, added), time_at(times, n, c.row, j));
        if !take_in(part, n, j, c.column, limit) {
            return false;
        }
    }
    true
}

// The zone in which images by a table are to be, of n departures.
pub struct Target<'a, T> {
    pub times: &'a [T],
    pub zone: &'a [T],
    pub n: usize,
    ghost times_in: { TableIn n times.now },
    ghost zone_in: { ZoneIn n zone.now },
}

// Not derived: the derive does not take a ghost field beside a type parameter.
impl<T> Clone for Target<'_, T> {
    fn clone(&self) -> Result<Self, std::alloc::AllocError> {
        Ok(*self)
    }
}

impl<T> Copy for Target<'_, T> {}

// The image of a.row less that of b.row keeps to the zone; where the zone has no bound there, nothing is asked.
fn keep_one<T: Constrained>(part: &mut [T], target: Target<T>, a: Choice, b: Choice) -> bool
    requires { Keeping T.limit target.n (T.bounds_in part.old) target.times.now (T.times_in target.times.now) a b
        (keep_one target.n (T.times_in target.times.now) (T.bounds_in target.zone.now) a b) }
    ensures { let t = target.entry in
        Left (leaves t.n (T.bounds_in part.old) (keep_one t.n (T.times_in t.times.now) (T.bounds_in t.zone.now) a b)) result (T.bounds_in part.new) }
{
    let near = bound_at(target.zone, target.n, a.row, b.row);
    if near.0.is_none() {
        return true;
    }
    let apart = Number::difference(
        chosen(target.times, target.n, b.row, b.column),
        chosen(target.times, target.n, a.row, a.column),
    );
    take_in(part, target.n, a.column, b.column, near + apart)
}

// Both ways.
fn keep_both<T: Constrained>(part: &mut [T], target: Target<T>, a: Choice, b: Choice) -> bool
    requires { Keeping T.limit target.n (T.bounds_in part.old) target.times.now (T.times_in target.times.now) a b
        (keep_both target.n (T.times_in target.times.now) (T.bounds_in target.zone.now) a b) }
    ensures { let t = target.entry in
        Left (leaves t.n (T.bounds_in part.old) (keep_both t.n (T.times_in t.times.now) (T.bounds_in t.zone.now) a b)) result (T.bounds_in part.new) }
{
    keep_one(part, target, a, b) && keep_one(part, target, b, a)
}

// The images of c.row and of each row before keep to the zone; cols holds the columns of those.
pub fn keep_images<T: Constrained>(
    part: &mut [T],
    target: Target<T>,
    cols: &[usize],
    c: Choice,
) -> bool
    requires { KeepsImages T.limit target.n (T.bounds_in part.old) target.times.now (T.times_in target.times.now) (T.bounds_in target.zone.now)
        cols.now c.row c.column }
    ensures { let t = target.entry in
        Left (leaves t.n (T.bounds_in part.old) (images t.n (T.times_in t.times.now) (T.bounds_in t.zone.now) cols.now c.row c.column))
        result (T.bounds_in part.new) }
{
    for l in 0..c.row {
        let earlier = Choice {
            row: l,
            column: cols[l],
        };
        if !keep_both(part, target, c, earlier) {
            return false;
        }
    }
    true
}

// Adds to part what c.row adds with its column for the preimage of the zone; cols holds the columns of the rows before.
// False where no times are left, and then what stands in part is free.
pub fn add_row<T: Constrained>(part: &mut [T], target: Target<T>, cols: &[usize], c: Choice) -> bool
    requires { RowsReady T.limit target.n part.old (T.bounds_in part.old) (T.times_in target.times.now) (T.bounds_in target.zone.now)
        cols.now c.row c.column }
    ensures { let t = target.entry in
        Left (leaves t.n (T.bounds_in part.old) (row_constraints t.n (T.times_in t.times.now) (T.bounds_in t.zone.now) cols.now c.row c.column))
        result (T.bounds_in part.new) }
{
    attain(part, target.times, target.n, c, false) && keep_images(part, target, cols, c)
}

// Takes in what bound says of x(i) - x(j), for each j. False where no times are left, and then what stands in zone is free.
fn take_row<T: Constrained, F: Fn(usize, usize) -> Number + Copy>(
    zone: &mut [T],
    n: usize,
    i: usize,
    bound: F,
) -> bool
    requires { (i < suc n) × Sayable n T.limit T.largest (T.bounds_in zone.old) (F.pre bound) (F.post bound) (said_row n i) }
    ensures { SaidLeft n T.limit T.largest (T.bounds_in zone.old) (F.pre bound) (F.post bound) (said_row n i) result (T.bounds_in zone.new) }
{
    for j in 0..n + 1 {
        if !take_in(zone, n, i, j, bound(i, j)) {
            return false;
        }
    }
    true
}

// Takes in what bound says of x(i) - x(j), for each i and j, likewise.
pub fn take_all<T: Constrained, F: Fn(usize, usize) -> Number + Copy>(
    zone: &mut [T],
    n: usize,
    bound: F,
) -> bool
    requires { Sayable n T.limit T.largest (T.bounds_in zone.old) (F.pre bound) (F.post bound) (said_all n) }
    ensures { SaidLeft n T.limit T.largest (T.bounds_in zone.old) (F.pre bound) (F.post bound) (said_all n) result (T.bounds_in zone.new) }
{
    for i in 0..n + 1 {
        if !take_row(zone, n, i, bound) {
            return false;
        }
    }
    true
}

// What the zone has in common with a pattern. False where that is nothing, and then what stands in zone is free.
pub fn common(zone: &mut [i32], pattern: &[i32], n: usize) -> bool
    requires { CommonReady n zone.old pattern.now }
    ensures { Taken n zone.old (pattern_constraints n (bounds_in pattern.now)) result zone.new }
{
    take_all(zone, n, |i, j| pair_bound(pattern, n, i, j))
}
