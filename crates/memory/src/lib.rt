// Numbers in memory: the bounds of zones and of patterns, and the times of the table.
#![tactic(auto)]

ghost use Rattle.std.specs.Prelude.{◌≡◌, ℕ, List, true, ◌&&◌, ◌||◌, map, suc, ◌+◌, ◌*◌, ◌≤◌, ◌<◌, pos, ◌-ℤ◌, nat_abs, length, set, take};
ghost use Rattle.std.specs.List.{All, AllZip};
ghost use Rattle.std.specs.Int.Signed.{lt_z};
ghost use Rattle.model.specs.Sizes.{most_departures, bound_limit, table_size, pattern_size, zone_size, most_bounds, most_times_at_once};
ghost use Rattle.model.specs.Lists.{Every};
ghost use Rattle.model.specs.Bound.{Bound, upto, most, LeB, plus, tighter, negative};
ghost use Rattle.model.specs.Matrix.{entry, diagonal};
ghost use Rattle.model.specs.Pattern.{pair_bound, is_none, only_differences};
ghost use Rattle.model.specs.Network.{Time, secs_of, time, is_time};
ghost use Rattle.model.specs.Search.{slack};
ghost use Rattle.std.proofs.Math.Option.{none};
ghost use Rattle.model.specs.Faults.{time_of, bound_of, case_fault};
ghost use Rattle.model.specs.Conditions.{Small, InLimit, BoundInLimit};
ghost use Rattle.memory.specs.Numbers.{of_halves, none_in, bound_in, time_in, bounds_in, times_in, as_bound, InMemory, Limit, Widest};
ghost use Rattle.memory.specs.Numbers.{bounds_mapped, times_mapped, narrow_room};
ghost use Rattle.memory.specs.Wide as Wide;
ghost use Rattle.memory.specs.Networks.{CaseIn};
ghost use Rattle.memory.specs.Conditions.{PatternIn, ReadWithin, TimeWithin, PlaceOf, ZoneCell, PairCell, TimeCell};

use ints::Seconds;
use model::{BOUNDS, Case, Limit};
use std::marker::Model;
use std::ops::Add;

// Stands for no bound, and for a blank.
pub const NONE: i32 = 2147483647;

// The most that a number of 64 bits is in size if it is a bound in halves, or a time.
const LARGEST: u64 = 1000000000000000;

// Stands for no bound, and for a blank, in 64 bits.
pub const WIDE_NONE: i64 = 1000000000000001;

// A bound in halves: 2b stands for at most b, and 2b - 1 for less than b. The smaller number is the tighter bound.
#[derive(Clone, Copy, PartialEq, Eq, PartialOrd, Ord)]
pub struct Halves(pub i64);

impl Halves {
    pub fn of(value: Seconds, strict: bool) -> Halves
        requires { nat_abs value.0 ≤ Widest }
        ensures { of_halves result.0 ≡ upto strict value.0 }
    {
        if strict {
            return Halves(value.0 + value.0 - 1);
        }
        Halves(value.0 + value.0)
    }

    pub fn negative(self) -> bool
        ensures { result ≡ lt_z self.0 (pos 0) }
    {
        self.0 < 0
    }
}

impl Add for Halves {
    type Output = Halves;

    ghost can_add = { λ a b. Small Widest (plus (of_halves a.0) (of_halves b.0)) };

    ghost add_gives = { λ a b sum. of_halves sum.0 ≡ plus (of_halves a.0) (of_halves b.0) };

    // A sum is strict if one part is: that of two odd numbers is one more, and odd too.
    fn add(self, other: Halves) -> Halves {
        Halves(self.0 + other.0 + (self.0 & other.0 & 1))
    }
}

// What a number in memory stands for as a bound.
#[derive(Clone, Copy)]
pub struct Number(pub Option<Halves>);

pub const BLANK: Number = Number(None);

impl Number {
    // At most value, or less than it.
    pub fn upto(value: Seconds, strict: bool) -> Number
        requires { nat_abs value.0 ≤ Widest }
        ensures { as_bound result ≡ upto strict value.0 }
    {
        Number(Some(Halves::of(value, strict)))
    }

    // A bound of a case.
    #[tactic(auto, using(crate::proofs::Slots::in_limit), unfolding(model::specs::Faults::bound_of))]
    fn of(limit: Option<Limit>) -> Number
        requires { BoundInLimit limit }
        ensures { as_bound result ≡ bound_of limit }
    {
        match limit {
            Some(limit) => Number::upto(limit.value, limit.strict),
            None => BLANK,
        }
    }

    // At most a - b.
    pub fn difference(a: Seconds, b: Seconds) -> Number
        requires { nat_abs (a.0 -ℤ b.0) ≤ Widest }
        ensures { as_bound result ≡ most (a.0 -ℤ b.0) }
    {
        Number::upto(a - b, false)
    }

    // The bound on x(j) - x(s) where the time t is added to x(j), c to x(s), and the second sum is not less.
    #[tactic(auto, using(model::proofs::Size::small_size), unfolding(model::specs::Search::slack, model::specs::Faults::time_of))]
    pub fn slack(c: Seconds, t: Option<Seconds>) -> Number
        requires { Small Widest (slack c.0 (time_of t)) }
        ensures { as_bound result ≡ slack c.0 (time_of t) }
    {
        match t {
            Some(t) => Number::difference(c, t),
            None => BLANK,
        }
    }

    #[tactic(auto, using(crate::proofs::InHalves::tighter_halves, crate::proofs::InHalves::tighter_none), unfolding(model::specs::Bound::tighter))]
    pub fn tighter(self, other: Number) -> Number
        ensures { as_bound result ≡ tighter (as_bound self) (as_bound other) }
    {
        let Some(a) = self.0 else {
            return other;
        };
        let Some(b) = other.0 else {
            return self;
        };
        if a <= b { self } else { other }
    }

    #[tactic(auto, using(crate::proofs::InHalves::negative_halves), unfolding(model::specs::Bound::negative))]
    pub fn negative(self) -> bool
        ensures { result ≡ negative (as_bound self) }
    {
        self.0.is_some_and(|a| a.negative())
    }

    // True only where all that keeps to this bound keeps to c.
    #[tactic(auto, using(crate::proofs::InHalves::halves_le))]
    pub fn implies(self, c: Halves) -> bool
        ensures { result ≡ true → LeB (as_bound self) (of_halves c.0) }
    {
        self.0.is_some_and(|a| a <= c)
    }
}

impl Add for Number {
    type Output = Number;

    ghost can_add = { λ a b. Small Widest (plus (as_bound a) (as_bound b)) };

    ghost add_gives = { λ a b sum. as_bound sum ≡ plus (as_bound a) (as_bound b) };

    #[tactic(auto, using(crate::proofs::InHalves::plus_blank), unfolding(model::specs::Bound::plus))]
    fn add(self, other: Number) -> Number {
        let (Some(a), Some(b)) = (self.0, other.0) else {
            return BLANK;
        };
        Number(Some(a + b))
    }
}

// A number in memory, of 32 or of 64 bits.
pub trait Stored: Copy {
    // What it stands for as a bound and as a time, and so do many.
    ghost bound_in: { Self → Bound };

    ghost time_in: { Self → Time };

    ghost bounds_in: { List Self → List Bound };

    ghost times_in: { List Self → List Time };

    // The most that a number which was read is in size, and a bound that is stored.
    ghost largest: { ℕ };

    ghost limit: { ℕ };

    fn bound(self) -> Number
        ensures { ReadWithin largest (bound_in self) result };

    fn time(self) -> Option<Seconds>
        ensures { TimeWithin largest (time_in self) result };

    // The number that stands for a bound.
    fn of_bound(bound: Number) -> Self
        requires { Small limit (as_bound bound) }
        ensures { bound_in result ≡ as_bound bound };

    ghost bounds_are: { (numbers : List Self) → bounds_in numbers ≡ map bound_in numbers };

    ghost times_are: { (numbers : List Self) → times_in numbers ≡ map time_in numbers };

    // A bound, and a limit of a bound and two times, can be added.
    ghost room: { (2 ≤ largest) × (5 * largest ≤ Widest) };
}

// One number of 32 bits stands for no bound, and for a blank.
impl Stored for i32 {
    ghost bound_in = { bound_in };

    ghost time_in = { time_in };

    ghost bounds_in = { bounds_in };

    ghost times_in = { times_in };

    ghost largest = { InMemory };

    ghost limit = { Limit };

    ghost bounds_are = { bounds_mapped };

    ghost times_are = { times_mapped };

    ghost room = { narrow_room };

    fn bound(self) -> Number {
        if self == NONE {
            return BLANK;
        }
        Number(Some(Halves(self as i64)))
    }

    fn time(self) -> Option<Seconds> {
        if self == NONE {
            return None;
        }
        Some(Seconds::from(self))
    }

    fn of_bound(bound: Number) -> i32 {
        match bound.0 {
            None => NONE,
            Some(c) => c.0 as i32,
        }
    }
}

// Each number of 64 bits that is large in size stands for no bound, and for a blank.
impl Stored for i64 {
    ghost bound_in = { Wide.bound_in };

    ghost time_in = { Wide.time_in };

    ghost bounds_in = { Wide.bounds_in };

    ghost times_in = { Wide.times_in };

    ghost largest = { Wide.Largest };

    ghost limit = { Wide.Stored };

    ghost bounds_are = { Wide.bounds_mapped };

    ghost times_are = { Wide.times_mapped };

    ghost room = { Wide.room };

    fn bound(self) -> Number {
        if Seconds(self).beyond(LARGEST) {
            return BLANK;
        }
        Number(Some(Halves(self)))
    }

    fn time(self) -> Option<Seconds> {
        if Seconds(self).beyond(LARGEST) {
            return None;
        }
        Some(Seconds(self))
    }

    fn of_bound(bound: Number) -> i64 {
        match bound.0 {
            None => WIDE_NONE,
            Some(c) => c.0,
        }
    }
}

// The number in memory that stands for a time.
pub fn raw_time(entry: Option<Seconds>) -> i32
    requires { nat_abs (secs_of (time_of entry)) < none_in }
    ensures { time_in result ≡ time_of entry }
{
    let Some(time) = entry else {
        return NONE;
    };
    time.0 as i32
}

// The number in memory that stands for a bound of a case.
fn raw_bound(entry: Option<Limit>) -> i32
    requires { BoundInLimit entry }
    ensures { bound_in result ≡ bound_of entry }
{
    i32::of_bound(Number::of(entry))
}

// The bound on x(i) - x(j) where all times are allowed.
pub fn diagonal(i: usize, j: usize) -> Number
    ensures { (as_bound result ≡ diagonal i j) × Small 0 (as_bound result) }
{
    if i == j {
        Number(Some(Halves(0)))
    } else {
        BLANK
    }
}

// Of rows and columns.
fn product(a: usize, b: usize) -> usize
    requires { (a ≤ suc most_times_at_once) × (b ≤ suc most_times_at_once) }
    ensures { result ≡ a * b }
{
    a * b
}

// How many numbers the table and a pattern of n departures are, and a zone of n times.
pub fn table_size(n: usize) -> usize
    requires { n ≤ most_departures }
    ensures { result ≡ table_size n }
{
    product(n, n)
}

pub fn pattern_size(n: usize) -> usize
    requires { n ≤ most_departures }
    ensures { result ≡ pattern_size n }
{
    product(n, n + 1)
}

pub fn zone_size(n: usize) -> usize
    requires { n ≤ most_times_at_once }
    ensures { result ≡ zone_size n }
{
    product(n + 1, n + 1)
}

// The place of (i, j) in rows of m numbers.
pub fn place(m: usize, i: usize, j: usize) -> usize
    requires { (m ≤ suc most_times_at_once) × (i ≤ most_times_at_once) × (j < m) }
    ensures { PlaceOf m i j result }
{
    i * m + j
}

// The bound of a zone on x(i) - x(j).
pub fn bound_at<T: Stored>(zone: &[T], n: usize, i: usize, j: usize) -> Number
    requires { ZoneCell n zone.now i j }
    ensures { ReadWithin T.largest (entry (suc n) (T.bounds_in zone.now) i j) result }
{
    zone[place(n + 1, i, j)].bound()
}

// Stores a bound on x(i) - x(j).
pub fn put<T: Stored>(zone: &mut [T], n: usize, i: usize, j: usize, b: Number)
    requires { ZoneCell n zone.old i j × Small T.limit (as_bound b) }
    ensures { T.bounds_in zone.new ≡ set (T.bounds_in zone.old) (i * suc n + j) (as_bound b) }
{
    zone[place(n + 1, i, j)] = T::of_bound(b);
}

// A(i, j) of the table.
pub fn time_at<T: Stored>(times: &[T], n: usize, i: usize, j: usize) -> Option<Seconds>
    requires { TimeCell n times.now i j }
    ensures { TimeWithin T.largest (time n (T.times_in times.now) i j) result }
{
    times[place(n, i - 1, j - 1)].time()
}

// Column j of row i holds a time.
pub fn holds_time<T: Stored>(times: &[T], n: usize, i: usize, j: usize) -> bool
    requires { TimeCell n times.now i j }
    ensures { result ≡ is_time (time n (T.times_in times.now) i j) }
{
    time_at(times, n, i, j).is_some()
}

// The bound of a pattern on x(i) - x(j).
pub fn pair_bound<T: Stored>(pattern: &[T], n: usize, i: usize, j: usize) -> Number
    requires { PairCell n pattern.now i j }
    ensures { ReadWithin T.largest (pair_bound n (T.bounds_in pattern.now) i j) result }
{
    if i == j {
        return BLANK;
    }
    let column = if j < i { j } else { j - 1 };
    pattern[place(n, i, column)].bound()
}

// No bound of the pattern names both the clock and departure j.
fn off_clock(pattern: &[i32], n: usize, j: usize) -> bool
    requires { PairCell n pattern.now 0 j }
    ensures { let b = bounds_in pattern.now in result ≡ (is_none (pair_bound n b 0 j) && is_none (pair_bound n b j 0)) }
{
    let from = pair_bound(pattern, n, 0, j);
    let to = pair_bound(pattern, n, j, 0);
    from.0.is_none() && to.0.is_none()
}

// No bound of the pattern names the clock.
pub fn only_differences(pattern: &[i32], n: usize) -> bool
    requires { PatternIn n pattern.now }
    ensures { result ≡ only_differences n (bounds_in pattern.now) }
{
    (1..n + 1).all(|j| off_clock(pattern, n, j))
}

// Start or target bounds only differences.
pub fn differences(start: &[i32], target: &[i32], n: usize) -> bool
    requires { PatternIn n start.now × PatternIn n target.now }
    ensures { result ≡ (only_differences n (bounds_in start.now) || only_differences n (bounds_in target.now)) }
{
    only_differences(start, n) || only_differences(target, n)
}

// What change makes of each entry, at the front of an array; what stands beyond is free.
pub fn changed<X: Copy, Y: Copy, F: Fn(X) -> Y, const SIZE: usize>(
    entries: &[X],
    blank: Y,
    change: F,
) -> [Y; SIZE]
    requires room { length entries.now ≤ SIZE }
    requires may { All (F.pre change) entries.now }
    ensures front { AllZip (F.post change) entries.now (take (length entries.now) result) }
    ensures long { length result ≡ SIZE }
{
    let mut made = [blank; SIZE];
    for (k, entry) in entries.iter().enumerate() {
        made[k] = change(*entry);
    }
    made
}

// The entries of the table of a case as numbers in memory, at the front of an array; those beyond are free.
pub fn times_in(slots: &[Option<Seconds>]) -> [i32; BOUNDS]
    requires { (length slots.now ≤ most_bounds) × Every (InLimit bound_limit) slots.now }
    ensures { (times_in (take (length slots.now) result) ≡ map time_of slots.now) × (length result ≡ most_bounds) }
{
    changed(slots, 0, raw_time)
}

// The bounds of a pattern of a case, likewise.
pub fn bounds_in(limits: &[Option<Limit>]) -> [i32; BOUNDS]
    requires { (length limits.now ≤ most_bounds) × Every BoundInLimit limits.now }
    ensures { (bounds_in (take (length limits.now) result) ≡ map bound_of limits.now) × (length result ≡ most_bounds) }
{
    changed(limits, 0, raw_bound)
}

// The numbers of a case: its table and its two patterns, each at the front of an array.
#[derive(Drop)]
pub struct Loaded {
    n: usize,
    times: [i32; BOUNDS],
    start: [i32; BOUNDS],
    target: [i32; BOUNDS],
}

impl Model for Loaded {
    ghost use Rattle.std.specs.Prelude.{take};
    ghost use Rattle.model.specs.Sizes.{table_size, pattern_size};
    ghost use Rattle.model.specs.Conditions.{Departures};
    ghost use Rattle.memory.specs.Networks.{CaseNumbers};

    ghost Value = { CaseNumbers };

    ghost view = { λ l. record {
      times = take (table_size l.n) l.times;
      start = take (pattern_size l.n) l.start;
      target = take (pattern_size l.n) l.target;
    } };

    ghost invariant = { λ l. Departures l.n };
}

impl Loaded {
    // A case without a fault.
    #[tactic(auto, using(crate::proofs::Cased::without_fault))]
    pub fn of(case: Case) -> Loaded
        requires { case_fault case ≡ none }
        ensures { CaseIn case result.times result.start result.target }
    {
        let n = case.n;
        let count = table_size(n);
        let size = pattern_size(n);
        Loaded {
            n,
            times: times_in(&case.times[..count]),
            start: bounds_in(&case.start[..size]),
            target: bounds_in(&case.target[..size]),
        }
    }

    pub fn times(&self) -> &[i32]
        ensures { result.now ≡ self.now.times }
    {
        &self.times[..table_size(self.n)]
    }

    pub fn start(&self) -> &[i32]
        ensures { result.now ≡ self.now.start }
    {
        &self.start[..pattern_size(self.n)]
    }

    pub fn target(&self) -> &[i32]
        ensures { result.now ≡ self.now.target }
    {
        &self.target[..pattern_size(self.n)]
    }
}
