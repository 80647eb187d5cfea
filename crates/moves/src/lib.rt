// Lists that are made by moving the clock: a list that is the one before it so moved, and one that is moved in place.
#![tactic(auto)]

ghost use Rattle.std.specs.Prelude.{◌≡◌, true, ◌≤◌, ◌+ℤ◌, length};
ghost use Rattle.model.specs.Sizes.{most_departures, zone_size};
ghost use Rattle.model.specs.Bound.{most, plus};
ghost use Rattle.model.specs.Conditions.{Small};
ghost use Rattle.memory.specs.Numbers.{bound_in, Limit};
ghost use Rattle.moves.specs.Moving.{clock_by, ClockMove, BoundMove, Shiftable, Shifted, Changing, Change, TwoLists, MovedBy, Movable, MoveList};

use ints::{Seconds, ZERO};
use lists::ZoneList;
use memory::{NONE, zone_size};

// How much later x(i) is, where the clock is so much later.
fn later(by: Seconds, i: usize) -> Seconds
    ensures { result.0 ≡ clock_by by.0 i }
{
    if i == 0 {
        return by;
    }
    ZERO
}

// What the bound at place p of a list changes by.
fn change(by: Seconds, n: usize, p: usize) -> Seconds
    requires { Changing n by.0 }
    ensures { Change n by.0 p result }
{
    let m = n + 1;
    let row = p / m % m;
    let col = p % m;
    later(by, row) - later(by, col)
}

// A bound in halves, so many seconds larger.
fn sum(raw: i32, by: Seconds) -> Seconds
    requires { BoundMove by.0 }
    ensures { result.0 ≡ (raw +ℤ by.0) +ℤ by.0 }
{
    Seconds::from(raw) + by + by
}

// A number in memory for a bound that is so much larger.
fn shifted(raw: i32, by: Seconds) -> i32
    requires { BoundMove by.0 × Small Limit (plus (bound_in raw) (most by.0)) }
    ensures { bound_in result ≡ plus (bound_in raw) (most by.0) }
{
    let none = raw == NONE;
    if none {
        return NONE;
    }
    sum(raw, by).0 as i32
}

// The bound b is so much larger than a: true only where it is. Free: whether it is true there.
fn follows(a: i32, by: Seconds, b: i32) -> bool
    requires { BoundMove by.0 }
    ensures { result ≡ true → bound_in b ≡ plus (bound_in a) (most by.0) }
{
    if a == NONE {
        return b == NONE;
    }
    if b == NONE {
        return false;
    }
    sum(a, by) == Seconds::from(b)
}

// Half of what b is more than a. Free: the number, within its size.
fn half(a: i32, b: i32) -> Seconds
    ensures { ClockMove result.0 }
{
    let more = Seconds::from(b) - Seconds::from(a);
    Seconds(more.0 / 2)
}

// What the clock is later by in the second of two zones at the front of these numbers, told by its first bound against the clock. Free: the number, within
// its size, since all numbers of the lists are compared by it afterwards.
fn gap(before: &[i32], after: &[i32], n: usize) -> Seconds
    requires { (n ≤ most_departures) × (zone_size n ≤ length before.now) × (zone_size n ≤ length after.now) }
    ensures { ClockMove result.0 }
{
    let m = n + 1;
    for i in 1..m {
        let early = before[i];
        if early != NONE {
            return half(early, after[i]);
        }
        let late = before[i * m];
        if late != NONE {
            return half(after[i * m], late);
        }
    }
    ZERO
}

// The second numbers are those of the first zones with the clock so much later: true only where they are. Free: whether it is true there.
fn follow(before: &[i32], after: &[i32], n: usize, by: Seconds) -> bool
    requires { Changing n by.0 × (length after.now ≡ length before.now) }
    ensures { result ≡ true → Shifted n by.0 before.now after.now }
{
    before
        .iter()
        .zip(after)
        .enumerate()
        .all(|(p, (a, b))| follows(*a, change(by, n, p), *b))
}

// By how much one list is the one before it with the clock moved, if it is.
pub fn find_move(work: &[i32], before: ZoneList, next: ZoneList, n: usize) -> Option<Seconds>
    requires { TwoLists n before.base before.count next.base next.count work.now × (1 ≤ before.count) }
    ensures { MovedBy n before.base before.count next.base next.count work.now result }
{
    if next.count != before.count {
        return None;
    }
    let first = before.numbers(work, n);
    let second = next.numbers(work, n);
    let by = gap(first, second, n);
    follow(first, second, n, by).then_some(by)
}

// The numbers of a list of zones, with the clock of each moved.
fn move_numbers(numbers: &mut [i32], n: usize, by: Seconds)
    requires { Shiftable n by.0 numbers.old }
    ensures { Shifted n by.0 numbers.old numbers.new }
{
    for (p, number) in numbers.iter_mut().enumerate() {
        *number = shifted(*number, change(by, n, p));
    }
}

// Moves the clock of each zone of the list, in place.
pub fn move_list(work: &mut [i32], list: ZoneList, n: usize, by: Seconds)
    requires { Movable n list.base list.count by.0 work.old }
    ensures { MoveList n list.base list.count by.0 work.old work.new }
{
    let size = list.count * zone_size(n);
    move_numbers(&mut work[list.base..list.base + size], n, by);
}
