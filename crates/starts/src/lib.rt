// Sets of times over numbers of 64 bits: a zone in whole parts of a second, and the start that is picked in it.
#![tactic(auto)]

ghost use Rattle.std.specs.Prelude.{◌≡◌, suc, ◌+◌, ◌*◌, ◌≤◌, ◌<◌, length, take};
ghost use Rattle.model.specs.Sizes.{most_departures, most_numbers, zone_size};
ghost use Rattle.model.specs.Bound.{upto, most, scale, whole};
ghost use Rattle.model.specs.Network.{clocked};
ghost use Rattle.model.specs.Search.{greatest_or, pick, start_in};
ghost use Rattle.model.specs.Answers.{all_times};
ghost use Rattle.model.specs.Conditions.{Departures, Small};
ghost use Rattle.memory.specs.Numbers.{of_halves, as_bound, InMemory, Widest};
ghost use Rattle.memory.specs.Numbers as Memory;
ghost use Rattle.memory.specs.Conditions.{ZoneIn};
ghost use Rattle.memory.specs.Matrices.{values, NextFrom, NextOf};
ghost use Rattle.starts.specs.Numbers.{odd, bound_in, bounds_in, Largest};
ghost use Rattle.starts.specs.Conditions.{PartsOf, StartReady, WholesOf};

use ints::{Seconds, ZERO};
use memory::{BLANK, Halves, Number, Stored, WIDE_NONE, bound_at, changed, zone_size};
use model::{DEPARTURES, NUMBERS};
use zones::{everything, take_all};

// x(s), of times of departures 1 on: x(0) is the clock's zero.
fn clocked(times: &[Seconds], s: usize) -> Seconds
    requires { s ≤ length times.now }
    ensures { result.0 ≡ clocked (values times.now) s }
{
    if s == 0 {
        return ZERO;
    }
    times[s - 1]
}

// The number of a bound in halves.
fn number(halves: Halves) -> Seconds
    requires { Small Widest (of_halves halves.0) }
    ensures { of_halves halves.0 ≡ upto (odd halves.0) result.0 }
{
    Seconds((halves.0 + (halves.0 & 1)) / 2)
}

// The greatest time; if there is no greatest, the least; if neither, 0.
fn greatest_or(early: Number, late: Number) -> Seconds
    requires { Small Widest (as_bound early) × Small Widest (as_bound late) }
    ensures { result.0 ≡ greatest_or (as_bound early) (as_bound late) }
{
    match (late.0, early.0) {
        (Some(c), _) => number(c),
        (None, Some(b)) => -number(b),
        (None, None) => ZERO,
    }
}

// The time of departure t, given those before it: how early it may be, negated, and how late.
fn next_time(zone: &[i64], n: usize, times: &[Seconds], t: usize) -> Seconds
    requires { NextFrom n Largest zone.now (values times.now) t × (t ≤ length times.now) }
    ensures { NextOf n Largest (bounds_in zone.now) (values times.now) t result }
{
    let mut early = BLANK;
    let mut late = BLANK;
    for s in (0..t).rev() {
        let x = clocked(times, s);
        late = (bound_at(zone, n, t, s) + Number::upto(x, false)).tighter(late);
        early = (bound_at(zone, n, s, t) + Number::upto(-x, false)).tighter(early);
    }
    greatest_or(early, late)
}

// The start picked in the zone: each departure in turn, given those before it.
pub fn pick(zone: &[i64], n: usize) -> [Seconds; DEPARTURES]
    requires { Departures n × ZoneIn n zone.now }
    ensures { result ≡ all_times (pick n (bounds_in zone.now)) }
{
    let mut times = [ZERO; DEPARTURES];
    for t in 1..n + 1 {
        times[t - 1] = next_time(zone, n, &times, t);
    }
    times
}

// What a bound allows in whole parts: "less than b" is at most b * parts - 1. Each function over parts asks that they are few: a type that says it would
// be no plainer, since the callers hand in a number and would prove the same to make one.
fn part(halves: Halves, parts: usize) -> Seconds
    requires { Small InMemory (of_halves halves.0) × (parts ≤ suc most_departures) }
    ensures { most result.0 ≡ whole (scale parts (of_halves halves.0)) }
{
    let number = number(halves);
    Seconds(number.0 * (parts as i64) - (halves.0 & 1))
}

// The same of a number of the zone.
fn part_of(raw: i32, parts: usize) -> i64
    requires { parts ≤ suc most_departures }
    ensures { bound_in result ≡ whole (scale parts (Memory.bound_in raw)) }
{
    let Some(halves) = raw.bound().0 else {
        return WIDE_NONE;
    };
    i64::of_bound(Number::upto(part(halves, parts), false))
}

// The bounds of the zone in whole parts, at the front of an array.
fn in_parts(zone: &[i32], parts: usize) -> [i64; NUMBERS]
    requires { (length zone.now ≤ most_numbers) × (parts ≤ suc most_departures) }
    ensures { PartsOf zone.now parts result }
{
    changed(zone, 0, |raw| part_of(raw, parts))
}

// The zone in whole parts, with its tightest bounds, at the front of an array. Some times are left, so what take_all answers is known.
pub fn whole_zone(zone: &[i32], n: usize, parts: usize) -> [i64; NUMBERS]
    requires { StartReady n zone.now parts }
    ensures { WholesOf n zone.now parts result }
{
    let size = zone_size(n);
    let bounds = in_parts(zone, parts);
    let mut wholes = [0i64; NUMBERS];
    let front = &mut wholes[..size];
    everything(front, n);
    let bounds = &bounds[..size];
    take_all(front, n, |i, j| bound_at(bounds, n, i, j));
    wholes
}

// The start picked in the zone, in parts.
pub fn start(zone: &[i32], n: usize, parts: usize) -> [Seconds; DEPARTURES]
    requires { StartReady n zone.now parts }
    ensures { result ≡ all_times (start_in n parts (Memory.bounds_in zone.now)) }
{
    let size = zone_size(n);
    let wholes = whole_zone(zone, n, parts);
    pick(&wholes[..size], n)
}
