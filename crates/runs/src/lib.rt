// A run: the departure times of one cycle, from some start times on, in seconds or in parts of a second.
#![tactic(auto)]

ghost use Rattle.std.specs.Prelude.{◌≡◌, ◌+◌, ◌≤◌, ◌<◌, length, nat_abs};
ghost use Rattle.model.specs.Sizes.{time_limit};
ghost use Rattle.model.specs.Network;
ghost use Rattle.model.specs.Network.{scale_time, secs_of, clocked, next};
ghost use Rattle.model.specs.Search.{parts_of};
ghost use Rattle.model.specs.Faults.{time_of, network};
ghost use Rattle.model.specs.Conditions.{Departures};
ghost use Rattle.model.specs.Answers;
ghost use Rattle.model.specs.Answers.{seconds, all_times, run_in_parts};
ghost use Rattle.runs.specs.Steps.{values, times_of, table_in, most_parts, StepFits};

use ints::{Cycle, Seconds, ZERO};
use model::{Case, DEPARTURES, Fault, later_sum};

// A time of the table in parts, of which factor make a second.
#[tactic(auto, unfolding(model::specs::Faults::time_of, model::specs::Network::scale_time, model::specs::Network::secs_of))]
fn in_parts(time: Option<Seconds>, factor: usize) -> Option<Seconds>
    requires { (nat_abs (secs_of (time_of time)) ≤ time_limit) × (factor ≤ most_parts) }
    ensures { time_of result ≡ scale_time factor (time_of time) }
{
    time.map(|seconds| Seconds(seconds.0 * factor as i64))
}

// The largest sum of a time and an entry of a row.
fn row_largest(table: &[Option<Seconds>], times: &[Seconds], row: usize, factor: usize) -> Seconds
    requires { StepFits (length times.now) factor table.now (values times.now) × (row < length times.now) }
    ensures { result ≡ seconds (next (length times.now) (table_in factor (length times.now) table.now) (clocked (values times.now)) (row + 1)) }
{
    let n = times.len();
    let first = row * n;
    let mut latest = None;
    for (entry, time) in table[first..first + n].iter().zip(times) {
        latest = later_sum(latest, Some(*time), in_parts(*entry, factor));
    }
    // A row of the table holds a time.
    latest.unwrap()
}

// The times of the next cycle; those beyond n are 0.
fn next_times(table: &[Option<Seconds>], times: &[Seconds], factor: usize) -> [Seconds; DEPARTURES]
    requires { StepFits (length times.now) factor table.now (values times.now) }
    ensures { result ≡ all_times (Network.cycle (length times.now) (table_in factor (length times.now) table.now) (values times.now)) }
{
    let mut next = [ZERO; DEPARTURES];
    for (row, time) in next[..times.len()].iter_mut().enumerate() {
        *time = row_largest(table, times, row, factor);
    }
    next
}

// The first n times; those beyond are 0.
fn first_times(start: [Seconds; DEPARTURES], n: usize) -> [Seconds; DEPARTURES]
    requires { Departures n }
    ensures { result ≡ all_times (times_of n start) }
{
    let mut times = [ZERO; DEPARTURES];
    times[..n].copy_from_slice(&start[..n]);
    times
}

// The times of a cycle in parts, of which factor make a second.
#[tactic(auto, using(crate::proofs::Laws::accepted), unfolding(model::specs::Answers::run_in_parts))]
fn run_by(
    case: Case,
    start: [Seconds; DEPARTURES],
    cycle: Cycle,
    factor: usize,
) -> Result<[Seconds; DEPARTURES], Fault>
    requires { factor ≤ most_parts }
    ensures { result ≡ run_in_parts factor case start cycle.0 }
{
    judge::run_fault(&case, start, cycle)?;
    let n = case.n;
    let table = &case.times[..n * n];
    let mut times = first_times(start, n);
    for _ in 0..cycle.0 {
        times = next_times(table, &times[..n], factor);
    }
    Ok(times)
}

// The times of a cycle in seconds, or the run's first fault. Start times beyond n are ignored.
#[tactic(auto, using(model::proofs::Runs::run_whole))]
pub fn run(
    case: Case,
    start: [Seconds; DEPARTURES],
    cycle: Cycle,
) -> Result<[Seconds; DEPARTURES], Fault>
    ensures { result ≡ Answers.run case start cycle.0 }
{
    run_by(case, start, cycle, 1)
}

// The same in the parts of a second that a start of the case is in: the start times, and those of the cycle.
#[tactic(auto, using(judge::proofs::Laws::parts_few, crate::proofs::Laws::run_start))]
pub fn run_parts(
    case: Case,
    start: [Seconds; DEPARTURES],
    cycle: Cycle,
) -> Result<[Seconds; DEPARTURES], Fault>
    ensures { result ≡ run_in_parts (parts_of (network case)) case start cycle.0 }
{
    run_by(case, start, cycle, judge::parts(&case))
}
