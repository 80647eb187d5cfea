// The exact answer on an unpacked case: power after power of its table, until one meets the target or repeats an earlier one. It keeps no list of zones.
#![tactic(auto)]

ghost use Rattle.std.specs.Prelude.{◌≡◌, Ok};
ghost use Rattle.model.specs.Faults.{network};
ghost use Rattle.model.specs.Search.{parts_of, pick};
ghost use Rattle.model.specs.Answers.{judged};
ghost use Rattle.memory.specs.Conditions.{TableIn};
ghost use Rattle.memory.specs.Wide.{bounds_in};
ghost use Rattle.descent.specs.Trying.{set_at};
ghost use Rattle.decisions.specs.Decide.{decide_fault, told, reached, decide_marked};
ghost use Rattle.decisions.specs.Deciding.{Accepted, DecideGiven};
ghost use Rattle.decide.specs.Powers.{FirstPower, Following, Followed};
ghost use Rattle.decide.specs.Cycles.{CycleReady, CycleEnds, SetsIn, SearchReady, SearchEnds};

use decisions::{Decided, FARTHEST, Finding};
use descent::{SETS, Stop};
use ints::Cycle;
use memory::{Loaded, table_size, zone_size};
use model::{Case, Fault, StartTimes, TIMES, Verdict};
use std::ops::ControlFlow;
use zones::Target;

// What is searched: the table of n departures and the target's set, the parts of a second, whether never can be told from a repeated power, the horizon, and
// the steps.
#[derive(Clone, Copy)]
struct Task<'a> {
    n: usize,
    times: &'a [i32],
    goal: &'a [i64],
    parts: usize,
    may: bool,
    horizon: usize,
    steps: usize,
}

// The last power, with room for another behind it, and an earlier one that is kept until a later power replaces it.
#[derive(Drop)]
struct LastPowers {
    tables: [i32; 2 * TIMES],
    kept: [i32; TIMES],
    until: usize,
}

impl LastPowers {
    // Power 1 is the table.
    fn first(times: &[i32], n: usize) -> LastPowers
        requires { TableIn n times.now }
        ensures { FirstPower n times.now result }
    {
        let mut last = LastPowers {
            tables: [0; 2 * TIMES],
            kept: [0; TIMES],
            until: 2,
        };
        powers::put_front(&mut last.tables, times);
        powers::put_front(&mut last.kept, times);
        last
    }

    // Power k, which follows the last one: whether it is the kept one with a number added. It replaces the kept one where it is the power for that.
    #[tactic(auto, unfolding(decisions::specs::Decide::again, decisions::specs::Decide::renewed))]
    fn next(&mut self, times: &[i32], n: usize, k: usize) -> bool
        requires { Following n times.now self.old k }
        ensures { Followed n times.now self.old k result self.new }
    {
        powers::advance(times, &mut self.tables, n);
        let size = table_size(n);
        let power = &self.tables[..size];
        let again = powers::alike(&self.kept[..size], power);
        if k == self.until {
            powers::put_front(&mut self.kept, power);
            self.until = k + k;
        }
        again
    }
}

// One cycle: whether some start of the set of row 0 meets the target by one step of this power.
fn try_cycle(sets: &mut [i64], power: &[i32], task: Task, steps: usize) -> ControlFlow<Stop, usize>
    requires { CycleReady task power.now sets.old }
    ensures { CycleEnds task.entry power.now steps sets.old result sets.new }
{
    let size = table_size(task.n);
    let table = descent::in_parts(power, task.parts);
    let target = Target {
        times: &table[..size],
        zone: task.goal,
        n: task.n,
    };
    descent::meeting(sets, target, steps)
}

// The finding where cycle k meets the target: the start is picked in the set of the last row.
#[tactic(auto, using(memory::proofs::Side::lent_at), unfolding(descent::specs::Trying::set_at))]
fn reached(sets: &[i64], n: usize, parts: usize, k: usize) -> Finding
    requires { SetsIn n sets.now }
    ensures { Ok result ≡ told parts (reached k (pick n (set_at n sets.now n))) }
{
    let size = zone_size(n);
    let base = n * size;
    let times = starts::pick(&sets[base..base + size], n);
    Finding::Settled(Verdict::Reached(Cycle(k), StartTimes { parts, times }))
}

// From the set of the start to that of the target: cycle after cycle, with a set for each row.
#[tactic(auto, using(crate::proofs::Cycling::cycling))]
fn search(from: &[i64], task: Task) -> Finding
    requires { SearchReady task from.now }
    ensures { SearchEnds task.entry (bounds_in from.now) result }
{
    let size = table_size(task.n);
    let mut sets = [0i64; SETS];
    sets[..from.len()].copy_from_slice(from);
    let mut powers = LastPowers::first(task.times, task.n);
    let mut left = task.steps;
    for k in 1..task.horizon + 1 {
        match try_cycle(&mut sets, &powers.tables[..size], task, left) {
            ControlFlow::Break(Stop::Found) => return reached(&sets, task.n, task.parts, k),
            ControlFlow::Break(Stop::Spent) => return Finding::Undecided(Cycle(k)),
            ControlFlow::Continue(more) => left = more,
        }
        let again = powers.next(task.times, task.n, k + 1);
        if task.may && again {
            return Finding::Settled(Verdict::Never);
        }
    }
    Finding::Settled(Verdict::Clear(Cycle(task.horizon)))
}

// The finding for a case without a fault: never where the start or the target has no times.
#[tactic(auto, using(decisions::proofs::DecideHolds::accepted_case))]
fn accepted(case: &Case, horizon: usize, steps: usize) -> Finding
    requires { Accepted case.now horizon }
    ensures { Ok result ≡ told (parts_of (network case.now)) (decide_marked (network case.now) horizon steps) }
{
    let n = case.n;
    let loaded = Loaded::of(*case);
    let times = loaded.times();
    let start = loaded.start();
    let target = loaded.target();
    let parts = judge::parts(case);
    let Some(from) = lists::whole_pattern(start, n, parts) else {
        return Finding::Settled(Verdict::Never);
    };
    let Some(goal) = lists::whole_pattern(target, n, parts) else {
        return Finding::Settled(Verdict::Never);
    };
    let zone = zone_size(n);
    let task = Task {
        n,
        times,
        goal: &goal[..zone],
        parts,
        may: memory::differences(start, target, n),
        horizon,
        steps,
    };
    search(&from[..zone], task)
}

// The first fault: of the case, 2 to 6, then 3 of the horizon that is asked.
#[tactic(auto, using(model::proofs::Outcomes::judgements), unfolding(decisions::specs::Decide::decide_fault))]
fn fault(case: &Case, horizon: usize) -> Result<(), Fault>
    ensures { result ≡ judged (decide_fault case.now horizon) }
{
    judge::case_fault(case)?;
    if judge::outside(1, FARTHEST, horizon) {
        return Err(Fault::Horizon);
    }
    Ok(())
}

// The exact answer: the first cycle from 1 to the horizon that meets the target, with a start; clear; never; or undecided, where so many steps are not enough.
#[tactic(auto, using(model::proofs::Outcomes::judgements, decisions::proofs::DecideHolds::decided_refused, decisions::proofs::DecideHolds::given))]
pub fn decide(case: Case, horizon: Cycle, steps: usize) -> Decided
    ensures { DecideGiven case horizon.0 steps result }
{
    fault(&case, horizon.0)?;
    Ok(accepted(&case, horizon.0, steps))
}
