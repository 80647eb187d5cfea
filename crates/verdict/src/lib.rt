// Verdicts: a case is judged, then searched, and the workspace is left all zero.
#![tactic(auto)]

ghost use Rattle.std.specs.Prelude.{◌≡◌, ◌≤◌, length, replicate, pos};
ghost use Rattle.model.specs.Sizes.{most_cycles};
ghost use Rattle.model.specs.Search.{plan_with, outcome};
ghost use Rattle.model.specs.Faults.{network};
ghost use Rattle.model.specs.Answers.{answered};
ghost use Rattle.model.specs.Demands.{InLimits, Given, PackedGiven};
ghost use Rattle.powers.specs.Readings.{repeat_read};
ghost use Rattle.verdict.specs.Planning.{Planned, Counted};

use ints::Cycle;
use memory::Loaded;
use model::{Answer, Case};
use powers::Again;
use search::{End, Task};

// How many cycles are searched, and what getting past them means.
#[derive(Clone, Copy)]
struct Plan {
    cycles: Cycle,
    end: End,
}

// Never only where a first repeated power lies within the horizon, and a pattern bounds only differences.
#[tactic(auto, unfolding(model::specs::Search::plan_with))]
fn plan_of(repeat: Option<Again>, differences: bool, horizon: Cycle) -> Plan
    requires { Counted repeat × (horizon.0 ≤ most_cycles) }
    ensures { Planned (plan_with horizon.0 (repeat_read repeat) differences) result }
{
    match repeat {
        Some(again) if differences && again.q - 1 <= horizon.0 => Plan {
            cycles: Cycle(again.q - 1),
            end: End::Never,
        },
        _ => Plan {
            cycles: horizon,
            end: End::Clear(horizon),
        },
    }
}

// The answer for a case within the limits.
#[tactic(auto, using(model::proofs::Limits::case_of_lem))]
fn searched(case: &Case, capacity: usize, work: &mut [i32]) -> Answer
    requires { InLimits case.now capacity (length work.old) }
    ensures answer { result ≡ answered (outcome (network case.now) capacity) }
    ensures workspace { work.new ≡ replicate (length work.old) (pos 0) }
{
    let n = case.n;
    let loaded = Loaded::of(*case);
    let times = loaded.times();
    let start = loaded.start();
    let target = loaded.target();
    let differences = memory::differences(start, target, n);
    let plan = plan_of(powers::first_repeat(times, n), differences, case.horizon);
    let task = Task {
        capacity,
        n,
        parts: judge::parts(case),
        cycles: plan.cycles,
        end: plan.end,
        times,
        start,
        target,
    };
    let answer = search::search(work, task);
    work.fill(0);
    answer
}

// The verdict on an unpacked case, with Z and the workspace.
#[tactic(auto, using(crate::proofs::Answered::said), unfolding(model::specs::Answers::answer, model::specs::Answers::workspace_after))]
pub fn verdict(case: Case, capacity: usize, work: &mut [i32]) -> Answer
    ensures { Given case capacity work.old result work.new }
{
    judge::call_fault(&case, capacity, work.len())?;
    searched(&case, capacity, work)
}

// The verdict on a packed case.
#[tactic(auto, using(crate::proofs::Answered::packed_given), unfolding(model::specs::Answers::answer_packed, model::specs::Answers::workspace_after_packed))]
pub fn verdict_packed(bytes: &[u8], capacity: usize, work: &mut [i32]) -> Answer
    ensures { PackedGiven bytes.now capacity work.old result work.new }
{
    let case = packed::read(bytes)?;
    verdict(case, capacity, work)
}
