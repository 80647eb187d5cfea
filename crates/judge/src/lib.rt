// Judges an unpacked case: the first fault of the case by itself, for a packed form, of a call for a verdict, and of a run. Also, the parts of its start.
#![tactic(auto)]

ghost use Rattle.std.specs.Prelude.{◌≡◌, map, ◌≤◌, ◌<◌, ◌^◌, ◌+◌, ◌*◌, length, ltb};
ghost use Rattle.std.specs.List.{list_any};
ghost use Rattle.model.specs.declared.Fault.TheVariants as fault;
ghost use Rattle.model.specs.Sizes.{most_departures, most_bounds, start_limit};
ghost use Rattle.model.specs.Forms.{most_in};
ghost use Rattle.model.specs.Lists.{when};
ghost use Rattle.model.specs.Faults;
ghost use Rattle.model.specs.Faults.{present, marked, over, bound_fault_in, entry_fault, rows_fault, times_fault, table_fault, patterns_fault};
ghost use Rattle.model.specs.Faults.{case_fault, form_fault, room_fault, call_fault, run_fault};
ghost use Rattle.model.specs.Conditions.{Departures};
ghost use Rattle.model.specs.Answers.{judged};
ghost use Rattle.judge.specs.Judgement.{FirstSaid, start_parts};

use ints::{Cycle, Seconds};
use model::{
    BOUND_LIMIT, CYCLES, Case, DEPARTURES, Fault, Form, Limit, START_LIMIT, TIME_LIMIT, WIDE, ZONES,
};

// Below low or above high.
#[tactic(auto, unfolding(model::specs::Faults::outside))]
pub fn outside(low: usize, high: usize, k: usize) -> bool
    ensures { result ≡ Faults.outside low high k }
{
    k < low || high < k
}

// The fault of a time that is beyond the limit.
#[tactic(auto, unfolding(model::specs::Faults::beyond))]
fn within(time: Option<Seconds>, limit: u64, fault: Fault) -> Result<(), Fault>
    requires { limit < 2 ^ 63 }
    ensures { result ≡ judged (when (Faults.beyond limit time) fault) }
{
    if time.is_some_and(|value| value.beyond(limit)) {
        return Err(fault);
    }
    Ok(())
}

// The first fault of entries that are numbered from first on, by what judge says of an entry at a place.
#[tactic(auto, using(crate::proofs::Laws::passing))]
fn first_fault<E: Copy, F: Fn(E, usize) -> Result<(), Fault> + Copy>(
    entries: &[E],
    first: usize,
    judge: F,
) -> Result<(), Fault>
    requires room { first + length entries.now < 2 ^ 64 }
    requires may { F.IsAlwaysCallable judge }
    ensures { FirstSaid (F.post judge) first entries.now result }
{
    for (i, entry) in entries.iter().enumerate() {
        judge(*entry, first + i)?;
    }
    Ok(())
}

// Faults 4 and 5: each row's entries, then whether it holds a time.
fn rows_fault(times: &[Option<Seconds>], n: usize) -> Result<(), Fault>
    requires { Departures n × (length times.now ≡ n * n) }
    ensures { result ≡ judged (rows_fault n n 0 times.now) }
{
    let mut judged = Ok(());
    'rows: for row in 0..n {
        let first = row * n;
        let mut some = false;
        for column in 0..n {
            let place = first + column;
            let time = times[place];
            if let Err(fault) = within(time, TIME_LIMIT, Fault::Time(place)) {
                judged = Err(fault);
                break 'rows;
            }
            some |= time.is_some();
        }
        if !some {
            judged = Err(Fault::EmptyRow(first));
            break 'rows;
        }
    }
    judged
}

// Fault 6 of a bound, then 16 if it is strict where the form has no place for a mark.
#[tactic(auto, unfolding(model::specs::Faults::bound_fault_in, model::specs::Faults::bound_fault, model::specs::Faults::over, model::specs::Faults::beyond))]
fn bound_fault(bound: Option<Limit>, place: usize, form: Form) -> Result<(), Fault>
    ensures { result ≡ judged (bound_fault_in form place bound) }
{
    let Some(limit) = bound else {
        return Ok(());
    };
    within(Some(limit.value), BOUND_LIMIT, Fault::Bound(place))?;
    if form.mark == 0 && limit.strict {
        return Err(Fault::Form(place));
    }
    Ok(())
}

// Faults 6 and 16 of the bounds of a pattern, numbered from offset on.
fn bounds_fault(bounds: &[Option<Limit>], offset: usize, form: Form) -> Result<(), Fault>
    requires { (length bounds.now ≤ most_bounds) × (offset ≤ most_bounds) }
    ensures { result ≡ judged (entry_fault (bound_fault_in form) offset bounds.now) }
{
    first_fault(
        bounds,
        offset,
        |bound, place| bound_fault(bound, place, form),
    )
}

// Fault 13 of start times.
#[tactic(auto, using(crate::proofs::Laws::entries_of), unfolding(model::specs::Faults::over))]
fn starts_fault(start: &[Seconds]) -> Result<(), Fault>
    requires { length start.now ≤ most_departures }
    ensures { result ≡ judged (entry_fault (over start_limit fault.StartTime) 0 (map (λ x. present x.0) start.now)) }
{
    first_fault(start, 0, |time, i| {
        within(Some(time), START_LIMIT, Fault::StartTime(i))
    })
}

// Fault 3 for k cycles of which there are to be at least low, then 4 and 5. That n is in its limits is asked for here and in three more functions: a struct
// that holds it would be made at each place that judges n, which is no shorter.
#[tactic(auto, using(model::proofs::Outcomes::judgements, crate::proofs::Laws::rows_front))]
fn times_fault(case: &Case, low: usize, k: usize) -> Result<(), Fault>
    requires { Departures case.now.n }
    ensures { result ≡ judged (times_fault case.now low k) }
{
    let n = case.n;
    if outside(low, CYCLES, k) {
        return Err(Fault::Horizon);
    }
    rows_fault(&case.times[..n * n], n)
}

// Fault 2, then 3 to 5.
#[tactic(auto, using(model::proofs::Outcomes::judgements), unfolding(model::specs::Faults::table_fault, model::specs::Faults::outside))]
fn table_fault(case: &Case, low: usize, k: usize) -> Result<(), Fault>
    ensures { result ≡ judged (table_fault case.now low k) }
{
    let n = case.n;
    if outside(1, DEPARTURES, n) {
        return Err(Fault::Departures);
    }
    times_fault(case, low, k)
}

// Faults 6 and 16: the start, then the target, whose bounds are numbered after those of the start.
#[tactic(auto, using(model::proofs::Outcomes::judgements), unfolding(model::specs::Faults::patterns_fault))]
fn patterns_fault(case: &Case, form: Form) -> Result<(), Fault>
    requires { Departures case.now.n }
    ensures { result ≡ judged (patterns_fault (bound_fault_in form) case.now) }
{
    let n = case.n;
    let size = n * (n + 1);
    bounds_fault(&case.start[..size], 0, form)?;
    bounds_fault(&case.target[..size], size, form)
}

// Faults 9 and 10. The product is formed only where it is small.
#[tactic(auto, using(model::proofs::Outcomes::judgements), unfolding(model::specs::Faults::room_fault, model::specs::Faults::outside))]
fn room_fault(n: usize, capacity: usize, size: usize) -> Result<(), Fault>
    requires { Departures n }
    ensures { result ≡ judged (room_fault n capacity size) }
{
    if outside(1, ZONES, capacity) {
        return Err(Fault::Capacity);
    }
    if size < 2 * (capacity * ((n + 1) * (n + 1))) {
        return Err(Fault::Workspace);
    }
    Ok(())
}

// The form has no place for so many departures. The wide one has a place for all that there can be.
#[tactic(auto, unfolding(model::specs::Forms::most_in))]
fn too_many(n: usize, form: Form) -> bool
    requires { n ≤ most_departures }
    ensures { result ≡ ltb (most_in form) n }
{
    let digits = form.digits;
    digits < WIDE.digits && (1 << digits) <= n
}

// The first fault of a case for a packed form: 2, 16 of n, 3 to 5, then 6 and 16 bound by bound.
#[tactic(auto, using(model::proofs::Outcomes::judgements), unfolding(model::specs::Faults::form_fault, model::specs::Faults::outside))]
pub fn form_fault(case: &Case, form: Form) -> Result<(), Fault>
    ensures { result ≡ judged (form_fault form case.now) }
{
    let n = case.n;
    let cycles = case.horizon.0;
    if outside(1, DEPARTURES, n) {
        return Err(Fault::Departures);
    }
    if too_many(n, form) {
        return Err(Fault::Form(0));
    }
    times_fault(case, 1, cycles)?;
    patterns_fault(case, form)
}

// The first fault of a case by itself, 2 to 6: the wide form has a place for every case.
#[tactic(auto, using(model::proofs::Limits::wide_fault))]
pub fn case_fault(case: &Case) -> Result<(), Fault>
    ensures { result ≡ judged (case_fault case.now) }
{
    form_fault(case, WIDE)
}

// The first fault of a call for a verdict, capacity being Z and size the length of the workspace.
#[tactic(auto, using(crate::proofs::Laws::known_departures), unfolding(model::specs::Faults::call_fault))]
pub fn call_fault(case: &Case, capacity: usize, size: usize) -> Result<(), Fault>
    ensures { result ≡ judged (call_fault case.now capacity size) }
{
    case_fault(case)?;
    room_fault(case.n, capacity, size)
}

// The first fault of a run from some start times to a cycle.
#[tactic(auto, using(crate::proofs::Laws::known_departures), unfolding(model::specs::Faults::run_fault))]
pub fn run_fault(case: &Case, start: [Seconds; DEPARTURES], cycle: Cycle) -> Result<(), Fault>
    ensures { result ≡ judged (run_fault case.now start cycle.0) }
{
    table_fault(case, 0, cycle.0)?;
    starts_fault(&start[..case.n])
}

// One of the bounds is strict.
fn some_strict(bounds: &[Option<Limit>]) -> bool
    ensures { result ≡ list_any marked bounds.now }
{
    bounds
        .iter()
        .any(|bound| matches!(bound, Some(limit) if limit.strict))
}

// The parts of a second that a start of the case is in, 0 where its number of departures is refused: the promise holds of every case, as `runs::run_parts`
// takes the parts before the run's fault is known.
#[tactic(auto, using(crate::proofs::Laws::counted_parts))]
pub fn parts(case: &Case) -> usize
    ensures { result ≡ start_parts case.now }
{
    let n = case.n;
    if outside(1, DEPARTURES, n) {
        return 0;
    }
    let size = n * (n + 1);
    if some_strict(&case.start[..size]) || some_strict(&case.target[..size]) {
        return n + 1;
    }
    1
}
