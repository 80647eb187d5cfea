// The library for C and Rust: verdicts, exact answers, runs, packed cases written, read and converted, on numbers and lent arrays.
// No function asks anything of its caller.
// Names of functions with arrays end in the most departures, which decides how long the arrays are: the header gives them to the linker under plain names.
#![tactic(auto)]

ghost use Rattle.std.specs.Prelude.{◌≡◌, ◌+◌, ◌≤◌, ◌<◌, length, set, is_some};
ghost use Rattle.model.specs.Sizes.{most_times, most_bounds};
ghost use Rattle.model.specs.Lists.{padded, tabulate};
ghost use Rattle.model.specs.Faults.{unmarked, marked};
ghost use Rattle.model.specs.Packed.{parse};
ghost use Rattle.model.specs.Forms.{old, wide};
ghost use Rattle.model.specs.Answers.{outcome_of, numbers_of, answer, workspace_after, answer_packed, workspace_after_packed, run};
ghost use Rattle.model.specs.Changes.{preview, workspace_after_preview};
ghost use Rattle.decisions.specs.Decide.{decided};
ghost use Rattle.embed.specs.Numbers;
ghost use Rattle.embed.specs.Numbers.{case_entries, Handed, HandedTimes, HandedInParts, Told, ToldInParts, ToldExactly, written_numbers, with_count};
ghost use Rattle.embed.specs.Numbers.{plain_times, start_times, answer_start, decided_start, decided_numbers, verdict_start};
ghost use Rattle.embed.specs.Numbers.{run_answer, run_parts_answer, flag};
ghost use Rattle.embed.specs.Numbers.{slot_of, slot_at, limit_at, case_in, no_marks, entries_of, entry_number, EntriesHanded, read_case, CaseHanded};
ghost use Rattle.embed.specs.Numbers.{WrittenHanded, ConvertedHanded, CommitHanded};

use decisions::{Decided, Finding};
use ints::{Cycle, Seconds, ZERO};
use model::{Answer, BOUNDS, Case, DEPARTURES, Fault, Limit, Numbers, StartTimes, TIMES, Verdict};

// Where the entries of an unpacked case stand: the table's from 0 on, then those of the start and of the target pattern; and how many there are.
const START: usize = TIMES;

const TARGET: usize = START + BOUNDS;

pub const ENTRIES: usize = TARGET + BOUNDS;

// The start that is handed back where none is found.
const NO_START: StartTimes = StartTimes {
    parts: 0,
    times: [ZERO; DEPARTURES],
};

// The case that is handed back where none could be read.
const NO_CASE: Case = Case {
    n: 0,
    horizon: Cycle(0),
    times: [None; BOUNDS],
    start: [None; BOUNDS],
    target: [None; BOUNDS],
};

// The entries of an unpacked case as they are lent: one is there where its number in present is not 0, and strict where that in strict is not 0.
#[derive(Clone, Copy)]
struct Lent<'a> {
    present: &'a [u8; ENTRIES],
    strict: &'a [u8; ENTRIES],
    values: &'a [i64; ENTRIES],
}

fn plain_times(times: [Seconds; DEPARTURES]) -> [i64; DEPARTURES]
    ensures { result ≡ plain_times times }
{
    times.map(|time| time.0)
}

fn start_times(plain: [i64; DEPARTURES]) -> [Seconds; DEPARTURES]
    ensures { result ≡ start_times plain }
{
    plain.map(Seconds)
}

fn verdict_start(verdict: Verdict) -> StartTimes
    ensures { result ≡ verdict_start verdict }
{
    match verdict {
        Verdict::Reached(_, start) => start,
        _ => NO_START,
    }
}

// Hands three numbers back: C has no Result.
fn hand(numbers: Numbers, fault: &mut usize, value: &mut usize) -> u32
    ensures { Handed numbers result fault.new value.new }
{
    *fault = numbers.fault;
    *value = numbers.value;
    numbers.kind
}

// Hands an answer back.
fn tell(
    answer: Answer,
    fault: &mut usize,
    value: &mut usize,
    parts: &mut usize,
    times: &mut [i64; DEPARTURES],
) -> u32
    ensures { ToldInParts answer result fault.new value.new parts.new times.new }
{
    let (numbers, start) = match answer {
        Ok(verdict) => (Numbers::from(verdict), verdict_start(verdict)),
        Err(cause) => (Numbers::from(cause), NO_START),
    };
    *parts = start.parts;
    *times = plain_times(start.times);
    hand(numbers, fault, value)
}

// Hands an exact answer back.
fn tell_exactly(
    decided: Decided,
    fault: &mut usize,
    value: &mut usize,
    parts: &mut usize,
    times: &mut [i64; DEPARTURES],
) -> u32
    ensures { ToldExactly decided result fault.new value.new parts.new times.new }
{
    match decided {
        Ok(Finding::Settled(verdict)) => tell(Ok(verdict), fault, value, parts, times),
        Err(cause) => tell(Err(cause), fault, value, parts, times),
        Ok(undecided) => {
            *parts = 0;
            *times = [0; DEPARTURES];
            hand(Numbers::from(undecided), fault, value)
        }
    }
}

// Hands a count back, as of the bytes that a writer put.
fn hand_count(answer: Result<usize, Fault>, fault: &mut usize, value: &mut usize) -> u32
    ensures { Handed (written_numbers answer) result fault.new value.new }
{
    let numbers = match answer {
        Ok(count) => Numbers {
            kind: 4,
            fault: 0,
            value: count,
        },
        Err(cause) => Numbers::from(cause),
    };
    hand(numbers, fault, value)
}

// A run as an answer, in parts of which parts make a second.
fn run_answer(run: Result<[Seconds; DEPARTURES], Fault>, cycle: Cycle, parts: usize) -> Answer
    ensures { result ≡ run_answer run cycle.0 parts }
{
    let times = run?;
    Ok(Verdict::Reached(cycle, StartTimes { parts, times }))
}

fn slot_of(has: u8, value: i64) -> Option<Seconds>
    ensures { result ≡ slot_of has value }
{
    (has != 0).then_some(Seconds(value))
}

impl Lent<'_> {
    #[tactic(auto, unfolding(crate::specs::Numbers::slot_at))]
    fn slot_at(self, k: usize) -> Option<Seconds>
        requires { k < case_entries }
        ensures { result ≡ slot_at self.entry.present.now self.entry.values.now k }
    {
        slot_of(self.present[k], self.values[k])
    }

    #[tactic(auto, unfolding(crate::specs::Numbers::limit_at))]
    fn limit_at(self, k: usize) -> Option<Limit>
        requires { k < case_entries }
        ensures { result ≡ limit_at self.entry.present.now self.entry.strict.now self.entry.values.now k }
    {
        let value = self.slot_at(k)?;
        let strict = self.strict[k] != 0;
        Some(Limit { strict, value })
    }

    // The times of the table.
    fn table(self) -> [Option<Seconds>; BOUNDS]
        ensures { result ≡ padded None most_bounds (tabulate most_times 0 (slot_at self.entry.present.now self.entry.values.now)) }
    {
        let mut times = [None; BOUNDS];
        for (k, time) in times[..TIMES].iter_mut().enumerate() {
            *time = self.slot_at(k);
        }
        times
    }

    // The bounds of a pattern that stands from first on.
    fn pattern(self, first: usize) -> [Option<Limit>; BOUNDS]
        requires { first + most_bounds ≤ case_entries }
        ensures { result ≡ padded None most_bounds
            (tabulate most_bounds first (limit_at self.entry.present.now self.entry.strict.now self.entry.values.now)) }
    {
        let mut bounds = [None; BOUNDS];
        for (k, bound) in bounds.iter_mut().enumerate() {
            *bound = self.limit_at(first + k);
        }
        bounds
    }
}

#[tactic(auto, unfolding(crate::specs::Numbers::case_in))]
fn case_in(
    n: usize,
    horizon: usize,
    present: &[u8; ENTRIES],
    strict: &[u8; ENTRIES],
    values: &[i64; ENTRIES],
) -> Case
    ensures { result ≡ case_in n horizon present.now strict.now values.now }
{
    let lent = Lent {
        present,
        strict,
        values,
    };
    Case {
        n,
        horizon: Cycle(horizon),
        times: lent.table(),
        start: lent.pattern(START),
        target: lent.pattern(TARGET),
    }
}

// How a presence or a mark is handed back: 1 if it is so, else 0.
fn flag(is: bool) -> u8
    ensures { result ≡ flag is }
{
    u8::from(is)
}

fn mark(entry: Option<Limit>) -> u8
    ensures { result ≡ flag (marked entry) }
{
    flag(entry.is_some_and(|limit| limit.strict))
}

// The number of an entry, 0 where it is absent.
fn number(entry: Option<Limit>) -> i64
    ensures { result ≡ entry_number entry }
{
    entry.map_or(0, |limit| limit.value.0)
}

// Hands an entry back in its place k of three arrays: 1 in present where it is there and 1 in strict where it is strict, else 0.
fn hand_entry(
    entry: Option<Limit>,
    k: usize,
    present: &mut [u8; ENTRIES],
    strict: &mut [u8; ENTRIES],
    values: &mut [i64; ENTRIES],
)
    requires { k < case_entries }
    ensures presence { present.new ≡ set present.old k (flag (is_some entry)) }
    ensures marks { strict.new ≡ set strict.old k (flag (marked entry)) }
    ensures numbers { values.new ≡ set values.old k (entry_number entry) }
{
    present[k] = flag(entry.is_some());
    strict[k] = mark(entry);
    values[k] = number(entry);
}

// Hands the entries of a case back: the table's first, then those of the start and of the target.
fn hand_entries(
    times: &[Option<Seconds>; BOUNDS],
    start: &[Option<Limit>; BOUNDS],
    target: &[Option<Limit>; BOUNDS],
    present: &mut [u8; ENTRIES],
    strict: &mut [u8; ENTRIES],
    values: &mut [i64; ENTRIES],
)
    ensures { EntriesHanded (entries_of times.now start.now target.now) present.new strict.new values.new }
{
    for k in 0..START {
        hand_entry(packed::unmarked(times[k]), k, present, strict, values);
    }
    for i in START..TARGET {
        hand_entry(start[i - START], i, present, strict, values);
    }
    for j in TARGET..ENTRIES {
        hand_entry(target[j - TARGET], j, present, strict, values);
    }
}

// The verdict on a packed case.
#[unsafe(no_mangle)]
pub extern "C" fn tramcheck_verdict_15(
    bytes: &[u8],
    capacity: usize,
    work: &mut [i32],
    fault: &mut usize,
    value: &mut usize,
    parts: &mut usize,
    start: &mut [i64; DEPARTURES],
) -> u32
    ensures told_in_parts { ToldInParts (answer_packed bytes.now capacity (length work.old))
        result fault.new value.new parts.new start.new }
    ensures work_after { work.new ≡ workspace_after_packed bytes.now capacity work.old }
{
    let answer = verdict::verdict_packed(bytes, capacity, work);
    tell(answer, fault, value, parts, start)
}

// The verdict on an unpacked case.
#[unsafe(no_mangle)]
pub extern "C" fn tramcheck_verdict_unpacked_15(
    n: usize,
    horizon: usize,
    present: &[u8; ENTRIES],
    strict: &[u8; ENTRIES],
    values: &[i64; ENTRIES],
    capacity: usize,
    work: &mut [i32],
    fault: &mut usize,
    value: &mut usize,
    parts: &mut usize,
    start: &mut [i64; DEPARTURES],
) -> u32
    ensures told_in_parts { ToldInParts
        (answer (case_in n horizon present.now strict.now values.now) capacity (length work.old))
        result fault.new value.new parts.new start.new }
    ensures work_after { work.new ≡ workspace_after (case_in n horizon present.now strict.now values.now)
        capacity work.old }
{
    let case = case_in(n, horizon, present, strict, values);
    let answer = verdict::verdict(case, capacity, work);
    tell(answer, fault, value, parts, start)
}

// The exact answer on an unpacked case: over so many cycles, whatever the case's own horizon is, and with so many steps.
#[unsafe(no_mangle)]
pub extern "C" fn tramcheck_decide_15(
    n: usize,
    horizon: usize,
    present: &[u8; ENTRIES],
    strict: &[u8; ENTRIES],
    values: &[i64; ENTRIES],
    cycles: usize,
    steps: usize,
    fault: &mut usize,
    value: &mut usize,
    parts: &mut usize,
    start: &mut [i64; DEPARTURES],
) -> u32
    ensures { ToldExactly
        (decided (case_in n horizon present.now strict.now values.now) cycles steps)
        result fault.new value.new parts.new start.new }
{
    let case = case_in(n, horizon, present, strict, values);
    let found = decide::decide(case, Cycle(cycles), steps);
    tell_exactly(found, fault, value, parts, start)
}

// The times of a cycle of an unpacked case, from start times on.
#[unsafe(no_mangle)]
pub extern "C" fn tramcheck_run_15(
    n: usize,
    present: &[u8; ENTRIES],
    values: &[i64; ENTRIES],
    start: &[i64; DEPARTURES],
    cycle: usize,
    fault: &mut usize,
    value: &mut usize,
    times: &mut [i64; DEPARTURES],
) -> u32
    ensures { Told
        (run_answer (run (case_in n 0 present.now no_marks values.now) (start_times start.now) cycle) cycle 1)
        result fault.new value.new times.new }
{
    let case = case_in(n, 0, present, &[0; ENTRIES], values);
    let run = runs::run(case, start_times(*start), Cycle(cycle));
    let mut parts = 0;
    tell(
        run_answer(run, Cycle(cycle), 1),
        fault,
        value,
        &mut parts,
        times,
    )
}

// The same in the parts of a second that a start of the case is in: the start times, and those of the cycle.
#[unsafe(no_mangle)]
#[tactic(auto, using(crate::proofs::Handed::parts_told))]
pub extern "C" fn tramcheck_run_parts_15(
    n: usize,
    present: &[u8; ENTRIES],
    strict: &[u8; ENTRIES],
    values: &[i64; ENTRIES],
    start: &[i64; DEPARTURES],
    cycle: usize,
    fault: &mut usize,
    value: &mut usize,
    parts: &mut usize,
    times: &mut [i64; DEPARTURES],
) -> u32
    ensures { ToldInParts
        (run_parts_answer (case_in n 0 present.now strict.now values.now) (start_times start.now) cycle)
        result fault.new value.new parts.new times.new }
{
    let case = case_in(n, 0, present, strict, values);
    let run = runs::run_parts(case, start_times(*start), Cycle(cycle));
    let answer = run_answer(run, Cycle(cycle), judge::parts(&case));
    tell(answer, fault, value, parts, times)
}

// The verdict on an unpacked case with one time replaced or blanked.
#[unsafe(no_mangle)]
pub extern "C" fn tramcheck_preview_15(
    n: usize,
    horizon: usize,
    present: &[u8; ENTRIES],
    strict: &[u8; ENTRIES],
    values: &[i64; ENTRIES],
    row: usize,
    column: usize,
    has: u8,
    time: i64,
    capacity: usize,
    work: &mut [i32],
    fault: &mut usize,
    value: &mut usize,
    parts: &mut usize,
    start: &mut [i64; DEPARTURES],
) -> u32
    ensures told_in_parts { ToldInParts (preview (case_in n horizon present.now strict.now values.now) row column (slot_of has time)
        capacity (length work.old)) result fault.new value.new parts.new start.new }
    ensures work_after { work.new ≡ workspace_after_preview (case_in n horizon present.now strict.now values.now)
        row column (slot_of has time) capacity work.old }
{
    let case = case_in(n, horizon, present, strict, values);
    let slot = slot_of(has, time);
    let answer = preview::preview(case, row, column, slot, capacity, work);
    tell(answer, fault, value, parts, start)
}

// Writes an unpacked case in document 01's packed form to the front of out.
#[unsafe(no_mangle)]
pub extern "C" fn tramcheck_write_15(
    n: usize,
    horizon: usize,
    present: &[u8; ENTRIES],
    strict: &[u8; ENTRIES],
    values: &[i64; ENTRIES],
    out: &mut [u8],
    fault: &mut usize,
    value: &mut usize,
) -> u32
    ensures { WrittenHanded old (case_in n horizon present.now strict.now values.now) out.old
        result fault.new value.new out.new }
{
    let case = case_in(n, horizon, present, strict, values);
    let answer = packer::write(case, out);
    hand_count(answer, fault, value)
}

// The same in the wide form.
#[unsafe(no_mangle)]
pub extern "C" fn tramcheck_write_wide_15(
    n: usize,
    horizon: usize,
    present: &[u8; ENTRIES],
    strict: &[u8; ENTRIES],
    values: &[i64; ENTRIES],
    out: &mut [u8],
    fault: &mut usize,
    value: &mut usize,
) -> u32
    ensures { WrittenHanded wide (case_in n horizon present.now strict.now values.now) out.old
        result fault.new value.new out.new }
{
    let case = case_in(n, horizon, present, strict, values);
    let answer = packer::write_wide(case, out);
    hand_count(answer, fault, value)
}

// A packed case in document 01's form to the wide form, in front of out.
#[unsafe(no_mangle)]
pub extern "C" fn tramcheck_to_wide(
    bytes: &[u8],
    out: &mut [u8],
    fault: &mut usize,
    value: &mut usize,
) -> u32
    ensures { ConvertedHanded old wide bytes.now out.old result fault.new value.new out.new }
{
    let answer = convert::to_wide(bytes, out);
    hand_count(answer, fault, value)
}

// And back, where nothing is lost.
#[unsafe(no_mangle)]
pub extern "C" fn tramcheck_to_old(
    bytes: &[u8],
    out: &mut [u8],
    fault: &mut usize,
    value: &mut usize,
) -> u32
    ensures { ConvertedHanded wide old bytes.now out.old result fault.new value.new out.new }
{
    let answer = convert::to_old(bytes, out);
    hand_count(answer, fault, value)
}

// Reads a packed case, in either form, and hands it back unpacked; the empty case where it is refused.
#[unsafe(no_mangle)]
pub extern "C" fn tramcheck_read_15(
    bytes: &[u8],
    n: &mut usize,
    horizon: &mut usize,
    present: &mut [u8; ENTRIES],
    strict: &mut [u8; ENTRIES],
    values: &mut [i64; ENTRIES],
    fault: &mut usize,
    value: &mut usize,
) -> u32
    ensures handed { Handed (written_numbers (with_count (outcome_of (parse bytes.now)) (length bytes.now)))
        result fault.new value.new }
    ensures case_handed { CaseHanded (read_case (parse bytes.now)) n.new horizon.new present.new strict.new values.new }
{
    let read = packed::read(bytes);
    let case = match &read {
        Ok(case) => case,
        Err(_) => &NO_CASE,
    };
    *n = case.n;
    *horizon = case.horizon.0;
    hand_entries(
        &case.times,
        &case.start,
        &case.target,
        present,
        strict,
        values,
    );
    hand_count(read.map(|_| bytes.len()), fault, value)
}

// Changes one time of an unpacked case where it stands; on a refusal everything stays as it was.
#[unsafe(no_mangle)]
pub extern "C" fn tramcheck_commit_15(
    n: usize,
    horizon: usize,
    present: &mut [u8; ENTRIES],
    strict: &[u8; ENTRIES],
    values: &mut [i64; ENTRIES],
    row: usize,
    column: usize,
    has: u8,
    time: i64,
    fault: &mut usize,
    value: &mut usize,
) -> u32
    ensures { CommitHanded n horizon present.old strict.now values.old row column has time
        result fault.new value.new present.new values.new }
{
    let case = case_in(n, horizon, present, strict, values);
    let done = preview::commit(case, row, column, slot_of(has, time));
    if done.is_ok() {
        let k = (row - 1) * n + (column - 1);
        present[k] = flag(has != 0);
        values[k] = time;
    }
    hand_count(done.map(|_| 0), fault, value)
}
