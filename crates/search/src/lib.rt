// The search: list after list, until one meets the start, the table is full, no zone is left, or the cycles are searched. Where a list is the one
// before it with the clock moved, so is each later one, and no more lists are made. The same where it is the list so many cycles before: the lists
// then take turns.
#![tactic(auto)]

ghost use Rattle.std.specs.Prelude.{◌≡◌, true, suc, ◌+◌, ◌*◌, ◌-◌, ◌/◌, ◌%◌, ◌≤◌, ◌<◌, ◌^◌, IfSome, length, drop};
ghost use Rattle.model.specs.Sizes.{most_departures, zone_size};
ghost use Rattle.memory.specs.Numbers.{bounds_in, times_in};
ghost use Rattle.lists.specs.Lists.{size_seen, list_in, Building};
ghost use Rattle.memory.specs.Networks.{network_in};
ghost use Rattle.model.specs.Answers.{answered};
ghost use Rattle.model.specs.Search.{lists, search_from};
ghost use Rattle.search.specs.Searching.{Searchable, MovingOn, moved_search, NextMade, past_by, past_list, Searched, Reached, SearchedTo};
ghost use Rattle.search.specs.Keeping.{places, room_in, count_of, Placed, ListKept, Repeats, Turnable, Turned, Turning};

use ints::{Cycle, Seconds, ZERO};
use lists::{Making, ZoneList};
use model::{Answer, Fault, StartTimes, Verdict};
use std::ops::ControlFlow;

// Of the last lists so many are kept, each in a place of its own.
const PLACES: usize = 5;

// The numbers of these places together: for a small and for any other network.
const SMALL_KEPT: usize = PLACES * 1024;

const LARGE_KEPT: usize = PLACES * 8192;

// No lists are kept in the first cycles.
const EARLY: usize = 4;

// What getting past the last cycle means. An Option<Cycle> would not be plainer: its None does not say never.
#[derive(Clone, Copy, Debug, PartialEq, Eq)]
pub enum End {
    Clear(Cycle),
    Never,
}

impl End {
    fn answer(self) -> Answer
        ensures { result ≡ answered (past_by self) }
    {
        match self {
            End::Clear(horizon) => Ok(Verdict::Clear(horizon)),
            End::Never => Ok(Verdict::Never),
        }
    }
}

// A search: Z, n, in what parts of a second a start is handed back, how many cycles are searched, what getting past them means, and the network's numbers in
// memory.
#[derive(Clone, Copy)]
pub struct Task<'a> {
    pub capacity: usize,
    pub n: usize,
    pub parts: usize,
    pub cycles: Cycle,
    pub end: End,
    pub times: &'a [i32],
    pub start: &'a [i32],
    pub target: &'a [i32],
}

// How lists take turns: each is the one so many cycles before it, with the clock so much later.
#[derive(Clone, Copy)]
struct Turn {
    lag: usize,
    by: Seconds,
}

// The rest of a search where each list is the one before it with the clock moved, and this is list k. Where the clock does not move, they are all the
// same, and none meets the start.
fn move_on(work: &mut [i32], list: ZoneList, task: Task, k: Cycle, by: Seconds) -> Answer
    requires { MovingOn task.n task.parts list.base list.count (task.cycles.0 - k.0) by.0 work.old task.start.now }
    ensures { let t = task.entry in result ≡ answered (moved_search t.n t.parts by.0 (bounds_in t.start.now) (t.cycles.0 - k.0) (suc k.0)
        (list_in (zone_size t.n) list.count (drop list.base work.old)) (past_by t.end)) }
{
    let past = task.end.answer();
    if by == ZERO {
        return past;
    }
    let n = task.n;
    let parts = task.parts;
    for at in k.0..task.cycles.0 {
        moves::move_list(work, list, n, by);
        if let Some(times) = lists::first_common(work, list, task.start, n, parts) {
            return Ok(Verdict::Reached(Cycle(at + 1), StartTimes { parts, times }));
        }
    }
    past
}

// The list of cycle k, where it is kept.
fn place(numbers: &[i32], counts: &[usize], k: usize) -> ZoneList
    requires { length counts.now ≡ places }
    ensures { (result.base ≡ k % places * room_in numbers.now) × (result.count ≡ count_of counts.now k) }
{
    ZoneList {
        base: k % PLACES * (numbers.len() / PLACES),
        count: counts[k % PLACES],
    }
}

// Keeps these zones as the list of cycle k: from which cycle on all lists are kept then. A list that has no zone or is too long for its place is not
// kept, and then none is.
fn keep(
    numbers: &mut [i32],
    counts: &mut [usize],
    zones: &[i32],
    count: usize,
    k: usize,
    from: usize,
) -> usize
    requires { (length counts.old ≡ places) × (k < 2 ^ 32) }
    ensures { ListKept (room_in numbers.old) zones.now count k from counts.old numbers.old result counts.new numbers.new }
{
    let room = numbers.len() / PLACES;
    if count == 0 || room < zones.len() {
        return k + 1;
    }
    let base = k % PLACES * room;
    for p in 0..zones.len() {
        numbers[base + p] = zones[p];
    }
    counts[k % PLACES] = count;
    from
}

// How the lists take turns, if list k is one of those before it with the clock moved and all since are kept. The list right before it was looked at.
fn repeats(numbers: &[i32], counts: &[usize], n: usize, from: usize, k: usize) -> Option<Turn>
    requires { (n ≤ most_departures) × (length counts.now ≡ places) × (from < 2 ^ 32)
        × ((j : _) → from ≤ j → j ≤ k → k < j + places → Placed n (room_in numbers.now) counts.now j) }
    ensures { IfSome result (λ turn. Repeats n counts.now numbers.now from k turn.lag turn.by.0) }
{
    for lag in 2..PLACES {
        if k < from + lag {
            return None;
        }
        let before = place(numbers, counts, k - lag);
        if let Some(by) = moves::find_move(numbers, before, place(numbers, counts, k), n) {
            return Some(Turn { lag, by });
        }
    }
    None
}

// Makes the list of cycle k from the one whose turn it is.
fn make_turn(numbers: &mut [i32], counts: &mut [usize], n: usize, k: usize, turn: Turn) -> ZoneList
    requires { Turnable n counts.old numbers.old k turn.lag turn.by.0 }
    ensures { Turned n (room_in numbers.old) k turn.lag turn.by.0 counts.old numbers.old counts.new numbers.new result }
{
    let old = place(numbers, counts, k - turn.lag);
    counts[k % PLACES] = old.count;
    let new = place(numbers, counts, k);
    let size = old.count * memory::zone_size(n);
    numbers.copy_within(old.base..old.base + size, new.base);
    moves::move_list(numbers, new, n, turn.by);
    new
}

// The rest of a search where the lists take turns, and this is list k. Where the clock does not move, each is one of those kept, and none meets the start.
fn take_turns(numbers: &mut [i32], counts: &mut [usize], task: Task, k: Cycle, turn: Turn) -> Answer
    requires { Turning task.n task.parts task.capacity task.cycles.0 task.times.now task.start.now task.target.now
        counts.old numbers.old k.0 turn.lag turn.by.0 }
    ensures { let t = task.entry in let w = network_in t.n t.cycles.0 t.times.now t.start.now t.target.now in
        result ≡ answered (search_from w t.capacity (t.cycles.0 - k.0) (suc k.0) (lists w k.0) (past_by t.end)) }
{
    let end = task.end.answer();
    if turn.by == ZERO {
        return end;
    }
    let n = task.n;
    let parts = task.parts;
    for at in k.0..task.cycles.0 {
        let cycle = Cycle(at + 1);
        let list = make_turn(numbers, counts, n, cycle.0, turn);
        if let Some(times) = lists::first_common(numbers, list, task.start, n, parts) {
            return Ok(Verdict::Reached(cycle, StartTimes { parts, times }));
        }
    }
    end
}

// The answer where the last cycle is searched, by its list.
fn past(list: ZoneList, task: Task) -> Answer
    ensures { let t = task.entry in result ≡ answered (past_list list.count (past_by t.end)) }
{
    if list.count == 0 {
        return Ok(Verdict::Never);
    }
    task.end.answer()
}

// The list made from a list, in the other half of the workspace. None where it has no room.
fn next_list(work: &mut [i32], seen: &mut [i32], task: Task, list: ZoneList) -> Option<ZoneList>
    requires { Building task.n task.capacity list.base (task.capacity * zone_size task.n - list.base) list.count work.old task.times.now seen.old }
    ensures { let t = task.entry in
        NextMade t.n t.capacity list.base list.count t.times.now work.old seen.old result work.new seen.new }
{
    let goal = task.capacity * memory::zone_size(task.n) - list.base;
    let making = Making {
        n: task.n,
        capacity: task.capacity,
        times: task.times,
    };
    let count = lists::next_list(work, list, goal, making, seen)?;
    Some(ZoneList { base: goal, count })
}

// The search in the cycles after the first of these up to the last, with a table for the sets met and numbers for the last lists: the answer, or the list of
// the last cycle. The two halves of the workspace hold a list and the next one in turn.
fn search_cycles(
    work: &mut [i32],
    seen: &mut [i32],
    kept: &mut [i32],
    task: Task,
    mut list: ZoneList,
    first: usize,
    last: usize,
) -> ControlFlow<Answer, ZoneList>
    requires { Searchable task.n task.parts task.capacity task.cycles.0 (length work.old) task.times.now task.start.now task.target.now
        × (size_seen task.n ≤ length seen.old)
        × Reached task.n task.capacity task.cycles.0 (length work.old) task.times.now task.start.now task.target.now work.old list.count list.base first
        × (first ≤ last) × (last ≤ task.cycles.0) }
    ensures { let t = task.entry in
        SearchedTo t.n t.capacity t.cycles.0 (length work.old) t.times.now t.start.now t.target.now t.end last result work.new }
{
    let n = task.n;
    let parts = task.parts;
    let mut counts = [0; PLACES];
    let mut from = first + 1;
    for k in first..last {
        if list.count == 0 {
            return ControlFlow::Break(Ok(Verdict::Never));
        }
        let cycle = Cycle(k + 1);
        let Some(next) = next_list(work, seen, task, list) else {
            return ControlFlow::Break(Err(Fault::TableFull(cycle)));
        };
        if let Some(times) = lists::first_common(work, next, task.start, n, parts) {
            return ControlFlow::Break(Ok(Verdict::Reached(cycle, StartTimes { parts, times })));
        }
        if let Some(by) = moves::find_move(work, list, next, n) {
            return ControlFlow::Break(move_on(work, next, task, cycle, by));
        }
        let zones = next.numbers(work, n);
        from = keep(kept, &mut counts, zones, next.count, k + 1, from);
        if let Some(turn) = repeats(kept, &counts, n, from, k + 1) {
            return ControlFlow::Break(take_turns(kept, &mut counts, task, cycle, turn));
        }
        list = next;
    }
    ControlFlow::Continue(list)
}

// The answer of a search after its first cycles, with numbers for the last lists.
fn search_late<const KEPT: usize>(
    work: &mut [i32],
    seen: &mut [i32],
    task: Task,
    list: ZoneList,
    first: usize,
) -> Answer
    requires { Searchable task.n task.parts task.capacity task.cycles.0 (length work.old) task.times.now task.start.now task.target.now
        × (size_seen task.n ≤ length seen.old)
        × Reached task.n task.capacity task.cycles.0 (length work.old) task.times.now task.start.now task.target.now work.old list.count list.base first
        × (KEPT < 2 ^ 61) }
    ensures { let t = task.entry in
        Searched (network_in t.n t.cycles.0 t.times.now t.start.now t.target.now) t.capacity t.cycles.0 t.end result }
{
    let mut kept = [0i32; KEPT];
    match search_cycles(work, seen, &mut kept, task, list, first, task.cycles.0) {
        ControlFlow::Break(answer) => answer,
        ControlFlow::Continue(last) => past(last, task),
    }
}

// The answer of a search, with a table for the sets met. Most searches end in the first cycles, so no lists are kept there.
fn search_with<const KEPT: usize>(work: &mut [i32], seen: &mut [i32], task: Task) -> Answer
    requires { Searchable task.n task.parts task.capacity task.cycles.0 (length work.old) task.times.now task.start.now task.target.now
        × (size_seen task.n ≤ length seen.old) × (KEPT < 2 ^ 61) }
    ensures { let t = task.entry in
        Searched (network_in t.n t.cycles.0 t.times.now t.start.now t.target.now) t.capacity t.cycles.0 t.end result }
{
    let count = usize::from(lists::first_list(work, task.target, task.n));
    let list = ZoneList { base: 0, count };
    let early = task.cycles.0.min(EARLY);
    let mut none = [0i32; 0];
    match search_cycles(work, seen, &mut none, task, list, 0, early) {
        ControlFlow::Break(answer) => answer,
        ControlFlow::Continue(list) => search_late::<KEPT>(work, seen, task, list, early),
    }
}

// The same, with that table.
fn search_in<const SIZE: usize, const KEPT: usize>(work: &mut [i32], task: Task) -> Answer
    requires { Searchable task.n task.parts task.capacity task.cycles.0 (length work.old) task.times.now task.start.now task.target.now
        × (size_seen task.n ≤ SIZE) × (SIZE < 2 ^ 61) × (KEPT < 2 ^ 61) }
    ensures { let t = task.entry in
        Searched (network_in t.n t.cycles.0 t.times.now t.start.now t.target.now) t.capacity t.cycles.0 t.end result }
{
    let mut seen = [0i32; SIZE];
    search_with::<KEPT>(work, &mut seen, task)
}

// The answer of a search. What the workspace holds afterwards is free. All of the table for the sets met and of the numbers for the last lists is cleared, so
// they are made no longer than such a network asks for.
pub fn search(work: &mut [i32], task: Task) -> Answer
    requires { Searchable task.n task.parts task.capacity task.cycles.0 (length work.old) task.times.now task.start.now task.target.now }
    ensures { let t = task.entry in
        Searched (network_in t.n t.cycles.0 t.times.now t.start.now t.target.now) t.capacity t.cycles.0 t.end result }
{
    if task.n <= lists::SMALL {
        return search_in::<{ lists::SMALL_SEEN }, { SMALL_KEPT }>(work, task);
    }
    if task.n <= lists::MIDDLE {
        return search_in::<{ lists::MIDDLE_SEEN }, { LARGE_KEPT }>(work, task);
    }
    search_in::<{ lists::LARGE_SEEN }, { LARGE_KEPT }>(work, task)
}
