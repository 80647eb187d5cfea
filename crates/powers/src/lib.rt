// The powers of a table in memory: one made from the one before it, and the first repeated one. For that the powers stand side by side in one flat array of
// numbers, made by a repeat expression: power r + 1 at place r, that is, from number r * (n * n) on.
#![tactic(auto)]

ghost use Rattle.std.specs.Prelude.{◌≡◌, ◌+◌, ◌*◌, ◌≤◌, ◌<◌, ◌^◌, length, take, get_or};
ghost use Rattle.model.specs.Sizes.{most_cycles, table_size};
ghost use Rattle.model.specs.Lists.{same_lists};
ghost use Rattle.model.specs.Network;
ghost use Rattle.model.specs.Network.{blank, secs, after, added, same_time};
ghost use Rattle.memory.specs.Numbers.{time_in, times_in};
ghost use Rattle.powers.specs.Readings.{repeat_read, repeat_in, repeats_at, PlaceIn, EntryOf, Makeable, RowMade, Made, Advancing, TableReady, Searchable};

use ints::{Seconds, ZERO};
use memory::{Stored, raw_time};
use model::{CYCLES, FEW, TIMES, later_sum};

// Power q is power p with number added.
#[derive(Clone, Copy)]
pub struct Again {
    pub q: usize,
    pub p: usize,
    pub number: Seconds,
}

// The numbers of the first CYCLES powers of a table of few departures, and of any.
const FEW_NUMBERS: usize = CYCLES * FEW * FEW;

const MANY_NUMBERS: usize = CYCLES * TIMES;

// Entry (i, j) of a product: row i of the first table by column j of the second.
fn entry(first: &[i32], second: &[i32], n: usize, i: usize, j: usize) -> i32
    requires { EntryOf n first.now second.now i j }
    ensures { time_in result ≡ get_or (Network.product n (times_in first.now) (times_in second.now)) (i * n + j) blank }
{
    let mut latest = None;
    for l in 0..n {
        latest = later_sum(latest, first[i * n + l].time(), second[l * n + j].time());
    }
    raw_time(latest)
}

// Row i of the product of the table and of the one at place r, put at the next place.
fn product_row(times: &[i32], powers: &mut [i32], n: usize, r: usize, i: usize)
    requires { Makeable n r times.now powers.old × (i < n) }
    ensures { RowMade n r i times.now powers.old powers.new }
{
    let from = r * (n * n);
    let goal = from + n * n;
    let row = goal + i * n;
    for j in 0..n {
        powers[row + j] = entry(times, &powers[from..goal], n, i, j);
    }
}

// The product of the table and of the one at place r, put at the next place.
fn product(times: &[i32], powers: &mut [i32], n: usize, r: usize)
    requires { Makeable n r times.now powers.old }
    ensures { Made n r times.now powers.old powers.new }
{
    for i in 0..n {
        product_row(times, powers, n, r, i);
    }
}

// The product of the table and of that at the front of tables, put at the front in its place. What lies behind it is free.
pub fn advance(times: &[i32], tables: &mut [i32], n: usize)
    requires { Advancing n times.now tables.old }
    ensures { times_in (take (table_size n) tables.new)
        ≡ Network.product n (times_in times.now) (times_in (take (table_size n) tables.old)) }
{
    product(times, tables, n, 0);
    tables.copy_within(n * n..2 * (n * n), 0);
}

// What is added to the first table: the gap of the first place that holds a time in both.
fn gap(first: &[i32], second: &[i32]) -> Seconds
    requires { length first.now ≡ length second.now }
    ensures { result.0 ≡ Network.gap (times_in first.now) (times_in second.now) }
{
    for (a, b) in first.iter().zip(second) {
        let Some(a) = a.time() else { continue };
        if let Some(b) = b.time() {
            return b - a;
        }
    }
    ZERO
}

// b is a with c added.
#[tactic(auto, unfolding(model::specs::Network::after, model::specs::Network::same_time, model::specs::Faults::time_of))]
fn moved(a: i32, b: i32, c: Seconds) -> bool
    ensures { result ≡ same_time (after (secs c.0) (time_in a)) (time_in b) }
{
    match (a.time(), b.time()) {
        (Some(a), Some(b)) => b - a == c,
        (None, None) => true,
        _ => false,
    }
}

// The second table is the first with c added. The last entries are compared first.
// By index: a zip of two `rev` asks both slices for their end at each entry, 1.4 times the instructions.
fn all_moved(first: &[i32], second: &[i32], c: Seconds) -> bool
    requires { length first.now ≡ length second.now }
    ensures { result ≡ same_lists same_time (added c.0 (times_in first.now)) (times_in second.now) }
{
    for k in (0..first.len()).rev() {
        if !moved(first[k], second[k], c) {
            return false;
        }
    }
    true
}

// The second table is the first with one number added.
pub fn alike(first: &[i32], second: &[i32]) -> bool
    requires { length first.now ≡ length second.now }
    ensures { result
        ≡ same_lists same_time
        (added (Network.gap (times_in first.now) (times_in second.now)) (times_in first.now))
        (times_in second.now) }
{
    let number = gap(first, second);
    all_moved(first, second, number)
}

// The first of the powers before that at place r which it repeats.
fn repeats(powers: &[i32], n: usize, r: usize) -> Option<Again>
    requires { PlaceIn n r powers.now }
    ensures { repeat_read result ≡ repeats_at n powers.now r }
{
    let size = n * n;
    let base = r * size;
    let last = &powers[base..base + size];
    for (p, earlier) in powers[..base].chunks_exact(size).enumerate() {
        if alike(earlier, last) {
            return Some(Again {
                q: r + 1,
                p: p + 1,
                number: gap(earlier, last),
            });
        }
    }
    None
}

// The table, put at the front of tables. What lies behind it is free. By index: `copy_from_slice` calls memmove, which a program without a C library lacks.
pub fn put_front(tables: &mut [i32], times: &[i32])
    requires { length times.now ≤ length tables.old }
    ensures { times_in (take (length times.now) tables.new) ≡ times_in times.now }
{
    for k in 0..times.len() {
        tables[k] = times[k];
    }
}

// The powers are made one after the other, until one repeats an earlier one.
fn search(times: &[i32], powers: &mut [i32], n: usize) -> Option<Again>
    requires { Searchable n times.now powers.old }
    ensures { repeat_read result ≡ repeat_in n times.now }
{
    put_front(powers, times);
    for r in 0..CYCLES - 1 {
        product(times, powers, n, r);
        if let Some(again) = repeats(powers, n, r + 1) {
            return Some(again);
        }
    }
    None
}

// The same, with an array for the powers.
fn search_in<const NUMBERS: usize>(times: &[i32], n: usize) -> Option<Again>
    requires { TableReady n times.now × (most_cycles * table_size n ≤ NUMBERS) × (NUMBERS < 2 ^ 61) }
    ensures { repeat_read result ≡ repeat_in n times.now }
{
    let mut powers = [0i32; NUMBERS];
    search(times, &mut powers, n)
}

// The first repeated power of a table of n departures, if one of the first CYCLES is one. Small networks do not pay for an array as large ones need.
pub fn first_repeat(times: &[i32], n: usize) -> Option<Again>
    requires { TableReady n times.now }
    ensures { repeat_read result ≡ repeat_in n times.now }
{
    if n <= FEW {
        search_in::<FEW_NUMBERS>(times, n)
    } else {
        search_in::<MANY_NUMBERS>(times, n)
    }
}
