// Reads a packed case: bit by bit from the front, fields most significant bit first, entries in file order.
#![tactic(auto)]

ghost use Rattle.std.specs.Prelude.{◌≡◌, ◌+◌, ◌*◌, ◌^◌, ◌≤◌, ◌<◌, length, IfOk};
ghost use Rattle.model.specs.Sizes.{most_times, most_bounds, time_width, most_width, most_bits};
ghost use Rattle.model.specs.Forms.{old, wide};
ghost use Rattle.model.specs.Conditions.{Departures, FormLimits};
ghost use Rattle.model.specs.Faults;
ghost use Rattle.model.specs.Packed.{bit_at, signed, fill, body, parse_as, parse};
ghost use Rattle.model.specs.Answers.{outcome_of};

use ints::{Cycle, Seconds};
use model::{
    BOUND_LIMIT, BOUND_WIDTH, BOUNDS, Case, Entry, Fault, Form, HORIZON_WIDTH, Limit, OLD,
    TIME_LIMIT, TIME_WIDTH, WIDE,
};

// The weights of a time's and of a bound's sign bit, and of a bound's mark.
const TIME_SIGN: u32 = 1 << (TIME_WIDTH - 1);

const BOUND_SIGN: u32 = 1 << (BOUND_WIDTH - 1);

const MARK: u32 = 1 << BOUND_WIDTH;

// An entry as it is read.
trait Readable: Entry {
    ghost use Rattle.std.specs.Prelude.{Some, MatchResult};
    ghost use Rattle.std.proofs.Math.Option.{none, some};
    ghost use Rattle.model.specs.declared.Form.{Form};

    // What the number stands for, or its fault; the entry is at the place.
    fn value(raw: u32, place: usize) -> Result<Self, Fault>
        requires { (form : Form) × (raw < 2 ^ (Self.kind form).width) }
        ensures { (form : Form) → raw < 2 ^ (Self.kind form).width → MatchResult result
            (λ e. ((Self.kind form).value raw ≡ Some e) × ((Self.kind form).judge place (Some e) ≡ none))
            (λ f. (Self.kind form).judge place ((Self.kind form).value raw) ≡ some f) };
}

// A time: its value in two's complement.
#[tactic(auto, unfolding(model::specs::Faults::beyond, model::specs::Faults::over))]
impl Readable for Seconds {
    fn value(raw: u32, place: usize) -> Result<Seconds, Fault> {
        let time = in_seconds(raw, TIME_SIGN);
        if time.beyond(TIME_LIMIT) {
            return Err(Fault::Time(place));
        }
        Ok(time)
    }
}

// A bound: its mark, where the form has one, then its value in two's complement.
#[tactic(auto, unfolding(model::specs::Faults::beyond, model::specs::Faults::over, model::specs::Faults::bound_fault, model::specs::Faults::bound_fault_in))]
impl Readable for Limit {
    fn value(raw: u32, place: usize) -> Result<Limit, Fault> {
        let strict = MARK <= raw;
        let value = in_seconds(raw % MARK, BOUND_SIGN);
        if value.beyond(BOUND_LIMIT) {
            return Err(Fault::Bound(place));
        }
        Ok(Limit { strict, value })
    }
}

// The value that raw spells in two's complement, half being the weight of its sign bit.
#[tactic(auto, using(std::proofs::lemmas::Int::ints), unfolding(model::specs::Packed::signed))]
fn in_seconds(raw: u32, half: u32) -> Seconds
    requires { (half ≤ 2 ^ 30) × (raw < half * 2) }
    ensures { result.0 ≡ signed half raw }
{
    Seconds::from(ints::sign_extended(raw, half))
}

// A time as a bound that is not strict.
pub fn unmarked(time: Option<Seconds>) -> Option<Limit>
    ensures { result ≡ Faults.unmarked time }
{
    time.map(|value| Limit {
        strict: false,
        value,
    })
}

// A packed case in a form, and the place of the next bit. Its methods hand back the next cursor with the field.
#[derive(Clone, Copy)]
struct Cursor<'a> {
    bytes: &'a [u8],
    form: Form,
    at: usize,
    ghost form_few: { FormLimits form },
    ghost within: { at ≤ 8 * length bytes.now },
}

impl Cursor<'_> {
    ghost use Rattle.std.specs.Prelude.{[], Ok};
    ghost use Rattle.std.specs.Result.{result_and};
    ghost use Rattle.model.specs.Packed.{bits, entry, entries, rows};
    ghost use Rattle.packed.specs.Readings.{Reads, filled, row_of};

    #[tactic(auto, unfolding(model::specs::Packed::bit_at))]
    fn bit(self, place: usize) -> u32
        requires { place < 8 * length self.bytes.now }
        ensures { result ≡ bit_at self.entry.bytes.now place }
    {
        u32::from(self.bytes[place / 8] >> (7 - place % 8)) % 2
    }

    // Some bits as a number, of a field that starts at place first.
    #[tactic(auto, using(crate::proofs::Laws::number_turns), unfolding(model::specs::Packed::bits))]
    fn bits(mut self, width: usize, first: usize) -> Result<(u32, Self), Fault>
        requires { (self.at + width ≤ most_bits) × (width ≤ most_width) }
        ensures reads { Reads self.entry width result (λ s p. bits s width first p) }
        ensures small { IfOk result (λ field. field.0 < 2 ^ width) }
    {
        let end = self.at + width;
        if self.bytes.len() < end.div_ceil(8) {
            return Err(Fault::CaseEnds(first));
        }
        let mut number = 0;
        for place in self.at..end {
            number = number * 2 + self.bit(place);
        }
        self.at = end;
        Ok((number, self))
    }

    // A field that is a number alone.
    fn number(self, width: usize) -> Result<(u32, Self), Fault>
        requires { (self.at + width ≤ most_bits) × (width ≤ most_width) }
        ensures reads { Reads self.entry width result (λ s p. bits s width p p) }
        ensures small { IfOk result (λ field. field.0 < 2 ^ width) }
    {
        self.bits(width, self.at)
    }

    // An entry: a presence bit, then its number if that is 1.
    #[tactic(auto, unfolding(model::specs::Packed::entry))]
    fn entry<E: Readable>(self) -> Result<(Option<E>, Self), Fault>
        requires { self.at + (1 + (E.kind self.form).width) ≤ most_bits }
        ensures { Reads self.entry (1 + (E.kind self.entry.form).width) result (entry (E.kind self.entry.form)) }
    {
        let first = self.at;
        let (present, cursor) = self.bits(1, first)?;
        if present == 0 {
            return Ok((None, cursor));
        }
        let (raw, cursor) = cursor.bits(E::width(self.form), first)?;
        Ok((Some(E::value(raw, first)?), cursor))
    }

    // As many entries as there are places.
    #[tactic(auto, using(crate::proofs::Laws::room_more, crate::proofs::Laws::entries_none))]
    fn entries<E: Readable>(mut self, places: &mut [Option<E>]) -> Result<Self, Fault>
        requires { self.at + length places.old * (1 + (E.kind self.form).width) ≤ most_bits }
        ensures { Reads self.entry (length places.old * (1 + (E.kind self.entry.form).width)) (filled result places.new)
            (λ s p. entries (E.kind self.entry.form) s (length places.old) p []) }
    {
        for place in places {
            (*place, self) = self.entry()?;
        }
        Ok(self)
    }

    // A row of the table: at least one of its times is there.
    #[tactic(auto, unfolding(crate::specs::Readings::row_of))]
    fn row(self, times: &mut [Option<Seconds>]) -> Result<Self, Fault>
        requires { self.at + length times.old * (1 + time_width) ≤ most_bits }
        ensures { Reads self.entry (length times.old * (1 + time_width)) (filled result times.new) (row_of (length times.old)) }
    {
        let next = self.entries(times)?;
        if !times.iter().any(|time| time.is_some()) {
            return Err(Fault::EmptyRow(self.at));
        }
        Ok(next)
    }

    // The table: n rows of n times, by index: of what mutable chunks leave in their slice, proofs know nothing.
    #[tactic(auto, using(crate::proofs::Laws::rows_none))]
    fn table(mut self, n: usize, times: &mut [Option<Seconds>]) -> Result<Self, Fault>
        requires { (self.at + most_times * (1 + time_width) ≤ most_bits) × Departures n × (length times.old ≡ n * n) }
        ensures { Reads self.entry (most_times * (1 + time_width)) (filled result times.new) (λ s p. rows s n n p []) }
    {
        for i in 0..n {
            self = self.row(&mut times[i * n..(i + 1) * n])?;
        }
        Ok(self)
    }

    // Zero bits up to a whole byte, and no byte more.
    fn padding(self) -> Result<(), Fault>
        requires { self.at ≤ most_bits }
        ensures { result_and result (Ok 0) ≡ outcome_of (fill self.entry.bytes.now self.entry.at) }
    {
        let end = self.at.next_multiple_of(8);
        if let Some(place) = (self.at..end).find(|place| self.bit(*place) != 0) {
            return Err(Fault::FillBit(place));
        }
        if end / 8 < self.bytes.len() {
            return Err(Fault::ExtraByte(end));
        }
        Ok(())
    }

    // What follows the two numbers.
    #[tactic(auto, unfolding(model::specs::Packed::body))]
    fn body(self, n: usize, horizon: Cycle) -> Result<Case, Fault>
        requires { (self.at + (most_times * (1 + time_width) + 2 * (most_bounds * (1 + most_width))) ≤ most_bits) × Departures n }
        ensures { result ≡ outcome_of (body self.entry.form self.entry.bytes.now n horizon.0 self.entry.at) }
    {
        let mut times = [None; BOUNDS];
        let mut start = [None; BOUNDS];
        let mut target = [None; BOUNDS];
        let bounds = n * (n + 1);
        let cursor = self.table(n, &mut times[..n * n])?;
        let cursor = cursor.entries(&mut start[..bounds])?;
        let cursor = cursor.entries(&mut target[..bounds])?;
        cursor.padding()?;
        Ok(Case {
            n,
            horizon,
            times,
            start,
            target,
        })
    }
}

// The whole case in a form, or its first fault.
#[tactic(auto, unfolding(model::specs::Packed::parse_as))]
fn read_as(bytes: &[u8], form: Form) -> Result<Case, Fault>
    requires { FormLimits form }
    ensures { result ≡ outcome_of (parse_as form bytes.now) }
{
    let cursor = Cursor { bytes, form, at: 0 };
    let (lead, cursor) = cursor.number(form.lead)?;
    if lead != 0 {
        return Err(Fault::Departures);
    }
    let (n, cursor) = cursor.number(form.digits)?;
    if n == 0 {
        return Err(Fault::Departures);
    }
    let (more, cursor) = cursor.number(HORIZON_WIDTH)?;
    cursor.body(n as usize, Cycle(more as usize + 1))
}

// A case in document 01's form. One function for any form would have to ask that the form is no longer than the wide one; C and the documents name the two.
pub fn read_old(bytes: &[u8]) -> Result<Case, Fault>
    ensures { result ≡ outcome_of (parse_as old bytes.now) }
{
    read_as(bytes, OLD)
}

// A case in the wide form.
pub fn read_wide(bytes: &[u8]) -> Result<Case, Fault>
    ensures { result ≡ outcome_of (parse_as wide bytes.now) }
{
    read_as(bytes, WIDE)
}

// A case in either form: the zero bits in front tell the wide one.
#[tactic(auto, unfolding(model::specs::Packed::parse))]
pub fn read(bytes: &[u8]) -> Result<Case, Fault>
    ensures { result ≡ outcome_of (parse bytes.now) }
{
    let form = WIDE;
    let cursor = Cursor { bytes, form, at: 0 };
    let (lead, _) = cursor.number(form.lead)?;
    if lead == 0 {
        read_wide(bytes)
    } else {
        read_old(bytes)
    }
}
