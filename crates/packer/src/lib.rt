// Writes a packed case, fields most significant bit first, entries in file order. Nothing is written before the last fault is excluded.
#![tactic(auto)]

ghost use Rattle.std.specs.Prelude.{◌≡◌, ◌+◌, ◌-◌, ◌*◌, ◌^◌, ◌≤◌, ◌<◌, length, nat_abs};
ghost use Rattle.model.specs.declared.Form.{Form};
ghost use Rattle.model.specs.Sizes.{most_bounds, most_width};
ghost use Rattle.model.specs.Forms.{old, wide};
ghost use Rattle.model.specs.Lists.{Every};
ghost use Rattle.model.specs.Conditions.{Departures, FormLimits};
ghost use Rattle.model.specs.Packed.{raw_of};
ghost use Rattle.model.specs.Writing.{field_bits, head_bits, entry_bits, entries_bits, case_bits, packed_as, WriteGiven};
ghost use Rattle.packer.specs.Sound.{InFront, Faultless, Placed, Spells, NumbersIn, Sound};

use ints::{Cycle, Seconds};
use model::{BOUND_WIDTH, Case, Entry, Fault, Form, HORIZON_WIDTH, Limit, OLD, TIME_WIDTH, WIDE};

// An entry as it is written.
trait Writable: Entry {
    // The number that its bits spell.
    fn number(self) -> u32
        requires { (form : Form) × Placed Self.kind self form }
        ensures { (form : Form) → Placed Self.kind self form → Spells Self.kind self form result };
}

impl Writable for Seconds {
    #[tactic(auto, using(crate::proofs::Parts::time_spelt))]
    fn number(self) -> u32 {
        raw(self, 1 << (TIME_WIDTH - 1))
    }
}

impl Writable for Limit {
    // The mark stands in front of the value.
    fn number(self) -> u32 {
        ((self.strict as u32) << BOUND_WIDTH) + raw(self.value, 1 << (BOUND_WIDTH - 1))
    }
}

// The number that spells the value in two's complement, half being the weight of the sign bit.
#[tactic(auto, using(crate::proofs::Parts::raw_below, crate::proofs::Parts::raw_above))]
fn raw(value: Seconds, half: u32) -> u32
    requires { (half ≤ 2 ^ 30) × (nat_abs value.0 < half) }
    ensures { (result ≡ raw_of half value.0) × (result < half * 2) }
{
    let seconds = value.0;
    if seconds < 0 {
        half * 2 - seconds.unsigned_abs() as u32
    } else {
        seconds as u32
    }
}

// How far the writing in a form got: the output, how many of its bytes are full, how many bits are held for the next one, and the number that these spell.
#[derive(Drop)]
struct Pen<'a> {
    form: Form,
    out: &'a mut [u8],
    full: usize,
    held: usize,
    part: u32,
    ghost form_few: { FormLimits form },
}

impl Pen<'_> {
    ghost use Rattle.packer.specs.Ink.{CanInk, Inks, Filled};

    // The bits of a number. Each byte that is full is stored, which takes eight of the bits held.
    #[tactic(auto, using(crate::proofs::Inking::fields))]
    fn bits(&mut self, width: usize, value: u32)
        requires { CanInk width self.old × (width ≤ most_width) × (value < 2 ^ width) }
        ensures { Inks (field_bits width value) self.old self.new }
    {
        self.part = (self.part << width) + value;
        self.held += width;
        for _ in 0..self.held / 8 {
            self.held -= 8;
            self.out[self.full] = (self.part >> self.held) as u8;
            self.part %= 1 << self.held;
            self.full += 1;
        }
    }

    // An entry: a presence bit, then its number if that is 1.
    #[tactic(auto, using(crate::proofs::Parts::entry_parts))]
    fn entry<E: Writable>(&mut self, entry: Option<E>)
        requires { CanInk (length (entry_bits (E.kind self.old.form) entry)) self.old × Faultless (E.kind self.old.form) entry }
        ensures { Inks (entry_bits (E.kind self.old.form) entry) self.old self.new }
    {
        match entry {
            None => self.bits(1, 0),
            Some(entry) => {
                self.bits(1, 1);
                self.bits(E::width(self.form), entry.number());
            }
        }
    }

    // One entry after the other.
    #[tactic(auto, using(crate::proofs::Parts::entries_parts))]
    fn entries<E: Writable>(&mut self, entries: &[Option<E>])
        requires { CanInk (length (entries_bits (E.kind self.old.form) entries.now)) self.old × Every (Faultless (E.kind self.old.form)) entries.now }
        ensures { Inks (entries_bits (E.kind self.old.form) entries.now) self.old self.new }
    {
        for entry in entries {
            self.entry(*entry);
        }
    }

    // The numbers in front.
    #[tactic(auto, using(crate::proofs::Sound::head_lengths))]
    fn head(&mut self, n: usize, horizon: Cycle)
        requires { CanInk (length (head_bits self.old.form n horizon.0)) self.old × NumbersIn self.old.form n horizon.0 }
        ensures { Inks (head_bits self.old.form n horizon.0) self.old self.new }
    {
        self.bits(self.form.lead, 0);
        self.bits(self.form.digits, n as u32);
        self.bits(HORIZON_WIDTH, (horizon.0 - 1) as u32);
    }

    // Zero bits up to a whole byte.
    #[tactic(auto, using(crate::proofs::Inking::fills))]
    fn fill(&mut self)
        requires { CanInk 0 self.old }
        ensures { Filled self.old self.new }
    {
        self.bits((8 - self.held) % 8, 0);
    }
}

// The bits that an entry takes.
#[tactic(auto, using(crate::proofs::Parts::entry_parts))]
pub fn entry_length<E: Entry>(entry: Option<E>, form: Form) -> usize
    requires { FormLimits form }
    ensures { (result ≡ length (entry_bits (E.kind form) entry)) × (result ≤ 1 + most_width) }
{
    1 + entry.map_or(0, |_| E::width(form))
}

// The bits that entries take: a presence bit for each, and a number's bits for each that is there.
#[tactic(auto, using(crate::proofs::Parts::entries_length))]
pub fn entries_length<E: Entry>(entries: &[Option<E>], form: Form) -> usize
    requires { FormLimits form × (length entries.now ≤ most_bounds) }
    ensures { (result ≡ length (entries_bits (E.kind form) entries.now)) × (result ≤ (1 + most_width) * length entries.now) }
{
    entries.len() + entries.iter().filter(|entry| entry.is_some()).count() * E::width(form)
}

// The bits of a case. It asks for the form's limits, as there is no pen before the length is known.
#[tactic(auto, using(crate::proofs::Sound::case_lengths))]
fn case_length(case: &Case, form: Form) -> usize
    requires { Departures case.now.n × FormLimits form }
    ensures { result ≡ length (case_bits form case.now) }
{
    let times = case.n * case.n;
    let size = case.n * (case.n + 1);
    form.lead
        + form.digits
        + HORIZON_WIDTH
        + entries_length(&case.times[..times], form)
        + entries_length(&case.start[..size], form)
        + entries_length(&case.target[..size], form)
}

// The packed bytes of a case without a fault, for which the output has room.
#[tactic(auto, using(crate::proofs::Sound::case_lengths))]
fn put_case(case: &Case, form: Form, out: &mut [u8])
    requires sound { Sound form case.now }
    requires room { length (packed_as form case.now) ≤ length out.old }
    ensures { InFront (packed_as form case.now) out.old out.new }
{
    let n = case.n;
    let size = n * (n + 1);
    let start = &case.start[..size];
    let target = &case.target[..size];
    let mut pen = Pen {
        form,
        out,
        full: 0,
        held: 0,
        part: 0,
    };
    pen.head(n, case.horizon);
    pen.entries(&case.times[..n * n]);
    pen.entries(start);
    pen.entries(target);
    pen.fill();
}

// The packed bytes of a case in a form in front of the output, and how many they are. What stands behind them stays as it was; on a fault everything does.
#[tactic(auto, using(crate::proofs::Sound::writing))]
fn write_as(case: Case, form: Form, out: &mut [u8]) -> Result<usize, Fault>
    requires { FormLimits form }
    ensures { WriteGiven form case out.old result out.new }
{
    judge::form_fault(&case, form)?;
    let needed = case_length(&case, form).div_ceil(8);
    if out.len() < needed {
        return Err(Fault::Output(needed));
    }
    put_case(&case, form, out);
    Ok(needed)
}

// In document 01's form. One function for any form would have to ask that the form is no longer than the wide one; C and the documents name the two.
pub fn write(case: Case, out: &mut [u8]) -> Result<usize, Fault>
    ensures { WriteGiven old case out.old result out.new }
{
    write_as(case, OLD, out)
}

// In the wide form.
pub fn write_wide(case: Case, out: &mut [u8]) -> Result<usize, Fault>
    ensures { WriteGiven wide case out.old result out.new }
{
    write_as(case, WIDE, out)
}
