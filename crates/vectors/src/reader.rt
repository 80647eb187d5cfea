// Reads a call, word by word and number by number.
use crate::call::{Call, Form, NotRead, SIZE, What};
use crate::words::{Count, Kind, Relation, Time, Word, decimal};
use ints::{Cycle, Seconds};
use model::{BOUNDS, DEPARTURES, Limit};

// What the next number is.
#[derive(Clone, Copy)]
enum Key {
    Time(Time),
    Count(Count),
}

// The call so far, and what was said of what comes next.
#[derive(Drop)]
struct Reader {
    call: Call,
    // what the next number is, whether it is below 0, whether its entry is marked absent
    key: Option<Key>,
    minus: bool,
    absent: bool,
    // the departures that the next bound is for, and whether it is one of the target
    i: usize,
    j: usize,
    target: bool,
    // how many entries the table was given, and times of a run's start
    entries: usize,
    starts: usize,
}

pub(crate) fn read(text: &[u8]) -> Result<Call, NotRead> {
    let mut reader = Reader {
        call: Call::new(),
        key: None,
        minus: false,
        absent: false,
        i: 0,
        j: 0,
        target: false,
        entries: 0,
        starts: 0,
    };
    for token in text.chunk_by(|a, b| Kind::of(*a) == Kind::of(*b)) {
        reader.token(token)?;
    }
    reader.finish()
}

// The number that stands for these digits, with a minus sign or without.
fn signed(size: u64, minus: bool) -> Result<Seconds, NotRead> {
    let value = if minus {
        0i64.checked_sub_unsigned(size)
    } else {
        0i64.checked_add_unsigned(size)
    };
    value.map(Seconds).ok_or(NotRead)
}

// The entry number of the pair i, j: pairs go by i, then j, without i = j.
fn pair(n: usize, i: usize, j: usize) -> Option<usize> {
    if n > BOUNDS || i > BOUNDS || j > BOUNDS || i == j {
        return None;
    }
    let row = i * n;
    Some(if j > i { row + j - 1 } else { row + j })
}

impl Reader {
    fn token(&mut self, text: &[u8]) -> Result<(), NotRead> {
        let Some(first) = text.first() else {
            return Ok(());
        };
        match Kind::of(*first) {
            Kind::Blank => Ok(()),
            Kind::Number => self.number(decimal(text)?),
            Kind::Word => self.word(Word::of(text)?),
        }
    }

    fn word(&mut self, word: Word) -> Result<(), NotRead> {
        match word {
            Word::Filler => {}
            Word::Table => {
                self.call.case.n = 1;
                self.key = Some(Key::Time(Time::Entry));
            }
            Word::Row => self.call.case.n = self.call.case.n.wrapping_add(1),
            Word::Blank => return self.entry(None),
            Word::Absent => self.absent = true,
            Word::Target => self.target = true,
            Word::Departure => self.departure(),
            Word::Minus => self.minus = true,
            Word::Time(time) => self.key = Some(Key::Time(time)),
            Word::Count(count) => self.key = Some(Key::Count(count)),
            Word::Made(what) => self.call.what = what,
            Word::Packed => self.pack(Form::Old),
            Word::Wide => self.pack(Form::Wide),
            Word::Bytes => {
                self.call.what = What::Packed;
                self.key = Some(Key::Count(Count::Byte));
            }
            Word::Output => {
                self.call.what = What::Output;
                self.key = Some(Key::Count(Count::Size));
            }
        }
        Ok(())
    }

    // The bytes are those of the case so far: none where the writer refuses it.
    fn pack(&mut self, form: Form) {
        self.call = self.call.packed(form).unwrap_or(Call {
            what: What::Packed,
            form,
            bytes: [0; SIZE],
            length: 0,
            ..self.call
        });
    }

    // The number of a departure follows: of the first that a bound is for, or behind a minus of the second.
    fn departure(&mut self) {
        let count = if self.minus {
            Count::Second
        } else {
            Count::First
        };
        self.key = Some(Key::Count(count));
        self.minus = false;
    }

    fn number(&mut self, value: u64) -> Result<(), NotRead> {
        match self.key {
            Some(Key::Time(time)) => self.time(time, value),
            Some(Key::Count(count)) if !self.minus && !self.absent => self.count(
                count,
                value as usize,
            ),
            _ => Err(NotRead),
        }
    }

    fn count(&mut self, count: Count, size: usize) -> Result<(), NotRead> {
        match count {
            Count::Departures => self.call.case.n = size,
            Count::Horizon => self.call.case.horizon = Cycle(size),
            Count::Zones => self.call.zones = size,
            Count::Room => self.call.room = size,
            Count::Size => self.call.size = size,
            Count::Length => self.call.length = size,
            Count::First => {
                self.i = size;
                self.j = 0;
            }
            Count::Second => self.j = size,
            Count::Byte => return self.byte(size),
            Count::Bit => return self.bit(size),
        }
        Ok(())
    }

    // A number that is a time or bounds one. A bound from below is one from above on the opposite difference.
    fn time(&mut self, time: Time, size: u64) -> Result<(), NotRead> {
        let from_below = matches!(time, Time::Bound(Relation::More | Relation::AtLeast));
        let value = signed(size, self.minus != from_below)?;
        let entry = (!self.absent).then_some(value);
        self.minus = false;
        self.absent = false;
        match time {
            Time::Entry => self.entry(entry),
            Time::EveryEntry => {
                self.call.case.times = [entry; BOUNDS];
                Ok(())
            }
            Time::EveryBound => {
                let limit = entry.map(|value| Limit {
                    strict: false,
                    value,
                });
                self.call.case.start = [limit; BOUNDS];
                self.call.case.target = [limit; BOUNDS];
                Ok(())
            }
            Time::Start => self.start(value),
            Time::Bound(relation) => self.bound(relation, entry),
        }
    }

    // The next entry of the table.
    fn entry(&mut self, time: Option<Seconds>) -> Result<(), NotRead> {
        if self.entries >= BOUNDS {
            return Err(NotRead);
        }
        self.call.case.times[self.entries] = time;
        self.entries += 1;
        Ok(())
    }

    fn bound(&mut self, relation: Relation, value: Option<Seconds>) -> Result<(), NotRead> {
        let strict = matches!(relation, Relation::Less | Relation::More);
        let limit = value.map(|value| Limit { strict, value });
        let n = self.call.case.n;
        let place = match relation {
            Relation::Less | Relation::AtMost => pair(n, self.i, self.j),
            Relation::More | Relation::AtLeast => pair(n, self.j, self.i),
        };
        let place = place.filter(|place| *place < BOUNDS).ok_or(NotRead)?;
        if self.target {
            self.call.case.target[place] = limit;
        } else {
            self.call.case.start[place] = limit;
        }
        Ok(())
    }

    // The next time of a run's start.
    fn start(&mut self, time: Seconds) -> Result<(), NotRead> {
        if self.starts >= DEPARTURES {
            return Err(NotRead);
        }
        self.call.from[self.starts] = time;
        self.starts += 1;
        Ok(())
    }

    fn byte(&mut self, byte: usize) -> Result<(), NotRead> {
        let at = self.call.length;
        if at >= SIZE || byte > 255 {
            return Err(NotRead);
        }
        self.call.bytes[at] = byte as u8;
        self.call.length = at + 1;
        Ok(())
    }

    fn bit(&mut self, at: usize) -> Result<(), NotRead> {
        let place = at / 8;
        if place >= SIZE {
            return Err(NotRead);
        }
        self.call.bytes[place] |= 128 >> (at % 8);
        Ok(())
    }

    // The call, if nothing is missing: a table has all its entries, a sign or a mark its number.
    fn finish(self) -> Result<Call, NotRead> {
        let n = self.call.case.n;
        let all = if n > BOUNDS { BOUNDS } else { n * n };
        let is_short = self.entries > 0 && self.entries < all;
        if is_short || self.minus || self.absent || self.call.is_too_long() {
            return Err(NotRead);
        }
        Ok(self.call)
    }
}
