// Words and numbers of a line.
use crate::call::{NotRead, What};
use std::str;

// What a byte is part of.
#[derive(Clone, Copy, PartialEq, Eq)]
pub(crate) enum Kind {
    Blank,
    Number,
    Word,
}

impl Kind {
    pub(crate) fn of(byte: u8) -> Kind {
        match byte {
            b' ' | b',' => Kind::Blank,
            b'0'..=b'9' => Kind::Number,
            _ => Kind::Word,
        }
    }
}

// How a bound is written.
#[derive(Clone, Copy)]
pub(crate) enum Relation {
    Less,
    AtMost,
    More,
    AtLeast,
}

// What a number is that is a time.
#[derive(Clone, Copy)]
pub(crate) enum Time {
    Entry,
    EveryEntry,
    EveryBound,
    Start,
    Bound(Relation),
}

// What a number is that counts.
#[derive(Clone, Copy)]
pub(crate) enum Count {
    Departures,
    Horizon,
    Zones,
    Room,
    Size,
    Length,
    First,
    Second,
    Byte,
    Bit,
}

// What a word says.
#[derive(Clone, Copy)]
pub(crate) enum Word {
    // no meaning of its own
    Filler,
    Table,
    Row,
    Blank,
    Absent,
    Target,
    Departure,
    Minus,
    Time(Time),
    Count(Count),
    Made(What),
    Packed,
    Wide,
    Bytes,
    Output,
}

impl Word {
    pub(crate) fn of(text: &[u8]) -> Result<Word, NotRead> {
        Ok(match text {
            b"=" | b"any" | b"and" | b"every" | b"set" | b"added" | b"in" | b"no" => Word::Filler,
            b"A" => Word::Table,
            b"/" => Word::Row,
            b"blank" => Word::Blank,
            b"absent" => Word::Absent,
            b"to" => Word::Target,
            b"x" => Word::Departure,
            b"-" => Word::Minus,
            b"<" => Word::Time(Time::Bound(Relation::Less)),
            b"<=" => Word::Time(Time::Bound(Relation::AtMost)),
            b">" => Word::Time(Time::Bound(Relation::More)),
            b">=" => Word::Time(Time::Bound(Relation::AtLeast)),
            b"time" => Word::Time(Time::EveryEntry),
            b"bound" => Word::Time(Time::EveryBound),
            b"from" => Word::Time(Time::Start),
            b"n" => Word::Count(Count::Departures),
            b"N" => Word::Count(Count::Horizon),
            b"Z" => Word::Count(Count::Zones),
            b"workspace" => Word::Count(Count::Room),
            b"cycle" => Word::Count(Count::Size),
            b"cut" => Word::Count(Count::Length),
            b"bit" => Word::Count(Count::Bit),
            b"unpacked" => Word::Made(What::Unpacked),
            b"run" => Word::Made(What::Run),
            b"parts" => Word::Made(What::RunInParts),
            b"packed" => Word::Packed,
            b"wide" => Word::Wide,
            b"bytes" | b"byte" => Word::Bytes,
            b"output" => Word::Output,
            _ => return Err(NotRead),
        })
    }
}

// The number that decimal digits are.
pub(crate) fn decimal(digits: &[u8]) -> Result<u64, NotRead> {
    let text = str::from_utf8(digits).map_err(|_| NotRead)?;
    text.parse().map_err(|_| NotRead)
}
