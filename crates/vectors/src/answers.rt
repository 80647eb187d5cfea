// Makes a call, and writes the answer.
use crate::call::{Call, Form, ROOM, SIZE, What};
use crate::reader;
use crate::text::{Heading, Refused, Times};
use ints::{Cycle, Seconds, ZERO};
use model::{Answer, DEPARTURES, Fault, Verdict};
use std::fmt;
use std::io::{self, Print};
use std::rt::Stdout;

// What the workspace is filled with before a call.
const MARK: i32 = 7;

// The workspace after a call.
#[derive(Clone, Copy, PartialEq, Eq)]
enum Work {
    Empty,
    Zero,
    Unchanged,
    Changed,
}

impl Work {
    fn of(work: &[i32]) -> Work {
        if work.is_empty() {
            Work::Empty
        } else if work.iter().all(|number| *number == 0) {
            Work::Zero
        } else if work.iter().all(|number| *number == MARK) {
            Work::Unchanged
        } else {
            Work::Changed
        }
    }
}

impl fmt::Display for Work {
    fn fmt<W: fmt::Write>(&self, f: &mut fmt::Formatter<W>) -> fmt::Result {
        let state = match self {
            Work::Empty => "empty",
            Work::Zero => "zero",
            Work::Unchanged => "unchanged",
            Work::Changed => "changed",
        };
        write!(f, "workspace {state}")
    }
}

// What a line says of a verdict. Where none is reached, the start is all 0.
#[derive(Clone, Copy, PartialEq, Eq)]
struct Outcome {
    answer: Answer,
    work: Work,
}

impl fmt::Display for Outcome {
    fn fmt<W: fmt::Write>(&self, f: &mut fmt::Formatter<W>) -> fmt::Result {
        let times = match self.answer {
            Ok(Verdict::Reached(_, start)) => start.times,
            _ => [ZERO; DEPARTURES],
        };
        write!(
            f,
            "{}, start{}, {}",
            Heading(self.answer),
            Times(times),
            self.work
        )
    }
}

impl Outcome {
    // The verdict on the bytes, if they are what the call is on, or on the case.
    fn of(call: &Call) -> Outcome {
        let mut work = [MARK; ROOM];
        let work = &mut work[..call.room.min(ROOM)];
        let answer = if call.what == What::Packed {
            let bytes = &call.bytes[..call.length.min(SIZE)];
            verdict::verdict_packed(bytes, call.zones, work)
        } else {
            verdict::verdict(call.case, call.zones, work)
        };
        Outcome {
            answer,
            work: Work::of(work),
        }
    }
}

// What a packed form of the case gives, beside the unpacked one.
fn compared(out: Stdout, call: &Call, form: Form, unpacked: Outcome) -> io::Result<()> {
    let Ok(packed) = call.packed(form) else {
        return print!(out; "refused");
    };
    let packed = Outcome::of(&packed);
    if packed == unpacked {
        print!(out; "the same")
    } else {
        print!(out; "{packed}")
    }
}

fn every(out: Stdout, call: &Call) -> io::Result<()> {
    let unpacked = Outcome::of(call);
    print!(out; "{unpacked}; packed ")?;
    compared(out, call, Form::Old, unpacked)?;
    print!(out; "; wide ")?;
    compared(out, call, Form::Wide, unpacked)
}

// The times of a run: all 0 where it is refused.
fn run(out: Stdout, times: Result<[Seconds; DEPARTURES], Fault>) -> io::Result<()> {
    if let Err(fault) = times {
        print!(out; "{}, ", Refused(fault))?;
    }
    print!(out; "times{}", Times(times.unwrap_or([ZERO; DEPARTURES])))
}

fn output(out: Stdout, call: &Call) -> io::Result<()> {
    let mut bytes = [0; SIZE];
    match call
        .form
        .write(call.case, &mut bytes[..call.size.min(SIZE)])
    {
        Ok(length) => print!(out; "{length} bytes"),
        Err(fault) => print!(out; "{}", Refused(fault)),
    }
}

pub(crate) fn answer(out: Stdout, text: &[u8]) -> io::Result<()> {
    let Ok(call) = reader::read(text) else {
        return print!(out; "NOT READ");
    };
    match call.what {
        What::Every => every(out, &call),
        What::Unpacked | What::Packed => print!(out; "{}", Outcome::of(&call)),
        What::Run => run(out, runs::run(call.case, call.from, Cycle(call.size))),
        What::RunInParts => run(out, runs::run_parts(call.case, call.from, Cycle(call.size))),
        What::Output => output(out, &call),
    }
}
