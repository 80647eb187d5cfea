// A call of the library.
use ints::{Cycle, Seconds, ZERO};
use model::{BOUNDS, Case, DEPARTURES, Fault};

// The longest workspace lent: 2 * 4096 * 4 numbers and some more.
pub(crate) const ROOM: usize = 33000;

// More than the bytes of the longest packed case.
pub(crate) const SIZE: usize = 1920;

// A line that is no call.
#[derive(Clone, Copy)]
pub(crate) struct NotRead;

// What is called: the verdict on the case in all forms, on the case alone or on the bytes; a run; a writer.
#[derive(Clone, Copy, PartialEq, Eq)]
pub(crate) enum What {
    Every,
    Unpacked,
    Packed,
    Run,
    RunInParts,
    Output,
}

// A packed form: which of the writer's two functions is called, as model::Form says how the bytes lie.
#[derive(Clone, Copy)]
pub(crate) enum Form {
    Old,
    Wide,
}

impl Form {
    pub(crate) fn write(self, case: Case, bytes: &mut [u8]) -> Result<usize, Fault> {
        match self {
            Form::Old => packer::write(case, bytes),
            Form::Wide => packer::write_wide(case, bytes),
        }
    }
}

// What is called, and with what: the size is that of a run's cycle or of an output.
#[derive(Clone, Copy)]
pub(crate) struct Call {
    pub what: What,
    pub form: Form,
    pub case: Case,
    pub zones: usize,
    pub room: usize,
    pub size: usize,
    pub from: [Seconds; DEPARTURES],
    pub bytes: [u8; SIZE],
    pub length: usize,
}

impl Call {
    pub(crate) fn new() -> Call {
        Call {
            what: What::Every,
            form: Form::Old,
            case: Case {
                n: 0,
                horizon: Cycle(0),
                times: [None; BOUNDS],
                start: [None; BOUNDS],
                target: [None; BOUNDS],
            },
            zones: 128,
            room: 1024,
            size: 0,
            from: [ZERO; DEPARTURES],
            bytes: [0; SIZE],
            length: 0,
        }
    }

    // The call on the bytes of the case in a form, where the writer takes it.
    pub(crate) fn packed(&self, form: Form) -> Result<Call, Fault> {
        let mut bytes = [0; SIZE];
        let length = form.write(self.case, &mut bytes)?;
        Ok(Call {
            what: What::Packed,
            form,
            bytes,
            length,
            ..*self
        })
    }

    // Whether more is to be lent than there is.
    pub(crate) fn is_too_long(&self) -> bool {
        self.room > ROOM || self.length > SIZE || (self.what == What::Output && self.size > SIZE)
    }
}
