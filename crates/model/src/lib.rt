// The public types of the checker. What they mean is defined in specs/.
#![tactic(auto)]

ghost use Rattle.std.specs.Prelude.{◌≡◌};
ghost use Rattle.std.specs.Int.{w64};
ghost use Rattle.std.proofs.Common.{SFits};
ghost use Rattle.model.specs.Network.{later, after, secs_of};
ghost use Rattle.model.specs.Faults.{number, returned, time_of};

use ints::{Cycle, Seconds};

// The most departures of a network, cycles of a horizon and zones of a capacity.
pub const DEPARTURES: usize = 15;

// Networks of so few departures get more zones from the program and smaller tables beside the workspace.
pub const FEW: usize = 7;

pub const CYCLES: usize = 64;

pub const ZONES: usize = 4096;

// The most that a time of the table, a bound of a pattern and a run's start time are in size.
pub const TIME_LIMIT: u64 = 86400;

pub const BOUND_LIMIT: u64 = 1000000;

pub const START_LIMIT: u64 = 1000000000000;

// The bits of a packed case's fields: N - 1, the value of a time and of a bound.
pub const HORIZON_WIDTH: usize = 6;

pub const TIME_WIDTH: usize = 18;

pub const BOUND_WIDTH: usize = 21;

// The most rows of a zone: one for each departure, and one for the clock.
pub const ROWS: usize = DEPARTURES + 1;

// The most entries of a table, of a pattern and of a zone.
pub const TIMES: usize = DEPARTURES * DEPARTURES;

pub const BOUNDS: usize = DEPARTURES * ROWS;

pub const NUMBERS: usize = ROWS * ROWS;

// A form of a packed case: how many zero bits stand in front, and the bits of n and of a bound's mark.
#[derive(Clone, Copy)]
pub struct Form {
    pub lead: usize,
    pub digits: usize,
    pub mark: usize,
}

// Document 01's form and the wide one.
pub const OLD: Form = Form {
    lead: 0,
    digits: 3,
    mark: 0,
};

pub const WIDE: Form = Form {
    lead: 3,
    digits: 4,
    mark: 1,
};

// The bits and the bytes of the longest packed case.
pub const BITS: usize = WIDE.lead
    + WIDE.digits
    + HORIZON_WIDTH
    + TIMES * (1 + TIME_WIDTH)
    + 2 * BOUNDS * (1 + WIDE.mark + BOUND_WIDTH);

pub const BYTES: usize = (BITS + 7) / 8;

// The later of a time of the table and of the sum of two: max-plus addition and multiplication in one step. None is a blank.
#[tactic(auto, unfolding(crate::specs::Network::later, crate::specs::Network::after, crate::specs::Network::secs_of, crate::specs::Faults::time_of))]
pub fn later_sum(
    latest: Option<Seconds>,
    first: Option<Seconds>,
    second: Option<Seconds>,
) -> Option<Seconds>
    requires { SFits w64 (secs_of (after (time_of first) (time_of second))) }
    ensures { time_of result ≡ later (time_of latest) (after (time_of first) (time_of second)) }
{
    let (Some(a), Some(b)) = (first, second) else {
        return latest;
    };
    let sum = a + b;
    match latest {
        Some(time) if sum < time => latest,
        _ => Some(sum),
    }
}

// A bound of a pattern: at most its value, or less where it is strict. Where a pattern has none, None stands.
#[derive(Clone, Copy, Debug, PartialEq, Eq)]
pub struct Limit {
    pub strict: bool,
    pub value: Seconds,
}

// An entry of a case: a time of the table, or a bound of a pattern.
pub trait Entry: Copy {
    ghost use Rattle.std.specs.Prelude.{◌≤◌, Option, None, is_some};
    ghost use Rattle.model.specs.declared.Form.{Form};
    ghost use Rattle.model.specs.Sizes.{most_width};
    ghost use Rattle.model.specs.Conditions.{FormLimits};
    ghost use Rattle.model.specs.Packed.{Kind};

    // How a packed case in a form holds it.
    ghost kind: { Form → Kind (Option Self) };

    // The bits of its number, which stand behind its presence bit.
    fn width(form: Form) -> usize
        requires { FormLimits form }
        ensures is { result ≡ (kind form).width }
        ensures narrow { result ≤ most_width };

    ghost absent_is: { (form : Form) → (kind form).absent ≡ None };

    ghost has_is: { (form : Form) (entry : Option Self) → (kind form).has entry ≡ is_some entry };
}

impl Entry for Seconds {
    ghost use Rattle.std.specs.Prelude.{refl};
    ghost use Rattle.model.specs.Packed.{time_kind};

    ghost kind = { λ form. time_kind };

    ghost absent_is = { λ form. refl };

    ghost has_is = { λ form entry. refl };

    fn width(_form: Form) -> usize {
        TIME_WIDTH
    }
}

impl Entry for Limit {
    ghost use Rattle.std.specs.Prelude.{refl};
    ghost use Rattle.model.specs.Packed.{bound_kind};

    ghost kind = { bound_kind };

    ghost absent_is = { λ form. refl };

    ghost has_is = { λ form entry. refl };

    fn width(form: Form) -> usize {
        form.mark + BOUND_WIDTH
    }
}

// An unpacked case. Entries are in packed order for n, from 0 on; those beyond are ignored. Each part has room for as many as a pattern has.
#[derive(Clone, Copy)]
pub struct Case {
    pub n: usize,
    pub horizon: Cycle,
    pub times: [Option<Seconds>; BOUNDS],
    pub start: [Option<Limit>; BOUNDS],
    pub target: [Option<Limit>; BOUNDS],
}

#[derive(Clone, Copy, Debug, PartialEq, Eq)]
pub enum Fault {
    CaseEnds(usize),
    Departures,
    Horizon,
    Time(usize),
    EmptyRow(usize),
    Bound(usize),
    FillBit(usize),
    ExtraByte(usize),
    Capacity,
    Workspace,
    TableFull(Cycle),
    StartTime(usize),
    Output(usize),
    Entry,
    Form(usize),
}

impl Fault {
    // Document 01's numbers, which the program prints and the static library hands back.
    pub fn number(self) -> u8
        ensures { result ≡ number self }
    {
        match self {
            Fault::CaseEnds(_) => 1,
            Fault::Departures => 2,
            Fault::Horizon => 3,
            Fault::Time(_) => 4,
            Fault::EmptyRow(_) => 5,
            Fault::Bound(_) => 6,
            Fault::FillBit(_) => 7,
            Fault::ExtraByte(_) => 8,
            Fault::Capacity => 9,
            Fault::Workspace => 10,
            Fault::TableFull(_) => 11,
            Fault::StartTime(_) => 13,
            Fault::Output(_) => 14,
            Fault::Entry => 15,
            Fault::Form(_) => 16,
        }
    }

    pub fn returned(self) -> usize
        ensures { result ≡ returned self }
    {
        match self {
            Fault::CaseEnds(place) => place,
            Fault::Departures => 0,
            Fault::Horizon => 0,
            Fault::Time(place) => place,
            Fault::EmptyRow(place) => place,
            Fault::Bound(place) => place,
            Fault::FillBit(place) => place,
            Fault::ExtraByte(place) => place,
            Fault::Capacity => 0,
            Fault::Workspace => 0,
            Fault::TableFull(k) => k.0,
            Fault::StartTime(departure) => departure,
            Fault::Output(needed) => needed,
            Fault::Entry => 0,
            Fault::Form(place) => place,
        }
    }
}

// A start that is handed back, in parts of which parts make a second: its times beyond n are 0.
#[derive(Clone, Copy, Debug, PartialEq, Eq)]
pub struct StartTimes {
    pub parts: usize,
    pub times: [Seconds; DEPARTURES],
}

#[derive(Clone, Copy, Debug, PartialEq, Eq)]
pub enum Verdict {
    Reached(Cycle, StartTimes),
    Clear(Cycle),
    Never,
}

// The verdict on a case, or why there is none.
pub type Answer = Result<Verdict, Fault>;

// An answer as numbers: its kind, 0 refused, 1 reached, 2 clear, 3 never; the fault's number, 0 where there is none; the number that goes with it.
#[derive(Clone, Copy, Debug, PartialEq, Eq)]
pub struct Numbers {
    pub kind: u32,
    pub fault: usize,
    pub value: usize,
}

impl From<Fault> for Numbers {
    ghost use Rattle.model.specs.Answers.{fault_numbers};

    ghost from_gives = { λ fault numbers. numbers ≡ fault_numbers fault };

    fn from(fault: Fault) -> Numbers {
        Numbers {
            kind: 0,
            fault: fault.number() as usize,
            value: fault.returned(),
        }
    }
}

impl From<Verdict> for Numbers {
    ghost use Rattle.model.specs.Answers.{verdict_numbers};

    ghost from_gives = { λ verdict numbers. numbers ≡ verdict_numbers verdict };

    fn from(verdict: Verdict) -> Numbers {
        let (kind, value) = match verdict {
            Verdict::Reached(cycle, _) => (1, cycle.0),
            Verdict::Clear(horizon) => (2, horizon.0),
            Verdict::Never => (3, 0),
        };
        Numbers {
            kind,
            fault: 0,
            value,
        }
    }
}
