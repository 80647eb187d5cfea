// How times, faults and answers are written.
use ints::Seconds;
use model::{Answer, DEPARTURES, Fault, Verdict};
use std::fmt;

// All times, a blank before each.
#[derive(Clone, Copy)]
pub(crate) struct Times(pub [Seconds; DEPARTURES]);

impl fmt::Display for Times {
    fn fmt<W: fmt::Write>(&self, f: &mut fmt::Formatter<W>) -> fmt::Result {
        for time in &self.0 {
            write!(f, " {}", time.0)?;
        }
        Ok(())
    }
}

#[derive(Clone, Copy)]
pub(crate) struct Refused(pub Fault);

impl fmt::Display for Refused {
    fn fmt<W: fmt::Write>(&self, f: &mut fmt::Formatter<W>) -> fmt::Result {
        write!(f, "refused {} {}", self.0.number(), self.0.returned())
    }
}

// An answer without its start; the parts of a second that the start is in are told where there are more than one.
// report::push_heading puts the same words as bytes, with a promise: a Display writes str, and would have to read those bytes back as UTF-8.
#[derive(Clone, Copy)]
pub(crate) struct Heading(pub Answer);

impl fmt::Display for Heading {
    fn fmt<W: fmt::Write>(&self, f: &mut fmt::Formatter<W>) -> fmt::Result {
        match self.0 {
            Ok(Verdict::Reached(cycle, start)) if start.parts > 1 => write!(
                f,
                "reached {} of {}",
                cycle.0, start.parts
            ),
            Ok(Verdict::Reached(cycle, _)) => write!(f, "reached {}", cycle.0),
            Ok(Verdict::Clear(horizon)) => write!(f, "clear {}", horizon.0),
            Ok(Verdict::Never) => write!(f, "never"),
            Err(fault) => write!(f, "{}", Refused(fault)),
        }
    }
}
