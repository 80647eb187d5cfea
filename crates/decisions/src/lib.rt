// The public types of the exact answer, which needs no list of zones. What they mean is defined in specs/.
#![tactic(auto)]

use ints::Cycle;
use model::{Fault, Numbers, Verdict};

// The most cycles of an exact answer's horizon.
pub const FARTHEST: usize = 4096;

// Undecided has the cycle at which the steps ran out: no cycle before it is met.
#[derive(Clone, Copy, Debug, PartialEq, Eq)]
pub enum Finding {
    Settled(Verdict),
    Undecided(Cycle),
}

// The finding on a case, or why there is none.
pub type Decided = Result<Finding, Fault>;

// Undecided is kind 5; 4 is the archive's "done".
impl From<Finding> for Numbers {
    ghost use Rattle.std.specs.Prelude.{◌≡◌};
    ghost use Rattle.decisions.specs.Decide.{finding_numbers};

    ghost from_gives = { λ finding numbers. numbers ≡ finding_numbers finding };

    fn from(finding: Finding) -> Numbers {
        match finding {
            Finding::Settled(verdict) => Numbers::from(verdict),
            Finding::Undecided(cycle) => Numbers {
                kind: 5,
                fault: 0,
                value: cycle.0,
            },
        }
    }
}
