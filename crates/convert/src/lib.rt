// Converts packed cases: what is read in one form is written in the other, where that loses nothing.
#![tactic(auto)]

ghost use Rattle.std.specs.Prelude.{◌≡◌, ◌≤◌, length};
ghost use Rattle.model.specs.Sizes.{most_bounds, most_bits};
ghost use Rattle.model.specs.Forms.{old, wide};
ghost use Rattle.model.specs.Conditions.{Departures};
ghost use Rattle.model.specs.Answers.{judged};
ghost use Rattle.model.specs.Converting.{loss_fault, ConvertGiven};
ghost use Rattle.convert.specs.Looking.{LookedAt};

use model::{Case, Fault, HORIZON_WIDTH, Limit, OLD, WIDE};

// The most departures that the old form has a place for.
const OLD_DEPARTURES: usize = (1 << OLD.digits) - 1;

// Bounds of the wide form, of which the first starts at this bit: the bit behind them, or the first that is strict.
#[tactic(auto, using(crate::proofs::Laws::lookings))]
fn marks(bounds: &[Option<Limit>], start: usize) -> Result<usize, Fault>
    requires { (length bounds.now ≤ most_bounds) × (start ≤ most_bits) }
    ensures { LookedAt bounds.now start result }
{
    let mut at = start;
    for bound in bounds {
        if let Some(Limit { strict: true, .. }) = bound {
            return Err(Fault::Form(at));
        }
        at += packer::entry_length(*bound, WIDE);
    }
    Ok(at)
}

// What the old form has no place for of a case that was read in the wide form: n, else the first mark of start and target.
#[tactic(auto, using(crate::proofs::Laws::losses))]
fn loss(case: &Case) -> Result<(), Fault>
    requires { Departures case.now.n }
    ensures { result ≡ judged (loss_fault wide old case.now) }
{
    let n = case.n;
    if OLD_DEPARTURES < n {
        return Err(Fault::Form(WIDE.lead));
    }
    let size = n * (n + 1);
    let times = packer::entries_length(&case.times[..n * n], WIDE);
    let next = marks(
        &case.start[..size],
        WIDE.lead + WIDE.digits + HORIZON_WIDTH + times,
    )?;
    marks(&case.target[..size], next)?;
    Ok(())
}

// A case in the old form to the wide form: the bytes in front of the output, and how many they are. What stands behind them stays as it was; on a fault
// everything does. One function for any two forms would have to ask that neither is longer than the wide one; C and the documents name the two.
#[tactic(auto, using(crate::proofs::Given::givens))]
pub fn to_wide(bytes: &[u8], out: &mut [u8]) -> Result<usize, Fault>
    ensures { ConvertGiven old wide bytes.now out.old result out.new }
{
    let case = packed::read_old(bytes)?;
    packer::write_wide(case, out)
}

// A case in the wide form to the old form, the same way, where nothing is lost.
#[tactic(auto, using(crate::proofs::Given::givens))]
pub fn to_old(bytes: &[u8], out: &mut [u8]) -> Result<usize, Fault>
    ensures { ConvertGiven wide old bytes.now out.old result out.new }
{
    let case = packed::read_wide(bytes)?;
    loss(&case)?;
    packer::write(case, out)
}
