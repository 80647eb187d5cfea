// One time of a table replaced or blanked: the verdict before it is committed, and the case afterwards.
#![tactic(auto)]

ghost use Rattle.std.specs.Prelude.{◌≡◌, ◌||◌};
ghost use Rattle.std.proofs.Math.Option.{none};
ghost use Rattle.model.specs.declared.Fault.TheVariants as fault;
ghost use Rattle.model.specs.Lists.{when};
ghost use Rattle.model.specs.Faults.{outside};
ghost use Rattle.model.specs.Answers.{judged};
ghost use Rattle.model.specs.Changes;
ghost use Rattle.model.specs.Changes.{changed, change_fault, PreviewGiven};

use ints::Seconds;
use model::{Answer, Case, Fault};

// Fault 15: a row or a column that the table does not have.
fn entry_fault(n: usize, row: usize, column: usize) -> Result<(), Fault>
    ensures { result ≡ judged (when (outside 1 n row || outside 1 n column) fault.Entry) }
{
    if judge::outside(1, n, row) || judge::outside(1, n, column) {
        return Err(Fault::Entry);
    }
    Ok(())
}

// The fault of a change before it is made: the case's own, then 15.
#[tactic(auto, unfolding(model::specs::Changes::change_fault))]
fn change_fault(case: &Case, row: usize, column: usize) -> Result<(), Fault>
    ensures { result ≡ judged (change_fault case.now row column) }
{
    judge::case_fault(case)?;
    entry_fault(case.n, row, column)
}

// The copy with one time changed.
#[tactic(auto, using(crate::proofs::Inside::inside), unfolding(model::specs::Changes::changed))]
fn change(case: &Case, row: usize, column: usize, time: Option<Seconds>) -> Case
    requires { change_fault case.now row column ≡ none }
    ensures { result ≡ changed case.now row column time }
{
    let mut times = case.times;
    times[(row - 1) * case.n + (column - 1)] = time;
    Case { times, ..*case }
}

// The verdict on the case with the time in this row and column, counted from 1, replaced or, where time is None, blanked.
#[tactic(auto, using(crate::proofs::Answered::said), unfolding(model::specs::Changes::preview, model::specs::Changes::workspace_after_preview))]
pub fn preview(
    case: Case,
    row: usize,
    column: usize,
    time: Option<Seconds>,
    capacity: usize,
    work: &mut [i32],
) -> Answer
    ensures { PreviewGiven case row column time capacity work.old result work.new }
{
    change_fault(&case, row, column)?;
    let copy = change(&case, row, column, time);
    verdict::verdict(copy, capacity, work)
}

// The case with that time changed, or its first fault.
#[tactic(auto, using(model::proofs::Outcomes::judgements), unfolding(model::specs::Changes::commit, model::specs::Changes::commit_fault))]
pub fn commit(case: Case, row: usize, column: usize, time: Option<Seconds>) -> Result<Case, Fault>
    ensures { result ≡ Changes.commit case row column time }
{
    change_fault(&case, row, column)?;
    let copy = change(&case, row, column, time);
    judge::case_fault(&copy)?;
    Ok(copy)
}
