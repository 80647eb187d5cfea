// What a planner sees: the text of the answer to a packed case.
#![tactic(auto)]

ghost use Rattle.model.specs.Sizes.{most_departures, most_bytes};
ghost use Rattle.std.specs.Prelude.{◌≡◌, suc, List, [], ◌++◌, ℕ, ◌+◌, ◌*◌, ◌≤◌, ◌<◌, length, take};
ghost use Rattle.model.specs.Answers.{answer};
ghost use Rattle.report.specs.Text.{fields, line, lines, reached_word, numbered, of_parts, first_line, answer_text};
ghost use Rattle.report.specs.Text.{program_zones, program_space, text as report_text};
ghost use Rattle.report.specs.Lengths.{field_size, line_size, word_size, numbered_size, heading_size, text_size, FewLines};

use ints::{Cycle, Seconds};
use model::{Answer, BYTES, Case, FEW, NUMBERS, StartTimes, Verdict};
use puts::Text;

// The most bytes of an input that are read: one more than the longest case has, so that a byte behind it is seen.
pub const INPUT: usize = BYTES + 1;

// Room for the longest text of an answer.
pub const SIZE: usize = 24576;

// The program's Z for more than a few departures, and for few; the numbers of a workspace for either.
const CAPACITY: usize = 32;

const CAPACITY_FEW: usize = 128;

const WORKSPACE: usize = 2 * CAPACITY * NUMBERS;

fn push_fields(text: &mut Text<SIZE>, times: &[Seconds])
    requires { length text.old + field_size * length times.now ≤ text_size }
    ensures text { text.new ≡ text.old ++ fields times.now }
    ensures short { length (fields times.now) ≤ field_size * length times.now }
{
    for time in times {
        text.push(b' ');
        text.push_seconds(*time);
    }
}

#[tactic(auto, using(puts::proofs::Digits::number_short), unfolding(crate::specs::Text::line))]
fn push_line(text: &mut Text<SIZE>, cycle: usize, times: &[Seconds])
    requires few { length times.now ≤ most_departures }
    requires room { length text.old + line_size ≤ text_size }
    ensures text { text.new ≡ text.old ++ line cycle times.now }
    ensures short { length (line cycle times.now) ≤ line_size }
{
    text.push_number(cycle as u64);
    push_fields(text, times);
    text.push(b'\n');
}

// The lines of a verdict that is reached: those of cycle 0 to that cycle.
fn push_lines(text: &mut Text<SIZE>, case: &Case, cycle: Cycle, start: StartTimes)
    requires few { FewLines case.now cycle.0 start }
    requires room { length text.old ≤ suc heading_size }
    ensures text { text.new ≡ text.old ++ lines start.parts case.now start.times (suc cycle.0) }
    ensures within { length text.new ≤ text_size }
{
    let n = case.n;
    let count = cycle.0 + 1;
    for j in 0..count {
        if let Ok(times) = runs::run_parts(*case, start.times, Cycle(j)) {
            push_line(text, j, &times[..n]);
        }
    }
}

// A word and the number behind it.
#[tactic(auto, using(puts::proofs::Digits::number_short))]
fn push_numbered(text: &mut Text<SIZE>, word: &[u8], x: u64)
    requires few { length word.now ≤ word_size }
    requires room { length text.old + numbered_size ≤ text_size }
    ensures text { text.new ≡ text.old ++ numbered word.now x }
    ensures short { length (numbered word.now x) ≤ numbered_size }
{
    text.push_all(word);
    text.push_number(x);
}

// The heading of a cycle that is reached, with the parts of a second where the times are in more than one.
#[tactic(auto, unfolding(crate::specs::Text::of_parts))]
fn push_reached(text: &mut Text<SIZE>, cycle: Cycle, parts: usize)
    requires room { length text.old + heading_size ≤ text_size }
    ensures text { text.new ≡ text.old ++ numbered reached_word cycle.0 ++ of_parts parts }
    ensures short { length (numbered reached_word cycle.0 ++ of_parts parts) ≤ heading_size }
{
    push_numbered(text, b"reached ", cycle.0 as u64);
    if parts > 1 {
        push_numbered(text, b" of ", parts as u64);
    }
}

// The first line: what the answer is.
#[tactic(auto, unfolding(crate::specs::Text::heading))]
fn push_heading(text: &mut Text<SIZE>, answer: Answer)
    requires { length text.old + suc heading_size ≤ text_size }
    ensures text { text.new ≡ text.old ++ first_line answer }
    ensures short { length (first_line answer) ≤ suc heading_size }
{
    match answer {
        Ok(Verdict::Reached(cycle, start)) => push_reached(text, cycle, start.parts),
        Ok(Verdict::Clear(horizon)) => push_numbered(text, b"clear ", horizon.0 as u64),
        Ok(Verdict::Never) => text.push_all(b"never"),
        Err(fault) => {
            push_numbered(text, b"refused ", fault.number() as u64);
            push_numbered(text, b" ", fault.returned() as u64);
        }
    }
    text.push(b'\n');
}

// The program's Z for n departures.
fn capacity_for(n: usize) -> usize
    ensures { result ≡ program_zones n }
{
    if n <= FEW { CAPACITY_FEW } else { CAPACITY }
}

// The text of the answer to a case, put into an empty one: a text is long, so it is lent where it is filled, and not handed on.
#[tactic(auto, unfolding(crate::specs::Text::answer_text, crate::specs::Text::lines_after))]
fn push_case(text: &mut Text<SIZE>, case: &Case)
    requires { text.old ≡ [] }
    ensures text { text.new ≡ answer_text case.now (answer case.now (program_zones case.now.n) program_space) }
    ensures within { length text.new ≤ text_size }
{
    let mut work = [0i32; WORKSPACE];
    let answer = verdict::verdict(*case, capacity_for(case.n), &mut work);
    push_heading(text, answer);
    match answer {
        Ok(Verdict::Reached(cycle, start)) => push_lines(text, case, cycle, start),
        Ok(Verdict::Clear(_)) => {}
        Ok(Verdict::Never) => {}
        Err(_) => {}
    }
}

// The text of the answer to a packed case, put into an empty one.
#[tactic(auto, unfolding(crate::specs::Text::text))]
fn push_report(text: &mut Text<SIZE>, bytes: &[u8])
    requires { text.old ≡ [] }
    ensures text { text.new ≡ report_text bytes.now }
    ensures within { length text.new ≤ text_size }
{
    match packed::read(bytes) {
        Ok(case) => push_case(text, &case),
        Err(fault) => push_heading(text, Err(fault)),
    }
}

// The text of the answer to a packed case.
pub fn report(bytes: &[u8]) -> Text<SIZE>
    ensures text { result ≡ report_text bytes.now }
    ensures within { length result ≤ text_size }
{
    let mut text = Text::new();
    push_report(&mut text, bytes);
    text
}

// The text of the answer to an input of any length, of which the first bytes were read: all of them, or as many as there is room for.
#[tactic(auto, using(crate::proofs::LongInput::long_input))]
pub fn report_input(bytes: &[u8], size: usize) -> Text<SIZE>
    requires { (size ≤ length bytes.now) × (most_bytes < length bytes.now) }
    ensures text { (s : List ℕ) → take (length bytes.now) s ≡ take size bytes.now → result ≡ report_text s }
    ensures within { length result ≤ text_size }
{
    let mut text = Text::new();
    push_report(&mut text, &bytes[..size]);
    text
}
