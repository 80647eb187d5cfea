// Standard output, however slowly it is taken.
ghost use Rattle.std.specs.Prelude.{◌≤◌, length, IfOk};

use crate::waiting::call_again;
use std::io::{self, Write};
use std::rt::Stdout;

// One write: how many bytes were taken.
fn write_piece(mut stdout: Stdout, part: &[u8]) -> io::Result<usize>
    ensures { IfOk result (λ size. size ≤ length part.now) }
{
    match stdout.write(part) {
        Err(e) if call_again(&e) => Ok(0),
        written => written,
    }
}

// Writes all of a text, or stops at a write that fails. The count of turns is for the proof that the loop ends.
pub(crate) fn print(stdout: Stdout, text: &[u8]) -> io::Result<()> {
    let mut size = 0;
    for _ in 0..u64::MAX {
        if size >= text.len() {
            break;
        }
        size += write_piece(stdout, &text[size..])?;
    }
    Ok(())
}
