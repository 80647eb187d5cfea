// Standard input, however it comes: in pieces, longer than any case, closed, or not ready yet.
ghost use Rattle.std.specs.Prelude.{◌≤◌, length, IfOk, IfSome};

use crate::waiting::call_again;
use std::io::{self, Read};
use std::rt::Stdin;

// The error of a descriptor that is closed.
const CLOSED: i32 = 9;

// One read: how many bytes came, or None where the input has ended, as a closed one has.
fn read_piece(mut stdin: Stdin, part: &mut [u8]) -> io::Result<Option<usize>>
    ensures { IfOk result (λ piece. IfSome piece (λ size. size ≤ length part.new)) }
{
    match stdin.read(part) {
        Ok(0) => Ok(None),
        Ok(size) => Ok(Some(size)),
        Err(e) if call_again(&e) => Ok(Some(0)),
        Err(e) if e.raw_os_error() == Some(CLOSED) => Ok(None),
        Err(e) => Err(e),
    }
}

// Reads until the input ends, a read fails or there is no room. The count of turns is for the proof that the loop ends.
pub(crate) fn read_case(stdin: Stdin, bytes: &mut [u8]) -> io::Result<usize>
    ensures { IfOk result (λ size. size ≤ length bytes.new) }
{
    let mut size = 0;
    for _ in 0..u64::MAX {
        if size >= bytes.len() {
            break;
        }
        match read_piece(stdin, &mut bytes[size..])? {
            Some(more) => size += more,
            None => break,
        }
    }
    Ok(size)
}
