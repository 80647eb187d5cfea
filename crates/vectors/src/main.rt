// Calls the library on the lines of standard input, and writes each line with the answer.
//
// A line that starts with # is a heading. Any other line is a call, or a name, a colon and a call. A call is words and numbers, with blanks and
// commas between them where two would run together; from the left to the right each changes the call that is made at the end:
//   A = 2 5 / blank 3      the table: n is the number of rows. What is beyond n times n entries is stored as well
//   n 7                    n, where it is not that of a table
//   every time 5           every entry of the table; every bound 5: every bound of both patterns
//   x1 - x2 <= 5 and x1 > 0    bounds of the start pattern, by <=, <, >=, >. Behind "to", of the target
//   absent                 the next number stands in an entry that is marked absent; blank is absent 0
//   N 3, Z 128, workspace 1024     the horizon, the capacity (else 128), the length of the workspace (else 1024)
// The call is one for the verdict on the case, unpacked and in both packed forms. Other words ask for something else:
//   unpacked               the verdict on the unpacked case alone
//   packed, wide           the verdict on the bytes of the case so far, in document 01's form or in the wide one
//   bytes 32 64            the verdict on these bytes, added to those that are there; byte 255 added: the same for one
//   bit 27 set, cut to 4 bytes     changes those bytes
//   run from 0 -1, cycle 2     a run; run in parts from: a run in parts of a second
//   output 13, wide output 13  the case written to as many bytes
// What cannot be read, or lends more than there is, is answered by NOT READ, and nothing is called.
#![tactic(auto)]

ghost use Rattle.std.specs.Prelude.{◌≤◌, length, IfOk};

use std::io::{self, ErrorKind, Print, Read};
use std::rt::{Stdin, Stdout};

mod answers;
mod call;
mod reader;
mod text;
mod words;

// More than the bytes of the input.
const INPUT: usize = 200000;

fn main(rt: HostRuntime) -> io::Result<()> {
    let out = rt.stdout();
    let mut input = [0u8; INPUT];
    let size = read_all(rt.stdin(), &mut input)?;
    if size == INPUT {
        return out.write_all(b"NOT READ: the input is too long\n");
    }
    lines(out, &input[..size])
}

// Reads until the input ends or there is no room. A read that is interrupted is made again.
fn read_all(mut stdin: Stdin, input: &mut [u8]) -> io::Result<usize>
    ensures { IfOk result (λ size. size ≤ length input.new) }
{
    let mut size = 0;
    for _ in 0..u64::MAX {
        if size >= input.len() {
            break;
        }
        match stdin.read(&mut input[size..]) {
            Ok(0) => break,
            Ok(more) => size += more,
            Err(e) if e.kind() == ErrorKind::Interrupted => {}
            Err(e) => return Err(e),
        }
    }
    Ok(size)
}

fn lines(out: Stdout, input: &[u8]) -> io::Result<()> {
    for piece in input.split_inclusive(|byte| *byte == b'\n') {
        line(out, piece.strip_suffix(b"\n").unwrap_or(piece))?;
        out.write_all(b"\n")?;
    }
    Ok(())
}

// A heading as it is; of a call its name, which is all of it where it has none, and the answer.
fn line(out: Stdout, text: &[u8]) -> io::Result<()> {
    if text.is_empty() {
        return Ok(());
    }
    if let Some(heading) = text.strip_prefix(b"#") {
        return out.write_all(heading);
    }
    let (name, call) = match text.iter().position(|byte| *byte == b':') {
        Some(end) => (&text[..end], &text[end + 1..]),
        None => (text, text),
    };
    out.write_all(name)?;
    out.write_all(b": ")?;
    answers::answer(out, call)
}
