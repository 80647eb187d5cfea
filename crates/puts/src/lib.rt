// A text of bytes, put together in a buffer of any size: bytes, words and numbers.
#![tactic(auto)]

ghost use Rattle.std.specs.Prelude.{◌≡◌, [], ◌∷◌, ◌++◌, ◌+◌, ◌≤◌, ◌<◌, length};
ghost use Rattle.puts.specs.Decimal.{number, signed_number, most_digits, most_signed, SignedRoom};

use ints::Seconds;
use std::marker::Model;

// The most digits of a number.
const DIGITS: usize = 20;

// The bytes so far.
#[derive(Drop)]
pub struct Text<const SIZE: usize> {
    bytes: [u8; SIZE],
    size: usize,
}

impl<const SIZE: usize> Model for Text<SIZE> {
    ghost use Rattle.std.specs.Prelude.{ℕ, List, take, ◌≤◌};

    ghost Value = { List ℕ };

    ghost view = { λ t. take t.size t.bytes };

    ghost invariant = { λ t. t.size ≤ SIZE };
}

// The decimal digits of a number. The library's write! promises what it wrote only where it answers Ok, and does not promise that it does.
#[tactic(auto, using(crate::proofs::Digits::one_digit, crate::proofs::Digits::more_digits))]
fn in_decimal(x: u64) -> Text<DIGITS>
    ensures { result ≡ number x }
{
    let digit = b'0' + (x % 10) as u8;
    if x < 10 {
        let mut text = Text::new();
        text.push(digit);
        return text;
    }
    let mut text = in_decimal(x / 10);
    text.push(digit);
    text
}

impl<const SIZE: usize> Text<SIZE> {
    pub fn new() -> Self
        ensures { result ≡ [] }
    {
        Text {
            bytes: [0; SIZE],
            size: 0,
        }
    }

    pub fn as_bytes(&self) -> &[u8]
        ensures bytes { result.now ≡ self.now }
        ensures within { length result.now ≤ SIZE }
    {
        &self.bytes[..self.size]
    }

    pub fn push(&mut self, byte: u8)
        requires { length self.old < SIZE }
        ensures { self.new ≡ self.old ++ byte ∷ [] }
    {
        self.bytes[self.size] = byte;
        self.size += 1;
    }

    pub fn push_all(&mut self, word: &[u8])
        requires { length self.old + length word.now ≤ SIZE }
        ensures { self.new ≡ self.old ++ word.now }
    {
        let end = self.size + word.len();
        let bytes = &mut self.bytes[..];
        bytes[self.size..end].copy_from_slice(word);
        self.size = end;
    }

    // The decimal digits of a number.
    #[tactic(auto, using(crate::proofs::Digits::number_short))]
    pub fn push_number(&mut self, x: u64)
        requires { length self.old + length (number x) ≤ SIZE }
        ensures text { self.new ≡ self.old ++ number x }
        ensures short { length (number x) ≤ most_digits }
    {
        self.push_all(in_decimal(x).as_bytes());
    }

    // A minus sign where the time is below 0, and its digits.
    #[tactic(auto, using(crate::proofs::Digits::below_zero, crate::proofs::Digits::signed_short))]
    pub fn push_seconds(&mut self, x: Seconds)
        requires { SignedRoom x.0 (length self.old) SIZE }
        ensures text { self.new ≡ self.old ++ signed_number x.0 }
        ensures short { length (signed_number x.0) ≤ most_signed }
    {
        if x.is_negative() {
            self.push(b'-');
        }
        self.push_number(x.0.unsigned_abs());
    }
}
