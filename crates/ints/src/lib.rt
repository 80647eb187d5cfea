// Whole seconds, cycle numbers, and the sign of a two's complement field.
#![tactic(auto)]

ghost use Rattle.std.specs.Prelude.{◌≡◌, cond, ◌*◌, ◌≤◌, ◌<◌, ◌^◌, ltb, pos, neg_ℤ, ◌+ℤ◌, ◌-ℤ◌, nat_abs};
ghost use Rattle.std.specs.Int.Signed.{le_z, lt_z};
ghost use Rattle.std.specs.Int.{w64};
ghost use Rattle.std.proofs.Common.{SFits};

use std::ops::{Add, Neg, Sub};

// A time stamp.
#[derive(Clone, Copy, Debug, PartialEq, Eq, PartialOrd, Ord)]
pub struct Seconds(pub i64);

pub const ZERO: Seconds = Seconds(0);

// An event counter.
#[derive(Clone, Copy, Debug, PartialEq, Eq, PartialOrd, Ord)]
pub struct Cycle(pub usize);

impl From<i32> for Seconds {
    ghost from_gives = { λ value x. x.0 ≡ value };

    fn from(value: i32) -> Seconds {
        Seconds(value as i64)
    }
}

// Sum, difference and negation are exact, up to both ends of the range.
impl Add for Seconds {
    type Output = Seconds;

    ghost can_add = { λ a b. SFits w64 (a.0 +ℤ b.0) };

    ghost add_gives = { λ a b sum. sum.0 ≡ a.0 +ℤ b.0 };

    fn add(self, other: Seconds) -> Seconds {
        Seconds(self.0 + other.0)
    }
}

impl Sub for Seconds {
    type Output = Seconds;

    ghost can_sub = { λ a b. SFits w64 (a.0 -ℤ b.0) };

    ghost sub_gives = { λ a b difference. difference.0 ≡ a.0 -ℤ b.0 };

    fn sub(self, other: Seconds) -> Seconds {
        Seconds(self.0 - other.0)
    }
}

impl Neg for Seconds {
    type Output = Seconds;

    ghost can_neg = { λ a. SFits w64 (neg_ℤ a.0) };

    ghost neg_gives = { λ a negation. negation.0 ≡ neg_ℤ a.0 };

    fn neg(self) -> Seconds {
        Seconds(-self.0)
    }
}

impl Seconds {
    pub fn is_negative(self) -> bool
        ensures { result ≡ lt_z self.0 (pos 0) }
    {
        self < ZERO
    }

    // More than limit in size; by the order of times, so that the edits at_most and beyond_above can each turn one of its tests.
    pub fn beyond(self, limit: u64) -> bool
        requires { limit < 2 ^ 63 }
        ensures { result ≡ ltb limit (nat_abs self.0) }
    {
        let limit = Seconds(limit as i64);
        !(-limit <= self && self <= limit)
    }
}

// The number that raw spells in two's complement, half being the weight of its sign bit.
pub fn sign_extended(raw: u32, half: u32) -> i32
    requires { (half ≤ 2 ^ 30) × (raw < half * 2) }
    ensures { result ≡ cond (ltb raw half) (pos raw) (pos raw -ℤ pos (half * 2)) }
{
    if raw < half {
        raw as i32
    } else {
        // half * 2 itself need not fit an i32.
        -((half * 2 - raw) as i32)
    }
}
