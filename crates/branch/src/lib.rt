// A branch word's signed value, and exact sums on it, which a word of 64 bits and one of 32 tell.
#![tactic(auto)]

ghost use Rattle.std.specs.Prelude.{◌≡◌, pos, ◌+ℤ◌, neg_ℤ};
ghost use Rattle.branch.specs.Branch.{wide_in_range, sum_of, wide, branch_value};

// An exact sum's remainder modulo 2^96.
#[derive(Clone, Copy)]
pub struct Sum {
    pub high: u32,
    pub low: u64,
}

// The sum on a branch word `v` to which nothing is added yet: its signed value.
pub fn value_of(v: u32) -> Sum
    ensures { sum_of result ≡ wide (branch_value v) }
{
    let n = (v % 67108864 / 4 * 4) as u64;
    if n < 33554432 {
        return Sum { high: 0, low: n };
    }
    Sum {
        high: 4294967295,
        low: 18446744073642442752 + n,
    }
}

pub fn plus(s: Sum, a: u64) -> Sum
    ensures { sum_of result ≡ wide (pos (sum_of s) +ℤ pos a) }
{
    let low = std::num::wrapping_add_u64(s.low, a);
    if low < a {
        return Sum {
            high: std::num::wrapping_add_u32(s.high, 1),
            low,
        };
    }
    Sum { high: s.high, low }
}

pub fn minus(s: Sum, a: u64) -> Sum
    ensures { sum_of result ≡ wide (pos (sum_of s) +ℤ neg_ℤ (pos a)) }
{
    let low = std::num::wrapping_sub_u64(s.low, a);
    if s.low < a {
        return Sum {
            high: std::num::wrapping_sub_u32(s.high, 1),
            low,
        };
    }
    Sum { high: s.high, low }
}

// The sum with the signed value of a branch word `v` added.
pub fn add_value(s: Sum, v: u32) -> Sum
    ensures { sum_of result ≡ wide (pos (sum_of s) +ℤ branch_value v) }
{
    let n = (v % 67108864 / 4 * 4) as u64;
    if n < 33554432 {
        return plus(s, n);
    }
    minus(s, 67108864 - n)
}

// Whether the sum is from -33,554,432 to 33,554,428 and a step of 4.
pub fn is_in_range(s: Sum) -> bool
    ensures { result ≡ wide_in_range (sum_of s) }
{
    if s.low % 4 != 0 {
        return false;
    }
    if s.high == 0 {
        return s.low <= 33554428;
    }
    if s.high != 4294967295 {
        return false;
    }
    18446744073675997184 <= s.low
}
