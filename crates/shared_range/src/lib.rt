// Ranges of a file that share a byte.
#![tactic(auto)]

ghost use Rattle.std.specs.Prelude.{◌≡◌, ◌≤◌, take, drop};
ghost use Rattle.shared_range.specs.Shared.{shares, shares_one, shares_two};

use format::FileRange;

// Some byte is in both.
pub fn share_byte(a: FileRange, b: FileRange) -> bool
    ensures { result ≡ shares a b }
{
    if a.length == 0 {
        return false;
    }
    if b.length == 0 {
        return false;
    }
    word::ends_past(b.start.0, b.length, a.start.0)
        && word::ends_past(a.start.0, a.length, b.start.0)
}

// A range shares a byte with one of the first n ranges, those before `from` left out.
fn shares_one(a: FileRange, rs: [FileRange; 6], from: usize, n: usize) -> bool
    requires { n ≤ 6 }
    ensures { result ≡ shares_one a (drop from (take n rs)) }
{
    rs[..n].iter().skip(from).any(|b| share_byte(a, *b))
}

// Two of the first n ranges share a byte.
pub fn share_two(rs: [FileRange; 6], n: usize) -> bool
    requires { n ≤ 6 }
    ensures { result ≡ shares_two (take n rs) }
{
    for i in 0..n {
        if shares_one(rs[i], rs, i + 1, n) {
            return true;
        }
    }
    false
}
