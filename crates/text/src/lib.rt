// Text is written into a lent buffer: each function stores its bytes at a place and hands back the place after them.
#![tactic(auto)]

ghost use Rattle.std.specs.Prelude.{◌≡◌, [], ◌∷◌, ◌+◌, ◌≤◌, ◌<◌, length};
ghost use Rattle.std.proofs.lemmas.List.Edits.{sets};
ghost use Rattle.text.specs.Text.{digit_of, digits, places, decimal, hex};

// The character of a digit.
fn digit(d: u64) -> u8
    requires { d < 16 }
    ensures { result ≡ digit_of d }
{
    if d < 10 { 48 + d as u8 } else { 87 + d as u8 }
}

// How many decimal digits a number has.
fn count_places(v: u64) -> usize
    ensures { result ≡ places v }
{
    let mut n: usize = 1;
    let mut rest = v;
    while 9 < rest {
        rest = rest / 10;
        n += 1;
    }
    n
}

// Stores the last `count` digits of `v`, from the last to the first.
fn put_digits(out: &mut [u8; 2048], at: usize, base: u64, count: usize, v: u64)
    requires le_base { (2 ≤ base) × (base ≤ 16) }
    requires count_bound { at + count ≤ 2048 }
    ensures { out.new ≡ sets out.old at (digits base count v) }
{
    let mut rest = v;
    for i in (0..count).rev() {
        out[at + i] = digit(rest % base);
        rest /= base;
    }
}

pub fn put_decimal(out: &mut [u8; 2048], at: usize, v: u64) -> usize
    requires { at + 20 ≤ 2048 }
    ensures next { result ≡ at + length (decimal v) }
    ensures text { out.new ≡ sets out.old at (decimal v) }
    ensures short { result ≤ at + 20 }
{
    let count = count_places(v);
    put_digits(out, at, 10, count, v);
    at + count
}

pub fn put_hex(out: &mut [u8; 2048], at: usize, count: usize, v: u64) -> usize
    requires { at + count ≤ 2048 }
    ensures next { result ≡ at + length (hex count v) }
    ensures text { out.new ≡ sets out.old at (hex count v) }
{
    put_digits(out, at, 16, count, v);
    at + count
}

pub fn put_byte(out: &mut [u8; 2048], at: usize, b: u8) -> usize
    requires { at < 2048 }
    ensures next { result ≡ at + 1 }
    ensures text { out.new ≡ sets out.old at (b ∷ []) }
{
    out[at] = b;
    at + 1
}

pub fn put_bytes(out: &mut [u8; 2048], at: usize, s: &[u8]) -> usize
    requires { at + length s.now ≤ 2048 }
    ensures next { result ≡ at + length s.now }
    ensures text { out.new ≡ sets out.old at s.now }
{
    let end = at + s.len();
    out[at..end].copy_from_slice(s);
    end
}
