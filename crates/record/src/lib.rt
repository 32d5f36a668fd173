// S-records: the parts of a line, written and judged.
#![tactic(auto)]

ghost use Rattle.std.specs.Prelude.{◌≡◌, [], ◌∷◌, ◌+◌, ◌-◌, ◌*◌, ◌/◌, ◌%◌, ◌≤◌, ◌<◌, min, length};
ghost use Rattle.std.proofs.lemmas.List.Edits.{sets};
ghost use Rattle.record.specs.Record.{digit_of, hex_of, sum_of, checksum, slot, leading, digit_in, byte_in};
ghost use Rattle.record.specs.Count.{misses};

// The character of a digit. The letters are 7 further on: an `if` between two numbers is no branch in machine code.
pub fn digit(d: u8) -> u8
    requires { d < 16 }
    ensures { result ≡ digit_of d }
{
    let letter = if 9 < d { 7 } else { 0 };
    48 + d + letter
}

pub fn put(out: &mut [u8], at: usize, b: u8)
    requires { at < length out.old }
    ensures { out.new ≡ sets out.old at (b ∷ []) }
{
    out[at] = b;
}

// A byte in hex.
pub fn put_hex(out: &mut [u8], at: usize, b: u8)
    requires { at + 2 ≤ length out.old }
    ensures { out.new ≡ sets out.old at (hex_of (b ∷ [])) }
{
    put(out, at, digit(b / 16));
    put(out, at + 1, digit(b % 16));
}

// The sum of a line's data bytes. It is no part of the loop that writes them, which so does twice as many bytes in a machine step.
pub fn sum_bytes(b: &[u8]) -> u16
    requires { length b.now ≤ 32 }
    ensures { (result ≡ sum_of b.now) × (result ≤ 8160) }
{
    b.iter().map(|x| u16::from(*x)).sum()
}

// S, the type, the count and the address.
pub fn put_lead(out: &mut [u8], at: usize, kind: u8, address: u64, n: usize)
    requires { (at + 12 ≤ length out.old) × (n ≤ 32) }
    ensures { out.new ≡ sets out.old at (83 ∷ kind ∷ hex_of (leading (slot kind address n))) }
{
    put(out, at, 83);
    put(out, at + 1, kind);
    put_hex(out, at + 2, (n + 5) as u8);
    put_hex(out, at + 4, (address / 16777216 % 256) as u8);
    put_hex(out, at + 6, (address / 65536 % 256) as u8);
    put_hex(out, at + 8, (address / 256 % 256) as u8);
    put_hex(out, at + 10, (address % 256) as u8);
}

// The checksum of a line by the sum of its data.
pub fn line_checksum(kind: u8, address: u64, n: usize, sum: u64) -> u8
    requires { (n ≤ 32) × (sum ≤ 8160) }
    ensures { result + (sum_of (leading (slot kind address n)) + sum) % 256 ≡ 255 }
{
    let a = address / 16777216 % 256;
    let b = address / 65536 % 256;
    let c = address / 256 % 256;
    let d = address % 256;
    let total = n as u64 + 5 + a + b + c + d + sum;
    (255 - total % 256) as u8
}

// The value of a digit.
pub fn value(c: u8) -> u8
    ensures { (result ≡ digit_in c) × (result < 16) }
{
    (c % 16 + c / 64 * 9) % 16
}

// The byte whose digits stand at `p`.
pub fn byte_at(t: &[u8], p: usize) -> u8
    requires { p + 2 ≤ length t.now }
    ensures { result ≡ byte_in t.now p }
{
    value(t[p]) * 16 + value(t[p + 1])
}

// 0 where `b` stands at `p`, and 1 where it does not.
pub fn miss(t: &[u8], p: usize, b: u8) -> u8
    requires { p < length t.now }
    ensures { (result ≡ misses t.now p (b ∷ [])) × (result ≤ 1) }
{
    if t[p] == b { 0 } else { 1 }
}

// How many of a byte's two digits do not stand at `p`.
pub fn miss_hex(t: &[u8], p: usize, b: u8) -> u8
    requires { p + 2 ≤ length t.now }
    ensures { (result ≡ misses t.now p (hex_of (b ∷ []))) × (result ≤ 2) }
{
    let high = miss(t, p, digit(b / 16));
    let low = miss(t, p + 1, digit(b % 16));
    high + low
}

// The same of what stands before a line's data.
pub fn miss_lead(t: &[u8], p: usize, kind: u8, address: u64, n: usize) -> u8
    requires { (p + 12 ≤ length t.now) × (n ≤ 32) }
    ensures { (result ≡ misses t.now p (83 ∷ kind ∷ hex_of (leading (slot kind address n)))) × (result ≤ 12) }
{
    let start = miss(t, p, 83);
    let type_of = miss(t, p + 1, kind);
    let count = miss_hex(t, p + 2, (n + 5) as u8);
    let a = miss_hex(t, p + 4, (address / 16777216 % 256) as u8);
    let b = miss_hex(t, p + 6, (address / 65536 % 256) as u8);
    let c = miss_hex(t, p + 8, (address / 256 % 256) as u8);
    let d = miss_hex(t, p + 10, (address % 256) as u8);
    start + type_of + count + a + b + c + d
}

// How many data bytes the next line has where `left` are left.
pub fn next_count(left: usize) -> usize
    ensures { result ≡ min 32 left }
{
    if left < 32 { left } else { 32 }
}
