// Numbers in bytes: big-endian reads, the first zero of a slice, and sums compared in exact arithmetic.
#![tactic(auto)]

ghost use Rattle.std.specs.Prelude.{◌≡◌, ◌||◌, [], ◌∷◌, ◌+◌, ◌*◌, ◌/◌, ◌%◌, ◌≤◌, ◌<◌, ◌^◌, ltb, eqb, length, get_or, drop};
ghost use Rattle.word.specs.Number.{field, field_at, bytes_in, field_in};
ghost use Rattle.word.specs.Zero.{first_zero, zeros_in, zero_end};
ghost use Rattle.word.specs.Test.{past};

// How many bytes a number takes.
#[derive(Clone, Copy)]
pub enum Width {
    One,
    Two,
    Four,
    Eight,
}

// The place of a number in a header or table entry: its offset from the first byte there, and its width.
#[derive(Clone, Copy)]
pub struct Field {
    pub offset: usize,
    pub width: Width,
}

impl Width {
    // The place of a number of this width.
    pub fn at(self, offset: usize) -> Field
        ensures { result ≡ field offset self }
    {
        Field {
            offset,
            width: self,
        }
    }
}

pub fn bytes_in(w: Width) -> usize
    ensures { result ≡ bytes_in w }
{
    match w {
        Width::One => 1,
        Width::Two => 2,
        Width::Four => 4,
        Width::Eight => 8,
    }
}

fn get8(s: &[u8], off: usize) -> u8
    requires { off + 1 ≤ length s.now }
    ensures { result ≡ field_at 1 off s.now }
{
    s[off]
}

// In these forms the compiler makes one load and a byte swap of each width.
pub fn get16(s: &[u8], off: usize) -> u16
    requires { off + 2 ≤ length s.now }
    ensures { result ≡ field_at 2 off s.now }
{
    let high = get8(s, off);
    let low = get8(s, off + 1);
    (high as u16) * 256 + (low as u16)
}

// Loaded and then swapped, in two functions: each is one instruction to the compiler before it decides what to inline, where four bytes
// taken one by one would be many.
pub fn get32(s: &[u8], off: usize) -> u32
    requires { off + 4 ≤ length s.now }
    ensures { result ≡ field_at 4 off s.now }
{
    swap32(load32(s, off))
}

// The four bytes at `off`, the least significant first.
fn load32(s: &[u8], off: usize) -> u32
    requires { off + 4 ≤ length s.now }
    ensures value { result ≡ get_or s.now off 0 + get_or s.now (off + 1) 0 * 256 + get_or s.now (off + 2) 0 * 65536 + get_or s.now (off + 3) 0 * 16777216 }
    ensures bytes { (get_or s.now off 0 < 256) × (get_or s.now (off + 1) 0 < 256) × (get_or s.now (off + 2) 0 < 256) × (get_or s.now (off + 3) 0 < 256) }
{
    let b0 = wide(s[off]);
    let b1 = wide(s[off + 1]);
    let b2 = wide(s[off + 2]);
    let b3 = wide(s[off + 3]);
    b0 + b1 * 256 + b2 * 65536 + b3 * 16777216
}

// The four bytes of `v` in the other order.
fn swap32(v: u32) -> u32
    ensures { result ≡ v % 256 * 16777216 + v / 256 % 256 * 65536 + v / 65536 % 256 * 256 + v / 16777216 }
{
    v % 256 * 16777216 + v / 256 % 256 * 65536 + v / 65536 % 256 * 256 + v / 16777216
}

fn wide(b: u8) -> u32
    ensures { (result ≡ b) × (result < 256) }
{
    b as u32
}

pub fn get64(s: &[u8], off: usize) -> u64
    requires { off + 8 ≤ length s.now }
    ensures { result ≡ field_at 8 off s.now }
{
    let high = get32(s, off);
    let low = get32(s, off + 4);
    (high as u64) * 4294967296 + (low as u64)
}

// The number at the place `f` of what starts at `base`.
pub fn read_field(s: &[u8], base: usize, f: Field) -> u64
    requires { base + f.offset + bytes_in f.width ≤ length s.now }
    ensures value { result ≡ field_in f base s.now }
    ensures bound { result < 256 ^ bytes_in f.width }
{
    let off = base + f.offset;
    let width = f.width;
    match width {
        Width::One => get8(s, off) as u64,
        Width::Two => get16(s, off) as u64,
        Width::Four => get32(s, off) as u64,
        Width::Eight => get64(s, off),
    }
}

// The place of the first zero, or the length where there is none. Most names are short: where a zero is near, the plain search is the quickest.
pub fn first_zero(s: &[u8]) -> usize
    ensures { result ≡ first_zero s.now }
{
    if s.len() < 16 {
        return scan_first(s);
    }
    if has_zero(&s[..16]) {
        return scan_first(s);
    }
    far_zero(s)
}

// The same, first by blocks that are looked at as a whole.
fn far_zero(s: &[u8]) -> usize
    ensures { result ≡ first_zero s.now }
{
    let far = skip_blocks(s, 64);
    let rest = &s[far..];
    let near = skip_blocks(rest, 16);
    far + near + scan_first(&rest[near..])
}

// How many bytes there are in the blocks of `n` bytes, from the first on, that have no zero.
fn skip_blocks(s: &[u8], n: usize) -> usize
    requires { 0 < n }
    ensures within { result ≤ length s.now }
    ensures skipped { first_zero s.now ≡ result + first_zero (drop result s.now) }
{
    let mut at = 0;

    // By blocks and not by bytes: the place where a block stops the loop is the answer.
    while n <= s.len() - at {
        let end = at + n;
        if has_zero(&s[at..end]) {
            return at;
        }
        at = end;
    }
    at
}

// No return in the loop, and a length that the callers fix: so the compiler compares 16 bytes at once.
fn has_zero(block: &[u8]) -> bool
    ensures { result ≡ ltb 0 (zeros_in block.now) }
{
    let mut found = false;
    for b in block {
        found = is_zero_or(*b, found);
    }
    found
}

fn is_zero_or(b: u8, found: bool) -> bool
    ensures { result ≡ (eqb b 0 || found) }
{
    if b == 0 { true } else { found }
}

fn scan_first(s: &[u8]) -> usize
    ensures { result ≡ first_zero s.now }
{
    s.iter().position(|b| *b == 0).unwrap_or(s.len())
}

pub fn count_zeros(s: &[u8]) -> usize
    ensures { result ≡ zeros_in s.now }
{
    let mut n = 0;
    let mut at = 0;

    // By blocks of a length that is written here, so that each is counted in a few instructions.
    while 64 <= s.len() - at {
        let end = at + 64;
        n = n + zeros_in(&s[at..end]) as usize;
        at = end;
    }
    n + zeros_in(&s[at..]) as usize
}

// The sum is a byte: so the compiler adds 16 at once.
fn zeros_in(block: &[u8]) -> u8
    requires { length block.now < 256 }
    ensures { result ≡ zeros_in block.now }
{
    let mut n: u8 = 0;
    for b in block {
        n += zero_bit(*b);
    }
    n
}

fn zero_bit(b: u8) -> u8
    ensures { result ≡ zeros_in (b ∷ []) }
{
    if b == 0 { 1 } else { 0 }
}

// One past the last zero, or 0 where there is none.
pub fn zero_end(s: &[u8]) -> usize
    ensures { result ≡ zero_end s.now }
{
    let mut end = s.len();

    // By blocks, the last one first.
    while 64 <= end {
        let at = end - 64;
        if has_zero(&s[at..end]) {
            return scan_last(&s[..end]);
        }
        end = at;
    }
    scan_last(&s[..end])
}

fn scan_last(s: &[u8]) -> usize
    ensures { result ≡ zero_end s.now }
{
    match s.iter().rposition(|b| *b == 0) {
        Some(i) => i + 1,
        None => 0,
    }
}

// Whether `size` bytes from `from` end past `end`.
pub fn ends_past(from: u64, size: u64, end: u64) -> bool
    ensures { result ≡ past from size end }
{
    if end < from {
        return true;
    }
    end - from < size
}

// The same for an end that may be 2^64: one past `last`.
pub fn ends_past_last(from: u64, size: u64, last: u64) -> bool
    ensures { result ≡ past from size (last + 1) }
{
    if size == 0 {
        if from == 0 {
            return false;
        }
        return last < from - 1;
    }
    if last < from {
        return true;
    }
    last - from < size - 1
}
