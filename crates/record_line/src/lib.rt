// S-records: a line written, judged or read at a place of a text.
#![tactic(auto)]

ghost use Rattle.std.specs.Prelude.{◌≡◌, ℕ, ◌+◌, ◌-◌, ◌*◌, ◌/◌, ◌≤◌, ◌<◌, length, get_or, take, drop};
ghost use Rattle.std.proofs.lemmas.List.Edits.{sets};
ghost use Rattle.record.specs.Record.{hex_of, sum_of, slot, line_of, line_length, data_at, line_at};
ghost use Rattle.record.specs.Count.{misses, values_at, digits_of, joined};

// The data bytes of a line in hex.
fn put_run(out: &mut [u8], at: usize, image: &[u8], from: usize, n: usize)
    requires { (at + 2 * n ≤ length out.old) × (from + n ≤ length image.now) × (n ≤ 32) }
    ensures { out.new ≡ sets out.old at (hex_of (take n (drop from image.now))) }
{
    for (i, b) in image[from..from + n].iter().enumerate() {
        record::put_hex(out, at + 2 * i, *b);
    }
}

// A line with the `n` bytes of `image` from `from`.
pub fn put_line(
    out: &mut [u8],
    at: usize,
    kind: u8,
    address: u64,
    image: &[u8],
    from: usize,
    n: usize,
)
    requires { (at + line_length n ≤ length out.old) × (from + n ≤ length image.now) × (n ≤ 32) }
    ensures { out.new ≡ sets out.old at (line_of (slot kind address n) (take n (drop from image.now))) }
{
    record::put_lead(out, at, kind, address, n);
    let to = from + n;
    let sum = record::sum_bytes(&image[from..to]);
    put_run(out, at + 12, image, from, n);
    let end = at + 12 + 2 * n;
    record::put_hex(
        out,
        end,
        record::line_checksum(kind, address, n, sum as u64),
    );
    record::put(out, end + 2, 10);
}

// The same for a whole line of an image. It has one caller and a known length, so the compiler makes one loop of both.
pub fn put_whole(out: &mut [u8], at: usize, address: u64, image: &[u8], from: usize)
    requires { (at + line_length 32 ≤ length out.old) × (from + 32 ≤ length image.now) }
    ensures { out.new ≡ sets out.old at (line_of (slot 51 address 32) (take 32 (drop from image.now))) }
{
    record::put_lead(out, at, 51, address, 32);
    let to = from + 32;
    let sum = record::sum_bytes(&image[from..to]);
    put_run(out, at + 12, image, from, 32);
    let end = at + 76;
    record::put_hex(out, end, record::line_checksum(51, address, 32, sum as u64));
    record::put(out, end + 2, 10);
}

// A line's data: the sum of the bytes, and how many characters are not their digits.
#[derive(Clone, Copy)]
pub struct Scan {
    pub sum: u16,
    pub wrong: u8,
}

fn scan_run(t: &[u8], p: usize, n: usize) -> Scan
    requires { (p + 2 * n ≤ length t.now) × (n ≤ 32) }
    ensures { (result.sum ≡ sum_of (data_at t.now p n)) × (result.wrong ≡ misses t.now p (hex_of (data_at t.now p n))) × (result.sum ≤ 8160) × (result.wrong ≤ 64) }
{
    let mut sum: u16 = 0;
    let mut wrong: u8 = 0;
    for i in 0..n {
        let q = p + 2 * i;
        let b = record::byte_at(t, q);
        wrong += record::miss_hex(t, q, b);
        sum += b as u16;
    }
    Scan { sum, wrong }
}

// The values of a whole line's 64 characters, and how many are not the digit of their value. A whole line is turned into values first, joined
// then and summed last: each of these loops does many characters in one machine step, which one loop over pairs of characters can't.
fn put_values(t: &[u8], p: usize, v: &mut [u8; 64]) -> u8
    requires { (p + 64 ≤ length t.now) × (length v.old ≡ 64) }
    ensures values { v.new ≡ values_at t.now p 64 }
    ensures wrong { (result ≡ misses t.now p (digits_of (values_at t.now p 64))) × (result ≤ 64) }
{
    let mut wrong: u8 = 0;
    for i in 0..64 {
        let x = record::value(t[p + i]);
        v[i] = x;
        wrong += record::miss(t, p + i, record::digit(x));
    }
    wrong
}

// The bytes of 64 values, from `to` on.
fn put_joined(v: &[u8; 64], dst: &mut [u8], to: usize)
    requires { (length v.now ≡ 64) × ((k : ℕ) → get_or v.now k 0 < 16) × (to + 32 ≤ length dst.old) }
    ensures { dst.new ≡ sets dst.old to (joined v.now) }
{
    for i in 0..32 {
        dst[to + i] = v[2 * i] * 16 + v[2 * i + 1];
    }
}

fn scan_line(t: &[u8], p: usize) -> Scan
    requires { p + 64 ≤ length t.now }
    ensures { (result.sum ≡ sum_of (data_at t.now p 32)) × (result.wrong ≡ misses t.now p (hex_of (data_at t.now p 32))) × (result.sum ≤ 8160) × (result.wrong ≤ 64) }
{
    let mut v = [0u8; 64];
    let wrong = put_values(t, p, &mut v);
    let mut b = [0u8; 32];
    put_joined(&v, &mut b, 0);
    let sum = record::sum_bytes(&b);
    Scan { sum, wrong }
}

// The same for a line of any length.
fn scan_data(t: &[u8], p: usize, n: usize) -> Scan
    requires { (p + 2 * n ≤ length t.now) × (n ≤ 32) }
    ensures { (result.sum ≡ sum_of (data_at t.now p n)) × (result.wrong ≡ misses t.now p (hex_of (data_at t.now p n))) × (result.sum ≤ 8160) × (result.wrong ≤ 64) }
{
    if n == 32 {
        return scan_line(t, p);
    }
    scan_run(t, p, n)
}

// Whether the line at `p` is as it must be.
pub fn judge_line(t: &[u8], p: usize, kind: u8, address: u64, n: usize) -> bool
    requires { (p ≤ length t.now) × (n ≤ 32) }
    ensures { result ≡ line_at t.now p (slot kind address n) }
{
    if t.len() - p < 15 + 2 * n {
        return false;
    }
    let lead = record::miss_lead(t, p, kind, address, n);
    let d = scan_data(t, p + 12, n);
    let sum = d.sum;
    let wrong = d.wrong;
    let end = p + 12 + 2 * n;
    let check = record::miss_hex(t, end, record::line_checksum(kind, address, n, sum as u64));
    let last = record::miss(t, end + 2, 10);
    lead + wrong + check + last == 0
}

// The bytes whose digits stand from `p` on.
fn fill_run(t: &[u8], p: usize, n: usize, dst: &mut [u8], to: usize)
    requires { (p + 2 * n ≤ length t.now) × (to + n ≤ length dst.old) }
    ensures { dst.new ≡ sets dst.old to (data_at t.now p n) }
{
    for i in 0..n {
        dst[to + i] = record::byte_at(t, p + 2 * i);
    }
}

fn fill_line(t: &[u8], p: usize, dst: &mut [u8], to: usize)
    requires { (p + 64 ≤ length t.now) × (to + 32 ≤ length dst.old) }
    ensures { dst.new ≡ sets dst.old to (data_at t.now p 32) }
{
    let mut v = [0u8; 64];
    put_values(t, p, &mut v);
    put_joined(&v, dst, to);
}

// The same: a whole line has its own loops.
pub fn fill_data(t: &[u8], p: usize, n: usize, dst: &mut [u8], to: usize)
    requires { (p + 2 * n ≤ length t.now) × (to + n ≤ length dst.old) }
    ensures { dst.new ≡ sets dst.old to (data_at t.now p n) }
{
    if n == 32 {
        return fill_line(t, p, dst, to);
    }
    fill_run(t, p, n, dst, to)
}
