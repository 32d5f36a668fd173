// Fields of a byte slice written, added to and subtracted from; what passes a field's width is dropped.
#![tactic(auto)]

ghost use Rattle.std.specs.Prelude.{◌≡◌, ◌+◌, ◌≤◌, length, pos, neg_ℤ};
ghost use Rattle.word.specs.Number.{field_at};
ghost use Rattle.update.specs.Update.{put_field, add_field};

fn put8(s: &mut [u8], off: usize, v: u8)
    requires { off + 1 ≤ length s.old }
    ensures { s.new ≡ put_field 1 off v s.old }
{
    s[off] = v;
}

// In these forms the compiler makes a byte swap and one store of each width.
pub fn put16(s: &mut [u8], off: usize, v: u16)
    requires { off + 2 ≤ length s.old }
    ensures { s.new ≡ put_field 2 off v s.old }
{
    put8(s, off, (v / 256) as u8);
    put8(s, off + 1, (v % 256) as u8);
}

pub fn put32(s: &mut [u8], off: usize, v: u32)
    requires { off + 4 ≤ length s.old }
    ensures { s.new ≡ put_field 4 off v s.old }
{
    put16(s, off, (v / 65536) as u16);
    put16(s, off + 2, (v % 65536) as u16);
}

pub fn put64(s: &mut [u8], off: usize, v: u64)
    requires { off + 8 ≤ length s.old }
    ensures { s.new ≡ put_field 8 off v s.old }
{
    put32(s, off, (v / 4294967296) as u32);
    put32(s, off + 4, (v % 4294967296) as u32);
}

// Adds `d` to the field of 4 bytes at `off`.
pub fn add32(s: &mut [u8], off: usize, d: u64)
    requires { off + 4 ≤ length s.old }
    ensures { s.new ≡ add_field 4 off (pos d) s.old }
{
    let v = word::get32(s, off);
    put32(
        s,
        off,
        std::num::wrapping_add_u32(v, (d % 4294967296) as u32),
    );
}

// Subtracts `d` from it.
pub fn sub32(s: &mut [u8], off: usize, d: u64)
    requires { off + 4 ≤ length s.old }
    ensures { s.new ≡ add_field 4 off (neg_ℤ (pos d)) s.old }
{
    let v = word::get32(s, off);
    put32(
        s,
        off,
        std::num::wrapping_sub_u32(v, (d % 4294967296) as u32),
    );
}

// The field of 8 bytes at `off`. Its low half is read first: a branch for 4 bytes beside this one starts with the high half's bytes,
// which the compiler would take out of both, and no load of 8 bytes would be left.
fn read64(s: &[u8], off: usize) -> u64
    requires { off + 8 ≤ length s.now }
    ensures { result ≡ field_at 8 off s.now }
{
    let low = word::get32(s, off + 4);
    let high = word::get32(s, off);
    (high as u64) * 4294967296 + (low as u64)
}

// Adds `d` to the field of 8 bytes at `off`.
pub fn add64(s: &mut [u8], off: usize, d: u64)
    requires { off + 8 ≤ length s.old }
    ensures { s.new ≡ add_field 8 off (pos d) s.old }
{
    let v = read64(s, off);
    put64(s, off, std::num::wrapping_add_u64(v, d));
}

// Subtracts `d` from it.
pub fn sub64(s: &mut [u8], off: usize, d: u64)
    requires { off + 8 ≤ length s.old }
    ensures { s.new ≡ add_field 8 off (neg_ℤ (pos d)) s.old }
{
    let v = read64(s, off);
    put64(s, off, std::num::wrapping_sub_u64(v, d));
}
