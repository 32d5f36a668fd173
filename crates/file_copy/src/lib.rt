// A copy of a file, and numbers set in it.
#![tactic(auto)]

ghost use Rattle.std.specs.Prelude.{◌≡◌, ◌+◌, ◌≤◌, length};
ghost use Rattle.word.specs.Number.{bytes_in};
ghost use Rattle.update.specs.Update.{put_field};

use word::{Field, Width};

// Copies every byte.
pub fn copy_file(file: &[u8], copy: &mut [u8])
    requires { length copy.old ≡ length file.now }
    ensures { copy.new ≡ file.now }
{
    // The compiler makes moves of 16 bytes of it. `copy_from_slice` is a call of memmove, which the archive must not need.
    for i in 0..file.len() {
        copy[i] = file[i];
    }
}

// Sets the field `f` of what starts at `base`; what passes its width is dropped.
pub fn put_number(s: &mut [u8], base: usize, f: Field, v: u64)
    requires { base + f.offset + bytes_in f.width ≤ length s.old }
    ensures { s.new ≡ put_field (bytes_in f.width) (base + f.offset) v s.old }
{
    let off = base + f.offset;
    let width = f.width;
    match width {
        Width::One => {
            s[off] = (v % 256) as u8;
        }
        Width::Two => {
            update::put16(s, off, (v % 65536) as u16);
        }
        Width::Four => {
            update::put32(s, off, (v % 4294967296) as u32);
        }
        Width::Eight => {
            update::put64(s, off, v);
        }
    }
}
