// The raw images of a module written into two buffers: section bytes, then zeros.
#![tactic(auto)]

ghost use Rattle.std.specs.Prelude.{◌≡◌, ◌++◌, ◌+◌, ◌-◌, ◌≤◌, ◌<◌, length, drop, replicate};
ghost use Rattle.std.proofs.Math.Seq.{paste};
ghost use Rattle.format.specs.Range.{range, bytes_of};
ghost use Rattle.module.specs.Inside.{PartInside};
ghost use Rattle.loadable.specs.Valid.{Valid};
ghost use Rattle.history.specs.Images.{images};
ghost use Rattle.plan.specs.Relocatable.{relocatable_of};

use loadable::Loadable;
use parts::Part;

// ---- the raw images

// Copies `n` bytes of the file from `at` to the start of `dst`.
fn copy_bytes(file: &[u8], at: usize, n: usize, dst: &mut [u8])
    requires { (0 < n → at + n ≤ length file.now) × (n ≤ length dst.old) }
    ensures { dst.new ≡ paste dst.old 0 (drop at file.now) n }
{
    // The compiler makes moves of 16 bytes of it. `copy_from_slice` is a call of memmove, which the archive must not need.
    for i in 0..n {
        dst[i] = file[at + i];
    }
}

// Makes every byte from `n` on 0.
fn clear_from(dst: &mut [u8], n: usize)
    requires { n ≤ length dst.old }
    ensures { dst.new ≡ paste dst.old n (replicate (length dst.old - n) 0) (length dst.old - n) }
{
    dst[n..].fill(0);
}

// Fills an image: a section's bytes, then zeros.
fn fill(file: &[u8], p: Part, dst: &mut [u8])
    requires { PartInside (length file.now) p × (p.size ≤ length dst.old) }
    ensures { dst.new ≡ bytes_of file.now (range p.start.0 p.size) ++ replicate (length dst.old - p.size) 0 }
{
    let start = p.start;
    let n = p.size as usize;
    copy_bytes(file, start.0 as usize, n, dst);
    clear_from(dst, n);
}

// Fills both buffers with the module's raw images.
pub fn fill_raw(file: &[u8], l: Loadable, text: &mut [u8], data: &mut [u8])
    requires valid { Valid file.now l }
    requires text_len { (length text.old ≡ l.layout.parts.text.size) × (length «data».old ≡ l.layout.image) }
    ensures { images text.new «data».new ≡ (relocatable_of file.now l).raw }
{
    let m = l.layout;
    let p = m.parts;
    let t = p.text;
    let d = p.data;
    fill(file, t, text);
    fill(file, d, data);
}
