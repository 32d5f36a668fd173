// The raw bytes of an object file's text and data sections copied into the buffer, end to end.
#![tactic(auto)]

ghost use Rattle.std.specs.Prelude.{◌≡◌, ◌+◌, ◌≤◌, ◌<◌, length, drop};
ghost use Rattle.std.proofs.Math.Seq.{paste};
ghost use Rattle.object_plan.specs.Object.{object_of};
ghost use Rattle.object_plan.specs.Ready.{ObjectReady};

use header::Summary;
use symbol::Tables;

// Copies `n` bytes of the file from `at` to `place` in `out`.
fn copy_part(file: &[u8], at: usize, n: usize, out: &mut [u8], place: usize)
    requires { (0 < n → at + n ≤ length file.now) × (place + n ≤ length out.old) }
    ensures { out.new ≡ paste out.old place (drop at file.now) n }
{
    // The compiler makes moves of 16 bytes of it. `copy_from_slice` is a call of memmove, which the archive must not need.
    for i in 0..n {
        out[place + i] = file[at + i];
    }
}

// Fills the buffer of an accepted object file.
pub fn copy_raw(file: &[u8], y: Summary, t: Tables, out: &mut [u8])
    requires object_ready { ObjectReady file.now y t }
    requires out_len { length out.old ≡ length (object_of file.now).raw }
    ensures { out.new ≡ (object_of file.now).raw }
{
    let len = file.len() as u64;
    let mut place: u64 = 0;
    let mut first: u64 = 0;
    for k in 0..y.count {
        let s = object::part_of(y, len, k, place, first);
        let raw = s.raw;
        copy_part(file, raw.0 as usize, s.size as usize, out, place as usize);
        place += s.size;
        first += s.count;
    }
}
