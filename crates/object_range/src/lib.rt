// RANGE of an object file: the first entry, over its sections in order, that is on a branch word whose exact sum is out of range.
#![tactic(auto)]

ghost use Rattle.std.specs.Prelude.{◌≡◌, length};
ghost use Rattle.object_history.specs.Call.{range_check};
ghost use Rattle.object_plan.specs.Object.{object_of};
ghost use Rattle.object_plan.specs.Shifts.{address_shifts, numbers};
ghost use Rattle.object_plan.specs.Ready.{ObjectReady};
ghost use Rattle.object_range.specs.Sections.{origin_of, sections_range, Covers};

use header::Summary;
use refusal::Refusal;
use section_relocation::ObjectSection;
use symbol::Tables;

// What branches are read from: the file, in a section's raw data, or the buffer.
#[derive(Clone, Copy)]
enum Source {
    RawData,
    Buffer,
}

fn origin_of(source: Source, s: ObjectSection) -> u64
    ensures { result ≡ origin_of source s }
{
    let raw = s.raw;
    match source {
        Source::RawData => raw.0,
        Source::Buffer => s.place,
    }
}

// The sections in order; the shift of a section number is `to` minus `from` there.
fn check_sections(
    file: &[u8],
    y: Summary,
    t: Tables,
    to: &[u64],
    from: &[u64],
    source: Source,
    bytes: &[u8],
) -> Result<(), Refusal>
    requires { ObjectReady file.now y t × Covers file.now y source bytes.now × (length to.now ≡ numbers) × (length from.now ≡ numbers) }
    ensures { result ≡ sections_range file.now y (address_shifts to.now from.now) source bytes.now }
{
    let len = file.len() as u64;
    let mut place: u64 = 0;
    let mut first: u64 = 0;
    for k in 0..y.count {
        let s = object::part_of(y, len, k, place, first);
        let origin = origin_of(source, s);
        let x = branch_range::first_out(file, t, s, to, from, bytes, origin);
        if x < s.count {
            return Err(Refusal::Range(section_relocation::name_of(s, x)));
        }
        place += s.size;
        first += s.count;
    }
    Ok(())
}

// RANGE of a build, from the raw bytes.
pub fn check_built(
    file: &[u8],
    y: Summary,
    t: Tables,
    to: &[u64],
    from: &[u64],
) -> Result<(), Refusal>
    requires { ObjectReady file.now y t × (length to.now ≡ numbers) × (length from.now ≡ numbers) }
    ensures { result ≡ range_check (object_of file.now) (address_shifts to.now from.now) (object_of file.now).raw }
{
    check_sections(file, y, t, to, from, Source::RawData, file)
}

// RANGE of a move, from what the buffer holds.
pub fn check_moved(
    file: &[u8],
    y: Summary,
    t: Tables,
    to: &[u64],
    from: &[u64],
    buffer: &[u8],
) -> Result<(), Refusal>
    requires { ObjectReady file.now y t × (length to.now ≡ numbers) × (length from.now ≡ numbers) × (length buffer.now ≡ length (object_of file.now).raw) }
    ensures { result ≡ range_check (object_of file.now) (address_shifts to.now from.now) buffer.now }
{
    check_sections(file, y, t, to, from, Source::Buffer, buffer)
}
