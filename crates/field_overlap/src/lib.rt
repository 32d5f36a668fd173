// Fields that overlap: the rule of OVERLAP, and two passes that show that no two overlap: of aligned fields, and of fields in ascending order.
#![tactic(auto)]

ghost use Rattle.std.specs.Prelude.{◌≡◌, true, ◌≤◌};
ghost use Rattle.format.specs.Limit.{file_limit};
ghost use Rattle.relocation.specs.Relocation.{place_at};
ghost use Rattle.field_overlap.specs.Overlap.{First, Readable};
ghost use Rattle.field_overlap.specs.Aligned.{Aligned};
ghost use Rattle.field_overlap.specs.Ascending.{extent_of, Follows, StepOut};

use format::Format;
use loader_header::LoaderTables;
use parts::Parts;
use relocation::FieldPlace;

// A field's bytes in its section: from `start` up to `end`.
#[derive(Clone, Copy)]
pub struct Extent {
    pub start: u64,
    pub end: u64,
}

// The last field of text and the last one of data; 0 to 0 before the first.
#[derive(Clone, Copy)]
pub struct LastFields {
    pub text: Extent,
    pub data: Extent,
}

// Whether a field follows the last one of its section, and the last fields with it.
#[derive(Clone, Copy)]
struct StepAnswer {
    follows: bool,
    last: LastFields,
}

// Whether a field has the width, and stands at a multiple of it.
fn is_aligned(e: FieldPlace, wide: bool) -> bool
    ensures { result ≡ true → Aligned wide e }
{
    if wide {
        if e.wide {
            return e.offset % 8 == 0;
        }
        return false;
    }
    if e.wide {
        return false;
    }
    e.offset % 4 == 0
}

// Whether each of `n` entries has a field of the width at a multiple of it. Then no two overlap; otherwise two may.
pub fn are_aligned(file: &[u8], f: Format, p: Parts, t: LoaderTables, wide: bool, n: u64) -> bool
    requires { Readable file.now f p t n }
    ensures { result ≡ true → First (place_at file.now f p t) n n }
{
    for i in 0..n {
        let e = relocation::place_at(file, f, p, t, i);
        if !is_aligned(e, wide) {
            return false;
        }
    }
    true
}

fn extent_of(e: FieldPlace) -> Extent
    requires { e.offset ≤ file_limit }
    ensures { result ≡ extent_of e }
{
    Extent {
        start: e.offset,
        end: e.offset + relocation::bytes_wide(e.wide),
    }
}

// Whether `x` starts at or after the end of `last`, or is the same field.
fn follows(last: Extent, x: Extent) -> bool
    ensures { result ≡ true → Follows last x }
{
    if last.end <= x.start {
        return true;
    }
    if x.start != last.start {
        return false;
    }
    x.end == last.end
}

// Compares a field with the last one of its section.
fn step(last: LastFields, e: FieldPlace) -> StepAnswer
    requires { e.offset ≤ file_limit }
    ensures { result.follows ≡ true → StepOut last e result.last }
{
    let text = last.text;
    let data = last.data;
    let x = extent_of(e);
    if e.text {
        return StepAnswer {
            follows: follows(text, x),
            last: LastFields { text: x, data },
        };
    }
    StepAnswer {
        follows: follows(data, x),
        last: LastFields { text, data: x },
    }
}

// Whether each of `n` entries has the field of the last one before it in its section, or one that starts at or after
// that one's end. Then no two overlap; otherwise two may.
pub fn are_ascending(file: &[u8], f: Format, p: Parts, t: LoaderTables, n: u64) -> bool
    requires { Readable file.now f p t n }
    ensures { result ≡ true → First (place_at file.now f p t) n n }
{
    let none = Extent { start: 0, end: 0 };
    let mut last = LastFields {
        text: none,
        data: none,
    };
    for i in 0..n {
        let e = relocation::place_at(file, f, p, t, i);
        let s = step(last, e);
        if !s.follows {
            return false;
        }
        last = s.last;
    }
    true
}
