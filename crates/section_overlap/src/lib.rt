// Overlapping fields of a section's own relocation table: none where the fields ascend; otherwise found in one pass over the entries for each window of the section
// that has a field.
#![tactic(auto)]

ghost use Rattle.std.specs.Prelude.{◌≡◌, true, ℕ, ◌+◌, ◌≤◌, ◌<◌, length};
ghost use Rattle.field_kind.specs.declared.ObjectField.{ObjectField as AField};
ghost use Rattle.field_kind.specs.Field.{bytes_in};
ghost use Rattle.section_relocation.specs.Entry.{field_in};
ghost use Rattle.section_overlap.specs.Overlap.{kind_number, First, Readable};
ghost use Rattle.section_overlap.specs.Ascending.{Ascending};
ghost use Rattle.section_overlap.specs.Cells.{code, ByteOut, MarkOut, Zeros, EntryOut, LowerOut, PassOut, SweepOut};

use field_kind::{FieldKind, ObjectField};
use format::Format;
use section_relocation::ObjectSection;

// What a pass found, and where the next window may start.
#[derive(Clone, Copy)]
struct PassAnswer {
    first: u64,
    next: u64,
}

// Whether a field follows the last one, and the last one with it.
#[derive(Clone, Copy)]
struct StepAnswer {
    follows: bool,
    last: ObjectField,
}

fn kind_number(k: FieldKind) -> u8
    ensures { result ≡ kind_number k }
{
    match k {
        FieldKind::Nothing => 0,
        FieldKind::Four => 1,
        FieldKind::Eight => 2,
        FieldKind::Branch => 3,
    }
}

// Compares a field with the last one: it has no bytes, is the same, or starts at or after the end.
fn step_order(last: ObjectField, x: ObjectField) -> StepAnswer
    requires { (last.offset < 4294967296) × (x.offset < 4294967296) }
    ensures bound { result.last.offset < 4294967296 }
    ensures order { result.follows ≡ true → (r : ℕ → AField) (i : ℕ) → x ≡ r i → Ascending r i last → Ascending r (i + 1) result.last }
{
    let a = last.kind;
    let b = x.kind;
    if field_kind::bytes_in(b) == 0 {
        return StepAnswer {
            follows: true,
            last,
        };
    }
    if last.offset + field_kind::bytes_in(a) <= x.offset {
        return StepAnswer {
            follows: true,
            last: x,
        };
    }
    if last.offset != x.offset {
        return StepAnswer {
            follows: false,
            last,
        };
    }
    StepAnswer {
        follows: kind_number(a) == kind_number(b),
        last: x,
    }
}

// Whether each of `n` entries has the field of the last one before it, or one that starts at or after that one's end. Then no
// two overlap; otherwise two may.
pub fn are_ascending(file: &[u8], f: Format, s: ObjectSection, n: u64) -> bool
    requires { Readable file.now f s n }
    ensures { result ≡ true → First (field_in file.now f s) n n }
{
    let mut last = ObjectField {
        offset: 0,
        kind: FieldKind::Nothing,
    };
    for i in 0..n {
        let e = section_relocation::field_in(file, f, s, i);
        let a = step_order(last, e);
        if !a.follows {
            return false;
        }
        last = a.last;
    }
    true
}

// The value of the byte at `place` of a field: each place of each kind has its own.
fn code_of(kind: FieldKind, place: u64) -> u8
    requires { place < 8 }
    ensures { result ≡ code kind place }
{
    let q = (place % 8) as u8;
    match kind {
        FieldKind::Nothing => 1 + q,
        FieldKind::Four => 1 + q,
        FieldKind::Eight => 9 + q,
        FieldKind::Branch => 5 + q,
    }
}

// Stores `v` for the byte `k` of the window from `base`, unless another value stands there: then the answer is true.
fn mark_byte(cells: &mut [u8], base: u64, k: u64, v: u8) -> bool
    ensures { ByteOut base k v cells.old cells.new result }
{
    if k < base {
        return false;
    }
    let x = (k - base) as usize;
    if cells.len() <= x {
        return false;
    }
    let c = cells[x];
    if c == 0 {
        cells[x] = v;
        return false;
    }
    if c == v {
        return false;
    }
    true
}

// Marks the bytes of a field in the window from `base`, unless one is another field's: then the answer is true.
fn mark(cells: &mut [u8], base: u64, offset: u64, kind: FieldKind) -> bool
    requires { offset < 4294967296 }
    ensures { MarkOut base offset kind cells.old cells.new result }
{
    let w = field_kind::bytes_in(kind);
    for place in 0..w {
        let v = code_of(kind, place);
        if mark_byte(cells, base, offset + place, v) {
            return true;
        }
    }
    false
}

// Makes every cell 0.
fn clear(cells: &mut [u8])
    ensures { Zeros cells.old cells.new }
{
    cells.fill(0);
}

// Marks a field: true where it meets another in the window.
fn step(e: ObjectField, base: u64, cells: &mut [u8]) -> bool
    requires { e.offset < 4294967296 }
    ensures { EntryOut e base cells.old cells.new result }
{
    let k = e.kind;
    mark(cells, base, e.offset, k)
}

// The field's lowest byte from `end` on, if it has one below `next`, or `next`.
fn lower(e: ObjectField, end: u64, next: u64) -> u64
    requires { (e.offset < 4294967296) × (end ≤ next) }
    ensures { LowerOut e end next result }
{
    let k = e.kind;
    let w = field_kind::bytes_in(k);
    if e.offset + w <= end {
        return next;
    }
    if next <= e.offset {
        return next;
    }
    if e.offset < end {
        return end;
    }
    e.offset
}

// The first of `n` entries that meets an earlier one in the window from `base`, or `n`; and where the next window may start: the
// lowest byte past this one that an entry before that has, or `limit`.
fn pass(
    file: &[u8],
    f: Format,
    s: ObjectSection,
    base: u64,
    limit: u64,
    n: u64,
    cells: &mut [u8],
) -> PassAnswer
    requires readable { Readable file.now f s n }
    requires cells_bound { base + length cells.old ≤ limit }
    ensures { PassOut (field_in file.now f s) base (length cells.old) n result.first result.next }
{
    clear(cells);
    let end = base + cells.len() as u64;
    let mut next = limit;
    for i in 0..n {
        let e = section_relocation::field_in(file, f, s, i);
        if step(e, base, cells) {
            return PassAnswer { first: i, next };
        }
        next = lower(e, end, next);
    }
    PassAnswer { first: n, next }
}

// The first of `n` entries that meets an earlier one, or `n`: window by window.
fn sweep(file: &[u8], f: Format, s: ObjectSection, n: u64, cells: &mut [u8]) -> u64
    requires readable { Readable file.now f s n }
    requires value { 262144 ≡ length cells.old }
    ensures { First (field_in file.now f s) n result }
{
    let end = s.place + s.size;
    let limit = end + cells.len() as u64;
    let mut first = n;
    let mut base = s.place;
    while base < end {
        let a = pass(file, f, s, base, limit, first, cells);
        first = a.first;
        base = a.next;
    }
    first
}

// A window's cells.
fn space() -> [u8; 262144]
    ensures { 262144 ≡ length result }
{
    [0; 262144]
}

// The same as `first_overlap`, by the windows alone.
fn sweep_windows(file: &[u8], f: Format, s: ObjectSection, n: u64) -> u64
    requires { Readable file.now f s n }
    ensures { First (field_in file.now f s) n result }
{
    let mut cells = space();
    sweep(file, f, s, n, &mut cells)
}

// The first of `n` entries whose field meets an earlier one that is not the same field, or `n`. Fields in ascending order, as
// compilers write them, need no window.
pub fn first_overlap(file: &[u8], f: Format, s: ObjectSection, n: u64) -> u64
    requires { Readable file.now f s n }
    ensures { First (field_in file.now f s) n result }
{
    if are_ascending(file, f, s, n) {
        return n;
    }
    sweep_windows(file, f, s, n)
}
