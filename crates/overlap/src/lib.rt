// Overlapping fields: none where the fields are aligned or ascend; otherwise found in one pass over the entries for each window of a section that has a field.
#![tactic(auto)]

ghost use Rattle.std.specs.Prelude.{◌≡◌, ◌+◌, ◌≤◌, ◌<◌, length};
ghost use Rattle.format.specs.Limit.{file_limit};
ghost use Rattle.relocation.specs.Relocation.{place_at};
ghost use Rattle.field_overlap.specs.Overlap.{same_bool, First, Readable};
ghost use Rattle.overlap.specs.Cells.{code, ByteOut, MarkOut, Zeros, EntryOut, LowerOut, PassOut, SweepOut};

use format::Format;
use loader_header::LoaderTables;
use parts::Parts;
use relocation::FieldPlace;

// What a pass found, and where the next window may start.
#[derive(Clone, Copy)]
struct PassAnswer {
    first: u64,
    next: u64,
}

// The value of the byte at `place` of a field: each place of each width has its own.
fn code_of(wide: bool, place: u64) -> u8
    requires { place < 8 }
    ensures { result ≡ code wide place }
{
    let q = (place % 8) as u8;
    if wide { 9 + q } else { 1 + q }
}

// Stores `v` for the byte `k` of the window from `base`, unless another value stands there: then the answer is true.
fn mark_byte(cells: &mut [u8], base: u64, k: u64, v: u8) -> bool
    ensures { ByteOut base k v cells.old cells.new result }
{
    if k < base {
        return false;
    }
    let x = (k - base) as usize;
    if cells.len() <= x {
        return false;
    }
    let c = cells[x];
    if c == 0 {
        cells[x] = v;
        return false;
    }
    if c == v {
        return false;
    }
    true
}

// Marks the bytes of a field in the window from `base`, unless one is another field's: then the answer is true.
fn mark(cells: &mut [u8], base: u64, offset: u64, wide: bool) -> bool
    requires { offset ≤ file_limit }
    ensures { MarkOut base offset wide cells.old cells.new result }
{
    let w = relocation::bytes_wide(wide);
    for place in 0..w {
        let v = code_of(wide, place);
        if mark_byte(cells, base, offset + place, v) {
            return true;
        }
    }
    false
}

// Makes every cell 0.
fn clear(cells: &mut [u8])
    ensures { Zeros cells.old cells.new }
{
    cells.fill(0);
}

fn same_section(a: bool, b: bool) -> bool
    ensures { result ≡ same_bool a b }
{
    if a { b } else { !b }
}

// Marks a field, if it is in the section: true where it meets another field in the window.
fn step(e: FieldPlace, text: bool, base: u64, cells: &mut [u8]) -> bool
    requires { e.offset ≤ file_limit }
    ensures { EntryOut e text base cells.old cells.new result }
{
    if same_section(e.text, text) {
        mark(cells, base, e.offset, e.wide)
    } else {
        false
    }
}

// The field's lowest byte from `end` on, if it is in the section and has one below `next`, or `next`.
fn lower(e: FieldPlace, text: bool, end: u64, next: u64) -> u64
    requires { (e.offset ≤ file_limit) × (end ≤ next) }
    ensures { LowerOut e text end next result }
{
    if !same_section(e.text, text) {
        return next;
    }
    if e.offset + relocation::bytes_wide(e.wide) <= end {
        return next;
    }
    if next <= e.offset {
        return next;
    }
    if e.offset < end {
        return end;
    }
    e.offset
}

// The first of `n` entries that meets an earlier one in the window of a section from `base`, or `n`;
// and where the next window may start: the lowest byte past this one that an entry before that has, or `limit`.
fn pass(
    file: &[u8],
    f: Format,
    p: Parts,
    t: LoaderTables,
    text: bool,
    base: u64,
    limit: u64,
    n: u64,
    cells: &mut [u8],
) -> PassAnswer
    requires readable { Readable file.now f p t n }
    requires cells_bound { base + length cells.old ≤ limit }
    ensures { PassOut (place_at file.now f p t) text base (length cells.old) n result.first result.next }
{
    clear(cells);
    let end = base + cells.len() as u64;
    let mut next = limit;
    for i in 0..n {
        let e = relocation::place_at(file, f, p, t, i);
        if step(e, text, base, cells) {
            return PassAnswer { first: i, next };
        }
        next = lower(e, text, end, next);
    }
    PassAnswer { first: n, next }
}

// The first of `n` entries that meets an earlier one in a section of `size` bytes, or `n`: window by window.
fn sweep(
    file: &[u8],
    f: Format,
    p: Parts,
    t: LoaderTables,
    text: bool,
    size: u64,
    n: u64,
    cells: &mut [u8],
) -> u64
    requires readable { Readable file.now f p t n }
    requires size_le_file_limit { (size ≤ file_limit) × (262144 ≡ length cells.old) }
    ensures { SweepOut (place_at file.now f p t) text size n result }
{
    let limit = size + cells.len() as u64;
    let mut first = n;
    let mut base = 0;
    while base < size {
        let a = pass(file, f, p, t, text, base, limit, first, cells);
        first = a.first;
        base = a.next;
    }
    first
}

// Text's windows, then data's.
fn sweep_both(file: &[u8], f: Format, p: Parts, t: LoaderTables, n: u64, cells: &mut [u8]) -> u64
    requires readable { Readable file.now f p t n }
    requires value { 262144 ≡ length cells.old }
    ensures { First (place_at file.now f p t) n result }
{
    let text = p.text;
    let data = p.data;
    let a = sweep(file, f, p, t, true, text.size, n, cells);
    sweep(file, f, p, t, false, data.size, a, cells)
}

// A window's cells.
fn space() -> [u8; 262144]
    ensures { 262144 ≡ length result }
{
    [0; 262144]
}

// The same as `first_overlap`, by the windows alone.
fn sweep_windows(file: &[u8], f: Format, p: Parts, t: LoaderTables, n: u64) -> u64
    requires { Readable file.now f p t n }
    ensures { First (place_at file.now f p t) n result }
{
    let mut cells = space();
    sweep_both(file, f, p, t, n, &mut cells)
}

// The first of `n` entries whose field meets an earlier one that is not the same field, or `n`.
// Aligned fields, as nearly all linkers write them, and fields in ascending order need no window.
pub fn first_overlap(file: &[u8], f: Format, p: Parts, t: LoaderTables, n: u64) -> u64
    requires { Readable file.now f p t n }
    ensures { First (place_at file.now f p t) n result }
{
    if field_overlap::are_aligned(file, f, p, t, false, n) {
        return n;
    }
    if field_overlap::are_aligned(file, f, p, t, true, n) {
        return n;
    }
    if field_overlap::are_ascending(file, f, p, t, n) {
        return n;
    }
    sweep_windows(file, f, p, t, n)
}
