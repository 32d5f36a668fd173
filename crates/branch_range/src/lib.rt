// RANGE over a section's own table: the first entry on a branch word whose exact sum is out of range. Where the branches ascend, one sum is held at a time; otherwise
// the sums of a window of the section.
#![tactic(auto)]

ghost use Rattle.std.specs.Prelude.{◌≡◌, true, ℕ, ◌+◌, ◌-◌, ◌*◌, ◌≤◌, ◌<◌, length, pos, ◌+ℤ◌, ◌-ℤ◌};
ghost use Rattle.branch.specs.Branch.{branch_value, sum_of, wide};
ghost use Rattle.object_history.specs.Entry.{amount_of};
ghost use Rattle.object_history.specs.Range.{is_branch};
ghost use Rattle.section_relocation.specs.Entry.{field_in};
ghost use Rattle.section_overlap.specs.Overlap.{Readable};
ghost use Rattle.object_entry.specs.Entry.{object_entry};
ghost use Rattle.object_plan.specs.Shifts.{address_shifts};
ghost use Rattle.object_plan.specs.Ready.{PartReady};
ghost use Rattle.branch_range.specs.Range.{FirstOut, word_from};
ghost use Rattle.branch_range.specs.Cells.{CellOut, AddOut, StepOut, LowerOut, AllOut, JudgeOut, ScanOut};
ghost use Rattle.branch_range.specs.Order.{FirstBranch, Ascended, closed};

use branch::Sum;
use field_kind::{FieldKind, ObjectField};
use format::Format;
use object_history::{AmountKind, ObjectEntry};
use section_relocation::ObjectSection;
use symbol::Tables;

// What is known of entries whose branches ascend: the last word, the first entry on it and its sum so far; and the first entry out of range on a word before
// it, or the number of entries.
#[derive(Clone, Copy)]
struct Run {
    ascending: bool,
    at: u64,
    start: u64,
    first: u64,
    sum: Sum,
}

#[derive(Clone, Copy)]
struct OrderAnswer {
    known: bool,
    first: u64,
}

fn is_branch(k: FieldKind) -> bool
    ensures { result ≡ is_branch k }
{
    match k {
        FieldKind::Nothing => false,
        FieldKind::Four => false,
        FieldKind::Eight => false,
        FieldKind::Branch => true,
    }
}

// A sum with the shift `a` - `b` added.
fn add_shift(s: Sum, a: u64, b: u64) -> Sum
    ensures { sum_of result ≡ wide (pos (sum_of s) +ℤ (pos a -ℤ pos b)) }
{
    let x = branch::plus(s, a);
    branch::minus(x, b)
}

// A sum with what an entry adds, by the shifts of its symbol and of its own section.
fn add_amount(s: Sum, e: ObjectEntry, to: &[u64], from: &[u64]) -> Sum
    requires { (length to.now ≡ 33) × (length from.now ≡ 33) × (e.symbol < 33) × (e.name.section.0 < 33) }
    ensures { sum_of result ≡ wide (pos (sum_of s) +ℤ amount_of e (address_shifts to.now from.now)) }
{
    let kind = e.amount;
    let k = e.symbol as usize;
    match kind {
        AmountKind::Plus => add_shift(s, to[k], from[k]),
        AmountKind::Minus => add_shift(s, from[k], to[k]),
        AmountKind::Relative => {
            let name = e.name;
            let section = name.section;
            let own = section.0 as usize;
            let x = add_shift(s, to[k], from[k]);
            add_shift(x, from[own], to[own])
        }
    }
}

// The cell of a branch in the window of `n` cells from `base`, or `n`.
fn cell_of(g: ObjectField, base: u64, n: u64) -> u64
    ensures { CellOut g base n result }
{
    let k = g.kind;
    if !is_branch(k) {
        return n;
    }
    if g.offset < base {
        return n;
    }
    let x = (g.offset - base) / 4;
    if x < n {
        return x;
    }
    n
}

// Adds an entry to the sum in a cell.
fn add_to_cell(
    e: ObjectEntry,
    to: &[u64],
    from: &[u64],
    x: usize,
    low: &mut [u64],
    high: &mut [u32],
)
    requires to_len { (length to.now ≡ 33) × (length from.now ≡ 33) × (e.symbol < 33) × (e.name.section.0 < 33) }
    requires x_in_bounds { (x < length low.old) × (x < length high.old) }
    ensures { AddOut (amount_of e (address_shifts to.now from.now)) x low.old high.old low.new high.new }
{
    let old = Sum {
        high: high[x],
        low: low[x],
    };
    let new = add_amount(old, e, to, from);
    low[x] = new.low;
    high[x] = new.high;
}

// Adds entry `i`, whose field is `g`, where that is a branch in the window. Only then is its symbol read.
fn add_one(
    file: &[u8],
    t: Tables,
    s: ObjectSection,
    i: u64,
    g: ObjectField,
    to: &[u64],
    from: &[u64],
    base: u64,
    low: &mut [u64],
    high: &mut [u32],
)
    requires part_ready { PartReady file.now t s × (i < s.count) × (g ≡ field_in file.now t.format s i) }
    requires to_len { (length to.now ≡ 33) × (length from.now ≡ 33) × (length high.old ≡ length low.old) }
    ensures { StepOut (object_entry file.now t s) (address_shifts to.now from.now) base i low.old high.old low.new high.new }
{
    let n = low.len() as u64;
    let x = cell_of(g, base, n);
    if n <= x {
        return;
    }
    let e = object_entry::entry_at(file, t, s, i);
    add_to_cell(e, to, from, x as usize, low, high);
}

// The offset of a branch from `end` on, if it is below `next`, or `next`.
fn lower(g: ObjectField, end: u64, next: u64) -> u64
    requires { end ≤ next }
    ensures { LowerOut g end next result }
{
    let k = g.kind;
    if !is_branch(k) {
        return next;
    }
    if g.offset < end {
        return next;
    }
    if next <= g.offset {
        return next;
    }
    g.offset
}

// Fills the cells of the window from `base` with the sums of all entries; and where the next window may start: the lowest branch past
// this one, or `limit`.
fn add_all(
    file: &[u8],
    t: Tables,
    s: ObjectSection,
    to: &[u64],
    from: &[u64],
    base: u64,
    limit: u64,
    low: &mut [u64],
    high: &mut [u32],
) -> u64
    requires part_ready { PartReady file.now t s × (base + 4 * length low.old ≤ limit) }
    requires to_len { (length to.now ≡ 33) × (length from.now ≡ 33) × (length high.old ≡ length low.old) }
    ensures { AllOut (object_entry file.now t s) (address_shifts to.now from.now) s.count base (length low.old) result low.new high.new }
{
    low.fill(0);
    high.fill(0);
    let f = t.format;
    let end = base + 4 * low.len() as u64;
    let mut next = limit;
    for i in 0..s.count {
        let g = section_relocation::field_in(file, f, s, i);
        add_one(file, t, s, i, g, to, from, base, low, high);
        next = lower(g, end, next);
    }
    next
}

// The word at an offset of the buffer, in bytes that hold those of the section from `origin` on.
fn read_word(bytes: &[u8], origin: u64, s: ObjectSection, offset: u64) -> u32
    requires { (s.place ≤ offset) × (origin + (offset - s.place) + 4 ≤ length bytes.now) }
    ensures { result ≡ word_from bytes.now origin s offset }
{
    word::get32(bytes, (origin + (offset - s.place)) as usize)
}

// Whether a field is a branch in the window from `base` whose word and cell together are out of range.
fn is_out(
    g: ObjectField,
    s: ObjectSection,
    bytes: &[u8],
    origin: u64,
    base: u64,
    low: &[u64],
    high: &[u32],
) -> bool
    requires { (is_branch g.kind ≡ true → (s.place ≤ g.offset) × (origin + (g.offset - s.place) + 4 ≤ length bytes.now)) × (length high.now ≡ length low.now) }
    ensures { JudgeOut (word_from bytes.now origin s) base low.now high.now g result }
{
    let n = low.len() as u64;
    let c = cell_of(g, base, n);
    if n <= c {
        return false;
    }
    let x = c as usize;
    let v = read_word(bytes, origin, s, g.offset);
    let old = Sum {
        high: high[x],
        low: low[x],
    };
    let sum = branch::add_value(old, v);
    !branch::is_in_range(sum)
}

// The first of `n` entries that is out of range by its cell of the window from `base`, or `n`.
fn scan(
    file: &[u8],
    f: Format,
    s: ObjectSection,
    bytes: &[u8],
    origin: u64,
    base: u64,
    n: u64,
    low: &[u64],
    high: &[u32],
) -> u64
    requires { Readable file.now f s n × (length high.now ≡ length low.now) × (0 < s.size → origin + s.size ≤ length bytes.now) }
    ensures { ScanOut (field_in file.now f s) (word_from bytes.now origin s) base low.now high.now n result }
{
    for i in 0..n {
        let g = section_relocation::field_in(file, f, s, i);
        if is_out(g, s, bytes, origin, base, low, high) {
            return i;
        }
    }
    n
}

// The first entry that is out of range, or the number of entries: window by window. Each window is judged only up to the first that is known so far.
fn sweep(
    file: &[u8],
    t: Tables,
    s: ObjectSection,
    to: &[u64],
    from: &[u64],
    bytes: &[u8],
    origin: u64,
    low: &mut [u64],
    high: &mut [u32],
) -> u64
    requires part_ready { PartReady file.now t s × (0 < s.size → origin + s.size ≤ length bytes.now) }
    requires to_len { (length to.now ≡ 33) × (length from.now ≡ 33) × (length low.old ≡ 65536) × (length high.old ≡ 65536) }
    ensures { FirstOut (object_entry file.now t s) s.count (address_shifts to.now from.now) (word_from bytes.now origin s) result }
{
    let f = t.format;
    let end = s.place + s.size;
    let limit = end + 4 * low.len() as u64;
    let mut first = s.count;
    let mut base = s.place;
    while base < end {
        let next = add_all(file, t, s, to, from, base, limit, low, high);
        first = scan(file, f, s, bytes, origin, base, first, low, high);
        base = next;
    }
    first
}

fn low_space() -> [u64; 65536]
    ensures { length result ≡ 65536 }
{
    [0; 65536]
}

fn high_space() -> [u32; 65536]
    ensures { length result ≡ 65536 }
{
    [0; 65536]
}

// The same as `first_out`, by the windows alone. The cells take 768 KiB of the frame.
fn sweep_windows(
    file: &[u8],
    t: Tables,
    s: ObjectSection,
    to: &[u64],
    from: &[u64],
    bytes: &[u8],
    origin: u64,
) -> u64
    requires part_ready { PartReady file.now t s × (0 < s.size → origin + s.size ≤ length bytes.now) }
    requires to_len { (length to.now ≡ 33) × (length from.now ≡ 33) }
    ensures { FirstOut (object_entry file.now t s) s.count (address_shifts to.now from.now) (word_from bytes.now origin s) result }
{
    let mut low = low_space();
    let mut high = high_space();
    sweep(file, t, s, to, from, bytes, origin, &mut low, &mut high)
}

// The first branch of a table, or the number of its entries.
fn first_branch(file: &[u8], f: Format, s: ObjectSection) -> u64
    requires { Readable file.now f s s.count }
    ensures { FirstBranch (field_in file.now f s) s.count result }
{
    let n = s.count;
    for i in 0..n {
        let g = section_relocation::field_in(file, f, s, i);
        let k = g.kind;
        if is_branch(k) {
            return i;
        }
    }
    n
}

// The sum on the word of entry `i`, a branch, by its value and that entry.
fn start_word(
    file: &[u8],
    t: Tables,
    s: ObjectSection,
    to: &[u64],
    from: &[u64],
    bytes: &[u8],
    origin: u64,
    i: u64,
) -> Sum
    requires part_ready { PartReady file.now t s × (i < s.count) × (is_branch (field_in file.now t.format s i).kind ≡ true) }
    requires to_len { (length to.now ≡ 33) × (length from.now ≡ 33) × (0 < s.size → origin + s.size ≤ length bytes.now) }
    ensures { sum_of result ≡ wide (branch_value (word_from bytes.now origin s (object_entry file.now t s i).field.offset) +ℤ amount_of (object_entry file.now t s i) (address_shifts to.now from.now)) }
{
    let e = object_entry::entry_at(file, t, s, i);
    let g = e.field;
    let v = read_word(bytes, origin, s, g.offset);
    let x = branch::value_of(v);
    add_amount(x, e, to, from)
}

// A sum with entry `i` added.
fn continue_word(
    file: &[u8],
    t: Tables,
    s: ObjectSection,
    to: &[u64],
    from: &[u64],
    i: u64,
    sum: Sum,
) -> Sum
    requires { PartReady file.now t s × (i < s.count) × (length to.now ≡ 33) × (length from.now ≡ 33) }
    ensures { sum_of result ≡ wide (pos (sum_of sum) +ℤ amount_of (object_entry file.now t s i) (address_shifts to.now from.now)) }
{
    let e = object_entry::entry_at(file, t, s, i);
    add_amount(sum, e, to, from)
}

// The first entry out of range of the words so far, the last included, or `n`.
fn close(run: Run, n: u64) -> u64
    ensures { result ≡ closed run n }
{
    if run.first < n {
        return run.first;
    }
    let sum = run.sum;
    if branch::is_in_range(sum) {
        return n;
    }
    run.start
}

// Takes in entry `i`: a branch on the last word, or on one after it; on one before it, the order is not ascending.
fn step_order(
    file: &[u8],
    t: Tables,
    s: ObjectSection,
    to: &[u64],
    from: &[u64],
    bytes: &[u8],
    origin: u64,
    i: u64,
    run: Run,
) -> Run
    requires part_ready { PartReady file.now t s × (i < s.count) × (0 < s.size → origin + s.size ≤ length bytes.now) }
    requires to_len { (length to.now ≡ 33) × (length from.now ≡ 33) }
    requires ascended { Ascended (object_entry file.now t s) (address_shifts to.now from.now) (word_from bytes.now origin s) s.count i run }
    ensures { result.ascending ≡ true → Ascended (object_entry file.now t s) (address_shifts to.now from.now) (word_from bytes.now origin s) s.count (i + 1) result }
{
    let f = t.format;
    let g = section_relocation::field_in(file, f, s, i);
    let k = g.kind;
    if !is_branch(k) {
        return run;
    }
    let last = run.sum;
    if g.offset == run.at {
        return Run {
            ascending: true,
            at: run.at,
            start: run.start,
            first: run.first,
            sum: continue_word(file, t, s, to, from, i, last),
        };
    }
    Run {
        ascending: run.at < g.offset,
        at: g.offset,
        start: i,
        first: close(run, s.count),
        sum: start_word(file, t, s, to, from, bytes, origin, i),
    }
}

// What is known after the first branch, entry `k`.
fn begin(
    file: &[u8],
    t: Tables,
    s: ObjectSection,
    to: &[u64],
    from: &[u64],
    bytes: &[u8],
    origin: u64,
    k: u64,
) -> Run
    requires part_ready { PartReady file.now t s × (k < s.count) × FirstBranch (field_in file.now t.format s) s.count k }
    requires to_len { (length to.now ≡ 33) × (length from.now ≡ 33) × (0 < s.size → origin + s.size ≤ length bytes.now) }
    ensures { Ascended (object_entry file.now t s) (address_shifts to.now from.now) (word_from bytes.now origin s) s.count (k + 1) result }
{
    let f = t.format;
    let g = section_relocation::field_in(file, f, s, k);
    Run {
        ascending: true,
        at: g.offset,
        start: k,
        first: s.count,
        sum: start_word(file, t, s, to, from, bytes, origin, k),
    }
}

// The first entry out of range where the branches ascend; otherwise it is not known.
fn by_order(
    file: &[u8],
    t: Tables,
    s: ObjectSection,
    to: &[u64],
    from: &[u64],
    bytes: &[u8],
    origin: u64,
) -> OrderAnswer
    requires part_ready { PartReady file.now t s × (0 < s.size → origin + s.size ≤ length bytes.now) }
    requires to_len { (length to.now ≡ 33) × (length from.now ≡ 33) }
    ensures { result.known ≡ true → FirstOut (object_entry file.now t s) s.count (address_shifts to.now from.now) (word_from bytes.now origin s) result.first }
{
    let n = s.count;
    let f = t.format;
    let k = first_branch(file, f, s);
    if n <= k {
        return OrderAnswer {
            known: true,
            first: n,
        };
    }
    let mut run = begin(file, t, s, to, from, bytes, origin, k);
    for i in k + 1..n {
        let a = step_order(file, t, s, to, from, bytes, origin, i, run);
        if !a.ascending {
            return OrderAnswer {
                known: false,
                first: n,
            };
        }
        run = a;
    }
    OrderAnswer {
        known: true,
        first: close(run, n),
    }
}

// The first entry of the section's table that is on a branch word out of range, or the number of entries. The section's bytes are those of
// `bytes` from `origin` on. Branches in ascending order, as compilers write them, need no window.
pub fn first_out(
    file: &[u8],
    t: Tables,
    s: ObjectSection,
    to: &[u64],
    from: &[u64],
    bytes: &[u8],
    origin: u64,
) -> u64
    requires part_ready { PartReady file.now t s × (0 < s.size → origin + s.size ≤ length bytes.now) }
    requires to_len { (length to.now ≡ 33) × (length from.now ≡ 33) }
    ensures { FirstOut (object_entry file.now t s) s.count (address_shifts to.now from.now) (word_from bytes.now origin s) result }
{
    let a = by_order(file, t, s, to, from, bytes, origin);
    if a.known {
        return a.first;
    }
    sweep_windows(file, t, s, to, from, bytes, origin)
}
