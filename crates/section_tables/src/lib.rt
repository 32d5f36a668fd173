// The tables that a section has of its own, relocations and line numbers: where one lies, and how many entries it has.
#![tactic(auto)]

ghost use Rattle.std.specs.Prelude.{◌≡◌, ◌*◌, ◌≤◌, ◌<◌};
ghost use Rattle.word.specs.Test.{past};
ghost use Rattle.format.specs.Limit.{section_limit};
ghost use Rattle.table_kind.specs.Kind.{entry_length};
ghost use Rattle.section_tables.specs.Tables.{header_start, header_count, overflow_count, is_overflowed, is_overflow_of, overflow_step, overflow_in, table_at, table_of};

use format::{FileOffset, Format, SectionNumber};
use header::Summary;
use refusal::{BoundsItem, Refusal};
use section::Section;
use section_kind::SectionKind;
use table_kind::TableKind;

// A table in the file, and how many entries it has.
#[derive(Clone, Copy)]
pub struct SectionTable {
    pub start: FileOffset,
    pub count: u64,
}

// How many overflow headers a section has, and the count that the last of them gives.
#[derive(Clone, Copy)]
pub struct OverflowHeaders {
    pub headers: u64,
    pub count: u64,
}

fn header_start(k: TableKind, s: Section) -> FileOffset
    ensures { result ≡ header_start k s }
{
    match k {
        TableKind::Relocations => s.relptr,
        TableKind::Lines => s.lnnoptr,
    }
}

fn header_count(k: TableKind, s: Section) -> u64
    ensures { result ≡ header_count k s }
{
    match k {
        TableKind::Relocations => s.nreloc,
        TableKind::Lines => s.nlnno,
    }
}

// The count that the overflow header `s` gives.
fn overflow_count(k: TableKind, s: Section) -> u64
    ensures { result ≡ overflow_count k s }
{
    match k {
        TableKind::Relocations => {
            let address = s.paddr;
            address.0
        }
        TableKind::Lines => {
            let address = s.vaddr;
            address.0
        }
    }
}

// Whether the count stands in an overflow header.
fn is_overflowed(k: TableKind, f: Format, s: Section) -> bool
    ensures { result ≡ is_overflowed k f s }
{
    match f {
        Format::Xcoff32 => header_count(k, s) == 65535,
        Format::Xcoff64 => false,
    }
}

// Whether `s` is an overflow header of section `n`.
fn is_overflow_of(s: Section, n: SectionNumber) -> bool
    ensures { result ≡ is_overflow_of s n }
{
    let kind = s.kind;
    if kind.flags() == SectionKind::OVRFLO {
        return s.nreloc == n.0;
    }
    false
}

// One section header more.
fn overflow_step(k: TableKind, n: SectionNumber, s: Section, o: OverflowHeaders) -> OverflowHeaders
    requires { o.headers < section_limit }
    ensures { result ≡ overflow_step k n s o }
{
    if is_overflow_of(s, n) {
        return OverflowHeaders {
            headers: o.headers + 1,
            count: overflow_count(k, s),
        };
    }
    o
}

fn find_overflow(
    k: TableKind,
    sections: [Section; 32],
    count: u64,
    n: SectionNumber,
) -> OverflowHeaders
    requires { count ≤ section_limit }
    ensures { result ≡ overflow_in k sections n count }
{
    let mut o = OverflowHeaders {
        headers: 0,
        count: 0,
    };
    for s in &sections[..count as usize] {
        o = overflow_step(k, n, *s, o);
    }
    o
}

// Whether `count` entries from `start` end past the file's `len` bytes, in exact arithmetic.
fn ends_past(k: TableKind, f: Format, start: u64, count: u64, len: u64) -> bool
    ensures { result ≡ past start (count * entry_length k f) len }
{
    if len < start {
        return true;
    }
    (len - start) / (table_kind::entry_length(k, f) as u64) < count
}

// The table of section `n` from `start`, or BOUNDS.
fn table_at(
    k: TableKind,
    f: Format,
    len: u64,
    n: SectionNumber,
    start: FileOffset,
    count: u64,
) -> Result<SectionTable, Refusal>
    ensures { result ≡ table_at k f len n start count }
{
    if ends_past(k, f, start.0, count, len) {
        return Err(Refusal::Bounds(BoundsItem::SectionTable(n)));
    }
    Ok(SectionTable { start, count })
}

// The table of section `n` of an opened file of `len` bytes: BOUNDS where it passes the file's end, or where its overflow
// header is not there exactly once.
pub fn find_table(
    k: TableKind,
    y: Summary,
    len: u64,
    n: SectionNumber,
) -> Result<SectionTable, Refusal>
    requires { (0 < n.0) × (n.0 ≤ y.count) × (y.count ≤ section_limit) }
    ensures { result ≡ table_of k y len n }
{
    let sections = y.sections;
    let f = y.format;
    let i = (n.0 - 1) as usize;
    let s = sections[i];
    let start = header_start(k, s);
    if is_overflowed(k, f, s) {
        let o = find_overflow(k, sections, y.count, n);
        if o.headers != 1 {
            return Err(Refusal::Bounds(BoundsItem::SectionTable(n)));
        }
        return table_at(k, f, len, n, start, o.count);
    }
    table_at(k, f, len, n, start, header_count(k, s))
}
