// The sections of an object file and the entries of one section listed whole: each gets a row of numbers.
#![tactic(auto)]

ghost use Rattle.std.specs.Prelude.{◌≡◌, true, ◌*◌, ◌≤◌, ◌<◌, length};
ghost use Rattle.format.specs.Limit.{section_limit};
ghost use Rattle.refusal.specs.Order.{if_accepted};
ghost use Rattle.offset.specs.Report.{report_head};
ghost use Rattle.section_relocation.specs.Entry.{entry_in, is_held, TableReady};
ghost use Rattle.object.specs.Sections.{object_section};
ghost use Rattle.object.specs.Check.{SectionsReady};
ghost use Rattle.object_plan.specs.Ready.{ObjectReady, PartReady};
ghost use Rattle.rows.specs.Rows.{room_check};
ghost use Rattle.object_table.specs.Table.{part_row, section_rows, section_rows_check, section_rows_after, bits_in, entry_row, entry_rows, held_check, part_of, entries_check_in, entry_rows_check, entry_rows_after};

use field_kind::FieldKind;
use format::{Format, SectionNumber};
use header::Summary;
use refusal::{IndexItem, Refusal};
use section_relocation::ObjectSection;
use symbol::Tables;

// ---- the sections

fn part_row(s: ObjectSection) -> [u64; 5]
    ensures { result ≡ part_row s }
{
    let table = s.table;
    [s.place, s.size, table.0, s.count, s.first]
}

fn write_sections(file: &[u8], y: Summary, t: Tables, out: &mut [u64])
    requires { SectionsReady file.now y t × (length out.old ≡ 5 * y.count) }
    ensures { out.new ≡ section_rows (length file.now) y }
{
    let len = file.len() as u64;
    let mut place: u64 = 0;
    let mut first: u64 = 0;
    for k in 0..y.count {
        let s = object::part_of(y, len, k, place, first);
        let row = part_row(s);
        rows::write_row(&row, k as usize * 5, out);
        place += s.size;
        first += s.count;
    }
}

// ROOM 0, or the rows of the sections.
fn list_sections(file: &[u8], y: Summary, t: Tables, out: &mut [u64]) -> Result<(), Refusal>
    requires { SectionsReady file.now y t }
    ensures answer { result ≡ room_check (length out.old) (5 * y.count) }
    ensures rows { out.new ≡ if_accepted result (section_rows (length file.now) y) out.old }
{
    rows::check_room(out.len() as u64, 5 * y.count)?;
    write_sections(file, y, t, out);
    Ok(())
}

// A row of 5 numbers for each section.
pub fn object_sections(file: &[u8], out: &mut [u64]) -> Result<(), Refusal>
    ensures cause { result ≡ section_rows_check file.now (length out.old) }
    ensures report { report_head file.now result ≡ report_head file.now (section_rows_check file.now (length out.old)) }
    ensures rows { out.new ≡ section_rows_after file.now out.old }
{
    let o = header::open(file);
    o.verdict?;
    let y = o.summary;
    let t = symbol::tables_of(file, y);
    object::check_object(file, y, t)?;
    list_sections(file, y, t, out)
}

// ---- the entries of a section

// How many bits an entry changes.
fn bits_in(k: FieldKind) -> u64
    ensures { result ≡ bits_in k }
{
    match k {
        FieldKind::Nothing => 0,
        FieldKind::Four => 32,
        FieldKind::Eight => 64,
        FieldKind::Branch => 26,
    }
}

// The row of entry `i`.
fn entry_row(file: &[u8], f: Format, s: ObjectSection, i: u64) -> [u64; 6]
    requires { TableReady file.now f s × (i < s.count) × (is_held f s (entry_in file.now f s i) ≡ true) }
    ensures { result ≡ entry_row file.now f s i }
{
    let e = section_relocation::entry_in(file, f, s, i);
    let g = section_relocation::field_in(file, f, s, i);
    let address = e.address;
    let symbol = e.symbol;
    let kind = g.kind;
    [
        address.0,
        symbol.0,
        e.rsize,
        e.rtype,
        bits_in(kind),
        g.offset,
    ]
}

// ROOM 0, or the rows of the section's entries.
fn list_entries(file: &[u8], t: Tables, s: ObjectSection, out: &mut [u64]) -> Result<(), Refusal>
    requires { PartReady file.now t s }
    ensures answer { result ≡ room_check (length out.old) (6 * s.count) }
    ensures rows { out.new ≡ if_accepted result (entry_rows file.now t.format s) out.old }
{
    rows::check_room(out.len() as u64, 6 * s.count)?;
    let f = t.format;
    let row = |i|
        requires { TableReady file.now f s × (i < s.count) × (is_held f s (entry_in file.now f s i) ≡ true) }
        ensures { result ≡ entry_row file.entry.now f s i }
    { entry_row(file, f, s, i) };
    rows::write_rows(6, s.count, row, out);
    Ok(())
}

// INDEX where the file has no text or data section `n`.
fn check_held(y: Summary, n: SectionNumber) -> Result<(), Refusal>
    requires { y.count ≤ section_limit }
    ensures { result ≡ held_check y n }
{
    section_lookup::check_number(Ok(()), y.count, n)?;
    let sections = y.sections;
    let i = (n.0 - 1) as usize;
    let s = sections[i];
    let kind = s.kind;
    if object::is_held_kind(kind) {
        return Ok(());
    }
    Err(Refusal::Index(IndexItem::NoSection(n)))
}

// The section with place `k`: its bytes follow those of the sections before it, and so are its entries numbered.
fn part_at(file: &[u8], y: Summary, t: Tables, k: u64) -> ObjectSection
    requires { SectionsReady file.now y t × (k < y.count) }
    ensures { result ≡ object_section (length file.now) y k }
{
    let len = file.len() as u64;
    let mut place: u64 = 0;
    let mut first: u64 = 0;
    for j in 0..k {
        let s = object::part_of(y, len, j, place, first);
        place += s.size;
        first += s.count;
    }
    object::part_of(y, len, k, place, first)
}

// INDEX, ROOM 0, or the rows of section `n`.
fn entries_in(
    file: &[u8],
    y: Summary,
    t: Tables,
    n: SectionNumber,
    out: &mut [u64],
) -> Result<(), Refusal>
    requires { ObjectReady file.now y t }
    ensures answer { result ≡ entries_check_in (length file.now) y n (length out.old) }
    ensures rows { out.new ≡ if_accepted result (entry_rows file.now y.format (part_of (length file.now) y n)) out.old }
{
    check_held(y, n)?;
    let s = part_at(file, y, t, n.0 - 1);
    list_entries(file, t, s, out)
}

// A row of 6 numbers for each entry of text or data section `n`.
pub fn object_entries(file: &[u8], n: SectionNumber, out: &mut [u64]) -> Result<(), Refusal>
    ensures cause { result ≡ entry_rows_check file.now n (length out.old) }
    ensures report { report_head file.now result ≡ report_head file.now (entry_rows_check file.now n (length out.old)) }
    ensures rows { out.new ≡ entry_rows_after file.now n out.old }
{
    let o = header::open(file);
    o.verdict?;
    let y = o.summary;
    let t = symbol::tables_of(file, y);
    object::check_object(file, y, t)?;
    entries_in(file, y, t, n, out)
}
