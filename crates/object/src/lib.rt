// Object files: the text and data sections with their own relocation tables, judged in order; how many entries there are, and how long the buffer is.
#![tactic(auto)]

ghost use Rattle.std.specs.Prelude.{◌≡◌, ◌≤◌, ◌<◌, length};
ghost use Rattle.format.specs.Limit.{section_limit};
ghost use Rattle.object.specs.Sections.{is_held_kind, table_or, empty_part, part_at};
ghost use Rattle.object.specs.Check.{table_verdict, lacks_data, section_check, sections_check, tables_check, SectionsReady, Ready, object_in, file_of, object_at, report_of_object, object_report};

use format::{FileOffset, SectionNumber, VirtualAddress};
use header::Summary;
use refusal::{Head, ModuleItem, Refusal};
use section::Section;
use section_kind::SectionKind;
use section_relocation::ObjectSection;
use section_tables::SectionTable;
use symbol::Tables;
use table_kind::TableKind;

// What a host needs of an object file: how many addresses a plan has, how many entries there are, and how long the buffer is.
#[derive(Clone, Copy)]
pub struct ObjectFile {
    pub sections: u64,
    pub entries: u64,
    pub length: u64,
}

#[repr(C)]
#[derive(Clone, Copy)]
pub struct ObjectReport {
    pub head: Head,
    pub sections: u64,
    pub entries: u64,
    pub length: u64,
}

// Whether the section is text or data.
pub fn is_held_kind(k: SectionKind) -> bool
    ensures { result ≡ is_held_kind k }
{
    if k.flags() == SectionKind::TEXT {
        return true;
    }
    k.flags() == SectionKind::DATA
}

fn table_or(a: Result<SectionTable, Refusal>) -> SectionTable
    ensures { result ≡ table_or a }
{
    match a {
        Ok(t) => t,
        Err(_) => SectionTable {
            start: FileOffset(0),
            count: 0,
        },
    }
}

fn empty_part(number: SectionNumber, place: u64, first: u64) -> ObjectSection
    ensures { result ≡ empty_part number place first }
{
    ObjectSection {
        number,
        address: VirtualAddress(0),
        size: 0,
        raw: FileOffset(0),
        place,
        table: FileOffset(0),
        count: 0,
        first,
    }
}

// The section with place `k` in the table as a part of the object; one that is neither text nor data gives nothing.
pub fn part_of(y: Summary, len: u64, k: u64, place: u64, first: u64) -> ObjectSection
    requires { (k < y.count) × (y.count ≤ section_limit) }
    ensures { result ≡ part_at len y k place first }
{
    let sections = y.sections;
    let s = sections[k as usize];
    let kind = s.kind;
    let number = SectionNumber(k + 1);
    if !is_held_kind(kind) {
        return empty_part(number, place, first);
    }
    let a = section_tables::find_table(TableKind::Relocations, y, len, number);
    let t = table_or(a);
    let address = s.vaddr;
    let raw = s.scnptr;
    let table = t.start;
    ObjectSection {
        number,
        address,
        size: s.size,
        raw,
        place,
        table,
        count: t.count,
        first,
    }
}

fn table_verdict(a: Result<SectionTable, Refusal>) -> Result<(), Refusal>
    ensures { result ≡ table_verdict a }
{
    let _ = a?;
    Ok(())
}

// Whether the section has a size but no raw data.
fn lacks_data(s: Section) -> bool
    ensures { result ≡ lacks_data s }
{
    if s.size == 0 {
        return false;
    }
    !s.raw
}

// MODULE 3 and BOUNDS of the section with place `k`, where it is text or data.
fn check_section(y: Summary, len: u64, k: u64) -> Result<(), Refusal>
    requires { (k < y.count) × (y.count ≤ section_limit) }
    ensures { result ≡ section_check len y k }
{
    let sections = y.sections;
    let s = sections[k as usize];
    let kind = s.kind;
    if !is_held_kind(kind) {
        return Ok(());
    }
    if lacks_data(s) {
        return Err(Refusal::Module(ModuleItem::NoRawData));
    }
    let a = section_tables::find_table(TableKind::Relocations, y, len, SectionNumber(k + 1));
    table_verdict(a)
}

fn check_sections(y: Summary, len: u64) -> Result<(), Refusal>
    requires { y.count ≤ section_limit }
    ensures { result ≡ sections_check len y }
{
    for k in 0..y.count {
        check_section(y, len, k)?;
    }
    Ok(())
}

// The entries of each section in order: LREL, OVERLAP.
fn check_tables(file: &[u8], y: Summary, t: Tables) -> Result<(), Refusal>
    requires { SectionsReady file.now y t }
    ensures { result ≡ tables_check file.now y }
{
    let len = file.len() as u64;
    let mut place: u64 = 0;
    let mut first: u64 = 0;
    for k in 0..y.count {
        let s = part_of(y, len, k, place, first);
        section_entries::check_entries(file, t, s)?;
        place += s.size;
        first += s.count;
    }
    Ok(())
}

// The object in an opened file, judged: MODULE 3 and BOUNDS by section, then LREL and OVERLAP by entry.
pub fn check_object(file: &[u8], y: Summary, t: Tables) -> Result<(), Refusal>
    requires { Ready file.now y t }
    ensures { result ≡ object_in file.now y }
{
    check_sections(y, file.len() as u64)?;
    check_tables(file, y, t)
}

// How many entries there are, and how long the buffer is, of sections that are accepted.
pub fn measure(file: &[u8], y: Summary, t: Tables) -> ObjectFile
    requires { SectionsReady file.now y t }
    ensures { result ≡ file_of (length file.now) y }
{
    let len = file.len() as u64;
    let mut place: u64 = 0;
    let mut first: u64 = 0;
    for k in 0..y.count {
        let s = part_of(y, len, k, place, first);
        place += s.size;
        first += s.count;
    }
    ObjectFile {
        sections: y.count,
        entries: first,
        length: place,
    }
}

// The object in a file.
pub fn object_of(file: &[u8]) -> Result<ObjectFile, Refusal>
    ensures cause { result ≡ object_at file.now }
    ensures report { report_of_object file.now result ≡ object_report file.now }
{
    let o = header::open(file);
    o.verdict?;
    let y = o.summary;
    let t = symbol::tables_of(file, y);
    check_object(file, y, t)?;
    Ok(measure(file, y, t))
}

pub fn report_object(file: &[u8], a: Result<ObjectFile, Refusal>) -> ObjectReport
    ensures { result ≡ report_of_object file.now a }
{
    match a {
        Err(x) => ObjectReport {
            head: offset::refusal_head(file, x),
            sections: 0,
            entries: 0,
            length: 0,
        },
        Ok(o) => ObjectReport {
            head: refusal::accepted_head(),
            sections: o.sections,
            entries: o.entries,
            length: o.length,
        },
    }
}
