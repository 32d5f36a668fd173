// Where in the file the section header or table entry lies that a refusal's item names.
#![tactic(auto)]

ghost use Rattle.std.specs.Prelude.{◌≡◌, cond, ◌-◌, ◌≤◌, ◌<◌, length};
ghost use Rattle.format.specs.Limit.{file_limit};
ghost use Rattle.file_header.specs.Header.{Bounded, HeaderComplete, header_check};
ghost use Rattle.offset.specs.Offset.{placed, entry_place, loader_in, loader_starts, starts_as, starts_of, header_place, symbol_place, loader_symbol_place, relocation_place, section_table, section_relocation_place, limit_place, bounds_place, address_place, thread_place, offset_in, offset_of};
ghost use Rattle.offset.specs.Report.{refusal_head, report_head, range_head, report_of_range};

use file_header::FileHeader;
use format::{FileRange, Format};
use refusal::{AddressItem, BoundsItem, Head, LimitItem, Refusal, SectionRelocation, ThreadItem};
use section_kind::SectionKind;
use table_kind::TableKind;
use word::Width;

// Where a file of `length` bytes keeps what items name.
#[derive(Clone, Copy)]
pub struct Starts {
    pub format: Format,
    pub length: u64,
    pub sections: u64,
    pub symbols: u64,
    pub strings: u64,
    pub loader: u64,
    pub lsyms: u64,
    pub lrels: u64,
}

// `off` bytes behind `start`, where that is in the file.
fn place(len: u64, start: u64, off: u64) -> u64
    ensures { result ≡ placed len start off }
{
    if word::ends_past(start, off, len) {
        return 0;
    }
    start + off
}

// Entry `k` of a table of entries of `size` bytes, where it is whole in the file.
fn entry_place(len: u64, start: u64, size: u64, k: u64) -> u64
    requires { (len ≤ file_limit) × (0 < size) × (size ≤ 72) }
    ensures { result ≡ entry_place len start size k }
{
    if len <= k {
        return 0;
    }
    if word::ends_past(start, (k + 1) * size, len) {
        return 0;
    }
    start + k * size
}

fn later(hit: bool, now: u64, before: u64) -> u64
    ensures { result ≡ cond hit now before }
{
    if hit {
        return now;
    }
    before
}

// The raw data pointer of the loader section.
fn loader_start(file: &[u8], h: FileHeader) -> u64
    requires { HeaderComplete file.now h × Bounded h }
    ensures { result ≡ loader_in file.now h h.nscns }
{
    let f = h.format;
    let mut start: u64 = 0;
    for i in 0..h.nscns {
        let base = file_header::section_start(f, h.opthdr, i);
        let s = section::read_section_header(file, f, base as usize);
        let p = s.scnptr;
        start = later(s.flags == SectionKind::LOADER, p.0, start);
    }
    start
}

// Where the loader section's symbols and relocation entries start; 0 where its header is not whole in the file.
#[derive(Clone, Copy)]
pub struct LoaderStarts {
    pub lsyms: u64,
    pub lrels: u64,
}

fn loader_starts(file: &[u8], f: Format, l: u64) -> LoaderStarts
    ensures { result ≡ loader_starts file.now f l }
{
    let len = file.len() as u64;
    let layout = format::loader_layout(f);
    if word::ends_past(l, layout.length, len) {
        return LoaderStarts { lsyms: 0, lrels: 0 };
    }
    let h = loader_header::read_header(file, f, l as usize);
    LoaderStarts {
        lsyms: place(len, l, h.symoff),
        lrels: place(len, l, h.rldoff),
    }
}

// The starts of a file whose headers are whole.
fn starts_as(file: &[u8], f: Format) -> Starts
    requires { (length file.now ≤ file_limit) × (header_check f file.now ≡ Ok tt) }
    ensures { result ≡ starts_as f file.now }
{
    let h = file_header::read_header(file, f);
    let len = file.len() as u64;
    let p = h.symptr;
    let l = loader_start(file, h);
    let tables = loader_starts(file, f, l);
    Starts {
        format: f,
        length: len,
        sections: file_header::section_start(f, h.opthdr, 0),
        symbols: p.0,
        strings: place(len, p.0, h.nsyms * format::SYMBOL_LENGTH),
        loader: place(len, l, 0),
        lsyms: tables.lsyms,
        lrels: tables.lrels,
    }
}

// Where a file keeps what items name: known once its headers are whole.
fn find_starts(file: &[u8]) -> Option<Starts>
    ensures { result ≡ starts_of file.now }
{
    let len = file.len();
    if format::FILE_LIMIT < len {
        return None;
    }
    if len < 2 {
        return None;
    }
    let a = format::format_of(word::read_field(file, 0, Width::Two.at(0)));
    match a {
        None => None,
        Some(f) => {
            let v = file_header::check_header(file, f);
            if v.is_err() {
                return None;
            }
            Some(starts_as(file, f))
        }
    }
}

fn less(n: u64, by: u64) -> u64
    ensures { result ≡ n - by }
{
    if n < by {
        return 0;
    }
    n - by
}

// The header of section `n`, from one.
fn header_place(s: Starts, n: u64) -> u64
    requires { s.length ≤ file_limit }
    ensures { result ≡ header_place s n }
{
    let f = s.format;
    let l = format::section_layout(f);
    entry_place(s.length, s.sections, l.length as u64, less(n, 1))
}

fn symbol_place(s: Starts, i: u64) -> u64
    requires { s.length ≤ file_limit }
    ensures { result ≡ symbol_place s i }
{
    entry_place(s.length, s.symbols, format::SYMBOL_LENGTH, i)
}

fn loader_symbol_place(s: Starts, i: u64) -> u64
    requires { s.length ≤ file_limit }
    ensures { result ≡ loader_symbol_place s i }
{
    entry_place(s.length, s.lsyms, format::LOADER_SYMBOL_LENGTH, less(i, 3))
}

fn relocation_place(s: Starts, i: u64) -> u64
    requires { s.length ≤ file_limit }
    ensures { result ≡ relocation_place s i }
{
    let f = s.format;
    let l = format::relocation_layout(f);
    entry_place(s.length, s.lrels, l.length, i)
}

// Where section `n`'s own relocation table starts, by its header.
fn section_table(file: &[u8], s: Starts, n: u64) -> u64
    requires { (s.length ≤ file_limit) × (s.length ≡ length file.now) }
    ensures { result ≡ section_table file.now s n }
{
    let at = header_place(s, n);
    if at == 0 {
        return 0;
    }
    let f = s.format;
    let h = section::read_section_header(file, f, at as usize);
    let p = h.relptr;
    p.0
}

fn section_relocation_place(file: &[u8], s: Starts, e: SectionRelocation) -> u64
    requires { (s.length ≤ file_limit) × (s.length ≡ length file.now) }
    ensures { result ≡ section_relocation_place file.now s e }
{
    let n = e.section;
    let f = s.format;
    let start = section_table(file, s, n.0);
    entry_place(
        s.length,
        start,
        table_kind::entry_length(TableKind::Relocations, f) as u64,
        e.index,
    )
}

fn limit_place(s: Starts, i: LimitItem) -> u64
    ensures { result ≡ limit_place s i }
{
    match i {
        LimitItem::LoaderSymbols => s.loader,
        LimitItem::Relocations => s.loader,
        LimitItem::File => 0,
        LimitItem::Sections => 0,
        LimitItem::SheetList => 0,
        LimitItem::DataImage => 0,
        LimitItem::SalvageReport => 0,
    }
}

fn bounds_place(s: Starts, i: BoundsItem) -> u64
    requires { s.length ≤ file_limit }
    ensures { result ≡ bounds_place s i }
{
    match i {
        BoundsItem::RawData(n) => header_place(s, n.0),
        BoundsItem::SectionTable(n) => header_place(s, n.0),
        BoundsItem::SymbolTable => 0,
        BoundsItem::StringTable => 0,
    }
}

fn address_place(s: Starts, i: AddressItem) -> u64
    requires { s.length ≤ file_limit }
    ensures { result ≡ address_place s i }
{
    match i {
        AddressItem::Misplaced(n) => header_place(s, n.0),
        AddressItem::BssBelowData(n) => header_place(s, n.0),
    }
}

fn thread_place(s: Starts, i: ThreadItem) -> u64
    requires { s.length ≤ file_limit }
    ensures { result ≡ thread_place s i }
{
    match i {
        ThreadItem::ThreadSection(n) => header_place(s, n.0),
        ThreadItem::ThreadSymbol(r) => relocation_place(s, r.0),
    }
}

fn offset_in(file: &[u8], s: Starts, x: Refusal) -> u64
    requires { (s.length ≤ file_limit) × (s.length ≡ length file.now) }
    ensures { result ≡ offset_in file.now s x }
{
    match x {
        Refusal::Limit(i) => limit_place(s, i),
        Refusal::Kind(n) => header_place(s, n.0),
        Refusal::Bounds(i) => bounds_place(s, i),
        Refusal::Address(i) => address_place(s, i),
        Refusal::Strings => s.strings,
        Refusal::Aux(i) => symbol_place(s, i.0),
        Refusal::Name(i) => symbol_place(s, i.0),
        Refusal::Scnum(i) => symbol_place(s, i.0),
        Refusal::Csect(i) => symbol_place(s, i.0),
        Refusal::Visibility(i) => symbol_place(s, i.0),
        Refusal::Thread(i) => thread_place(s, i),
        Refusal::Loader(_) => s.loader,
        Refusal::Lsym(i) => loader_symbol_place(s, i),
        Refusal::Lrel(i) => relocation_place(s, i.0),
        Refusal::SectionLrel(e) => section_relocation_place(file, s, e),
        Refusal::Overlap(i) => relocation_place(s, i.0),
        Refusal::SectionOverlap(e) => section_relocation_place(file, s, e),
        Refusal::Range(e) => section_relocation_place(file, s, e),
        Refusal::Short => 0,
        Refusal::Magic => 0,
        Refusal::Index(_) => 0,
        Refusal::Module(_) => 0,
        Refusal::Plan(_) => 0,
        Refusal::Room(_) => 0,
        Refusal::Sheet => 0,
        Refusal::Record(_) => 0,
        Refusal::Form => 0,
        Refusal::Clash => 0,
        Refusal::Full => 0,
        Refusal::Absent => 0,
        Refusal::Long => 0,
        Refusal::Shared => 0,
        Refusal::NoLine => 0,
        Refusal::Group => 0,
    }
}

// The file offset of what the item of a refusal names.
pub fn offset_of(file: &[u8], x: Refusal) -> u64
    ensures { result ≡ offset_of file.now x }
{
    let a = find_starts(file);
    match a {
        None => 0,
        Some(s) => offset_in(file, s, x),
    }
}

// The head of a refusal's report.
pub fn refusal_head(file: &[u8], x: Refusal) -> Head
    ensures { result ≡ refusal_head file.now x }
{
    refusal::refused_head(x, offset_of(file, x))
}

// The head of an answer's report: an offset is looked for in a refusal alone.
pub fn report_head(file: &[u8], v: Result<(), Refusal>) -> Head
    ensures { result ≡ report_head file.now v }
{
    match v {
        Ok(()) => refusal::accepted_head(),
        Err(x) => refusal_head(file, x),
    }
}

// A part of the file by where it starts and its length.
#[repr(C)]
#[derive(Clone, Copy)]
pub struct RangeReport {
    pub head: Head,
    pub start: u64,
    pub length: u64,
}

fn range_head(file: &[u8], a: Result<FileRange, Refusal>) -> Head
    ensures { result ≡ range_head file.now a }
{
    match a {
        Ok(_) => refusal::accepted_head(),
        Err(x) => refusal_head(file, x),
    }
}

pub fn report_range(file: &[u8], a: Result<FileRange, Refusal>) -> RangeReport
    ensures { result ≡ report_of_range file.now a }
{
    let head = range_head(file, a);
    let p = refusal::range_found(a);
    let start = p.start;
    RangeReport {
        head,
        start: start.0,
        length: p.length,
    }
}
