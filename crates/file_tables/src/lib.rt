// The tables of a file: its sections judged in order, its symbols and its strings.
#![tactic(auto)]

ghost use Rattle.std.specs.Prelude.{◌≡◌, ◌⊎◌, ◌+◌, ◌≤◌, ◌<◌, length};
ghost use Rattle.file_header.specs.Header.{Bounded, HeaderComplete};
ghost use Rattle.file_tables.specs.Tables.{blank_section, judged_at, refused_scan, scan_of, strings_check, symbols_check, strings_length, symbol_table};

use file_header::FileHeader;
use format::{FileOffset, FileRange, SectionNumber, VirtualAddress};
use refusal::{BoundsItem, Refusal};
use section::Section;
use section_kind::SectionKind;

// Where the symbol table and the string table lie. A length of 0: there is no string table.
#[derive(Clone, Copy)]
pub struct SymbolTable {
    pub start: FileOffset,
    pub count: u64,
    pub strings: FileRange,
}

// The records of a file's sections, blank where one is refused. Not a `Result`: the clause of `scan_sections` says that they are blank.
#[derive(Clone, Copy)]
pub struct Scan {
    pub verdict: Result<(), Refusal>,
    pub sections: [Section; 32],
}

pub fn blank_section() -> Section
    ensures { result ≡ blank_section }
{
    Section {
        kind: SectionKind::Deleted,
        paddr: VirtualAddress(0),
        vaddr: VirtualAddress(0),
        size: 0,
        scnptr: FileOffset(0),
        relptr: FileOffset(0),
        lnnoptr: FileOffset(0),
        nreloc: 0,
        nlnno: 0,
        raw: false,
    }
}

fn refuse_scan(x: Refusal) -> Scan
    ensures { result ≡ refused_scan x }
{
    let blank = blank_section();
    Scan {
        verdict: Err(x),
        sections: [blank; 32],
    }
}

// The section with index `i`, from zero, is number i + 1.
fn judge_at(file: &[u8], h: FileHeader, i: u64) -> Result<Section, Refusal>
    requires { HeaderComplete file.now h × Bounded h × (i < h.nscns) }
    ensures { result ≡ judged_at file.now h i }
{
    let f = h.format;
    let base = file_header::section_start(f, h.opthdr, i);
    let s = section::read_section_header(file, f, base as usize);
    section::judge_section(f, file.len() as u64, s, SectionNumber(i + 1))
}

// Each section in order, up to the first that is refused.
pub fn scan_sections(file: &[u8], h: FileHeader) -> Scan
    requires { HeaderComplete file.now h × Bounded h }
    ensures { result ≡ scan_of file.now h }
{
    let blank = blank_section();
    let mut sections = [blank; 32];
    for i in 0..h.nscns {
        let a = judge_at(file, h, i);
        match a {
            Err(x) => {
                return refuse_scan(x);
            }
            Ok(s) => {
                sections[i as usize] = s;
            }
        }
    }
    Scan {
        verdict: Ok(()),
        sections,
    }
}

// The string table at `end`, where the symbol table ends.
fn check_strings(file: &[u8], end: usize) -> Result<(), Refusal>
    requires { end ≤ length file.now }
    ensures { result ≡ strings_check file.now end }
{
    let left = file.len() - end;
    if left == 0 {
        return Ok(());
    }
    if left < 4 {
        return Err(Refusal::Bounds(BoundsItem::StringTable));
    }
    let size = word::get32(file, end);
    if size == 0 {
        return Ok(());
    }
    if size < 4 {
        return Err(Refusal::Strings);
    }
    if left < size as usize {
        return Err(Refusal::Bounds(BoundsItem::StringTable));
    }
    Ok(())
}

// The symbol table, then the string table.
pub fn check_symbols(file: &[u8], h: FileHeader) -> Result<(), Refusal>
    requires { Bounded h }
    ensures { result ≡ symbols_check file.now h }
{
    if h.nsyms == 0 {
        return Ok(());
    }
    let size = h.nsyms * format::SYMBOL_LENGTH;
    let p = h.symptr;
    if word::ends_past(p.0, size, file.len() as u64) {
        return Err(Refusal::Bounds(BoundsItem::SymbolTable));
    }
    check_strings(file, (p.0 + size) as usize)
}

// The string table's own length: 0 where the file ends before it.
fn strings_length(file: &[u8], end: usize) -> u64
    requires { (end ≡ length file.now) ⊎ (end + 4 ≤ length file.now) }
    ensures { result ≡ strings_length file.now end }
{
    if end == file.len() {
        return 0;
    }
    word::get32(file, end) as u64
}

// Where the tables lie that `check_symbols` accepts.
pub fn find_symbols(file: &[u8], h: FileHeader) -> SymbolTable
    requires { (symbols_check file.now h ≡ Ok tt) × Bounded h }
    ensures { result ≡ symbol_table file.now h }
{
    if h.nsyms == 0 {
        return SymbolTable {
            start: FileOffset(0),
            count: 0,
            strings: FileRange {
                start: FileOffset(0),
                length: 0,
            },
        };
    }
    let p = h.symptr;
    let end = p.0 + h.nsyms * format::SYMBOL_LENGTH;
    SymbolTable {
        start: p,
        count: h.nsyms,
        strings: FileRange {
            start: FileOffset(end),
            length: strings_length(file, end as usize),
        },
    }
}
