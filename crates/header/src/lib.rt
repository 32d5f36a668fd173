// Opening a file: its headers are judged in the order of document 01, and a summary by value is handed back.
#![tactic(auto)]

ghost use Rattle.std.specs.Prelude.{◌≡◌};
ghost use Rattle.format.specs.Layout.{bits_of};
ghost use Rattle.refusal.specs.Order.{by_verdict, if_accepted};
ghost use Rattle.file_header.specs.Header.{Bounded};
ghost use Rattle.file_tables.specs.Tables.{symbols_check};
ghost use Rattle.header.specs.Open.{blank_summary, summary_with, format_check, refused_by, accepted_with, summary_as, open_of, open_report, report_of_opened};

use file_header::FileHeader;
use file_tables::SymbolTable;
use format::{FileOffset, FileRange, Format};
use refusal::{Head, LimitItem, Refusal};
use section::Section;
use word::Width;

// What an opened file holds: one record for each of the up to 32 sections, and blank records after them.
#[derive(Clone, Copy)]
pub struct Summary {
    pub format: Format,
    pub count: u64,
    pub sections: [Section; 32],
    pub symbols: SymbolTable,
    pub opthdr: u64,
    pub flags: u64,
}

// Not a `Result`: the clause `cause` of `open` says that the summary of a refused file is blank.
#[derive(Clone, Copy)]
pub struct Opened {
    pub verdict: Result<(), Refusal>,
    pub summary: Summary,
}

// `bits` is 32 or 64; `symbols` counts the symbol table's entries, auxiliaries included.
#[repr(C)]
#[derive(Clone, Copy)]
pub struct OpenReport {
    pub head: Head,
    pub bits: u64,
    pub sections: u64,
    pub symbols: u64,
    pub opthdr: u64,
    pub flags: u64,
}

fn refuse(v: Result<(), Refusal>) -> Opened
    ensures { result ≡ record { verdict = v; summary = blank_summary } }
{
    let blank = file_tables::blank_section();
    let symbols = SymbolTable {
        start: FileOffset(0),
        count: 0,
        strings: FileRange {
            start: FileOffset(0),
            length: 0,
        },
    };
    let summary = Summary {
        format: Format::Xcoff32,
        count: 0,
        sections: [blank; 32],
        symbols,
        opthdr: 0,
        flags: 0,
    };
    Opened {
        verdict: v,
        summary,
    }
}

// The answer for a file whose header and sections are accepted.
fn open_symbols(file: &[u8], h: FileHeader, sections: [Section; 32]) -> Opened
    requires { Bounded h }
    ensures { result ≡ by_verdict (symbols_check file.now h) (accepted_with (summary_with file.now h sections)) refused_by }
{
    let v = file_tables::check_symbols(file, h);
    if v.is_err() {
        return refuse(v);
    }
    let symbols = file_tables::find_symbols(file, h);
    let format = h.format;
    let summary = Summary {
        format,
        count: h.nscns,
        sections,
        symbols,
        opthdr: h.opthdr,
        flags: h.flags,
    };
    Opened {
        verdict: Ok(()),
        summary,
    }
}

// The answer for a file with the magic number of `f`.
fn open_as(file: &[u8], f: Format) -> Opened
    ensures { result ≡ by_verdict (format_check f file.now) (accepted_with (summary_as f file.now)) refused_by }
{
    let v = file_header::check_header(file, f);
    if v.is_err() {
        return refuse(v);
    }
    let h = file_header::read_header(file, f);
    let scan = file_tables::scan_sections(file, h);
    let w = scan.verdict;
    if w.is_err() {
        return refuse(w);
    }
    let sections = scan.sections;
    open_symbols(file, h, sections)
}

// Opens a file: whether it is accepted, and what it holds. The summary of a refused file is blank.
pub fn open(file: &[u8]) -> Opened
    ensures cause { result ≡ open_of file.now }
    ensures report { report_of_opened file.now result ≡ open_report file.now }
{
    let len = file.len();
    if format::FILE_LIMIT < len {
        return refuse(Err(Refusal::Limit(LimitItem::File)));
    }
    if len < 2 {
        return refuse(Err(Refusal::Short));
    }
    let a = format::format_of(word::read_field(file, 0, Width::Two.at(0)));
    match a {
        None => refuse(Err(Refusal::Magic)),
        Some(f) => open_as(file, f),
    }
}

// A refused file has no format.
fn bits_by(v: Result<(), Refusal>, f: Format) -> u64
    ensures { result ≡ if_accepted v (bits_of f) 0 }
{
    match v {
        Ok(()) => format::bits_of(f),
        Err(_) => 0,
    }
}

pub fn report_open(file: &[u8], o: Opened) -> OpenReport
    ensures { result ≡ report_of_opened file.now o }
{
    let y = o.summary;
    let symbols = y.symbols;
    let f = y.format;
    let v = o.verdict;
    OpenReport {
        head: offset::report_head(file, v),
        bits: bits_by(v, f),
        sections: y.count,
        symbols: symbols.count,
        opthdr: y.opthdr,
        flags: y.flags,
    }
}
