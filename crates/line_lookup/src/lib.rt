// From an address to a line: the line table of a text section found, and searched for an address.
#![tactic(auto)]

ghost use Rattle.std.specs.Prelude.{◌≡◌, ◌+◌, ◌*◌, ◌≤◌, length};
ghost use Rattle.format.specs.Limit.{section_limit};
ghost use Rattle.line.specs.Line.{line_length};
ghost use Rattle.line_lookup.specs.Lookup.{text_check, with_format, report_of_count, find_in, report_of_line};

use format::{FileOffset, Format, SectionNumber};
use header::Summary;
use line::LineFound;
use refusal::{Head, IndexItem, Refusal};
use section_kind::SectionKind;
use section_tables::SectionTable;

// The line table of a text section.
#[derive(Clone, Copy)]
pub struct LineTable {
    pub format: Format,
    pub start: FileOffset,
    pub count: u64,
}

// How many entries a line table has.
#[repr(C)]
#[derive(Clone, Copy)]
pub struct LineCountReport {
    pub head: Head,
    pub count: u64,
}

// The entry's number in the table, from zero, its address and line, and the symbol that opened its group.
#[repr(C)]
#[derive(Clone, Copy)]
pub struct LineReport {
    pub head: Head,
    pub entry: u64,
    pub address: u64,
    pub line: u64,
    pub symbol: u64,
}

// INDEX where the file has no text section `n`.
pub fn check_text(y: Summary, n: SectionNumber) -> Result<(), Refusal>
    requires { y.count ≤ section_limit }
    ensures { result ≡ text_check y n }
{
    section_lookup::check_number(Ok(()), y.count, n)?;
    let sections = y.sections;
    let i = (n.0 - 1) as usize;
    let s = sections[i];
    let kind = s.kind;
    if kind.flags() == SectionKind::TEXT {
        return Ok(());
    }
    Err(Refusal::Index(IndexItem::NoSection(n)))
}

pub fn with_format(f: Format, a: Result<SectionTable, Refusal>) -> Result<LineTable, Refusal>
    ensures { result ≡ with_format f a }
{
    let t = a?;
    let start = t.start;
    Ok(LineTable {
        format: f,
        start,
        count: t.count,
    })
}

pub fn find_in(file: &[u8], t: LineTable, address: u64) -> Result<LineFound, Refusal>
    requires { t.start.0 + t.count * line_length t.format ≤ length file.now }
    ensures { result ≡ find_in file.now address (Ok t) }
{
    let f = t.format;
    let start = t.start;
    let at = start.0 as usize;
    let found = line_reader::find_in_table(file, at, t.count as usize, f, address)?;
    Ok(found)
}

pub fn report_count(file: &[u8], a: Result<LineTable, Refusal>) -> LineCountReport
    ensures { result ≡ report_of_count file.now a }
{
    match a {
        Err(x) => LineCountReport {
            head: offset::refusal_head(file, x),
            count: 0,
        },
        Ok(t) => LineCountReport {
            head: refusal::accepted_head(),
            count: t.count,
        },
    }
}

pub fn report_line(file: &[u8], a: Result<LineFound, Refusal>) -> LineReport
    ensures { result ≡ report_of_line file.now a }
{
    match a {
        Err(x) => LineReport {
            head: offset::refusal_head(file, x),
            entry: 0,
            address: 0,
            line: 0,
            symbol: 0,
        },
        Ok(found) => {
            let mark = found.mark;
            let address = mark.address;
            let symbol = found.symbol;
            LineReport {
                head: refusal::accepted_head(),
                entry: found.number as u64,
                address: address.0,
                line: mark.line,
                symbol: symbol.0,
            }
        }
    }
}
