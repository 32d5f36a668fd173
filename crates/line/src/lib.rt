// Line number entries: what stands at a place, and one pass over a table in search of an address.
#![tactic(auto)]

ghost use Rattle.std.specs.Prelude.{◌≡◌, ◌+◌, ◌*◌, ◌≤◌, ◌<◌, ◌^◌, ltb, length};
ghost use Rattle.line.specs.Line.{line_length, line_layout, entry_at, line_row};
ghost use Rattle.line.specs.Block.{block_rows, empty_block, added};
ghost use Rattle.line.specs.Search.{seen, refusal_of};

use format::{Format, SymbolIndex, VirtualAddress};
use refusal::Refusal;
use table_kind::TableKind;
use word::{Field, Width};

// Where an entry keeps its numbers.
#[derive(Clone, Copy)]
pub struct LineLayout {
    pub symbol: Field,
    pub address: Field,
    pub line: Field,
}

// A line entry's address, and its line number as the table has it.
#[derive(Clone, Copy)]
pub struct LineMark {
    pub address: VirtualAddress,
    pub line: u64,
}

// An entry opens a function's group or marks a line.
#[derive(Clone, Copy)]
pub enum LineEntry {
    Function(SymbolIndex),
    Line(LineMark),
}

// The entry found: its number in the table, from zero, what it marks, and the symbol that opened its group.
#[derive(Clone, Copy)]
pub struct LineFound {
    pub number: usize,
    pub mark: LineMark,
    pub symbol: SymbolIndex,
}

// What a pass knows: how many entries it has seen, whether the first of them was a line entry, the symbol of the group that
// it is in, and the best entry so far.
#[derive(Clone, Copy)]
pub struct LineSearch {
    pub seen: usize,
    pub ungrouped: bool,
    pub symbol: SymbolIndex,
    pub best: Option<LineFound>,
}

// Up to 8 rows of entries, in the first numbers.
#[derive(Clone, Copy)]
pub struct LineBlock {
    pub numbers: [u64; 24],
    pub rows: usize,
}

// Why a search ends without an entry.
#[derive(Clone, Copy)]
pub enum LineError {
    Group,
    NoLine,
}

// Document 02's refusals.
impl From<LineError> for Refusal {
    ghost from_gives = { λ e x. x ≡ refusal_of e };

    fn from(e: LineError) -> Refusal {
        match e {
            LineError::Group => Refusal::Group,
            LineError::NoLine => Refusal::NoLine,
        }
    }
}

pub fn line_layout(f: Format) -> LineLayout
    ensures { result ≡ line_layout f }
{
    match f {
        Format::Xcoff32 => LineLayout {
            symbol: Width::Four.at(0),
            address: Width::Four.at(0),
            line: Width::Two.at(4),
        },
        Format::Xcoff64 => LineLayout {
            symbol: Width::Four.at(0),
            address: Width::Eight.at(0),
            line: Width::Four.at(8),
        },
    }
}

// The entry at a place.
pub fn entry_at(file: &[u8], at: usize, f: Format) -> LineEntry
    requires { at + line_length f ≤ length file.now }
    ensures { result ≡ entry_at file.now at f }
{
    let l = line_layout(f);
    let symbol = l.symbol;
    let address = l.address;
    let place = l.line;
    let line = word::read_field(file, at, place);
    if line == 0 {
        return LineEntry::Function(SymbolIndex(word::read_field(file, at, symbol)));
    }
    LineEntry::Line(LineMark {
        address: VirtualAddress(word::read_field(file, at, address)),
        line,
    })
}

// The row of an entry: 1 for a function entry or 0, its symbol index or address, its line.
pub fn line_row(e: LineEntry) -> [u64; 3]
    ensures { result ≡ line_row e }
{
    match e {
        LineEntry::Function(k) => [1, k.0, 0],
        LineEntry::Line(mark) => {
            let address = mark.address;
            [0, address.0, mark.line]
        }
    }
}

// The place after the entry at a place.
pub fn after(at: usize, f: Format) -> usize
    requires { at + line_length f < 2 ^ 64 }
    ensures { result ≡ at + line_length f }
{
    at + table_kind::entry_length(TableKind::Lines, f)
}

// Whether a place is before the end.
pub fn is_before(at: usize, end: usize) -> bool
    ensures { result ≡ ltb at end }
{
    at < end
}

// One past the last byte of a table.
pub fn table_end(at: usize, count: usize, f: Format) -> usize
    requires { at + count * line_length f < 2 ^ 64 }
    ensures { result ≡ at + count * line_length f }
{
    at + count * table_kind::entry_length(TableKind::Lines, f)
}

pub fn empty_block() -> LineBlock
    ensures { result ≡ empty_block }
{
    LineBlock {
        numbers: [0; 24],
        rows: 0,
    }
}

// One entry more.
pub fn add(b: LineBlock, e: LineEntry) -> LineBlock
    requires { b.rows < block_rows }
    ensures { result ≡ added b e }
{
    let row = line_row(e);
    let mut numbers = b.numbers;
    let at = 3 * b.rows;
    numbers[at] = row[0];
    numbers[at + 1] = row[1];
    numbers[at + 2] = row[2];
    LineBlock {
        numbers,
        rows: b.rows + 1,
    }
}
