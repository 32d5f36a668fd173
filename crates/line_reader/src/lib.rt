// The line number tables' reader: the file and the place in it together. It is made for a table, and steps through its entries.
#![tactic(auto)]

ghost use Rattle.std.specs.Prelude.{◌≡◌, ◌+◌, ◌*◌, ◌≤◌, ◌<◌, ◌^◌, ltb, length};
ghost use Rattle.line.specs.Line.{line_length, entry_at, entry_of};
ghost use Rattle.line.specs.Block.{block_rows, block_to};
ghost use Rattle.line.specs.Search.{seen_to, answer_in};

use format::Format;
use line::{LineBlock, LineEntry, LineError, LineFound, LineSearch};

#[derive(Clone, Copy)]
pub struct LineReader<'a> {
    pub file: &'a [u8],
    pub at: usize,
}

// A reader at the first entry of a table.
pub fn reader<'a>(file: &'a [u8], at: usize) -> LineReader<'a>
    ensures { (result.file ≡ file.entry) × (result.at ≡ at) }
{
    LineReader { file, at }
}

// Whether an entry is left before the table's end.
pub fn has_entry<'a>(r: LineReader<'a>, end: usize) -> bool
    ensures { result ≡ ltb r.entry.at end }
{
    line::is_before(r.at, end)
}

// The entry under the reader.
pub fn entry<'a>(r: LineReader<'a>, f: Format) -> LineEntry
    requires { r.at + line_length f ≤ length r.file.now }
    ensures { result ≡ entry_at r.entry.file.now r.entry.at f }
{
    line::entry_at(r.file, r.at, f)
}

// The reader at the next entry.
pub fn step<'a>(r: LineReader<'a>, f: Format) -> LineReader<'a>
    requires { r.at + line_length f < 2 ^ 64 }
    ensures { (result.file ≡ r.entry.file) × (result.at ≡ r.entry.at + line_length f) }
{
    LineReader {
        file: r.file,
        at: line::after(r.at, f),
    }
}

// One pass over a table of `count` entries at `at`: one reader, which steps from entry to entry.
pub fn pass(file: &[u8], at: usize, count: usize, f: Format, address: u64) -> LineSearch
    requires { at + count * line_length f ≤ length file.now }
    ensures { result ≡ seen_to (entry_of file.now at f) address count }
{
    let end = line::table_end(at, count, f);
    let mut r = reader(file, at);
    let mut s = line_search::begin();
    while has_entry(r, end) {
        let e = entry(r, f);
        s = line_search::see(s, address, e);
        r = step(r, f);
    }
    s
}

// The rows of a block of `count` entries at `at`: one reader, as in `pass`.
pub fn pass_block(file: &[u8], at: usize, count: usize, f: Format) -> LineBlock
    requires { (at + count * line_length f ≤ length file.now) × (count ≤ block_rows) }
    ensures { result ≡ block_to (entry_of file.now at f) count }
{
    let end = line::table_end(at, count, f);
    let mut r = reader(file, at);
    let mut b = line::empty_block();
    while has_entry(r, end) {
        let e = entry(r, f);
        b = line::add(b, e);
        r = step(r, f);
    }
    b
}

// The answer for an address over a table of `count` entries at `at`.
pub fn find_in_table(
    file: &[u8],
    at: usize,
    count: usize,
    f: Format,
    address: u64,
) -> Result<LineFound, LineError>
    requires { at + count * line_length f ≤ length file.now }
    ensures { result ≡ answer_in (entry_of file.now at f) address count }
{
    line_search::answer_of(pass(file, at, count, f, address))
}
