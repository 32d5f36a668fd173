// The line table of a text section listed whole: each entry gets a row of numbers. Entries are taken through the reader, a
// block at a time.
#![tactic(auto)]

ghost use Rattle.std.specs.Prelude.{◌≡◌, ◌+◌, ◌*◌, ◌≤◌, ◌<◌, length};
ghost use Rattle.refusal.specs.Order.{if_accepted};
ghost use Rattle.offset.specs.Report.{report_head};
ghost use Rattle.line.specs.Line.{line_length};
ghost use Rattle.line.specs.Block.{block_rows};
ghost use Rattle.line_lookup.specs.Lookup.{entries_in};
ghost use Rattle.rows.specs.Rows.{rows_of};
ghost use Rattle.line_table.specs.Table.{entry_row, check_by, line_table_check, rows_by, lines_after};

use format::SectionNumber;
use line_lookup::LineTable;
use refusal::Refusal;

// How many of the entries that are left a block takes.
fn block_length(left: usize) -> usize
    ensures { (result ≤ block_rows) × ((result ≤ left) × (0 < left → 0 < result)) }
{
    if 8 < left {
        return 8;
    }
    left
}

// Writes the rows of the table `t`.
fn write_lines(file: &[u8], t: LineTable, out: &mut [u64])
    requires { (t.start.0 + t.count * line_length t.format ≤ length file.now) × (length out.old ≡ 3 * t.count) }
    ensures { out.new ≡ rows_of (entry_row (entries_in file.now t)) 0 t.count }
{
    let f = t.format;
    let start = t.start;
    let count = t.count as usize;
    let mut at = start.0 as usize;
    let mut i: usize = 0;
    // A `while`: `i` steps by each block's length, which `block_length` chooses.
    while i < count {
        let m = block_length(count - i);
        let b = line_reader::pass_block(file, at, m, f);
        let numbers = b.numbers;
        rows::write_row(&numbers[..3 * m], i * 3, out);
        at = line::table_end(at, m, f);
        i += m;
    }
}

// ROOM 0, or the rows of the table `t`.
fn list_lines(file: &[u8], t: LineTable, out: &mut [u64]) -> Result<(), Refusal>
    requires { t.start.0 + t.count * line_length t.format ≤ length file.now }
    ensures answer { result ≡ check_by (Ok t) (length out.old) }
    ensures rows { out.new ≡ if_accepted result (rows_by file.now (Ok t)) out.old }
{
    rows::check_room(out.len() as u64, 3 * t.count)?;
    write_lines(file, t, out);
    Ok(())
}

// A row of 3 numbers for each entry of the line table of text section `n`.
pub fn line_table(file: &[u8], n: SectionNumber, out: &mut [u64]) -> Result<(), Refusal>
    ensures cause { result ≡ line_table_check file.now n (length out.old) }
    ensures report { report_head file.now result ≡ report_head file.now (line_table_check file.now n (length out.old)) }
    ensures rows { out.new ≡ lines_after file.now n out.old }
{
    let t = line_find::find_line_table(file, n)?;
    list_lines(file, t, out)
}
