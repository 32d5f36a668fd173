// Import ids listed whole: the module is judged once, its id table is passed once, and each id gets a row of numbers.
#![tactic(auto)]

ghost use Rattle.std.specs.Prelude.{◌≡◌, ◌+◌, ◌*◌, ◌≤◌, length, drop};
ghost use Rattle.word.specs.Zero.{first_zero};
ghost use Rattle.format.specs.Range.{bytes_of};
ghost use Rattle.loadable.specs.Loadable.{loadable_at};
ghost use Rattle.rows.specs.Rows.{rows_of};
ghost use Rattle.module_table.specs.Table.{check_by, table_check, rows_by, table_after};
ghost use Rattle.import_table.specs.Imports.{string_row, StringsThere, imports};
ghost use Rattle.refusal.specs.Order.{if_accepted};
ghost use Rattle.offset.specs.Report.{report_head};

use format::FileRange;
use loadable::Loadable;
use refusal::Refusal;

// The length of the string that starts at the place `at` of the import id table.
fn string_length(file: &[u8], ids: FileRange, at: usize) -> usize
    requires { (ids.start.0 + ids.length ≤ length file.now) × (at ≤ ids.length) }
    ensures { result ≡ first_zero (drop at (bytes_of file.now ids)) }
{
    let from = ids.start;
    let start = from.0 as usize + at;
    let end = from.0 as usize + ids.length as usize;
    word::first_zero(&file[start..end])
}

// Writes offset and length of the first `count` strings of the import id table. One pass: each starts behind the zero of the one before.
fn write_strings(file: &[u8], ids: FileRange, count: u64, out: &mut [u64])
    requires { StringsThere file.now ids count × (length out.old ≡ 2 * count) }
    ensures { out.new ≡ rows_of (string_row file.now ids) 0 count }
{
    let from = ids.start;
    let mut at: usize = 0;
    for j in 0..count {
        let len = string_length(file, ids, at);
        let row = [from.0 + at as u64, len as u64];
        rows::write_row(&row, j as usize * 2, out);
        at = at + len + 1;
    }
}

// ROOM 0, or the rows of the module `l`.
fn list_imports(file: &[u8], l: Loadable, out: &mut [u64]) -> Result<(), Refusal>
    requires { loadable_at file.now ≡ Ok l }
    ensures answer { result ≡ check_by imports (Ok l) (length out.old) }
    ensures rows { out.new ≡ if_accepted result (rows_by imports file.now (Ok l)) out.old }
{
    let t = l.tables;
    rows::check_room(out.len() as u64, 6 * t.nimpid)?;
    let ids = t.ids;
    write_strings(file, ids, 3 * t.nimpid, out);
    Ok(())
}

// A row of 6 numbers for each import id.
pub fn import_table(file: &[u8], out: &mut [u64]) -> Result<(), Refusal>
    ensures cause { result ≡ table_check imports file.now (length out.old) }
    ensures report { report_head file.now result ≡ report_head file.now (table_check imports file.now (length out.old)) }
    ensures rows { out.new ≡ table_after imports file.now out.old }
{
    let l = loadable::module_of(file)?;
    list_imports(file, l, out)
}
