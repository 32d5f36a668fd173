// Relocation entries listed whole: the module is judged once, and each gets a row of numbers.
#![tactic(auto)]

ghost use Rattle.std.specs.Prelude.{◌≡◌, ◌<◌, length};
ghost use Rattle.loadable.specs.Valid.{Valid};
ghost use Rattle.module_table.specs.Table.{check_by, table_check, rows_by, table_after};
ghost use Rattle.relocation_table.specs.Rows.{relocation_row, relocations};
ghost use Rattle.refusal.specs.Order.{if_accepted};
ghost use Rattle.offset.specs.Report.{report_head};

use loadable::Loadable;
use refusal::Refusal;

// The row of relocation entry `i`.
fn relocation_row(file: &[u8], l: Loadable, i: u64) -> [u64; 8]
    requires { Valid file.now l × (i < l.tables.nreloc) }
    ensures { result ≡ relocation_row file.now l i }
{
    let m = l.layout;
    let t = l.tables;
    let f = m.format;
    let e = relocation::entry_in(file, f, t, i);
    let r = plan::relocation_at(file, l, i);
    let address = e.address;
    let place = r.place;
    [
        address.0,
        e.symbol,
        e.rtype,
        e.scnum,
        refusal::one_if(place.text),
        place.offset,
        relocation::bytes_wide(place.wide),
        refusal::one_if(r.minus),
    ]
}

// ROOM 0, or the rows of the module `l`.
fn list_relocations(file: &[u8], l: Loadable, out: &mut [u64]) -> Result<(), Refusal>
    requires { Valid file.now l }
    ensures answer { result ≡ check_by relocations (Ok l) (length out.old) }
    ensures rows { out.new ≡ if_accepted result (rows_by relocations file.now (Ok l)) out.old }
{
    let t = l.tables;
    rows::check_room(out.len() as u64, 8 * t.nreloc)?;
    let row = |i|
        requires { Valid file.now l × (i < l.tables.nreloc) }
        ensures { result ≡ relocation_row file.entry.now l i }
    { relocation_row(file, l, i) };
    rows::write_rows(8, t.nreloc, row, out);
    Ok(())
}

// A row of 8 numbers for each relocation entry.
pub fn relocation_table(file: &[u8], out: &mut [u64]) -> Result<(), Refusal>
    ensures cause { result ≡ table_check relocations file.now (length out.old) }
    ensures report { report_head file.now result ≡ report_head file.now (table_check relocations file.now (length out.old)) }
    ensures rows { out.new ≡ table_after relocations file.now out.old }
{
    let l = loadable::module_of(file)?;
    list_relocations(file, l, out)
}
