// Loader symbols listed whole: the module is judged once, and each gets a row of numbers.
#![tactic(auto)]

ghost use Rattle.std.specs.Prelude.{◌≡◌, ◌<◌, length};
ghost use Rattle.loadable.specs.Loadable.{loadable_at};
ghost use Rattle.module_table.specs.Table.{check_by, table_check, rows_by, table_after};
ghost use Rattle.loader_symbol_table.specs.Rows.{loader_symbol_row, loader_symbols};
ghost use Rattle.refusal.specs.Order.{if_accepted};
ghost use Rattle.offset.specs.Report.{report_head};

use loadable::Loadable;
use refusal::Refusal;

// The row of the loader symbol with place `k` in the table, index k + 3.
fn loader_symbol_row(file: &[u8], l: Loadable, k: u64) -> [u64; 9]
    requires { (loadable_at file.now ≡ Ok l) × (k < l.tables.nsyms) }
    ensures { result ≡ loader_symbol_row file.now l k }
{
    let m = l.layout;
    let t = l.tables;
    let f = m.format;
    let symbols = t.symbols;
    let strings = t.strings;
    let i = k + 3;
    let base = (symbols.0 + k * format::LOADER_SYMBOL_LENGTH) as usize;
    let e = loader_symbol::read_entry(file, f, base);
    let field = e.name;
    let name = refusal::range_found(loader_symbol::name_range(file, strings, base, i, field));
    let start = name.start;
    [
        i,
        e.value,
        e.scnum,
        e.smtype,
        e.smclas,
        e.ifile,
        e.parm,
        start.0,
        name.length,
    ]
}

// ROOM 0, or the rows of the module `l`.
fn list_loader_symbols(file: &[u8], l: Loadable, out: &mut [u64]) -> Result<(), Refusal>
    requires { loadable_at file.now ≡ Ok l }
    ensures answer { result ≡ check_by loader_symbols (Ok l) (length out.old) }
    ensures rows { out.new ≡ if_accepted result (rows_by loader_symbols file.now (Ok l)) out.old }
{
    let t = l.tables;
    rows::check_room(out.len() as u64, 9 * t.nsyms)?;
    let row = |k|
        requires { (loadable_at file.now ≡ Ok l) × (k < l.tables.nsyms) }
        ensures { result ≡ loader_symbol_row file.entry.now l k }
    { loader_symbol_row(file, l, k) };
    rows::write_rows(9, t.nsyms, row, out);
    Ok(())
}

// A row of 9 numbers for each loader symbol.
pub fn loader_symbol_table(file: &[u8], out: &mut [u64]) -> Result<(), Refusal>
    ensures cause { result ≡ table_check loader_symbols file.now (length out.old) }
    ensures report { report_head file.now result ≡ report_head file.now (table_check loader_symbols file.now (length out.old)) }
    ensures rows { out.new ≡ table_after loader_symbols file.now out.old }
{
    let l = loadable::module_of(file)?;
    list_loader_symbols(file, l, out)
}
