// The symbol table listed whole: the file is opened once, and each symbol that the walk visits gets a row of numbers.
#![tactic(auto)]

ghost use Rattle.std.specs.Prelude.{◌≡◌, length};
ghost use Rattle.refusal.specs.Order.{by_verdict, if_accepted};
ghost use Rattle.symbol.specs.Entry.{OpenTables};
ghost use Rattle.symbol.specs.Symbol.{symbol_in};
ghost use Rattle.walk.specs.Walk.{walk_in, report_of_walk};
ghost use Rattle.symbol_table.specs.Row.{symbol_row};
ghost use Rattle.symbol_table.specs.Table.{rows_in, room_for, symbol_table, symbols_after};

use format::SymbolIndex;
use refusal::Refusal;
use symbol::{Symbol, Tables};
use walk::WalkEnd;

// The row of the symbol `s` at the index `i`.
fn symbol_row(file: &[u8], t: Tables, i: SymbolIndex, s: Symbol) -> [u64; 15]
    requires { OpenTables file.now t × (symbol_in file.now t i ≡ Ok s) }
    ensures { result ≡ symbol_row file.now i }
{
    let e = symbol::entry_in(file, t, i);
    let name = symbol::name_room(file, t, i, e);
    let start = name.start;
    let y = symbol_lookup::report_symbol(file, Ok(s));
    let c = csect_lookup::report_csect(file, csect_lookup::csect_in(file, t, i));
    let csect = c.head;
    [
        i.0,
        y.value,
        y.scnum,
        y.ntype,
        y.sclass,
        y.numaux,
        y.has_visibility,
        y.visibility,
        start.0,
        name.length,
        csect.number,
        c.kind,
        c.align,
        c.smclas,
        c.length,
    ]
}

// Writes the rows of the symbols that the walk visits.
fn write_symbols(file: &[u8], t: Tables, out: &mut [u64])
    requires { OpenTables file.now t × (length out.old ≡ length (rows_in file.now t)) }
    ensures { out.new ≡ rows_in file.now t }
{
    let count = t.count;
    let mut visited: usize = 0;
    let mut i: u64 = 0;
    while i < count {
        let a = symbol::symbol_in(file, t, SymbolIndex(i));
        let Ok(s) = a else {
            return;
        };
        let row = symbol_row(file, t, SymbolIndex(i), s);
        rows::write_row(&row, visited * 15, out);
        visited += 1;
        i = i + 1 + s.numaux;
    }
}

// The walk over the tables of an opened file, ROOM 0, and the rows.
fn list_symbols(file: &[u8], t: Tables, out: &mut [u64]) -> Result<WalkEnd, Refusal>
    requires { OpenTables file.now t }
    ensures answer { result ≡ by_verdict (room_for file.now t (length out.old)) (Ok (walk_in file.now t)) Err }
    ensures rows { out.new ≡ if_accepted (room_for file.now t (length out.old)) (rows_in file.now t) out.old }
{
    let w = walk::walk_tables(file, t);
    rows::check_room(out.len() as u64, 15 * w.visited)?;
    write_symbols(file, t, out);
    Ok(w)
}

// A row of 15 numbers for each symbol that the walk visits, in its order.
pub fn symbol_table(file: &[u8], out: &mut [u64]) -> Result<WalkEnd, Refusal>
    ensures cause { result ≡ symbol_table file.now (length out.old) }
    ensures report { report_of_walk file.now result ≡ report_of_walk file.now (symbol_table file.now (length out.old)) }
    ensures rows { out.new ≡ symbols_after file.now out.old }
{
    let o = header::open(file);
    o.verdict?;
    let y = o.summary;
    let t = symbol::tables_of(file, y);
    list_symbols(file, t, out)
}
