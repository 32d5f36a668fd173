// Fills a plan's list from the address table: an import's address by its row, or its recorded value; 0 at every other place.
#![tactic(auto)]

ghost use Rattle.std.specs.Prelude.{◌≡◌, not, ◌+◌, ◌*◌, ◌≤◌, ◌<◌, eqb, length};
ghost use Rattle.format.specs.Layout.{loader_symbol_length};
ghost use Rattle.refusal.specs.declared.RoomItem.TheVariants.{AddressList};
ghost use Rattle.refusal.specs.Order.{refuse_if, if_accepted};
ghost use Rattle.loadable.specs.Valid.{Valid};
ghost use Rattle.offset.specs.Report.{report_head};
ghost use Rattle.address_book.specs.Call.{check_of, memory_in, address_at, filled, Call};
ghost use Rattle.address_table.specs.Table.{book_of};
ghost use Rattle.address_fill.specs.Fill.{Inside, place_in, places_from, places_of, places_at};

use format::{FileOffset, FileRange, Format};
use loadable::Loadable;
use refusal::{Refusal, RoomItem};

// What a fill writes for the loader symbol with place `k`, of a table that starts at `symbols`.
fn address_at(
    file: &[u8],
    f: Format,
    symbols: FileOffset,
    strings: FileRange,
    table: &[u64; 4097],
    bench: u64,
    k: u64,
) -> u64
    requires { Inside file.now symbols strings (k + 1) }
    ensures { result ≡ address_at (book_of table.now) bench (place_in file.now f symbols strings k) }
{
    let base = (symbols.0 + k * format::LOADER_SYMBOL_LENGTH) as usize;
    let e = loader_symbol::read_entry(file, f, base);
    if e.smtype / 64 % 2 != 1 {
        return 0;
    }
    if e.ifile == 0 {
        return 0;
    }
    let name = e.name;
    let a = loader_symbol::name_range(file, strings, base, k + 3, name);
    let part = refusal::part_of(file, a);
    address_table::address_for(table, bench, e.ifile, part, e.value)
}

// Writes the list.
fn fill_list(
    file: &[u8],
    f: Format,
    symbols: FileOffset,
    strings: FileRange,
    table: &[u64; 4097],
    bench: u64,
    list: &mut [u64],
)
    requires { Inside file.now symbols strings (length list.old) }
    ensures { list.new ≡ filled (book_of table.now) bench (places_from file.now f symbols strings 0 (length list.old)) }
{
    for (k, address) in list.iter_mut().enumerate() {
        *address = address_at(file, f, symbols, strings, table, bench, k as u64);
    }
}

// ROOM 2, or the list written.
fn fill_module(
    file: &[u8],
    l: Loadable,
    table: &[u64; 4097],
    bench: u64,
    list: &mut [u64],
) -> Result<(), Refusal>
    requires { Valid file.now l }
    ensures answer { result ≡ refuse_if (not (eqb (length list.old) l.tables.nsyms)) (Refusal.Room AddressList) }
    ensures list { list.new ≡ if_accepted result (filled (book_of table.now) bench (places_of file.now l)) list.old }
{
    let t = l.tables;
    if list.len() as u64 != t.nsyms {
        return Err(Refusal::Room(RoomItem::AddressList));
    }
    let m = l.layout;
    let f = m.format;
    let symbols = t.symbols;
    let strings = t.strings;
    fill_list(file, f, symbols, strings, table, bench, list);
    Ok(())
}

// Fills the list of a plan for the module in `file`: INDEX, the module's refusals, ROOM 2.
pub fn table_fill(
    file: &[u8],
    table: &[u64; 4097],
    bench: u64,
    list: &mut [u64],
) -> Result<(), Refusal>
    ensures cause { result ≡ check_of (book_of table.now) (Call.fill bench (places_at file.now) (length list.old)) }
    ensures report { report_head file.now result ≡ report_head file.now (check_of (book_of table.now) (Call.fill bench (places_at file.now) (length list.old))) }
    ensures list { list.new ≡ memory_in (length (book_of table.now)) (book_of table.now) (Call.fill bench (places_at file.now) (length list.old)) list.old }
{
    address_book::check_bench(bench)?;
    let l = loadable::module_of(file)?;
    fill_module(file, l, table, bench, list)
}
