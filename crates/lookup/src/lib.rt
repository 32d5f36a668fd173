// A loader symbol and its name looked up: the module's refusals, then INDEX. Names are parts of the file.
#![tactic(auto)]

ghost use Rattle.std.specs.Prelude.{◌≡◌, ◌+◌, ◌-◌, ◌*◌, ◌≤◌, ◌<◌};
ghost use Rattle.format.specs.Layout.{loader_symbol_length};
ghost use Rattle.format.specs.Limit.{file_limit};
ghost use Rattle.loader_symbol.specs.Symbol.{entry_start};
ghost use Rattle.lookup.specs.Symbol.{index_check};

use loader_header::LoaderTables;
use loader_symbol::LoaderEntry;
use refusal::{Head, IndexItem, Refusal};

#[repr(C)]
#[derive(Clone, Copy)]
pub struct LoaderSymbolReport {
    pub head: Head,
    pub value: u64,
    pub scnum: u64,
    pub smtype: u64,
    pub smclas: u64,
    pub ifile: u64,
    pub parm: u64,
}

// INDEX where the table has no loader symbol `i`.
pub fn check_index(t: LoaderTables, i: u64) -> Result<(), Refusal>
    requires { t.nsyms ≤ 4294967296 }
    ensures { result ≡ index_check t i }
{
    if i < 3 {
        return Err(Refusal::Index(IndexItem::NoLoaderSymbol(i)));
    }
    if i < 3 + t.nsyms {
        return Ok(());
    }
    Err(Refusal::Index(IndexItem::NoLoaderSymbol(i)))
}

// Where loader symbol `i` of the table starts.
pub fn entry_base(t: LoaderTables, i: u64) -> usize
    requires { (t.symbols.0 + t.nsyms * loader_symbol_length ≤ file_limit) × (index_check t i ≡ Ok tt) }
    ensures { result ≡ entry_start t (i - 3) }
{
    let symbols = t.symbols;
    (symbols.0 + (i - 3) * format::LOADER_SYMBOL_LENGTH) as usize
}
