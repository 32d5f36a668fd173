// Entries of an object file with their symbols: each judged by itself, and as it is applied.
#![tactic(auto)]

ghost use Rattle.std.specs.Prelude.{◌≡◌, ◌<◌};
ghost use Rattle.symbol.specs.Entry.{OpenTables};
ghost use Rattle.symbol.specs.Symbol.{section_in};
ghost use Rattle.section_relocation.specs.Entry.{TableReady};
ghost use Rattle.object_entry.specs.Entry.{is_read, section_moved, symbol_moves, own_at, object_entry};

use format::SymbolIndex;
use object_history::ObjectEntry;
use refusal::Refusal;
use section_relocation::ObjectSection;
use symbol::{Symbol, Tables};

fn is_read(a: Result<Symbol, Refusal>) -> bool
    ensures { result ≡ is_read a }
{
    match a {
        Ok(_) => true,
        Err(_) => false,
    }
}

// LREL of entry `i`: its type, its width, its field and its symbol.
pub fn check_own(file: &[u8], t: Tables, s: ObjectSection, i: u64) -> Result<(), Refusal>
    requires { OpenTables file.now t × TableReady file.now t.format s × (i < s.count) }
    ensures { result ≡ own_at file.now t s i }
{
    let f = t.format;
    let e = section_relocation::entry_in(file, f, s, i);
    if !section_relocation::is_held(f, s, e) {
        return Err(Refusal::SectionLrel(section_relocation::name_of(s, i)));
    }
    let index = e.symbol;
    let a = symbol::symbol_in(file, t, index);
    if is_read(a) {
        return Ok(());
    }
    Err(Refusal::SectionLrel(section_relocation::name_of(s, i)))
}

// The number of the section that a symbol with `n_scnum` is in, 0 where it is in none.
fn section_moved(scnum: u64) -> u64
    ensures { result ≡ section_moved (section_in scnum) }
{
    if scnum < 0x8000 {
        return scnum;
    }
    0
}

fn symbol_moves(file: &[u8], t: Tables, i: SymbolIndex) -> u64
    requires { OpenTables file.now t × (i.0 < t.count) }
    ensures { result ≡ symbol_moves file.now t i }
{
    let e = symbol::entry_in(file, t, i);
    section_moved(e.scnum)
}

// Entry `i`, which is good by itself, as it is applied.
pub fn entry_at(file: &[u8], t: Tables, s: ObjectSection, i: u64) -> ObjectEntry
    requires { OpenTables file.now t × TableReady file.now t.format s × (i < s.count) × (own_at file.now t s i ≡ Ok tt) }
    ensures { result ≡ object_entry file.now t s i }
{
    let f = t.format;
    let e = section_relocation::entry_in(file, f, s, i);
    let x = section_relocation::effect_or(f, e);
    let amount = x.amount;
    let index = e.symbol;
    ObjectEntry {
        field: section_relocation::field_of(f, s, e),
        amount,
        symbol: symbol_moves(file, t, index),
        name: section_relocation::name_of(s, i),
    }
}
