// A loader symbol judged: its name, type, and where it is placed.
#![tactic(auto)]

ghost use Rattle.std.specs.Prelude.{◌≡◌, false, ◌||◌, eqb, ◌+◌, ◌*◌, ◌<◌};
ghost use Rattle.loader_symbol.specs.Symbol.{is_found, is_placed, symbol_check, TablesInside};

use format::{FileRange, Format};
use loader_header::LoaderTables;
use loader_symbol::LoaderEntry;
use parts::Parts;
use refusal::Refusal;

fn is_found(a: Result<FileRange, Refusal>) -> bool
    ensures { result ≡ is_found a }
{
    match a {
        Ok(_) => true,
        Err(_) => false,
    }
}

// Whether a section number is that of text, data or bss.
fn is_own_section(p: Parts, scnum: u64) -> bool
    ensures { result ≡ (eqb scnum p.text.number.0 || eqb scnum p.«data».number.0 || eqb scnum p.bss.number.0) }
{
    let text = p.text;
    let data = p.data;
    let bss = p.bss;
    let t = text.number;
    let d = data.number;
    let b = bss.number;
    if scnum == t.0 {
        return true;
    }
    if scnum == d.0 {
        return true;
    }
    scnum == b.0
}

fn is_placed(p: Parts, nimpid: u64, e: LoaderEntry) -> bool
    ensures { result ≡ is_placed p nimpid e }
{
    if e.smtype / 64 % 2 == 1 {
        if e.scnum != 0 {
            return false;
        }
        if e.ifile == 0 {
            return true;
        }
        return e.ifile < nimpid;
    }
    if e.ifile != 0 {
        return false;
    }
    is_own_section(p, e.scnum)
}

// LSYM of the loader symbol with place `k` in the table, index k + 3.
pub fn check_symbol(
    file: &[u8],
    f: Format,
    p: Parts,
    t: LoaderTables,
    k: u64,
) -> Result<(), Refusal>
    requires { TablesInside file.now t × (k < t.nsyms) }
    ensures { result ≡ symbol_check file.now f p t k }
{
    let symbols = t.symbols;
    let base = (symbols.0 + k * format::LOADER_SYMBOL_LENGTH) as usize;
    let e = loader_symbol::read_entry(file, f, base);
    if 4 <= e.smtype % 8 {
        return Err(Refusal::Lsym(k + 3));
    }
    if !is_placed(p, t.nimpid, e) {
        return Err(Refusal::Lsym(k + 3));
    }
    let strings = t.strings;
    let name = e.name;
    let a = loader_symbol::name_range(file, strings, base, k + 3, name);
    if is_found(a) {
        return Ok(());
    }
    Err(Refusal::Lsym(k + 3))
}
