// A symbol and its name, looked up by the symbol's index.
#![tactic(auto)]

ghost use Rattle.std.specs.Prelude.{◌≡◌};
ghost use Rattle.offset.specs.Report.{report_of_range};
ghost use Rattle.refusal.specs.Part.{range_bytes};
ghost use Rattle.symbol.specs.Entry.{OpenTables};
ghost use Rattle.symbol.specs.Symbol.{scnum_of, symbol_in};
ghost use Rattle.symbol_lookup.specs.Lookup.{symbol_at, name_behind, symbol_name_at, signed64, claims, report_of_symbol, symbol_report};

use format::{FileRange, SymbolIndex};
use refusal::{Head, Refusal};
use symbol::{Symbol, SymbolSection, Tables};

// `scnum` is signed, in two's complement; `visibility` is 0 where `has_visibility` is.
#[repr(C)]
#[derive(Clone, Copy)]
pub struct SymbolReport {
    pub head: Head,
    pub value: u64,
    pub scnum: u64,
    pub ntype: u64,
    pub sclass: u64,
    pub numaux: u64,
    pub has_visibility: u64,
    pub visibility: u64,
}

// The symbol at an index: opening's refusals, then INDEX, AUX, SECTION, NAME, VISIBILITY.
pub fn symbol_at(file: &[u8], i: SymbolIndex) -> Result<Symbol, Refusal>
    ensures cause { result ≡ symbol_at file.now i }
    ensures report { report_of_symbol file.now result ≡ symbol_report file.now i }
{
    let o = header::open(file);
    o.verdict?;
    let y = o.summary;
    let t = symbol::tables_of(file, y);
    symbol::symbol_in(file, t, i)
}

// Where the name of the symbol at an index of a file that is open lies.
fn name_in(file: &[u8], t: Tables, i: SymbolIndex) -> Result<FileRange, Refusal>
    requires { OpenTables file.now t }
    ensures { result ≡ name_behind file.now t i (symbol_in file.now t i) }
{
    symbol::symbol_in(file, t, i)?;
    let e = symbol::entry_in(file, t, i);
    let room = symbol::name_room(file, t, i, e);
    Ok(format::text_of(file, room))
}

// Where the name of the symbol at an index lies; the refusals are those of `symbol_at`.
pub fn symbol_name_range(file: &[u8], i: SymbolIndex) -> Result<FileRange, Refusal>
    ensures cause { result ≡ symbol_name_at file.now i }
    ensures report { report_of_range file.now result ≡ report_of_range file.now (symbol_name_at file.now i) }
{
    let o = header::open(file);
    o.verdict?;
    let y = o.summary;
    let t = symbol::tables_of(file, y);
    name_in(file, t, i)
}

// The name of the symbol at an index: the very bytes of the file, none on a refusal.
pub fn symbol_name<'a>(file: &'a [u8], i: SymbolIndex) -> &'a [u8]
    ensures { result.now ≡ range_bytes file.now (symbol_name_at file.now i) }
{
    let a = symbol_name_range(file, i);
    refusal::part_of(file, a)
}

fn scnum_of(s: SymbolSection) -> u64
    ensures { result ≡ signed64 (scnum_of s) }
{
    match s {
        SymbolSection::Debug => 0xFFFF_FFFF_FFFF_FFFE,
        SymbolSection::Absolute => 0xFFFF_FFFF_FFFF_FFFF,
        SymbolSection::Undefined => 0,
        SymbolSection::In(n) => n.0,
    }
}

fn is_claimed(v: Option<u64>) -> bool
    ensures { result ≡ claims v }
{
    v.is_some()
}

pub fn report_symbol(file: &[u8], a: Result<Symbol, Refusal>) -> SymbolReport
    ensures { result ≡ report_of_symbol file.now a }
{
    match a {
        Err(x) => SymbolReport {
            head: offset::refusal_head(file, x),
            value: 0,
            scnum: 0,
            ntype: 0,
            sclass: 0,
            numaux: 0,
            has_visibility: 0,
            visibility: 0,
        },
        Ok(s) => {
            let section = s.section;
            let v = s.visibility;
            SymbolReport {
                head: refusal::accepted_head(),
                value: s.value,
                scnum: scnum_of(section),
                ntype: s.ntype,
                sclass: s.sclass,
                numaux: s.numaux,
                has_visibility: refusal::one_if(is_claimed(v)),
                visibility: v.unwrap_or(0),
            }
        }
    }
}
