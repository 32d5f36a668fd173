// The csect entry of a symbol: its last auxiliary.
#![tactic(auto)]

ghost use Rattle.std.specs.Prelude.{◌≡◌, ◌+◌, ◌%◌, ◌≤◌, length};
ghost use Rattle.format.specs.Layout.{symbol_length};
ghost use Rattle.symbol.specs.Entry.{OpenTables};
ghost use Rattle.csect.specs.Csect.{length_at, aux_at, is_marked, type_of, is_mapping_class, is_mapped, typed_csect, own_after};
ghost use Rattle.symbol.specs.Symbol.{symbol_in};

use format::{Format, SymbolIndex};
use refusal::Refusal;
use symbol::{Symbol, Tables};
use word::Width;

// What the 18 bytes of a csect auxiliary hold.
#[derive(Clone, Copy)]
pub struct CsectAux {
    pub length: u64,
    pub smtyp: u64,
    pub smclas: u64,
    pub auxtype: u64,
}

// External reference, section definition, label, common.
#[derive(Clone, Copy)]
pub enum CsectType {
    Er,
    Sd,
    Ld,
    Cm,
}

// The type, the alignment log, the storage mapping class, and the length or, of a label, its container's index.
#[derive(Clone, Copy)]
pub struct Csect {
    pub kind: CsectType,
    pub align: u64,
    pub smclas: u64,
    pub length: u64,
}

fn read_length(file: &[u8], f: Format, base: usize) -> u64
    requires { base + symbol_length ≤ length file.now }
    ensures { result ≡ length_at f base file.now }
{
    let low = word::read_field(file, base, Width::Four.at(0));
    match f {
        Format::Xcoff32 => low,
        Format::Xcoff64 => word::read_field(file, base, Width::Four.at(12)) * 4294967296 + low,
    }
}

fn read_aux(file: &[u8], f: Format, base: usize) -> CsectAux
    requires { base + symbol_length ≤ length file.now }
    ensures { result ≡ aux_at f base file.now }
{
    CsectAux {
        length: read_length(file, f, base),
        smtyp: word::read_field(file, base, Width::One.at(10)),
        smclas: word::read_field(file, base, Width::One.at(11)),
        auxtype: word::read_field(file, base, Width::One.at(17)),
    }
}

fn is_marked(f: Format, a: CsectAux) -> bool
    ensures { result ≡ is_marked f a }
{
    match f {
        Format::Xcoff32 => true,
        Format::Xcoff64 => a.auxtype == 251,
    }
}

fn type_of(low: u64) -> Option<CsectType>
    ensures { result ≡ type_of low }
{
    match low {
        0 => Some(CsectType::Er),
        1 => Some(CsectType::Sd),
        2 => Some(CsectType::Ld),
        3 => Some(CsectType::Cm),
        _ => None,
    }
}

fn is_mapping_class(m: u64) -> bool
    ensures { result ≡ is_mapping_class m }
{
    if m <= 13 {
        return true;
    }
    if m < 15 {
        return false;
    }
    if m <= 18 {
        return true;
    }
    if m < 20 {
        return false;
    }
    m <= 22
}

fn is_mapped(k: CsectType, m: u64) -> bool
    ensures { result ≡ is_mapped k m }
{
    match k {
        CsectType::Er => true,
        CsectType::Ld => true,
        CsectType::Cm => is_mapping_class(m),
        CsectType::Sd => {
            if m == 9 {
                return false;
            }
            if m == 11 {
                return false;
            }
            is_mapping_class(m)
        }
    }
}

// The csect entry `a` of the symbol `s`, an LD's container not looked at.
fn judge_csect(f: Format, i: SymbolIndex, s: Symbol, a: CsectAux) -> Result<Csect, Refusal>
    ensures { result ≡ typed_csect f i s a (type_of (a.smtyp % 8)) }
{
    let t = type_of(a.smtyp % 8);
    let Some(k) = t else {
        return Err(Refusal::Csect(i));
    };
    if !visibility::is_csect_class(s.sclass) {
        return Err(Refusal::Csect(i));
    }
    if s.numaux == 0 {
        return Err(Refusal::Csect(i));
    }
    if !is_marked(f, a) {
        return Err(Refusal::Csect(i));
    }
    if !is_mapped(k, a.smclas) {
        return Err(Refusal::Csect(i));
    }
    Ok(Csect {
        kind: k,
        align: a.smtyp / 8,
        smclas: a.smclas,
        length: a.length,
    })
}

// The symbol at `i` and its own csect entry: the symbol's refusal is handed on.
pub fn own_csect(file: &[u8], t: Tables, i: SymbolIndex) -> Result<Csect, Refusal>
    requires { OpenTables file.now t }
    ensures { result ≡ own_after file.now t i (symbol_in file.now t i) }
{
    let answer = symbol::symbol_in(file, t, i);
    let Ok(s) = answer else {
        let Err(x) = answer else {
            return Err(Refusal::Csect(i));
        };
        return Err(x);
    };
    let f = t.format;
    let start = t.start;
    let base = start.0 + (i.0 + s.numaux) * format::SYMBOL_LENGTH;
    let a = read_aux(file, f, base as usize);
    judge_csect(f, i, s, a)
}
