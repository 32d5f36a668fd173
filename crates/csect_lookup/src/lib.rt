// The csect entry of a symbol, looked up by the symbol's index: a label with its container.
#![tactic(auto)]

ghost use Rattle.std.specs.Prelude.{◌≡◌, cond};
ghost use Rattle.symbol.specs.Entry.{OpenTables};
ghost use Rattle.csect_lookup.specs.Lookup.{is_contained, is_sd, csect_in, csect_at, type_number, report_of_csect, csect_report};

use csect::{Csect, CsectType};
use format::SymbolIndex;
use refusal::{Head, Refusal};
use symbol::Tables;

// `kind` is 0 ER, 1 SD, 2 LD, 3 CM.
#[repr(C)]
#[derive(Clone, Copy)]
pub struct CsectReport {
    pub head: Head,
    pub kind: u64,
    pub align: u64,
    pub smclas: u64,
    pub length: u64,
}

fn is_sd(a: Result<Csect, Refusal>) -> bool
    ensures { result ≡ is_sd a }
{
    match a {
        Err(_) => false,
        Ok(c) => {
            let k = c.kind;
            match k {
                CsectType::Er => false,
                CsectType::Sd => true,
                CsectType::Ld => false,
                CsectType::Cm => false,
            }
        }
    }
}

// An LD with its container: the entry at its length must read as an SD csect of a smaller index.
fn judge_label(file: &[u8], t: Tables, i: SymbolIndex, c: Csect) -> Result<Csect, Refusal>
    requires { OpenTables file.now t }
    ensures { result ≡ cond (is_contained file.now t i c CsectType.Ld) (Ok c) (Err (Refusal.Csect i)) }
{
    if i.0 <= c.length {
        return Err(Refusal::Csect(i));
    }
    let container = csect::own_csect(file, t, SymbolIndex(c.length));
    if is_sd(container) {
        return Ok(c);
    }
    Err(Refusal::Csect(i))
}

// The csect entry of the symbol at an index of a file that is open.
pub fn csect_in(file: &[u8], t: Tables, i: SymbolIndex) -> Result<Csect, Refusal>
    requires { OpenTables file.now t }
    ensures { result ≡ csect_in file.now t i }
{
    let c = csect::own_csect(file, t, i)?;
    let k = c.kind;
    let CsectType::Ld = k else {
        return Ok(c);
    };
    judge_label(file, t, i, c)
}

// The csect entry of the symbol at an index: opening's refusals, the symbol's own, then CSECT.
pub fn csect_at(file: &[u8], i: SymbolIndex) -> Result<Csect, Refusal>
    ensures cause { result ≡ csect_at file.now i }
    ensures report { report_of_csect file.now result ≡ csect_report file.now i }
{
    let o = header::open(file);
    o.verdict?;
    let y = o.summary;
    let t = symbol::tables_of(file, y);
    csect_in(file, t, i)
}

fn type_number(k: CsectType) -> u64
    ensures { result ≡ type_number k }
{
    match k {
        CsectType::Er => 0,
        CsectType::Sd => 1,
        CsectType::Ld => 2,
        CsectType::Cm => 3,
    }
}

pub fn report_csect(file: &[u8], a: Result<Csect, Refusal>) -> CsectReport
    ensures { result ≡ report_of_csect file.now a }
{
    match a {
        Err(x) => CsectReport {
            head: offset::refusal_head(file, x),
            kind: 0,
            align: 0,
            smclas: 0,
            length: 0,
        },
        Ok(c) => {
            let kind = c.kind;
            CsectReport {
                head: refusal::accepted_head(),
                kind: type_number(kind),
                align: c.align,
                smclas: c.smclas,
                length: c.length,
            }
        }
    }
}
