// The search of a line table for an address, an entry at a time.
#![tactic(auto)]

ghost use Rattle.std.specs.Prelude.{◌≡◌, ◌+◌, ◌<◌, ◌^◌, true, cond, eqb};
ghost use Rattle.line.specs.Search.{is_below, better, begun, seen, answer_of};

use format::SymbolIndex;
use line::{LineEntry, LineError, LineFound, LineSearch};

// A search that has seen nothing.
pub fn begin() -> LineSearch
    ensures { result ≡ begun }
{
    LineSearch {
        seen: 0,
        ungrouped: false,
        symbol: SymbolIndex(0),
        best: None,
    }
}

fn is_below(b: Option<LineFound>, address: u64) -> bool
    ensures { result ≡ is_below b address }
{
    match b {
        None => true,
        Some(found) => {
            let mark = found.mark;
            let known = mark.address;
            known.0 < address
        }
    }
}

// The nearer one, the earlier where two are as near.
fn nearer(address: u64, b: Option<LineFound>, found: LineFound) -> Option<LineFound>
    ensures { result ≡ better address b found }
{
    let mark = found.mark;
    let own = mark.address;
    if address < own.0 {
        return b;
    }
    if is_below(b, own.0) {
        return Some(found);
    }
    b
}

fn is_ungrouped(s: LineSearch) -> bool
    ensures { result ≡ cond (eqb s.seen 0) true s.ungrouped }
{
    if s.seen == 0 {
        return true;
    }
    s.ungrouped
}

// One entry more.
pub fn see(s: LineSearch, address: u64, e: LineEntry) -> LineSearch
    requires { s.seen + 1 < 2 ^ 64 }
    ensures { result ≡ seen address s e }
{
    let best = s.best;
    let symbol = s.symbol;
    match e {
        LineEntry::Function(k) => LineSearch {
            seen: s.seen + 1,
            ungrouped: s.ungrouped,
            symbol: k,
            best,
        },
        LineEntry::Line(mark) => LineSearch {
            seen: s.seen + 1,
            ungrouped: is_ungrouped(s),
            symbol,
            best: nearer(
                address,
                best,
                LineFound {
                    number: s.seen,
                    mark,
                    symbol,
                },
            ),
        },
    }
}

// The answer that a pass gives.
pub fn answer_of(s: LineSearch) -> Result<LineFound, LineError>
    ensures { result ≡ answer_of s }
{
    if s.ungrouped {
        return Err(LineError::Group);
    }
    s.best.ok_or(LineError::NoLine)
}
