// The walk over the symbol table.
#![tactic(auto)]

ghost use Rattle.std.specs.Prelude.{◌≡◌};
ghost use Rattle.symbol.specs.Entry.{OpenTables};
ghost use Rattle.walk.specs.Walk.{walk_in, walk_of, report_of_walk, walk_report};

use format::SymbolIndex;
use refusal::{Head, Refusal};
use symbol::Tables;

// How many entries the walk visited, the index where it ended, and why: accepted at the table's end.
#[derive(Clone, Copy)]
pub struct WalkEnd {
    pub visited: u64,
    pub end: SymbolIndex,
    pub cause: Result<(), Refusal>,
}

// `cause` is why the walk stopped at `end`: number 0 at the table's end.
#[repr(C)]
#[derive(Clone, Copy)]
pub struct WalkReport {
    pub head: Head,
    pub visited: u64,
    pub end: u64,
    pub cause: Head,
}

// The walk over the tables of an opened file.
pub fn walk_tables(file: &[u8], t: Tables) -> WalkEnd
    requires { OpenTables file.now t }
    ensures { result ≡ walk_in file.now t }
{
    let count = t.count;
    let mut i: u64 = 0;
    let mut visited: u64 = 0;
    while i < count {
        let e = symbol::entry_in(file, t, SymbolIndex(i));
        let cause = symbol::check_entry(file, t, SymbolIndex(i), e);
        match cause {
            Err(x) => {
                return WalkEnd {
                    visited,
                    end: SymbolIndex(i),
                    cause: Err(x),
                };
            }
            Ok(()) => {
                i = i + 1 + e.numaux;
                visited += 1;
            }
        }
    }
    WalkEnd {
        visited,
        end: SymbolIndex(i),
        cause: Ok(()),
    }
}

// The walk over the symbol table; one that stops is an answer and names its cause.
pub fn walk(file: &[u8]) -> Result<WalkEnd, Refusal>
    ensures cause { result ≡ walk_of file.now }
    ensures report { report_of_walk file.now result ≡ walk_report file.now }
{
    let o = header::open(file);
    o.verdict?;
    let y = o.summary;
    let t = symbol::tables_of(file, y);
    Ok(walk_tables(file, t))
}

pub fn report_walk(file: &[u8], a: Result<WalkEnd, Refusal>) -> WalkReport
    ensures { result ≡ report_of_walk file.now a }
{
    match a {
        Err(x) => WalkReport {
            head: offset::refusal_head(file, x),
            visited: 0,
            end: 0,
            cause: refusal::accepted_head(),
        },
        Ok(w) => {
            let end = w.end;
            let cause = w.cause;
            WalkReport {
                head: refusal::accepted_head(),
                visited: w.visited,
                end: end.0,
                cause: offset::report_head(file, cause),
            }
        }
    }
}
