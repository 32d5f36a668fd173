// The address table as a book: rows, calls and answers, with no word of how they lie in memory. Definitions and theorems, and the
// check of a call's bench and name.
#![tactic(auto)]

ghost use Rattle.std.specs.Prelude.{◌≡◌, ◌||◌, eqb};
ghost use Rattle.address_book.specs.Book.{key};
ghost use Rattle.address_book.specs.Call.{bench_check, key_check, report_of_number};

use refusal::{Head, IndexItem, Refusal};

#[repr(C)]
#[derive(Clone, Copy)]
pub struct NumberReport {
    pub head: Head,
    pub value: u64,
}

fn is_bench(b: u64) -> bool
    ensures { result ≡ (eqb b 1 || eqb b 2) }
{
    if b == 1 {
        return true;
    }
    b == 2
}

// INDEX.
pub fn check_bench(bench: u64) -> Result<(), Refusal>
    ensures { result ≡ bench_check bench }
{
    if is_bench(bench) {
        return Ok(());
    }
    Err(Refusal::Index(IndexItem::NoBench(bench)))
}

// INDEX, LONG.
pub fn check_key(bench: u64, file_id: u64, name: &[u8]) -> Result<(), Refusal>
    ensures { result ≡ key_check (key bench file_id name.now) }
{
    check_bench(bench)?;
    if name.len() == 0 {
        return Err(Refusal::Long);
    }
    if 32 < name.len() {
        return Err(Refusal::Long);
    }
    Ok(())
}

pub fn report_number(a: Result<u64, Refusal>) -> NumberReport
    ensures { result ≡ report_of_number a }
{
    match a {
        Ok(value) => NumberReport {
            head: refusal::accepted_head(),
            value,
        },
        Err(x) => NumberReport {
            head: refusal::refused_head(x, 0),
            value: 0,
        },
    }
}
