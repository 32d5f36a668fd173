// What the report says of a mended entry: its refusals in order, how many, and the auxiliaries that are passed over.
#![tactic(auto)]

ghost use Rattle.std.specs.Prelude.{◌≡◌, ◌+◌, ◌≤◌, length};
ghost use Rattle.mend.specs.Report.{put_bytes};
ghost use Rattle.mend.specs.Entry.{mended_aux, row_if, rows_by, refused_in};

use format::SymbolIndex;
use mend::EntryRefusals;
use refusal::Refusal;
use word::Width;

// The auxiliaries of an entry as mended: `left` is how many the table has room for.
pub fn mended_aux(r: EntryRefusals, left: u64, numaux: u64) -> u64
    ensures { result ≡ mended_aux r left numaux }
{
    if r.aux {
        return left % 256;
    }
    numaux
}

// One row of the report, where the test holds: index and refusal number. Answers where the next one goes.
fn report_if(report: &mut [u8], on: bool, at: usize, i: SymbolIndex, x: Refusal) -> usize
    requires { at + length (row_if on i x) ≤ length report.old }
    ensures row { report.new ≡ put_bytes at (row_if on i x) report.old }
    ensures next { result ≡ at + length (row_if on i x) }
{
    if on {
        file_copy::put_number(report, at, Width::Four.at(0), i.0);
        file_copy::put_number(report, at, Width::Four.at(4), refusal::number(x));
        return at + 8;
    }
    at
}

// The rows of an entry, in the order of its checks.
pub fn report_entry(report: &mut [u8], at: usize, i: SymbolIndex, r: EntryRefusals) -> usize
    requires { at + length (rows_by i r) ≤ length report.old }
    ensures rows { report.new ≡ put_bytes at (rows_by i r) report.old }
    ensures next { result ≡ at + length (rows_by i r) }
{
    let one = report_if(report, r.aux, at, i, Refusal::Aux(i));
    let two = report_if(report, r.scnum, one, i, Refusal::Scnum(i));
    let three = report_if(report, r.name, two, i, Refusal::Name(i));
    report_if(report, r.visibility, three, i, Refusal::Visibility(i))
}

// How many checks refuse an entry.
pub fn count_refusals(r: EntryRefusals) -> u64
    ensures value { result ≡ refused_in r }
    ensures bound { result ≤ 4 }
{
    refusal::one_if(r.aux)
        + refusal::one_if(r.scnum)
        + refusal::one_if(r.name)
        + refusal::one_if(r.visibility)
}
