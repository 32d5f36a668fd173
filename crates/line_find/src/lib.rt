// A section's line table found, and the line of an address.
#![tactic(auto)]

ghost use Rattle.std.specs.Prelude.{◌≡◌, ◌≤◌};
ghost use Rattle.format.specs.Limit.{section_limit};
ghost use Rattle.line_lookup.specs.Lookup.{line_table_in, line_table_at, report_of_count, count_report, line_at, report_of_line, line_report};

use format::SectionNumber;
use header::Summary;
use line::LineFound;
use line_lookup::LineTable;
use refusal::Refusal;
use table_kind::TableKind;

// The line table of section `n` of an opened file of `len` bytes.
fn line_table_in(len: u64, y: Summary, n: SectionNumber) -> Result<LineTable, Refusal>
    requires { y.count ≤ section_limit }
    ensures { result ≡ line_table_in len y n }
{
    line_lookup::check_text(y, n)?;
    let f = y.format;
    let a = section_tables::find_table(TableKind::Lines, y, len, n);
    line_lookup::with_format(f, a)
}

// The line table of text section `n`, and how many entries it has.
pub fn find_line_table(file: &[u8], n: SectionNumber) -> Result<LineTable, Refusal>
    ensures cause { result ≡ line_table_at file.now n }
    ensures report { report_of_count file.now result ≡ count_report file.now n }
{
    let o = header::open(file);
    o.verdict?;
    let y = o.summary;
    line_table_in(file.len() as u64, y, n)
}

// The entry of text section `n` with the greatest address not above `address`, the first such in table order.
pub fn find_line(file: &[u8], n: SectionNumber, address: u64) -> Result<LineFound, Refusal>
    ensures cause { result ≡ line_at file.now n address }
    ensures report { report_of_line file.now result ≡ line_report file.now n address }
{
    let t = find_line_table(file, n)?;
    line_lookup::find_in(file, t, address)
}
