// A file's symbol table salvaged: a copy with every entry mended, and the report.
#![tactic(auto)]

ghost use Rattle.std.specs.Prelude.{◌≡◌, ◌*◌, ◌≤◌, length};
ghost use Rattle.refusal.specs.Order.{by_verdict, if_accepted};
ghost use Rattle.symbol.specs.Entry.{OpenTables};
ghost use Rattle.mend.specs.Mend.{put_all};
ghost use Rattle.mend.specs.Report.{report_bytes, put_bytes};
ghost use Rattle.salvage.specs.Salvage.{changes_in};
ghost use Rattle.salvage.specs.Answer.{room_in, count_answer, salvage_answer, copy_after, report_after, report_of_count};

use format::SymbolIndex;
use refusal::Refusal;
use symbol::Tables;

// How many changes the tables of an opened file need.
fn count_tables(file: &[u8], t: Tables) -> u64
    requires { OpenTables file.now t }
    ensures value { result ≡ length (changes_in file.now t) }
    ensures bound { result ≤ 4 * t.count }
{
    let count = t.count;
    let mut i: u64 = 0;
    let mut n: u64 = 0;
    while i < count {
        let e = symbol::entry_in(file, t, SymbolIndex(i));
        let r = mend::refusals_of(file, t, SymbolIndex(i), e);
        n += mend_report::count_refusals(r);
        i = i + 1 + mend_report::mended_aux(r, count - (i + 1), e.numaux);
    }
    n
}

// Makes them in `copy`; what is changed is read from `file`.
fn mend_tables(file: &[u8], copy: &mut [u8], t: Tables)
    requires { OpenTables file.now t × (length copy.old ≡ length file.now) }
    ensures { copy.new ≡ put_all t (changes_in file.now t) copy.old }
{
    let count = t.count;
    let mut i: u64 = 0;
    while i < count {
        let e = symbol::entry_in(file, t, SymbolIndex(i));
        let r = mend::refusals_of(file, t, SymbolIndex(i), e);
        mend::mend_entry(copy, t, SymbolIndex(i), e, r);
        i = i + 1 + mend_report::mended_aux(r, count - (i + 1), e.numaux);
    }
}

// Reports them, 8 bytes each; what is behind them in `report` is untouched.
fn report_tables(file: &[u8], report: &mut [u8], t: Tables)
    requires { OpenTables file.now t × (length (report_bytes (changes_in file.now t)) ≤ length report.old) }
    ensures { report.new ≡ put_bytes 0 (report_bytes (changes_in file.now t)) report.old }
{
    let count = t.count;
    let mut i: u64 = 0;
    let mut at: usize = 0;
    while i < count {
        let e = symbol::entry_in(file, t, SymbolIndex(i));
        let r = mend::refusals_of(file, t, SymbolIndex(i), e);
        at = mend_report::report_entry(report, at, SymbolIndex(i), r);
        i = i + 1 + mend_report::mended_aux(r, count - (i + 1), e.numaux);
    }
}

// The copy and the report of an opened file whose symbol table shares nothing.
fn salvage_tables(
    file: &[u8],
    copy: &mut [u8],
    report: &mut [u8],
    t: Tables,
) -> Result<u64, Refusal>
    requires { OpenTables file.now t }
    ensures answer { result ≡ by_verdict (room_in file.now t (length copy.old) (length report.old)) (Ok (length (changes_in file.now t))) Err }
    ensures mended { copy.new ≡ if_accepted (room_in file.now t (length copy.old) (length report.old)) (put_all t (changes_in file.now t) file.now) copy.old }
    ensures reported { report.new ≡ if_accepted (room_in file.now t (length copy.old) (length report.old)) (put_bytes 0 (report_bytes (changes_in file.now t)) report.old) report.old }
{
    let n = count_tables(file, t);
    salvage::check_room(file.len() as u64, n, copy.len() as u64, report.len() as u64)?;
    file_copy::copy_file(file, copy);
    mend_tables(file, copy, t);
    report_tables(file, report, t);
    Ok(n)
}

// How many changes salvaging the file makes.
pub fn salvage_count(file: &[u8]) -> Result<u64, Refusal>
    ensures cause { result ≡ count_answer file.now }
    ensures report { report_of_count file.now result ≡ report_of_count file.now (count_answer file.now) }
{
    let o = header::open(file);
    o.verdict?;
    let y = o.summary;
    if shared_symbols::is_shared(y) {
        return Err(Refusal::Shared);
    }
    let t = symbol::tables_of(file, y);
    Ok(count_tables(file, t))
}

// Writes the salvaged file into `copy`, of the file's length, and a row of 8 bytes for each change into `report`.
pub fn salvage(file: &[u8], copy: &mut [u8], report: &mut [u8]) -> Result<u64, Refusal>
    ensures cause { result ≡ salvage_answer file.now (length copy.old) (length report.old) }
    ensures answer { report_of_count file.now result ≡ report_of_count file.now (salvage_answer file.now (length copy.old) (length report.old)) }
    ensures copied { copy.new ≡ copy_after file.now copy.old (length report.old) }
    ensures reported { report.new ≡ report_after file.now (length copy.old) report.old }
{
    let o = header::open(file);
    o.verdict?;
    let y = o.summary;
    if shared_symbols::is_shared(y) {
        return Err(Refusal::Shared);
    }
    let t = symbol::tables_of(file, y);
    salvage_tables(file, copy, report, t)
}
