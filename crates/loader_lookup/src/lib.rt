// Loader symbols and their names, looked up by index.
#![tactic(auto)]

ghost use Rattle.std.specs.Prelude.{◌≡◌, ◌-◌, ◌<◌};
ghost use Rattle.offset.specs.Report.{report_of_range};
ghost use Rattle.refusal.specs.Part.{range_bytes};
ghost use Rattle.lookup.specs.Symbol.{loader_symbol_at, loader_name_at, report_of_loader_symbol, loader_symbol_report};

use format::FileRange;
use loader_symbol::LoaderEntry;
use lookup::LoaderSymbolReport;
use refusal::Refusal;

// The loader symbol with index `i`, from 3.
pub fn loader_symbol(file: &[u8], i: u64) -> Result<LoaderEntry, Refusal>
    ensures cause { result ≡ loader_symbol_at file.now i }
    ensures report { report_of_loader_symbol file.now result ≡ loader_symbol_report file.now i }
{
    let l = loadable::module_of(file)?;
    let t = l.tables;
    lookup::check_index(t, i)?;
    let m = l.layout;
    let f = m.format;
    let base = lookup::entry_base(t, i);
    Ok(loader_symbol::read_entry(file, f, base))
}

// Where the name of the loader symbol with index `i` lies.
pub fn loader_symbol_name_range(file: &[u8], i: u64) -> Result<FileRange, Refusal>
    ensures cause { result ≡ loader_name_at file.now i }
    ensures report { report_of_range file.now result ≡ report_of_range file.now (loader_name_at file.now i) }
{
    let l = loadable::module_of(file)?;
    let t = l.tables;
    lookup::check_index(t, i)?;
    let m = l.layout;
    let f = m.format;
    let strings = t.strings;
    let base = lookup::entry_base(t, i);
    let e = loader_symbol::read_entry(file, f, base);
    let name = e.name;
    loader_symbol::name_range(file, strings, base, i, name)
}

// The name of the loader symbol with index `i`: the very bytes of the file, none on a refusal.
pub fn loader_symbol_name<'a>(file: &'a [u8], i: u64) -> &'a [u8]
    ensures { result.now ≡ range_bytes file.now (loader_name_at file.now i) }
{
    let a = loader_symbol_name_range(file, i);
    refusal::part_of(file, a)
}

pub fn report_loader_symbol(file: &[u8], a: Result<LoaderEntry, Refusal>) -> LoaderSymbolReport
    ensures { result ≡ report_of_loader_symbol file.now a }
{
    match a {
        Err(x) => LoaderSymbolReport {
            head: offset::refusal_head(file, x),
            value: 0,
            scnum: 0,
            smtype: 0,
            smclas: 0,
            ifile: 0,
            parm: 0,
        },
        Ok(e) => LoaderSymbolReport {
            head: refusal::accepted_head(),
            value: e.value,
            scnum: e.scnum,
            smtype: e.smtype,
            smclas: e.smclas,
            ifile: e.ifile,
            parm: e.parm,
        },
    }
}
