// One loader symbol, read and judged: what its 24 bytes hold, where its name lies, LSYM.
#![tactic(auto)]

ghost use Rattle.std.specs.Prelude.{◌≡◌, ◌+◌, ◌≤◌, ◌<◌, length};
ghost use Rattle.format.specs.Layout.{loader_symbol_length};
ghost use Rattle.loader_symbol.specs.Symbol.{entry_at, string_in, name_in};

use format::{FileOffset, FileRange, Format, NameField};
use refusal::Refusal;
use word::Width;

// What the 24 bytes of a loader symbol hold.
#[derive(Clone, Copy)]
pub struct LoaderEntry {
    pub name: NameField,
    pub value: u64,
    pub scnum: u64,
    pub smtype: u64,
    pub smclas: u64,
    pub ifile: u64,
    pub parm: u64,
}

// The loader symbol at `base`.
pub fn read_entry(file: &[u8], f: Format, base: usize) -> LoaderEntry
    requires { base + loader_symbol_length ≤ length file.now }
    ensures { result ≡ entry_at f base file.now }
{
    let l = format::symbol_layout(f);
    let value = l.value;
    let scnum = l.scnum;
    LoaderEntry {
        name: format::read_name_field(file, f, base),
        value: word::read_field(file, base, value),
        scnum: word::read_field(file, base, scnum),
        smtype: word::read_field(file, base, Width::One.at(14)),
        smclas: word::read_field(file, base, Width::One.at(15)),
        ifile: word::read_field(file, base, Width::Four.at(16)),
        parm: word::read_field(file, base, Width::Four.at(20)),
    }
}

// The name at the offset `o` of the loader's string table, for the loader symbol with index `i`.
fn string_range(file: &[u8], strings: FileRange, o: u64, i: u64) -> Result<FileRange, Refusal>
    requires { strings.start.0 + strings.length ≤ length file.now }
    ensures { result ≡ string_in file.now strings o i }
{
    if o < 2 {
        return Err(Refusal::Lsym(i));
    }
    if strings.length < o {
        return Err(Refusal::Lsym(i));
    }
    let from = strings.start;
    let start = from.0 as usize + o as usize;
    let n = word::get16(file, start - 2) as u64;
    if n == 0 {
        return Err(Refusal::Lsym(i));
    }
    if word::ends_past(o, n, strings.length) {
        return Err(Refusal::Lsym(i));
    }
    let end = start + n as usize;
    let zero = word::first_zero(&file[start..end]) as u64;
    if zero == n - 1 {
        return Ok(FileRange {
            start: FileOffset(start as u64),
            length: n - 1,
        });
    }
    Err(Refusal::Lsym(i))
}

// Where the name of the loader symbol at `base` lies.
pub fn name_range(
    file: &[u8],
    strings: FileRange,
    base: usize,
    i: u64,
    name: NameField,
) -> Result<FileRange, Refusal>
    requires { (strings.start.0 + strings.length ≤ length file.now) × (base + loader_symbol_length ≤ length file.now) }
    ensures { result ≡ name_in file.now strings base i name }
{
    match name {
        NameField::Short => { Ok(format::text_in(file, base, format::short_name())) }
        NameField::Offset(o) => string_range(file, strings, o, i),
    }
}
