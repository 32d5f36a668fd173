// The loader section: its header, and where its tables lie: LOADER, LIMIT 2 and 3.
#![tactic(auto)]

ghost use Rattle.std.specs.Prelude.{◌≡◌, false, ◌||◌, eqb, ◌+◌, ◌*◌, ◌≤◌, ◌<◌, length};
ghost use Rattle.format.specs.Layout.{loader_layout};
ghost use Rattle.format.specs.Limit.{file_limit};
ghost use Rattle.format.specs.Range.{range, bytes_of};
ghost use Rattle.word.specs.Zero.{zeros_in};
ghost use Rattle.loader_header.specs.Header.{symbols_offset, relocations_offset, loader_header_at, Bounded, table_past, numbers_check, place_of, tables_of, places_check, PlacesGood, header_check, LoaderRoom};

use format::{FileOffset, FileRange, Format};
use refusal::{LimitItem, LoaderItem, Refusal};
use word::Width;

// The loader header's numbers; offsets count from the section's start.
#[derive(Clone, Copy)]
pub struct LoaderHeader {
    pub version: u64,
    pub nsyms: u64,
    pub nreloc: u64,
    pub istlen: u64,
    pub nimpid: u64,
    pub impoff: u64,
    pub stlen: u64,
    pub stoff: u64,
    pub symoff: u64,
    pub rldoff: u64,
}

// Where the loader section's tables lie in the file.
#[derive(Clone, Copy)]
pub struct LoaderTables {
    pub symbols: FileOffset,
    pub nsyms: u64,
    pub relocations: FileOffset,
    pub nreloc: u64,
    pub ids: FileRange,
    pub nimpid: u64,
    pub strings: FileRange,
}

fn symbols_offset(file: &[u8], f: Format, base: usize) -> u64
    requires { base + (loader_layout f).length ≤ length file.now }
    ensures { result ≡ symbols_offset f base file.now }
{
    match f {
        Format::Xcoff32 => 32,
        Format::Xcoff64 => word::read_field(file, base, Width::Eight.at(40)),
    }
}

fn relocations_offset(file: &[u8], f: Format, base: usize) -> u64
    requires { base + (loader_layout f).length ≤ length file.now }
    ensures { result ≡ relocations_offset f base file.now }
{
    match f {
        Format::Xcoff32 => {
            32 + word::read_field(file, base, Width::Four.at(4)) * format::LOADER_SYMBOL_LENGTH
        }
        Format::Xcoff64 => word::read_field(file, base, Width::Eight.at(48)),
    }
}

pub fn read_header(file: &[u8], f: Format, base: usize) -> LoaderHeader
    requires { base + (loader_layout f).length ≤ length file.now }
    ensures value { result ≡ loader_header_at f base file.now }
    ensures bound { Bounded result }
{
    let l = format::loader_layout(f);
    let impoff = l.impoff;
    let stlen = l.stlen;
    let stoff = l.stoff;
    LoaderHeader {
        version: word::read_field(file, base, Width::Four.at(0)),
        nsyms: word::read_field(file, base, Width::Four.at(4)),
        nreloc: word::read_field(file, base, Width::Four.at(8)),
        istlen: word::read_field(file, base, Width::Four.at(12)),
        nimpid: word::read_field(file, base, Width::Four.at(16)),
        impoff: word::read_field(file, base, impoff),
        stlen: word::read_field(file, base, stlen),
        stoff: word::read_field(file, base, stoff),
        symoff: symbols_offset(file, f, base),
        rldoff: relocations_offset(file, f, base),
    }
}

fn is_table_past(off: u64, len: u64, size: u64) -> bool
    ensures { result ≡ table_past off len size }
{
    if len == 0 {
        return false;
    }
    word::ends_past(off, len, size)
}

fn is_version(v: u64) -> bool
    ensures { result ≡ (eqb v 1 || eqb v 2) }
{
    if v == 1 {
        return true;
    }
    v == 2
}

// LOADER 1, LIMIT 2, LIMIT 3.
fn check_numbers(h: LoaderHeader) -> Result<(), Refusal>
    ensures { result ≡ numbers_check h }
{
    if !is_version(h.version) {
        return Err(Refusal::Loader(LoaderItem::Version));
    }
    if format::LOADER_SYMBOL_LIMIT < h.nsyms {
        return Err(Refusal::Limit(LimitItem::LoaderSymbols));
    }
    if format::RELOCATION_LIMIT < h.nreloc {
        return Err(Refusal::Limit(LimitItem::Relocations));
    }
    Ok(())
}

// How many zeros the import id table has.
fn count_id_zeros(file: &[u8], start: u64, size: u64, h: LoaderHeader) -> u64
    requires { (start + size ≤ length file.now) × (table_past h.impoff h.istlen size ≡ false) }
    ensures { result ≡ zeros_in (bytes_of file.now (range (place_of start h.impoff h.istlen) h.istlen)) }
{
    if h.istlen == 0 {
        return 0;
    }
    let from = (start + h.impoff) as usize;
    let to = from + h.istlen as usize;
    word::count_zeros(&file[from..to]) as u64
}

// LOADER 2 to 5.
fn check_places(
    file: &[u8],
    f: Format,
    start: u64,
    size: u64,
    h: LoaderHeader,
) -> Result<(), Refusal>
    requires { (start + size ≤ length file.now) × Bounded h }
    ensures { result ≡ places_check file.now f start size h }
{
    let l = format::relocation_layout(f);
    if is_table_past(h.symoff, h.nsyms * format::LOADER_SYMBOL_LENGTH, size) {
        return Err(Refusal::Loader(LoaderItem::SymbolsPast));
    }
    if is_table_past(h.rldoff, h.nreloc * l.length, size) {
        return Err(Refusal::Loader(LoaderItem::RelocationsPast));
    }
    if is_table_past(h.impoff, h.istlen, size) {
        return Err(Refusal::Loader(LoaderItem::ImportIdsPast));
    }
    if count_id_zeros(file, start, size, h) < 3 * h.nimpid {
        return Err(Refusal::Loader(LoaderItem::ImportIdsPast));
    }
    if is_table_past(h.stoff, h.stlen, size) {
        return Err(Refusal::Loader(LoaderItem::StringsPast));
    }
    Ok(())
}

// LOADER and LIMIT 2, 3 of the section of `size` bytes at `start`.
pub fn check_header(file: &[u8], f: Format, start: u64, size: u64) -> Result<(), Refusal>
    requires { LoaderRoom (length file.now) start size }
    ensures { result ≡ header_check file.now f start size }
{
    let l = format::loader_layout(f);
    if size < l.length {
        return Err(Refusal::Loader(LoaderItem::ShortHeader));
    }
    let h = read_header(file, f, start as usize);
    check_numbers(h)?;
    check_places(file, f, start, size, h)
}

// A table's place in the file; an empty one stands at the section's start.
fn place_of(start: u64, off: u64, len: u64, size: u64) -> u64
    requires { (table_past off len size ≡ false) × (start + size ≤ file_limit) }
    ensures { result ≡ place_of start off len }
{
    if len == 0 {
        return start;
    }
    start + off
}

// Where the tables lie that `check_places` accepts.
pub fn find_tables(f: Format, start: u64, size: u64, h: LoaderHeader) -> LoaderTables
    requires { PlacesGood f start size h × Bounded h }
    ensures { result ≡ tables_of f start h }
{
    let l = format::relocation_layout(f);
    let symbols = h.nsyms * format::LOADER_SYMBOL_LENGTH;
    let relocations = h.nreloc * l.length;
    LoaderTables {
        symbols: FileOffset(place_of(start, h.symoff, symbols, size)),
        nsyms: h.nsyms,
        relocations: FileOffset(place_of(start, h.rldoff, relocations, size)),
        nreloc: h.nreloc,
        ids: FileRange {
            start: FileOffset(place_of(start, h.impoff, h.istlen, size)),
            length: h.istlen,
        },
        nimpid: h.nimpid,
        strings: FileRange {
            start: FileOffset(place_of(start, h.stoff, h.stlen, size)),
            length: h.stlen,
        },
    }
}
