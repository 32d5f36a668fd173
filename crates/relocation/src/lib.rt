// Loader relocation entries: read, judged each by itself, and the field that each names.
#![tactic(auto)]

ghost use Rattle.std.specs.Prelude.{◌≡◌, true, ◌+◌, ◌*◌, ◌≤◌, ◌<◌, length};
ghost use Rattle.format.specs.Layout.{relocation_layout};
ghost use Rattle.relocation.specs.Relocation.{entry_at, is_type, is_width, bytes_wide, is_wide, is_inside, is_held, is_good, place_of, entry_in, own_at, place_at, EntriesInside};

use format::{Format, VirtualAddress};
use loader_header::LoaderTables;
use parts::{Part, Parts};
use refusal::{LoaderRelocation, Refusal, ThreadItem};
use word::Width;

// What a relocation entry holds.
#[derive(Clone, Copy)]
pub struct RelocationEntry {
    pub address: VirtualAddress,
    pub symbol: u64,
    pub rtype: u64,
    pub scnum: u64,
}

// A field: whether it is in text or in data, its offset there, and whether it is 8 or 4 bytes wide.
#[derive(Clone, Copy)]
pub struct FieldPlace {
    pub text: bool,
    pub offset: u64,
    pub wide: bool,
}

fn read_entry(file: &[u8], f: Format, base: usize) -> RelocationEntry
    requires { base + (relocation_layout f).length ≤ length file.now }
    ensures { result ≡ entry_at f base file.now }
{
    let l = format::relocation_layout(f);
    let address = l.address;
    let symbol = l.symbol;
    RelocationEntry {
        address: VirtualAddress(word::read_field(file, base, address)),
        symbol: word::read_field(file, base, symbol),
        rtype: word::read_field(file, base, Width::Two.at(8)),
        scnum: word::read_field(file, base, Width::Two.at(10)),
    }
}

// Relocation entry `i`.
pub fn entry_in(file: &[u8], f: Format, t: LoaderTables, i: u64) -> RelocationEntry
    requires { EntriesInside file.now f t × (i < t.nreloc) }
    ensures { result ≡ entry_in file.now f t i }
{
    let l = format::relocation_layout(f);
    let table = t.relocations;
    let base = table.0 + i * l.length;
    read_entry(file, f, base as usize)
}

fn is_type(low: u64) -> bool
    ensures { result ≡ is_type low }
{
    match low {
        0x00 => true,
        0x0C => true,
        0x0D => true,
        0x01 => true,
        _ => false,
    }
}

fn is_width(f: Format, bits: u64) -> bool
    ensures { result ≡ is_width f bits }
{
    match f {
        Format::Xcoff32 => bits == 32,
        Format::Xcoff64 => {
            if bits == 32 {
                return true;
            }
            bits == 64
        }
    }
}

// How many bytes a field has.
pub fn bytes_wide(wide: bool) -> u64
    ensures value { result ≡ bytes_wide wide }
    ensures bound { result ≤ 8 }
{
    if wide { 8 } else { 4 }
}

fn is_wide(rtype: u64) -> bool
    ensures { result ≡ is_wide rtype }
{
    rtype / 256 % 64 + 1 == 64
}

// Whether the whole field is inside the section, in exact arithmetic.
fn is_inside(p: Part, e: RelocationEntry) -> bool
    ensures { result ≡ is_inside p e }
{
    let low = p.address;
    let at = e.address;
    if at.0 < low.0 {
        return false;
    }
    !word::ends_past(at.0 - low.0, bytes_wide(is_wide(e.rtype)), p.size)
}

fn is_held(p: Parts, e: RelocationEntry) -> bool
    ensures { result ≡ is_held p e }
{
    let text = p.text;
    let data = p.data;
    let t = text.number;
    let d = data.number;
    if e.scnum == t.0 {
        return is_inside(text, e);
    }
    if e.scnum == d.0 {
        return is_inside(data, e);
    }
    false
}

fn is_good(f: Format, p: Parts, nsyms: u64, e: RelocationEntry) -> bool
    requires { nsyms ≤ 4294967296 }
    ensures { result ≡ is_good f p nsyms e }
{
    if !is_type(e.rtype % 256) {
        return false;
    }
    if !is_width(f, e.rtype / 256 % 64 + 1) {
        return false;
    }
    if !is_held(p, e) {
        return false;
    }
    e.symbol < 3 + nsyms
}

// THREAD and LREL of entry `i`.
pub fn check_own(file: &[u8], f: Format, p: Parts, t: LoaderTables, i: u64) -> Result<(), Refusal>
    requires { EntriesInside file.now f t × (i < t.nreloc) × (t.nsyms ≤ 4294967296) }
    ensures { result ≡ own_at file.now f p t i }
{
    let e = entry_in(file, f, t, i);
    if 0xFFFF_FFFE <= e.symbol {
        return Err(Refusal::Thread(ThreadItem::ThreadSymbol(LoaderRelocation(i))));
    }
    if is_good(f, p, t.nsyms, e) {
        return Ok(());
    }
    Err(Refusal::Lrel(LoaderRelocation(i)))
}

// The field of an entry that is inside its section.
pub fn place_of(p: Parts, e: RelocationEntry) -> FieldPlace
    requires { is_held p e ≡ true }
    ensures { result ≡ place_of p e }
{
    let text = p.text;
    let data = p.data;
    let at = e.address;
    let n = text.number;
    if e.scnum == n.0 {
        let low = text.address;
        return FieldPlace {
            text: true,
            offset: at.0 - low.0,
            wide: is_wide(e.rtype),
        };
    }
    let low = data.address;
    FieldPlace {
        text: false,
        offset: at.0 - low.0,
        wide: is_wide(e.rtype),
    }
}

// The field of entry `i`, which is good by itself.
pub fn place_at(file: &[u8], f: Format, p: Parts, t: LoaderTables, i: u64) -> FieldPlace
    requires { EntriesInside file.now f t × (i < t.nreloc) × (own_at file.now f p t i ≡ Ok tt) }
    ensures { result ≡ place_at file.now f p t i }
{
    let e = entry_in(file, f, t, i);
    place_of(p, e)
}
