// Symbol table entries, each read and judged with its name.
#![tactic(auto)]

ghost use Rattle.std.specs.Prelude.{◌≡◌, ◌+◌, ◌-◌, ◌≤◌, ◌<◌, length};
ghost use Rattle.word.specs.Zero.{zero_end};
ghost use Rattle.format.specs.Layout.{symbol_length};
ghost use Rattle.format.specs.Limit.{file_limit};
ghost use Rattle.format.specs.Range.{range, bytes_of};
ghost use Rattle.refusal.specs.Order.{first_refusal};
ghost use Rattle.header.specs.Open.{open_of};
ghost use Rattle.debug_section.specs.Debug.{DebugInside};
ghost use Rattle.symbol.specs.Entry.{OpenTables, entry_at, entry_of};
ghost use Rattle.symbol.specs.Name.{is_debug_class, room_in, has_name};
ghost use Rattle.symbol.specs.Symbol.{is_section, name_check, symbol_checks, section_in, symbol_of, symbol_in};

use format::{FileOffset, FileRange, Format, NameField, SectionNumber, SymbolIndex};
use header::Summary;
use refusal::{IndexItem, Refusal};

// All that entries and their names are judged by: where symbols and strings lie in an opened file, one past the last zero of
// the strings, the debug section, and whether types may have a visibility. Exactly the offsets below `ends` have a zero at or
// after them, so a walk judges each name by comparisons and stays linear in the file.
#[derive(Clone, Copy)]
pub struct Tables {
    pub format: Format,
    pub nscns: u64,
    pub start: FileOffset,
    pub count: u64,
    pub strings: FileRange,
    pub ends: u64,
    pub debug: Option<FileRange>,
    pub version2: bool,
}

// What the 18 bytes of an entry hold.
#[derive(Clone, Copy)]
pub struct SymbolEntry {
    pub name: NameField,
    pub value: u64,
    pub scnum: u64,
    pub ntype: u64,
    pub sclass: u64,
    pub numaux: u64,
}

// What `n_scnum` names: -2, -1, 0, or a section.
#[derive(Clone, Copy)]
pub enum SymbolSection {
    Debug,
    Absolute,
    Undefined,
    In(SectionNumber),
}

#[derive(Clone, Copy)]
pub struct Symbol {
    pub value: u64,
    pub section: SymbolSection,
    pub ntype: u64,
    pub sclass: u64,
    pub numaux: u64,
    // none where no visibility is claimed
    pub visibility: Option<u64>,
}

fn names_end(file: &[u8], strings: FileRange) -> u64
    requires { strings.start.0 + strings.length ≤ length file.now }
    ensures { result ≡ zero_end (bytes_of file.now strings) }
{
    let from = strings.start;
    let start = from.0 as usize;
    let end = start + strings.length as usize;
    word::zero_end(&file[start..end]) as u64
}

// The tables of a file that is open, with its summary.
pub fn tables_of(file: &[u8], y: Summary) -> Tables
    requires { ((open_of file.now).verdict ≡ Ok tt) × (y ≡ (open_of file.now).summary) }
    ensures { OpenTables file.now result }
{
    let format = y.format;
    let symbols = y.symbols;
    let start = symbols.start;
    let strings = symbols.strings;
    Tables {
        format,
        nscns: y.count,
        start,
        count: symbols.count,
        strings,
        ends: names_end(file, strings),
        debug: debug_section::find_debug(y),
        version2: visibility::has_version_2(file, y),
    }
}

fn read_entry(file: &[u8], f: Format, base: usize) -> SymbolEntry
    requires { base + symbol_length ≤ length file.now }
    ensures { result ≡ entry_at f base file.now }
{
    let l = format::symbol_layout(f);
    let value = l.value;
    let scnum = l.scnum;
    let ntype = l.ntype;
    let sclass = l.sclass;
    let numaux = l.numaux;
    SymbolEntry {
        name: format::read_name_field(file, f, base),
        value: word::read_field(file, base, value),
        scnum: word::read_field(file, base, scnum),
        ntype: word::read_field(file, base, ntype),
        sclass: word::read_field(file, base, sclass),
        numaux: word::read_field(file, base, numaux),
    }
}

// The entry at an index of the table, not judged.
pub fn entry_in(file: &[u8], t: Tables, i: SymbolIndex) -> SymbolEntry
    requires { OpenTables file.now t × (i.0 < t.count) }
    ensures { result ≡ entry_of file.now t i }
{
    let f = t.format;
    let start = t.start;
    let base = start.0 + i.0 * format::SYMBOL_LENGTH;
    read_entry(file, f, base as usize)
}

// Two bytes from 8000 hex on are a negative number: FFFE is -2.
pub fn is_section(nscns: u64, scnum: u64) -> bool
    ensures { result ≡ is_section nscns scnum }
{
    if scnum < 0x8000 {
        return scnum <= nscns;
    }
    0xFFFE <= scnum
}

// Whether the storage class has bit 80 hex.
fn is_debug_class(sclass: u64) -> bool
    ensures { result ≡ is_debug_class sclass }
{
    0x80 <= sclass % 0x100
}

// Whether a name lies somewhere: short, empty, a string of the debug section, or at an offset from 4 on with a zero at or
// after it.
pub fn has_name(file: &[u8], t: Tables, sclass: u64, name: NameField) -> bool
    requires { DebugInside (length file.now) t.debug }
    ensures { result ≡ has_name file.now t sclass name }
{
    match name {
        NameField::Short => true,
        NameField::Offset(o) => {
            if o == 0 {
                return true;
            }
            if is_debug_class(sclass) {
                let f = t.format;
                let debug = t.debug;
                return debug_section::has_string(file, f, debug, o);
            }
            if o < 4 {
                return false;
            }
            o < t.ends
        }
    }
}

// All from the offset `o` of a string table to its end.
fn string_room(strings: FileRange, o: u64) -> FileRange
    requires { (o ≤ strings.length) × (strings.start.0 + strings.length ≤ file_limit) }
    ensures { result ≡ range (strings.start.0 + o) (strings.length - o) }
{
    let from = strings.start;
    let at = from.0 + o;
    FileRange {
        start: FileOffset(at),
        length: strings.length - o,
    }
}

// The bytes that the name of the entry `e` at the index `i` may take: it ends at the first zero in them. That zero is not looked
// for: many symbols may share one long string, and a listing that read it for each would not be linear.
pub fn name_room(file: &[u8], t: Tables, i: SymbolIndex, e: SymbolEntry) -> FileRange
    requires { OpenTables file.now t × (i.0 < t.count) × (name_check file.now t i e ≡ Ok tt) }
    ensures { Ok result ≡ room_in file.now t i e }
{
    let name = e.name;
    match name {
        NameField::Short => {
            let place = format::short_name();
            let width = place.width;
            let start = t.start;
            let base = start.0 + i.0 * format::SYMBOL_LENGTH;
            let first = base + place.offset as u64;
            FileRange {
                start: FileOffset(first),
                length: word::bytes_in(width) as u64,
            }
        }
        NameField::Offset(o) => {
            if o == 0 {
                return FileRange {
                    start: FileOffset(0),
                    length: 0,
                };
            }
            if is_debug_class(e.sclass) {
                let f = t.format;
                let debug = t.debug;
                return debug_section::string_range(file, f, debug, o);
            }
            let strings = t.strings;
            string_room(strings, o)
        }
    }
}

// AUX, SECTION, NAME and VISIBILITY of the entry `e` at the index `i`, in this order.
pub fn check_entry(file: &[u8], t: Tables, i: SymbolIndex, e: SymbolEntry) -> Result<(), Refusal>
    requires { OpenTables file.now t × (i.0 < t.count) }
    ensures { result ≡ first_refusal (symbol_checks file.now t i e) }
{
    if word::ends_past(i.0 + 1, e.numaux, t.count) {
        return Err(Refusal::Aux(i));
    }
    if !is_section(t.nscns, e.scnum) {
        return Err(Refusal::Scnum(i));
    }
    let name = e.name;
    if !has_name(file, t, e.sclass, name) {
        return Err(Refusal::Name(i));
    }
    if visibility::is_unknown(t.version2, e.sclass, e.ntype) {
        return Err(Refusal::Visibility(i));
    }
    Ok(())
}

fn section_in(scnum: u64) -> SymbolSection
    ensures { result ≡ section_in scnum }
{
    if scnum == 0 {
        return SymbolSection::Undefined;
    }
    if scnum < 0x8000 {
        return SymbolSection::In(SectionNumber(scnum));
    }
    if scnum < 0xFFFF {
        return SymbolSection::Debug;
    }
    SymbolSection::Absolute
}

fn symbol_of(t: Tables, e: SymbolEntry) -> Symbol
    ensures { result ≡ symbol_of t e }
{
    Symbol {
        value: e.value,
        section: section_in(e.scnum),
        ntype: e.ntype,
        sclass: e.sclass,
        numaux: e.numaux,
        visibility: visibility::visibility_of(t.version2, e.sclass, e.ntype),
    }
}

// The symbol at an index of a file that is open.
pub fn symbol_in(file: &[u8], t: Tables, i: SymbolIndex) -> Result<Symbol, Refusal>
    requires { OpenTables file.now t }
    ensures { result ≡ symbol_in file.now t i }
{
    if t.count <= i.0 {
        return Err(Refusal::Index(IndexItem::NoSymbol(i)));
    }
    let e = entry_in(file, t, i);
    check_entry(file, t, i, e)?;
    Ok(symbol_of(t, e))
}
