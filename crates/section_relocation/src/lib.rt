// Entries of a section's own relocation table: read, and the field that each changes.
#![tactic(auto)]

ghost use Rattle.std.specs.Prelude.{◌≡◌, true, ◌+◌, ◌≤◌, ◌<◌, length};
ghost use Rattle.table_kind.specs.declared.TableKind.TheVariants.{Relocations};
ghost use Rattle.table_kind.specs.Kind.{entry_length};
ghost use Rattle.section_relocation.specs.Entry.{entry_layout, entry_at, entry_in, TableReady, has_bytes, class_of, plain_effect, branch_effect, effect_by, effect_of, effect_or, is_inside, is_held, field_of, field_in, name_of};

use field_kind::{FieldKind, ObjectField};
use format::{FileOffset, Format, SectionNumber, SymbolIndex, VirtualAddress};
use object_history::AmountKind;
use refusal::SectionRelocation;
use table_kind::TableKind;
use word::{Field, Width};

// A text or data section of an object file.
#[derive(Clone, Copy)]
pub struct ObjectSection {
    pub number: SectionNumber,
    pub address: VirtualAddress,
    pub size: u64,
    // where its raw data is in the file, and its bytes in the buffer
    pub raw: FileOffset,
    pub place: u64,
    // its relocation table, and the number of its first entry
    pub table: FileOffset,
    pub count: u64,
    pub first: u64,
}

// Where an entry keeps its numbers.
#[derive(Clone, Copy)]
pub struct EntryLayout {
    pub address: Field,
    pub symbol: Field,
    pub rsize: Field,
    pub rtype: Field,
}

// What an entry holds.
#[derive(Clone, Copy)]
pub struct SectionEntry {
    pub address: VirtualAddress,
    pub symbol: SymbolIndex,
    pub rsize: u64,
    pub rtype: u64,
}

// What an entry's type says: 00, 0C, 0D add and 01 subtracts; 08 and 18 are absolute, 0A and 1A relative branches; 0F changes nothing.
#[derive(Clone, Copy)]
pub enum EntryClass {
    Adds,
    Subtracts,
    AbsoluteBranch,
    RelativeBranch,
    Keeps,
    Other,
}

// What an entry does: the kind of its field, and what is added to it.
#[derive(Clone, Copy)]
pub struct Effect {
    pub kind: FieldKind,
    pub amount: AmountKind,
}

fn entry_layout(f: Format) -> EntryLayout
    ensures { result ≡ entry_layout f }
{
    match f {
        Format::Xcoff32 => EntryLayout {
            address: Width::Four.at(0),
            symbol: Width::Four.at(4),
            rsize: Width::One.at(8),
            rtype: Width::One.at(9),
        },
        Format::Xcoff64 => EntryLayout {
            address: Width::Eight.at(0),
            symbol: Width::Four.at(8),
            rsize: Width::One.at(12),
            rtype: Width::One.at(13),
        },
    }
}

fn read_entry(file: &[u8], f: Format, base: usize) -> SectionEntry
    requires { base + entry_length Relocations f ≤ length file.now }
    ensures { result ≡ entry_at f base file.now }
{
    let l = entry_layout(f);
    let address = l.address;
    let symbol = l.symbol;
    let rsize = l.rsize;
    let rtype = l.rtype;
    SectionEntry {
        address: VirtualAddress(word::read_field(file, base, address)),
        symbol: SymbolIndex(word::read_field(file, base, symbol)),
        rsize: word::read_field(file, base, rsize),
        rtype: word::read_field(file, base, rtype),
    }
}

// Entry `i` of the section's table, from 0.
pub fn entry_in(file: &[u8], f: Format, s: ObjectSection, i: u64) -> SectionEntry
    requires { TableReady file.now f s × (i < s.count) }
    ensures { result ≡ entry_in file.now f s i }
{
    let table = s.table;
    let base = table.0 + i * table_kind::entry_length(TableKind::Relocations, f) as u64;
    read_entry(file, f, base as usize)
}

fn class_of(rtype: u64) -> EntryClass
    ensures { result ≡ class_of rtype }
{
    match rtype {
        0x00 => EntryClass::Adds,
        0x0C => EntryClass::Adds,
        0x0D => EntryClass::Adds,
        0x01 => EntryClass::Subtracts,
        0x08 => EntryClass::AbsoluteBranch,
        0x18 => EntryClass::AbsoluteBranch,
        0x0A => EntryClass::RelativeBranch,
        0x1A => EntryClass::RelativeBranch,
        0x0F => EntryClass::Keeps,
        _ => EntryClass::Other,
    }
}

// A field of 32 bits, or in XCOFF64 of 64.
fn plain_effect(f: Format, bits: u64, amount: AmountKind) -> Option<Effect>
    ensures { result ≡ plain_effect f bits amount }
{
    if bits == 32 {
        return Some(Effect {
            kind: FieldKind::Four,
            amount,
        });
    }
    if bits != 64 {
        return None;
    }
    match f {
        Format::Xcoff32 => None,
        Format::Xcoff64 => Some(Effect {
            kind: FieldKind::Eight,
            amount,
        }),
    }
}

fn branch_effect(bits: u64, amount: AmountKind) -> Option<Effect>
    ensures { result ≡ branch_effect bits amount }
{
    if bits == 26 {
        return Some(Effect {
            kind: FieldKind::Branch,
            amount,
        });
    }
    None
}

fn effect_by(f: Format, bits: u64, class: EntryClass) -> Option<Effect>
    ensures { result ≡ effect_by f bits class }
{
    match class {
        EntryClass::Adds => plain_effect(f, bits, AmountKind::Plus),
        EntryClass::Subtracts => plain_effect(f, bits, AmountKind::Minus),
        EntryClass::AbsoluteBranch => branch_effect(bits, AmountKind::Plus),
        EntryClass::RelativeBranch => branch_effect(bits, AmountKind::Relative),
        EntryClass::Keeps => Some(Effect {
            kind: FieldKind::Nothing,
            amount: AmountKind::Plus,
        }),
        EntryClass::Other => None,
    }
}

// What an entry does, or that its type or width is not known.
pub fn effect_of(f: Format, e: SectionEntry) -> Option<Effect>
    ensures { result ≡ effect_of f e }
{
    let class = class_of(e.rtype);
    effect_by(f, e.rsize % 64 + 1, class)
}

// The same; an entry that is not known does nothing.
pub fn effect_or(f: Format, e: SectionEntry) -> Effect
    ensures { result ≡ effect_or (effect_of f e) }
{
    effect_of(f, e).unwrap_or(Effect {
        kind: FieldKind::Nothing,
        amount: AmountKind::Plus,
    })
}

// Whether a field has bytes.
pub fn has_bytes(k: FieldKind) -> bool
    ensures { result ≡ has_bytes k }
{
    match k {
        FieldKind::Nothing => false,
        FieldKind::Four => true,
        FieldKind::Eight => true,
        FieldKind::Branch => true,
    }
}

// Whether the whole field is inside the section, in exact arithmetic.
fn is_inside(s: ObjectSection, at: u64, k: FieldKind) -> bool
    ensures { result ≡ is_inside s at k }
{
    let low = s.address;
    if at < low.0 {
        return false;
    }
    !word::ends_past(at - low.0, field_kind::bytes_in(k), s.size)
}

// Whether the entry is one that is known, and its field is inside the section; that of type 0F is not looked at.
pub fn is_held(f: Format, s: ObjectSection, e: SectionEntry) -> bool
    ensures { result ≡ is_held f s e }
{
    let a = effect_of(f, e);
    match a {
        None => false,
        Some(x) => {
            let k = x.kind;
            let at = e.address;
            if has_bytes(k) {
                return is_inside(s, at.0, k);
            }
            true
        }
    }
}

// The field in the buffer that an entry changes.
pub fn field_of(f: Format, s: ObjectSection, e: SectionEntry) -> ObjectField
    requires { (is_held f s e ≡ true) × (s.place + s.size < 4294967296) }
    ensures { result ≡ field_of f s e }
{
    let x = effect_or(f, e);
    let kind = x.kind;
    if has_bytes(kind) {
        let at = e.address;
        let low = s.address;
        return ObjectField {
            offset: s.place + (at.0 - low.0),
            kind,
        };
    }
    ObjectField { offset: 0, kind }
}

// Of entry `i`.
pub fn field_in(file: &[u8], f: Format, s: ObjectSection, i: u64) -> ObjectField
    requires { TableReady file.now f s × (i < s.count) × (is_held f s (entry_in file.now f s i) ≡ true) }
    ensures { result ≡ field_in file.now f s i }
{
    let e = entry_in(file, f, s, i);
    field_of(f, s, e)
}

// Entry `i`, as a refusal names it.
pub fn name_of(s: ObjectSection, i: u64) -> SectionRelocation
    requires { s.first + i < 4294967296 }
    ensures { result ≡ name_of s i }
{
    let section = s.number;
    SectionRelocation {
        section,
        index: i,
        number: s.first + i,
    }
}
