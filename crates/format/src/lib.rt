// The two formats: where their headers keep each number, the kinds of section, and the units that are kept apart.
#![tactic(auto)]

ghost use Rattle.std.specs.Prelude.{◌≡◌, ◌+◌, ◌≤◌, length};
ghost use Rattle.word.specs.Number.{bytes_in};
ghost use Rattle.format.specs.Name.{name_field};
ghost use Rattle.format.specs.Range.{text_in, text_of};
ghost use Rattle.format.specs.Layout.{format_of, header_layout, section_layout, aux_layout, aux_numbers, symbol_layout, short_name, loader_layout, relocation_layout, address_limit, bits_of};

use word::{Field, Width};

// What is above a limit is refused.
pub const FILE_LIMIT: usize = 16777216;

pub const SECTION_LIMIT: u64 = 32;

pub const LOADER_SYMBOL_LIMIT: u64 = 70000;

pub const SHEET_LIST_LIMIT: u64 = 70000;

// Of a sheet in the old form.
pub const OLD_SHEET_LIST_LIMIT: u64 = 4096;

pub const RELOCATION_LIMIT: u64 = 100000;

pub const DATA_IMAGE_LIMIT: u64 = 16777216;

// The bytes of a symbol table entry, in both formats.
pub const SYMBOL_LENGTH: u64 = 18;

// The bytes of a loader symbol, in both formats.
pub const LOADER_SYMBOL_LENGTH: u64 = 24;

// An address in the card's memory.
#[derive(Clone, Copy)]
pub struct VirtualAddress(pub u64);

// A place in the file, from zero.
#[derive(Clone, Copy)]
pub struct FileOffset(pub u64);

// A section's number, from one.
#[derive(Clone, Copy)]
pub struct SectionNumber(pub u64);

// An entry's index in the symbol table, from zero.
#[derive(Clone, Copy)]
pub struct SymbolIndex(pub u64);

// A part of the file.
#[derive(Clone, Copy)]
pub struct FileRange {
    pub start: FileOffset,
    pub length: u64,
}

#[derive(Clone, Copy)]
pub enum Format {
    Xcoff32,
    Xcoff64,
}

// The file header's numbers, and how long it is.
#[derive(Clone, Copy)]
pub struct HeaderLayout {
    pub nscns: Field,
    pub symptr: Field,
    pub nsyms: Field,
    pub opthdr: Field,
    pub flags: Field,
    pub length: usize,
}

// A section header's name and numbers, and how long it is.
#[derive(Clone, Copy)]
pub struct SectionLayout {
    pub name: Field,
    pub paddr: Field,
    pub vaddr: Field,
    pub size: Field,
    pub scnptr: Field,
    pub relptr: Field,
    pub lnnoptr: Field,
    pub nreloc: Field,
    pub nlnno: Field,
    pub flags: Field,
    pub length: usize,
}

// A symbol table entry's numbers, and where an offset leads to its name.
#[derive(Clone, Copy)]
pub struct SymbolLayout {
    pub offset: Field,
    pub value: Field,
    pub scnum: Field,
    pub ntype: Field,
    pub sclass: Field,
    pub numaux: Field,
}

// The auxiliary header's numbers that a module is judged by, and the least length that holds them.
#[derive(Clone, Copy)]
pub struct AuxLayout {
    pub tsize: Field,
    pub dsize: Field,
    pub bsize: Field,
    pub entry: Field,
    pub tstart: Field,
    pub dstart: Field,
    pub toc: Field,
    pub length: u64,
}

// Its section numbers, at the same places in both formats.
#[derive(Clone, Copy)]
pub struct AuxNumbers {
    pub snentry: Field,
    pub sntext: Field,
    pub sndata: Field,
    pub sntoc: Field,
    pub snloader: Field,
    pub snbss: Field,
}

// The name of a symbol: in its entry itself, or at an offset of a string table.
#[derive(Clone, Copy)]
pub enum NameField {
    Short,
    Offset(u64),
}

// The loader header's numbers, and how long it is. In XCOFF32 symbols and relocations have fixed places.
#[derive(Clone, Copy)]
pub struct LoaderLayout {
    pub impoff: Field,
    pub stlen: Field,
    pub stoff: Field,
    pub length: u64,
}

// A loader relocation entry's numbers, and how long it is.
#[derive(Clone, Copy)]
pub struct RelocationLayout {
    pub address: Field,
    pub symbol: Field,
    pub length: u64,
}

// The format that a magic number names.
pub fn format_of(magic: u64) -> Option<Format>
    ensures { result ≡ format_of magic }
{
    if magic == 0x01DF {
        return Some(Format::Xcoff32);
    }
    if magic == 0x01F7 {
        return Some(Format::Xcoff64);
    }
    None
}

pub fn header_layout(f: Format) -> HeaderLayout
    ensures { result ≡ header_layout f }
{
    let nscns = Width::Two.at(2);
    let opthdr = Width::Two.at(16);
    let flags = Width::Two.at(18);
    match f {
        Format::Xcoff32 => HeaderLayout {
            nscns,
            symptr: Width::Four.at(8),
            nsyms: Width::Four.at(12),
            opthdr,
            flags,
            length: 20,
        },
        Format::Xcoff64 => HeaderLayout {
            nscns,
            symptr: Width::Eight.at(8),
            nsyms: Width::Four.at(20),
            opthdr,
            flags,
            length: 24,
        },
    }
}

pub fn section_layout(f: Format) -> SectionLayout
    ensures { result ≡ section_layout f }
{
    let name = Width::Eight.at(0);
    match f {
        Format::Xcoff32 => SectionLayout {
            name,
            paddr: Width::Four.at(8),
            vaddr: Width::Four.at(12),
            size: Width::Four.at(16),
            scnptr: Width::Four.at(20),
            relptr: Width::Four.at(24),
            lnnoptr: Width::Four.at(28),
            nreloc: Width::Two.at(32),
            nlnno: Width::Two.at(34),
            flags: Width::Four.at(36),
            length: 40,
        },
        Format::Xcoff64 => SectionLayout {
            name,
            paddr: Width::Eight.at(8),
            vaddr: Width::Eight.at(16),
            size: Width::Eight.at(24),
            scnptr: Width::Eight.at(32),
            relptr: Width::Eight.at(40),
            lnnoptr: Width::Eight.at(48),
            nreloc: Width::Four.at(56),
            nlnno: Width::Four.at(60),
            flags: Width::Four.at(64),
            length: 72,
        },
    }
}

pub fn aux_layout(f: Format) -> AuxLayout
    ensures { result ≡ aux_layout f }
{
    match f {
        Format::Xcoff32 => AuxLayout {
            tsize: Width::Four.at(4),
            dsize: Width::Four.at(8),
            bsize: Width::Four.at(12),
            entry: Width::Four.at(16),
            tstart: Width::Four.at(20),
            dstart: Width::Four.at(24),
            toc: Width::Four.at(28),
            length: 72,
        },
        Format::Xcoff64 => AuxLayout {
            tsize: Width::Eight.at(56),
            dsize: Width::Eight.at(64),
            bsize: Width::Eight.at(72),
            entry: Width::Eight.at(80),
            tstart: Width::Eight.at(8),
            dstart: Width::Eight.at(16),
            toc: Width::Eight.at(24),
            length: 110,
        },
    }
}

pub fn aux_numbers() -> AuxNumbers
    ensures { result ≡ aux_numbers }
{
    AuxNumbers {
        snentry: Width::Two.at(32),
        sntext: Width::Two.at(34),
        sndata: Width::Two.at(36),
        sntoc: Width::Two.at(38),
        snloader: Width::Two.at(40),
        snbss: Width::Two.at(42),
    }
}

pub fn symbol_layout(f: Format) -> SymbolLayout
    ensures { result ≡ symbol_layout f }
{
    let scnum = Width::Two.at(12);
    let ntype = Width::Two.at(14);
    let sclass = Width::One.at(16);
    let numaux = Width::One.at(17);
    match f {
        Format::Xcoff32 => SymbolLayout {
            offset: Width::Four.at(4),
            value: Width::Four.at(8),
            scnum,
            ntype,
            sclass,
            numaux,
        },
        Format::Xcoff64 => SymbolLayout {
            offset: Width::Four.at(8),
            value: Width::Eight.at(0),
            scnum,
            ntype,
            sclass,
            numaux,
        },
    }
}

// XCOFF32 keeps a short name in an entry's first 8 bytes, where their first word is not 0.
pub fn short_name() -> Field
    ensures { result ≡ short_name }
{
    Width::Eight.at(0)
}

pub fn loader_layout(f: Format) -> LoaderLayout
    ensures { result ≡ loader_layout f }
{
    match f {
        Format::Xcoff32 => LoaderLayout {
            impoff: Width::Four.at(20),
            stlen: Width::Four.at(24),
            stoff: Width::Four.at(28),
            length: 32,
        },
        Format::Xcoff64 => LoaderLayout {
            impoff: Width::Eight.at(24),
            stlen: Width::Four.at(20),
            stoff: Width::Eight.at(32),
            length: 56,
        },
    }
}

pub fn relocation_layout(f: Format) -> RelocationLayout
    ensures { result ≡ relocation_layout f }
{
    match f {
        Format::Xcoff32 => RelocationLayout {
            address: Width::Four.at(0),
            symbol: Width::Four.at(4),
            length: 12,
        },
        Format::Xcoff64 => RelocationLayout {
            address: Width::Eight.at(0),
            symbol: Width::Four.at(12),
            length: 16,
        },
    }
}

// The name of the entry at `base` of the symbol table or of the loader's: both keep it at the same places.
pub fn read_name_field(file: &[u8], f: Format, base: usize) -> NameField
    requires { base + 12 ≤ length file.now }
    ensures { result ≡ name_field f base file.now }
{
    let l = symbol_layout(f);
    let offset = l.offset;
    match f {
        Format::Xcoff32 => {
            if word::read_field(file, base, Width::Four.at(0)) == 0 {
                return NameField::Offset(word::read_field(file, base, offset));
            }
            NameField::Short
        }
        Format::Xcoff64 => NameField::Offset(word::read_field(file, base, offset)),
    }
}

// The last address: one below 2^32 or 2^64.
pub fn last_address(f: Format) -> VirtualAddress
    ensures { result.0 + 1 ≡ address_limit f }
{
    match f {
        Format::Xcoff32 => VirtualAddress(0xFFFF_FFFF),
        Format::Xcoff64 => VirtualAddress(0xFFFF_FFFF_FFFF_FFFF),
    }
}

// The text in a part of the file: up to its first zero, or all of it.
pub fn text_of(file: &[u8], r: FileRange) -> FileRange
    requires { r.start.0 + r.length ≤ length file.now }
    ensures { result ≡ text_of file.now r }
{
    let from = r.start;
    let start = from.0 as usize;
    let end = start + r.length as usize;
    FileRange {
        start: from,
        length: word::first_zero(&file[start..end]) as u64,
    }
}

// The text at the place `f` of what starts at `base`: up to the first zero.
pub fn text_in(file: &[u8], base: usize, f: Field) -> FileRange
    requires { base + f.offset + bytes_in f.width ≤ length file.now }
    ensures { result ≡ text_in f base file.now }
{
    let start = base + f.offset;
    let width = f.width;
    let r = FileRange {
        start: FileOffset(start as u64),
        length: word::bytes_in(width) as u64,
    };
    text_of(file, r)
}

// How many bits an address has.
pub fn bits_of(f: Format) -> u64
    ensures { result ≡ bits_of f }
{
    match f {
        Format::Xcoff32 => 32,
        Format::Xcoff64 => 64,
    }
}
