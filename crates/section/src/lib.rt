// One section header: read into a record, then judged.
#![tactic(auto)]

ghost use Rattle.std.specs.Prelude.{◌≡◌, ◌+◌, ◌≤◌, length};
ghost use Rattle.format.specs.Layout.{section_layout};
ghost use Rattle.section.specs.Section.{section_header_at, has_raw_data, raw_data_past, misplaced, section_of, judge_section};

use format::{FileOffset, Format, SectionNumber, VirtualAddress};
use refusal::{AddressItem, BoundsItem, Refusal};
use section_kind::SectionKind;

// A section header's numbers, as they stand in the file.
#[derive(Clone, Copy)]
pub struct SectionHeader {
    pub paddr: VirtualAddress,
    pub vaddr: VirtualAddress,
    pub size: u64,
    pub scnptr: FileOffset,
    pub relptr: FileOffset,
    pub lnnoptr: FileOffset,
    pub nreloc: u64,
    pub nlnno: u64,
    pub flags: u64,
}

// What is known of a section that is accepted.
#[derive(Clone, Copy)]
pub struct Section {
    pub kind: SectionKind,
    pub paddr: VirtualAddress,
    pub vaddr: VirtualAddress,
    pub size: u64,
    pub scnptr: FileOffset,
    // relocation and line table, offset and count as the header has them: overflow headers are not looked up here
    pub relptr: FileOffset,
    pub lnnoptr: FileOffset,
    pub nreloc: u64,
    pub nlnno: u64,
    // whether raw data exists
    pub raw: bool,
}

pub fn read_section_header(file: &[u8], f: Format, base: usize) -> SectionHeader
    requires { base + (section_layout f).length ≤ length file.now }
    ensures { result ≡ section_header_at f base file.now }
{
    let l = format::section_layout(f);
    let paddr = l.paddr;
    let vaddr = l.vaddr;
    let size = l.size;
    let scnptr = l.scnptr;
    let relptr = l.relptr;
    let lnnoptr = l.lnnoptr;
    let nreloc = l.nreloc;
    let nlnno = l.nlnno;
    let flags = l.flags;
    SectionHeader {
        paddr: VirtualAddress(word::read_field(file, base, paddr)),
        vaddr: VirtualAddress(word::read_field(file, base, vaddr)),
        size: word::read_field(file, base, size),
        scnptr: FileOffset(word::read_field(file, base, scnptr)),
        relptr: FileOffset(word::read_field(file, base, relptr)),
        lnnoptr: FileOffset(word::read_field(file, base, lnnoptr)),
        nreloc: word::read_field(file, base, nreloc),
        nlnno: word::read_field(file, base, nlnno),
        flags: word::read_field(file, base, flags),
    }
}

fn has_data(k: SectionKind, h: SectionHeader) -> bool
    ensures { result ≡ has_raw_data k h }
{
    if k.may_have_raw() {
        let p = h.scnptr;
        return p.0 != 0;
    }
    false
}

// Whether the raw data is there and ends past the file's `len` bytes.
fn is_raw_data_past(k: SectionKind, len: u64, h: SectionHeader) -> bool
    ensures { result ≡ raw_data_past k len h }
{
    if has_data(k, h) {
        let p = h.scnptr;
        return word::ends_past(p.0, h.size, len);
    }
    false
}

// Whether the addresses are examined and wrong.
fn is_misplaced(f: Format, k: SectionKind, h: SectionHeader) -> bool
    ensures { result ≡ misplaced f k h }
{
    if k.is_placed() {
        let p = h.paddr;
        let v = h.vaddr;
        if v.0 != p.0 {
            return true;
        }
        let last = format::last_address(f);
        return word::ends_past_last(v.0, h.size, last.0);
    }
    false
}

fn section_of(k: SectionKind, h: SectionHeader) -> Section
    ensures { result ≡ section_of k h }
{
    let paddr = h.paddr;
    let vaddr = h.vaddr;
    let scnptr = h.scnptr;
    let relptr = h.relptr;
    let lnnoptr = h.lnnoptr;
    Section {
        kind: k,
        paddr,
        vaddr,
        size: h.size,
        scnptr,
        relptr,
        lnnoptr,
        nreloc: h.nreloc,
        nlnno: h.nlnno,
        raw: has_data(k, h),
    }
}

// The record of section `n`, whose header is `h`, in a file of `len` bytes, or the first reason against it.
pub fn judge_section(
    f: Format,
    len: u64,
    h: SectionHeader,
    n: SectionNumber,
) -> Result<Section, Refusal>
    ensures { result ≡ judge_section f len h n }
{
    let a = SectionKind::of_flags(h.flags);
    match a {
        None => Err(Refusal::Kind(n)),
        Some(k) => {
            if is_raw_data_past(k, len, h) {
                return Err(Refusal::Bounds(BoundsItem::RawData(n)));
            }
            if is_misplaced(f, k, h) {
                return Err(Refusal::Address(AddressItem::Misplaced(n)));
            }
            Ok(section_of(k, h))
        }
    }
}
