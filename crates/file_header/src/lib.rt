// The file header: its numbers, where section headers start, and the checks before any section is looked at.
#![tactic(auto)]

ghost use Rattle.std.specs.Prelude.{◌≡◌, ◌≤◌, length};
ghost use Rattle.format.specs.Layout.{header_layout};
ghost use Rattle.format.specs.Limit.{file_limit, section_limit};
ghost use Rattle.file_header.specs.Header.{header_at, section_start, header_check, Bounded};

use format::{FileOffset, Format};
use refusal::{LimitItem, Refusal};

// The file header's numbers.
#[derive(Clone, Copy)]
pub struct FileHeader {
    pub format: Format,
    pub nscns: u64,
    pub symptr: FileOffset,
    pub nsyms: u64,
    pub opthdr: u64,
    pub flags: u64,
}

pub fn read_header(file: &[u8], f: Format) -> FileHeader
    requires { (header_layout f).length ≤ length file.now }
    ensures value { result ≡ header_at f file.now }
    ensures bound { Bounded result }
{
    let l = format::header_layout(f);
    let nscns = l.nscns;
    let symptr = l.symptr;
    let nsyms = l.nsyms;
    let opthdr = l.opthdr;
    let flags = l.flags;
    FileHeader {
        format: f,
        nscns: word::read_field(file, 0, nscns),
        symptr: FileOffset(word::read_field(file, 0, symptr)),
        nsyms: word::read_field(file, 0, nsyms),
        opthdr: word::read_field(file, 0, opthdr),
        flags: word::read_field(file, 0, flags),
    }
}

// SHORT, LIMIT 1 and SHORT: the section headers, at most 32, are in the file.
pub fn check_header(file: &[u8], f: Format) -> Result<(), Refusal>
    ensures { result ≡ header_check f file.now }
{
    let l = format::header_layout(f);
    let len = file.len() as u64;
    if len < l.length as u64 {
        return Err(Refusal::Short);
    }
    let h = read_header(file, f);
    if format::SECTION_LIMIT < h.nscns {
        return Err(Refusal::Limit(LimitItem::Sections));
    }
    if len < section_start(f, h.opthdr, h.nscns) {
        return Err(Refusal::Short);
    }
    Ok(())
}

// Where the header of section i + 1 starts.
pub fn section_start(f: Format, opthdr: u64, i: u64) -> u64
    requires { (opthdr ≤ file_limit) × (i ≤ section_limit) }
    ensures { result ≡ section_start f opthdr i }
{
    let h = format::header_layout(f);
    let s = format::section_layout(f);
    h.length as u64 + opthdr + i * s.length as u64
}
