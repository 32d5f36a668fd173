// The auxiliary header, which follows the file header, compared with the section headers.
#![tactic(auto)]

ghost use Rattle.std.specs.Prelude.{◌≡◌, ◌+◌, ◌≤◌, false, ◌&&◌, eqb, length};
ghost use Rattle.format.specs.Layout.{aux_layout};
ghost use Rattle.auxiliary.specs.Auxiliary.{aux_at, numbers_agree, sizes_agree};

use format::{Format, SectionNumber, VirtualAddress};
use parts::{Part, Parts};
use section::Section;

// The auxiliary header's numbers that a module is judged by.
#[derive(Clone, Copy)]
pub struct AuxHeader {
    pub tsize: u64,
    pub dsize: u64,
    pub bsize: u64,
    pub entry: VirtualAddress,
    pub tstart: VirtualAddress,
    pub dstart: VirtualAddress,
    pub toc: VirtualAddress,
    pub snentry: SectionNumber,
    pub sntext: SectionNumber,
    pub sndata: SectionNumber,
    pub sntoc: SectionNumber,
    pub snloader: SectionNumber,
    pub snbss: SectionNumber,
}

pub fn read_aux(file: &[u8], f: Format, base: usize) -> AuxHeader
    requires { base + (aux_layout f).length ≤ length file.now }
    ensures { result ≡ aux_at f base file.now }
{
    let l = format::aux_layout(f);
    let tsize = l.tsize;
    let dsize = l.dsize;
    let bsize = l.bsize;
    let entry = l.entry;
    let tstart = l.tstart;
    let dstart = l.dstart;
    let toc = l.toc;
    let n = format::aux_numbers();
    let snentry = n.snentry;
    let sntext = n.sntext;
    let sndata = n.sndata;
    let sntoc = n.sntoc;
    let snloader = n.snloader;
    let snbss = n.snbss;
    AuxHeader {
        tsize: word::read_field(file, base, tsize),
        dsize: word::read_field(file, base, dsize),
        bsize: word::read_field(file, base, bsize),
        entry: VirtualAddress(word::read_field(file, base, entry)),
        tstart: VirtualAddress(word::read_field(file, base, tstart)),
        dstart: VirtualAddress(word::read_field(file, base, dstart)),
        toc: VirtualAddress(word::read_field(file, base, toc)),
        snentry: SectionNumber(word::read_field(file, base, snentry)),
        sntext: SectionNumber(word::read_field(file, base, sntext)),
        sndata: SectionNumber(word::read_field(file, base, sndata)),
        sntoc: SectionNumber(word::read_field(file, base, sntoc)),
        snloader: SectionNumber(word::read_field(file, base, snloader)),
        snbss: SectionNumber(word::read_field(file, base, snbss)),
    }
}

pub fn same_section(a: SectionNumber, p: Part) -> bool
    ensures { result ≡ eqb a.0 p.number.0 }
{
    let n = p.number;
    a.0 == n.0
}

pub fn do_numbers_agree(p: Parts, a: AuxHeader) -> bool
    ensures { result ≡ numbers_agree p a }
{
    let text = p.text;
    let data = p.data;
    let bss = p.bss;
    let loader = p.loader;
    let sntext = a.sntext;
    let sndata = a.sndata;
    let snbss = a.snbss;
    let snloader = a.snloader;
    if !same_section(sntext, text) {
        return false;
    }
    if !same_section(sndata, data) {
        return false;
    }
    if !same_section(snbss, bss) {
        return false;
    }
    same_section(snloader, loader)
}

// Whether an auxiliary header's size and start are those of the section.
fn same_extent(size: u64, start: VirtualAddress, p: Part) -> bool
    ensures { result ≡ (eqb size p.size && eqb start.0 p.address.0) }
{
    let address = p.address;
    if size != p.size {
        return false;
    }
    start.0 == address.0
}

pub fn do_sizes_agree(p: Parts, a: AuxHeader) -> bool
    ensures { result ≡ sizes_agree p a }
{
    let text = p.text;
    let data = p.data;
    let bss = p.bss;
    let tstart = a.tstart;
    let dstart = a.dstart;
    if !same_extent(a.tsize, tstart, text) {
        return false;
    }
    if !same_extent(a.dsize, dstart, data) {
        return false;
    }
    a.bsize == bss.size
}
