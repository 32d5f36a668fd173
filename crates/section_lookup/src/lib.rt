// A section and its name looked up by number: opening's refusals, then INDEX.
#![tactic(auto)]

ghost use Rattle.std.specs.Prelude.{◌≡◌, ◌<◌};
ghost use Rattle.refusal.specs.Order.{◌or_else◌};
ghost use Rattle.offset.specs.Report.{report_of_range};
ghost use Rattle.refusal.specs.Part.{range_bytes};
ghost use Rattle.section_lookup.specs.Lookup.{number_check, section_at, section_report, report_of_section, section_name_at};

use format::{FileRange, SectionNumber};
use refusal::{Head, IndexItem, Refusal};
use section::Section;

// `flag` is the low 16 bits of the section's flags, `raw` 1 where raw data exists. The numbers of the two tables are the
// header's own: a count that stands in an overflow header is not looked up.
#[repr(C)]
#[derive(Clone, Copy)]
pub struct SectionReport {
    pub head: Head,
    pub paddr: u64,
    pub vaddr: u64,
    pub size: u64,
    pub scnptr: u64,
    pub flag: u64,
    pub raw: u64,
    pub relptr: u64,
    pub nreloc: u64,
    pub lnnoptr: u64,
    pub nlnno: u64,
}

// Opening's refusal, or INDEX where the file has no section `n`.
pub fn check_number(v: Result<(), Refusal>, count: u64, n: SectionNumber) -> Result<(), Refusal>
    ensures { result ≡ (v or_else number_check count n) }
{
    if v.is_err() {
        return v;
    }
    if n.0 == 0 {
        return Err(Refusal::Index(IndexItem::NoSection(n)));
    }
    if count < n.0 {
        return Err(Refusal::Index(IndexItem::NoSection(n)));
    }
    Ok(())
}

// The record of section `n`.
pub fn section_at(file: &[u8], n: SectionNumber) -> Result<Section, Refusal>
    ensures cause { result ≡ section_at file.now n }
    ensures report { report_of_section file.now result ≡ section_report file.now n }
{
    let o = header::open(file);
    let s = o.summary;
    let opened = o.verdict;
    check_number(opened, s.count, n)?;
    let i = (n.0 - 1) as usize;
    let section = s.sections[i];
    Ok(section)
}

// Where the name of section `n` lies.
pub fn section_name_range(file: &[u8], n: SectionNumber) -> Result<FileRange, Refusal>
    ensures cause { result ≡ section_name_at file.now n }
    ensures report { report_of_range file.now result ≡ report_of_range file.now (section_name_at file.now n) }
{
    let o = header::open(file);
    let s = o.summary;
    let opened = o.verdict;
    check_number(opened, s.count, n)?;
    let f = s.format;
    let l = format::section_layout(f);
    let name = l.name;
    let base = file_header::section_start(f, s.opthdr, n.0 - 1) as usize;
    Ok(format::text_in(file, base, name))
}

// The name of section `n`: the very bytes of the file, none on a refusal.
pub fn section_name<'a>(file: &'a [u8], n: SectionNumber) -> &'a [u8]
    ensures { result.now ≡ range_bytes file.now (section_name_at file.now n) }
{
    let a = section_name_range(file, n);
    refusal::part_of(file, a)
}

pub fn report_section(file: &[u8], a: Result<Section, Refusal>) -> SectionReport
    ensures { result ≡ report_of_section file.now a }
{
    match a {
        Err(x) => SectionReport {
            head: offset::refusal_head(file, x),
            paddr: 0,
            vaddr: 0,
            size: 0,
            scnptr: 0,
            flag: 0,
            raw: 0,
            relptr: 0,
            nreloc: 0,
            lnnoptr: 0,
            nlnno: 0,
        },
        Ok(s) => {
            let paddr = s.paddr;
            let vaddr = s.vaddr;
            let scnptr = s.scnptr;
            let relptr = s.relptr;
            let lnnoptr = s.lnnoptr;
            let kind = s.kind;
            SectionReport {
                head: refusal::accepted_head(),
                paddr: paddr.0,
                vaddr: vaddr.0,
                size: s.size,
                scnptr: scnptr.0,
                flag: kind.flags() % 65536,
                raw: refusal::one_if(s.raw),
                relptr: relptr.0,
                nreloc: s.nreloc,
                lnnoptr: lnnoptr.0,
                nlnno: s.nlnno,
            }
        }
    }
}
