// Which section of a file is text, data, bss and loader: one of each, and no thread-local one.
#![tactic(auto)]

ghost use Rattle.std.specs.Prelude.{◌≡◌, ◌+◌, ◌≤◌, ◌<◌, true, false, cond, ◌||◌, eqb};
ghost use Rattle.format.specs.Limit.{section_limit};
ghost use Rattle.refusal.specs.Order.{first_of};
ghost use Rattle.parts.specs.Sections.{tally, tallies_of, one_each, part_at, parts_of, thread_at};

use format::{FileOffset, SectionNumber, VirtualAddress};
use header::Summary;
use refusal::{Refusal, ThreadItem};
use section::Section;
use section_kind::SectionKind;

// How many sections are of a kind, and the number of the last of them.
#[derive(Clone, Copy)]
pub struct Tally {
    pub count: u64,
    pub last: u64,
}

// What a module needs of one section.
#[derive(Clone, Copy)]
pub struct Part {
    pub number: SectionNumber,
    pub address: VirtualAddress,
    pub size: u64,
    pub start: FileOffset,
    pub raw: bool,
}

#[derive(Clone, Copy)]
pub struct Parts {
    pub text: Part,
    pub data: Part,
    pub bss: Part,
    pub loader: Part,
}

// One section more, of the kind that is counted or of another.
fn tally_step(t: Tally, hit: bool, i: u64) -> Tally
    requires { (t.count ≤ i) × (i < section_limit) }
    ensures { result ≡ cond hit (record { count = t.count + 1; last = i + 1 }) t }
{
    if hit {
        return Tally {
            count: t.count + 1,
            last: i + 1,
        };
    }
    t
}

fn tally_kind(sections: [Section; 32], flag: u64, count: u64) -> Tally
    requires { count ≤ section_limit }
    ensures { result ≡ tally sections flag count }
{
    let mut t = Tally { count: 0, last: 0 };
    for (i, s) in sections[..count as usize].iter().enumerate() {
        t = tally_step(t, s.kind.flags() == flag, i as u64);
    }
    t
}

fn part_at(sections: [Section; 32], n: u64) -> Part
    requires { (0 < n) × (n ≤ section_limit) }
    ensures { result ≡ part_at sections n }
{
    let i = (n - 1) as usize;
    let s = sections[i];
    let address = s.vaddr;
    let start = s.scnptr;
    Part {
        number: SectionNumber(n),
        address,
        size: s.size,
        start,
        raw: s.raw,
    }
}

// How many sections of each kind that a module has one of.
#[derive(Clone, Copy)]
pub struct Tallies {
    pub text: Tally,
    pub data: Tally,
    pub bss: Tally,
    pub loader: Tally,
}

pub fn tally_all(y: Summary) -> Tallies
    requires { y.count ≤ section_limit }
    ensures { result ≡ tallies_of y }
{
    let sections = y.sections;
    let count = y.count;
    Tallies {
        text: tally_kind(sections, SectionKind::TEXT, count),
        data: tally_kind(sections, SectionKind::DATA, count),
        bss: tally_kind(sections, SectionKind::BSS, count),
        loader: tally_kind(sections, SectionKind::LOADER, count),
    }
}

pub fn has_one_each(t: Tallies) -> bool
    ensures { result ≡ one_each t }
{
    let text = t.text;
    let data = t.data;
    let bss = t.bss;
    let loader = t.loader;
    if text.count != 1 {
        return false;
    }
    if data.count != 1 {
        return false;
    }
    if bss.count != 1 {
        return false;
    }
    loader.count == 1
}

pub fn find_parts(y: Summary, t: Tallies) -> Parts
    requires { (y.count ≤ section_limit) × (t ≡ tallies_of y) × (one_each t ≡ true) }
    ensures { result ≡ parts_of y }
{
    let sections = y.sections;
    let text = t.text;
    let data = t.data;
    let bss = t.bss;
    let loader = t.loader;
    Parts {
        text: part_at(sections, text.last),
        data: part_at(sections, data.last),
        bss: part_at(sections, bss.last),
        loader: part_at(sections, loader.last),
    }
}

fn is_thread(k: u64) -> bool
    ensures { result ≡ (eqb k 0x0400 || eqb k 0x0800) }
{
    if k == SectionKind::TDATA {
        return true;
    }
    k == SectionKind::TBSS
}

// THREAD with the first tdata or tbss section.
pub fn check_thread(sections: [Section; 32], count: u64) -> Result<(), Refusal>
    requires { count ≤ section_limit }
    ensures { result ≡ first_of (thread_at sections) 0 count }
{
    for (i, s) in sections[..count as usize].iter().enumerate() {
        if is_thread(s.kind.flags()) {
            return Err(Refusal::Thread(ThreadItem::ThreadSection(SectionNumber(i as u64 + 1))));
        }
    }
    Ok(())
}
