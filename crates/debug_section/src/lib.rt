// The debug section, and the strings in it that symbols of debug classes are named by.
#![tactic(auto)]

ghost use Rattle.std.specs.Prelude.{◌≡◌, true, cond, ◌+◌, ◌≤◌, ◌<◌, length};
ghost use Rattle.word.specs.Number.{bytes_in};
ghost use Rattle.format.specs.Limit.{section_limit};
ghost use Rattle.debug_section.specs.Debug.{is_debug, raw_of, tally_of, debug_ranges, debug_of, length_field, length_width, length_at, has_string, string_range, DebugInside};

use format::{FileOffset, FileRange, Format};
use header::Summary;
use section::Section;
use section_kind::SectionKind;
use word::{Field, Width};

// How many debug sections with raw data were met, and the last one's.
#[derive(Clone, Copy)]
pub struct DebugTally {
    pub count: u64,
    pub last: FileRange,
}

fn is_debug(s: Section) -> bool
    ensures { result ≡ is_debug s }
{
    let k = s.kind;
    if k.flags() == SectionKind::DEBUG {
        return s.raw;
    }
    false
}

// One section more.
fn tally_step(t: DebugTally, s: Section) -> DebugTally
    requires { t.count < section_limit }
    ensures { result ≡ cond (is_debug s) (record { count = t.count + 1; last = raw_of s }) t }
{
    if is_debug(s) {
        let start = s.scnptr;
        return DebugTally {
            count: t.count + 1,
            last: FileRange {
                start,
                length: s.size,
            },
        };
    }
    t
}

fn tally_debug(sections: [Section; 32], count: u64) -> DebugTally
    requires { count ≤ section_limit }
    ensures { result ≡ tally_of (debug_ranges sections count) }
{
    let mut t = DebugTally {
        count: 0,
        last: FileRange {
            start: FileOffset(0),
            length: 0,
        },
    };
    for s in &sections[..count as usize] {
        t = tally_step(t, *s);
    }
    t
}

// The raw data of an opened file's debug section, or that there isn't exactly one with raw data.
pub fn find_debug(y: Summary) -> Option<FileRange>
    requires { y.count ≤ section_limit }
    ensures { result ≡ debug_of y }
{
    let sections = y.sections;
    let t = tally_debug(sections, y.count);
    if t.count == 1 {
        let last = t.last;
        return Some(last);
    }
    None
}

// A length stands before each string.
fn length_field(f: Format) -> Field
    ensures { result ≡ length_field f }
{
    match f {
        Format::Xcoff32 => Width::Two.at(0),
        Format::Xcoff64 => Width::Four.at(0),
    }
}

// The length before the string at the offset `o` of the section `d`.
fn string_length(file: &[u8], f: Format, d: FileRange, o: u64) -> u64
    requires { (d.start.0 + d.length ≤ length file.now) × (length_width f ≤ o) × (o ≤ d.length) }
    ensures { result ≡ length_at f file.now d o }
{
    let l = length_field(f);
    let width = l.width;
    let start = d.start;
    let at = start.0 + o - word::bytes_in(width) as u64;
    word::read_field(file, at as usize, l)
}

// Whether the section has a string at the offset `o`: its length and its bytes are inside.
pub fn has_string(file: &[u8], f: Format, d: Option<FileRange>, o: u64) -> bool
    requires { DebugInside (length file.now) d }
    ensures { result ≡ has_string f file.now d o }
{
    match d {
        None => false,
        Some(r) => {
            let l = length_field(f);
            let width = l.width;
            if o < word::bytes_in(width) as u64 {
                return false;
            }
            if r.length < o {
                return false;
            }
            !word::ends_past(o, string_length(file, f, r, o), r.length)
        }
    }
}

// The bytes of the string at the offset `o`.
pub fn string_range(file: &[u8], f: Format, d: Option<FileRange>, o: u64) -> FileRange
    requires { DebugInside (length file.now) d × (has_string f file.now d o ≡ true) }
    ensures { result ≡ string_range f file.now d o }
{
    match d {
        None => FileRange {
            start: FileOffset(0),
            length: 0,
        },
        Some(r) => {
            let start = r.start;
            let at = start.0 + o;
            FileRange {
                start: FileOffset(at),
                length: string_length(file, f, r, o),
            }
        }
    }
}
