// Whether the symbol table shares a byte with the header area or a debug section.
#![tactic(auto)]

ghost use Rattle.std.specs.Prelude.{◌≡◌, cond, ◌||◌, ◌≤◌};
ghost use Rattle.format.specs.Limit.{file_limit, section_limit};
ghost use Rattle.debug_section.specs.Debug.{is_debug, raw_of, debug_ranges};
ghost use Rattle.shared_range.specs.Shared.{shares, shares_one};
ghost use Rattle.shared_symbols.specs.Shared.{is_shared};

use format::{FileOffset, FileRange};
use header::Summary;
use section::Section;
use section_kind::SectionKind;

// One section more: whether the range shares a byte with it, if it is a debug section with raw data, or with one before it.
fn shares_section(a: FileRange, s: Section, before: bool) -> bool
    ensures { result ≡ cond (is_debug s) (shares a (raw_of s) || before) before }
{
    let k = s.kind;
    if k.flags() != SectionKind::DEBUG {
        return before;
    }
    if !s.raw {
        return before;
    }
    let start = s.scnptr;
    let raw = FileRange {
        start,
        length: s.size,
    };
    if shared_range::share_byte(a, raw) {
        return true;
    }
    before
}

// Whether the range shares a byte with the raw data of a debug section.
fn shares_debug(a: FileRange, sections: [Section; 32], count: u64) -> bool
    requires { count ≤ section_limit }
    ensures { result ≡ shares_one a (debug_ranges sections count) }
{
    let mut shared = false;
    for s in &sections[..count as usize] {
        shared = shares_section(a, *s, shared);
    }
    shared
}

// SHARED of an opened file, by its summary.
pub fn is_shared(y: Summary) -> bool
    requires { (y.count ≤ section_limit) × (y.opthdr ≤ file_limit) × (y.symbols.count ≤ file_limit) }
    ensures { result ≡ is_shared y }
{
    let f = y.format;
    let symbols = y.symbols;
    let start = symbols.start;
    let table = FileRange {
        start,
        length: symbols.count * format::SYMBOL_LENGTH,
    };
    let headers = FileRange {
        start: FileOffset(0),
        length: file_header::section_start(f, y.opthdr, y.count),
    };
    if shared_range::share_byte(table, headers) {
        return true;
    }
    let sections = y.sections;
    shares_debug(table, sections, y.count)
}
