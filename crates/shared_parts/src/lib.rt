// SHARED: whether parts of a module's file that writing it back reads or sets share a byte.
#![tactic(auto)]

ghost use Rattle.std.specs.Prelude.{◌≡◌, length};
ghost use Rattle.format.specs.Range.{range};
ghost use Rattle.header.specs.Inside.{Inside};
ghost use Rattle.loadable.specs.Valid.{Valid};
ghost use Rattle.shared_range.specs.Shared.{shares_two};
ghost use Rattle.written.specs.Shared.{part_range, strings_size, file_ranges, loader_ranges, is_shared};

use format::{FileOffset, FileRange};
use header::Summary;
use loadable::Loadable;
use parts::Part;

// How many bytes the string table has. Its four length bytes count also where they are 0.
fn strings_size(len: u64, y: Summary) -> u64
    ensures { result ≡ strings_size len y }
{
    let symbols = y.symbols;
    let strings = symbols.strings;
    let start = strings.start;
    if symbols.count == 0 {
        return 0;
    }
    if start.0 == len {
        return 0;
    }
    if strings.length == 0 {
        return 4;
    }
    strings.length
}

fn part_range(p: Part) -> FileRange
    ensures { result ≡ part_range p }
{
    let start = p.start;
    FileRange {
        start,
        length: p.size,
    }
}

fn no_range() -> FileRange
    ensures { result ≡ range 0 0 }
{
    FileRange {
        start: FileOffset(0),
        length: 0,
    }
}

// Two of the header area, the raw text and data, the loader section, the symbol table and the string table share a byte.
fn share_parts(file: &[u8], y: Summary, l: Loadable) -> bool
    requires { Inside file.now y }
    ensures { result ≡ shares_two (file_ranges file.now y l.layout) }
{
    let fm = y.format;
    let header = FileRange {
        start: FileOffset(0),
        length: file_header::section_start(fm, y.opthdr, y.count),
    };
    let m = l.layout;
    let p = m.parts;
    let text = p.text;
    let data = p.data;
    let loader = p.loader;
    let table = y.symbols;
    let table_start = table.start;
    let symbols = FileRange {
        start: table_start,
        length: table.count * format::SYMBOL_LENGTH,
    };
    let string_table = table.strings;
    let string_start = string_table.start;
    let strings = FileRange {
        start: string_start,
        length: strings_size(file.len() as u64, y),
    };
    shared_range::share_two(
        [
            header,
            part_range(text),
            part_range(data),
            part_range(loader),
            symbols,
            strings,
        ],
        6,
    )
}

// Two of the loader section's header, symbols, relocations, ids and strings share a byte.
fn share_tables(file: &[u8], l: Loadable) -> bool
    requires { Valid file.now l }
    ensures { result ≡ shares_two (loader_ranges l) }
{
    let m = l.layout;
    let t = l.tables;
    let fm = m.format;
    let p = m.parts;
    let loader = p.loader;
    let start = loader.start;
    let h = format::loader_layout(fm);
    let r = format::relocation_layout(fm);
    let header = FileRange {
        start,
        length: h.length,
    };
    let symbols_start = t.symbols;
    let symbols = FileRange {
        start: symbols_start,
        length: t.nsyms * format::LOADER_SYMBOL_LENGTH,
    };
    let relocations_start = t.relocations;
    let relocations = FileRange {
        start: relocations_start,
        length: t.nreloc * r.length,
    };
    let ids = t.ids;
    let strings = t.strings;
    shared_range::share_two([header, symbols, relocations, ids, strings, no_range()], 5)
}

// Two of either share a byte.
pub fn shares(file: &[u8], y: Summary, l: Loadable) -> bool
    requires { Inside file.now y × Valid file.now l }
    ensures { result ≡ is_shared file.now y l }
{
    share_parts(file, y, l) || share_tables(file, l)
}
