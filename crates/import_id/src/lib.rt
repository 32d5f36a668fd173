// An import id's three strings looked up: the module's refusals, then INDEX. They are parts of the file.
#![tactic(auto)]

ghost use Rattle.std.specs.Prelude.{◌≡◌, ◌+◌, ◌-◌, ◌*◌, ◌≤◌, ◌<◌, length};
ghost use Rattle.word.specs.Zero.{zeros_in};
ghost use Rattle.format.specs.Limit.{file_limit};
ghost use Rattle.format.specs.Range.{bytes_of};
ghost use Rattle.offset.specs.Report.{report_of_range};
ghost use Rattle.refusal.specs.Part.{range_bytes};
ghost use Rattle.import_id.specs.Import.{string_start, string_of, place_of, import_at};

use format::{FileOffset, FileRange};
use refusal::{IndexItem, Refusal};

// The three strings of an import id.
#[derive(Clone, Copy)]
pub enum ImportString {
    Path,
    Base,
    Member,
}

// Where string `j` of zero-ended strings starts.
fn string_start(s: &[u8], j: u64) -> usize
    requires { (j ≤ zeros_in s.now) × (length s.now ≤ file_limit) }
    ensures { result ≡ string_start s.now j }
{
    let mut at: usize = 0;
    for _k in 0..j {
        at = at + word::first_zero(&s[at..]) + 1;
    }
    at
}

// String `j` of the import id table.
fn string_of(file: &[u8], ids: FileRange, j: u64) -> FileRange
    requires { (ids.start.0 + ids.length ≤ length file.now) × (j < zeros_in (bytes_of file.now ids)) × (length file.now ≤ file_limit) }
    ensures { result ≡ string_of file.now ids j }
{
    let from = ids.start;
    let start = from.0 as usize;
    let end = start + ids.length as usize;
    let s = &file[start..end];
    let at = string_start(s, j);
    FileRange {
        start: FileOffset(from.0 + at as u64),
        length: word::first_zero(&s[at..]) as u64,
    }
}

fn place_of(w: ImportString) -> u64
    ensures value { result ≡ place_of w }
    ensures bound { result < 3 }
{
    match w {
        ImportString::Path => 0,
        ImportString::Base => 1,
        ImportString::Member => 2,
    }
}

// Where a string of import id `n` lies.
pub fn import_range(file: &[u8], n: u64, w: ImportString) -> Result<FileRange, Refusal>
    ensures cause { result ≡ import_at file.now n w }
    ensures report { report_of_range file.now result ≡ report_of_range file.now (import_at file.now n w) }
{
    let l = loadable::module_of(file)?;
    let t = l.tables;
    if n < t.nimpid {
        let ids = t.ids;
        return Ok(string_of(file, ids, 3 * n + place_of(w)));
    }
    Err(Refusal::Index(IndexItem::NoImportId(n)))
}

// The path of import id `n`: the very bytes of the file, none on a refusal.
pub fn import_path<'a>(file: &'a [u8], n: u64) -> &'a [u8]
    ensures { result.now ≡ range_bytes file.now (import_at file.now n ImportString.Path) }
{
    let a = import_range(file, n, ImportString::Path);
    refusal::part_of(file, a)
}

// Its base name.
pub fn import_base<'a>(file: &'a [u8], n: u64) -> &'a [u8]
    ensures { result.now ≡ range_bytes file.now (import_at file.now n ImportString.Base) }
{
    let a = import_range(file, n, ImportString::Base);
    refusal::part_of(file, a)
}

// Its archive member.
pub fn import_member<'a>(file: &'a [u8], n: u64) -> &'a [u8]
    ensures { result.now ≡ range_bytes file.now (import_at file.now n ImportString.Member) }
{
    let a = import_range(file, n, ImportString::Member);
    refusal::part_of(file, a)
}
