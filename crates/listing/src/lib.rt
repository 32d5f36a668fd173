// The header lister's text: a line for the file and one for each section, or the refusal.
#![tactic(auto)]

ghost use Rattle.std.specs.Prelude.{◌≡◌, ◌+◌, ◌≤◌, ◌<◌, length, take};
ghost use Rattle.std.proofs.lemmas.List.Edits.{sets};
ghost use Rattle.text.specs.Text.{hex};
ghost use Rattle.listing.specs.Listing.{address_digits, format_word, file_line, section_line, section_lines, refusal_line, summary_text, listing, Counts};

use format::{Format, VirtualAddress};
use header::Summary;
use refusal::Head;
use section::Section;

fn put_format(out: &mut [u8; 2048], f: Format) -> usize
    ensures next { result ≡ length (format_word f) }
    ensures text { out.new ≡ sets out.old 0 (format_word f) }
    ensures short { result ≤ 7 }
{
    match f {
        Format::Xcoff32 => text::put_bytes(out, 0, b"XCOFF32"),
        Format::Xcoff64 => text::put_bytes(out, 0, b"XCOFF64"),
    }
}

fn put_address(out: &mut [u8; 2048], at: usize, f: Format, a: VirtualAddress) -> usize
    requires { at + 16 ≤ 2048 }
    ensures next { result ≡ at + length (hex (address_digits f) a.0) }
    ensures text { out.new ≡ sets out.old at (hex (address_digits f) a.0) }
    ensures short { result ≤ at + 16 }
{
    match f {
        Format::Xcoff32 => text::put_hex(out, at, 8, a.0),
        Format::Xcoff64 => text::put_hex(out, at, 16, a.0),
    }
}

// The line of section `n`. It is at most 49 bytes long, with a number of two digits and a size of 20.
fn put_section_line(out: &mut [u8; 2048], at: usize, f: Format, n: u64, s: Section) -> usize
    requires { (at + 49 ≤ 2048) × (n < 100) }
    ensures next { result ≡ at + length (section_line f n s) }
    ensures text { out.new ≡ sets out.old at (section_line f n s) }
    ensures short { result ≤ at + 49 }
{
    let kind = s.kind;
    let address = s.paddr;
    let at = text::put_decimal(out, at, n);
    let at = text::put_byte(out, at, b' ');
    let at = kind.put_word(out, at);
    let at = text::put_byte(out, at, b' ');
    let at = put_address(out, at, f, address);
    let at = text::put_byte(out, at, b' ');
    let at = text::put_decimal(out, at, s.size);
    text::put_byte(out, at, b'\n')
}

// The lines of the first `count` sections. 50 bytes and 32 lines are below 2,048.
fn put_section_lines(
    out: &mut [u8; 2048],
    at: usize,
    f: Format,
    sections: [Section; 32],
    count: usize,
) -> usize
    requires { (at ≤ 50) × (count ≤ 32) }
    ensures next { result ≡ at + length (section_lines f 1 (take count sections)) }
    ensures text { out.new ≡ sets out.old at (section_lines f 1 (take count sections)) }
    ensures short { result ≤ 2048 }
{
    let mut next = at;
    for (i, s) in sections[..count].iter().enumerate() {
        next = put_section_line(out, next, f, i as u64 + 1, *s);
    }
    next
}

// The first line: at most 50 bytes.
fn put_file_line(out: &mut [u8; 2048], f: Format, sections: u64, symbols: u64) -> usize
    ensures next { result ≡ length (file_line f sections symbols) }
    ensures text { out.new ≡ sets out.old 0 (file_line f sections symbols) }
    ensures short { result ≤ 50 }
{
    let at = put_format(out, f);
    let at = text::put_byte(out, at, b' ');
    let at = text::put_decimal(out, at, sections);
    let at = text::put_byte(out, at, b' ');
    let at = text::put_decimal(out, at, symbols);
    text::put_byte(out, at, b'\n')
}

fn put_refusal_line(out: &mut [u8; 2048], h: Head) -> usize
    ensures next { result ≡ length (refusal_line h) }
    ensures text { out.new ≡ sets out.old 0 (refusal_line h) }
    ensures short { result ≤ 2048 }
{
    let at = text::put_bytes(out, 0, b"refused");
    let at = text::put_byte(out, at, b' ');
    let at = text::put_decimal(out, at, h.number);
    let at = text::put_byte(out, at, b' ');
    let at = text::put_decimal(out, at, h.item);
    let at = text::put_byte(out, at, b' ');
    let at = text::put_decimal(out, at, h.offset);
    text::put_byte(out, at, b'\n')
}

fn put_summary(out: &mut [u8; 2048], y: Summary) -> usize
    requires { y.count ≤ 32 }
    ensures next { result ≡ length (summary_text y) }
    ensures text { out.new ≡ sets out.old 0 (summary_text y) }
    ensures short { result ≤ 2048 }
{
    let f = y.format;
    let symbols = y.symbols;
    let sections = y.sections;
    let at = put_file_line(out, f, y.count, symbols.count);
    put_section_lines(out, at, f, sections, y.count as usize)
}

// `end`, stated as a count of the bytes of `out`, so that a caller can lend `&out[..end]`.
fn count_in(end: usize, out: &[u8]) -> usize
    requires { end ≤ length out.now }
    ensures same { result ≡ end }
    ensures within { Counts result out.now }
{
    end
}

// Writes the listing of a file at the start of `out` and hands back its length.
pub fn list_headers(file: &[u8], out: &mut [u8; 2048]) -> usize
    ensures next { result ≡ length (listing file.now) }
    ensures text { out.new ≡ sets out.old 0 (listing file.now) }
    ensures within { Counts result out.new }
{
    let o = header::open(file);
    let v = o.verdict;
    let y = o.summary;
    match v {
        Err(x) => count_in(put_refusal_line(out, offset::refusal_head(file, x)), out),
        Ok(()) => count_in(put_summary(out, y), out),
    }
}
