// The addresses that a file records put into a copy of it anew, as a plan has them.
#![tactic(auto)]

ghost use Rattle.std.specs.Prelude.{◌≡◌, ◌+◌, ◌≤◌, ◌<◌, length, get_or};
ghost use Rattle.format.specs.Layout.{header_layout, section_layout, aux_layout};
ghost use Rattle.format.proofs.Layouts.{FieldInside};
ghost use Rattle.section_kind.specs.Kind.{flags_of};
ghost use Rattle.header.specs.Inside.{Inside};
ghost use Rattle.loadable.specs.Valid.{Valid};
ghost use Rattle.frame.specs.Change.{each_from};
ghost use Rattle.written.specs.Written.{flag_follows, anchor_follows, entry_follows, moves, put_address, put_header, put_section, put_aux, put_symbol, put_entry};
ghost use Rattle.address_put.specs.New.{ImportIn, ForFormat};

use format::Format;
use header::Summary;
use history::Followed;
use loadable::Loadable;
use module::Anchor;
use parts::Parts;
use relocation::RelocationEntry;
use section_kind::SectionKind;
use word::Field;

// ---- what each recorded address follows

// Bss moves with data.
fn kind_follows(k: SectionKind) -> Followed
    ensures { result ≡ flag_follows (flags_of k) }
{
    let flag = k.flags();
    if flag == SectionKind::TEXT {
        return Followed::Text;
    }
    if flag == SectionKind::DATA {
        return Followed::Data;
    }
    if flag == SectionKind::BSS {
        return Followed::Data;
    }
    Followed::Nothing
}

// Section 0 means that there is no entry point or TOC anchor.
fn anchor_follows(p: Parts, a: Anchor) -> Followed
    ensures { result ≡ anchor_follows p a }
{
    let section = a.section;
    if section.0 == 0 {
        return Followed::Nothing;
    }
    let text = p.text;
    let number = text.number;
    if section.0 == number.0 {
        return Followed::Text;
    }
    Followed::Data
}

fn entry_follows(p: Parts, e: RelocationEntry) -> Followed
    ensures { result ≡ entry_follows p e }
{
    let text = p.text;
    let number = text.number;
    if e.scnum == number.0 {
        return Followed::Text;
    }
    Followed::Data
}

// ---- one address

fn does_move(f: Followed) -> bool
    ensures { result ≡ moves f }
{
    match f {
        Followed::Text => true,
        Followed::Data => true,
        Followed::Import(_, _) => true,
        Followed::Nothing => false,
    }
}

fn import_address(imports: &[u64], k: u64) -> u64
    requires { k < length imports.now }
    ensures { result ≡ get_or imports.now k 0 }
{
    imports[k as usize]
}

// What a recorded address is in a plan. `d` has what text, data and bss move by.
fn new_address(fm: Format, d: [u64; 3], imports: &[u64], f: Followed, a: u64) -> u64
    requires { ImportIn (length imports.now) f }
    ensures { ForFormat fm d imports.now (λ new. result ≡ new f a) }
{
    match f {
        Followed::Text => displacement::add_address(fm, a, d[0]),
        Followed::Data => displacement::add_address(fm, a, d[1]),
        Followed::Import(k, _) => import_address(imports, k),
        Followed::Nothing => a,
    }
}

// Puts the address at the place `at` of what starts at `base` in anew. One that follows nothing stays.
fn put_address(
    file: &[u8],
    fm: Format,
    d: [u64; 3],
    imports: &[u64],
    f: Followed,
    at: Field,
    base: usize,
    out: &mut [u8],
)
    requires { FieldInside at base (length file.now) × (length out.old ≡ length file.now) × ImportIn (length imports.now) f }
    ensures { ForFormat fm d imports.now (λ new. out.new ≡ put_address new file.now f at base out.old) }
{
    if does_move(f) {
        let old = word::read_field(file, base, at);
        let new = new_address(fm, d, imports, f, old);
        file_copy::put_number(out, base, at, new);
    }
}

// ---- section headers

// Both addresses of the section header at `base`.
fn put_header(
    file: &[u8],
    fm: Format,
    d: [u64; 3],
    imports: &[u64],
    f: Followed,
    base: usize,
    out: &mut [u8],
)
    requires { (base + (section_layout fm).length ≤ length file.now) × (length out.old ≡ length file.now) × ImportIn (length imports.now) f }
    ensures { ForFormat fm d imports.now (λ new. out.new ≡ put_header new file.now fm f base out.old) }
{
    let s = format::section_layout(fm);
    let paddr = s.paddr;
    let vaddr = s.vaddr;
    put_address(file, fm, d, imports, f, paddr, base, out);
    put_address(file, fm, d, imports, f, vaddr, base, out);
}

// Of section `i` + 1.
fn put_section(file: &[u8], y: Summary, d: [u64; 3], imports: &[u64], i: u64, out: &mut [u8])
    requires { Inside file.now y × (i < y.count) × (length out.old ≡ length file.now) }
    ensures { ForFormat y.format d imports.now (λ new. out.new ≡ put_section new file.now y i out.old) }
{
    let fm = y.format;
    let sections = y.sections;
    let s = sections[i as usize];
    let k = s.kind;
    let base = file_header::section_start(fm, y.opthdr, i);
    put_header(file, fm, d, imports, kind_follows(k), base as usize, out);
}

// Of each section.
pub fn put_sections(file: &[u8], y: Summary, d: [u64; 3], imports: &[u64], out: &mut [u8])
    requires { Inside file.now y × (length out.old ≡ length file.now) }
    ensures { ForFormat y.format d imports.now (λ new. out.new ≡ each_from (put_section new file.now y) 0 y.count out.old) }
{
    for i in 0..y.count {
        put_section(file, y, d, imports, i, out);
    }
}

// ---- the auxiliary header

// The starts of text and data.
fn put_starts(file: &[u8], fm: Format, d: [u64; 3], imports: &[u64], base: usize, out: &mut [u8])
    requires { (base + (aux_layout fm).length ≤ length file.now) × (length out.old ≡ length file.now) }
    ensures { ForFormat fm d imports.now (λ new. out.new ≡ put_address new file.now Followed.Text (aux_layout fm).tstart base (put_address new file.now Followed.Data (aux_layout fm).dstart base out.old)) }
{
    let a = format::aux_layout(fm);
    let text = a.tstart;
    let data = a.dstart;
    put_address(file, fm, d, imports, Followed::Data, data, base, out);
    put_address(file, fm, d, imports, Followed::Text, text, base, out);
}

// The TOC anchor, the entry point, then the starts of text and data.
pub fn put_aux(file: &[u8], l: Loadable, d: [u64; 3], imports: &[u64], out: &mut [u8])
    requires { ((header_layout l.layout.format).length + (aux_layout l.layout.format).length ≤ length file.now) × (length out.old ≡ length file.now) }
    ensures { ForFormat l.layout.format d imports.now (λ new. out.new ≡ put_aux new file.now l.layout out.old) }
{
    let m = l.layout;
    let fm = m.format;
    let p = m.parts;
    let entry = m.entry;
    let toc = m.toc;
    let h = format::header_layout(fm);
    let a = format::aux_layout(fm);
    let base = h.length;
    let entry_at = a.entry;
    let toc_at = a.toc;
    put_address(
        file,
        fm,
        d,
        imports,
        anchor_follows(p, toc),
        toc_at,
        base,
        out,
    );
    put_address(
        file,
        fm,
        d,
        imports,
        anchor_follows(p, entry),
        entry_at,
        base,
        out,
    );
    put_starts(file, fm, d, imports, base, out);
}

// ---- loader symbols and relocation entries

// The value of the loader symbol with place `k`.
fn put_symbol(file: &[u8], l: Loadable, d: [u64; 3], imports: &[u64], k: u64, out: &mut [u8])
    requires valid { Valid file.now l × (k < l.tables.nsyms) }
    requires imports_len { (length imports.now ≡ l.tables.nsyms) × (length out.old ≡ length file.now) }
    ensures { ForFormat l.layout.format d imports.now (λ new. out.new ≡ put_symbol new file.now l k out.old) }
{
    let m = l.layout;
    let t = l.tables;
    let fm = m.format;
    let p = m.parts;
    let text = p.text;
    let number = text.number;
    let start = t.symbols;
    let s = format::symbol_layout(fm);
    let value = s.value;
    let f = plan::followed_at(file, fm, start, number, k);
    let base = start.0 + k * format::LOADER_SYMBOL_LENGTH;
    put_address(file, fm, d, imports, f, value, base as usize, out);
}

// Of each loader symbol.
pub fn put_symbols(file: &[u8], l: Loadable, d: [u64; 3], imports: &[u64], out: &mut [u8])
    requires valid { Valid file.now l }
    requires imports_len { (length imports.now ≡ l.tables.nsyms) × (length out.old ≡ length file.now) }
    ensures { ForFormat l.layout.format d imports.now (λ new. out.new ≡ each_from (put_symbol new file.now l) 0 l.tables.nsyms out.old) }
{
    let t = l.tables;
    for k in 0..t.nsyms {
        put_symbol(file, l, d, imports, k, out);
    }
}

// The address of relocation entry `i`.
fn put_entry(file: &[u8], l: Loadable, d: [u64; 3], imports: &[u64], i: u64, out: &mut [u8])
    requires { Valid file.now l × (i < l.tables.nreloc) × (length out.old ≡ length file.now) }
    ensures { ForFormat l.layout.format d imports.now (λ new. out.new ≡ put_entry new file.now l i out.old) }
{
    let m = l.layout;
    let t = l.tables;
    let fm = m.format;
    let p = m.parts;
    let e = relocation::entry_in(file, fm, t, i);
    let r = format::relocation_layout(fm);
    let address = r.address;
    let table = t.relocations;
    let base = table.0 + i * r.length;
    put_address(
        file,
        fm,
        d,
        imports,
        entry_follows(p, e),
        address,
        base as usize,
        out,
    );
}

// Of each relocation entry.
pub fn put_entries(file: &[u8], l: Loadable, d: [u64; 3], imports: &[u64], out: &mut [u8])
    requires { Valid file.now l × (length out.old ≡ length file.now) }
    ensures { ForFormat l.layout.format d imports.now (λ new. out.new ≡ each_from (put_entry new file.now l) 0 l.tables.nreloc out.old) }
{
    let t = l.tables;
    for i in 0..t.nreloc {
        put_entry(file, l, d, imports, i, out);
    }
}
