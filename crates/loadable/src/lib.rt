// The loadable module, judged whole: its sections, its loader section, and every relocation entry in order.
#![tactic(auto)]

ghost use Rattle.std.specs.Prelude.{◌≡◌};
ghost use Rattle.module.specs.Inside.{ModuleInside};
ghost use Rattle.loadable.specs.Loadable.{loadable_in, loadable_at, part_report, anchor_report, report_of_found, report_of_module, module_report};

use loader_header::LoaderTables;
use module::{Anchor, Module};
use parts::Part;
use refusal::{Head, Refusal};

// A module that can be loaded: its sections, and where its loader section's tables lie.
#[derive(Clone, Copy)]
pub struct Loadable {
    pub layout: Module,
    pub tables: LoaderTables,
}

// A section of a module.
#[repr(C)]
#[derive(Clone, Copy)]
pub struct PartReport {
    pub number: u64,
    pub address: u64,
    pub size: u64,
}

// The entry point or the TOC: section 0 where there is none.
#[repr(C)]
#[derive(Clone, Copy)]
pub struct AnchorReport {
    pub section: u64,
    pub address: u64,
}

// `loader` is a section number, `image` the data image's length, `ids` how many import ids there are.
#[repr(C)]
#[derive(Clone, Copy)]
pub struct ModuleReport {
    pub head: Head,
    pub bits: u64,
    pub text: PartReport,
    pub data: PartReport,
    pub bss: PartReport,
    pub loader: u64,
    pub image: u64,
    pub symbols: u64,
    pub relocations: u64,
    pub ids: u64,
    pub entry: AnchorReport,
    pub toc: AnchorReport,
}

// The loader section and the relocation entries of a module whose sections are accepted.
fn load(file: &[u8], m: Module) -> Result<Loadable, Refusal>
    requires { ModuleInside file.now m }
    ensures { result ≡ loadable_in file.now (Ok m) }
{
    let tables = loader::read_loader(file, m)?;
    let f = m.format;
    let p = m.parts;
    loader_entries::check_entries(file, f, p, tables)?;
    Ok(Loadable { layout: m, tables })
}

// The module in a file: every number that a host needs of it.
pub fn module_of(file: &[u8]) -> Result<Loadable, Refusal>
    ensures cause { result ≡ loadable_at file.now }
    ensures report { report_of_module file.now result ≡ module_report file.now }
{
    let m = module_layout::find_module(file)?;
    load(file, m)
}

fn report_part(p: Part) -> PartReport
    ensures { result ≡ part_report p.number.0 p.address.0 p.size }
{
    let number = p.number;
    let address = p.address;
    PartReport {
        number: number.0,
        address: address.0,
        size: p.size,
    }
}

fn report_anchor(a: Anchor) -> AnchorReport
    ensures { result ≡ anchor_report a.section.0 a.address.0 }
{
    let section = a.section;
    let address = a.address;
    AnchorReport {
        section: section.0,
        address: address.0,
    }
}

fn report_refused(file: &[u8], x: Refusal) -> ModuleReport
    ensures { result ≡ report_of_module file.now (Err x) }
{
    let part = PartReport {
        number: 0,
        address: 0,
        size: 0,
    };
    let anchor = AnchorReport {
        section: 0,
        address: 0,
    };
    ModuleReport {
        head: offset::refusal_head(file, x),
        bits: 0,
        text: part,
        data: part,
        bss: part,
        loader: 0,
        image: 0,
        symbols: 0,
        relocations: 0,
        ids: 0,
        entry: anchor,
        toc: anchor,
    }
}

fn report_found(l: Loadable) -> ModuleReport
    ensures { result ≡ report_of_found l }
{
    let m = l.layout;
    let p = m.parts;
    let text = p.text;
    let data = p.data;
    let bss = p.bss;
    let loader = p.loader;
    let number = loader.number;
    let t = l.tables;
    let f = m.format;
    let entry = m.entry;
    let toc = m.toc;
    ModuleReport {
        head: refusal::accepted_head(),
        bits: format::bits_of(f),
        text: report_part(text),
        data: report_part(data),
        bss: report_part(bss),
        loader: number.0,
        image: m.image,
        symbols: t.nsyms,
        relocations: t.nreloc,
        ids: t.nimpid,
        entry: report_anchor(entry),
        toc: report_anchor(toc),
    }
}

pub fn report_module(file: &[u8], a: Result<Loadable, Refusal>) -> ModuleReport
    ensures { result ≡ report_of_module file.now a }
{
    match a {
        Err(x) => report_refused(file, x),
        Ok(l) => report_found(l),
    }
}
