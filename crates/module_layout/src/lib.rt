// A file's module: its sections judged together, and what is kept of them.
#![tactic(auto)]

ghost use Rattle.std.specs.Prelude.{◌≡◌, ◌≤◌, ◌<◌, true, length};
ghost use Rattle.format.specs.Layout.{aux_layout};
ghost use Rattle.refusal.specs.Order.{◌or_else◌, by_verdict};
ghost use Rattle.header.specs.Inside.{Inside};
ghost use Rattle.parts.specs.Sections.{tallies_of, one_each, parts_of, thread_check};
ghost use Rattle.module.specs.Module.{parts_check, aux_of, module_with, module_in, module_at};

use auxiliary::AuxHeader;
use format::Format;
use header::Summary;
use module::{Anchor, Module};
use parts::{Parts, Tallies};
use refusal::{AddressItem, LimitItem, ModuleItem, Refusal};

// MODULE 2 to 4, ADDRESS of bss, LIMIT 4.
fn check_parts(p: Parts, a: AuxHeader) -> Result<(), Refusal>
    ensures { result ≡ parts_check p a }
{
    let bss = p.bss;
    let n = bss.number;
    let snentry = a.snentry;
    let sntoc = a.sntoc;
    if !auxiliary::do_numbers_agree(p, a) {
        return Err(Refusal::Module(ModuleItem::AuxHeaderDiffers));
    }
    if !auxiliary::do_sizes_agree(p, a) {
        return Err(Refusal::Module(ModuleItem::AuxHeaderDiffers));
    }
    if module::any_lacks_data(p) {
        return Err(Refusal::Module(ModuleItem::NoRawData));
    }
    if !module::is_anchor(p, snentry) {
        return Err(Refusal::Module(ModuleItem::EntryOrToc));
    }
    if !module::is_anchor(p, sntoc) {
        return Err(Refusal::Module(ModuleItem::EntryOrToc));
    }
    if module::is_bss_below(p) {
        return Err(Refusal::Address(AddressItem::BssBelowData(n)));
    }
    if module::is_image_past(p) {
        return Err(Refusal::Limit(LimitItem::DataImage));
    }
    Ok(())
}

fn module_with(f: Format, p: Parts, a: AuxHeader) -> Module
    requires { parts_check p a ≡ Ok tt }
    ensures { result ≡ module_with f p a }
{
    let snentry = a.snentry;
    let entry = a.entry;
    let sntoc = a.sntoc;
    let toc = a.toc;
    Module {
        format: f,
        parts: p,
        image: module::image_length(p),
        entry: Anchor {
            section: snentry,
            address: entry,
        },
        toc: Anchor {
            section: sntoc,
            address: toc,
        },
    }
}

// The module of an opened file whose section set is right.
fn join_parts(file: &[u8], y: Summary, t: Tallies) -> Result<Module, Refusal>
    requires { Inside file.now y × ((aux_layout y.format).length ≤ y.opthdr) × (t ≡ tallies_of y) × (one_each t ≡ true) }
    ensures { result ≡ by_verdict (thread_check y or_else parts_check (parts_of y) (aux_of file.now y)) (Ok (module_with y.format (parts_of y) (aux_of file.now y))) Err }
{
    let sections = y.sections;
    parts::check_thread(sections, y.count)?;
    let f = y.format;
    let l = format::header_layout(f);
    let a = auxiliary::read_aux(file, f, l.length);
    let p = parts::find_parts(y, t);
    check_parts(p, a)?;
    Ok(module_with(f, p, a))
}

// The module of an opened file.
fn module_in(file: &[u8], y: Summary) -> Result<Module, Refusal>
    requires { Inside file.now y }
    ensures { result ≡ module_in file.now y }
{
    let f = y.format;
    let l = format::aux_layout(f);
    if y.opthdr < l.length {
        return Err(Refusal::Module(ModuleItem::ShortAuxHeader));
    }
    let t = parts::tally_all(y);
    if parts::has_one_each(t) {
        return join_parts(file, y, t);
    }
    Err(Refusal::Module(ModuleItem::SectionSet))
}

// The module that a file is: opening's refusals, then the module's own.
pub fn find_module(file: &[u8]) -> Result<Module, Refusal>
    ensures { result ≡ module_at file.now }
{
    let o = header::open(file);
    o.verdict?;
    let y = o.summary;
    module_in(file, y)
}
