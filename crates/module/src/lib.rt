// The loadable module: its sections judged in their order, and the extent of its data image.
#![tactic(auto)]

ghost use Rattle.std.specs.Prelude.{◌≡◌, ◌+◌, ◌≤◌, ◌<◌, true, false, ◌||◌, ltb, length};
ghost use Rattle.format.specs.Limit.{data_image_limit};
ghost use Rattle.module.specs.Module.{lacks_data, is_anchor, bss_below, image_length};

use format::{Format, SectionNumber, VirtualAddress};
use parts::{Part, Parts};
use refusal::Refusal;

// The entry point or the TOC anchor: its section, 0 for none, and its recorded address.
#[derive(Clone, Copy)]
pub struct Anchor {
    pub section: SectionNumber,
    pub address: VirtualAddress,
}

#[derive(Clone, Copy)]
pub struct Module {
    pub format: Format,
    pub parts: Parts,
    // the data image's length
    pub image: u64,
    pub entry: Anchor,
    pub toc: Anchor,
}

fn lacks_data(p: Part) -> bool
    ensures { result ≡ lacks_data p }
{
    if p.size == 0 {
        return false;
    }
    !p.raw
}

pub fn is_anchor(p: Parts, n: SectionNumber) -> bool
    ensures { result ≡ is_anchor p n }
{
    let text = p.text;
    let data = p.data;
    if n.0 == 0 {
        return true;
    }
    if auxiliary::same_section(n, text) {
        return true;
    }
    auxiliary::same_section(n, data)
}

// Whether a bss that is not empty starts below the end of data.
pub fn is_bss_below(p: Parts) -> bool
    ensures { result ≡ bss_below p }
{
    let data = p.data;
    let bss = p.bss;
    if bss.size == 0 {
        return false;
    }
    let low = data.address;
    let high = bss.address;
    word::ends_past(low.0, data.size, high.0)
}

// Whether the data image is longer than its limit.
pub fn is_image_past(p: Parts) -> bool
    requires { bss_below p ≡ false }
    ensures { result ≡ ltb data_image_limit (image_length p) }
{
    let data = p.data;
    let bss = p.bss;
    if bss.size == 0 {
        return format::DATA_IMAGE_LIMIT < data.size;
    }
    let low = data.address;
    let high = bss.address;
    word::ends_past(high.0 - low.0, bss.size, format::DATA_IMAGE_LIMIT)
}

pub fn image_length(p: Parts) -> u64
    requires { (bss_below p ≡ false) × (image_length p ≤ data_image_limit) }
    ensures { result ≡ image_length p }
{
    let data = p.data;
    let bss = p.bss;
    if bss.size == 0 {
        return data.size;
    }
    let low = data.address;
    let high = bss.address;
    high.0 - low.0 + bss.size
}

// Whether text, data or the loader section has a size but no raw data.
pub fn any_lacks_data(p: Parts) -> bool
    ensures { result ≡ (lacks_data p.text || lacks_data p.«data» || lacks_data p.loader) }
{
    let text = p.text;
    let data = p.data;
    let loader = p.loader;
    if lacks_data(text) {
        return true;
    }
    if lacks_data(data) {
        return true;
    }
    lacks_data(loader)
}
