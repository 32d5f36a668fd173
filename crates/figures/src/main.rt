// Document 01's bench figures that are not computed from definitions: made files through the real operations, a line for each.
#![tactic(auto)]

use refusal::Refusal;
use std::io;

fn put2(s: &mut [u8], at: usize, v: u16) {
    if s.len() < 2 {
        return;
    }
    if at <= s.len() - 2 {
        update::put16(s, at, v);
    }
}

fn put4(s: &mut [u8], at: usize, v: u32) {
    if s.len() < 4 {
        return;
    }
    if at <= s.len() - 4 {
        update::put32(s, at, v);
    }
}

// A section header: both addresses, size, raw data and flags.
fn put_section(s: &mut [u8], at: u16, address: u32, size: u32, start: u32, flags: u32) {
    let base = at as usize;
    put4(s, base + 8, address);
    put4(s, base + 12, address);
    put4(s, base + 16, size);
    put4(s, base + 20, start);
    put4(s, base + 36, flags);
}

// The auxiliary header of the module below.
fn put_auxiliary(s: &mut [u8], address: u32, size: u32) {
    put4(s, 24, size);
    put4(s, 40, address);
    put2(s, 54, 1);
    put2(s, 56, 2);
    put2(s, 60, 4);
    put2(s, 62, 3);
}

// A module with a text section of `text` bytes at `address`, empty data and bss, and a loader section of `length` bytes at `start`.
fn put_module(s: &mut [u8], address: u32, text: u32, start: u32, length: u32) {
    put2(s, 0, 0x01DF);
    put2(s, 2, 4);
    put2(s, 16, 72);
    put_auxiliary(s, address, text);
    put_sections(s, address, text, start, length);
}

fn put_sections(s: &mut [u8], address: u32, text: u32, start: u32, length: u32) {
    put_section(s, 92, address, text, 252, 0x0020);
    put_section(s, 132, 0, 0, 0, 0x0040);
    put_section(s, 172, 0, 0, 0, 0x0080);
    put_section(s, 212, 0, length, start, 0x1000);
}

// The header of the loader section at `start`, with `n` relocation entries.
fn put_loader(s: &mut [u8], start: u16, n: u32) {
    let at = start as usize;
    put4(s, at, 1);
    put4(s, at + 8, n);
}

// Relocation entry `i` of that section: a 32-bit field at `address`, text added.
fn put_entry(s: &mut [u8], start: u16, i: u32, address: u32) {
    let at = 32 + start as usize + 12 * i as usize;
    put4(s, at, address);
    put4(s, at + 4, 0);
    put2(s, at + 8, 0x1F00);
    put2(s, at + 10, 1);
}

fn say_refused(rt: &impl Print, x: Refusal) -> io::Result<()> {
    let number = refusal::number(x);
    let item = refusal::item(x);
    println!(rt; "refused {number} {item}")
}

fn judge(rt: &impl Print, s: &[u8]) -> io::Result<()> {
    let a = loadable::module_of(s);
    match a {
        Err(x) => say_refused(rt, x),
        Ok(_) => println!(rt; "accepted"),
    }
}

// A section at 10000000 of 100 hex bytes with one field.
fn try_field(rt: &impl Print, address: u32) -> io::Result<()> {
    let mut s = [0u8; 65536];
    put_module(&mut s, 0x1000_0000, 0x100, 508, 44);
    put_loader(&mut s, 508, 1);
    put_entry(&mut s, 508, 0, address);
    judge(rt, &s)
}

// Two fields of a section at 0.
fn try_fields(rt: &impl Print, first: u32, second: u32) -> io::Result<()> {
    let mut s = [0u8; 65536];
    put_module(&mut s, 0, 0x200, 764, 56);
    put_loader(&mut s, 764, 2);
    put_entry(&mut s, 764, 0, first);
    put_entry(&mut s, 764, 1, second);
    judge(rt, &s)
}

// `n` entries on the text section's first fields, the same field twice where it has fewer.
fn put_entries(s: &mut [u8], start: u16, n: u32) {
    for i in 0..n {
        put_entry(s, start, i, i % 64 * 4);
    }
}

// Room for the module of 100,001 entries.
fn space() -> [u8; 1200552] {
    [0; 1200552]
}

// A module with `n` entries, whose loader section has `length` bytes.
fn try_entries(rt: &impl Print, n: u32, length: u32) -> io::Result<()> {
    let mut s = space();
    put_module(&mut s, 0, 0x100, 508, length);
    put_loader(&mut s, 508, n);
    put_entries(&mut s, 508, n);
    judge(rt, &s)
}

// The flags of `n` sections of padding.
fn put_flags(s: &mut [u8], n: u16) {
    for i in 0..n {
        put4(s, 56 + 40 * i as usize, 0x0008);
    }
}

// A file of `n` sections.
fn try_sections(rt: &impl Print, n: u16) -> io::Result<()> {
    let mut s = [0u8; 65536];
    put2(&mut s, 0, 0x01DF);
    put2(&mut s, 2, n);
    put_flags(&mut s, n);
    let o = header::open(&s);
    let v = o.verdict;
    match v {
        Err(x) => say_refused(rt, x),
        Ok(()) => println!(rt; "accepted"),
    }
}

fn main(rt: HostRuntime) -> io::Result<()> {
    print!(rt; "section 10000000 size 100, field at 100000FC: ")?;
    try_field(&rt, 0x1000_00FC)?;
    print!(rt; "section 10000000 size 100, field at 100000FD: ")?;
    try_field(&rt, 0x1000_00FD)?;
    print!(rt; "fields at 100 and 104: ")?;
    try_fields(&rt, 0x100, 0x104)?;
    print!(rt; "fields at 100 and 100: ")?;
    try_fields(&rt, 0x100, 0x100)?;
    print!(rt; "fields at 100 and 102: ")?;
    try_fields(&rt, 0x100, 0x102)?;
    print!(rt; "32 sections: ")?;
    try_sections(&rt, 32)?;
    print!(rt; "33 sections: ")?;
    try_sections(&rt, 33)?;
    print!(rt; "100,000 entries: ")?;
    try_entries(&rt, 100000, 1200032)?;
    print!(rt; "100,001 entries: ")?;
    try_entries(&rt, 100001, 1200044)
}
