// The kinds of section that a header's flags may name: the list of the allowed ones, and what flags are decided to be by it.
#![tactic(auto)]

ghost use Rattle.std.specs.Prelude.{◌≡◌, ◌||◌, ◌+◌, ◌≤◌, eqb, length};
ghost use Rattle.std.proofs.lemmas.List.Edits.{sets};
ghost use Rattle.section_kind.specs.Kind.{flags_of, listed_kind, kind_of, has_raw_kind, is_placed_kind, kind_word};

#[derive(Clone, Copy)]
pub enum SectionKind {
    Deleted,
    Pad,
    Dwarf,
    Text,
    Data,
    Bss,
    Except,
    Info,
    Tdata,
    Tbss,
    Loader,
    Debug,
    Typchk,
    Ovrflo,
}

impl SectionKind {
    // The low 16 bits of the flags of each allowed kind.
    pub const PAD: u64 = 0x0008;

    pub const DWARF: u64 = 0x0010;

    pub const TEXT: u64 = 0x0020;

    pub const DATA: u64 = 0x0040;

    pub const BSS: u64 = 0x0080;

    pub const EXCEPT: u64 = 0x0100;

    pub const INFO: u64 = 0x0200;

    pub const TDATA: u64 = 0x0400;

    pub const TBSS: u64 = 0x0800;

    pub const LOADER: u64 = 0x1000;

    pub const DEBUG: u64 = 0x2000;

    pub const TYPCHK: u64 = 0x4000;

    pub const OVRFLO: u64 = 0x8000;

    // Flags of all ones: the section is deleted.
    pub const DELETED: u64 = 0xFFFF_FFFF;

    // The allowed kinds.
    pub const LIST: [SectionKind; 13] = [
        SectionKind::Pad,
        SectionKind::Dwarf,
        SectionKind::Text,
        SectionKind::Data,
        SectionKind::Bss,
        SectionKind::Except,
        SectionKind::Info,
        SectionKind::Tdata,
        SectionKind::Tbss,
        SectionKind::Loader,
        SectionKind::Debug,
        SectionKind::Typchk,
        SectionKind::Ovrflo,
    ];

    // The kind's own constant.
    pub fn flags(self) -> u64
        ensures { result ≡ flags_of self }
    {
        match self {
            SectionKind::Deleted => SectionKind::DELETED,
            SectionKind::Pad => SectionKind::PAD,
            SectionKind::Dwarf => SectionKind::DWARF,
            SectionKind::Text => SectionKind::TEXT,
            SectionKind::Data => SectionKind::DATA,
            SectionKind::Bss => SectionKind::BSS,
            SectionKind::Except => SectionKind::EXCEPT,
            SectionKind::Info => SectionKind::INFO,
            SectionKind::Tdata => SectionKind::TDATA,
            SectionKind::Tbss => SectionKind::TBSS,
            SectionKind::Loader => SectionKind::LOADER,
            SectionKind::Debug => SectionKind::DEBUG,
            SectionKind::Typchk => SectionKind::TYPCHK,
            SectionKind::Ovrflo => SectionKind::OVRFLO,
        }
    }

    // The kind of the list that has these low 16 bits.
    fn listed(low: u64) -> Option<SectionKind>
        ensures { result ≡ listed_kind low }
    {
        SectionKind::LIST.iter().find(|k| k.flags() == low).copied()
    }

    // The high 16 bits are 0, for dwarf not looked at.
    fn is_high_half_good(high: u64, low: u64) -> bool
        ensures { result ≡ (eqb high 0 || eqb low (flags_of SectionKind.Dwarf)) }
    {
        if high == 0 {
            return true;
        }
        low == SectionKind::DWARF
    }

    // What a section header's flags are decided to be.
    pub fn of_flags(flags: u64) -> Option<SectionKind>
        ensures { result ≡ kind_of flags }
    {
        if flags == SectionKind::DELETED {
            return Some(SectionKind::Deleted);
        }
        let low = flags % 65536;
        if SectionKind::is_high_half_good(flags / 65536, low) {
            return SectionKind::listed(low);
        }
        None
    }

    // Whether sections of this kind may have raw data in the file. A deleted section is not examined, so it has none.
    pub fn may_have_raw(self) -> bool
        ensures { result ≡ has_raw_kind self }
    {
        let f = self.flags();
        if f == SectionKind::BSS {
            return false;
        }
        if f == SectionKind::TBSS {
            return false;
        }
        if f == SectionKind::OVRFLO {
            return false;
        }
        f != SectionKind::DELETED
    }

    // Whether the addresses of sections of this kind are examined.
    pub fn is_placed(self) -> bool
        ensures { result ≡ is_placed_kind self }
    {
        let f = self.flags();
        if f == SectionKind::TEXT {
            return true;
        }
        if f == SectionKind::DATA {
            return true;
        }
        f == SectionKind::BSS
    }

    // Writes the kind's word, as document 01 has it.
    pub fn put_word(self, out: &mut [u8; 2048], at: usize) -> usize
        requires { at + 7 ≤ 2048 }
        ensures next { result ≡ at + length (kind_word self) }
        ensures text { out.new ≡ sets out.old at (kind_word self) }
        ensures short { result ≤ at + 7 }
    {
        match self {
            SectionKind::Pad => text::put_bytes(out, at, b"pad"),
            SectionKind::Dwarf => text::put_bytes(out, at, b"dwarf"),
            SectionKind::Text => text::put_bytes(out, at, b"text"),
            SectionKind::Data => text::put_bytes(out, at, b"data"),
            SectionKind::Bss => text::put_bytes(out, at, b"bss"),
            SectionKind::Except => text::put_bytes(out, at, b"except"),
            SectionKind::Info => text::put_bytes(out, at, b"info"),
            SectionKind::Tdata => text::put_bytes(out, at, b"tdata"),
            SectionKind::Tbss => text::put_bytes(out, at, b"tbss"),
            SectionKind::Loader => text::put_bytes(out, at, b"loader"),
            SectionKind::Debug => text::put_bytes(out, at, b"debug"),
            SectionKind::Typchk => text::put_bytes(out, at, b"typchk"),
            SectionKind::Ovrflo => text::put_bytes(out, at, b"ovrflo"),
            SectionKind::Deleted => text::put_bytes(out, at, b"deleted"),
        }
    }
}
