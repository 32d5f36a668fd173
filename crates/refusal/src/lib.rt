// Why a file, plan, sheet or buffer is refused: one case for each number of document 01, and under it one for each cause.
#![tactic(auto)]

ghost use Rattle.std.specs.Prelude.{◌≡◌, length};
ghost use Rattle.refusal.specs.Part.{range_bytes, range_found, Within};
ghost use Rattle.refusal.specs.Refusal.{number_of, item_of, accepted_head, refused_head, one_if, limit_item, bounds_item, address_item, index_item, module_item, thread_item, loader_item, plan_item, room_item};

use format::{FileOffset, FileRange, SectionNumber, SymbolIndex};

// 3 LIMIT: which limit is passed.
#[derive(Clone, Copy)]
pub enum LimitItem {
    File,
    Sections,
    LoaderSymbols,
    SheetList,
    Relocations,
    DataImage,
    // the report of a salvage, judged last
    SalvageReport,
}

// 5 BOUNDS: what passes the file's end.
#[derive(Clone, Copy)]
pub enum BoundsItem {
    RawData(SectionNumber),
    // a section's relocation or line table, or its overflow header is not there exactly once
    SectionTable(SectionNumber),
    SymbolTable,
    StringTable,
}

// 6 ADDRESS: a section's own addresses are wrong, or a module's bss lies below its data's end.
#[derive(Clone, Copy)]
pub enum AddressItem {
    Misplaced(SectionNumber),
    BssBelowData(SectionNumber),
}

// 8 INDEX: what was asked for and is not there.
#[derive(Clone, Copy)]
pub enum IndexItem {
    NoSection(SectionNumber),
    NoSymbol(SymbolIndex),
    NoLoaderSymbol(u64),
    NoImportId(u64),
    // of the address table
    NoBench(u64),
}

// 13 MODULE: why a file is not loadable.
#[derive(Clone, Copy)]
pub enum ModuleItem {
    ShortAuxHeader,
    SectionSet,
    AuxHeaderDiffers,
    NoRawData,
    EntryOrToc,
}

// A relocation entry of the loader section, from 0: an entry's number alone does not say which table it is in.
#[derive(Clone, Copy)]
pub struct LoaderRelocation(pub u64);

// A relocation entry in a section's own table: the section, the entry's index in its table, and its number, which runs on from
// table to table, both from 0.
#[derive(Clone, Copy)]
pub struct SectionRelocation {
    pub section: SectionNumber,
    pub index: u64,
    pub number: u64,
}

// 14 THREAD: a tdata or tbss section, or a relocation entry with symbol index -1 or -2.
#[derive(Clone, Copy)]
pub enum ThreadItem {
    ThreadSection(SectionNumber),
    ThreadSymbol(LoaderRelocation),
}

// 15 LOADER: what is wrong with the loader header, or which table passes the section.
#[derive(Clone, Copy)]
pub enum LoaderItem {
    ShortHeader,
    Version,
    SymbolsPast,
    RelocationsPast,
    ImportIdsPast,
    StringsPast,
}

// 19 PLAN: the address that does not fit; an import by its loader symbol, from 3; of an object file a section.
#[derive(Clone, Copy)]
pub enum PlanItem {
    TextAddress,
    DataAddress,
    ImportAddress(u64),
    SectionAddress(SectionNumber),
}

// 20 ROOM: the lent buffer that is not exactly as long as needed.
#[derive(Clone, Copy)]
pub enum RoomItem {
    TextBuffer,
    SheetBuffer,
    // rows of a listed table: item 0, as for the other operation with one buffer
    RowBuffer,
    // the record text, judged after both images
    RecordBuffer,
    // an object file's text and data sections, end to end
    ObjectBuffer,
    // a whole file: a module written for a plan, or a salvaged copy
    FileBuffer,
    DataBuffer,
    AddressList,
}

// In the order of the numbers, 1 SHORT to 32 GROUP.
#[derive(Clone, Copy)]
pub enum Refusal {
    // the file or header area ends early
    Short,
    Magic,
    Limit(LimitItem),
    // section flags not allowed
    Kind(SectionNumber),
    Bounds(BoundsItem),
    Address(AddressItem),
    // a string table length of 1 to 3
    Strings,
    Index(IndexItem),
    // an entry's auxiliaries pass the table's end
    Aux(SymbolIndex),
    // a bad name offset
    Name(SymbolIndex),
    // `n_scnum` names no section
    Scnum(SymbolIndex),
    // no valid csect entry
    Csect(SymbolIndex),
    Module(ModuleItem),
    Thread(ThreadItem),
    Loader(LoaderItem),
    // a loader symbol, from 3
    Lsym(u64),
    Lrel(LoaderRelocation),
    // of an entry in a section's own table
    SectionLrel(SectionRelocation),
    // the later of two relocation entries
    Overlap(LoaderRelocation),
    SectionOverlap(SectionRelocation),
    Plan(PlanItem),
    Room(RoomItem),
    // a malformed plan sheet
    Sheet,
    // a line of the record text, from 1
    Record(u64),
    // an operation for XCOFF32 only
    Form,
    // text and data share an address
    Clash,
    // the first entry on a branch whose sum is out of range
    Range(SectionRelocation),
    // all rows of the address table are taken
    Full,
    // no such row of the address table
    Absent,
    // no name that a row of the address table can have
    Long,
    // parts of the file that must be apart share a byte
    Shared,
    // a symbol type with visibility bits that mean nothing
    Visibility(SymbolIndex),
    // no line entry at or below the address
    NoLine,
    // a line entry before any function entry
    Group,
}

// What every report starts with: document 01's number, 0 where the call is accepted, its item, and where in the file what
// the item names lies.
#[repr(C)]
#[derive(Clone, Copy)]
pub struct Head {
    pub number: u64,
    pub item: u64,
    pub offset: u64,
}

fn limit_item(x: LimitItem) -> u64
    ensures { result ≡ limit_item x }
{
    match x {
        LimitItem::File => 0,
        LimitItem::Sections => 1,
        LimitItem::LoaderSymbols => 2,
        LimitItem::SheetList => 2,
        LimitItem::Relocations => 3,
        LimitItem::DataImage => 4,
        LimitItem::SalvageReport => 5,
    }
}

fn bounds_item(x: BoundsItem) -> u64
    ensures { result ≡ bounds_item x }
{
    match x {
        BoundsItem::RawData(n) => n.0,
        BoundsItem::SectionTable(n) => n.0,
        BoundsItem::SymbolTable => 0,
        BoundsItem::StringTable => 0,
    }
}

fn address_item(x: AddressItem) -> u64
    ensures { result ≡ address_item x }
{
    match x {
        AddressItem::Misplaced(n) => n.0,
        AddressItem::BssBelowData(n) => n.0,
    }
}

fn index_item(x: IndexItem) -> u64
    ensures { result ≡ index_item x }
{
    match x {
        IndexItem::NoSection(n) => n.0,
        IndexItem::NoSymbol(n) => n.0,
        IndexItem::NoLoaderSymbol(i) => i,
        IndexItem::NoImportId(i) => i,
        IndexItem::NoBench(i) => i,
    }
}

fn module_item(x: ModuleItem) -> u64
    ensures { result ≡ module_item x }
{
    match x {
        ModuleItem::ShortAuxHeader => 0,
        ModuleItem::SectionSet => 1,
        ModuleItem::AuxHeaderDiffers => 2,
        ModuleItem::NoRawData => 3,
        ModuleItem::EntryOrToc => 4,
    }
}

fn thread_item(x: ThreadItem) -> u64
    ensures { result ≡ thread_item x }
{
    match x {
        ThreadItem::ThreadSection(n) => n.0,
        ThreadItem::ThreadSymbol(i) => i.0,
    }
}

fn loader_item(x: LoaderItem) -> u64
    ensures { result ≡ loader_item x }
{
    match x {
        LoaderItem::ShortHeader => 0,
        LoaderItem::Version => 1,
        LoaderItem::SymbolsPast => 2,
        LoaderItem::RelocationsPast => 3,
        LoaderItem::ImportIdsPast => 4,
        LoaderItem::StringsPast => 5,
    }
}

fn plan_item(x: PlanItem) -> u64
    ensures { result ≡ plan_item x }
{
    match x {
        PlanItem::TextAddress => 0,
        PlanItem::DataAddress => 1,
        PlanItem::ImportAddress(i) => i,
        PlanItem::SectionAddress(n) => n.0,
    }
}

fn room_item(x: RoomItem) -> u64
    ensures { result ≡ room_item x }
{
    match x {
        RoomItem::TextBuffer => 0,
        RoomItem::SheetBuffer => 0,
        RoomItem::RowBuffer => 0,
        RoomItem::RecordBuffer => 0,
        RoomItem::ObjectBuffer => 0,
        RoomItem::FileBuffer => 0,
        RoomItem::DataBuffer => 1,
        RoomItem::AddressList => 2,
    }
}

// Document 01's number for a refusal.
pub fn number(x: Refusal) -> u64
    ensures { result ≡ number_of x }
{
    match x {
        Refusal::Short => 1,
        Refusal::Magic => 2,
        Refusal::Limit(_) => 3,
        Refusal::Kind(_) => 4,
        Refusal::Bounds(_) => 5,
        Refusal::Address(_) => 6,
        Refusal::Strings => 7,
        Refusal::Index(_) => 8,
        Refusal::Aux(_) => 9,
        Refusal::Name(_) => 10,
        Refusal::Scnum(_) => 11,
        Refusal::Csect(_) => 12,
        Refusal::Module(_) => 13,
        Refusal::Thread(_) => 14,
        Refusal::Loader(_) => 15,
        Refusal::Lsym(_) => 16,
        Refusal::Lrel(_) => 17,
        Refusal::SectionLrel(_) => 17,
        Refusal::Overlap(_) => 18,
        Refusal::SectionOverlap(_) => 18,
        Refusal::Plan(_) => 19,
        Refusal::Room(_) => 20,
        Refusal::Sheet => 21,
        Refusal::Record(_) => 22,
        Refusal::Form => 23,
        Refusal::Clash => 24,
        Refusal::Range(_) => 25,
        Refusal::Full => 26,
        Refusal::Absent => 27,
        Refusal::Long => 28,
        Refusal::Shared => 29,
        Refusal::Visibility(_) => 30,
        Refusal::NoLine => 31,
        Refusal::Group => 32,
    }
}

// Document 01's item for a refusal: 0 where none is named.
pub fn item(x: Refusal) -> u64
    ensures { result ≡ item_of x }
{
    match x {
        Refusal::Short => 0,
        Refusal::Magic => 0,
        Refusal::Limit(i) => limit_item(i),
        Refusal::Kind(n) => n.0,
        Refusal::Bounds(i) => bounds_item(i),
        Refusal::Address(i) => address_item(i),
        Refusal::Strings => 0,
        Refusal::Index(i) => index_item(i),
        Refusal::Aux(n) => n.0,
        Refusal::Name(n) => n.0,
        Refusal::Scnum(n) => n.0,
        Refusal::Csect(n) => n.0,
        Refusal::Module(i) => module_item(i),
        Refusal::Thread(i) => thread_item(i),
        Refusal::Loader(i) => loader_item(i),
        Refusal::Lsym(i) => i,
        Refusal::Lrel(i) => i.0,
        Refusal::SectionLrel(e) => e.number,
        Refusal::Overlap(i) => i.0,
        Refusal::SectionOverlap(e) => e.number,
        Refusal::Plan(i) => plan_item(i),
        Refusal::Room(i) => room_item(i),
        Refusal::Sheet => 0,
        Refusal::Record(i) => i,
        Refusal::Form => 0,
        Refusal::Clash => 0,
        Refusal::Range(e) => e.number,
        Refusal::Full => 0,
        Refusal::Absent => 0,
        Refusal::Long => 0,
        Refusal::Shared => 0,
        Refusal::Visibility(i) => i.0,
        Refusal::NoLine => 0,
        Refusal::Group => 0,
    }
}

// The head of an accepted call's report.
pub fn accepted_head() -> Head
    ensures { result ≡ accepted_head }
{
    Head {
        number: 0,
        item: 0,
        offset: 0,
    }
}

// The head of a refusal's report, with the offset of what its item names.
pub fn refused_head(x: Refusal, offset: u64) -> Head
    ensures { result ≡ refused_head x offset }
{
    let number = number(x);
    let item = item(x);
    Head {
        number,
        item,
        offset,
    }
}

// A yes or no as a number.
pub fn one_if(b: bool) -> u64
    ensures { result ≡ one_if b }
{
    if b {
        return 1;
    }
    0
}

// The very bytes of the file; none on a refusal.
pub fn part_of<'a>(file: &'a [u8], a: Result<FileRange, Refusal>) -> &'a [u8]
    requires { Within (length file.now) a }
    ensures { result.now ≡ range_bytes file.now a }
{
    let Ok(p) = a else {
        return &file[..0];
    };
    let from = p.start;
    let start = from.0 as usize;
    let end = start + p.length as usize;
    &file[start..end]
}

// Where the part lies: an empty range on a refusal.
pub fn range_found(a: Result<FileRange, Refusal>) -> FileRange
    ensures { result ≡ range_found a }
{
    match a {
        Ok(p) => p,
        Err(_) => FileRange {
            start: FileOffset(0),
            length: 0,
        },
    }
}
