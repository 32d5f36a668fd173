// The C interface: every public operation under its C name, with no condition on its arguments.
// A slice is passed as a pointer and a length. Answers are structs by value; a name is an offset and a length in the file.
#![tactic(auto)]

ghost use Rattle.std.specs.Prelude.{◌≡◌, length};
ghost use Rattle.header.specs.Open.{open_report};
ghost use Rattle.section_lookup.specs.Lookup.{section_report, section_name_at};
ghost use Rattle.symbol_lookup.specs.Lookup.{symbol_report, symbol_name_at};
ghost use Rattle.walk.specs.Walk.{report_of_walk, walk_report};
ghost use Rattle.csect_lookup.specs.Lookup.{csect_report};
ghost use Rattle.loadable.specs.Loadable.{module_report};
ghost use Rattle.lookup.specs.Symbol.{loader_symbol_report, loader_name_at};
ghost use Rattle.import_id.specs.Import.{import_at};
ghost use Rattle.sheet.specs.Sheet.{head_answer, read_answer, read_list, write_check, write_sheet, sheet_head, report_of_sheet};
ghost use Rattle.history.specs.Images.{images};
ghost use Rattle.history.specs.Call.{build, move, answer_of, effect};
ghost use Rattle.history.specs.Book.{book_images, book_after};
ghost use Rattle.plan.specs.Relocatable.{relocatable_at};
ghost use Rattle.image.specs.Report.{report_of_call};
ghost use Rattle.srecord.specs.Records.{length_answer, report_of_length, record_write_check, records_written, record_read_check, text_after, data_after};
ghost use Rattle.written.specs.Write.{rewrite_check, output_after};
ghost use Rattle.replay.specs.Script.{calls_of};
ghost use Rattle.replay.specs.Answer.{replay_answer, report_of_replay};
ghost use Rattle.symbol_table.specs.Table.{symbol_table, symbols_after};
ghost use Rattle.module_table.specs.Table.{table_check, table_after};
ghost use Rattle.loader_symbol_table.specs.Rows.{loader_symbols};
ghost use Rattle.relocation_table.specs.Rows.{relocations};
ghost use Rattle.import_table.specs.Imports.{imports};
ghost use Rattle.line_lookup.specs.Lookup.{count_report, line_report};
ghost use Rattle.line_table.specs.Table.{line_table_check, lines_after};
ghost use Rattle.object.specs.Check.{object_report};
ghost use Rattle.object_history.specs.Call.{call_check as object_call_check, effect as object_effect};
ghost use Rattle.object_history.specs.Book.{book_images as object_images, book_after as object_book};
ghost use Rattle.object_plan.specs.Object.{object_of};
ghost use Rattle.object_table.specs.Table.{section_rows_check, section_rows_after, entry_rows_check, entry_rows_after};
ghost use Rattle.object_replay.specs.Script.{calls_of as object_calls_of};
ghost use Rattle.object_replay.specs.Answer.{replay_answer as object_replay_answer, report_of_replay as report_of_object_replay};
ghost use Rattle.salvage.specs.Answer.{count_answer, salvage_answer, copy_after, report_after, report_of_count};
ghost use Rattle.address_book.specs.Book.{key};
ghost use Rattle.address_book.specs.Call.{Call, check_of, number_of, memory_in, report_of_number};
ghost use Rattle.address_table.specs.Table.{book_of, contents_after};
ghost use Rattle.address_fill.specs.Fill.{places_at};
ghost use Rattle.address_book.specs.Run.{run};
ghost use Rattle.address_table.specs.Run.{contents_run};
ghost use Rattle.table_replay.specs.Script.{script_calls};
ghost use Rattle.table_replay.specs.Answer.{table_replay_answer, report_of_table_replay, list_run};
ghost use Rattle.offset.specs.Report.{report_head, report_of_range};

use address_book::NumberReport;
use csect_lookup::CsectReport;
use displacement::Addresses;
use format::{SectionNumber, SymbolIndex, VirtualAddress};
use header::OpenReport;
use image::CallReport;
use import_id::ImportString;
use line_lookup::{LineCountReport, LineReport};
use loadable::ModuleReport;
use lookup::LoaderSymbolReport;
use object::ObjectReport;
use object_replay::ObjectReplayReport;
use offset::RangeReport;
use refusal::Head;
use replay::ReplayReport;
use salvage::CountReport;
use section_lookup::SectionReport;
use sheet::SheetReport;
use srecord::LengthReport;
use symbol_lookup::SymbolReport;
use table_replay::TableReplayReport;
use walk::WalkReport;

// Which version of this interface the archive has: XCOFF_VERSION of the header that it was made with.
#[unsafe(no_mangle)]
pub extern "C" fn xcoff_version() -> u64
    ensures { result ≡ 1 }
{
    1
}

// Opens a file: its format and how much it holds.
#[unsafe(no_mangle)]
pub extern "C" fn xcoff_open(file: &[u8]) -> OpenReport
    ensures { result ≡ open_report file.now }
{
    header::report_open(file, header::open(file))
}

// The record of section `n`, from 1.
#[unsafe(no_mangle)]
pub extern "C" fn xcoff_section(file: &[u8], n: u64) -> SectionReport
    ensures { result ≡ section_report file.now (record { 0 = n }) }
{
    section_lookup::report_section(file, section_lookup::section_at(file, SectionNumber(n)))
}

// Its name.
#[unsafe(no_mangle)]
pub extern "C" fn xcoff_section_name(file: &[u8], n: u64) -> RangeReport
    ensures { result ≡ report_of_range file.now (section_name_at file.now (record { 0 = n })) }
{
    offset::report_range(
        file,
        section_lookup::section_name_range(file, SectionNumber(n)),
    )
}

// The symbol table entry with index `i`, from 0.
#[unsafe(no_mangle)]
pub extern "C" fn xcoff_symbol(file: &[u8], i: u64) -> SymbolReport
    ensures { result ≡ symbol_report file.now (record { 0 = i }) }
{
    symbol_lookup::report_symbol(file, symbol_lookup::symbol_at(file, SymbolIndex(i)))
}

// Its name.
#[unsafe(no_mangle)]
pub extern "C" fn xcoff_symbol_name(file: &[u8], i: u64) -> RangeReport
    ensures { result ≡ report_of_range file.now (symbol_name_at file.now (record { 0 = i })) }
{
    offset::report_range(file, symbol_lookup::symbol_name_range(file, SymbolIndex(i)))
}

// Walks the symbol table from its first entry.
#[unsafe(no_mangle)]
pub extern "C" fn xcoff_walk(file: &[u8]) -> WalkReport
    ensures { result ≡ walk_report file.now }
{
    walk::report_walk(file, walk::walk(file))
}

// The csect entry of the symbol with index `i`.
#[unsafe(no_mangle)]
pub extern "C" fn xcoff_csect(file: &[u8], i: u64) -> CsectReport
    ensures { result ≡ csect_report file.now (record { 0 = i }) }
{
    csect_lookup::report_csect(file, csect_lookup::csect_at(file, SymbolIndex(i)))
}

// Judges a file as a loadable module.
#[unsafe(no_mangle)]
pub extern "C" fn xcoff_module(file: &[u8]) -> ModuleReport
    ensures { result ≡ module_report file.now }
{
    loadable::report_module(file, loadable::module_of(file))
}

// The loader symbol with index `i`, from 3.
#[unsafe(no_mangle)]
pub extern "C" fn xcoff_loader_symbol(file: &[u8], i: u64) -> LoaderSymbolReport
    ensures { result ≡ loader_symbol_report file.now i }
{
    loader_lookup::report_loader_symbol(file, loader_lookup::loader_symbol(file, i))
}

// Its name.
#[unsafe(no_mangle)]
pub extern "C" fn xcoff_loader_symbol_name(file: &[u8], i: u64) -> RangeReport
    ensures { result ≡ report_of_range file.now (loader_name_at file.now i) }
{
    offset::report_range(file, loader_lookup::loader_symbol_name_range(file, i))
}

// The path of import id `n`, from 0.
#[unsafe(no_mangle)]
pub extern "C" fn xcoff_import_path(file: &[u8], n: u64) -> RangeReport
    ensures { result ≡ report_of_range file.now (import_at file.now n ImportString.Path) }
{
    offset::report_range(file, import_id::import_range(file, n, ImportString::Path))
}

// Its base name.
#[unsafe(no_mangle)]
pub extern "C" fn xcoff_import_base(file: &[u8], n: u64) -> RangeReport
    ensures { result ≡ report_of_range file.now (import_at file.now n ImportString.Base) }
{
    offset::report_range(file, import_id::import_range(file, n, ImportString::Base))
}

// Its archive member.
#[unsafe(no_mangle)]
pub extern "C" fn xcoff_import_member(file: &[u8], n: u64) -> RangeReport
    ensures { result ≡ report_of_range file.now (import_at file.now n ImportString.Member) }
{
    offset::report_range(file, import_id::import_range(file, n, ImportString::Member))
}

// What a plan sheet says of itself: its addresses, and how many places its list needs.
#[unsafe(no_mangle)]
pub extern "C" fn xcoff_sheet_head(sheet: &[u8]) -> SheetReport
    ensures { result ≡ report_of_sheet (head_answer sheet.now) }
{
    sheet::report_sheet(plan_sheet::sheet_head(sheet))
}

// Reads a plan sheet into a list of exactly as many places as it has addresses.
#[unsafe(no_mangle)]
pub extern "C" fn xcoff_read_sheet(sheet: &[u8], list: &mut [u64]) -> SheetReport
    ensures answer { result ≡ report_of_sheet (read_answer sheet.now (length list.old)) }
    ensures list { list.new ≡ read_list sheet.now list.old }
{
    sheet::report_sheet(plan_sheet::read_sheet(sheet, list))
}

// Writes the sheet of a plan into a buffer of exactly its length.
#[unsafe(no_mangle)]
pub extern "C" fn xcoff_write_sheet(text: u64, data: u64, list: &[u64], sheet: &mut [u8]) -> Head
    ensures answer { result ≡ sheet_head (write_check (length list.now) (length sheet.old)) }
    ensures sheet { sheet.new ≡ write_sheet text «data» list.now sheet.old }
{
    sheet::report_head(plan_sheet::write_sheet(
        VirtualAddress(text),
        VirtualAddress(data),
        list,
        sheet,
    ))
}

// Builds the images of the module for a plan.
#[unsafe(no_mangle)]
pub extern "C" fn xcoff_build(
    file: &[u8],
    at: u64,
    dataat: u64,
    list: &[u64],
    text: &mut [u8],
    data: &mut [u8],
) -> CallReport
    ensures answer { result ≡ report_of_call file.now (answer_of (relocatable_at file.now) (length text.old) (length «data».old) (build (record { text = at; dat = dataat; list = list.now }))) }
    ensures images { images text.new «data».new ≡ effect (relocatable_at file.now) (build (record { text = at; dat = dataat; list = list.now })) (images text.old «data».old) }
{
    let addresses = Addresses {
        text: VirtualAddress(at),
        data: VirtualAddress(dataat),
    };
    image::report_call(
        file,
        module_images::build_images(file, addresses, list, text, data),
    )
}

// Moves images from one plan to another, taking the buffers as they are.
#[unsafe(no_mangle)]
pub extern "C" fn xcoff_move(
    file: &[u8],
    at: u64,
    dataat: u64,
    list: &[u64],
    toat: u64,
    todataat: u64,
    tolist: &[u64],
    text: &mut [u8],
    data: &mut [u8],
) -> CallReport
    ensures answer { result ≡ report_of_call file.now (answer_of (relocatable_at file.now) (length text.old) (length «data».old) (move (record { text = at; dat = dataat; list = list.now }) (record { text = toat; dat = todataat; list = tolist.now }))) }
    ensures images { images text.new «data».new ≡ effect (relocatable_at file.now) (move (record { text = at; dat = dataat; list = list.now }) (record { text = toat; dat = todataat; list = tolist.now })) (images text.old «data».old) }
{
    let from = Addresses {
        text: VirtualAddress(at),
        data: VirtualAddress(dataat),
    };
    let to = Addresses {
        text: VirtualAddress(toat),
        data: VirtualAddress(todataat),
    };
    image::report_call(
        file,
        module_images::move_images(file, from, list, to, tolist, text, data),
    )
}

// Runs the calls that `script` encodes on the two buffers: how many, how many of them were accepted, and the last one's answer.
#[unsafe(no_mangle)]
pub extern "C" fn xcoff_replay(
    file: &[u8],
    script: &[u64],
    text: &mut [u8],
    data: &mut [u8],
) -> ReplayReport
    ensures answer { result ≡ report_of_replay file.now (replay_answer (relocatable_at file.now) (calls_of script.now) (images text.old «data».old)) }
    ensures images { images text.new «data».new ≡ book_images (relocatable_at file.now) (book_after (relocatable_at file.now) (calls_of script.now) (images text.old «data».old)) }
{
    replay::report_replay(file, replay_calls::replay(file, script, text, data))
}

// How long the record text of a module's images for a plan is.
#[unsafe(no_mangle)]
pub extern "C" fn xcoff_records_length(
    file: &[u8],
    at: u64,
    dataat: u64,
    list: &[u64],
) -> LengthReport
    ensures { result ≡ report_of_length file.now (length_answer (relocatable_at file.now) (record { text = at; dat = dataat; list = list.now })) }
{
    let addresses = Addresses {
        text: VirtualAddress(at),
        data: VirtualAddress(dataat),
    };
    srecord::report_length(file, module_records::records_length(file, addresses, list))
}

// Writes two images, as they are, as S-records for a plan.
#[unsafe(no_mangle)]
pub extern "C" fn xcoff_write_records(
    file: &[u8],
    at: u64,
    dataat: u64,
    list: &[u64],
    text: &[u8],
    data: &[u8],
    records: &mut [u8],
) -> Head
    ensures answer { result ≡ report_head file.now (record_write_check (relocatable_at file.now) (record { text = at; dat = dataat; list = list.now }) (length text.now) (length «data».now) (length records.old)) }
    ensures records { records.new ≡ records_written (relocatable_at file.now) (record { text = at; dat = dataat; list = list.now }) text.now «data».now records.old }
{
    let addresses = Addresses {
        text: VirtualAddress(at),
        data: VirtualAddress(dataat),
    };
    offset::report_head(
        file,
        module_records::write_records(file, addresses, list, text, data, records),
    )
}

// Reads S-records for a plan into two image buffers.
#[unsafe(no_mangle)]
pub extern "C" fn xcoff_read_records(
    file: &[u8],
    at: u64,
    dataat: u64,
    list: &[u64],
    records: &[u8],
    text: &mut [u8],
    data: &mut [u8],
) -> Head
    ensures answer { result ≡ report_head file.now (record_read_check (relocatable_at file.now) (record { text = at; dat = dataat; list = list.now }) (length text.old) (length «data».old) records.now) }
    ensures text { text.new ≡ text_after (relocatable_at file.now) (record { text = at; dat = dataat; list = list.now }) records.now text.old «data».old }
    ensures data { «data».new ≡ data_after (relocatable_at file.now) (record { text = at; dat = dataat; list = list.now }) records.now text.old «data».old }
{
    let addresses = Addresses {
        text: VirtualAddress(at),
        data: VirtualAddress(dataat),
    };
    offset::report_head(
        file,
        module_records::read_records(file, addresses, list, records, text, data),
    )
}

// Writes the module for a plan into an output of the file's length.
#[unsafe(no_mangle)]
pub extern "C" fn xcoff_write_module(
    file: &[u8],
    at: u64,
    dataat: u64,
    list: &[u64],
    output: &mut [u8],
) -> Head
    ensures answer { result ≡ report_head file.now (rewrite_check file.now (record { text = at; dat = dataat; list = list.now }) (length output.old)) }
    ensures output { output.new ≡ output_after file.now (record { text = at; dat = dataat; list = list.now }) output.old }
{
    let addresses = Addresses {
        text: VirtualAddress(at),
        data: VirtualAddress(dataat),
    };
    offset::report_head(file, rewrite::write_module(file, addresses, list, output))
}

// Lists the symbols that the walk visits: a row of 15 numbers for each.
#[unsafe(no_mangle)]
pub extern "C" fn xcoff_symbol_table(file: &[u8], rows: &mut [u64]) -> WalkReport
    ensures answer { result ≡ report_of_walk file.now (symbol_table file.now (length rows.old)) }
    ensures rows { rows.new ≡ symbols_after file.now rows.old }
{
    walk::report_walk(file, symbol_table::symbol_table(file, rows))
}

// Lists the loader symbols of a module: a row of 9 numbers for each.
#[unsafe(no_mangle)]
pub extern "C" fn xcoff_loader_symbol_table(file: &[u8], rows: &mut [u64]) -> Head
    ensures answer { result ≡ report_head file.now (table_check loader_symbols file.now (length rows.old)) }
    ensures rows { rows.new ≡ table_after loader_symbols file.now rows.old }
{
    offset::report_head(file, loader_symbol_table::loader_symbol_table(file, rows))
}

// Lists its relocation entries: a row of 8 numbers for each.
#[unsafe(no_mangle)]
pub extern "C" fn xcoff_relocation_table(file: &[u8], rows: &mut [u64]) -> Head
    ensures answer { result ≡ report_head file.now (table_check relocations file.now (length rows.old)) }
    ensures rows { rows.new ≡ table_after relocations file.now rows.old }
{
    offset::report_head(file, relocation_table::relocation_table(file, rows))
}

// Lists its import ids: a row of 6 numbers for each.
#[unsafe(no_mangle)]
pub extern "C" fn xcoff_import_table(file: &[u8], rows: &mut [u64]) -> Head
    ensures answer { result ≡ report_head file.now (table_check imports file.now (length rows.old)) }
    ensures rows { rows.new ≡ table_after imports file.now rows.old }
{
    offset::report_head(file, import_table::import_table(file, rows))
}

// The entry for an address in the line table of text section `section`.
#[unsafe(no_mangle)]
pub extern "C" fn xcoff_find_line(file: &[u8], section: u64, address: u64) -> LineReport
    ensures { result ≡ line_report file.now (record { 0 = section }) address }
{
    line_lookup::report_line(
        file,
        line_find::find_line(file, SectionNumber(section), address),
    )
}

// How many entries that table has.
#[unsafe(no_mangle)]
pub extern "C" fn xcoff_line_count(file: &[u8], section: u64) -> LineCountReport
    ensures { result ≡ count_report file.now (record { 0 = section }) }
{
    line_lookup::report_count(
        file,
        line_find::find_line_table(file, SectionNumber(section)),
    )
}

// Lists them: a row of 3 numbers for each.
#[unsafe(no_mangle)]
pub extern "C" fn xcoff_line_table(file: &[u8], section: u64, rows: &mut [u64]) -> Head
    ensures answer { result ≡ report_head file.now (line_table_check file.now (record { 0 = section }) (length rows.old)) }
    ensures rows { rows.new ≡ lines_after file.now (record { 0 = section }) rows.old }
{
    offset::report_head(
        file,
        line_table::line_table(file, SectionNumber(section), rows),
    )
}

// What a host needs of an object file: how many addresses a plan has, how many entries there are, and how long the buffer is.
#[unsafe(no_mangle)]
pub extern "C" fn xcoff_object(file: &[u8]) -> ObjectReport
    ensures { result ≡ object_report file.now }
{
    object::report_object(file, object::object_of(file))
}

// Lists its sections: a row of 5 numbers for each.
#[unsafe(no_mangle)]
pub extern "C" fn xcoff_object_sections(file: &[u8], rows: &mut [u64]) -> Head
    ensures answer { result ≡ report_head file.now (section_rows_check file.now (length rows.old)) }
    ensures rows { rows.new ≡ section_rows_after file.now rows.old }
{
    offset::report_head(file, object_table::object_sections(file, rows))
}

// Lists the entries of text or data section `section`: a row of 6 numbers for each.
#[unsafe(no_mangle)]
pub extern "C" fn xcoff_object_entries(file: &[u8], section: u64, rows: &mut [u64]) -> Head
    ensures answer { result ≡ report_head file.now (entry_rows_check file.now (record { 0 = section }) (length rows.old)) }
    ensures rows { rows.new ≡ entry_rows_after file.now (record { 0 = section }) rows.old }
{
    offset::report_head(
        file,
        object_table::object_entries(file, SectionNumber(section), rows),
    )
}

// Builds an object file for a plan, one address for each section.
#[unsafe(no_mangle)]
pub extern "C" fn xcoff_build_object(file: &[u8], plan: &[u64], buffer: &mut [u8]) -> Head
    ensures answer { result ≡ report_head file.now (object_call_check (object_of file.now) (length buffer.old) buffer.old (build plan.now)) }
    ensures image { buffer.new ≡ object_effect (object_of file.now) (build plan.now) buffer.old }
{
    offset::report_head(file, object_image::build_object(file, plan, buffer))
}

// Moves it in place, from one plan to another.
#[unsafe(no_mangle)]
pub extern "C" fn xcoff_move_object(
    file: &[u8],
    from: &[u64],
    to: &[u64],
    buffer: &mut [u8],
) -> Head
    ensures answer { result ≡ report_head file.now (object_call_check (object_of file.now) (length buffer.old) buffer.old (move from.now to.now)) }
    ensures image { buffer.new ≡ object_effect (object_of file.now) (move from.now to.now) buffer.old }
{
    offset::report_head(file, object_image::move_object(file, from, to, buffer))
}

// Runs a list of builds and moves of an object file: 0 and a plan, or another number and two plans, a plan being how many addresses it has, and those.
#[unsafe(no_mangle)]
pub extern "C" fn xcoff_replay_object(
    file: &[u8],
    script: &[u64],
    buffer: &mut [u8],
) -> ObjectReplayReport
    ensures answer { result ≡ report_of_object_replay file.now (object_replay_answer (object_of file.now) (object_calls_of script.now) buffer.old) }
    ensures image { buffer.new ≡ object_images (object_of file.now) (object_book (object_of file.now) (object_calls_of script.now) buffer.old) }
{
    object_replay::report_object_replay(file, object_replay::replay_object(file, script, buffer))
}

// How many changes salvaging the symbol table of a file makes.
#[unsafe(no_mangle)]
pub extern "C" fn xcoff_salvage_count(file: &[u8]) -> CountReport
    ensures { result ≡ report_of_count file.now (count_answer file.now) }
{
    salvage::report_count(file, salvage_file::salvage_count(file))
}

// Writes a copy in which the walk reaches the table's end, and 8 bytes of report for each change.
#[unsafe(no_mangle)]
pub extern "C" fn xcoff_salvage(file: &[u8], copy: &mut [u8], report: &mut [u8]) -> CountReport
    ensures answer { result ≡ report_of_count file.now (salvage_answer file.now (length copy.old) (length report.old)) }
    ensures copied { copy.new ≡ copy_after file.now copy.old (length report.old) }
    ensures reported { report.new ≡ report_after file.now (length copy.old) report.old }
{
    salvage::report_count(file, salvage_file::salvage(file, copy, report))
}

// Adds a bench's row to the address table, or replaces its address.
#[unsafe(no_mangle)]
pub extern "C" fn xcoff_table_add(
    table: &mut [u64; 4097],
    bench: u64,
    file_id: u64,
    name: &[u8],
    address: u64,
) -> Head
    ensures answer { result ≡ sheet_head (check_of (book_of table.old) (Call.add (key bench file_id name.now) address)) }
    ensures table { table.new ≡ contents_after table.old (Call.add (key bench file_id name.now) address) }
{
    sheet::report_head(address_table::table_add(table, bench, file_id, name, address))
}

// Removes a bench's row.
#[unsafe(no_mangle)]
pub extern "C" fn xcoff_table_remove(
    table: &mut [u64; 4097],
    bench: u64,
    file_id: u64,
    name: &[u8],
) -> Head
    ensures answer { result ≡ sheet_head (check_of (book_of table.old) (Call.remove (key bench file_id name.now))) }
    ensures table { table.new ≡ contents_after table.old (Call.remove (key bench file_id name.now)) }
{
    sheet::report_head(address_table::table_remove(table, bench, file_id, name))
}

// The address of a bench's row.
#[unsafe(no_mangle)]
pub extern "C" fn xcoff_table_find(
    table: &[u64; 4097],
    bench: u64,
    file_id: u64,
    name: &[u8],
) -> NumberReport
    ensures { result ≡ report_of_number (number_of (book_of table.now) (Call.look (key bench file_id name.now))) }
{
    address_book::report_number(address_table::table_find(table, bench, file_id, name))
}

// Writes the list of a plan for a module from a bench's rows.
#[unsafe(no_mangle)]
pub extern "C" fn xcoff_table_fill(
    file: &[u8],
    table: &[u64; 4097],
    bench: u64,
    list: &mut [u64],
) -> Head
    ensures answer { result ≡ report_head file.now (check_of (book_of table.now) (Call.fill bench (places_at file.now) (length list.old))) }
    ensures list { list.new ≡ memory_in (length (book_of table.now)) (book_of table.now) (Call.fill bench (places_at file.now) (length list.old)) list.old }
{
    offset::report_head(file, address_fill::table_fill(file, table, bench, list))
}

// Runs the table calls that `script` encodes, fills of the module in `file` into `list`: how many, how many of them were accepted, and
// the last one's answer.
#[unsafe(no_mangle)]
pub extern "C" fn xcoff_table_replay(
    file: &[u8],
    script: &[u64],
    table: &mut [u64; 4097],
    list: &mut [u64],
) -> TableReplayReport
    ensures answer { result ≡ report_of_table_replay file.now (table_replay_answer (script_calls file.now list.old script.now) (book_of table.old)) }
    ensures rows { book_of table.new ≡ run (script_calls file.now list.old script.now) (book_of table.old) }
    ensures table { table.new ≡ contents_run (script_calls file.now list.old script.now) table.old }
    ensures list { list.new ≡ list_run (script_calls file.now list.old script.now) (book_of table.old) list.old }
{
    table_replay::report_replay(file, table_replay::replay_table(file, script, table, list))
}

// How many rows a bench has.
#[unsafe(no_mangle)]
pub extern "C" fn xcoff_table_count(table: &[u64; 4097], bench: u64) -> NumberReport
    ensures { result ≡ report_of_number (number_of (book_of table.now) (Call.count bench)) }
{
    address_book::report_number(address_list::table_count(table, bench))
}

// Lists a bench's rows in the order of file id and name: a row of 7 numbers for each.
#[unsafe(no_mangle)]
pub extern "C" fn xcoff_table_rows(table: &[u64; 4097], bench: u64, rows: &mut [u64]) -> Head
    ensures answer { result ≡ sheet_head (check_of (book_of table.now) (Call.list bench (length rows.old))) }
    ensures rows { rows.new ≡ memory_in (length (book_of table.now)) (book_of table.now) (Call.list bench (length rows.old)) rows.old }
{
    sheet::report_head(address_list::table_rows(table, bench, rows))
}
