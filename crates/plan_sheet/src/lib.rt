// The plan sheet: a plan's addresses as bytes, read and written.
#![tactic(auto)]

ghost use Rattle.std.specs.Prelude.{◌≡◌, ◌+◌, ◌*◌, ◌≤◌, length};
ghost use Rattle.std.proofs.lemmas.List.Edits.{sets};
ghost use Rattle.update.specs.Update.{put_field};
ghost use Rattle.refusal.specs.Order.{by_verdict, if_accepted};
ghost use Rattle.sheet.specs.Sheet.{head_length, sheet_length, numbers_from, sheet_check, room_check, head_in, read_in, list_in, head_answer, read_answer, read_list, address_bytes, write_check, write_sheet, sheet_head, report_of_sheet};

use format::VirtualAddress;
use refusal::{LimitItem, Refusal, RoomItem};
use sheet::{SheetForm, SheetHead};

// SHEET, LIMIT 2, SHEET.
fn check_sheet(sheet: &[u8], f: SheetForm) -> Result<(), Refusal>
    ensures { result ≡ sheet_check f sheet.now }
{
    if sheet.len() < sheet::head_length(f) {
        return Err(Refusal::Sheet);
    }
    if sheet::read_count(sheet, f, 0) != 2 {
        return Err(Refusal::Sheet);
    }
    let head = sheet::read_head(sheet, f);
    if sheet::list_limit(f) < head.count {
        return Err(Refusal::Limit(LimitItem::SheetList));
    }
    if sheet.len() as u64 != sheet::sheet_length(f, head.count) {
        return Err(Refusal::Sheet);
    }
    Ok(())
}

// What a sheet of the form `f` says of itself.
fn head_in(sheet: &[u8], f: SheetForm) -> Result<SheetHead, Refusal>
    ensures { result ≡ head_in sheet.now f }
{
    check_sheet(sheet, f)?;
    Ok(sheet::read_head(sheet, f))
}

// What a sheet says of itself: SHEET, LIMIT 2; how long a list it needs.
pub fn sheet_head(sheet: &[u8]) -> Result<SheetHead, Refusal>
    ensures cause { result ≡ head_answer sheet.now }
    ensures report { report_of_sheet result ≡ report_of_sheet (head_answer sheet.now) }
{
    let f = sheet::form_of(sheet).ok_or(Refusal::Sheet)?;
    head_in(sheet, f)
}

// Fills the list with the addresses from `start` on.
fn fill_list(sheet: &[u8], start: usize, list: &mut [u64])
    requires { start + length list.old * 8 ≤ length sheet.now }
    ensures { list.new ≡ numbers_from sheet.now start (length list.old) }
{
    for (i, address) in list.iter_mut().enumerate() {
        *address = word::get64(sheet, start + i * 8);
    }
}

// ROOM 2, or the list filled.
fn read_list(
    sheet: &[u8],
    f: SheetForm,
    head: SheetHead,
    list: &mut [u64],
) -> Result<SheetHead, Refusal>
    requires { sheet_length f head.count ≤ length sheet.now }
    ensures answer { result ≡ by_verdict (room_check (length list.old) head) (Ok head) Err }
    ensures list { list.new ≡ if_accepted (room_check (length list.old) head) (numbers_from sheet.now (head_length f) head.count) list.old }
{
    if list.len() as u64 != head.count {
        return Err(Refusal::Room(RoomItem::AddressList));
    }
    fill_list(sheet, sheet::head_length(f), list);
    Ok(head)
}

// Reads a sheet of the form `f` into the list.
fn read_in(sheet: &[u8], f: SheetForm, list: &mut [u64]) -> Result<SheetHead, Refusal>
    ensures answer { result ≡ read_in sheet.now (length list.old) f }
    ensures list { list.new ≡ list_in sheet.now list.old f }
{
    check_sheet(sheet, f)?;
    let head = sheet::read_head(sheet, f);
    read_list(sheet, f, head, list)
}

// Reads a sheet into a list of exactly as many places as it has addresses.
pub fn read_sheet(sheet: &[u8], list: &mut [u64]) -> Result<SheetHead, Refusal>
    ensures cause { result ≡ read_answer sheet.now (length list.old) }
    ensures report { report_of_sheet result ≡ report_of_sheet (read_answer sheet.now (length list.old)) }
    ensures list { list.new ≡ read_list sheet.now list.old }
{
    let f = sheet::form_of(sheet).ok_or(Refusal::Sheet)?;
    read_in(sheet, f, list)
}

// Writes the numbers before the list, as a new sheet has them.
fn write_head(text: VirtualAddress, data: VirtualAddress, count: u32, sheet: &mut [u8])
    requires { head_length SheetForm.New ≤ length sheet.old }
    ensures { sheet.new ≡ put_field 4 20 count (put_field 8 12 «data».0 (put_field 8 4 text.0 (put_field 4 0 2 sheet.old))) }
{
    update::put32(sheet, 0, 2);
    update::put64(sheet, 4, text.0);
    update::put64(sheet, 12, data.0);
    update::put32(sheet, 20, count);
}

// Writes the list's addresses from `start` on.
fn write_list(list: &[u64], start: usize, sheet: &mut [u8])
    requires { start + length list.now * 8 ≤ length sheet.old }
    ensures { sheet.new ≡ sets sheet.old start (address_bytes list.now) }
{
    for (i, address) in list.iter().enumerate() {
        update::put64(sheet, start + i * 8, *address);
    }
}

// Writes the sheet of a plan, in the new form, into a buffer of exactly its length.
pub fn write_sheet(
    text: VirtualAddress,
    data: VirtualAddress,
    list: &[u64],
    sheet: &mut [u8],
) -> Result<(), Refusal>
    ensures cause { result ≡ write_check (length list.now) (length sheet.old) }
    ensures report { sheet_head result ≡ sheet_head (write_check (length list.now) (length sheet.old)) }
    ensures sheet { sheet.new ≡ write_sheet text.0 «data».0 list.now sheet.old }
{
    sheet::check_write(list.len() as u64, sheet.len() as u64)?;
    write_head(text, data, list.len() as u32, sheet);
    write_list(list, sheet::head_length(SheetForm::New), sheet);
    Ok(())
}
