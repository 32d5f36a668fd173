// The plan sheet: a plan's addresses as bytes, read and written.
#![tactic(auto)]

ghost use Rattle.std.specs.Prelude.{◌≡◌, ◌+◌, ◌*◌, ◌≤◌, length};
ghost use Rattle.word.specs.Number.{field_at};
ghost use Rattle.sheet.specs.Sheet.{count_width, list_limit, form_of, head_length, sheet_length, head_of, write_check, sheet_head, report_of_sheet};

use format::VirtualAddress;
use refusal::{Head, LimitItem, Refusal, RoomItem};

// The two forms of a sheet: an old one has its two counts in 2 bytes, a new one in 4.
#[derive(Clone, Copy)]
pub enum SheetForm {
    Old,
    New,
}

// A sheet's text and data addresses, and how many addresses its list has.
#[derive(Clone, Copy)]
pub struct SheetHead {
    pub text: VirtualAddress,
    pub data: VirtualAddress,
    pub count: u64,
}

#[repr(C)]
#[derive(Clone, Copy)]
pub struct SheetReport {
    pub head: Head,
    pub text: u64,
    pub data: u64,
    pub count: u64,
}

// The bytes of each of the two counts.
fn count_width(f: SheetForm) -> usize
    ensures { result ≡ count_width f }
{
    match f {
        SheetForm::Old => 2,
        SheetForm::New => 4,
    }
}

// The bytes before the list: count 2, the text and data addresses, count k.
pub fn head_length(f: SheetForm) -> usize
    ensures { result ≡ head_length f }
{
    match f {
        SheetForm::Old => 20,
        SheetForm::New => 24,
    }
}

// The most addresses that the list has.
pub fn list_limit(f: SheetForm) -> u64
    ensures { result ≡ list_limit f }
{
    match f {
        SheetForm::Old => format::OLD_SHEET_LIST_LIMIT,
        SheetForm::New => format::SHEET_LIST_LIMIT,
    }
}

// The form by the first two bytes.
pub fn form_of(sheet: &[u8]) -> Option<SheetForm>
    ensures { result ≡ form_of sheet.now }
{
    if sheet.len() < 2 {
        return None;
    }
    let first = word::get16(sheet, 0);
    if first == 2 {
        return Some(SheetForm::Old);
    }
    if first == 0 {
        return Some(SheetForm::New);
    }
    None
}

// The count at `off`.
pub fn read_count(sheet: &[u8], f: SheetForm, off: usize) -> u64
    requires { off + count_width f ≤ length sheet.now }
    ensures { result ≡ field_at (count_width f) off sheet.now }
{
    match f {
        SheetForm::Old => word::get16(sheet, off) as u64,
        SheetForm::New => word::get32(sheet, off) as u64,
    }
}

// The numbers before the list.
pub fn read_head(sheet: &[u8], f: SheetForm) -> SheetHead
    requires { head_length f ≤ length sheet.now }
    ensures { result ≡ head_of f sheet.now }
{
    let w = count_width(f);
    SheetHead {
        text: VirtualAddress(word::get64(sheet, w)),
        data: VirtualAddress(word::get64(sheet, w + 8)),
        count: read_count(sheet, f, w + 8 + 8),
    }
}

// The length of a sheet with `count` addresses.
pub fn sheet_length(f: SheetForm, count: u64) -> u64
    requires { count ≤ list_limit f }
    ensures { result ≡ sheet_length f count }
{
    head_length(f) as u64 + count * 8
}

// LIMIT 2, ROOM 0.
pub fn check_write(count: u64, room: u64) -> Result<(), Refusal>
    ensures { result ≡ write_check count room }
{
    if format::SHEET_LIST_LIMIT < count {
        return Err(Refusal::Limit(LimitItem::SheetList));
    }
    if room != sheet_length(SheetForm::New, count) {
        return Err(Refusal::Room(RoomItem::SheetBuffer));
    }
    Ok(())
}

// The head of a report on a sheet: there is no file, and the offset is 0.
pub fn report_head(v: Result<(), Refusal>) -> Head
    ensures { result ≡ sheet_head v }
{
    match v {
        Ok(()) => refusal::accepted_head(),
        Err(x) => refusal::refused_head(x, 0),
    }
}

pub fn report_sheet(a: Result<SheetHead, Refusal>) -> SheetReport
    ensures { result ≡ report_of_sheet a }
{
    match a {
        Ok(h) => {
            let text = h.text;
            let data = h.data;
            SheetReport {
                head: refusal::accepted_head(),
                text: text.0,
                data: data.0,
                count: h.count,
            }
        }
        Err(x) => SheetReport {
            head: refusal::refused_head(x, 0),
            text: 0,
            data: 0,
            count: 0,
        },
    }
}
