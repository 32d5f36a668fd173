// A list of calls on the address table, run: its contract is the plain book of rows.
#![tactic(auto)]

ghost use Rattle.std.specs.Prelude.{◌≡◌, cond, ◌+◌, ◌≤◌, ◌<◌, ltb, length, get_or, replicate};
ghost use Rattle.std.proofs.lemmas.List.Edits.{sets};
ghost use Rattle.refusal.specs.Order.{by_verdict};
ghost use Rattle.address_book.specs.Book.{key};
ghost use Rattle.address_book.specs.Call.{Call, number_of};
ghost use Rattle.address_book.specs.Run.{run};
ghost use Rattle.address_table.specs.Table.{book_of, contents_after};
ghost use Rattle.address_table.specs.Run.{contents_run};
ghost use Rattle.address_fill.specs.Fill.{places_at};
ghost use Rattle.table_replay.specs.Script.{fixed_of, name_length, call_end, bytes_at, key_at, row_call, call_at, script_calls};
ghost use Rattle.table_replay.specs.Answer.{table_replay_answer, list_after, list_run, answer_head, found_value, report_of_table_replay};

use refusal::{Head, Refusal};

// How many calls were run, how many of them were accepted, and the last one's own answer.
#[derive(Clone, Copy)]
pub struct TableReplayAnswer {
    pub calls: u64,
    pub accepted: u64,
    pub last: Result<u64, Refusal>,
}

// The last call's answer, as `address_book::NumberReport` has it, and the counts.
#[repr(C)]
#[derive(Clone, Copy)]
pub struct TableReplayReport {
    pub head: Head,
    pub value: u64,
    pub calls: u64,
    pub accepted: u64,
}

// ---- the script

// The number at a place, 0 past the end.
fn number_at(s: &[u64], i: usize) -> u64
    ensures { result ≡ get_or s.now i 0 }
{
    if i < s.len() {
        return s[i];
    }
    0
}

// How many numbers a call of a kind has, its name's aside.
fn fixed_of(kind: u64) -> usize
    ensures count { result ≡ fixed_of kind }
    ensures few { (2 ≤ result) × (result ≤ 5) }
{
    if kind < 3 {
        if kind == 0 {
            return 5;
        }
        return 4;
    }
    2
}

// How many its name has.
fn name_length(s: &[u64], at: usize) -> usize
    requires { at ≤ length s.now }
    ensures { result ≡ name_length s.now at }
{
    if number_at(s, at) < 3 {
        return number_at(s, at + 3) as usize;
    }
    0
}

// Where the call at a place ends. 0 where it is cut short.
fn call_end(s: &[u64], at: usize) -> usize
    requires { at ≤ length s.now }
    ensures { result ≡ call_end s.now at }
{
    let left = s.len() - at;
    let fixed = fixed_of(number_at(s, at));
    let n = name_length(s, at);
    if left < fixed {
        return 0;
    }
    if left - fixed < n {
        return 0;
    }
    at + fixed + n
}

// At most 33 bytes of a name: where it has more than 32, the call is refused whatever they are.
fn cut_length(n: usize) -> usize
    ensures { result ≡ cond (ltb n 33) n 33 }
{
    if n < 33 {
        return n;
    }
    33
}

// Bytes of a name, in front of zeros.
fn read_name(s: &[u64], from: usize, n: usize) -> [u8; 33]
    requires { (n ≤ 33) × (from + n ≤ length s.now) }
    ensures { result ≡ sets (replicate 33 0) 0 (bytes_at s.now from n) }
{
    let mut name = [0u8; 33];
    for (i, w) in s[from..from + n].iter().enumerate() {
        name[i] = (*w % 256) as u8;
    }
    name
}

// ---- its calls

// The answer of a call that finds nothing.
fn number_of(v: Result<(), Refusal>) -> Result<u64, Refusal>
    ensures { result ≡ by_verdict v (Ok 0) Err }
{
    v?;
    Ok(0)
}

// Makes a call on one row.
fn call_row(
    table: &mut [u64; 4097],
    kind: u64,
    bench: u64,
    file_id: u64,
    name: &[u8],
    address: u64,
) -> Result<u64, Refusal>
    ensures answer { result ≡ number_of (book_of table.old) (row_call kind (key bench file_id name.now) address) }
    ensures table { table.new ≡ contents_after table.old (row_call kind (key bench file_id name.now) address) }
{
    if kind == 0 {
        return number_of(address_table::table_add(table, bench, file_id, name, address));
    }
    if kind == 1 {
        return number_of(address_table::table_remove(table, bench, file_id, name));
    }
    address_table::table_find(table, bench, file_id, name)
}

// Makes the call on one row that is at a place.
fn call_row_at(table: &mut [u64; 4097], s: &[u64], at: usize) -> Result<u64, Refusal>
    requires { (call_end s.now at ≡ 0 → ⊥) × (get_or s.now at 0 < 3) }
    ensures answer { result ≡ number_of (book_of table.old) (row_call (get_or s.now at 0) (key_at s.now at) (get_or s.now (at + 4 + name_length s.now at) 0)) }
    ensures table { table.new ≡ contents_after table.old (row_call (get_or s.now at 0) (key_at s.now at) (get_or s.now (at + 4 + name_length s.now at) 0)) }
{
    let n = name_length(s, at);
    let cut = cut_length(n);
    let bytes = read_name(s, at + 4, cut);
    let name = &bytes[..cut];
    let kind = number_at(s, at);
    let bench = number_at(s, at + 1);
    let file_id = number_at(s, at + 2);
    let address = number_at(s, at + 4 + n);
    call_row(table, kind, bench, file_id, name, address)
}

// How many numbers a table has. Lent as a slice it is known to have 4097, which the laws of its rows ask for.
fn table_numbers(table: &[u64]) -> usize
    ensures { result ≡ length table.now }
{
    table.len()
}

// Makes the call at a place.
fn call_at(
    file: &[u8],
    s: &[u64],
    at: usize,
    table: &mut [u64; 4097],
    list: &mut [u64],
) -> Result<u64, Refusal>
    requires { call_end s.now at ≡ 0 → ⊥ }
    ensures answer { result ≡ number_of (book_of table.old) (call_at (places_at file.now) (length list.old) s.now at) }
    ensures table { table.new ≡ contents_after table.old (call_at (places_at file.now) (length list.old) s.now at) }
    ensures list { list.new ≡ list_after (book_of table.old) (call_at (places_at file.now) (length list.old) s.now at) list.old }
    ensures whole { length table.old ≡ 4097 }
{
    let _numbers = table_numbers(table);
    if number_at(s, at) < 3 {
        return call_row_at(table, s, at);
    }
    let bench = number_at(s, at + 1);
    number_of(address_fill::table_fill(file, table, bench, list))
}

// ---- the list

// Runs the calls that `script` encodes on the table, each on the table that the last one left; a fill is of the module in `file` and
// writes `list`. A call that is refused changes nothing and does not end the list.
pub fn replay_table(
    file: &[u8],
    script: &[u64],
    table: &mut [u64; 4097],
    list: &mut [u64],
) -> TableReplayAnswer
    ensures cause { result ≡ table_replay_answer (script_calls file.now list.old script.now) (book_of table.old) }
    ensures report { report_of_table_replay file.now result ≡ report_of_table_replay file.now (table_replay_answer (script_calls file.now list.old script.now) (book_of table.old)) }
    ensures rows { book_of table.new ≡ run (script_calls file.now list.old script.now) (book_of table.old) }
    ensures table { table.new ≡ contents_run (script_calls file.now list.old script.now) table.old }
    ensures list { list.new ≡ list_run (script_calls file.now list.old script.now) (book_of table.old) list.old }
{
    let mut last = Ok(0);
    let mut calls: u64 = 0;
    let mut accepted: u64 = 0;
    let mut at: usize = 0;
    while at < script.len() {
        let end = call_end(script, at);
        if end == 0 {
            return TableReplayAnswer {
                calls,
                accepted,
                last,
            };
        }
        last = call_at(file, script, at, table, list);
        calls += 1;
        accepted += script::accepted_one(&last);
        at = end;
    }
    TableReplayAnswer {
        calls,
        accepted,
        last,
    }
}

// ---- the report

fn answer_head(file: &[u8], a: Result<u64, Refusal>) -> Head
    ensures { result ≡ answer_head file.now a }
{
    match a {
        Ok(_v) => refusal::accepted_head(),
        Err(x) => offset::refusal_head(file, x),
    }
}

fn found_value(a: Result<u64, Refusal>) -> u64
    ensures { result ≡ found_value a }
{
    match a {
        Ok(v) => v,
        Err(_x) => 0,
    }
}

pub fn report_replay(file: &[u8], a: TableReplayAnswer) -> TableReplayReport
    ensures { result ≡ report_of_table_replay file.now a }
{
    let last = a.last;
    let head = answer_head(file, last);
    TableReplayReport {
        head,
        value: found_value(last),
        calls: a.calls,
        accepted: a.accepted,
    }
}
