// The address table in lent memory: up to 512 rows of 8 numbers, without gaps, and how many rows are taken in the last number.
// Any contents are a table, and zeros are the empty one.
#![tactic(auto)]

ghost use Rattle.std.specs.Prelude.{◌≡◌, ◌++◌, ◌+◌, ◌-◌, ◌≤◌, ◌<◌, length, set, take, drop};
ghost use Rattle.std.proofs.lemmas.List.Edits.{sets};
ghost use Rattle.sheet.specs.Sheet.{sheet_head};
ghost use Rattle.address_book.specs.Book.{key, same_list};
ghost use Rattle.address_book.specs.Call.{add, remove, look, imported, key_check, check_of, number_of, address_at, report_of_number};
ghost use Rattle.address_table.specs.Table.{taken_in, key_words_at, place_of, book_of, with_row, without_row, contents_after};

use refusal::Refusal;

const COUNT_AT: usize = 4096;

const ROW_LIMIT: usize = 512;

// How many rows are taken.
pub fn taken(table: &[u64; 4097]) -> usize
    ensures count { result ≡ taken_in table.now }
    ensures few { result ≤ 512 }
{
    let n = table[COUNT_AT];
    if n < 512 {
        return n as usize;
    }
    ROW_LIMIT
}

// Whether the key words from `at` on are these.
pub fn same_words(table: &[u64; 4097], at: usize, key: [u64; 7]) -> bool
    requires { at < 4090 }
    ensures { result ≡ same_list key (key_words_at table.now at) }
{
    if table[at] != key[0] {
        return false;
    }
    if table[at + 1] != key[1] {
        return false;
    }
    if table[at + 2] != key[2] {
        return false;
    }
    if table[at + 3] != key[3] {
        return false;
    }
    if table[at + 4] != key[4] {
        return false;
    }
    if table[at + 5] != key[5] {
        return false;
    }
    table[at + 6] == key[6]
}

// The first of `n` rows with these key words, or `n`.
fn place_of(table: &[u64; 4097], key: [u64; 7], n: usize) -> usize
    requires { n ≤ 512 }
    ensures { result ≡ place_of key table.now 0 n }
{
    for i in 0..n {
        if same_words(table, i * 8, key) {
            return i;
        }
    }
    n
}

// ---- changes

fn put_number(table: &mut [u64], at: usize, v: u64)
    requires { at < length table.old }
    ensures { table.new ≡ set table.old at v }
{
    table[at] = v;
}

// Writes row `n`, the first that is not taken, and counts it.
fn write_new(table: &mut [u64; 4097], n: usize, key: [u64; 7], address: u64)
    requires { n < 512 }
    ensures { table.new ≡ with_row table.old n key address }
{
    let row = [
        key[0], key[1], key[2], key[3], key[4], key[5], key[6], address,
    ];
    rows::write_row(&row, n * 8, table);
    table[COUNT_AT] = n as u64 + 1;
}

// Moves the numbers behind a row up to its place, from `from` until `end`.
fn move_up(table: &mut [u64], from: usize, end: usize)
    requires { (from ≤ end) × (end + 8 ≤ length table.old) }
    ensures { table.new ≡ sets table.old from (take (end - from) (drop (from + 8) table.old)) }
{
    table.copy_within(from + 8..end + 8, from);
}

// Takes row `p` of `n` out, and clears the last one's place.
fn remove_at(table: &mut [u64; 4097], p: usize, n: usize)
    requires { (p < n) × (n ≤ 512) }
    ensures { table.new ≡ without_row table.old p n }
{
    move_up(table, p * 8, n * 8 - 8);
    rows::write_row(&[0u64; 8], n * 8 - 8, table);
    table[COUNT_AT] = n as u64 - 1;
}

// ---- calls whose bench and name are good

fn find_good(table: &[u64; 4097], bench: u64, file_id: u64, name: &[u8]) -> Result<u64, Refusal>
    requires { key_check (key bench file_id name.now) ≡ Ok tt }
    ensures { result ≡ number_of (book_of table.now) (look (key bench file_id name.now)) }
{
    let n = taken(table);
    let p = place_of(table, address_row::key_words(bench, file_id, name), n);
    if p < n {
        return Ok(table[p * 8 + 7]);
    }
    Err(Refusal::Absent)
}

fn add_good(
    table: &mut [u64; 4097],
    bench: u64,
    file_id: u64,
    name: &[u8],
    address: u64,
) -> Result<(), Refusal>
    requires { key_check (key bench file_id name.now) ≡ Ok tt }
    ensures answer { result ≡ check_of (book_of table.old) (add (key bench file_id name.now) address) }
    ensures table { table.new ≡ contents_after table.old (add (key bench file_id name.now) address) }
{
    let words = address_row::key_words(bench, file_id, name);
    let n = taken(table);
    let place = place_of(table, words, n);
    if place < n {
        put_number(table, place * 8 + 7, address);
        return Ok(());
    }
    if n == ROW_LIMIT {
        return Err(Refusal::Full);
    }
    write_new(table, n, words, address);
    Ok(())
}

fn remove_good(
    table: &mut [u64; 4097],
    bench: u64,
    file_id: u64,
    name: &[u8],
) -> Result<(), Refusal>
    requires { key_check (key bench file_id name.now) ≡ Ok tt }
    ensures answer { result ≡ check_of (book_of table.old) (remove (key bench file_id name.now)) }
    ensures table { table.new ≡ contents_after table.old (remove (key bench file_id name.now)) }
{
    let words = address_row::key_words(bench, file_id, name);
    let n = taken(table);
    let p = place_of(table, words, n);
    if p < n {
        remove_at(table, p, n);
        return Ok(());
    }
    Err(Refusal::Absent)
}

// ---- the calls

// The address of a bench's row: INDEX, LONG, ABSENT.
pub fn table_find(
    table: &[u64; 4097],
    bench: u64,
    file_id: u64,
    name: &[u8],
) -> Result<u64, Refusal>
    ensures cause { result ≡ number_of (book_of table.now) (look (key bench file_id name.now)) }
    ensures report { report_of_number result ≡ report_of_number (number_of (book_of table.now) (look (key bench file_id name.now))) }
{
    address_book::check_key(bench, file_id, name)?;
    find_good(table, bench, file_id, name)
}

// Adds a bench's row, or replaces its address: INDEX, LONG, FULL.
pub fn table_add(
    table: &mut [u64; 4097],
    bench: u64,
    file_id: u64,
    name: &[u8],
    address: u64,
) -> Result<(), Refusal>
    ensures cause { result ≡ check_of (book_of table.old) (add (key bench file_id name.now) address) }
    ensures report { sheet_head result ≡ sheet_head (check_of (book_of table.old) (add (key bench file_id name.now) address)) }
    ensures table { table.new ≡ contents_after table.old (add (key bench file_id name.now) address) }
{
    address_book::check_key(bench, file_id, name)?;
    add_good(table, bench, file_id, name, address)
}

// Removes a bench's row: INDEX, LONG, ABSENT.
pub fn table_remove(
    table: &mut [u64; 4097],
    bench: u64,
    file_id: u64,
    name: &[u8],
) -> Result<(), Refusal>
    ensures cause { result ≡ check_of (book_of table.old) (remove (key bench file_id name.now)) }
    ensures report { sheet_head result ≡ sheet_head (check_of (book_of table.old) (remove (key bench file_id name.now))) }
    ensures table { table.new ≡ contents_after table.old (remove (key bench file_id name.now)) }
{
    address_book::check_key(bench, file_id, name)?;
    remove_good(table, bench, file_id, name)
}

// The address that a fill writes for an import: its row's, or its recorded value where it has none.
pub fn address_for(table: &[u64; 4097], bench: u64, file_id: u64, name: &[u8], recorded: u64) -> u64
    ensures { result ≡ address_at (book_of table.now) bench (imported file_id name.now recorded) }
{
    let answer = table_find(table, bench, file_id, name);
    match answer {
        Ok(a) => a,
        Err(_) => recorded,
    }
}
