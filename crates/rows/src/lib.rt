// Rows of numbers in lent memory: one for each element of a table, one behind the other.
#![tactic(auto)]

ghost use Rattle.std.specs.Prelude.{◌≡◌, ℕ, List, ◌+◌, ◌*◌, ◌<◌, ◌≤◌, length};
ghost use Rattle.std.proofs.lemmas.List.Edits.{sets};
ghost use Rattle.rows.specs.Rows.{rows_of, room_check};

use refusal::{Refusal, RoomItem};
use std::convert::AsSlice;

// Writes the numbers of `row` from the place `at` on.
pub fn write_row(row: &[u64], at: usize, out: &mut [u64])
    requires { at + length row.now ≤ length out.old }
    ensures { out.new ≡ sets out.old at row.now }
{
    out[at..at + row.len()].copy_from_slice(row);
}

// Writes a row of `width` numbers for each of `count` elements, one behind the other.
pub fn write_rows<R: AsSlice<u64> + Drop, F: Fn(u64) -> R>(
    width: usize,
    count: u64,
    row: F,
    out: &mut [u64],
)
    ghost wanted: { ℕ → List ℕ }
    requires room { length out.old ≡ width * count }
    requires wide { (i : ℕ) → length (wanted i) ≡ width }
    requires called { (i : ℕ) → i < count → F.pre row i }
    requires given { (i : ℕ) (r : R) → i < count → F.post row i r → R.items r ≡ wanted i }
    ensures { out.new ≡ rows_of wanted 0 count }
{
    for i in 0..count {
        let numbers = row(i);
        write_row(numbers.as_slice(), i as usize * width, out);
    }
}

// ROOM 0: memory of exactly `needed` numbers.
pub fn check_room(given: u64, needed: u64) -> Result<(), Refusal>
    ensures { result ≡ room_check given needed }
{
    if given == needed {
        return Ok(());
    }
    Err(Refusal::Room(RoomItem::RowBuffer))
}
