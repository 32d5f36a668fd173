// A row's key as seven numbers, so that keys are compared number by number, and its name back as bytes.
#![tactic(auto)]

ghost use Rattle.std.specs.Prelude.{◌≡◌, ◌+◌, ◌%◌, ◌^◌, ◌≤◌, [], ◌∷◌, length};
ghost use Rattle.sheet.specs.Sheet.{address_bytes};
ghost use Rattle.address_book.specs.Book.{key};
ghost use Rattle.address_book.specs.Call.{padded_name};
ghost use Rattle.address_row.specs.Words.{key_words};

// The name's bytes, and zeros up to 32.
fn pad(name: &[u8]) -> [u8; 32]
    requires { length name.now ≤ 32 }
    ensures { result ≡ padded_name name.now }
{
    let mut p = [0u8; 32];
    p[..name.len()].copy_from_slice(name);
    p
}

// The words of a key.
pub fn key_words(bench: u64, file_id: u64, name: &[u8]) -> [u64; 7]
    requires { (bench ≤ 2) × (length name.now ≤ 32) }
    ensures { result ≡ key_words (key bench file_id name.now) }
{
    let p = pad(name);
    let tag = bench * 64 + name.len() as u64;
    let a = word::get64(&p, 0);
    let b = word::get64(&p, 8);
    let c = word::get64(&p, 16);
    let d = word::get64(&p, 24);
    let s = std::num::wrapping_add_u64(
        a,
        std::num::wrapping_add_u64(b, std::num::wrapping_add_u64(c, d)),
    );
    let mark = std::num::wrapping_add_u64(tag, std::num::wrapping_add_u64(file_id, s));
    [mark, tag, file_id, a, b, c, d]
}

// The 32 bytes of a name's four numbers.
pub fn name_bytes(a: u64, b: u64, c: u64, d: u64) -> [u8; 32]
    ensures { result ≡ address_bytes (a ∷ (b ∷ (c ∷ (d ∷ [])))) }
{
    let mut p = [0u8; 32];
    update::put64(&mut p, 0, a);
    update::put64(&mut p, 8, b);
    update::put64(&mut p, 16, c);
    update::put64(&mut p, 24, d);
    p
}
