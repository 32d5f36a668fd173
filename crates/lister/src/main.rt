// The header lister: writes the listing of the file on standard input.
#![tactic(auto)]

ghost use Rattle.std.specs.Prelude.{◌≡◌, ◌<◌, ◌≤◌, length, take, nat_lt, IfOk, IfSome, OnOk};
ghost use Rattle.std.specs.Io.KnownBytes.{Appends, Consumes, IsAtEnd};
ghost use Rattle.lister.specs.Listed.{listed};

use std::io::{self, Read, Write};

// Reads until `buffer` is full or the input ends, and returns how many bytes it put at its start.
fn read_full<R: Read>(input: &mut R, buffer: &mut [u8]) -> io::Result<usize>
    ensures within { IfOk result (λ n. n ≤ length buffer.new) }
    ensures bytes { IfOk result (λ n. Consumes (R.remaining input.old) (R.remaining input.new) (take n buffer.new)) }
    ensures end { IfOk result (λ n. n < length buffer.new → IsAtEnd (R.remaining input.new)) }
{
    let mut done = 0;
    while done < buffer.len() {
        let n = input.read(&mut buffer[done..])?;
        if n == 0 {
            break;
        }
        done += n;
    }
    Ok(done)
}

// Whether the input holds more than was read.
fn has_more<R: Read>(input: &mut R) -> io::Result<bool>
    ensures { IfOk result (λ more. IfSome (R.remaining input.old) (λ left. more ≡ nat_lt 0 (length left))) }
{
    let mut one = [0u8; 1];
    let n = input.read(&mut one)?;
    Ok(0 < n)
}

// Lists the file that `input` gives.
fn list_file<R: Read, W: Write>(input: &mut R, output: &mut W) -> io::Result<()>
    ensures { OnOk result (IfSome (R.remaining input.old) (λ file. Appends (W.contents output.old) (W.contents output.new) (listed file))) }
{
    let mut buffer = [0u8; 65536];
    let n = read_full(input, &mut buffer)?;
    if has_more(input)? {
        return output.write_all(b"too long\n");
    }
    let mut out = [0u8; 2048];
    let end = listing::list_headers(&buffer[..n], &mut out);
    output.write_all(&out[..end])
}

fn main(rt: HostRuntime) -> io::Result<()> {
    list_file(&mut rt.stdin(), &mut rt.stdout())
}
