// The visibility in a symbol's type, which auxiliary version 2 of XCOFF32 brings.
#![tactic(auto)]

ghost use Rattle.std.specs.Prelude.{◌≡◌};
ghost use Rattle.header.specs.Inside.{Inside};
ghost use Rattle.visibility.specs.Visibility.{has_version2, is_csect_class, is_claimed, visibility_bits, is_unknown, visibility_of};

use format::Format;
use header::Summary;
use word::Width;

// Whether the types of an opened file may have a visibility: XCOFF32 with an auxiliary header that holds version 2.
pub fn has_version_2(file: &[u8], y: Summary) -> bool
    requires { Inside file.now y }
    ensures { result ≡ has_version2 file.now y }
{
    let f = y.format;
    match f {
        Format::Xcoff64 => false,
        Format::Xcoff32 => {
            if y.opthdr < 4 {
                return false;
            }
            let l = format::header_layout(f);
            word::read_field(file, l.length, Width::Two.at(2)) == 2
        }
    }
}

// The storage classes of symbols in csects: external, hidden external and weak external.
pub fn is_csect_class(sclass: u64) -> bool
    ensures { result ≡ is_csect_class sclass }
{
    match sclass {
        2 => true,
        107 => true,
        111 => true,
        _ => false,
    }
}

fn is_claimed(version2: bool, sclass: u64) -> bool
    ensures { result ≡ is_claimed version2 sclass }
{
    if version2 {
        return is_csect_class(sclass);
    }
    false
}

// Whether a visibility is claimed and means nothing: 5 to 7.
pub fn is_unknown(version2: bool, sclass: u64, ntype: u64) -> bool
    ensures { result ≡ is_unknown version2 sclass ntype }
{
    if is_claimed(version2, sclass) {
        return 4 < ntype / 0x1000 % 8;
    }
    false
}

// What is said of a symbol's visibility: nothing, or 0 none, 1 internal, 2 hidden, 3 protected, 4 exported.
pub fn visibility_of(version2: bool, sclass: u64, ntype: u64) -> Option<u64>
    ensures { result ≡ visibility_of version2 sclass ntype }
{
    if is_claimed(version2, sclass) {
        return Some(ntype / 0x1000 % 8);
    }
    None
}
