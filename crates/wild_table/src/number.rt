//! Numbers as they are written in tables and words.

ghost use Rattle.std.specs.Prelude.{◌≡◌, ◌≤◌};
ghost use Rattle.wild_table.specs.Number.{number, numeral};

use std::str;

/// The number below 2 ^ 64 that the bytes write: decimal digits with no zero before others, or `0x` and
/// hexadecimal digits of either case.
pub fn read_number(bytes: &[u8]) -> Option<u64>
    ensures { result ≡ number bytes.now }
{
    match bytes {
        [b'0', b'x', digits @ ..] => read_digits(digits, 16),
        [b'0', _, ..] => None,
        digits => read_digits(digits, 10),
    }
}

#[tactic(auto, using(crate::proofs::Numbers::reads))]
fn read_digits(digits: &[u8], radix: u32) -> Option<u64>
    requires low { 2 ≤ radix }
    requires high { radix ≤ 36 }
    ensures { result ≡ numeral radix digits.now }
{
    if digits.first() == Some(&b'+') {
        return None;
    }
    let Ok(text) = str::from_utf8(digits) else {
        return None;
    };
    u64::from_str_radix(text, radix).ok()
}
