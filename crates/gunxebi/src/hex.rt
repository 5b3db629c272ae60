// Bytes of files in lower-case hexadecimal.
ghost use Rattle.std.specs.Prelude.{◌≡◌, ℕ, ◌/◌, ◌%◌, ◌<◌, IfOk, MatchOption, ◌≢◌};
ghost use Rattle.gunxebi.specs.Hex.{hex_digit};

use crate::flaw::Flaw;
use std::alloc::Global;

// The number that a digit stands for.
fn value(digit: u8) -> Option<u8>
    ensures { MatchOption result ((v : ℕ) → v < 16 → hex_digit v ≢ digit) (λ v. (v < 16) × (hex_digit v ≡ digit)) }
{
    match digit {
        b'0'..=b'9' => Some(digit - b'0'),
        b'a'..=b'f' => Some(digit - b'a' + 10),
        _ => None,
    }
}

// The byte that two digits stand for.
fn byte(high: u8, low: u8) -> Result<u8, Flaw>
    ensures { IfOk result (λ b. (hex_digit (b / 16) ≡ high) × (hex_digit (b % 16) ≡ low)) }
{
    match (value(high), value(low)) {
        (Some(h), Some(l)) => Ok(h * 16 + l),
        _ => Err(Flaw::NotHex),
    }
}

// The byte of a pair of digits. The last digit of an odd number stands alone.
fn pair(digits: &[u8]) -> Result<u8, Flaw> {
    match digits {
        [high, low] => byte(*high, *low),
        [digit] if value(*digit).is_some() => Err(Flaw::OddDigits),
        _ => Err(Flaw::NotHex),
    }
}

// The bytes of a file: two digits a byte, or '-' for an empty file.
pub fn bytes(heap: Global, digits: &[u8]) -> Result<Vec<u8>, Flaw> {
    match digits {
        b"-" => Ok(Vec::new(heap)),
        [] => Err(Flaw::EmptyField),
        _ => digits.chunks(2).map(pair).try_collect(heap),
    }
}
