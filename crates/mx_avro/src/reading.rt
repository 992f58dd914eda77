ghost use Rattle.std.specs.Prelude.{◌≡◌, ℕ, ℤ, pos, List, ◌+◌, ◌^◌, ◌<◌, ◌≤◌, ◌++◌, drop, length, IfOk, IfErr, Ok, Err, ◌↔◌, ◌⊎◌};
ghost use Rattle.std.specs.Int.RustNames.{FitsSigned};
ghost use Rattle.std.specs.Int.{w64};
ghost use Rattle.mx_avro.specs.Encoding.{long_encoding, bytes_encoding};
ghost use Rattle.mx_avro.specs.declared.error.AvroError.TheVariants.{Short, Wide};
ghost use Rattle.mx_avro.specs.Decoding.{StandsAt, IsCut, HoldsBytes, groups_at, signed, long_at, bytes_at, widens};

use crate::error::AvroError;

/// The number at a place, and the place behind it.
pub fn take_long(bytes: &[u8], at: usize) -> Result<(i64, usize), AvroError>
    ensures found { IfOk result (λ n. FitsSigned w64 n.0 × StandsAt bytes.now at (long_encoding n.0) n.1) }
    ensures only { (n : ℤ) (rest : List ℕ) → FitsSigned w64 n → drop at bytes.now ≡ long_encoding n ++ rest
        → result ≡ Ok (n, at + length (long_encoding n)) }
    ensures short { result ≡ Err (Short at) ↔ IsCut (drop at bytes.now) }
    ensures fault { IfErr result (λ e. (e ≡ Short at) ⊎ (e ≡ Wide at)) }
    ensures within { IfOk result (λ n. n.1 ≤ length bytes.now) }
    ensures exact { result ≡ long_at bytes.now at }
{
    long_of(bytes, at)
}

/// Where the bytes of the byte string at a place begin and end.
pub fn take_bytes(bytes: &[u8], at: usize) -> Result<(usize, usize), AvroError>
    ensures found { IfOk result (λ place. HoldsBytes bytes.now at place.0 place.1) }
    ensures only { (text rest : List ℕ) → drop at bytes.now ≡ bytes_encoding text ++ rest
        → result ≡ Ok (at + length (long_encoding (pos (length text))), at + length (bytes_encoding text)) }
    ensures exact { result ≡ bytes_at bytes.now at }
{
    bytes_of(bytes, at)
}

fn bytes_of(bytes: &[u8], at: usize) -> Result<(usize, usize), AvroError>
    ensures { result ≡ bytes_at bytes.now at }
{
    let (len, start) = long_of(bytes, at)?;
    if len < 0 {
        return Err(AvroError::Negative { at });
    }
    let len = len as u64 as usize;
    if bytes.len() - start < len {
        return Err(AvroError::Short { at });
    }
    Ok((start, start + len))
}

#[tactic(auto, unfolding(crate::specs::Decoding::long_at))]
fn long_of(bytes: &[u8], at: usize) -> Result<(i64, usize), AvroError>
    ensures exact { result ≡ long_at bytes.now at }
    ensures within { IfOk result (λ n. n.1 ≤ length bytes.now) }
{
    let rest = behind(bytes, at);
    let (number, count) = groups_of(rest, at)?;
    Ok((signed_of(number), at + count))
}

fn behind(bytes: &[u8], at: usize) -> &[u8]
    ensures { result.now ≡ drop at bytes.now }
{
    if at < bytes.len() { &bytes[at..] } else { &[] }
}

fn signed_of(number: u64) -> i64
    ensures { result ≡ signed number }
{
    let half = (number / 2) as i64;
    if number % 2 == 0 { half } else { -half - 1 }
}

// Whether a byte behind so many others passes 64 bits, or is the last and not needed.
fn is_wide(index: usize, byte: u8) -> bool
    ensures { result ≡ widens index byte }
{
    index == 9 && byte > 1 || index > 0 && byte == 0
}

/// The number that stands first, and how many bytes it has.
fn groups_of(rest: &[u8], at: usize) -> Result<(u64, usize), AvroError>
    ensures exact { result ≡ groups_at at 9 rest.now }
    ensures within { IfOk result (λ n. (0 < n.1) × (n.1 ≤ length rest.now)) }
{
    let mut number: u64 = 0;
    let mut scale: u64 = 1;
    for (index, &byte) in rest.iter().enumerate() {
        if is_wide(index, byte) {
            return Err(AvroError::Wide { at });
        }
        if byte < 128 {
            return Ok((number + scale * u64::from(byte), index + 1));
        }
        number += scale * u64::from(byte - 128);
        scale *= 128;
    }
    Err(AvroError::Short { at })
}
