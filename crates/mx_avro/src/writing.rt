ghost use Rattle.std.specs.Prelude.{◌≡◌, ℤ, List, ℕ, ◌++◌, ◌<◌, ◌^◌, length, OnOk};
ghost use Rattle.std.specs.Int.RustNames.{FitsSigned};
ghost use Rattle.std.specs.Int.{w64};
ghost use Rattle.mx_avro.specs.Encoding.{zigzag, groups, long_encoding, bytes_encoding};

use std::alloc::AllocError;

/// Writes a number at the end.
#[tactic(auto, unfolding(crate::specs::Encoding::long_encoding))]
pub fn put_long(out: &mut Vec<u8>, n: i64) -> Result<(), AllocError>
    ensures { OnOk result (out.new.items ≡ out.old.items ++ long_encoding n) }
{
    put_groups(out, zigzag_of(n))
}

/// Writes a byte string at the end: its length and its bytes.
pub fn put_bytes(out: &mut Vec<u8>, bytes: &[u8]) -> Result<(), AllocError>
    ensures { OnOk result (out.new.items ≡ out.old.items ++ bytes_encoding bytes.now) }
{
    put_long(out, bytes.len() as i64)?;
    out.extend_from_slice(bytes)?;
    Ok(())
}

/// No spelling begins another one, so what is written is read again whatever follows it.
pub fn one_spelling()
    ensures long { (m n : ℤ) (x y : List ℕ) → FitsSigned w64 m → FitsSigned w64 n
        → long_encoding m ++ x ≡ long_encoding n ++ y → (m ≡ n) × (x ≡ y) }
    ensures bytes { (a b x y : List ℕ) → length a < 2 ^ 63 → length b < 2 ^ 63
        → bytes_encoding a ++ x ≡ bytes_encoding b ++ y → (a ≡ b) × (x ≡ y) }
{}

fn zigzag_of(n: i64) -> u64
    ensures { result ≡ zigzag n }
{
    if n >= 0 {
        2 * (n as u64)
    } else {
        2 * (-(n + 1) as u64) + 1
    }
}

fn put_groups(out: &mut Vec<u8>, number: u64) -> Result<(), AllocError>
    ensures { OnOk result (out.new.items ≡ out.old.items ++ groups 9 number) }
{
    let mut rest = number;
    for _ in 0..9_u8 {
        if rest < 128 {
            break;
        }
        out.push((rest % 128 + 128) as u8)?;
        rest /= 128;
    }
    out.push(rest as u8)?;
    Ok(())
}
