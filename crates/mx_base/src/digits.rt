ghost use Rattle.std.specs.Prelude.{◌≡◌, ◌≢◌, ℕ, ◌<◌, ◌≤◌, ◌^◌, length, MatchOption};
ghost use Rattle.mx_base.specs.Digits.{digits};

/// The number that so many digits write.
pub fn read_digits(bytes: &[u8]) -> Option<u64>
    requires { length bytes.now ≤ 17 }
    ensures { MatchOption result ((n : ℕ) → bytes.now ≢ digits (length bytes.now) n) (λ n. (n < 10 ^ length bytes.now) × (bytes.now ≡ digits (length bytes.now) n)) }
{
    let mut number = 0u64;
    for byte in bytes {
        let byte = *byte;
        if byte < b'0' || byte > b'9' {
            return None;
        }
        number = number * 10 + (byte - b'0') as u64;
    }
    Some(number)
}

/// The last four digits of a number.
pub fn four_digits(number: u32) -> [u8; 4]
    ensures { result ≡ digits 4 number }
{
    let tens = number / 10;
    let hundreds = tens / 10;
    let thousands = hundreds / 10;
    [thousands, hundreds, tens, number].map(|part| b'0' + (part % 10) as u8)
}
