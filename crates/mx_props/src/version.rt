ghost use Rattle.std.specs.Prelude.{◌≡◌, ◌≤◌, ◌==◌, length, option_map, slice_get, true};
ghost use Rattle.std.specs.List.{list_all, slice_split};
ghost use Rattle.std.specs.Char.{is_ascii_digit};
ghost use Rattle.mx_props.specs.Version as version;

/// The number that the third line of bytes gives as the version.
pub(crate) fn version_in(bytes: &[u8]) -> Option<u32>
    ensures { result ≡ version.version_in bytes.now }
{
    let Some(line) = third_line(bytes) else {
        return None;
    };
    version_of(line)
}

fn third_line(bytes: &[u8]) -> Option<&[u8]>
    ensures { option_map (λ line. line.now) result ≡ slice_get (slice_split (λ byte. byte == 10) bytes.now) 2 }
{
    bytes.split(|byte| *byte == b'\n').nth(2)
}

#[tactic(auto, unfolding(crate::specs::Version::version_of))]
fn version_of(line: &[u8]) -> Option<u32>
    ensures { result ≡ version.version_of line.now }
{
    let Some(digits) = line.strip_prefix(b"hoodie.table.version=".as_slice()) else {
        return None;
    };
    version_number(digits)
}

#[tactic(auto, unfolding(crate::specs::Version::version_number))]
fn version_number(digits: &[u8]) -> Option<u32>
    ensures { result ≡ version.version_number digits.now }
{
    if digits.is_empty() || digits.len() > 9 || !are_digits(digits) {
        return None;
    }
    Some(number_of(digits))
}

fn are_digits(digits: &[u8]) -> bool
    ensures { result ≡ list_all is_ascii_digit digits.now }
{
    digits.iter().all(|digit| digit.is_ascii_digit())
}

fn number_of(digits: &[u8]) -> u32
    requires few { length digits.now ≤ 9 }
    requires each { list_all is_ascii_digit digits.now ≡ true }
    ensures { result ≡ version.number_of digits.now }
{
    let mut number = 0u32;
    for digit in digits {
        number = number * 10 + u32::from(*digit - b'0');
    }
    number
}
