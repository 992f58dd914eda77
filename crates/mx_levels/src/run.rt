ghost use Rattle.std.specs.Prelude.{◌≡◌, ◌+◌, ◌*◌, if◌then◌else◌, option_map};
ghost use Rattle.mx_avro.specs.Encoding.{zigzag};
ghost use Rattle.mx_levels.specs.Decoding.{HoldsBody, HoldsRun, seen};

use mx_avro::take_long;

/// A run of levels as it stands in the bytes.
#[derive(Drop)]
pub(crate) enum Run<'a> {
    Repeated { count: usize, level: bool },
    Packed { groups: &'a [u8] },
}

/// The run in front that fits so many levels, and the bytes behind it.
pub(crate) fn run_in(bytes: &[u8], left: usize) -> Option<(Run<'_>, &[u8])>
    ensures { HoldsRun left bytes.now (option_map (λ x. (seen x.0, x.1.now)) result) }
{
    let Ok((number, start)) = take_long(bytes, 0) else {
        return None;
    };
    let (_, rest) = bytes.split_at(start);
    let (packed, count) = header_of(number);
    if packed {
        packed_in(rest, left, count)
    } else {
        repeated_in(rest, left, count)
    }
}

// A header is read as a long, since it is the zigzag of one: twice a count that of the count, and twice a number of
// groups and 1 that of -1 less the number.
fn header_of(number: i64) -> (bool, usize)
    ensures { zigzag number ≡ 2 * result.1 + (if result.0 then 1 else 0) }
{
    if number >= 0 {
        (false, number as u64 as usize)
    } else {
        (true, -(number + 1) as u64 as usize)
    }
}

fn repeated_in(bytes: &[u8], left: usize, count: usize) -> Option<(Run<'_>, &[u8])>
    ensures { HoldsBody (2 * count) left bytes.now (option_map (λ x. (seen x.0, x.1.now)) result) }
{
    if count == 0 || left < count {
        return None;
    }
    match bytes {
        [0, behind @ ..] => Some((
            Run::Repeated {
                count,
                level: false,
            },
            behind,
        )),
        [1, behind @ ..] => Some((Run::Repeated { count, level: true }, behind)),
        _ => None,
    }
}

fn packed_in(bytes: &[u8], left: usize, count: usize) -> Option<(Run<'_>, &[u8])>
    ensures { HoldsBody (2 * count + 1) left bytes.now (option_map (λ x. (seen x.0, x.1.now)) result) }
{
    if count == 0 || left.div_ceil(8) < count || bytes.len() < count {
        return None;
    }
    let (groups, behind) = bytes.split_at(count);
    Some((Run::Packed { groups }, behind))
}
