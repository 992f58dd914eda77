ghost use Rattle.std.specs.Prelude.{◌≡◌, length, Err, IfErr};
ghost use Rattle.std.specs.Int.{w16, w32, w64};
ghost use Rattle.std.specs.Option.{option_map};
ghost use Rattle.mx_lists.specs.declared.fault.Fault.TheVariants as faults;
ghost use Rattle.mx_hfile.specs.Encoding.{rises};
ghost use Rattle.mx_lists.specs.Reading.{Gives};
ghost use Rattle.mx_hfile.specs.Decoding.{number_in, text_in, expected_in, key_in, value_in, entry_in, is_key};
ghost use Rattle.mx_hfile.specs.Seen.{IsBad};

use mx_lists::Fault;

pub(crate) fn bad<T>(bytes: &[u8]) -> Result<T, Fault>
    ensures { result ≡ Err (faults.Bad (length bytes.now)) }
{
    Err(Fault::Bad { left: bytes.len() })
}

#[tactic(auto, unfolding(crate::specs::Decoding::number_in))]
fn u16_in(bytes: &[u8]) -> Result<(u16, &[u8]), Fault>
    ensures read { Gives (λ x. (x.0, x.1.now)) result (number_in w16 bytes.now) }
    ensures memory { IfErr result IsBad }
{
    if bytes.len() < 2 {
        return bad(bytes);
    }
    let (front, rest) = bytes.split_at(2);
    Ok((u16::from_be_bytes([front[0], front[1]]), rest))
}

#[tactic(auto, unfolding(crate::specs::Decoding::number_in))]
pub(crate) fn u32_in(bytes: &[u8]) -> Result<(u32, &[u8]), Fault>
    ensures read { Gives (λ x. (x.0, x.1.now)) result (number_in w32 bytes.now) }
    ensures memory { IfErr result IsBad }
{
    if bytes.len() < 4 {
        return bad(bytes);
    }
    let (front, rest) = bytes.split_at(4);
    let number = u32::from_be_bytes([front[0], front[1], front[2], front[3]]);
    Ok((number, rest))
}

#[tactic(auto, unfolding(crate::specs::Decoding::number_in))]
pub(crate) fn u64_in(bytes: &[u8]) -> Result<(u64, &[u8]), Fault>
    ensures read { Gives (λ x. (x.0, x.1.now)) result (number_in w64 bytes.now) }
    ensures memory { IfErr result IsBad }
{
    if bytes.len() < 8 {
        return bad(bytes);
    }
    let (front, rest) = bytes.split_at(8);
    let number = u64::from_be_bytes([
        front[0], front[1], front[2], front[3], front[4], front[5], front[6], front[7],
    ]);
    Ok((number, rest))
}

#[tactic(auto, unfolding(crate::specs::Decoding::text_in))]
fn text_in(len: usize, bytes: &[u8]) -> Result<(&[u8], &[u8]), Fault>
    ensures read { Gives (λ x. (x.0.now, x.1.now)) result (text_in len bytes.now) }
    ensures memory { IfErr result IsBad }
{
    if bytes.len() < len {
        return bad(bytes);
    }
    Ok(bytes.split_at(len))
}

/// What stands behind the bytes that are wanted.
#[tactic(auto, unfolding(crate::specs::Decoding::expected_in))]
pub(crate) fn expected<'a>(wanted: &[u8], bytes: &'a [u8]) -> Result<&'a [u8], Fault>
    ensures read { Gives (λ rest. rest.now) result (expected_in wanted.now bytes.now) }
    ensures memory { IfErr result IsBad }
{
    let (text, rest) = text_in(wanted.len(), bytes)?;
    if text != wanted {
        return bad(bytes);
    }
    Ok(rest)
}

/// A key behind the last one, and the one that is listed where one is.
#[tactic(auto, unfolding(crate::specs::Decoding::key_in))]
pub(crate) fn key_of<'a>(
    last: &[u8],
    listed: Option<&[u8]>,
    bytes: &'a [u8],
) -> Result<(&'a [u8], &'a [u8]), Fault>
    ensures read { Gives (λ x. (x.0.now, x.1.now)) result (key_in (is_key last.now (option_map (λ k. k.now) listed.entry)) bytes.now) }
    ensures memory { IfErr result IsBad }
{
    let (len, at_key) = u16_in(bytes)?;
    if len == 0 {
        return bad(bytes);
    }
    let (key, rest) = text_in(usize::from(len), at_key)?;
    if !is_key(last, listed, key) {
        return bad(at_key);
    }
    Ok((key, rest))
}

fn is_key(last: &[u8], listed: Option<&[u8]>, key: &[u8]) -> bool
    ensures { result ≡ is_key last.now (option_map (λ k. k.now) listed.entry) key.now }
{
    match listed {
        None => last.cmp(key).is_lt(),
        Some(listed) => last.cmp(key).is_lt() && key == listed,
    }
}

#[tactic(auto, unfolding(crate::specs::Decoding::value_in))]
fn value_of(bytes: &[u8]) -> Result<(&[u8], &[u8]), Fault>
    ensures read { Gives (λ x. (x.0.now, x.1.now)) result (value_in bytes.now) }
    ensures memory { IfErr result IsBad }
{
    let (len, rest) = u32_in(bytes)?;
    text_in(len as usize, rest)
}

/// A key, its value, and what stands behind them.
#[tactic(auto, unfolding(crate::specs::Decoding::entry_in))]
pub(crate) fn entry_of<'a>(
    last: &[u8],
    listed: Option<&[u8]>,
    bytes: &'a [u8],
) -> Result<(&'a [u8], &'a [u8], &'a [u8]), Fault>
    ensures read { Gives (λ x. (record { key = x.0.now; value = x.1.now }, x.2.now)) result (entry_in (is_key last.now (option_map (λ k. k.now) listed.entry)) bytes.now) }
    ensures memory { IfErr result IsBad }
{
    let (key, rest) = key_of(last, listed, bytes)?;
    let (value, rest) = value_of(rest)?;
    Ok((key, value, rest))
}
