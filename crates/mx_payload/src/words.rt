ghost use Rattle.std.specs.Prelude.{◌≡◌, ℕ, List, map, None, IfOk};
ghost use Rattle.mx_payload.specs.Rules.{rises};
ghost use Rattle.mx_lists.specs.Reading.{Gives};
ghost use Rattle.mx_payload.specs.Decoding.{name_in, state_in, word_in, words_in, map_in, last_name};

use crate::fields::{bad, expected, flag_of, natural_of, text_of};
use crate::payload::NameWord;
use mx_lists::{Fault, Text};
use std::alloc::{AllocError, Global};

/// The words of a map; `plain` where they are those of the partition list.
#[tactic(auto, unfolding(crate::specs::Decoding::map_in))]
pub(crate) fn map_of(
    alloc: Global,
    plain: bool,
    bytes: &[u8],
) -> Result<(Vec<NameWord>, &[u8]), Fault>
    ensures { Gives (λ x. (x.0.items, x.1.now)) result (map_in plain bytes.now) }
{
    let (count, rest) = natural_of(bytes)?;
    if count == 0 {
        return Ok((Vec::new(alloc), rest));
    }
    let (words, rest) = words_of(alloc, plain, count, rest)?;
    let rest = expected(0, rest)?;
    Ok((words, rest))
}

fn words_of(
    alloc: Global,
    plain: bool,
    count: u64,
    bytes: &[u8],
) -> Result<(Vec<NameWord>, &[u8]), Fault>
    ensures { Gives (λ x. (x.0.items, x.1.now)) result (words_in plain None count bytes.now) }
{
    let mut words = Vec::new(alloc);
    let mut rest = bytes;
    for _ in 0..count {
        let (word, after) = word_of(alloc, plain, words.as_slice(), rest)?;
        words.push(word)?;
        rest = after;
    }
    Ok((words, rest))
}

#[tactic(auto, unfolding(crate::specs::Decoding::word_in))]
fn word_of<'a>(
    alloc: Global,
    plain: bool,
    before: &[NameWord],
    bytes: &'a [u8],
) -> Result<(NameWord, &'a [u8]), Fault>
    ensures { Gives (λ x. (x.0, x.1.now)) result (word_in plain (last_name before.now) bytes.now) }
{
    let (name, rest) = name_of(alloc, before, bytes)?;
    let (size, deleted, rest) = state_of(plain, rest)?;
    let word = NameWord {
        name,
        size,
        deleted,
    };
    Ok((word, rest))
}

/// The size of a word and whether it was taken out.
#[tactic(auto, unfolding(crate::specs::Decoding::state_in))]
fn state_of(plain: bool, bytes: &[u8]) -> Result<(u64, bool, &[u8]), Fault>
    ensures { Gives (λ x. ((x.0, x.1), x.2.now)) result (state_in plain bytes.now) }
{
    let (size, at_flag) = natural_of(bytes)?;
    if plain && size > 0 {
        return bad(bytes);
    }
    let (deleted, rest) = flag_of(at_flag)?;
    if plain && deleted {
        return bad(at_flag);
    }
    if deleted && size > 0 {
        return bad(bytes);
    }
    Ok((size, deleted, rest))
}

#[tactic(auto, unfolding(crate::specs::Decoding::name_in))]
fn name_of<'a>(
    alloc: Global,
    before: &[NameWord],
    bytes: &'a [u8],
) -> Result<(Text, &'a [u8]), Fault>
    ensures { Gives (λ x. (x.0, x.1.now)) result (name_in (last_name before.now) bytes.now) }
{
    let (name, rest) = text_of(alloc, bytes)?;
    if !rises_behind(before, name.as_str()) {
        return bad(bytes);
    }
    Ok((name, rest))
}

fn rises_behind(before: &[NameWord], name: &str) -> bool
    ensures { result ≡ rises (last_name before.now) name.now }
{
    match before.last() {
        None => true,
        Some(word) => word.name.as_str().cmp(name).is_lt(),
    }
}

pub(crate) fn names_of(alloc: Global, words: Vec<NameWord>) -> Result<Vec<Text>, AllocError>
    ensures { IfOk result (λ names. names.items ≡ map (λ w. w.name) words.items) }
{
    let mut names = Vec::new(alloc);
    for word in words {
        names.push(word.name)?;
    }
    Ok(names)
}
