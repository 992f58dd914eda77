ghost use Rattle.std.specs.Prelude.{◌≡◌, List, ℕ, map, length, IfOk, OnOk};
ghost use Rattle.std.specs.BTreeMap as tree;
ghost use Rattle.std.specs.Ordering.{nat_cmp};
ghost use Rattle.std.specs.Cmp.Lexicographic.{slice_cmp};
ghost use Rattle.mx_payload.specs.declared.payload.Payload.{Payload};
ghost use Rattle.mx_payload.specs.declared.payload.NameWord.{NameWord};
ghost use Rattle.mx_payload.specs.Rules.{IsWellFormed, IsLong, AreWords, plain};
ghost use Rattle.mx_payload.specs.Union.{IsUnion, IsCombined, kind, after, word_of};

use crate::payload::{NameWord, Payload};
use crate::words::names_of;
use mx_lists::{Listed, Text};
use std::alloc::{AllocError, Global};
use std::collections::BTreeMap;

/// What an older and a newer payload of one key say together.
pub fn combine(alloc: Global, older: Payload, newer: Payload) -> Result<Payload, AllocError>
    requires older { IsWellFormed older }
    requires newer { IsWellFormed newer }
    ensures value { IfOk result (λ payload. IsCombined older newer payload) }
    ensures kept { IfOk result IsWellFormed }
{
    match (older, newer) {
        (Payload::Partitions(older), Payload::Partitions(newer)) => {
            let names = union_of_names(alloc, older.into_vec(), newer.into_vec())?;
            Ok(Payload::Partitions(Listed::from_vec(names)))
        }
        (Payload::Files(older), Payload::Files(newer)) => {
            let words = union(alloc, older.into_vec(), newer.into_vec())?;
            Ok(Payload::Files(Listed::from_vec(words)))
        }
        (_, newer) => Ok(newer),
    }
}

/// Payloads of one kind that go over each other may be taken together in any order of the pairs.
pub fn combine_is_associative()
    ensures { (a b c ab bc left right : Payload) → kind a ≡ kind b → kind b ≡ kind c
        → IsCombined a b ab → IsCombined ab c left → IsCombined b c bc → IsCombined a bc right → left ≡ right }
{}

fn union_of_names(
    alloc: Global,
    older: Vec<Text>,
    newer: Vec<Text>,
) -> Result<Vec<Text>, AllocError>
    requires older { AreWords (map plain older.items) }
    requires newer { AreWords (map plain newer.items) }
    ensures union { IfOk result (λ names. IsUnion (map plain older.items) (map plain newer.items) (map plain names.items)) }
    ensures kept { IfOk result (λ names. AreWords (map plain names.items)) }
{
    let older = plain_words(alloc, older)?;
    let newer = plain_words(alloc, newer)?;
    let words = union(alloc, older, newer)?;
    names_of(alloc, words)
}

fn union(
    alloc: Global,
    older: Vec<NameWord>,
    newer: Vec<NameWord>,
) -> Result<Vec<NameWord>, AllocError>
    requires older { AreWords older.items }
    requires newer { AreWords newer.items }
    ensures union { IfOk result (λ words. IsUnion older.items newer.items words.items) }
    ensures kept { IfOk result (λ words. AreWords words.items) }
{
    let mut states = BTreeMap::new(alloc);
    put_all(&mut states, older)?;
    put_all(&mut states, newer)?;
    all_words(alloc, states)
}

fn put_all(states: &mut BTreeMap<Text, (u64, bool)>, words: Vec<NameWord>) -> Result<(), AllocError>
    ensures { OnOk result ((name : List ℕ) → tree.get (slice_cmp nat_cmp) states.new name ≡ after words.items name (tree.get (slice_cmp nat_cmp) states.old name)) }
{
    for word in words {
        states.insert(word.name, (word.size, word.deleted))?;
    }
    Ok(())
}

fn all_words(
    alloc: Global,
    states: BTreeMap<Text, (u64, bool)>,
) -> Result<Vec<NameWord>, AllocError>
    ensures words { IfOk result (λ words. words.items ≡ map word_of states.entries) }
    ensures ordered { OnOk result (tree.IsOrdered (slice_cmp nat_cmp) states) }
    ensures fits { IfOk result (λ words. IsLong (length words.items)) }
{
    let mut words = Vec::new(alloc);
    for (name, (size, deleted)) in states {
        words.push(NameWord {
            name,
            size,
            deleted,
        })?;
    }
    Ok(words)
}

fn plain_words(alloc: Global, names: Vec<Text>) -> Result<Vec<NameWord>, AllocError>
    ensures { IfOk result (λ words. words.items ≡ map plain names.items) }
{
    let mut words = Vec::new(alloc);
    for name in names {
        words.push(NameWord {
            name,
            size: 0,
            deleted: false,
        })?;
    }
    Ok(words)
}
