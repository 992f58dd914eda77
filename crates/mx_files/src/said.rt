ghost use Rattle.std.specs.Prelude.{◌≡◌, IfOk, IfSome, OnOk, map};
ghost use Rattle.std.specs.List.{AllByRecursion};
ghost use Rattle.std.specs.FinMap as finmap;
ghost use Rattle.mx_payload.specs.Rules.{IsLong, IsWellFormed};
ghost use Rattle.mx_files.specs.Said.{with_said, payload_of_key, entry_of};

use crate::words::Words;
use mx_base::Entry;
use mx_lists::{Bytes, Listed, Text};
use mx_payload::{Payload, encode};
use std::alloc::{AllocError, Global};
use std::collections::BTreeMap;
use std::marker::Model;

/// The key of the list of all partitions.
pub const ALL_PARTITIONS: &str = "__all_partitions__";

/// What is said on each key.
#[derive(Drop)]
pub(crate) struct Said {
    words: BTreeMap<Text, Words>,
}

impl Model for Said {
    ghost use Rattle.std.specs.FinMap as finmap;
    ghost use Rattle.std.specs.Coded.{coded_list, coded_option, coded_ℕ};
    ghost use Rattle.mx_files.specs.Said.{SaidMap};

    ghost Value = { SaidMap };

    ghost coded = { finmap.code (coded_list coded_ℕ) (finmap.code (coded_list coded_ℕ) (coded_option coded_ℕ)) };

    ghost view = { λ s. finmap.from_entries s.words.entries };
}

impl Said {
    pub fn new(alloc: Global) -> Said
        ensures { result ≡ finmap.empty }
    {
        Said {
            words: BTreeMap::new(alloc),
        }
    }

    /// The name on the key has the size from here on.
    pub fn say(
        &mut self,
        alloc: Global,
        key: Text,
        name: Text,
        size: Option<u64>,
    ) -> Result<(), AllocError>
        requires { IfSome size IsLong }
        ensures { OnOk result (self.new ≡ with_said self.old key name size) }
    {
        if let Some(words) = self.words.get_mut(&key) {
            return words.insert(name, size);
        }
        let mut words = Words::new(alloc);
        words.insert(name, size)?;
        self.words.insert(key, words)?;
        Ok(())
    }

    /// The entry of each key, in the order of keys.
    pub fn entries(&self, alloc: Global) -> Result<Listed<Entry>, AllocError>
        ensures entries { IfOk result (λ entries. entries ≡ map entry_of (finmap.entries self.now)) }
        ensures fits { IfOk result (λ entries. AllByRecursion (λ e. IsWellFormed (payload_of_key e)) (finmap.entries self.now)) }
    {
        let mut entries = Listed::new(alloc);
        for (key, words) in self.words.iter() {
            entries.push(entry(alloc, key, words)?)?;
        }
        Ok(entries)
    }
}

fn entry(alloc: Global, key: &Text, words: &Words) -> Result<Entry, AllocError>
    ensures entry { IfOk result (λ entry. entry ≡ entry_of (key.now, words.now)) }
    ensures fits { IfOk result (λ entry. IsWellFormed (payload_of_key (key.now, words.now))) }
{
    let payload = payload(alloc, key.as_str(), words)?;
    let value = encode(alloc, &payload)?;
    Ok(Entry {
        key: Bytes::from_slice(alloc, key.as_str().as_bytes())?,
        value: Bytes::from_vec(value),
    })
}

fn payload(alloc: Global, key: &str, words: &Words) -> Result<Payload, AllocError>
    ensures payload { IfOk result (λ payload. payload ≡ payload_of_key (key.now, words.now)) }
    ensures fits { IfOk result IsWellFormed }
{
    if key == ALL_PARTITIONS {
        Ok(Payload::Partitions(words.names(alloc)?))
    } else {
        Ok(Payload::Files(words.words(alloc)?))
    }
}
