ghost use Rattle.std.specs.Prelude.{◌≡◌, map, length, IfOk, OnOk, OnErr};
ghost use Rattle.std.specs.FinMap as finmap;
ghost use Rattle.mx_payload.specs.Rules.{IsLong, plain};
ghost use Rattle.mx_merge.specs.Shown.{with_word, sizes_left, words_with};

use mx_lists::Text;
use mx_payload::NameWord;
use std::alloc::{AllocError, Global};
use std::collections::BTreeMap;
use std::marker::Model;

/// Sizes by names, which contracts see as a finite map.
#[derive(Drop)]
pub struct Sizes {
    sizes: BTreeMap<Text, u64>,
}

impl Model for Sizes {
    ghost use Rattle.std.specs.FinMap as finmap;
    ghost use Rattle.std.specs.Coded.{coded_list, coded_ℕ};
    ghost use Rattle.mx_merge.specs.Shown.{SizeMap};

    ghost Value = { SizeMap };

    ghost coded = { finmap.code (coded_list coded_ℕ) coded_ℕ };

    ghost view = { λ s. finmap.from_entries s.sizes.entries };
}

impl Sizes {
    pub fn new(alloc: Global) -> Sizes
        ensures { result ≡ finmap.empty }
    {
        Sizes {
            sizes: BTreeMap::new(alloc),
        }
    }

    /// The name has the size from here on.
    pub fn insert(&mut self, name: Text, size: u64) -> Result<(), AllocError>
        ensures ok { OnOk result (self.new ≡ finmap.insert self.old name size) }
        ensures err { OnErr result (self.new ≡ self.old) }
    {
        self.sizes.insert(name, size)?;
        Ok(())
    }

    /// The sizes, in byte order of names.
    pub fn tree(&self) -> &BTreeMap<Text, u64>
        ensures { finmap.from_entries result.now.entries ≡ self.now }
    {
        &self.sizes
    }

    /// The word goes over what was said of its name.
    fn put(&mut self, word: NameWord) -> Result<(), AllocError>
        ensures { OnOk result (self.new ≡ with_word self.old word) }
    {
        if word.deleted {
            self.sizes.remove(&word.name);
            return Ok(());
        }
        self.insert(word.name, word.size)
    }

    /// A word for each name, in byte order of names.
    pub(crate) fn into_words(self, alloc: Global) -> Result<Vec<NameWord>, AllocError>
        ensures words { IfOk result (λ words. words.items ≡ words_with self) }
        ensures fits { IfOk result (λ words. IsLong (length words.items)) }
    {
        let Sizes { sizes } = self;
        let mut words = Vec::new(alloc);
        for (name, size) in sizes {
            words.push(NameWord {
                name,
                size,
                deleted: false,
            })?;
        }
        Ok(words)
    }

    /// The names, in byte order.
    pub(crate) fn into_names(self, alloc: Global) -> Result<Vec<Text>, AllocError>
        ensures names { IfOk result (λ names. names.items ≡ finmap.keys self) }
        ensures fits { IfOk result (λ names. IsLong (length names.items)) }
    {
        let Sizes { sizes } = self;
        let mut names = Vec::new(alloc);
        for (name, _) in sizes {
            names.push(name)?;
        }
        Ok(names)
    }
}

/// The sizes after the words of a list of files.
pub(crate) fn with_words(sizes: Sizes, words: Vec<NameWord>) -> Result<Sizes, AllocError>
    ensures { IfOk result (λ after. after ≡ sizes_left sizes words.items) }
{
    let mut sizes = sizes;
    for word in words {
        sizes.put(word)?;
    }
    Ok(sizes)
}

/// The sizes after the names of a list of partitions.
pub(crate) fn with_names(sizes: Sizes, names: Vec<Text>) -> Result<Sizes, AllocError>
    ensures { IfOk result (λ after. after ≡ sizes_left sizes (map plain names.items)) }
{
    let mut sizes = sizes;
    for name in names {
        sizes.put(NameWord {
            name,
            size: 0,
            deleted: false,
        })?;
    }
    Ok(sizes)
}
