ghost use Rattle.std.specs.Prelude.{◌≡◌, IfOk, IfSome, OnOk, map};
ghost use Rattle.std.specs.FinMap as finmap;
ghost use Rattle.mx_payload.specs.Rules.{IsLong, IsText, AreWords, plain};
ghost use Rattle.mx_files.specs.Delta.{word_of};

use mx_lists::{Listed, Text};
use mx_payload::NameWord;
use std::alloc::{AllocError, Global};
use std::collections::BTreeMap;
use std::marker::Model;

/// The sizes of files by their names, none for a file that is taken out.
#[derive(Drop)]
pub(crate) struct Words {
    sizes: BTreeMap<Text, Option<u64>>,
}

impl Model for Words {
    ghost use Rattle.std.specs.FinMap as finmap;
    ghost use Rattle.std.specs.Coded.{coded_list, coded_option, coded_ℕ};
    ghost use Rattle.mx_files.specs.Delta.{WordMap};
    ghost use Rattle.mx_files.specs.Said.{AreLong};

    ghost Value = { WordMap };

    ghost coded = { finmap.code (coded_list coded_ℕ) (coded_option coded_ℕ) };

    ghost view = { λ w. finmap.from_entries w.sizes.entries };

    ghost invariant = { λ w. AreLong (finmap.from_entries w.sizes.entries) };
}

impl Words {
    pub fn new(alloc: Global) -> Words
        ensures { result ≡ finmap.empty }
    {
        Words {
            sizes: BTreeMap::new(alloc),
        }
    }

    /// The name has the size from here on.
    pub fn insert(&mut self, name: Text, size: Option<u64>) -> Result<(), AllocError>
        requires { IfSome size IsLong }
        ensures { OnOk result (self.new ≡ finmap.insert self.old name size) }
    {
        self.sizes.insert(name, size)?;
        Ok(())
    }

    /// The names, in byte order.
    pub fn names(&self, alloc: Global) -> Result<Listed<Text>, AllocError>
        ensures names { IfOk result (λ names. names ≡ finmap.keys self.now) }
        ensures fits { IfOk result (λ names. AreWords (map plain names)) }
    {
        let mut names = Vec::new(alloc);
        for name in self.sizes.keys() {
            names.push(copy_of(alloc, name)?)?;
        }
        Ok(Listed::from_vec(names))
    }

    /// The word of each name, in byte order of names.
    pub fn words(&self, alloc: Global) -> Result<Listed<NameWord>, AllocError>
        ensures words { IfOk result (λ words. words ≡ map word_of (finmap.entries self.now)) }
        ensures fits { IfOk result AreWords }
    {
        let mut words = Vec::new(alloc);
        for (name, size) in self.sizes.iter() {
            words.push(word(alloc, name, *size)?)?;
        }
        Ok(Listed::from_vec(words))
    }
}

fn word(alloc: Global, name: &Text, size: Option<u64>) -> Result<NameWord, AllocError>
    ensures word { IfOk result (λ word. word ≡ word_of (name.now, size)) }
    ensures text { IfOk result (λ word. IsText word.name) }
{
    let name = copy_of(alloc, name)?;
    let deleted = size.is_none();
    let size = size.unwrap_or(0);
    Ok(NameWord {
        name,
        size,
        deleted,
    })
}

fn copy_of(alloc: Global, name: &Text) -> Result<Text, AllocError>
    ensures copy { IfOk result (λ copy. copy ≡ name.now) }
    ensures text { IfOk result IsText }
{
    Text::from_str(alloc, name.as_str())
}
