ghost use Rattle.std.specs.Prelude.{◌≡◌, IfOk, OnOk, OnErr};
ghost use Rattle.std.specs.FinMap as finmap;
ghost use Rattle.mx_files.specs.Files.{sizes_in, with_file};
ghost use Rattle.mx_model.specs.Answer.{file_sizes};

use mx_ask::FileSize;
use mx_base::{FileAt, Partition, data_file_name};
use mx_lists::{Listed, Text};
use mx_merge::Sizes;
use std::alloc::{AllocError, Global};
use std::collections::BTreeMap;
use std::marker::Model;

/// Names and sizes of files by partitions, which contracts see as a finite map of finite maps.
#[derive(Drop)]
pub struct Maps {
    partitions: BTreeMap<Partition, Sizes>,
}

impl Model for Maps {
    ghost use Rattle.std.specs.FinMap as finmap;
    ghost use Rattle.std.specs.Coded.{coded_list, coded_ℕ};
    ghost use Rattle.mx_files.specs.Files.{FilesMap};

    ghost Value = { FilesMap };

    ghost coded = { finmap.code (coded_list coded_ℕ) (finmap.code (coded_list coded_ℕ) coded_ℕ) };

    ghost view = { λ m. finmap.from_entries m.partitions.entries };
}

impl Maps {
    pub fn new(alloc: Global) -> Maps
        ensures { result ≡ finmap.empty }
    {
        Maps {
            partitions: BTreeMap::new(alloc),
        }
    }

    /// The file stands in its partition from here on.
    pub fn add(&mut self, alloc: Global, file: FileAt) -> Result<(), AllocError>
        ensures ok { OnOk result (self.new ≡ with_file self.old file) }
        ensures err { OnErr result (self.new ≡ self.old) }
    {
        let name = data_file_name(alloc, &file.file, file.at)?;
        self.insert(alloc, file.partition, name, file.size)
    }

    fn insert(
        &mut self,
        alloc: Global,
        partition: Partition,
        name: Text,
        size: u64,
    ) -> Result<(), AllocError>
        ensures ok { OnOk result (self.new ≡ finmap.insert self.old partition (finmap.insert (sizes_in self.old partition) name size)) }
        ensures err { OnErr result (self.new ≡ self.old) }
    {
        if let Some(sizes) = self.partitions.get_mut(&partition) {
            return sizes.insert(name, size);
        }
        let mut sizes = Sizes::new(alloc);
        sizes.insert(name, size)?;
        self.partitions.insert(partition, sizes)?;
        Ok(())
    }

    /// The names of the partitions, in byte order.
    pub fn partitions(&self, alloc: Global) -> Result<Listed<Text>, AllocError>
        ensures { IfOk result (λ partitions. partitions ≡ finmap.keys self.now) }
    {
        let mut names = Listed::new(alloc);
        for partition in self.partitions.keys() {
            names.push(Text::from_str(alloc, partition.as_str())?)?;
        }
        Ok(names)
    }

    /// Names and sizes of a partition, in byte order of names: none where it has no file.
    pub fn file_sizes(
        &self,
        alloc: Global,
        partition: &Partition,
    ) -> Result<Listed<FileSize>, AllocError>
        ensures { IfOk result (λ files. files ≡ file_sizes (sizes_in self.now partition.now)) }
    {
        match self.partitions.get(partition) {
            Some(sizes) => names_and_sizes(alloc, sizes),
            None => Ok(Listed::new(alloc)),
        }
    }
}

/// The names and sizes, in byte order of names.
fn names_and_sizes(alloc: Global, sizes: &Sizes) -> Result<Listed<FileSize>, AllocError>
    ensures { IfOk result (λ files. files ≡ file_sizes sizes.now) }
{
    let mut files = Listed::new(alloc);
    for (name, size) in sizes.tree().iter() {
        files.push(FileSize {
            name: name.clone()?,
            size: *size,
        })?;
    }
    Ok(files)
}
