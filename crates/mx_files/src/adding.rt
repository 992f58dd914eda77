ghost use Rattle.std.specs.Prelude.{◌≡◌, ◌<◌, ◌^◌, fold, IfOk, OnOk};
ghost use Rattle.std.specs.List.{All};
ghost use Rattle.mx_base.specs.Names.{IsPartition};
ghost use Rattle.mx_files.specs.Delta.{AreShards};
ghost use Rattle.mx_files.specs.Said.{with_new_file, with_gone_file};

use crate::said::{ALL_PARTITIONS, Said};
use mx_base::{FileAt, ShardEntries, data_file_name};
use mx_lists::Text;
use std::alloc::{AllocError, Global};

/// What an action adds to the index of files that writes the new files and takes out the others: the entries of the
/// one shard, none where there is no file.
pub fn delta(
    alloc: Global,
    news: &[FileAt],
    gone: &[FileAt],
) -> Result<Vec<ShardEntries>, AllocError>
    requires sizes { All (λ file. file.size < 2 ^ 63) news.now }
    ensures { IfOk result (λ shards. AreShards news.now gone.now shards.items) }
{
    let mut shards = Vec::new(alloc);
    if news.is_empty() && gone.is_empty() {
        return Ok(shards);
    }
    let mut said = Said::new(alloc);
    say_new(alloc, &mut said, news)?;
    say_gone(alloc, &mut said, gone)?;
    shards.push(ShardEntries {
        shard: 0,
        entries: said.entries(alloc)?,
    })?;
    Ok(shards)
}

fn say_new(alloc: Global, said: &mut Said, news: &[FileAt]) -> Result<(), AllocError>
    requires sizes { All (λ file. file.size < 2 ^ 63) news.now }
    ensures said { OnOk result (said.new ≡ fold with_new_file said.old news.now) }
    ensures partitions { OnOk result (All (λ file. IsPartition file.partition) news.now) }
{
    for file in news {
        say_new_file(alloc, said, file)?;
    }
    Ok(())
}

fn say_new_file(alloc: Global, said: &mut Said, file: &FileAt) -> Result<(), AllocError>
    requires { file.now.size < 2 ^ 63 }
    ensures said { OnOk result (said.new ≡ with_new_file said.old file.now) }
    ensures partition { OnOk result (IsPartition file.now.partition) }
{
    let partition = Text::from_str(alloc, file.partition.as_str())?;
    let name = data_file_name(alloc, &file.file, file.at)?;
    said.say(alloc, partition.clone()?, name, Some(file.size))?;
    let all = Text::from_str(alloc, ALL_PARTITIONS)?;
    said.say(alloc, all, partition, Some(0))
}

fn say_gone(alloc: Global, said: &mut Said, gone: &[FileAt]) -> Result<(), AllocError>
    ensures said { OnOk result (said.new ≡ fold with_gone_file said.old gone.now) }
    ensures partitions { OnOk result (All (λ file. IsPartition file.partition) gone.now) }
{
    for file in gone {
        say_gone_file(alloc, said, file)?;
    }
    Ok(())
}

fn say_gone_file(alloc: Global, said: &mut Said, file: &FileAt) -> Result<(), AllocError>
    ensures said { OnOk result (said.new ≡ with_gone_file said.old file.now) }
    ensures partition { OnOk result (IsPartition file.now.partition) }
{
    let partition = Text::from_str(alloc, file.partition.as_str())?;
    let name = data_file_name(alloc, &file.file, file.at)?;
    said.say(alloc, partition, name, None)
}
