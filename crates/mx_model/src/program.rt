ghost use Rattle.std.specs.Prelude.{◌≡◌, ℕ, IfOk, OnOk, fold, map, nat_le, if◌then◌else◌};
ghost use Rattle.mx_model.specs.Timeline.{actions_upto};
ghost use Rattle.mx_model.specs.Listing.{file_of, files_of};
ghost use Rattle.mx_files.specs.Files.{with_file};
ghost use Rattle.mx_model.specs.Maps.{maps_of};
ghost use Rattle.mx_model.specs.Answer as spec;

use crate::{Action, Maps};
use mx_ask::{Question, Reply};
use mx_base::{FileAt, Instant, Partition};
use mx_meta::{PartitionStats, WriteStat};
use std::alloc::{AllocError, Global};

/// The maps of the actions at most at an instant.
pub fn rebuild(alloc: Global, actions: &[Action], at: Instant) -> Result<Maps, AllocError>
    ensures { IfOk result (λ maps. maps ≡ maps_of (actions_upto actions.now at)) }
{
    let mut maps = Maps::new(alloc);
    for action in actions {
        add_action_upto(alloc, &mut maps, action, at)?;
    }
    Ok(maps)
}

/// The reply to a question, as the maps at an instant say.
pub fn answer(
    alloc: Global,
    question: &Question,
    maps: &Maps,
    at: Instant,
) -> Result<Reply, AllocError>
    ensures { IfOk result (λ reply. reply ≡ spec.answer question.now maps.now at) }
{
    match question {
        Question::Files { partition } => {
            let files = maps.file_sizes(alloc, partition)?;
            Ok(Reply::Files { at, files })
        }
        Question::Partitions => {
            let partitions = maps.partitions(alloc)?;
            Ok(Reply::Partitions { at, partitions })
        }
    }
}

fn add_action_upto(
    alloc: Global,
    maps: &mut Maps,
    action: &Action,
    at: Instant,
) -> Result<(), AllocError>
    ensures { OnOk result (maps.new
        ≡ (if nat_le action.now.at at then fold with_file maps.old (files_of action.now) else maps.old)) }
{
    if action.at <= at {
        add_action(alloc, maps, action)?;
    }
    Ok(())
}

fn add_action(alloc: Global, maps: &mut Maps, action: &Action) -> Result<(), AllocError>
    ensures { OnOk result (maps.new ≡ fold with_file maps.old (files_of action.now)) }
{
    for stats in action.meta.partitions.as_slice() {
        add_partition(alloc, maps, action.at, stats)?;
    }
    Ok(())
}

fn add_partition(
    alloc: Global,
    maps: &mut Maps,
    at: Instant,
    stats: &PartitionStats,
) -> Result<(), AllocError>
    ensures { OnOk result (maps.new
        ≡ fold with_file maps.old (map (file_of at stats.now.partition) stats.now.stats)) }
{
    for stat in stats.stats.as_slice() {
        maps.add(alloc, written_file(at, &stats.partition, stat)?)?;
    }
    Ok(())
}

fn written_file(at: Instant, partition: &Partition, stat: &WriteStat) -> Result<FileAt, AllocError>
    ensures { IfOk result (λ file. file ≡ file_of at partition.now stat.now) }
{
    Ok(FileAt {
        partition: partition.clone()?,
        file: stat.file_id,
        at,
        size: stat.file_size_in_bytes,
    })
}
