ghost use Rattle.std.specs.Prelude.{◌≡◌, fold};
ghost use Rattle.std.specs.FinMap as finmap;
ghost use Rattle.mx_model.specs.Timeline.{actions_upto, newest};
ghost use Rattle.mx_files.specs.Files.{sizes_in, files_map};
ghost use Rattle.mx_model.specs.Maps.{with_file_in};

use crate::Action;
use mx_base::{FileAt, Partition};

/// The sizes of a partition come from the files of that partition alone, each in turn.
pub fn sizes_are_of_own_files(files: &[FileAt], partition: &Partition)
    ensures { sizes_in (files_map files.now) partition.now
        ≡ fold (with_file_in partition.now) finmap.empty files.now }
{}

/// At the newest instant every action counts.
pub fn all_count_at_newest(actions: &[Action])
    ensures { actions_upto actions.now (newest actions.now) ≡ actions.now }
{}
