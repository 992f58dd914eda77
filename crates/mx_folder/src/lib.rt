//! When a folder is a table: which objects it has, what their bytes are, that its logs say what its commits list, and that
//! what they list is there.
//!
//! `specs/Folder.antt` says when a folder opens (`IsOpenable`: no path shows damage) and when it is a valid table
//! (`IsValidTable`). `specs/Reading.antt` has the kind of each object, `specs/Actions.antt` the commits that count,
//! `specs/Files.antt` the data files that they list, and what these hold. The laws say which changes of one object keep a
//! table (`specs/Steps.antt`). `specs/Pending.antt` has what a commit that was not
//! completed leaves (`Pending`), and the changes that take it away (`recovery_changes`).
//!
//! | call | contract |
//! |---|---|
//! | `commit_name`, `delta_name`, `log_name` | the names of the objects that a commit makes below `.hoodie/` |
//! | `loose_changes_keep_a_table` | a law: so does a change at a path on which nothing that counts rests |
//! | `a_pending_commit_is_loose`, `a_pending_file_is_loose`, `what_is_not_listed_is_loose` | laws: nothing that counts rests on these paths |
//! | `a_new_table_is_valid` | a law: the changes that make a new table (`specs/Begin.antt`) leave one without commits |
//! | `completed_commits_count` | a law: the logs of the completed commits (`specs/Completed.antt`) are those of the commits that count |
//! | `a_completion_keeps_a_table` | a law: so does the create that completes a commit, the newest one, whose logs stand and say the same |
#![tactic(auto)]

mod laws;
mod names;
mod pending;

pub use laws::{
    a_completion_keeps_a_table, a_new_table_is_valid, a_pending_commit_is_loose,
    a_pending_file_is_loose, completed_commits_count, loose_changes_keep_a_table,
    what_is_not_listed_is_loose,
};
pub use names::{commit_name, delta_name, log_name};
pub use pending::Pending;
