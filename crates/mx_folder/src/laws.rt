ghost use Rattle.std.specs.Prelude.{◌≡◌, List, ℕ, Some, IsSome, false};
ghost use Rattle.std.specs.List.{flat_map};
ghost use Rattle.mx_base.specs.Objects.{IsObjectName, object_path};
ghost use Rattle.mx_base.specs.declared.object_name.ObjectName.{ObjectName};
ghost use Rattle.mx_schema.specs.Columns.{IsSchema};
ghost use Rattle.mx_schema.specs.declared.column.Column.{Column};
ghost use Rattle.mx_store.specs.Objects.{Objects, at_path, objects_of};
ghost use Rattle.mx_folder.specs.Begin.{init_changes};
ghost use Rattle.mx_folder.specs.Named.{commit_name, is_hidden};
ghost use Rattle.mx_folder.specs.Actions.{IsCompleted, action_at, actions_upto};
ghost use Rattle.mx_folder.specs.Slices.{entries_at, logged_entries};
ghost use Rattle.mx_folder.specs.Completed.{completed_upto};
ghost use Rattle.mx_folder.specs.Files.{Lists};
ghost use Rattle.mx_folder.specs.Folder.{IsValidTable};
ghost use Rattle.mx_folder.specs.Reading.{IsDataFileOf};
ghost use Rattle.mx_folder.specs.Steps.{DifferAt, IsLoose, MayStand, IsMadeBefore, MayComplete};

/// A change at a path on which nothing that counts rests keeps a table, whether an object is made there or taken away.
pub fn loose_changes_keep_a_table()
    ensures { (old new : Objects) (path : List ℕ) → DifferAt path old new → IsLoose old path → IsValidTable old → MayStand old new path → IsValidTable new }
{}

/// Nothing that counts rests on the objects of a commit that is not completed.
pub fn a_pending_commit_is_loose()
    ensures { (objects : Objects) (at : ℕ) (name : ObjectName) → IsObjectName name → IsMadeBefore at name → ¬ (IsCompleted objects at) → IsLoose objects (object_path name) }
{}

/// Nothing that counts rests on what stands outside `.hoodie/` and no commit lists.
pub fn what_is_not_listed_is_loose()
    ensures { (objects : Objects) (path : List ℕ) → is_hidden path ≡ false → ¬ (Lists objects path) → IsLoose objects path }
{}

/// Nothing that counts rests on a data file of a commit that is not completed.
pub fn a_pending_file_is_loose()
    ensures { (objects : Objects) (at : ℕ) (path : List ℕ) → IsDataFileOf at path → ¬ (IsCompleted objects at) → IsLoose objects path }
{}

/// The create that completes a commit keeps a table, where the commit may be completed by it.
pub fn a_completion_keeps_a_table()
    ensures { (old new : Objects) (at : ℕ) (bytes : List ℕ) → MayComplete old at bytes → at_path new (object_path (commit_name at)) ≡ Some bytes → DifferAt (object_path (commit_name at)) old new → IsValidTable old → IsValidTable new }
{}

/// The changes that make a new table leave a table, of which no commit is completed.
pub fn a_new_table_is_valid()
    ensures valid { (schema : List Column) → IsSchema schema → IsValidTable (objects_of (init_changes schema)) }
    ensures fresh { (schema : List Column) (at : ℕ) → ¬ (IsCompleted (objects_of (init_changes schema)) at) }
{}

/// The logs of the completed commits up to an instant are those of the commits that count, where each completed commit reads.
pub fn completed_commits_count()
    ensures { (objects : Objects) → ((at : ℕ) → IsCompleted objects at → IsSome (action_at objects at)) → (at : ℕ) → flat_map (entries_at objects) (completed_upto objects at) ≡ logged_entries objects (actions_upto objects at) }
{}
