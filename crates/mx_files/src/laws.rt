ghost use Rattle.std.specs.Prelude.{◌≡◌, ◌++◌, List, ℕ};
ghost use Rattle.std.specs.Option.{option_to_list};
ghost use Rattle.mx_base.specs.declared.entry.FileAt.{FileAt};
ghost use Rattle.mx_merge.specs.Shown.{shown};
ghost use Rattle.mx_files.specs.Files.{FilesMap, expected_on};
ghost use Rattle.mx_files.specs.Delta.{delta_on, AreOf, files_after};

/// Where the index shows what the table before is to show, with the delta of an action it shows what the table after is.
pub fn a_delta_makes_the_index_of_the_table_after()
    ensures { (files : FilesMap) (news gone : List FileAt) → AreOf files gone → (key : List ℕ)
        → shown (option_to_list (expected_on key files) ++ option_to_list (delta_on key news gone)) ≡ expected_on key (files_after files news gone) }
{}
