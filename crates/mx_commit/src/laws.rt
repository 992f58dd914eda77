ghost use Rattle.std.specs.Prelude.{List, ℕ};
ghost use Rattle.mx_ask.specs.declared.ask.FileRows.{FileRows};
ghost use Rattle.mx_schema.specs.declared.column.Column.{Column};
ghost use Rattle.mx_commit.specs.Made.{new_files};
ghost use Rattle.mx_commit.specs.Written.{AreApartFiles, asked_group, new_group};

/// Where no two files of an ask are of one group, no two of its data files are.
pub fn new_files_are_apart()
    ensures { (schema : List Column) (at : ℕ) (files : List FileRows) → AreApartFiles asked_group files → AreApartFiles new_group (new_files schema at files) }
{}
