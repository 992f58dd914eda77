ghost use Rattle.std.specs.Prelude.{◌≤◌, List, length};
ghost use Rattle.std.specs.List.{AllByRecursion};
ghost use Rattle.mx_schema.specs.declared.column.Column.{Column};
ghost use Rattle.mx_schema.specs.Columns.{IsSchema};
ghost use Rattle.mx_parquet.specs.declared.row.FullRow.{FullRow as Row};
ghost use Rattle.mx_parquet.specs.Encoding.{encoding};
ghost use Rattle.mx_parquet.specs.Fits.{FitsRow, HasTexts};
ghost use Rattle.mx_parquet.specs.Decoding.{Decodes};

/// The file that is written of rows stands for its schema and its rows.
pub fn a_written_file_holds_its_rows()
    ensures { (schema : List Column) (rows : List Row) → IsSchema schema → AllByRecursion (FitsRow schema) rows
        → AllByRecursion HasTexts rows → length rows ≤ 16_384 → length (encoding schema rows) ≤ 4_194_304
        → Decodes (encoding schema rows) schema rows }
{}
