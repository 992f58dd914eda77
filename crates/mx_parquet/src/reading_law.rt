ghost use Rattle.std.specs.Prelude.{◌≡◌, ◌≤◌, ◌<◌, ◌^◌, ◌↔◌, ℕ, Bool, List, Ok, length, map};
ghost use Rattle.std.specs.List.{AllByRecursion};
ghost use Rattle.std.specs.Str.{IsUtf8};
ghost use Rattle.mx_schema.specs.declared.cell.Cell.{Cell};
ghost use Rattle.mx_schema.specs.declared.column.Column.{Column};
ghost use Rattle.mx_schema.specs.declared.column.ColumnKind.{ColumnKind};
ghost use Rattle.mx_parquet.specs.declared.row.FullRow.{FullRow as Row};
ghost use Rattle.mx_parquet.specs.declared.layout.Layout.{Layout as AnyLayout};
ghost use Rattle.mx_parquet.specs.Shape.{Struct};
ghost use Rattle.mx_schema.specs.Columns.{IsSchema};
ghost use Rattle.mx_parquet.specs.declared.header.PageSize.{PageSize as AnySize};
ghost use Rattle.mx_parquet.specs.Headers.{header_in};
ghost use Rattle.mx_parquet.specs.Opening.{file_layout};
ghost use Rattle.mx_parquet.specs.Decoding.{IsElement, IsFooter, IsFullRow, IsPageHeader, Decodes};
ghost use Rattle.mx_parquet.specs.Held.{IsBytes, IsLaidOut};
ghost use Rattle.mx_parquet.specs.Footer.{element_in, layout_in};
ghost use Rattle.mx_parquet.specs.Values.{cells_in};
ghost use Rattle.mx_parquet.specs.Chunks.{fitted, AreCells};

/// What is read of an element is the column that it is an element of.
pub(crate) fn elements_are_read_as_their_columns()
    ensures { (column : Column) (fields : Struct) → IsUtf8 column.name → (element_in fields ≡ Ok column) ↔ IsElement column fields }
{}

/// A struct is a footer of a schema and rows where the chunks that are read of it hold the rows; and of each such
/// footer they are read.
pub(crate) fn footers_are_read_as_their_layouts()
    ensures says { (file : List ℕ) (fields : Struct) (layout : AnyLayout) (schema : List Column) (rows : List Row)
        → layout_in (length file) fields ≡ Ok layout → IsLaidOut file layout schema rows → IsFooter file fields schema rows }
    ensures reads { (file : List ℕ) (fields : Struct) (schema : List Column) (rows : List Row)
        → IsSchema schema → length rows ≤ 16_384 → IsFooter file fields schema rows
        → (layout : AnyLayout) × (layout_in (length file) fields ≡ Ok layout) × IsLaidOut file layout schema rows }
{}

/// A file stands for a schema and rows where the chunks that its footer names hold the rows; and of each such file they
/// are found so.
pub(crate) fn files_are_read_as_their_layouts()
    ensures says { (file : List ℕ) (layout : AnyLayout) (schema : List Column) (rows : List Row) → IsBytes file
        → file_layout file ≡ Ok layout → IsLaidOut file layout schema rows → IsSchema schema → AllByRecursion (IsFullRow schema) rows
        → Decodes file schema rows }
    ensures reads { (file : List ℕ) (schema : List Column) (rows : List Row) → Decodes file schema rows
        → (layout : AnyLayout) × (file_layout file ≡ Ok layout) × IsLaidOut file layout schema rows }
{}

/// What is read of the header of a page is how many values and bytes it says.
pub(crate) fn headers_are_read_as_they_say()
    ensures { (fields : Struct) (page : AnySize) → (header_in fields ≡ Ok page) ↔ IsPageHeader fields page.value_count page.size }
{}

/// What is read of the values of a page are cells that stand there; and cells that stand there are read.
pub(crate) fn values_are_read_as_their_cells()
    ensures says { (kind : ColumnKind) (levels : List Bool) (bytes : List ℕ) (held : List Cell) → IsBytes bytes
        → cells_in kind levels bytes ≡ Ok held → AreCells kind levels bytes held }
    ensures reads { (kind : ColumnKind) (levels : List Bool) (bytes : List ℕ) (held : List Cell) → length bytes < 2 ^ 32
        → AreCells kind levels bytes held → cells_in kind levels bytes ≡ Ok (map fitted held) }
{}
