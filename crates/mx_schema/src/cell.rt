ghost use Rattle.std.specs.Prelude.{◌≡◌};
ghost use Rattle.std.specs.Cmp.{IsTotalOrder};
ghost use Rattle.mx_schema.specs.Cells as cells;
ghost use Rattle.mx_schema.specs.Cells.{cell_order};

use mx_lists::{Same, Text};
use std::cmp::Ordering;

/// A cell of a row.
#[derive(Clone, Debug, Drop)]
pub enum Cell {
    Null,
    Flag(bool),
    Small(i32),
    Whole(i64),
    Text(Text),
}

impl Cell {
    /// The order of cells: nulls before truth values before numbers before texts, and within these false before true,
    /// by number, or by bytes.
    pub fn compare(&self, other: &Cell) -> Ordering
        ensures { result ≡ cell_order self.now other.now }
    {
        self.rank()
            .cmp(&other.rank())
            .then(self.number().cmp(&other.number()))
            .then(self.text().cmp(other.text()))
    }

    fn rank(&self) -> u8
        ensures { result ≡ cells.rank self.now }
    {
        match self {
            Cell::Null => 0,
            Cell::Flag(_) => 1,
            Cell::Small(_) | Cell::Whole(_) => 2,
            Cell::Text(_) => 3,
        }
    }

    fn number(&self) -> i64
        ensures { result ≡ cells.number self.now }
    {
        match self {
            Cell::Flag(true) => 1,
            Cell::Small(number) => i64::from(*number),
            Cell::Whole(number) => *number,
            Cell::Null | Cell::Flag(false) | Cell::Text(_) => 0,
        }
    }

    fn text(&self) -> &str
        ensures { result.now ≡ cells.bytes self.now }
    {
        match self {
            Cell::Text(text) => text.as_str(),
            _ => "",
        }
    }
}

impl Same for Cell {
    fn same(&self, other: &Cell) -> bool {
        match (self, other) {
            (Cell::Null, Cell::Null) => true,
            (Cell::Flag(a), Cell::Flag(b)) => a == b,
            (Cell::Small(a), Cell::Small(b)) => a == b,
            (Cell::Whole(a), Cell::Whole(b)) => a == b,
            (Cell::Text(a), Cell::Text(b)) => a.same(b),
            _ => false,
        }
    }
}

/// Of two cells either one stands before the other or they tie, and what stands before a third one stands before all
/// that follow it.
pub fn cells_are_ordered()
    ensures { IsTotalOrder cell_order }
{}
