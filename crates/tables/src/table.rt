//! A table of words, with a row for each state.
ghost use Rattle.std.specs.Prelude.{◌≡◌, ◌*◌, ◌/◌, ◌<◌, length};
ghost use Rattle.format.specs.Words.{words_in};

use format::{word_at, words_in};

/// The words of a table, row by row, and how many there are in a row.
#[derive(Clone, Copy, Debug, PartialEq, Eq)]
pub struct Table<'a> {
    words: &'a [[u8; 2]],
    columns: usize,
    ghost narrow: { columns < 65536 },
}

impl<'a> Table<'a> {
    ghost use Rattle.tables.specs.Cells.{cell_at, cells_of};

    /// The table in a part.
    pub fn new(part: &'a [u8], columns: usize) -> Table<'a>
        requires { columns < 65536 }
        ensures words { cells_of result ≡ words_in part.now (length part.now / 2) }
        ensures columns { result.columns ≡ columns }
    {
        Table {
            words: words_in(part),
            columns,
        }
    }

    /// The word in a row and a column, if there is one.
    pub fn get(&self, row: u16, column: u16) -> Option<u16>
        ensures { result ≡ cell_at self.now row column }
    {
        let (row, column) = (usize::from(row), usize::from(column));
        if column >= self.columns {
            return None;
        }
        word_at(self.words, row * self.columns + column)
    }
}
