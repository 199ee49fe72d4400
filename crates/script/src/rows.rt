ghost use Rattle.std.specs.Prelude.{◌≡◌, ◌+◌, ◌≤◌, length};

use crate::words::{first_row, from_place};

// A row of a text.
#[derive(Clone, Copy)]
pub(crate) struct Row<'a> {
    // its number, from 1 on
    pub(crate) number: usize,
    // where in the text it begins
    pub(crate) start: usize,
    pub(crate) line: &'a [u8],
}

// The rows of a text that are left. A line feed ends a row.
#[derive(Drop)]
pub(crate) struct Rows<'a> {
    text: &'a [u8],
    // of the next row
    number: usize,
    start: usize,
    ghost counted: { number ≤ start + 1 },
    ghost within: { start ≤ length text.now + 1 },
}

impl<'a> Rows<'a> {
    ghost use Rattle.script.specs.Rows.{placed, rows_left, rows_of};

    // All rows of a text.
    pub(crate) fn of(text: &'a [u8]) -> Rows<'a>
        ensures { rows_left result ≡ placed 1 0 (rows_of text.now) }
    {
        Rows {
            text,
            number: 1,
            start: 0,
        }
    }
}

impl<'a> Iterator for Rows<'a> {
    ghost use Rattle.std.specs.Iterator.{YieldsFirstBy, item_count};
    ghost use Rattle.script.specs.Rows.{placed_of, rows_left};

    type Item = Row<'a>;

    ghost next_gives = { YieldsFirstBy placed_of rows_left };

    ghost remaining = { item_count rows_left };

    #[tactic(auto, using(crate::proofs::RowLaws::rows_next))]
    fn next(&mut self) -> Option<Row<'a>> {
        match from_place(self.text, self.start) {
            [] => None,
            rest => {
                let row = Row {
                    number: self.number,
                    start: self.start,
                    line: first_row(rest),
                };
                self.number += 1;
                self.start += row.line.len() + 1;
                Some(row)
            }
        }
    }
}
