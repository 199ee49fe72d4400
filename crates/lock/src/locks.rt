use layout::BoxRecord;
use seats::Seat;

// A box as its calls find it: its record, the store of its cells and the table of its seats, which the caller lends.
#[derive(Drop)]
pub struct Lock<'a, S> {
    pub record: &'a mut BoxRecord,
    pub store: &'a mut S,
    pub table: &'a mut [Seat],
}
