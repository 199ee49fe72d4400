ghost use Rattle.std.specs.Prelude.{◌≤◌};

use crate::ways::Ways;

// The box record: how many ways each gate has, and the number that the next passage gets.
#[derive(Drop)]
pub struct BoxRecord {
    pub(crate) ways: Ways,
    pub(crate) next: u16,
    ghost first: { 1 ≤ next },
    ghost last: { next ≤ 16384 },
}
