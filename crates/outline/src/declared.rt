// What one line declares.
use crate::counts::Counts;
use lines::Record;

#[derive(Clone, Copy, Debug, PartialEq, Eq)]
pub struct Declared<'a> {
    pub record: Record<'a>,
    // what was declared before it
    pub before: Counts,
}
