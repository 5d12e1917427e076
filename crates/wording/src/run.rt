// What a line of a run says, in words.
use lines::Record;
use std::fmt;

pub(crate) fn say<W: fmt::Write>(f: &mut fmt::Formatter<W>, record: Record<'_>) -> fmt::Result {
    match record {
        Record::Start {
            capacity,
            picker,
            queue,
        } => {
            write!(f, "start: room for {} events, ", capacity.value)?;
            write!(f, "{} picker, {} queue", picker.value, queue.value)
        }
        Record::Offer {
            action,
            arrival,
            value,
        } => {
            write!(f, "offer: action {} at {} ", action.value, arrival.value)?;
            write!(f, "with value {}", value.value)
        }
        Record::Advance { reading, tags } => {
            write!(f, "advance: reading {}, ", reading.value)?;
            write!(f, "at most {} tags", tags.value)
        }
        _ => Ok(()),
    }
}
