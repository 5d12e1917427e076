// A tag: a time, in nanoseconds since the start, and a microstep at that time.
ghost use Rattle.std.specs.Prelude.{◌≤◌};

use std::cmp::Ordering;

// The last time that a tag may have.
pub const HORIZON: u64 = 1_000_000_000_000_000_000;

// Ordered by time, then by microstep. Its bound is a ghost field and no model's invariant, so that whoever holds a tag has
// it with no call.
#[derive(Clone, Copy, Debug, PartialEq, Eq, PartialOrd, Ord, Hash)]
pub struct Tag {
    time: u64,
    microstep: u16,
    ghost within_the_horizon: { time ≤ 1000000000000000000 },
}

impl Tag {
    ghost use Rattle.std.specs.Prelude.{◌≡◌, ◌<◌, ◌↔◌, IsTrue, IsNone};
    ghost use Rattle.std.specs.Option.{option_map};
    ghost use Rattle.std.specs.declared.cmp.Ordering.TheVariants.{Less, Equal, Greater};
    ghost use Rattle.tags.specs.Tags.{moment_of, tag_at, last_time, last_microstep, within_horizon, tag_plus, BeyondHorizon, Before, TotalOrder, LaterThanItsStart};

    pub fn new(time: u64, microstep: u16) -> Option<Tag>
        ensures the_tag_of_that_time_and_microstep { option_map moment_of result ≡ within_horizon (tag_at time microstep) }
        ensures none_exactly_beyond_the_horizon { IsNone result ↔ (last_time < time) }
    {
        if time <= HORIZON {
            Some(Tag { time, microstep })
        } else {
            None
        }
    }

    pub fn time(&self) -> u64
        ensures the_time { result ≡ (moment_of self.now).time }
        ensures up_to_the_horizon { result ≤ last_time }
    {
        self.time
    }

    pub fn microstep(&self) -> u16
        ensures the_microstep { result ≡ (moment_of self.now).microstep }
        ensures up_to_the_last { result ≤ last_microstep }
    {
        self.microstep
    }

    // The tag that follows after the delay: at delay 0 the next microstep, else microstep 0 of the later time.
    pub fn plus(&self, delay: u64) -> Option<Tag>
        ensures the_sum_or_none { option_map moment_of result ≡ tag_plus (moment_of self.now) delay }
        ensures none_exactly_beyond_the_horizon { IsNone result ↔ BeyondHorizon (moment_of self.now) delay }
        ensures later_than_its_start { LaterThanItsStart }
    {
        if delay == 0 {
            Tag::new(self.time, self.microstep.checked_add(1)?)
        } else {
            Tag::new(self.time.checked_add(delay)?, 0)
        }
    }

    // These two stay beside the derived order: their contracts say what it is.
    pub fn compare(&self, other: &Tag) -> Ordering
        ensures less_exactly_when_before { (result ≡ Less) ↔ Before (moment_of self.now) (moment_of other.now) }
        ensures equal_exactly_when_the_same { (result ≡ Equal) ↔ (moment_of self.now ≡ moment_of other.now) }
        ensures greater_exactly_when_after { (result ≡ Greater) ↔ Before (moment_of other.now) (moment_of self.now) }
        ensures a_total_order { TotalOrder }
    {
        self.cmp(other)
    }

    pub fn is_before(&self, other: &Tag) -> bool
        ensures { IsTrue result ↔ Before (moment_of self.now) (moment_of other.now) }
    {
        self < other
    }
}
