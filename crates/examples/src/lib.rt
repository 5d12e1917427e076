// Worked examples: what the definitions give at chosen values, and that the code computes the same.
// So far of sums of a tag and a delay, and of circles of reactions; examples of bodies join them as hosts come.
#![tactic(auto)]

ghost use Rattle.std.specs.Prelude.{◌≡◌, ◌<◌, ◌≤◌, None};
ghost use Rattle.std.specs.Option.{option_map};
ghost use Rattle.tags.specs.Tags.{tag_at, moment_of, last_time, tag_plus};
ghost use Rattle.examples.specs.Worked.{WorkedExamples};

use tags::{HORIZON, Tag};

// The sums of the worked examples, as `tags` computes them.
#[derive(Clone, Copy)]
pub struct Sums {
    pub no_delay: Option<Tag>,
    pub some_delay: Option<Tag>,
    pub past_the_last_microstep: Option<Tag>,
    pub past_the_last_time: Option<Tag>,
}

fn sum(time: u64, microstep: u16, delay: u64) -> Option<Tag>
    ensures the_sum { time ≤ last_time → option_map moment_of result ≡ tag_plus (tag_at time microstep) delay }
    ensures none_from_beyond_the_horizon { last_time < time → result ≡ None }
{
    Tag::new(time, microstep)?.plus(delay)
}

#[tactic(auto, using(crate::proofs::Joinings::undelayed_circle, crate::proofs::Joinings::delayed_none))]
pub fn worked_examples() -> Sums
    ensures worked_examples { WorkedExamples }
    ensures no_delay { option_map moment_of result.no_delay ≡ tag_plus (tag_at 7 3) 0 }
    ensures some_delay { option_map moment_of result.some_delay ≡ tag_plus (tag_at 7 3) 5 }
    ensures past_the_last_microstep { option_map moment_of result.past_the_last_microstep ≡ tag_plus (tag_at 7 65535) 0 }
    ensures past_the_last_time { option_map moment_of result.past_the_last_time ≡ tag_plus (tag_at 1000000000000000000 0) 1 }
{
    Sums {
        no_delay: sum(7, 3, 0),
        some_delay: sum(7, 3, 5),
        past_the_last_microstep: sum(7, 65_535, 0),
        past_the_last_time: sum(HORIZON, 0, 1),
    }
}
