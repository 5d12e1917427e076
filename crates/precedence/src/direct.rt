// Whether one reaction directly precedes another.
ghost use Rattle.std.specs.Prelude.{◌≡◌, ◌<◌, [], map, length, vec_items, slice_index_or};
ghost use Rattle.std.specs.List.{list_any};
ghost use Rattle.precedence.specs.Tests.{earlier, fed, is_input, reached, sets};

use lines::{ConnectionKind, TriggerKind};
use network::{Connection, Reaction, Target, TargetKind, Trigger};
use rows::group_at;

// Whether one of these targets is an output.
fn has_output(targets: &[Target], output: usize) -> bool
    ensures { result ≡ list_any (sets output) targets.now }
{
    targets.iter().any(|target| target.kind == TargetKind::Output && target.number == output)
}

// Whether one of these connections joins an output among these targets undelayed.
fn is_fed(targets: &[Target], joinings: &[Connection]) -> bool
    ensures { result ≡ fed targets.now joinings.now }
{
    joinings.iter().any(|joining| {
        joining.kind == ConnectionKind::Undelayed && has_output(targets, joining.output)
    })
}

fn is_input(kind: TriggerKind) -> bool
    ensures { result ≡ is_input kind }
{
    matches!(kind, TriggerKind::Input | TriggerKind::ReadInput)
}

// Whether one of these readings is of an input that an output among these targets feeds.
pub(crate) fn reaches(
    targets: &[Target],
    joinings: &[Vec<Connection>],
    readings: &[Trigger],
) -> bool
    ensures { result ≡ reached targets.now (map vec_items joinings.now) readings.now }
{
    readings.iter().any(|reading| {
        is_input(reading.kind) && is_fed(targets, group_at(joinings, reading.source))
    })
}

// Whether one reaction is the earlier of two of one reactor.
pub(crate) fn is_earlier(reactions: &[Reaction], a: usize, b: usize) -> bool
    requires { b < length reactions.now }
    ensures { result ≡ earlier (map (λ x. x.reactor) reactions.now) a b }
{
    a < b && reactions[a].reactor == reactions[b].reactor
}
