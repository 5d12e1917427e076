// Cases, one to a line: the number of a refusal, 0 for none, then a space and the line it is about.
use input::Lines;
use refusals::BuildError;
use std::process::Abort;
use std::test::*;

// Each line of the cases is answered by its number.
pub(crate) fn answers<F>(rt: &impl Abort, cases: &[u8], mut answer: F) -> Result<(), Fail>
where
    F: FnMut(&[u8]) -> Result<(), BuildError>,
    requires { F.IsAlwaysCallable answer }
{
    for case in Lines::of(cases) {
        let [number, b' ', line @ ..] = case else {
            return Err(Fail::new("a case without its number"));
        };
        let given = match answer(line) {
            Ok(()) => 0,
            Err(BuildError::Refused(refusal)) => refusal.number(),
            Err(BuildError::NoMemory(error)) => return Err(Fail::from(error)),
        };
        assert_eq!(rt; b'0'.saturating_add(given), *number);
    }
    Ok(())
}
