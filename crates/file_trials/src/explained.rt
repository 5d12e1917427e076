// What is said of a whole file, a line for each of its own, with its network beside it.
use draft::Draft;
use explanation::say_lines;
use refusals::BuildError;
use std::alloc::Global;
use std::fmt;

// What an input declares, shown line by line.
#[derive(Clone, Copy)]
pub(crate) struct Explained<'a> {
    pub(crate) input: &'a [u8],
    // where its network is kept meanwhile
    pub(crate) heap: Global,
}

impl fmt::Display for Explained<'_> {
    fn fmt<W: fmt::Write>(&self, f: &mut fmt::Formatter<W>) -> fmt::Result {
        let mut draft = Draft::new(self.heap);
        say_lines(f, self.input, |line| match draft.tell(line) {
            Ok(declared) => Ok(Ok(declared)),
            Err(BuildError::Refused(refusal)) => Ok(Err(refusal)),
            // a want of memory is an error of the text
            Err(BuildError::NoMemory(_)) => Err(fmt::Error),
        })
    }
}
