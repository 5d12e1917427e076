// One file after another in an input.
ghost use Rattle.std.specs.Prelude.{◌<◌, length, IfSome};
ghost use Rattle.std.specs.Iterator.{at_most};

use input::Lines;

// The bytes before the first line of two dashes, and those after it. A loop with a sum: no iterator's method adds up what
// comes before the item that it finds.
fn first_file(input: &[u8]) -> Option<(&[u8], &[u8])>
    ensures { IfSome result (λ x. length x.1.now < length input.now) }
{
    let mut len = 0;
    for line in Lines::of(input) {
        if line == b"--\n".as_slice() {
            return Some((&input[..len], &input[len + line.len()..]));
        }
        len += line.len();
    }
    None
}

// The files of an input in turn, each ended by a line of two dashes. `Lines` is alike but promises which line comes; one
// iterator over both would promise neither.
#[derive(Clone, Copy, Debug)]
pub(crate) struct Files<'a> {
    left: &'a [u8],
}

impl<'a> Files<'a> {
    pub(crate) fn of(input: &'a [u8]) -> Files<'a> {
        Files { left: input }
    }
}

impl<'a> Iterator for Files<'a> {
    type Item = &'a [u8];

    ghost next_gives = { λ s r t. IfSome r (λ _. length t.left.now < length s.left.now) };

    ghost remaining = { λ s. at_most (length s.left.now) };

    fn next(&mut self) -> Option<&'a [u8]> {
        let (file, left) = first_file(self.left)?;
        self.left = left;
        Some(file)
    }
}
