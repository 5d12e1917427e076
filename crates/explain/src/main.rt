// Says in plain words what each line of a network file declares, or why it is refused.
#![tactic(auto)]

mod reading;

use explanation::Explanation;
use std::io;

fn main(rt: HostRuntime) -> io::Result<()> {
    let bytes = reading::read_input(&rt)?;
    let input = bytes.as_slice();
    print!(rt; "{}", Explanation { input })
}
