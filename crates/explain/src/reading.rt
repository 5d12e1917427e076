// The bytes that a program is given.
use explanation::MOST_BYTES;
use std::io;
use std::io::Read;

// All of the standard input, or its front where that is longer than any good input.
pub(crate) fn read_input(rt: &HostRuntime) -> io::Result<Vec<u8>> {
    let mut input = Vec::new(rt.alloc());
    let limit = MOST_BYTES as u64 + 1;
    rt.stdin().take(limit).read_to_end(&mut input)?;
    Ok(input)
}
