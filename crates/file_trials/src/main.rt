// Reads files, each ended by a line of two dashes, and prints all that is said and read of each.
#![tactic(auto)]

mod explained;
mod file;
mod reads;

use crate::explained::Explained;
use crate::file::Files;
use crate::reads::Reads;
use draft::assembled;
use std::io;
use std::io::Read;
use survey::{Order, Survey};

fn print_file(rt: &HostRuntime, input: &[u8]) -> io::Result<()> {
    let heap = rt.alloc();
    print!(rt; "{}", Explained { input, heap })?;
    let survey = Survey::of(heap, assembled(heap, input)?)?;
    print!(rt; "{survey}")?;
    if let Order::Levels(network) = &survey.order {
        print!(rt; "{}", Reads { network })?;
    }
    println!(rt; "--")
}

fn main(rt: HostRuntime) -> io::Result<()> {
    let mut input = Vec::new(rt.alloc());
    rt.stdin().take(65_536).read_to_end(&mut input)?;
    for file in Files::of(input.as_slice()) {
        print_file(&rt, file)?;
    }
    Ok(())
}
