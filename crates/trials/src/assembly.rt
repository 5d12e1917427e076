// Lines of a network and the number of the refusal of each, 0 where it is accepted.
use crate::cases::answers;
use network::Assembly;
use std::process::Abort;
use std::test::*;

// The same line so many times, each accepted, and then refused.
fn fills(
    rt: &impl Abort,
    assembly: &mut Assembly,
    line: &[u8],
    times: u64,
    refused: &[u8],
) -> Result<(), Fail> {
    for _ in 0..times {
        assembly.add(line)?;
    }
    answers(rt, refused, |line| assembly.add(line))
}

#[test]
fn names_and_owners(rt: HostRuntime) -> Result<(), Fail> {
    let mut assembly = Assembly::new(rt.alloc());
    let cases = b"\
        4 IP 0\n\
        4 RX 0 0\n\
        0 RE\n\
        0 RE\n\
        4 IP 2\n\
        4 TI 2 0 0\n\
        4 IP 9999999999999999999\n\
        0 IP 0\n\
        0 IP 1\n\
        0 OP 0\n\
        0 OP 1\n\
        0 TI 0 0 0\n\
        0 AC 0 0 0\n\
        0 AC 0 1 0\n\
        0 AC 1 0 0\n\
        0 RX 0 255\n\
        4 TR 1 0 0\n\
        4 TR 0 0 2\n\
        4 TR 0 1 1\n\
        4 TR 0 2 3\n\
        5 TR 0 0 1\n\
        5 TR 0 2 2\n\
        0 TR 0 0 0\n\
        6 TR 0 0 0\n\
        0 TR 0 3 0\n\
        6 TR 0 3 0\n\
        0 TR 0 1 0\n\
        0 TR 0 2 1\n\
        4 WR 1 0\n\
        4 WR 0 2\n\
        5 WR 0 1\n\
        0 WR 0 0\n\
        6 WR 0 0\n\
        4 SC 0 3\n\
        5 SC 0 2\n\
        5 SC 0 1\n\
        0 SC 0 0\n\
        6 SC 0 0\n\
        4 CN 2 0 0 0\n\
        4 CN 0 2 0 0\n\
        3 CN 9 9 0 1\n\
        0 CN 0 0 0 0\n\
        6 CN 1 0 1 5\n\
        0 CN 0 1 1 5\n\
        0 EN 5\n\
        6 EN 5\n\
        3 EN 1000000000000000001\n\
        1 BO\n\
        1 GO 4 0 0\n\
        2 RE 0\n\
        ";
    answers(&rt, cases, |line| assembly.add(line))
}

#[test]
fn tables_fill(rt: HostRuntime) -> Result<(), Fail> {
    let mut assembly = Assembly::new(rt.alloc());
    fills(&rt, &mut assembly, b"RE\n", 16, b"7 RE\n")?;
    fills(&rt, &mut assembly, b"IP 15\n", 64, b"7 IP 15\n4 IP 16\n")?;
    fills(&rt, &mut assembly, b"OP 0\n", 64, b"7 OP 0\n")?;
    fills(&rt, &mut assembly, b"TI 0 0 1\n", 16, b"7 TI 0 0 1\n")?;
    fills(&rt, &mut assembly, b"AC 0 0 1\n", 32, b"7 AC 0 0 1\n")?;
    fills(&rt, &mut assembly, b"RX 0 1\n", 64, b"7 RX 0 1\n")
}

#[test]
fn eight_of_a_reaction(rt: HostRuntime) -> Result<(), Fail> {
    let mut assembly = Assembly::new(rt.alloc());
    fills(&rt, &mut assembly, b"RE\n", 1, b"")?;
    fills(&rt, &mut assembly, b"IP 0\n", 9, b"")?;
    fills(&rt, &mut assembly, b"OP 0\n", 9, b"")?;
    fills(&rt, &mut assembly, b"AC 0 0 0\n", 2, b"")?;
    fills(&rt, &mut assembly, b"RX 0 0\n", 2, b"")?;
    let cases = b"\
        0 TR 0 0 0\n\
        0 TR 0 0 1\n\
        0 TR 0 0 2\n\
        0 TR 0 0 3\n\
        0 TR 0 3 3\n\
        0 TR 0 3 4\n\
        0 TR 0 3 5\n\
        0 TR 0 2 0\n\
        7 TR 0 2 1\n\
        6 TR 0 2 0\n\
        0 TR 1 2 1\n\
        0 WR 0 0\n\
        0 WR 0 1\n\
        0 WR 0 2\n\
        0 WR 0 3\n\
        0 WR 0 4\n\
        0 WR 0 5\n\
        0 SC 0 0\n\
        0 WR 0 6\n\
        7 WR 0 7\n\
        7 SC 0 1\n\
        6 SC 0 0\n\
        0 SC 1 1\n\
        ";
    answers(&rt, cases, |line| assembly.add(line))
}
