// Lines and the number of the refusal of each, 0 where it is read. Each table is a test of its own, named by what it shows:
// one test over all of them would not say which failed.
use crate::cases::answers;
use lines::{Field, ReadingClass, Record, Section, read};
use std::process::Abort;
use std::test::*;

// Each case is the expected number, a space, and a line that may stand in the section.
fn reads(rt: &impl Abort, cases: &[u8], section: Section) -> Result<(), Fail> {
    answers(rt, cases, |line| {
        read(line, section)?;
        Ok(())
    })
}

#[test]
fn well_formed_lines(rt: HostRuntime) -> Result<(), Fail> {
    let cases = b"\
        0 RE\n\
        0 IP 0\n\
        0 OP 0\n\
        0 TI 0 0 10\n\
        0 TI 0 1000000000000000000 1000000000000000000\n\
        0 AC 0 1 5\n\
        0 CN 0 0 0 0\n\
        0 CN 0 0 1 7\n\
        0 RX 0 255\n\
        0 TR 0 3 0\n\
        0 WR 0 0\n\
        0 SC 0 0\n\
        0 EN 1000000000000000000\n\
        0 BO\n\
        0 IS 1 4 0 -2147483648\n\
        0 IS 1 0 0 2147483647\n\
        0 IS 4 0 0 7\n\
        0 IS 9 0 0 7\n\
        0 IS 6 0 0 1\n\
        0 IS 7 0 0 32\n\
        0 IS 0 0 0 33\n\
        0 BT\n\
        0 RW -1 2 5 7 2147483647\n\
        0 RW 0 0 0 0 -2147483648\n\
        0 GO 999 1 0\n\
        0 GO 9999999999999999999 0 1\n\
        0 IP 9999999999999999999\n\
        ";
    reads(&rt, cases, Section::Setup)
}

#[test]
fn unknown_marks(rt: HostRuntime) -> Result<(), Fail> {
    let cases = b"\
        1 \n\
        1 R\n\
        1  RE\n\
        1 re\n\
        1 RF\n\
        1 ER\n\
        1 OF 0 0 0\n\
        1 AD 0 0\n\
        1 \0\0\n\
        ";
    reads(&rt, cases, Section::Setup)
}

#[test]
fn malformed_lines(rt: HostRuntime) -> Result<(), Fail> {
    let cases = b"\
        2 RED\n\
        2 RE \n\
        2 RE\r\n\
        2 RE 0\n\
        2 IP\n\
        2 IP 0 0\n\
        2 IP  0\n\
        2 IP 0 \n\
        2 IP\t0\n\
        2 IP 00\n\
        2 IP 01\n\
        2 IP +1\n\
        2 IP -1\n\
        2 IP -0\n\
        2 IP -\n\
        2 IP 1a\n\
        2 IP a\n\
        2 IP \0\n\
        2 IP 0\0\n\
        2 IP 0/\n\
        2 IP :\n\
        2 IP 12345678901234567890\n\
        2 IP 10000000000000000000\n\
        2 TI 0 0\n\
        2 TI 0 0 0 0\n\
        2 TI 0 1000000000000000001 -1\n\
        2 IS 1 4 0 -0\n\
        2 IS 1 4 0 -01\n\
        2 IS 1 -4 0 0\n\
        2 IS 1 4 0 --1\n\
        2 RW 0 -1 0 0 0\n\
        2 GO -1 0 0\n\
        2 RE\
        ";
    reads(&rt, cases, Section::Setup)
}

#[test]
fn fields_out_of_range(rt: HostRuntime) -> Result<(), Fail> {
    let cases = b"\
        3 TI 0 1000000000000000001 0\n\
        3 TI 0 0 1000000000000000001\n\
        3 TI 0 0 9999999999999999999\n\
        3 AC 0 2 0\n\
        3 AC 0 0 1000000000000000001\n\
        3 CN 0 0 0 1\n\
        3 CN 0 0 2 0\n\
        3 CN 0 0 1 1000000000000000001\n\
        3 RX 0 256\n\
        3 TR 0 4 0\n\
        3 EN 1000000000000000001\n\
        3 IS 10 0 0 0\n\
        3 IS 0 8 0 0\n\
        3 IS 0 0 8 0\n\
        3 IS 1 0 0 2147483648\n\
        3 IS 1 0 0 -2147483649\n\
        3 IS 1 0 0 -9999999999999999999\n\
        3 IS 4 0 0 8\n\
        3 IS 4 0 0 -1\n\
        3 IS 5 0 0 8\n\
        3 IS 8 0 0 8\n\
        3 IS 9 0 0 8\n\
        3 IS 6 0 0 0\n\
        3 IS 6 0 0 33\n\
        3 IS 7 0 0 33\n\
        3 IS 7 0 0 -1\n\
        3 RW 2147483648 0 0 0 0\n\
        3 RW 0 3 0 0 0\n\
        3 RW 0 0 0 8 0\n\
        3 RW 0 0 -2147483649 0 0\n\
        3 RW 0 0 0 0 2147483648\n\
        3 GO 0 2 0\n\
        3 GO 0 0 2\n\
        ";
    reads(&rt, cases, Section::Setup)
}

#[test]
fn lines_of_a_run(rt: HostRuntime) -> Result<(), Fail> {
    let cases = b"\
        0 OF 0 5 -7\n\
        0 OF 9999999999999999999 1000000000000000000 0\n\
        3 OF 0 1000000000000000001 0\n\
        3 OF 0 0 2147483648\n\
        2 OF 0 -1 0\n\
        0 AD 15 10\n\
        0 AD 0 1000\n\
        3 AD 0 1001\n\
        3 AD 1000000000000000001 0\n\
        1 RE\n\
        1 GO 4 0 0\n\
        1 BO\n\
        2 OF\n\
        2 AD 0 0\
        ";
    reads(&rt, cases, Section::Run)
}

#[test]
fn network_section(rt: HostRuntime) -> Result<(), Fail> {
    let cases = b"\
        0 RE\n\
        0 EN 5\n\
        1 BO\n\
        1 BT\n\
        1 IS 0 0 0 0\n\
        1 GO 4 0 0\n\
        1 OF 0 0 0\n\
        ";
    reads(&rt, cases, Section::Network)
}

#[test]
fn bytecode_section(rt: HostRuntime) -> Result<(), Fail> {
    let cases = b"\
        0 BO\n\
        0 IS 0 0 0 0\n\
        1 BT\n\
        1 RE\n\
        ";
    reads(&rt, cases, Section::Bytecode)
}

#[test]
fn table_section(rt: HostRuntime) -> Result<(), Fail> {
    let cases = b"\
        0 BT\n\
        0 RW 0 0 0 0 0\n\
        1 BO\n\
        1 RE\n\
        ";
    reads(&rt, cases, Section::Table)
}

fn field<T>(text: &[u8], place: usize, value: T) -> Field<'_, T> {
    Field { text, place, value }
}

#[test]
fn fields_and_their_places(rt: HostRuntime) -> Result<(), Fail> {
    let line = b"RW -12 1 345 0 -6\n";
    let Ok(
        Record::Row {
            state,
            class,
            next,
            target,
            value,
        },
    ) = read(line, Section::Table)
    else {
        return Err(Fail::new("no row"));
    };
    assert_eq!(rt; state, field(b"-12", 3, -12));
    assert_eq!(rt; class, field(b"1", 7, ReadingClass::AtMostZero));
    assert_eq!(rt; next, field(b"345", 9, 345));
    assert_eq!(rt; target, field(b"0", 13, 0));
    assert_eq!(rt; value, field(b"-6", 15, -6));
    Ok(())
}
