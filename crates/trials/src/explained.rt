// Inputs and what is said of each, a test for each sort of line, named by what it shows: one test over all would not say
// which failed.
use explanation::Explanation;
use std::alloc::Global;
use std::fmt::Write;
use std::process::Abort;
use std::test::*;

const UNKNOWN: &str = "refused 1: no mark that may come here";

const MALFORMED: &str = "refused 2: malformed, or an instruction or row before its body";

const OUT_OF_RANGE: &str = "refused 3: a field is outside its range";

// The input is explained by these lines, each after its number.
fn explains(rt: &impl Abort, alloc: Global, input: &[u8], lines: &[&str]) -> Result<(), Fail> {
    let mut expected = String::new(alloc);
    for (i, line) in lines.iter().enumerate() {
        writeln!(expected, "{}: {line}", i + 1)?;
    }
    let explanation = Explanation { input };
    let text = format!(in alloc; "{explanation}")?;
    assert_eq!(rt; text.as_str(), expected.as_str());
    Ok(())
}

#[test]
fn short_lines(rt: HostRuntime) -> Result<(), Fail> {
    explains(&rt, rt.alloc(), b"", &[])?;
    explains(&rt, rt.alloc(), b"\nR\nRE", &[UNKNOWN, UNKNOWN, MALFORMED])?;
    explains(
        &rt,
        rt.alloc(),
        b"RE\n\nR",
        &["reactor 0", UNKNOWN, UNKNOWN],
    )
}

#[test]
fn spaces(rt: HostRuntime) -> Result<(), Fail> {
    explains(
        &rt,
        rt.alloc(),
        b"IP  0\nIP 0 \n IP 0\nIP 0\nRE \n",
        &[
            MALFORMED,
            MALFORMED,
            UNKNOWN,
            "input 0 of reactor 0",
            MALFORMED,
        ],
    )
}

#[test]
fn number_texts(rt: HostRuntime) -> Result<(), Fail> {
    explains(
        &rt,
        rt.alloc(),
        b"IP 00\nIP -1\nIP 12345678901234567890\nIP 9999999999999999999\nEN 1000000000000000001\n",
        &[
            MALFORMED,
            MALFORMED,
            MALFORMED,
            "input 0 of reactor 9999999999999999999",
            OUT_OF_RANGE,
        ],
    )?;
    explains(
        &rt,
        rt.alloc(),
        b"BO\nIS 1 0 0 -0\nIS 1 0 0 -2147483648\nIS 1 0 0 2147483648\n",
        &[
            "bytecode body 0",
            MALFORMED,
            "instruction 0 of body 0: put -2147483648 in word 0",
            OUT_OF_RANGE,
        ],
    )
}

#[test]
fn other_bytes(rt: HostRuntime) -> Result<(), Fail> {
    explains(
        &rt,
        rt.alloc(),
        b"RE\0\nIP 0\0\n\0\nRE\r\nIP 1\r\nRE\n",
        &[
            MALFORMED,
            MALFORMED,
            UNKNOWN,
            MALFORMED,
            MALFORMED,
            "reactor 0",
        ],
    )
}

#[test]
fn longest_input(rt: HostRuntime) -> Result<(), Fail> {
    let mut input = vec![in rt.alloc(); b'x'; 65_536]?;
    explains(&rt, rt.alloc(), input.as_slice(), &[UNKNOWN])?;
    input.push(b'\n')?;
    let explanation = Explanation {
        input: input.as_slice(),
    };
    let text = format!(in rt.alloc(); "{explanation}")?;
    assert_eq!(rt; text.as_str(), "the input is longer than 65536 bytes\n");
    Ok(())
}

#[test]
fn orphans(rt: HostRuntime) -> Result<(), Fail> {
    explains(
        &rt,
        rt.alloc(),
        b"IS 0 0 0 0\nIS 99 0 0 0\nBO\nIS 99 0 0 0\nIS 0 0 0 0\n",
        &[
            MALFORMED,
            MALFORMED,
            "bytecode body 0",
            OUT_OF_RANGE,
            "instruction 0 of body 0: end",
        ],
    )?;
    explains(
        &rt,
        rt.alloc(),
        b"BO\nRW 0 0 0 0 0\nRW 0 3 0 0 0\nBT\nRW 0 3 0 0 0\n",
        &[
            "bytecode body 0",
            MALFORMED,
            MALFORMED,
            "table body 0",
            OUT_OF_RANGE,
        ],
    )
}

#[test]
fn bodies_begin_anew(rt: HostRuntime) -> Result<(), Fail> {
    explains(
        &rt,
        rt.alloc(),
        b"BO\nIS 3 1 2 0\nBT\nIS 6 1 0 32\nBO\nIS 0 0 0 0\n",
        &[
            "bytecode body 0",
            "instruction 0 of body 0: take word 2 from word 1",
            "table body 0",
            "instruction 1 of body 0: go to 32 if word 1 is 0",
            "bytecode body 1",
            "instruction 0 of body 1: end",
        ],
    )
}

#[test]
fn run_after_start(rt: HostRuntime) -> Result<(), Fail> {
    explains(
        &rt,
        rt.alloc(),
        b"OF 0 5 7\nGO 4 1\nGO 4 1 1\nRE\nIS 0 0 0 0\nOF 0 5 7\nAD 15 10\nGO 4 0 0\n",
        &[
            UNKNOWN,
            MALFORMED,
            "start: room for 4 events, turn picker, list queue",
            UNKNOWN,
            UNKNOWN,
            "offer: action 0 at 5 with value 7",
            "advance: reading 15, at most 10 tags",
            UNKNOWN,
        ],
    )
}
