//! Inputs of the program `offsets`, and what it writes for each.
use offset_report::offsets::offsets;
use std::process::Abort;
use std::test::Fail;

fn writes(rt: &(impl Abort + AllocGlobal), input: &[u8], output: &[u8]) -> Result<(), Fail> {
    let written = offsets(rt.alloc(), input)?;
    assert_eq!(rt; written.as_slice(), output);
    Ok(())
}

/// Texts that are no table's, each with its refusal and line.
const NO_TABLES: [(&[u8], &[u8]); 11] = [
    (b"", b"refused=1 line=1 from=text\n"),
    (b"DEFINE COMP 2,#1,#1,10", b"refused=1 line=1 from=text\n"),
    (
        b"DEFINE COMP 2,#1,#1,010\n",
        b"refused=1 line=1 from=text\n",
    ),
    (
        b"DEFINE COMP 257,#1,#1,10\n",
        b"refused=2 line=1 from=text\n",
    ),
    (b"DEFINE COMP 2,#9,#1,10\n", b"refused=2 line=1 from=text\n"),
    (b"DEFINE COMP 2,#1,#1,10\n", b"refused=7 line=2 from=text\n"),
    (
        b"DEFINE COMP 2,#1,#1,10\n-0\n",
        b"refused=1 line=2 from=text\n",
    ),
    (
        b"DEFINE COMP 2,#1,#1,10\n1\n-32768\n",
        b"refused=2 line=3 from=text\n",
    ),
    (
        b"DEFINE COMP 2,#1,#1,10\n1\nCLOSE\n",
        b"refused=7 line=3 from=text\n",
    ),
    (
        b"DEFINE COMP 2,#1,#1,10\n1\n2\n99999\n",
        b"refused=6 line=4 from=text\n",
    ),
    (
        b"DEFINE COMP 1.1,#1,#1,#1,1,262145\n",
        b"refused=2 line=1 from=text\n",
    ),
];

#[test]
fn refuses_tables(rt: HostRuntime) -> Result<(), Fail> {
    for (text, refusal) in NO_TABLES {
        writes(&rt, text, refusal)?;
    }
    Ok(())
}

/// Readings that are refused, each of which leaves the next to be tried.
#[test]
fn refuses_readings(rt: HostRuntime) -> Result<(), Fail> {
    writes(
        &rt,
        b"DEFINE COMP 1,#1,#1,10\n3\nCLOSE\n16777216\n-5\n7\n8388615\n4294967296\n9 \n8",
        b"refused=5 line=4 axis=0 from=source\nrefused=1 line=5 from=text\nline=6 bare=0 offset=3\nrefused=8 line=7 axis=0 from=source\nrefused=2 line=8 from=text\nrefused=1 line=9 from=text\nrefused=1 line=10 from=text\n",
    )
}

/// A table that names an absent axis is reported at its last line, and ends the program.
#[test]
fn refuses_what_does_not_fit(rt: HostRuntime) -> Result<(), Fail> {
    writes(
        &rt,
        b"DEFINE COMP 1,#1,#2,10\n3\nCLOSE\nx\n7\n8\n",
        b"refused=1 line=4 from=text\nrefused=3 line=3 axis=1 from=sheet\n",
    )?;
    writes(
        &rt,
        b"DEFINE COMP 1.1,#1,#3,#2,10,10\n1\n2\n3\nCLOSE\n7\n",
        b"refused=3 line=5 axis=2 from=sheet\n",
    )
}

/// A screw of eight entries over 4,000 counts, and a plane that one axis reads both ways.
#[test]
fn knows_worked_examples(rt: HostRuntime) -> Result<(), Fail> {
    writes(
        &rt,
        b"DEFINE COMP 8,#1,#1,4000\n-160\n80\n120\n96\n20\n-56\n-12\n0\nCLOSE\n0\n1300\n16777215\n",
        b"line=11 bare=0 offset=0\nline=12 bare=20800 offset=104\nline=13 bare=-16 offset=0\n",
    )?;
    writes(
        &rt,
        b"DEFINE COMP 1.1,#1,#1,#1,2,2\n4\n8\n12\nCLOSE\n0\n1\n",
        b"line=6 bare=0 offset=0\nline=7 bare=16 offset=6\n",
    )
}
