//! Devices that fail as planned, and whole texts through them.

ghost use Rattle.std.specs.Prelude.{◌≤◌};

use aioc_io::{
    MemSink, MemSource, ReadAllFault, Source, StdSink, StdSource, SureSink, SureSource, read_all,
    write_all,
};
use std::alloc::{AllocError, Global};
use std::test::Fail;

const LINES: &[u8] = b"put a -> b hi#0.0 = 1\ntake a -> b hi#0.0 x\nended 2\n";

// What comes before the third call of ten bytes.
const FRONT: &[u8] = b"put a -> b hi#0.0 = ";

// Whether reading the lines from a source that gives at most `most` bytes a call, with these calls
// failing, ends with this fault, or with the lines where it is none.
fn ends_so(
    alloc: Global,
    most: usize,
    fails: &[u64],
    limit: usize,
    fault: Option<ReadAllFault>,
) -> Result<bool, AllocError>
    requires { 1 ≤ most }
{
    let mut source = MemSource::new(LINES.to_vec(alloc)?, most, fails.to_vec(alloc)?);
    Ok(match read_all(alloc, &mut source, limit) {
        Ok(bytes) => fault.is_none() && bytes.as_slice() == LINES,
        Err(found) => fault == Some(found),
    })
}

// Whether each read in such pieces ends as it must.
fn ends_as_told(alloc: Global, most: usize) -> Result<bool, AllocError>
    requires { 1 ≤ most }
{
    let limit = LINES.len();
    Ok(
        ends_so(alloc, most, &[], limit, None)?
            && ends_so(alloc, most, &[], limit - 1, Some(ReadAllFault::TooLong))?
            && ends_so(alloc, most, &[1], limit, Some(ReadAllFault::Fault))?
            && ends_so(alloc, most, &[2], limit, Some(ReadAllFault::Fault))?,
    )
}

#[test]
fn reads_all_or_says_why_not(rt: HostRuntime) -> Result<(), Fail> {
    for most in [1, 7, 5000] {
        let told = ends_as_told(rt.alloc(), most)?;
        assert!(rt; told);
    }
    Ok(())
}

// Whether the third call of ten bytes fails, and the rest goes through behind it.
fn takes_a_part_and_the_rest(sink: &mut MemSink) -> bool {
    write_all(sink, LINES).is_err()
        && sink.taken() == FRONT
        && write_all(sink, &LINES[20..]).is_ok()
        && sink.taken() == LINES
}

#[test]
fn writes_all_or_a_part(rt: HostRuntime) -> Result<(), Fail> {
    let alloc = rt.alloc();
    let mut sink = MemSink::new(alloc, 10, [3].to_vec(alloc)?);
    let told = takes_a_part_and_the_rest(&mut sink);
    assert!(rt; told);
    Ok(())
}

// Whether a source gives the lines, and a sink that never fails takes them.
fn passes_lines<S: Source>(alloc: Global, source: &mut S) -> Result<bool, ReadAllFault> {
    let bytes = read_all(alloc, source, LINES.len())?;
    Ok(bytes.as_slice() == LINES && write_all(&mut SureSink::new(), &bytes).is_ok())
}

#[test]
fn sure_devices_never_fail(rt: HostRuntime) -> Result<(), Fail> {
    let alloc = rt.alloc();
    let mut source = SureSource::new(LINES.to_vec(alloc)?);
    let told = passes_lines(alloc, &mut source)?;
    assert!(rt; told);
    Ok(())
}

#[test]
fn reads_from_a_reader(rt: HostRuntime) -> Result<(), Fail> {
    let mut source = StdSource::new(LINES);
    let told = passes_lines(rt.alloc(), &mut source)?;
    assert!(rt; told);
    Ok(())
}

// Whether a vector takes the lines.
fn takes_all(alloc: Global) -> bool {
    let mut bytes = Vec::new(alloc);
    let is_whole = write_all(&mut StdSink::new(&mut bytes), LINES).is_ok();
    is_whole && bytes.as_slice() == LINES
}

// Whether a slice takes what it has room for, and then nothing.
fn takes_what_fits() -> bool {
    let mut room = [0u8; 20];
    let is_full = write_all(&mut StdSink::new(&mut room[..]), LINES).is_err();
    is_full && room.as_slice() == FRONT
}

#[test]
fn writes_to_a_writer(rt: HostRuntime) -> Result<(), Fail> {
    assert!(rt; takes_all(rt.alloc()));
    assert!(rt; takes_what_fits());
    Ok(())
}
