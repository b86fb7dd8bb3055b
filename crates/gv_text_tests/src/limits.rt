//! Scripts that meet the limits.
use crate::devices::WHOLE;
use crate::told::{Way, expect, times, told};
use std::alloc::{AllocError, Global};
use std::fmt::Write;
use std::process::Abort;

/// Runs a script, and asserts how its replies end.
fn expect_end(rt: &(impl Abort + AllocGlobal), script: &str, end: &str) -> Result<(), AllocError> {
    let told = told(rt.alloc(), Way::Run, WHOLE, script.as_bytes())?;
    assert!(rt; told.ends_with(end.as_bytes()));
    Ok(())
}

/// Runs a script, and asserts what it comes to.
fn expect_all(
    rt: &(impl Abort + AllocGlobal),
    script: &str,
    wanted: &str,
) -> Result<(), AllocError> {
    expect(rt, Way::Run, WHOLE, ("many", script.as_bytes(), wanted))
}

#[test]
fn as_many_entries_as_may_be_held(rt: HostRuntime) -> Result<(), AllocError> {
    let mut script = times(rt.alloc(), 65_536, "bind\n")?;
    script.push_str("bind\nbind queue 1\nrewind\nbind queue 1\n")?;
    let end =
        "accepted 65535\nrefused QueueSpent\nrefused 0 JournalFull\nrewound 65535\naccepted 65535\n";
    expect_end(&rt, script.as_str(), end)
}

#[test]
fn as_many_operations_as_a_request_may_have(rt: HostRuntime) -> Result<(), AllocError> {
    let most = times(rt.alloc(), 255, " ; zero 0x0 0x1000")?;
    let script = format!(in rt.alloc();
        "bind zero 0x0 0x1000{most}\nbind zero 0x0 0x1000 ; zero 0x0 0x1000{most}\n"
    )?;
    expect_all(&rt, script.as_str(), "accepted 0\nrefused 0 TooManyOps\n")
}

/// Jobs of more accesses than one may have, of as many, and so many of one that the last is refused.
fn jobs(alloc: Global) -> Result<String, AllocError> {
    let most = times(alloc, 255, " ; read 0x0")?;
    let jobs = times(alloc, 1_024, "job read 0x0\n")?;
    format!(in alloc;
        "bind zero 0x0 0x1000\njob read 0x0 ; read 0x0{most}\njob read 0x0{most}\n{jobs}end 0\njob read 0x0\n"
    )
}

/// What is told of them.
fn told_of_jobs(alloc: Global) -> Result<String, AllocError> {
    let mut told = String::from_str(alloc, "accepted 0\nrefused TooManyAccesses\njob 0\n")?;
    for _ in 0..256u32 {
        told.push_str("zero rw\n")?;
    }
    for job in 1..1_024u32 {
        writeln!(told, "job {job}\nzero rw")?;
    }
    told.push_str("refused TooManyJobs\nended 0\njob 1024\nzero rw\n")?;
    Ok(told)
}

#[test]
fn as_many_jobs_and_accesses_as_may_be(rt: HostRuntime) -> Result<(), AllocError> {
    let script = jobs(rt.alloc())?;
    let wanted = told_of_jobs(rt.alloc())?;
    expect_all(&rt, script.as_str(), wanted.as_str())
}

#[test]
fn as_many_timelines_as_there_are(rt: HostRuntime) -> Result<(), AllocError> {
    let mut script = String::new(rt.alloc());
    for number in 0..65u32 {
        writeln!(script, "timeline t{number}")?;
    }
    let mut wanted = times(rt.alloc(), 64, "ok\n")?;
    wanted.push_str("Err(BadLine { line: 65 })")?;
    expect_all(&rt, script.as_str(), wanted.as_str())
}

/// So many names are declared, which is 712 more than there may be.
const NAMES: u32 = 26 * 26 * 98;

/// More buffers than may live, one of which is destroyed, and two more.
fn buffers(alloc: Global) -> Result<String, AllocError> {
    let mut script = String::new(alloc);
    for number in 0..NAMES {
        writeln!(script, "buffer a{number:x} 1")?;
    }
    script.push_str("destroy a0\nbuffer z 1\nuses z\nbuffer y 1\n")?;
    Ok(script)
}

/// What is told of them.
fn told_of_buffers(alloc: Global) -> Result<String, AllocError> {
    let mut told = times(alloc, 65_536, "ok\n")?;
    for _ in 0..712u32 {
        told.push_str("refused TooManyBuffers\n")?;
    }
    told.push_str("ok\nok\nuses 0 kept 0\nrefused TooManyBuffers\n")?;
    Ok(told)
}

#[test]
fn as_many_buffers_as_may_live(rt: HostRuntime) -> Result<(), AllocError> {
    let script = buffers(rt.alloc())?;
    let wanted = told_of_buffers(rt.alloc())?;
    expect_all(&rt, script.as_str(), wanted.as_str())
}
