//! Address spaces told apart: each as it is told alone, and what is wrong with their names.

use crate::logs::made::RandomLog;
use crate::logs::told::{expect_told, told};
use std::alloc::{AllocError, Global};
use std::process::Abort;

/// How many lines a log by chance has, and how many such logs are told.
const LINES: u64 = 60;

const LOGS: u64 = 12;

/// How spaces of a log are told apart: the words that ask it, the option that asks one of them, what stands before a name, the names,
/// and the lines of a log by chance. Pointers and ranges are the same in each.
struct Kind {
    words: &'static str,
    option: &'static str,
    head: &'static str,
    names: &'static [&'static str],
    forms: &'static [&'static str],
}

const SPACES: Kind = Kind {
    words: "--format xe",
    option: "--space",
    head: "space",
    names: &["0x20", "0x21", "0x22", "0x23"],
    forms: &[
        "xe_vm_free: vm=00000000aa, asid=0x0002$s\n",
        "xe_vma_bind: vma=f$w, asid=0x0002$s, start=0x$C, end=0x$X, userptr=0x0,\n",
        "xe_vma_bind: vma=f$w, asid=0x0002$s, start=0x$C, end=0x$X, userptr=0x0,\n",
        "xe_vma_bind: vma=f$w, asid=0x0002$s, start=0x$C, end=0x$X, userptr=0x0,\n",
        "xe_vma_bind: vma=f$w, asid=0x0002$s, start=0x$C, end=0x$X, userptr=0x0,\n",
        "no event\n",
        "xe_vma_unbind: vma=f$w, asid=0x0002$s, start=0x$C, end=0x$X, userptr=0x0,\n",
        "xe_vma_unbind: vma=f$w, asid=0x0002$s, start=0x$C, end=0x$X, userptr=0x0,\n",
    ],
};

/// Some objects are larger in one process than in another.
const PROCESSES: Kind = Kind {
    words: "--format amdgpu",
    option: "--pid",
    head: "process",
    names: &["32", "33", "34", "35"],
    forms: &[
        "game-1 (    3$q) [000] 1.0: amdgpu_bo_create: bo=0xf$w, pages=$i, type=1\n",
        "game-1 (    3$q) [000] 1.0: amdgpu_vm_bo_no_event: bo=0xf$w, start=$H, last=$I, offset=0000000000, flags=40\n",
        "game-1 (    3$q) [000] 1.0: amdgpu_vm_bo_map: bo=0xf$w, start=$H, last=$I, offset=0000000000, flags=40\n",
        "game-1 (    3$q) [000] 1.0: amdgpu_vm_bo_map: bo=0xf$w, start=$H, last=$I, offset=0000000000, flags=40\n",
        "game-1 (    3$q) [000] 1.0: amdgpu_vm_bo_map: bo=0xf$w, start=$H, last=$I, offset=0000000000, flags=40\n",
        "game-1 (    3$q) [000] 1.0: amdgpu_vm_bo_map: bo=0xf$w, start=$H, last=$I, offset=0000000000, flags=40\n",
        "game-1 (    3$q) [000] 1.0: amdgpu_vm_bo_unmap: bo=0xf$w, start=$H, last=$I, offset=0000000000, flags=40\n",
        "game-1 (    3$q) [000] 1.0: amdgpu_vm_bo_unmap: bo=0xf$w, start=$H, last=$I, offset=0000000000, flags=40\n",
    ],
};

/// Whether a report tells below its name of a space what is told where it alone is asked.
fn is_told_as_alone(
    alloc: Global,
    log: &str,
    kind: &Kind,
    name: &str,
    whole: &str,
) -> Result<bool, AllocError> {
    let (head, option, words) = (kind.head, kind.option, kind.words);
    let asked = format!(in alloc; "{words} {option} {name}")?;
    let alone = told(alloc, asked.as_str(), log.as_bytes())?;
    let section = format!(in alloc; "{head} {name}:\n{alone}")?;
    Ok(whole.contains(section.as_str()))
}

/// Asserts that below its name each space of a log is told as it is told where it alone is asked, or else is named among those in
/// which nothing was found. How many are told.
fn expect_apart(
    rt: &(impl Abort + AllocGlobal),
    log: &str,
    kind: &Kind,
) -> Result<u64, AllocError> {
    let mut found: u64 = 0;
    let whole = told(rt.alloc(), kind.words, log.as_bytes())?;
    let others = whole.as_str().lines().next_back().unwrap_or("");
    for name in kind.names {
        let is_told = is_told_as_alone(rt.alloc(), log, kind, name, whole.as_str())?;
        assert!(rt; is_told || others.contains(*name), "{name} {whole}");
        found = found.saturating_add(u64::from(is_told));
    }
    Ok(found)
}

/// Asserts it for logs by chance, of which many spaces are told.
fn expect_logs_apart(rt: &(impl Abort + AllocGlobal), kind: &Kind) -> Result<(), AllocError> {
    let mut found: u64 = 0;
    for seed in 0..LOGS {
        let mut log = String::new(rt.alloc());
        RandomLog::new(seed).write_lines(&mut log, kind.forms, LINES)?;
        found = found.saturating_add(expect_apart(rt, log.as_str(), kind)?);
    }
    assert!(rt; found > 20, "{found}");
    Ok(())
}

/// Below its name each space of a log is told as it is told where it alone is asked.
#[test]
fn each_space_is_told_as_alone(rt: HostRuntime) -> Result<(), AllocError> {
    expect_logs_apart(&rt, &SPACES)
}

/// Below its name each process of a log is told as it is told where it alone is asked.
#[test]
fn each_process_is_told_as_alone(rt: HostRuntime) -> Result<(), AllocError> {
    expect_logs_apart(&rt, &PROCESSES)
}

const TWO: &str = "xe_vma_bind: vma=f0, asid=0x00021, start=0x200000, end=0x200fff, userptr=0x0,\n\
    xe_vma_bind: vma=f0, asid=0x00022, start=0x200000, end=0x200fff, userptr=0x0,\n";

/// Words that ask for a space that isn't there, and a log.
const UNNAMED: &[(&str, &str)] = &[
    ("--format xe --space 0x23", TWO),
    ("--format xe --space ", TWO),
    ("--format xe --space 0x", TWO),
    ("--format xe --space 0x21 ", TWO),
    ("--format xe --space two", TWO),
    ("--format xe --space 0x00000000000000021", TWO),
    (
        "--format radv --space 21",
        "timestamp=1, VA=0000000000010000-0000000000030000, destroyed=0, is_virtual=0\n",
    ),
    (
        "--format amdgpu --space 21",
        "amdgpu_vm_bo_map: bo=0xf0, start=100, last=100, offset=0000000000, flags=40\n",
    ),
    (
        "--format gpuvas --space 21",
        "| 0x3000 | 0x4000 | 0x7000 | 0xf0 | 0x0\n",
    ),
];

#[test]
fn names_of_no_space_are_a_fault(rt: HostRuntime) -> Result<(), AllocError> {
    for (words, log) in UNNAMED {
        expect_told(&rt, words, log.as_bytes(), "Err(NoSpace)")?;
    }
    Ok(())
}

/// Two processes of amdgpu.
const EVENTS: &str =
    "game-1 (   42) [000] 1.0: amdgpu_vm_bo_map: bo=0xf0, start=100, last=100, offset=0000000000, flags=40\n\
    game-2 (   42) [000] 1.0: amdgpu_vm_bo_map: bo=0xf0, start=101, last=101, offset=0000000000, flags=40\n\
    Xorg-7 (    7) [000] 1.0: amdgpu_vm_bo_map: bo=0xf0, start=102, last=102, offset=0000000000, flags=40\n";

/// Processes of amdgpu, where the log tells them, and lists with rows of two spaces; and one process, of which there is one space.
const LISTED: &[(&str, &str, bool)] = &[
    ("--format xe --mappings", TWO, false),
    ("--format amdgpu --mappings", EVENTS, false),
    (
        "--format gpuvas --mappings",
        "DRM GPU VA space (a) [0x0;0x1]\n\
        | 0x3000 | 0x4000 | 0x7000 | 0xf0 | 0x0\n\
        DRM GPU VA space (b) [0x0;0x1]\n\
        | 0x3000 | 0x4000 | 0x7000 | 0xf0 | 0x0\n",
        false,
    ),
    ("--format amdgpu --mappings --pid 42", EVENTS, true),
];

#[test]
fn mappings_of_several_spaces_are_a_fault(rt: HostRuntime) -> Result<(), AllocError> {
    for (words, log, is_listed) in LISTED {
        let told = told(rt.alloc(), words, log.as_bytes())?;
        assert!(rt; !told.is_empty(), "{words}");
        let is_fault = told.as_str().ends_with("Err(ManySpaces)");
        assert!(rt; told.as_str().contains("Err(") != *is_listed, "{words}");
        assert!(rt; is_fault != *is_listed, "{words}");
    }
    Ok(())
}
