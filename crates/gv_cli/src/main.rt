//! The program `vmbind`: a manager of a GPU address space, run by a script.
#![tactic(auto)]

use gv_program::program;
use std::io::IsTerminal;
use std::process::ExitCode;

fn main(rt: HostRuntime) -> ExitCode {
    let is_terminal = rt.stderr().is_terminal();
    ExitCode::from(program(&rt, &rt, is_terminal))
}
