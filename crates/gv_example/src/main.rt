//! The library in use: an address space alone, and a whole one with its requests.
#![tactic(auto)]

mod first;
mod pages;
mod requests;

use first::look;
use gv_types::{Bounds, Limits};
use gv_vm::Vm;
use pages::map_and_take_back;
use requests::withdraw_zeros;
use std::io;

fn main(rt: HostRuntime) -> io::Result<()> {
    let alloc = rt.alloc();
    match map_and_take_back(alloc) {
        Ok((mapped, taken_back)) => {
            println!(rt; "mapped: {mapped:?}")?;
            println!(rt; "taken back: {taken_back:?}")?;
        }
        Err(fault) => println!(rt; "refused: {fault}")?,
    }
    let Ok(mut vm) = Vm::new(alloc, Bounds::whole(), Limits::full()) else {
        return println!(rt; "no memory");
    };
    let looked = look(alloc, &mut vm);
    let found = withdraw_zeros(alloc, &mut vm);
    vm.close();
    match looked {
        Ok(place) => println!(rt; "looked up: {place:?}")?,
        Err(fault) => println!(rt; "refused: {fault}")?,
    }
    match found {
        Ok((over, back)) => {
            println!(rt; "zeros bound: {over:?}")?;
            println!(rt; "withdrawn: {back:?}")
        }
        Err(fault) => println!(rt; "refused: {fault}"),
    }
}
