//! Rows of lines, played on a world and on a machine of their own.
ghost use Rattle.std.specs.Prelude.{◌≡◌, [], IfOk};

use crate::machine::stage::{Act, Stage, is_answer};
use crate::machine::vm_text::question;
use gv_model::{Setting, number_of, request_in};
use gv_types::{
    Bounds, Limits, MAX_BUFFERS, MAX_ITEMS, MAX_MAPPINGS, MAX_TOLD, OutOfMemory, Request,
};
use gv_vm::Vm;
use std::alloc::Global;
use std::process::Abort;
use std::test::Fail;

/// The limits of buffers, of mappings, of entries and of outcomes told a queue; how many queues there are, how many places each
/// has, and how many timelines there are; whether the model is asked beside the world.
#[derive(Clone, Copy)]
pub struct WorldSetup {
    pub limits: [u64; 4],
    pub sizes: [u64; 3],
    pub compares: bool,
}

/// The greatest limits.
pub const FULL: [u64; 4] = [MAX_BUFFERS, MAX_MAPPINGS, MAX_ITEMS, MAX_TOLD];

/// 16 queues of depth 1 and one timeline.
pub const WIDE: WorldSetup = WorldSetup {
    limits: FULL,
    sizes: [16, 1, 1],
    compares: true,
};

/// Two queues of depth 1 and one timeline.
pub const SMALL: WorldSetup = WorldSetup {
    limits: FULL,
    sizes: [2, 1, 1],
    compares: true,
};

impl WorldSetup {
    pub fn setting(&self, bounds: Bounds) -> Result<Setting, Fail> {
        let [buffers, mappings, items, told] = self.limits;
        let [queues, depth, timelines] = self.sizes;
        Ok(Setting {
            bounds,
            limits: Limits::new(buffers, mappings, items, told).ok_or("limits")?,
            queues,
            depth,
            timelines,
        })
    }
}

/// Plays acts on a world of all pages.
pub fn play<R: Abort + AllocGlobal>(rt: &R, room: &WorldSetup, acts: &[Act]) -> Result<(), Fail> {
    let setting = room.setting(Bounds::whole())?;
    let mut stage = Stage::new(rt.alloc(), &setting, room.compares)?;
    let end = stage.play(rt, acts);
    stage.close();
    end
}

/// Plays one text.
pub fn play_text<R: Abort + AllocGlobal>(
    rt: &R,
    room: &WorldSetup,
    text: &str,
) -> Result<(), Fail> {
    let setting = room.setting(Bounds::whole())?;
    let mut stage = Stage::new(rt.alloc(), &setting, room.compares)?;
    let end = stage.play_text(rt, text);
    stage.close();
    end
}

/// Plays lines on a machine of all pages, with the greatest limits.
pub fn play_on_vm<R: Abort + AllocGlobal>(rt: &R, text: &str) -> Result<(), Fail> {
    let mut vm = Vm::new(rt.alloc(), Bounds::whole(), Limits::full())?;
    let end = lines_on_vm(rt, rt.alloc(), &mut vm, text);
    vm.close();
    end
}

fn lines_on_vm(rt: &impl Abort, alloc: Global, vm: &mut Vm, text: &str) -> Result<(), Fail> {
    for line in text.lines() {
        let (asked, wanted) = line.split_once(" = ").unwrap_or((line, ""));
        let given = answer_on_vm(alloc, vm, asked)?;
        assert!(rt; is_answer(given.as_str(), wanted), "{asked} = {given}");
    }
    Ok(())
}

fn answer_on_vm(alloc: Global, vm: &mut Vm, line: &str) -> Result<String, Fail> {
    match question(alloc, vm, line)? {
        Some(answer) => Ok(answer),
        None => Ok(bound(alloc, vm, line)?),
    }
}

/// What a request of queue 0 comes to, the one with the number that the line begins with.
fn bound(alloc: Global, vm: &mut Vm, line: &str) -> Result<String, OutOfMemory> {
    let (number, _) = line.split_once(' ').unwrap_or((line, ""));
    let request = request(alloc, line)?;
    let bound = vm.bind(alloc, 0, number_of(number), request, &[]);
    Ok(format!(in alloc; "{bound:?}")?)
}

/// The request that a line asks for, without points to wait for.
fn request(alloc: Global, line: &str) -> Result<Request, OutOfMemory>
    ensures { IfOk result (λ r. r.waits.items ≡ []) }
{
    let Request {
        ops,
        waits: _,
        signals,
    } = request_in(alloc, &[], line)?;
    Ok(Request {
        ops,
        waits: Vec::new(alloc),
        signals,
    })
}
