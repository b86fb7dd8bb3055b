//! The state of a script between two lines: its settings, its world, its names.
ghost use Rattle.std.specs.Prelude.{◌≡◌, ◌≢◌, ◌++◌, ◌∷◌, [], None, Err, false, IfOk, OnOk, OnErr, bytes_eq, length};
ghost use Rattle.gv_sync.specs.Seats.{most_timelines};
ghost use Rattle.gv_session.specs.Inside.{HasTimelines};
ghost use Rattle.std.specs.Map.{lookup};
ghost use Rattle.gv_vm.specs.Plans.{Steps};
ghost use Rattle.gv_vm.specs.QueueTurns.{IsTurn};
ghost use Rattle.gv_session.specs.Line.{declared, MayDeclare};
ghost use Rattle.gv_session.specs.State.{start, begun, empty_world};

use crate::buffer_names::BufferNames;
use crate::fault::LineFault;
use crate::stage::Stage;
use crate::timeline_names::{TIMELINES, TimelineNames};
use gv_lines::Name;
use gv_types::{Bounds, BufferId, Limits, OutOfMemory};
use gv_vm::{Event, QUEUES, Reply, Sizes, TurnResult, World};
use std::alloc::Global;
use std::marker::Model;
use std::mem;

/// How many requests may wait on a queue.
const DEPTH: u64 = 65_536;

/// How far a script has come with its settings, the world that it runs on, and the names that it has declared. It has to be
/// closed: it is not `Drop`.
pub struct Session {
    stage: Stage,
    world: World,
    buffers: BufferNames,
    timelines: TimelineNames,
}

impl Model for Session {
    ghost use Rattle.gv_session.specs.State.{SessionState};
    ghost use Rattle.gv_session.specs.Inside.{state_of, IsSoundSession};

    ghost Value = { SessionState };

    ghost view = { state_of };

    ghost invariant = { IsSoundSession };
}

impl Session {
    /// Nothing is declared and nothing done, in the widest bounds and limits.
    pub fn new(alloc: Global) -> Result<Self, OutOfMemory>
        ensures { IfOk result (λ session. session ≡ start) }
    {
        Ok(Session {
            stage: Stage::Fresh,
            world: empty_world(alloc, Bounds::whole(), Limits::full())?,
            buffers: BufferNames::new(alloc),
            timelines: TimelineNames::new(alloc),
        })
    }

    /// Which settings may still come.
    pub fn stage(&self) -> Stage
        ensures { result ≡ self.now.stage }
    {
        self.stage
    }

    /// A line runs that is neither empty, nor a comment, nor a setting.
    pub fn begin(&mut self)
        ensures { self.new ≡ begun self.old }
    {
        self.stage = Stage::Begun;
    }

    /// Sets the bounds: the world is a new one.
    pub fn set_bounds(&mut self, alloc: Global, bounds: Bounds) -> Result<(), OutOfMemory>
        ensures done { OnOk result (self.new ≡ record self.old {
          stage = Stage.Bounded;
          world = empty_world bounds self.old.world.vm.space.limits;
        }) }
        ensures err { OnErr result (self.new ≡ self.old) }
    {
        let limits = self.world.vm().limits();
        self.replace(empty_world(alloc, bounds, limits)?);
        self.stage = Stage::Bounded;
        Ok(())
    }

    /// Sets the limits: the world is a new one in the same bounds.
    pub fn set_limits(&mut self, alloc: Global, limits: Limits) -> Result<(), OutOfMemory>
        ensures done { OnOk result (self.new ≡ record (begun self.old) {
          world = empty_world self.old.world.vm.space.area limits;
        }) }
        ensures err { OnErr result (self.new ≡ self.old) }
    {
        let bounds = self.world.vm().space().bounds();
        self.replace(empty_world(alloc, bounds, limits)?);
        self.stage = Stage::Begun;
        Ok(())
    }

    /// Another world takes the place of this one, which is closed.
    fn replace(&mut self, world: World)
        requires { length world.numbers ≡ most_timelines }
        ensures { self.new ≡ record self.old { world = world } }
    {
        mem::replace(&mut self.world, world).close();
    }

    /// The world.
    pub fn world(&self) -> &World
        ensures { result.now ≡ self.now.world }
    {
        &self.world
    }

    /// The names of the declared buffers.
    pub fn buffers(&self) -> &BufferNames
        ensures { result.now.entries ≡ self.now.buffers }
    {
        &self.buffers
    }

    /// The names of the declared timelines.
    pub fn timelines(&self) -> &TimelineNames
        ensures names { result.now.names ≡ self.now.timelines }
        ensures there { HasTimelines self.now }
    {
        &self.timelines
    }

    /// One event of the world.
    pub fn step(&mut self, alloc: Global, event: Event) -> Result<Reply, OutOfMemory>
        ensures step { IfOk result (λ reply. Steps self.old.world event reply self.new.world) }
        ensures state { OnOk result (self.new ≡ record (begun self.old) { world = self.new.world }) }
        ensures err { OnErr result (self.new ≡ begun self.old) }
    {
        self.stage = Stage::Begun;
        let reply = self.world.step(alloc, event)?;
        // For the prover: what always holds of a machine.
        let _space = self.world.vm().space();
        Ok(reply)
    }

    /// A turn of a queue, whose request stays in hand where a wait lacks.
    pub fn turn(&mut self, alloc: Global, queue: u64) -> Result<TurnResult, OutOfMemory>
        ensures turn { IsTurn false queue self.old.world result self.new.world }
        ensures state { self.new ≡ record (begun self.old) { world = self.new.world } }
    {
        self.stage = Stage::Begun;
        self.world.turn(alloc, queue, false)
    }

    /// Makes a buffer and declares its name: the answer is the world's. A refusal comes before want of memory for the name,
    /// and where there is no room for the name no buffer is made.
    pub fn make_buffer(
        &mut self,
        alloc: Global,
        name: Name,
        pages: u64,
    ) -> Result<Reply, OutOfMemory>
        requires { lookup (bytes_eq name) self.old.buffers ≡ None }
        ensures step { IfOk result (λ reply. Steps self.old.world (Event.Create pages) reply self.new.world) }
        ensures state { IfOk result (λ reply. self.new
            ≡ record (begun self.old) { world = self.new.world; buffers = declared name reply self.old.buffers }) }
        ensures err { OnErr result (self.new ≡ begun self.old) }
    {
        if self.world.vm().space().create_fault(pages).is_some() {
            return self.step(alloc, Event::Create { pages });
        }
        self.stage = Stage::Begun;
        self.buffers.reserve()?;
        let reply = self.world.step(alloc, Event::Create { pages })?;
        // For the prover: what always holds of a machine.
        let _space = self.world.vm().space();
        if let Reply::Created { id } = &reply {
            self.buffers.declare(name, *id);
        }
        Ok(reply)
    }

    /// Declares the next timeline, unless its name is declared already or all are.
    pub fn declare_timeline(&mut self, name: Name) -> Result<(), LineFault>
        ensures done { OnOk result (self.new ≡ record (begun self.old) { timelines = self.old.timelines ++ name ∷ [] }) }
        ensures same { OnErr result (self.new ≡ self.old) }
        ensures bad { result ≡ Err LineFault.Bad → ¬ MayDeclare self.old.timelines name }
        ensures memory { result ≢ Err LineFault.Bad → MayDeclare self.old.timelines name }
    {
        self.timelines.add(name)?;
        self.stage = Stage::Begun;
        Ok(())
    }

    /// Closes the world. It takes no memory.
    pub fn close(self) {
        let Session {
            stage: _,
            world,
            buffers: _,
            timelines: _,
        } = self;
        world.close();
    }
}

/// A world of a script: nothing is put, and all timelines are 0.
fn empty_world(alloc: Global, bounds: Bounds, limits: Limits) -> Result<World, OutOfMemory>
    ensures { IfOk result (λ world. world ≡ empty_world bounds limits) }
{
    let sizes = Sizes {
        queues: QUEUES as u64,
        depth: DEPTH,
        timelines: TIMELINES,
    };
    World::new(alloc, bounds, limits, sizes)
}
