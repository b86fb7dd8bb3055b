//! What crosses from C: only numbers, in the order in which `vmbind.h` declares them.
ghost use Rattle.std.specs.Prelude.{◌≡◌};
ghost use Rattle.gv_c.specs.Values.{id_of, c_buffer, c_flags, flags_of, op_of, c_point, point_of, no_buffer, no_point};

use gv_types::{BufferId, Flags, Op, Point};

/// The address space and its reserved region, in bytes, the limit of each kind, and its queues and timelines.
#[repr(C)]
#[derive(Clone, Copy)]
pub struct Config {
    pub start: u64,
    pub size: u64,
    pub reserved_start: u64,
    pub reserved_size: u64,
    pub buffers: u64,
    pub mappings: u64,
    pub items: u64,
    pub told: u64,
    pub queues: u64,
    pub depth: u64,
    pub timelines: u64,
}

/// A buffer's id: `made` is 1 in an id that a call wrote.
#[repr(C)]
#[derive(Clone, Copy)]
pub struct Buffer {
    pub generation: u64,
    pub index: u32,
    pub made: u32,
}

/// Kinds of operations.
pub const MAP: u32 = 1;

pub const MAP_ZERO: u32 = 2;

pub const UNMAP: u32 = 3;

pub const UNMAP_ALL: u32 = 4;

/// An operation, in bytes.
#[repr(C)]
#[derive(Clone, Copy)]
pub struct Operation {
    pub kind: u32,
    pub flags: u32,
    pub start: u64,
    pub size: u64,
    pub buffer: Buffer,
    pub offset: u64,
}

/// A number of a timeline.
#[repr(C)]
#[derive(Clone, Copy)]
pub struct SyncPoint {
    pub timeline: u64,
    pub value: u64,
}

/// A request: its queue, its operations, and the points that it waits for and signals.
#[repr(C)]
#[derive(Clone, Copy)]
pub struct BindRequest<'a> {
    pub queue: u64,
    pub ops: &'a [Operation],
    pub waits: &'a [SyncPoint],
    pub signals: &'a [SyncPoint],
}

/// What a job does at an address: 0 reads, 1 writes.
#[repr(C)]
#[derive(Clone, Copy)]
pub struct JobAccess {
    pub address: u64,
    pub usage: u32,
    pub reserved: u32,
}

impl Buffer {
    /// No buffer.
    pub fn none() -> Buffer
        ensures { result ≡ no_buffer }
    {
        Buffer {
            generation: 0,
            index: 0,
            made: 0,
        }
    }

    pub fn of(id: BufferId) -> Buffer
        ensures { result ≡ c_buffer id }
    {
        Buffer {
            generation: id.generation.get(),
            index: id.index,
            made: 1,
        }
    }

    pub fn id(self) -> BufferId
        ensures { result ≡ id_of self }
    {
        if self.made == 1 {
            BufferId::new(self.index, self.generation)
        } else {
            BufferId::new(u32::MAX, 0)
        }
    }
}

/// The flags of a number: bit 0 is `read_only`. None if another bit is set.
fn flags_in(bits: u32) -> Option<Flags>
    ensures { result ≡ flags_of bits }
{
    match bits {
        0 => Some(Flags { read_only: false }),
        1 => Some(Flags { read_only: true }),
        _ => None,
    }
}

/// The number of flags.
pub fn bits_of(flags: Flags) -> u32
    ensures { result ≡ c_flags flags }
{
    if flags.read_only { 1 } else { 0 }
}

impl Operation {
    /// None if the kind or the flags don't exist.
    pub fn op(&self) -> Option<Op>
        ensures { result ≡ op_of self.now }
    {
        match self.kind {
            MAP => Some(Op::Map {
                addr: self.start,
                len: self.size,
                buffer: self.buffer.id(),
                offset: self.offset,
                flags: flags_in(self.flags)?,
            }),
            MAP_ZERO => Some(Op::MapZero {
                addr: self.start,
                len: self.size,
                flags: flags_in(self.flags)?,
            }),
            UNMAP if self.flags == 0 => Some(Op::Unmap {
                addr: self.start,
                len: self.size,
            }),
            UNMAP_ALL if self.flags == 0 => Some(Op::UnmapBuffer {
                buffer: self.buffer.id(),
            }),
            _ => None,
        }
    }
}

impl SyncPoint {
    /// The start of a timeline.
    pub fn none() -> SyncPoint
        ensures { result ≡ no_point }
    {
        SyncPoint {
            timeline: 0,
            value: 0,
        }
    }

    pub fn of(point: Point) -> SyncPoint
        ensures { result ≡ c_point point }
    {
        SyncPoint {
            timeline: point.timeline,
            value: point.value,
        }
    }

    pub fn point(self) -> Point
        ensures { result ≡ point_of self }
    {
        Point {
            timeline: self.timeline,
            value: self.value,
        }
    }
}
