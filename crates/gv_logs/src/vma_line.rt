//! Trace events of drivers that bind whole VMAs, as trace-cmd, perf and the kernel's own trace file write them.

use crate::event_head::EventHead;

/// A VMA: the pointer that it is known by, and its bytes.
#[derive(Clone, Copy)]
pub struct Vma {
    pub pointer: u64,
    pub start: u64,
    pub len: u64,
}

/// What an event says.
#[derive(Clone, Copy)]
pub enum VmaEvent {
    Bound {
        vma: Vma,
        /// The memory behind it is the process' own.
        is_of_process: bool,
    },
    Unbound {
        vma: Vma,
    },
    /// It only touches what stands.
    Touched,
    SpaceMade,
    /// The address space goes, with all its VMAs.
    SpaceGone,
}

/// An event: what stands before it, and its address space.
#[derive(Clone, Copy)]
pub struct VmaLine {
    pub head: EventHead,
    pub space: u64,
    pub event: VmaEvent,
}

impl VmaEvent {
    /// Whether it tells of a VMA, and not of an address space alone.
    pub fn is_of_vma(&self) -> bool {
        match self {
            VmaEvent::Bound { .. } | VmaEvent::Unbound { .. } | VmaEvent::Touched => true,
            VmaEvent::SpaceMade | VmaEvent::SpaceGone => false,
        }
    }
}
