//! What a request asks for, in bytes and in pages.
ghost use Rattle.std.specs.Prelude.{◌≡◌, IsTrue};

use crate::mapping::{Backing, BufferId, Flags, Mapping};
use crate::page_range::PageRange;

/// How many bytes a page has.
pub const PAGE_BYTES: u64 = 4096;

/// An operation as a caller states it: addresses, lengths and offsets are in bytes. The operations of a bind call
/// of Asynchronous VM_BIND: map a buffer, map without a buffer, unmap, unmap all that is mapped of a buffer.
#[derive(Clone, Copy, Debug, PartialEq, Eq)]
pub enum Op {
    Map {
        addr: u64,
        len: u64,
        buffer: BufferId,
        offset: u64,
        flags: Flags,
    },
    MapZero {
        addr: u64,
        len: u64,
        flags: Flags,
    },
    Unmap {
        addr: u64,
        len: u64,
    },
    UnmapBuffer {
        buffer: BufferId,
    },
}

impl Op {
    ghost use Rattle.gv_types.specs.PageRange.{IsInSpace};
    ghost use Rattle.gv_types.specs.Operation.{addr_of, len_of, offset_of, has_range};
    ghost use Rattle.gv_types.specs.Operation.{in_pages, range_of, IsPageOp};

    /// Whether it names its pages: all but an unmap of a whole buffer.
    pub fn has_range(&self) -> bool
        ensures { result ≡ has_range self.now }
    {
        match self {
            Op::Map { .. } | Op::MapZero { .. } | Op::Unmap { .. } => true,
            Op::UnmapBuffer { .. } => false,
        }
    }

    /// Its first byte, or 0 if it names no pages.
    pub fn addr(&self) -> u64
        ensures { result ≡ addr_of self.now }
    {
        match *self {
            Op::Map { addr, .. } | Op::MapZero { addr, .. } | Op::Unmap { addr, .. } => addr,
            Op::UnmapBuffer { .. } => 0,
        }
    }

    /// How many bytes it covers, or 0 if it names no pages.
    pub fn len(&self) -> u64
        ensures { result ≡ len_of self.now }
    {
        match *self {
            Op::Map { len, .. } | Op::MapZero { len, .. } | Op::Unmap { len, .. } => len,
            Op::UnmapBuffer { .. } => 0,
        }
    }

    /// The byte of the buffer that it begins at, or 0 if it maps no buffer.
    pub fn offset(&self) -> u64
        ensures { result ≡ offset_of self.now }
    {
        match *self {
            Op::Map { offset, .. } => offset,
            Op::MapZero { .. } | Op::Unmap { .. } | Op::UnmapBuffer { .. } => 0,
        }
    }

    /// The operation on these pages, which must be the pages of its bytes.
    pub(crate) fn on_pages(&self, range: PageRange) -> PageOp
        requires same { range ≡ range_of (in_pages self.now) }
        requires ranged { IsTrue (has_range self.now) }
        requires in_space { IsInSpace range }
        ensures value { result ≡ in_pages self.now }
        ensures page_op { IsPageOp result }
    {
        match *self {
            Op::Map {
                buffer,
                offset,
                flags,
                ..
            } => PageOp::Map {
                range,
                backing: Backing::Buffer {
                    id: buffer,
                    page: offset / PAGE_BYTES,
                },
                flags,
            },
            Op::MapZero { flags, .. } => PageOp::Map {
                range,
                backing: Backing::Zero,
                flags,
            },
            Op::Unmap { .. } => PageOp::Unmap { range },
            Op::UnmapBuffer { .. } => unreachable!(),
        }
    }
}

/// An operation in pages.
#[derive(Clone, Copy, Debug, PartialEq, Eq)]
pub enum PageOp {
    Map {
        range: PageRange,
        backing: Backing,
        flags: Flags,
    },
    Unmap {
        range: PageRange,
    },
    UnmapBuffer {
        buffer: BufferId,
    },
}

impl PageOp {
    ghost use Rattle.std.specs.Option.{option_to_list};
    ghost use Rattle.gv_types.specs.Operation.{range_of, own_mapping, IsPageOp};

    /// The pages that the operation covers. An unmap of a whole buffer names none.
    pub fn range(&self) -> PageRange
        requires { IsPageOp self.now }
        ensures { result ≡ range_of self.now }
    {
        match *self {
            PageOp::Map { range, .. } => range,
            PageOp::Unmap { range } => range,
            PageOp::UnmapBuffer { .. } => unreachable!(),
        }
    }

    /// The mapping that the operation adds, if any.
    pub fn own_mapping(&self) -> Option<Mapping>
        ensures { option_to_list result ≡ own_mapping self.now }
    {
        match *self {
            PageOp::Map {
                range,
                backing,
                flags,
            } => Some(Mapping {
                range,
                backing,
                flags,
            }),
            PageOp::Unmap { .. } | PageOp::UnmapBuffer { .. } => None,
        }
    }
}
