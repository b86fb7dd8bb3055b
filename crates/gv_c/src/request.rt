//! Requests that cross from C.
ghost use Rattle.std.specs.Prelude.{◌≡◌, ◌≢◌, ◌<◌, map, length, Some, None, Err, IfOk, OnErr};
ghost use Rattle.gv_c.specs.Binding.{IsRead, IsPutOf};
ghost use Rattle.gv_c.specs.Statuses.{bad_argument, out_of_memory};
ghost use Rattle.gv_c.specs.Values.{ops_of, point_of};

use crate::status::{BAD_ARGUMENT, OUT_OF_MEMORY, of};
use crate::values::{BindRequest, Operation, SyncPoint};
use gv_types::{Op, Point, Request};
use gv_vm::{Event, Reply, World};
use std::alloc::Global;

/// Puts a request at the back of its queue, and answers its number there, or the status of why it isn't put.
pub fn put(alloc: Global, world: &mut World, asked: &BindRequest<'_>) -> Result<u64, u32>
    ensures { IsPutOf asked.now world.old result world.new }
{
    let request = read(alloc, asked)?;
    let queue = asked.queue;
    match world.step(alloc, Event::Put { queue, request }) {
        Err(_) => Err(OUT_OF_MEMORY),
        Ok(Reply::Put { number }) => Ok(number),
        Ok(Reply::NotPut { fault, request: _ }) => Err(of(fault)),
        Ok(_) => Err(BAD_ARGUMENT),
    }
}

/// The request that a structure asks for. `BAD_ARGUMENT` if an operation is none, `OUT_OF_MEMORY` if memory is refused
/// before.
fn read(alloc: Global, asked: &BindRequest<'_>) -> Result<Request, u32>
    ensures { IsRead asked.now result }
{
    Ok(Request {
        ops: read_ops(alloc, asked.ops)?,
        waits: read_points(alloc, asked.waits)?,
        signals: read_points(alloc, asked.signals)?,
    })
}

fn read_ops(alloc: Global, ops: &[Operation]) -> Result<Vec<Op>, u32>
    ensures read { IfOk result (λ list. ops_of ops.now ≡ Some list.items) }
    ensures bad { result ≡ Err bad_argument → ops_of ops.now ≡ None }
    ensures status { OnErr result (result ≢ Err bad_argument → (result ≡ Err out_of_memory) × (0 < length ops.now)) }
{
    let Ok(mut list) = Vec::with_capacity(alloc, ops.len()) else {
        return Err(OUT_OF_MEMORY);
    };
    for op in ops {
        let Some(op) = op.op() else {
            return Err(BAD_ARGUMENT);
        };
        list.push_reserved(op);
    }
    Ok(list)
}

fn read_points(alloc: Global, points: &[SyncPoint]) -> Result<Vec<Point>, u32>
    ensures read { IfOk result (λ list. list.items ≡ map point_of points.now) }
    ensures status { OnErr result ((result ≡ Err out_of_memory) × (0 < length points.now)) }
{
    let Ok(mut list) = Vec::with_capacity(alloc, points.len()) else {
        return Err(OUT_OF_MEMORY);
    };
    for point in points {
        list.push_reserved(point.point());
    }
    Ok(list)
}
