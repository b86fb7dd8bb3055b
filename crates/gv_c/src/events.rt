//! Calls that carry out one event of the world.
ghost use Rattle.std.specs.Prelude.{◌≡◌};
ghost use Rattle.gv_vm.specs.declared.event.Event.TheVariants.{Create, Destroy, Rewind, Withdraw, Settle, Forget, Trim, JobEnd, Raise};
ghost use Rattle.gv_c.specs.Values.{id_of};
ghost use Rattle.gv_c.specs.Statuses.{status_of};
ghost use Rattle.gv_c.specs.Calls.{Answers, made_in, number_in, number_said};

use crate::handle::Handle;
use crate::status::of_reply;
use crate::values::Buffer;
use gv_types::{OutOfMemory, Point};
use gv_vm::{Event, Reply};
use std::alloc::Global;

/// Makes a buffer of `pages` pages, and writes its id.
#[unsafe(no_mangle)]
pub extern "C" fn vmbind_buffer_create(
    alloc: Global,
    vm: &mut Handle,
    pages: u64,
    buffer: &mut Buffer,
) -> u32
    ensures { Answers vm.old.value (Create pages) vm.new.value (λ reply.
        (result ≡ status_of reply) × (buffer.new ≡ made_in reply)) }
{
    let reply = vm.step(alloc, Event::Create { pages });
    *buffer = match &reply {
        Some(Ok(Reply::Created { id })) => Buffer::of(*id),
        _ => Buffer::none(),
    };
    of_reply(&reply)
}

/// Destroys a buffer that no mapping, undo value or job uses. If some do, writes how many.
#[unsafe(no_mangle)]
pub extern "C" fn vmbind_buffer_destroy(
    alloc: Global,
    vm: &mut Handle,
    buffer: Buffer,
    number: &mut u64,
) -> u32
    ensures { Answers vm.old.value (Destroy (id_of buffer)) vm.new.value (λ reply.
        (result ≡ status_of reply) × (number.new ≡ number_in reply)) }
{
    let reply = vm.step(alloc, Event::Destroy { id: buffer.id() });
    *number = number_of(&reply);
    of_reply(&reply)
}

/// Undoes the newest entry, and writes its number.
#[unsafe(no_mangle)]
pub extern "C" fn vmbind_rewind(alloc: Global, vm: &mut Handle, entry: &mut u64) -> u32
    ensures { Answers vm.old.value Rewind vm.new.value (λ reply.
        (result ≡ status_of reply) × (entry.new ≡ number_in reply)) }
{
    let reply = vm.step(alloc, Event::Rewind);
    *entry = number_of(&reply);
    of_reply(&reply)
}

/// Withdraws an older entry, and writes the number of the withdrawal.
#[unsafe(no_mangle)]
pub extern "C" fn vmbind_withdraw(
    alloc: Global,
    vm: &mut Handle,
    entry: u64,
    number: &mut u64,
) -> u32
    ensures { Answers vm.old.value (Withdraw entry) vm.new.value (λ reply.
        (result ≡ status_of reply) × (number.new ≡ number_in reply)) }
{
    let reply = vm.step(alloc, Event::Withdraw { entry });
    *number = number_of(&reply);
    of_reply(&reply)
}

/// Settles the entries below a number, and writes how many.
#[unsafe(no_mangle)]
pub extern "C" fn vmbind_settle(alloc: Global, vm: &mut Handle, to: u64, number: &mut u64) -> u32
    ensures { Answers vm.old.value (Settle to) vm.new.value (λ reply.
        (result ≡ status_of reply) × (number.new ≡ number_in reply)) }
{
    let reply = vm.step(alloc, Event::Settle { to });
    *number = number_of(&reply);
    of_reply(&reply)
}

/// Drops the outcomes of a queue below a number, and writes how many.
#[unsafe(no_mangle)]
pub extern "C" fn vmbind_forget(
    alloc: Global,
    vm: &mut Handle,
    queue: u64,
    to: u64,
    number: &mut u64,
) -> u32
    ensures { Answers vm.old.value (Forget queue to) vm.new.value (λ reply.
        (result ≡ status_of reply) × (number.new ≡ number_in reply)) }
{
    let reply = vm.step(alloc, Event::Forget { queue, to });
    *number = number_of(&reply);
    of_reply(&reply)
}

/// Frees memory that nothing needs, and writes 0. If entries are held, writes the number of the least.
#[unsafe(no_mangle)]
pub extern "C" fn vmbind_trim(alloc: Global, vm: &mut Handle, number: &mut u64) -> u32
    ensures { Answers vm.old.value Trim vm.new.value (λ reply.
        (result ≡ status_of reply) × (number.new ≡ number_in reply)) }
{
    let reply = vm.step(alloc, Event::Trim);
    *number = number_of(&reply);
    of_reply(&reply)
}

/// Ends a job.
#[unsafe(no_mangle)]
pub extern "C" fn vmbind_job_end(alloc: Global, vm: &mut Handle, job: u64) -> u32
    ensures { Answers vm.old.value (JobEnd job) vm.new.value (λ reply. result ≡ status_of reply) }
{
    of_reply(&vm.step(alloc, Event::JobEnd { job }))
}

/// Raises a timeline to a value, if it is lower, and writes its number after that.
#[unsafe(no_mangle)]
pub extern "C" fn vmbind_timeline_raise(
    alloc: Global,
    vm: &mut Handle,
    timeline: u64,
    value: u64,
    now: &mut u64,
) -> u32
    ensures { Answers vm.old.value (Raise (record { timeline = timeline; value = value })) vm.new.value (λ reply.
        (result ≡ status_of reply) × (now.new ≡ number_in reply)) }
{
    let point = Point { timeline, value };
    let reply = vm.step(alloc, Event::Raise { point });
    *now = number_of(&reply);
    of_reply(&reply)
}

/// The number that a reply has, or that of its fault, else 0.
pub fn number_of(reply: &Option<Result<Reply, OutOfMemory>>) -> u64
    ensures { result ≡ number_in reply.now }
{
    match reply {
        Some(Ok(reply)) => number_said(reply),
        _ => 0,
    }
}

fn number_said(reply: &Reply) -> u64
    ensures { result ≡ number_said reply.now }
{
    match reply {
        Reply::Rewound { item } => *item,
        Reply::Withdrawn { item } => *item,
        Reply::Settled { count } => *count,
        Reply::Forgot { count } => *count,
        Reply::Raised { now, .. } => *now,
        Reply::Begun { job, .. } => *job,
        Reply::Put { number } => *number,
        Reply::Refused { fault } => fault.carried().unwrap_or(0),
        _ => 0,
    }
}
