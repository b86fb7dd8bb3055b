//! What a machine says of itself, and replies, as text.
use gv_model::number_of;
use gv_types::BufferId;
use gv_vm::{Place, QUEUES, Reply, Vm};
use std::alloc::{AllocError, Global};
use std::test::Fail;

/// A text in which the buffers have the names b0, b1 and so on.
pub fn named(alloc: Global, ids: &[BufferId], text: String) -> Result<String, AllocError> {
    let mut text = text;
    for (place, id) in ids.iter().enumerate() {
        let long = format!(in alloc; "{id:?}")?;
        let short = format!(in alloc; "b{place}")?;
        text = text.replace(alloc, long.as_str(), short.as_str())?;
    }
    Ok(text)
}

/// The answer to a question: the outcomes of a queue, what the entries say of an address, the mappings, the numbers of entries and
/// of mappings, and what the accesses of a job reached.
pub fn question(alloc: Global, vm: &Vm, line: &str) -> Result<Option<String>, Fail> {
    let (word, number) = line.split_once(' ').unwrap_or((line, ""));
    let number = number_of(number);
    match word {
        "told" => told(alloc, vm, number),
        "past" => past(alloc, vm, number),
        "list" => list(alloc, vm),
        "held" => held(alloc, vm),
        "places" => places(alloc, vm, number),
        _ => Ok(None),
    }
}

fn told(alloc: Global, vm: &Vm, queue: u64) -> Result<Option<String>, Fail> {
    if queue >= QUEUES as u64 {
        return Ok(None);
    }
    let (from, next, outcomes) = (vm.told_from(queue), vm.told_next(queue), vm.told(queue));
    Ok(Some(format!(in alloc; "{from} to {next}: {outcomes:?}")?))
}

fn past(alloc: Global, vm: &Vm, addr: u64) -> Result<Option<String>, Fail> {
    let items = vm.past(alloc, addr)?;
    let under = vm.base_at(addr);
    Ok(Some(format!(in alloc; "{items:?} over {under:?}")?))
}

/// More places are told as one, and how often it comes.
const FEW: usize = 3;

/// A reply as text.
pub fn text_of(alloc: Global, reply: &Reply) -> Result<String, Fail> {
    match reply {
        Reply::Begun { job, places } if places.len() > FEW => many_begun(alloc, *job, places),
        _ => Ok(format!(in alloc; "{reply:?}")?),
    }
}

/// A job that was begun at many places, all of which are the first one.
fn many_begun(alloc: Global, job: u64, places: &[Place]) -> Result<String, Fail> {
    let (count, first) = (places.len(), places.first());
    if places.iter().any(|place| Some(place) != first) {
        return Err("places".into());
    }
    Ok(format!(in alloc; "Begun {job} at {count} of {first:?}")?)
}

fn list(alloc: Global, vm: &Vm) -> Result<Option<String>, Fail> {
    let list = vm.space().list();
    let mut text = format!(in alloc; "{}", list.len())?;
    for packed in list.iter() {
        let mapping = packed.mapping();
        write!(&mut text, "; {mapping:?}")?;
    }
    Ok(Some(text))
}

fn places(alloc: Global, vm: &Vm, job: u64) -> Result<Option<String>, Fail> {
    let places = vm.job_places(job);
    Ok(Some(format!(in alloc; "{places:?}")?))
}

fn held(alloc: Global, vm: &Vm) -> Result<Option<String>, Fail> {
    let (items, mappings) = (vm.items().len(), vm.space().list().len());
    Ok(Some(format!(in alloc; "{items} entries, {mappings} mappings")?))
}
