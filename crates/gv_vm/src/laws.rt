//! Laws of worlds, each proved once for all callers.
ghost use Rattle.gv_vm.specs.Laws.{StepIsAFunction, WantOfMemoryIsNoStep, HeadlineGoesOn, RequestsStayInOrder, WhatIsToldWasPut, WaitsAreReachedFirst, NoTimelineFalls, TimelinesFollowRaises, JobsKeepTheirPlaces};

/// What each step has: the same event in the same world gets the same reply, unless it is out of memory: then the world goes on
/// as if it had not been asked.
pub fn steps()
    ensures function { StepIsAFunction }
    ensures wanting { WantOfMemoryIsNoStep }
    ensures headline { HeadlineGoesOn }
{}

/// What a queue has after any run of a new world: outcomes are in the order in which requests were put, one for each, and only
/// accepted ones are signalled.
pub fn queues()
    ensures order { RequestsStayInOrder }
    ensures told { WhatIsToldWasPut }
    ensures waits { WaitsAreReachedFirst }
{}

/// What the timelines have after any run.
pub fn timelines()
    ensures rise { NoTimelineFalls }
    ensures raises { TimelinesFollowRaises }
{
    gv_sync::laws::raises();
}

/// What a running job has after any run.
pub fn jobs()
    ensures { JobsKeepTheirPlaces }
{}
