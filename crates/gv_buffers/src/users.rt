//! The jobs that use one buffer.
ghost use Rattle.std.specs.Prelude.{◌≡◌, ◌<◌, ◌==◌, ◌&&◌, [], true, IsNone, position};
ghost use Rattle.std.specs.Prelude.{vec_len, vec_capacity};
ghost use Rattle.gv_buffers.specs.Users.{conflict, joined, users_without, HaveNoConflict};
ghost use Rattle.gv_buffers.specs.Ascending.{AreAscending, are_below};

use crate::usage::{Usage, User};
use std::alloc::Global;

/// The jobs that use one buffer, in the order in which they joined it. `Buffers` keeps one for each buffer that jobs use; callers
/// go through it.
#[derive(Drop)]
pub struct Users {
    pub list: Vec<User>,
    // Whether the jobs are known to stand in the order of their numbers. They do while each job that joins has a greater
    // number than all users, as one that begins has. Then no job that joins or leaves goes through all of them.
    pub ascending: bool,
    ghost in_order: { ascending ≡ true → AreAscending list.items },
}

impl Users {
    /// No user. It takes no memory.
    pub fn new(alloc: Global) -> Users
        ensures { result.list.items ≡ [] }
    {
        Users {
            list: Vec::new(alloc),
            ascending: true,
        }
    }

    /// The least job that conflicts with such a use by `job`.
    pub fn conflict(&self, job: u64, usage: Usage) -> Option<u64>
        requires { HaveNoConflict self.now.list.items }
        ensures { result ≡ conflict job usage self.now.list.items }
    {
        // A job that writes is the only user, so where there are several each of them reads. Many jobs may read one buffer,
        // and each that begins comes here: one more reader goes through none of them.
        if self.list.len() > 1 && !usage.is_write() {
            return None;
        }
        self.list
            .iter()
            .filter(|user| user.conflicts(job, usage))
            .map(|user| user.job)
            .min()
    }

    /// Where the job stands among the users.
    pub fn index_of(&self, job: u64) -> Option<usize>
        ensures { result ≡ position (λ user. user.job == job) self.now.list.items }
    {
        // Mostly a job that begins asks.
        if self.is_newest(job) {
            return None;
        }
        if self.ascending {
            return search(&self.list, job);
        }
        self.list.iter().position(|user| user.job == job)
    }

    /// Gives room back that no user needs.
    pub fn shrink(&mut self)
        ensures { self.new.list.items ≡ self.old.list.items }
    {
        self.list.shrink_to_fit();
    }

    /// Adds the job, for which there is room, or makes its usage the stronger one.
    pub fn join(&mut self, job: u64, usage: Usage)
        requires { IsNone (position (λ user. user.job == job) self.old.list.items)
            → vec_len self.old.list < vec_capacity self.old.list }
        ensures { self.new.list.items ≡ joined job usage self.old.list.items }
    {
        match self.index_of(job) {
            Some(index) => self.list[index].usage = self.list[index].usage.stronger(usage),
            None => {
                self.ascending = self.is_newest(job);
                self.list.push_reserved(User { job, usage });
            }
        }
    }

    /// Removes the job.
    pub fn leave(&mut self, job: u64)
        ensures without { self.new.list.items ≡ users_without job self.old.list.items }
        ensures in_order_again { self.new.list.items ≡ [] → self.new.ascending ≡ true }
    {
        if !self.ascending {
            self.list.retain(|user| user.job != job);
            self.ascending = self.list.is_empty();
            return;
        }
        // The others are moved in one block, and none is looked at.
        if let Some(index) = search(&self.list, job) {
            self.list.remove(index);
        }
    }

    // Whether the users are known to ascend, and the job has a greater number than each of them.
    fn is_newest(&self, job: u64) -> bool
        ensures { result ≡ (self.now.ascending && are_below job self.now.list.items) }
    {
        if !self.ascending {
            return false;
        }
        match self.list.last() {
            Some(last) => last.job < job,
            None => true,
        }
    }
}

/// Where the job stands among users that ascend.
fn search(users: &[User], job: u64) -> Option<usize>
    requires { AreAscending users.now }
    ensures { result ≡ position (λ user. user.job == job) users.now }
{
    match users.binary_search_by_key(&job, |user| user.job) {
        Ok(index) => Some(index),
        Err(_) => None,
    }
}
