//! The jobs that wait.
//!
//! A removal doesn't give a set's room back, so none is taken out alone: a job that is taken is moved to the
//! front, and is moved last when it comes again. Where the set is full, more than half of its jobs were taken,
//! and all their room comes back at once.

ghost use Rattle.std.specs.Prelude.{◌≡◌, ◌≢◌, ◌+◌, ◌-◌, ◌*◌, ◌<◌, ◌≤◌, ◌⊎◌, ◌↔◌, [], ◌∷◌, ◌++◌, length, drop, false, count_by, position, None, All, IfOk, IfNone, IfSome, IsTrue};
ghost use Rattle.std.specs.List.{Contains};
ghost use Rattle.std.specs.Bool.{OnFalse};
ghost use Rattle.indexmap.specs.IndexSet.{index_set_len, spare};
ghost use Rattle.hb_activity.specs.Queue.{is_of, AreQueued, LeavesFirst};

use crate::{Job, JobKind};
use hb_space::NoMemory;
use indexmap::IndexSet;
use std::alloc::Global;
use std::marker::Model;

/// How many jobs may wait.
pub const JOBS: usize = 256;

/// For how many jobs the set has room: as many again as may wait.
pub const ROOM: usize = 512;

/// The jobs that wait, of both kinds, in the order in which they came.
#[derive(Debug, Drop)]
pub struct Jobs {
    // behind those that were taken, the jobs that wait
    jobs: IndexSet<Job>,
    // how many were taken
    taken: usize,
}

impl Model for Jobs {
    ghost use Rattle.std.specs.Prelude.{List, drop};
    ghost use Rattle.indexmap.specs.IndexSet.{spare};
    ghost use Rattle.hb_activity.specs.declared.jobs.Job.{Job};
    ghost use Rattle.hb_activity.specs.Queue.{JobsKeep};

    ghost Value = { List Job };

    ghost view = { λ q. drop q.taken q.jobs.keys };

    ghost invariant = { λ q. JobsKeep q.jobs.keys q.taken (spare q.jobs) };
}

impl Jobs {
    /// No job waits. The room for all that may wait is taken here, so no other call takes memory.
    pub fn new(alloc: Global) -> Result<Jobs, NoMemory>
        ensures { IfOk result (λ jobs. jobs ≡ []) }
    {
        Ok(Jobs {
            jobs: IndexSet::with_capacity(alloc, ROOM)?,
            taken: 0,
        })
    }

    /// The jobs, the oldest first.
    pub fn as_slice(&self) -> &[Job]
        ensures value { result.now ≡ self.now }
        ensures queued { AreQueued self.now }
    {
        let jobs = self.jobs.as_slice();
        &jobs[self.taken..]
    }

    /// Lets the job wait behind the others. Where it waits already, nothing changes. `false`, and
    /// nothing changes, where `JOBS` others wait: then it is dropped.
    pub fn add(&mut self, job: Job) -> bool
        ensures waits { IsTrue result ↔ (Contains self.old job ⊎ (length self.old < JOBS)) }
        ensures there { Contains self.old job → self.new ≡ self.old }
        ensures joins { ¬ (Contains self.old job) → length self.old < JOBS →
            self.new ≡ self.old ++ job ∷ [] }
        ensures dropped { OnFalse result (self.new ≡ self.old) }
        ensures queued { AreQueued self.new }
    {
        if is_waiting(&self.jobs, self.taken, &job) {
            return true;
        }
        if JOBS <= self.as_slice().len() {
            return false;
        }
        self.taken = put_last(&mut self.jobs, self.taken, job);
        true
    }

    /// Takes out the oldest job of the kind. `None` where there is none.
    pub fn take(&mut self, kind: JobKind) -> Option<Job>
        ensures taken { IfSome result (λ job. LeavesFirst kind self.old job self.new) }
        ensures none { (result ≡ None) ↔ All (λ job. job.kind ≢ kind) self.old }
        ensures same { IfNone result (self.new ≡ self.old) }
        ensures queued { AreQueued self.new }
    {
        let place = first_of(self.as_slice(), kind)?;
        let job = self.as_slice()[place].copy();
        // the length is what says that the sums fit
        let _count = self.jobs.len();
        self.jobs.move_index(self.taken + place, self.taken);
        self.taken += 1;
        Some(job)
    }

    /// How many jobs of the kind wait.
    pub fn count(&self, kind: JobKind) -> usize
        ensures { result ≡ count_by (is_of kind) self.now }
    {
        self.as_slice().iter().filter(|job| job.is_of(kind)).count()
    }
}

// Whether the job is among those behind the ones that were taken.
fn is_waiting(jobs: &IndexSet<Job>, taken: usize, job: &Job) -> bool
    ensures { IsTrue result ↔ Contains (drop taken jobs.now.keys) job.now }
{
    // the length is what says that no job stands twice
    let _count = jobs.len();
    match jobs.get_index_of(job) {
        Some(place) => taken <= place,
        None => false,
    }
}

// Where the oldest job of the kind stands.
fn first_of(jobs: &[Job], kind: JobKind) -> Option<usize>
    ensures { result ≡ position (is_of kind) jobs.now }
{
    jobs.iter().position(|job| job.is_of(kind))
}

// The job waits behind the others. Answers how many were taken that are in front still.
fn put_last(jobs: &mut IndexSet<Job>, taken: usize, job: Job) -> usize
    requires within { taken ≤ index_set_len jobs.old }
    requires absent { ¬ (Contains (drop taken jobs.old.keys) job) }
    requires few { index_set_len jobs.old - taken < JOBS }
    requires room { ROOM ≤ index_set_len jobs.old + spare jobs.old }
    ensures within { result ≤ index_set_len jobs.new }
    ensures jobs { drop result jobs.new.keys ≡ drop taken jobs.old.keys ++ job ∷ [] }
    ensures room { ROOM ≤ index_set_len jobs.new + spare jobs.new }
{
    if let Some(place) = jobs.get_index_of(&job) {
        let last = jobs.len() - 1;
        jobs.move_index(place, last);
        return taken - 1;
    }
    let taken = make_room(jobs, taken);
    insert_new(jobs, job);
    taken
}

// Where there is no room the jobs in front, which were taken, make some. Answers how many are in front then.
fn make_room(jobs: &mut IndexSet<Job>, taken: usize) -> usize
    requires within { taken ≤ index_set_len jobs.old }
    requires few { index_set_len jobs.old - taken < JOBS }
    requires room { ROOM ≤ index_set_len jobs.old + spare jobs.old }
    ensures fewer { result ≤ taken }
    ensures jobs { jobs.new.keys ≡ drop (taken - result) jobs.old.keys }
    ensures space { 0 < spare jobs.new }
    ensures room { ROOM ≤ index_set_len jobs.new + spare jobs.new }
{
    if jobs.len() < ROOM {
        return taken;
    }
    forget(jobs, taken);
    0
}

// Takes out the jobs in front, at least half of all, so that their room is there again.
fn forget(jobs: &mut IndexSet<Job>, taken: usize)
    requires within { taken ≤ index_set_len jobs.old }
    requires half { 2 * (index_set_len jobs.old - taken) ≤ index_set_len jobs.old }
    ensures jobs { jobs.new.keys ≡ drop taken jobs.old.keys }
    ensures room { index_set_len jobs.old + spare jobs.old ≤ index_set_len jobs.new + spare jobs.new }
{
    for _job in jobs.drain(..taken) {}
}

// A new job stands last.
fn insert_new(jobs: &mut IndexSet<Job>, job: Job)
    requires absent { ¬ (Contains jobs.old.keys job) }
    requires room { 0 < spare jobs.old }
    ensures jobs { jobs.new.keys ≡ jobs.old.keys ++ job ∷ [] }
    ensures room { spare jobs.old ≤ spare jobs.new + 1 }
{
    jobs.insert(job).unwrap();
}
