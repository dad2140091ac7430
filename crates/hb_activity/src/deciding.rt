ghost use Rattle.std.specs.Prelude.{◌≡◌, [], ◌∷◌, Some, None};

use crate::{Activity, Job, JobKind};
use arrayvec::ArrayVec;
use hb_ops::Op;
use hb_set::Reply;
use hb_space::Point;

/// What a step comes to for the line that a session has in hand.
#[derive(Debug, Drop)]
pub enum Fate {
    /// The actor goes on: no line takes effect, and none is answered.
    GoesOn,
    /// The line takes effect, and its reply is the one that the session keeps from then on.
    TakesEffect,
    /// The line is answered now, outside of the order.
    Answers(Reply),
}

/// What a decider answers: what one row of the step table makes of its actor.
#[derive(Debug, Drop)]
pub struct Next {
    /// Where the actor stands afterwards. The place of a session that awaits it is 0 here: who knows the
    /// order's length puts it there.
    pub then: Activity,
    /// The operation that the step does on the file, where it does one.
    pub op: Option<Op>,
    /// The jobs that join those that wait, one after the other.
    pub jobs: ArrayVec<Job, 2>,
    /// What becomes of the line in hand.
    pub fate: Fate,
}

impl Next {
    ghost use Rattle.hb_activity.specs.declared.deciding.Fate.TheVariants.{GoesOn, TakesEffect, Answers};
    ghost use Rattle.hb_activity.specs.Deciding.{NextIs};

    /// The actor stands elsewhere, and does nothing else.
    pub fn moves(then: Activity) -> Next
        ensures { NextIs result then None [] GoesOn }
    {
        Next {
            then,
            op: None,
            jobs: ArrayVec::new(),
            fate: Fate::GoesOn,
        }
    }

    /// The actor stands elsewhere, and a job joins those that wait.
    pub fn adds(then: Activity, job: Job) -> Next
        ensures { NextIs result then None (job ∷ []) GoesOn }
    {
        let mut next = Next::moves(then);
        next.jobs.push(job);
        next
    }

    /// The actor does an operation, and a job joins those that wait.
    pub fn does(then: Activity, op: Op, job: Job) -> Next
        ensures { NextIs result then (Some op) (job ∷ []) GoesOn }
    {
        let mut next = Next::adds(then, job);
        next.op = Some(op);
        next
    }

    /// The actor does an operation, and two jobs join those that wait, one after the other.
    pub fn does_for_both(then: Activity, op: Op, first: Job, second: Job) -> Next
        ensures { NextIs result then (Some op) (first ∷ second ∷ []) GoesOn }
    {
        let mut next = Next::does(then, op, first);
        next.jobs.push(second);
        next
    }

    /// The line in hand takes effect with this reply, which is kept, and the operation is done, where
    /// there is one.
    pub fn takes_effect(line: u32, reply: Reply, op: Option<Op>) -> Next
        ensures { NextIs result (Activity.SessionAwait line reply 0) op [] TakesEffect }
    {
        Next {
            then: Activity::SessionAwait {
                line,
                reply,
                place: 0,
            },
            op,
            jobs: ArrayVec::new(),
            fate: Fate::TakesEffect,
        }
    }

    /// The line in hand is answered now.
    pub fn answers(reply: Reply) -> Next
        ensures { NextIs result Activity.SessionIdle None [] (Answers reply) }
    {
        Next {
            then: Activity::SessionIdle,
            op: None,
            jobs: ArrayVec::new(),
            fate: Fate::Answers(reply),
        }
    }
}

impl Default for Job {
    /// A job that nobody takes, of level 0: a stand-in until a job comes.
    fn default() -> Job
        ensures { result ≡ record { kind = JobKind.Post; level = 0; point = 0 ∷ [] } }
    {
        Job {
            kind: JobKind::Post,
            level: 0,
            point: Point::new(&[0]),
        }
    }
}
