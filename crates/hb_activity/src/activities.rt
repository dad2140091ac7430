use crate::Job;
use hb_set::{Line, Reply};
use hb_space::{Areas, Records};

/// Where an actor stands between two steps. `held`, `source`, `fresh` and `parent` are pages that it
/// has latched. `child`, `keep` and `gone` are pages that it knows from the parent; `keep` is
/// latched too, where the activity says so.
#[derive(Debug, Default, Drop)]
pub enum Activity {
    /// A session without a command.
    SessionIdle,
    /// It goes to the page that directly holds the point of its command. `held` is the page that
    /// it holds, if any; of a search, `rest` are the boxes that remain, of which the last is next,
    /// and `found` the records so far.
    SessionWalk {
        line: Line,
        held: Option<u32>,
        rest: Areas,
        found: Records,
    },
    /// It parts the full page `held`.
    SessionSplit {
        line: Line,
        held: u32,
    },
    /// It puts its record into the page `source`, or into the part `fresh` that left it.
    SessionPut {
        line: Line,
        source: u32,
        fresh: u32,
    },
    /// It waits until `place` of the order is on the disk, and answers then.
    SessionAwait {
        line: u32,
        reply: Reply,
        place: u32,
    },
    /// A poster without a job.
    PosterIdle,
    /// It gives the file one more level.
    PosterGrow {
        job: Job,
    },
    /// It goes to the page of the job's level that directly holds the job's point.
    PosterWalk {
        job: Job,
        held: Option<u32>,
    },
    /// It looks into the child at the job's point.
    PosterChild {
        job: Job,
        parent: u32,
    },
    /// It makes its latch on the parent exclusive.
    PosterPromote {
        job: Job,
        parent: u32,
    },
    /// It looks into the child again, and posts.
    PosterAgain {
        job: Job,
        parent: u32,
    },
    /// A consolidator without a job.
    ConsolidatorIdle,
    /// It goes to the page of the job's level that directly holds the job's point.
    ConsolidatorWalk {
        job: Job,
        held: Option<u32>,
    },
    /// It looks for two children that may become one.
    ConsolidatorScan {
        job: Job,
        parent: u32,
        child: u32,
    },
    /// It looks whether `gone` may go into `keep`, a page that is latched. `leaf` is the place of the
    /// sibling leaf that names `gone` among all leaves of `keep`, from the left and counted from 0.
    ConsolidatorTry {
        job: Job,
        parent: u32,
        keep: u32,
        gone: u32,
        leaf: u32,
    },
    /// It makes its latch on the parent exclusive.
    ConsolidatorPromote {
        job: Job,
        parent: u32,
        keep: u32,
        gone: u32,
    },
    /// It takes the page that stays.
    ConsolidatorKeep {
        job: Job,
        parent: u32,
        keep: u32,
        gone: u32,
    },
    /// It takes the page that goes, and merges the two if they still may be. `keep` is latched.
    ConsolidatorDecide {
        job: Job,
        parent: u32,
        keep: u32,
        gone: u32,
    },
    /// The flusher, which has no state.
    #[default]
    Flusher,
}
