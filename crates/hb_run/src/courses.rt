//! A run so far, and its next step.
ghost use Rattle.std.specs.Prelude.{◌≡◌, ◌≢◌, ◌⊎◌, ◌≤◌, ℕ, ◌+◌, ◌-◌, ◌==◌, ◌||◌, ◌&&◌, nat_lt, not, true, false, Some, None, is_some, length, vec_len, vec_capacity};
ghost use Rattle.std.specs.List.{slice_get};
ghost use Rattle.hb_core.specs.CoreSeen.{core_seen, core_disk};
ghost use Rattle.hb_steps.specs.declared.outcomes.Outcome.{Outcome};
ghost use Rattle.hb_steps.specs.Performing.{given_by};
ghost use Rattle.hb_steps.specs.ProgressLaws.{worker_for};
ghost use Rattle.hb_core.specs.Relied.{MayTakeSteps};
ghost use Rattle.hb_space.specs.declared.actors.TheConstants.{FLUSHER, SESSIONS};
ghost use Rattle.hb_run.specs.Courses.{ShowsLeft, TakesTurn};
ghost use Rattle.hb_run.specs.declared.turns.Turn.TheVariants as turns;
ghost use Rattle.hb_run.specs.Ringing.{IsNews, WakesAll};
ghost use Rattle.hb_run.specs.Turning.{CountsMove, is_done, is_due, is_more, jobs_left, round_of, settled_of, turn_of};
ghost use Rattle.hb_run.specs.GoingOn.{GoesWell, HasNoLineLeft, Rests, Steps, may_flush};
ghost use Rattle.hb_run.specs.Waiting.{NotesNext, anyone_comes, comes, is_so, signs_of, still_waits};

use crate::rosters::Roster;
use crate::seats::Seat;
use crate::turns::{News, Next, Pause, Turn, turn_of};
use hb_activity::JobKind;
use hb_core::run_laws::runs_go_on;
use hb_core::{Core, Outcome};
use hb_disk::Disk;
use hb_drive::take_answer;
use hb_outside::{Failed, Sink};
use hb_set::Answered;
use hb_space::Actor;
use hb_space::actors::{CONSOLIDATOR, FLUSHER, POSTER};

/// So many turns are a round.
const ROUND: u64 = 256;

/// How far a run is: how many places of its order are settled, and how many rounds of turns were taken.
#[derive(Drop)]
struct Mark {
    settled: u32,
    round: u64,
}

/// A run so far.
#[derive(Drop)]
pub struct Course<D: Disk, K: Sink> {
    pub(crate) core: Core<D>,
    pub(crate) sink: K,
    /// Whether a put failed. Nothing more is put then.
    pub(crate) put: Result<(), Failed>,
    /// The answered lines, in the sequence of answering. There is room for all.
    pub(crate) answered: Vec<Answered>,
    /// How many lines have no answer.
    pub(crate) left: usize,
    pub(crate) roster: Roster,
    ghost shows: { ∥ ShowsLeft (D.model (core_disk core)) (core_seen core) left ∥₁ },
    ghost room: { vec_len answered + left ≤ vec_capacity answered },
}

impl<D: Disk, K: Sink> Course<D, K> {
    ghost use Rattle.hb_run.specs.CourseSeen.{course_seen};

    /// What an actor does under one hold of the lock: one step of the core, or none where who flushes has nothing to do. It tells what the
    /// actor does then, and who else has to look again.
    pub(crate) fn take_turn(&mut self, seat: &Seat) -> (Next, News)
        requires { MayTakeSteps (D.model (core_disk self.old.core)) (core_seen self.old.core) }
        ensures turn { ((self.new ≡ self.old) × Rests seat.now.actor self.old.roster.free self.old.roster.moves (course_seen D.model K.model self.old) result.0)
            ⊎ Steps seat.now.actor self.old.roster.free self.new.roster.moves (course_seen D.model K.model self.old) (course_seen D.model K.model self.new) result.0 }
        ensures notes { ((self.new ≡ self.old) × (seat.now.actor ≡ FLUSHER)) ⊎ NotesNext (seat.now.actor - 1) result.0 self.old.roster.nexts self.new.roster.nexts }
        ensures coming { (self.new ≡ self.old) ⊎ (self.new.roster.coming ≡ anyone_comes self.new.roster.nexts self.new.roster.moves (course_seen D.model K.model self.new)) }
        ensures free { self.new.roster.free ≡ self.old.roster.free }
        ensures wakes { WakesAll result.1 (signs_of self.old.roster.moves self.old.roster.coming (course_seen D.model K.model self.old)) (signs_of self.new.roster.moves self.new.roster.coming (course_seen D.model K.model self.new)) }
    {
        let before = self.mark();
        if seat.actor == FLUSHER && !self.may_flush() {
            let next = self.rest();
            let news = self.news(seat, false, &before);
            return (next, news);
        }
        let effects = self.core.order().len();
        let turn = self.turn(seat);
        let next = self.next(seat, &turn, effects);
        self.roster.note(seat, next);
        self.roster.coming = self.anyone_comes();
        let news = self.news(seat, is_move(&turn), &before);
        (next, news)
    }

    /// One step of the core. The answer that it gives is kept with the clock after it, and its lines are put unless a put failed before.
    /// A session that finds nothing to do has no line left.
    pub(crate) fn turn(&mut self, seat: &Seat) -> Turn
        requires { MayTakeSteps (D.model (core_disk self.old.core)) (core_seen self.old.core) }
        ensures turn { (outcome : Outcome) × TakesTurn seat.now.actor outcome (course_seen D.model K.model self.old) (course_seen D.model K.model self.new) × (result ≡ turn_of outcome) }
        ensures idle { result ≡ turns.Idle → seat.now.actor ≤ SESSIONS → HasNoLineLeft seat.now.actor (course_seen D.model K.model self.new) }
        ensures counts { CountsMove (seat.now.actor - 1) (is_more result) self.old.roster.moves self.new.roster.moves }
        ensures nexts { self.new.roster.nexts ≡ self.old.roster.nexts }
        ensures free { self.new.roster.free ≡ self.old.roster.free }
        ensures another { result ≡ turns.More → slice_get self.new.roster.moves (seat.now.actor - 1) ≢ slice_get self.old.roster.moves (seat.now.actor - 1) }
    {
        runs_go_on();
        let outcome = self.core.step(seat.actor);
        let at = self.core.clock();
        let turn = turn_of(&outcome);
        self.left -= answers_of(&outcome);
        self.put = take_answer(&mut self.sink, self.put, outcome, at, &mut self.answered);
        self.roster.count(seat, is_move(&turn));
        turn
    }

    /// What an actor does after its turn, before which so many lines had taken effect.
    fn next(&self, seat: &Seat, turn: &Turn, effects: usize) -> Next
        requires { turn.now ≡ turns.Idle → seat.now.actor ≤ SESSIONS → HasNoLineLeft seat.now.actor (course_seen D.model K.model self.now) }
        ensures { GoesWell seat.now.actor effects self.now.roster.free self.now.roster.moves (course_seen D.model K.model self.now) (Some turn.now) result }
    {
        if self.is_stopped() {
            return Next::Ends;
        }
        match turn {
            Turn::Idle => self.next_of_idle(seat),
            Turn::Blocked { by } => self.next_of_blocked(*by),
            Turn::More => self.next_of_busy(effects),
            Turn::Stopped => Next::Goes,
        }
    }

    /// What an actor does next that found nothing to do. A session ends. A worker waits for a job, and ends where all is done.
    fn next_of_idle(&self, seat: &Seat) -> Next
        requires runs { is_some (core_seen self.now.core).stop ≡ false }
        requires none { seat.now.actor ≤ SESSIONS → HasNoLineLeft seat.now.actor (course_seen D.model K.model self.now) }
        ensures { (effects : ℕ) → GoesWell seat.now.actor effects self.now.roster.free self.now.roster.moves (course_seen D.model K.model self.now) (Some turns.Idle) result }
    {
        match seat.actor {
            POSTER => self.next_of_worker(&JobKind::Post),
            CONSOLIDATOR => self.next_of_worker(&JobKind::Merge),
            FLUSHER => Next::Goes,
            _ => Next::Ends,
        }
    }

    /// What who works off the jobs of the kind does next, without one.
    fn next_of_worker(&self, kind: &JobKind) -> Next
        requires { is_some (core_seen self.now.core).stop ≡ false }
        ensures { (effects : ℕ) → GoesWell (worker_for kind.now) effects self.now.roster.free self.now.roster.moves (course_seen D.model K.model self.now) (Some turns.Idle) result }
    {
        if self.is_done() {
            return Next::Ends;
        }
        if self.jobs_left(kind) == 0 {
            return Next::Waits(Pause::NoJob { kind: *kind });
        }
        Next::Goes
    }

    /// What an actor does next that this one kept back: it waits behind that.
    fn next_of_blocked(&self, by: Actor) -> Next
        requires { is_some (core_seen self.now.core).stop ≡ false }
        ensures { (actor effects : ℕ) → GoesWell actor effects self.now.roster.free self.now.roster.moves (course_seen D.model K.model self.now) (Some (turns.Blocked by)) result }
    {
        let Some(place) = usize::from(by).checked_sub(1) else {
            return Next::Goes;
        };
        match self.roster.moves.get(place) {
            Some(moves) => Next::Waits(Pause::Behind {
                place,
                moves: *moves,
            }),
            None => Next::Goes,
        }
    }

    /// What an actor does next that did something. One whose line took effect in its turn, and isn't settled, lets others come first, so that
    /// one force settles the lines of all; but not where actors may be held between their turns.
    fn next_of_busy(&self, effects: usize) -> Next
        requires { is_some (core_seen self.now.core).stop ≡ false }
        ensures { (actor : ℕ) → GoesWell actor effects self.now.roster.free self.now.roster.moves (course_seen D.model K.model self.now) (Some turns.More) result }
    {
        let pause = Pause::Unsettled {
            place: effects,
            round: self.mark().round,
        };
        if self.roster.free && self.core.order().len() > effects && self.hasnt_come(&pause) {
            return Next::Waits(pause);
        }
        Next::Goes
    }

    /// How far the run is.
    fn mark(&self) -> Mark
        ensures settled { result.settled ≡ settled_of (core_seen self.now.core) }
        ensures round { result.round ≡ round_of (core_seen self.now.core).taken }
    {
        Mark {
            settled: self.core.settled(),
            round: self.core.taken() / ROUND,
        }
    }

    /// Whether a session takes a further turn before something comes.
    fn anyone_comes(&self) -> bool
        ensures { result ≡ anyone_comes self.now.roster.nexts self.now.roster.moves (course_seen D.model K.model self.now) }
    {
        self.roster.nexts.iter().any(|next| self.comes(next))
    }

    /// Whether one who does so next takes a further turn before something comes: it waits for nothing, or what it waited for has come.
    fn comes(&self, next: &Next) -> bool
        ensures { result ≡ comes self.now.roster.moves (course_seen D.model K.model self.now) next.now }
    {
        match next {
            Next::Goes => true,
            Next::Waits(pause) => !self.hasnt_come(pause),
            Next::Ends => false,
        }
    }

    /// Whether it is time to flush, or the core is stopped.
    fn may_flush(&self) -> bool
        ensures { result ≡ may_flush (course_seen D.model K.model self.now) }
    {
        self.is_stopped() || (self.left != 0 && self.core.flush_due())
    }

    /// What who flushes does while it may not.
    fn rest(&self) -> Next
        requires { may_flush (course_seen D.model K.model self.now) ≡ false }
        ensures { (effects : ℕ) → GoesWell FLUSHER effects self.now.roster.free self.now.roster.moves (course_seen D.model K.model self.now) None result }
    {
        if self.left == 0 {
            return Next::Ends;
        }
        Next::Waits(Pause::NotDue)
    }

    /// What a turn of the actor tells, which changed something or not, and before which the run was so far.
    fn news(&self, seat: &Seat, moved: bool, before: &Mark) -> News
        ensures { IsNews (seat.now.actor - 1) moved before.now.settled before.now.round self.now.roster.coming (course_seen D.model K.model self.now) result }
    {
        let now = self.mark();
        let posts = self.jobs_left(&JobKind::Post) != 0;
        let merges = self.jobs_left(&JobKind::Merge) != 0;
        let done = self.left == 0 && !posts && !merges;
        News {
            place: usize::from(seat.actor) - 1,
            moved,
            stopped: self.is_stopped(),
            posts: posts || done,
            merges: merges || done,
            flushes: self.left == 0 || self.core.flush_due(),
            settles: now.settled != before.settled
                || now.round != before.round
                || !self.roster.coming,
        }
    }

    /// Whether what is waited for hasn't come.
    pub(crate) fn still_waits(&self, pause: &Pause) -> bool
        ensures { result ≡ still_waits pause.now (signs_of self.now.roster.moves self.now.roster.coming (course_seen D.model K.model self.now)) }
    {
        self.hasnt_come(pause) && (self.roster.coming || !matches!(pause, Pause::Unsettled { .. }))
    }

    /// The same, but for who lets others come first, as if somebody came.
    fn hasnt_come(&self, pause: &Pause) -> bool
        ensures { result ≡ still_waits pause.now (signs_of self.now.roster.moves true (course_seen D.model K.model self.now)) }
    {
        if self.is_stopped() {
            return false;
        }
        match pause {
            Pause::Behind { place, moves } => self.has_moves(*place, *moves),
            Pause::NoJob { kind } => self.jobs_left(kind) == 0 && !self.is_done(),
            Pause::NotDue => self.left != 0 && !self.core.flush_due(),
            Pause::Unsettled { place, round } => self.is_unsettled(*place, *round),
        }
    }

    /// Whether the place of the order isn't settled, in the same round of turns.
    fn is_unsettled(&self, place: usize, round: u64) -> bool
        ensures { result ≡ (not (nat_lt place (settled_of (core_seen self.now.core))) && (round_of (core_seen self.now.core).taken == round)) }
    {
        let now = self.mark();
        place >= now.settled as usize && now.round == round
    }

    /// Whether the actor of the place has changed something so often.
    fn has_moves(&self, place: usize, moves: u64) -> bool
        ensures { result ≡ is_so moves (slice_get self.now.roster.moves place) }
    {
        match self.roster.moves.get(place) {
            Some(now) => *now == moves,
            None => false,
        }
    }

    /// How many jobs of the kind are left.
    fn jobs_left(&self, kind: &JobKind) -> u32
        ensures { result ≡ jobs_left kind.now (core_seen self.now.core) }
    {
        match kind {
            JobKind::Post => self.core.jobs(JobKind::Post),
            JobKind::Merge => self.core.jobs(JobKind::Merge),
        }
    }

    /// Whether no line is without an answer, and no job of either kind is left.
    fn is_done(&self) -> bool
        ensures { result ≡ is_done (course_seen D.model K.model self.now) }
    {
        self.left == 0
            && self.jobs_left(&JobKind::Post) == 0
            && self.jobs_left(&JobKind::Merge) == 0
    }

    /// Whether nothing is left to do, or the core is stopped.
    pub(crate) fn is_over(&self) -> bool
        ensures { result ≡ (is_some (core_seen self.now.core).stop || is_done (course_seen D.model K.model self.now)) }
    {
        self.is_stopped() || self.is_done()
    }

    /// Whether the core is stopped.
    fn is_stopped(&self) -> bool
        ensures { result ≡ is_some (core_seen self.now.core).stop }
    {
        self.core.stop().is_some()
    }
}

/// Whether something may have changed by a turn.
fn is_move(turn: &Turn) -> bool
    ensures { result ≡ is_more turn.now }
{
    matches!(turn, Turn::More)
}

/// How many answers a step gave.
fn answers_of(outcome: &Outcome) -> usize
    ensures { (at : ℕ) → result ≡ length (given_by outcome.now at) }
{
    match outcome {
        Outcome::Answered { .. } => 1,
        _ => 0,
    }
}
