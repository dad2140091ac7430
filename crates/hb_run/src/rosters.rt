//! What a run knows of its actors beside the core.
ghost use Rattle.std.specs.Prelude.{◌≡◌, ◌≢◌, ◌-◌, true, false};
ghost use Rattle.std.specs.List.{slice_get};
ghost use Rattle.hb_run.specs.Turning.{CountsMove};
ghost use Rattle.hb_run.specs.Waiting.{NotesNext};

use crate::seats::Seat;
use crate::turns::Next;
use hb_space::actors::{ACTORS, SESSIONS};

/// What a run knows of its actors.
#[derive(Debug, Drop)]
pub struct Roster {
    /// How often each changed something, actor 1 first; it begins again at 0.
    pub(crate) moves: [u64; ACTORS],
    /// What each session does next, session 1 first.
    pub(crate) nexts: [Next; SESSIONS as usize],
    /// Whether one of these takes a further turn before something comes.
    pub(crate) coming: bool,
    /// Whether nobody is held between two turns.
    pub(crate) free: bool,
}

impl Roster {
    /// Nobody has taken a turn.
    pub(crate) fn new(free: bool) -> Roster
        ensures free { result.free ≡ free }
        ensures coming { result.coming ≡ false }
    {
        Roster {
            moves: [0; ACTORS],
            nexts: [Next::Ends; SESSIONS as usize],
            coming: false,
            free,
        }
    }

    /// Counts that the actor changed something, where it did.
    pub(crate) fn count(&mut self, seat: &Seat, moved: bool)
        ensures counts { CountsMove (seat.now.actor - 1) moved self.old.moves self.new.moves }
        ensures nexts { self.new.nexts ≡ self.old.nexts }
        ensures free { self.new.free ≡ self.old.free }
        ensures another { moved ≡ true → slice_get self.new.moves (seat.now.actor - 1) ≢ slice_get self.old.moves (seat.now.actor - 1) }
    {
        if moved {
            let place = usize::from(seat.actor) - 1;
            self.moves[place] = self.moves[place].wrapping_add(1);
        }
    }

    /// Notes what the actor does next, where it is a session.
    pub(crate) fn note(&mut self, seat: &Seat, next: Next)
        ensures notes { NotesNext (seat.now.actor - 1) next self.old.nexts self.new.nexts }
        ensures moves { self.new.moves ≡ self.old.moves }
        ensures free { self.new.free ≡ self.old.free }
    {
        let place = usize::from(seat.actor) - 1;
        if place < self.nexts.len() {
            self.nexts[place] = next;
        }
    }
}
