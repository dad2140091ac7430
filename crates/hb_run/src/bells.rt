//! The bells by which threads that wait are woken.
ghost use Rattle.std.specs.Prelude.{◌≡◌, ◌≢◌, ◌<◌, ℕ, true, IfOk, Some, vec_len};
ghost use Rattle.std.specs.List.{slice_get};
ghost use Rattle.hb_run.specs.Ringing.{RingsFor};
ghost use Rattle.hb_run.specs.declared.ringing.TheConstants.{BELLS};

use crate::ringing::{ANY, BELLS, bell_of, is_rung};
use crate::turns::{News, Pause};
use hb_space::NoMemory;
use std::alloc::Global;
use std::sync::Condvar;

/// Which bells were rung. A place is marked by ringing the bell there, and by nothing else.
#[derive(Drop)]
pub(crate) struct Rung {
    places: [bool; BELLS],
}

/// A bell for each thing that an actor waits for, all beside the one lock, at the places that `bell_of` says.
#[derive(Drop)]
pub(crate) struct Bells {
    bells: Vec<Condvar>,
    ghost all: { vec_len bells ≡ BELLS },
}

impl Bells {
    /// The bells of a run.
    pub(crate) fn new(alloc: Global) -> Result<Bells, NoMemory> {
        let bells = silent(alloc)?;
        Ok(Bells { bells })
    }

    /// The bell of what is waited for. Behind nobody there is none.
    pub(crate) fn of(&self, pause: &Pause) -> Option<&Condvar> {
        let place = bell_of(pause)?;
        self.bells.get(place)
    }

    /// The bell of a thread that does several actors' turns.
    pub(crate) fn any(&self) -> &Condvar {
        &self.bells[ANY]
    }

    /// Rings for all that a turn brought: each bell that `is_rung` names. A bell for which nobody waits costs no call of the system.
    pub(crate) fn ring(&self, news: News) -> Rung
        ensures { RingsFor news result.places }
    {
        let mut rung = Rung {
            places: [false; BELLS],
        };
        for place in 0..BELLS {
            if is_rung(&news, place) {
                self.ring_one(place, &mut rung);
            }
        }
        forget(news);
        rung
    }

    /// Rings the bell of a place.
    fn ring_one(&self, place: usize, rung: &mut Rung)
        requires { place < BELLS }
        ensures here { slice_get rung.new.places place ≡ Some true }
        ensures others { (other : ℕ) → other ≢ place → slice_get rung.new.places other ≡ slice_get rung.old.places other }
    {
        self.bells[place].notify_all();
        rung.places[place] = true;
    }
}

/// So many bells, for which nobody waits.
fn silent(alloc: Global) -> Result<Vec<Condvar>, NoMemory>
    ensures { IfOk result (λ bells. vec_len bells ≡ BELLS) }
{
    let mut bells = Vec::with_capacity(alloc, BELLS)?;
    for _ in 0..BELLS {
        bells.push(Condvar::new())?;
    }
    Ok(bells)
}

/// News for which was rung.
fn forget(news: News) {
    let News {
        place: _,
        moved: _,
        stopped: _,
        posts: _,
        merges: _,
        flushes: _,
        settles: _,
    } = news;
}
