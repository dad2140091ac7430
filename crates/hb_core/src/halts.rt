//! Why a step comes to no row.
ghost use Rattle.std.specs.Prelude.{◌≡◌, ◌≢◌};
ghost use Rattle.hb_core.specs.declared.halts.Halt.TheVariants as halts;
ghost use Rattle.hb_activity.specs.declared.dropping.DropWhy.TheVariants as drops;
ghost use Rattle.hb_store.specs.declared.stops.FetchStop.TheVariants as fetches;
ghost use Rattle.hb_core.specs.Stopping.{IsHaltOf};

use hb_activity::DropWhy;
use hb_space::NoMemory;
use hb_store::{FetchStop, StopWhy, Why};

/// Why a step that may be done comes to no row.
#[derive(Drop)]
pub(crate) enum Halt {
    /// What the actor has in hand is given up.
    GivesUp(DropWhy),
    /// The core is stopped.
    Stops(StopWhy),
}

impl From<NoMemory> for Halt {
    fn from(_refused: NoMemory) -> Halt
        ensures { result ≡ halts.GivesUp drops.NoMemory }
    {
        Halt::GivesUp(DropWhy::NoMemory)
    }
}

/// What a page that isn't fetched makes of a step that isn't crowded out.
pub(crate) fn halt_of(stop: FetchStop) -> Halt
    requires { stop ≢ fetches.Crowded }
    ensures { IsHaltOf stop result }
{
    match stop {
        FetchStop::Damaged { page, why } => Halt::Stops(StopWhy::Damaged { page, why }),
        FetchStop::ReadFault => Halt::GivesUp(DropWhy::ReadFault),
        FetchStop::Crowded => unreachable!(),
    }
}

/// The same cause once more.
pub(crate) fn copy_of(stop: &StopWhy) -> StopWhy
    ensures { result ≡ stop.now }
{
    match stop {
        StopWhy::WriteFault => StopWhy::WriteFault,
        StopWhy::Damaged { page, why } => StopWhy::Damaged {
            page: *page,
            why: copy_of_why(why),
        },
    }
}

/// The same reason once more.
pub(crate) fn copy_of_why(why: &Why) -> Why
    ensures { result ≡ why.now }
{
    match why {
        Why::Rule(rule) => Why::Rule(*rule),
        Why::Level { asked, found } => Why::Level {
            asked: *asked,
            found: *found,
        },
        Why::Extent { asked, found } => Why::Extent {
            asked: asked.copy(),
            found: found.copy(),
        },
    }
}
