//! Why a map isn't whole.
ghost use Rattle.std.specs.Prelude.{◌≡◌, ◌≢◌};
ghost use Rattle.hb_map.specs.Mapping.{map_stop_of};
ghost use Rattle.hb_store.specs.declared.stops.FetchStop.TheVariants.{Crowded};

use hb_outside::Failed;
use hb_space::NoMemory;
use hb_store::{FetchStop, Why};

/// Why a map isn't whole.
#[derive(Debug, Drop)]
pub enum MapStop {
    /// The sink failed.
    SinkFault,
    /// The disk failed to read.
    ReadFault,
    /// The page of this number isn't one that the file may have there.
    Damaged { page: u32, why: Why },
    /// Memory was refused.
    NoMemory,
}

impl From<Failed> for MapStop {
    ghost use Rattle.std.specs.Prelude.{◌≡◌};
    ghost use Rattle.hb_map.specs.declared.stops.MapStop.TheVariants.{SinkFault as Broken};

    ghost from_gives = { λ _ stop. stop ≡ Broken };

    fn from(_: Failed) -> MapStop {
        MapStop::SinkFault
    }
}

impl From<NoMemory> for MapStop {
    ghost use Rattle.std.specs.Prelude.{◌≡◌};
    ghost use Rattle.hb_map.specs.declared.stops.MapStop.TheVariants.{NoMemory as Refused};

    ghost from_gives = { λ _ stop. stop ≡ Refused };

    fn from(_: NoMemory) -> MapStop {
        MapStop::NoMemory
    }
}

/// Why a map isn't whole where a page wasn't fetched, for which there was a place.
pub(crate) fn stop_of(stop: FetchStop) -> MapStop
    requires { stop ≢ Crowded }
    ensures { result ≡ map_stop_of stop }
{
    match stop {
        FetchStop::Damaged { page, why } => MapStop::Damaged { page, why },
        FetchStop::ReadFault => MapStop::ReadFault,
        FetchStop::Crowded => unreachable!(),
    }
}
