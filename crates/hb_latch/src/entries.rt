ghost use Rattle.std.specs.Prelude.{◌≡◌, ◌≢◌, ◌↔◌};

use crate::Mode;
use hb_space::Actor;
use std::cmp::Ordering;

/// A latch that is held.
#[derive(Clone, Copy, Debug, Default)]
pub(crate) struct Held {
    pub(crate) actor: Actor,
    pub(crate) page: u32,
    pub(crate) mode: Mode,
}

impl Held {
    ghost use Rattle.hb_latch.specs.Entries.{key_of, conflicts};
    ghost use Rattle.hb_latch.specs.Tables.{latch_cmp};

    // Where it stands to the latch of the actor on the page, in the order by actor and then by page.
    pub(crate) fn compare(&self, actor: Actor, page: u32) -> Ordering
        ensures { result ≡ latch_cmp (key_of self.now) (actor, page) }
    {
        self.actor.cmp(&actor).then(self.page.cmp(&page))
    }

    // Whether it is another actor's, and keeps the actor from the page in the mode.
    pub(crate) fn conflicts(&self, actor: Actor, page: u32, mode: Mode) -> bool
        ensures { result ≡ conflicts actor page mode self.now }
    {
        self.page == page && self.actor != actor && !mode.goes_beside(self.mode)
    }
}
