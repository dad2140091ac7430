//! Two children of a parent that may become one.
ghost use Rattle.hb_activity.specs.OneFit.{FitsFile-prop};
ghost use Rattle.hb_layout.specs.Limits.{IsLayout};
ghost use Rattle.hb_ops.specs.Sound.{FitsFile};

use hb_frag::LivePage;
use hb_layout::Meta;

/// The numbers of the parent, the page to keep and the page to go, the three pages, and what the file says of itself. The
/// layout is legal, and the pages fit it.
#[derive(Clone, Copy, Debug)]
pub(crate) struct Pair<'a> {
    pub(crate) parent: u32,
    pub(crate) keep: u32,
    pub(crate) gone: u32,
    pub(crate) above: &'a LivePage,
    pub(crate) kept: &'a LivePage,
    pub(crate) page: &'a LivePage,
    pub(crate) meta: &'a Meta,
    ghost layout: { IsLayout meta.now },
    ghost above_fits: { FitsFile meta.now above.now } by { FitsFile-prop meta.now above.now },
    ghost kept_fits: { FitsFile meta.now kept.now } by { FitsFile-prop meta.now kept.now },
    ghost page_fits: { FitsFile meta.now page.now } by { FitsFile-prop meta.now page.now },
}
