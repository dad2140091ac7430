//! What a step reads of the file, whatever its actor does.
ghost use Rattle.hb_activity.specs.OneFit.{FitsFile-prop};
ghost use Rattle.hb_layout.specs.Limits.{IsLayout};
ghost use Rattle.hb_ops.specs.Sound.{FitsFile};

use hb_frag::LivePage;
use hb_layout::Meta;

/// The page in use that a step has latched, under its number, and what the file says of itself. The layout is legal, and the
/// page fits it.
#[derive(Clone, Copy, Debug)]
pub struct Latched<'a> {
    pub id: u32,
    pub page: &'a LivePage,
    pub meta: &'a Meta,
    ghost layout: { IsLayout meta.now },
    ghost fits: { FitsFile meta.now page.now } by { FitsFile-prop meta.now page.now },
}
