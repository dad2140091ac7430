//! A file gets a level.

ghost use Rattle.std.specs.Prelude.{◌≡◌, ◌<◌, ◌≤◌, ◌↔◌, [], ◌∷◌, IsTrue};
ghost use Rattle.hb_frag.specs.declared.pages.Page.TheVariants.{Live};
ghost use Rattle.hb_layout.specs.declared.limits.TheConstants.{HEIGHT_MAX as HIGHEST};
ghost use Rattle.hb_ops.specs.Allocating.{FitsGrow, new_root, raised};

use crate::Meta;
use crate::allocations::allocates;
use hb_frag::{Frag, Leaf, LivePage};
use hb_layout::limits::HEIGHT_MAX;
use hb_space::Area;
use hb_space::form::KMAX;

/// Whether the file may get a level, whose page takes the number.
pub(crate) fn may_grow(meta: &Meta, fresh: u32, free_after: u32) -> bool
    ensures { IsTrue result ↔ FitsGrow meta.now fresh free_after }
{
    meta.height < HEIGHT_MAX && allocates(meta, fresh, free_after)
}

/// The new root.
pub(crate) fn new_root(meta: &Meta) -> LivePage
    requires some { 1 ≤ meta.now.k }
    requires few { meta.now.k ≤ KMAX }
    ensures { result ≡ new_root meta.now }
{
    LivePage {
        level: meta.height,
        area: Area::whole(meta.k),
        frag: Frag::tip(Leaf::Child(meta.root)),
    }
}

/// What the file says of itself, with another root and one level more.
pub(crate) fn raised(meta: &Meta, root: u32) -> Meta
    requires { meta.now.height < HIGHEST }
    ensures { result ≡ raised meta.now root }
{
    Meta {
        root,
        height: meta.height + 1,
        ..*meta
    }
}
