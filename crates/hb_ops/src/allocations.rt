//! A page number is taken for a page that is made.

ghost use Rattle.std.specs.Prelude.{◌≡◌, ◌↔◌, IsTrue};
ghost use Rattle.hb_ops.specs.Allocating.{Allocates, allocated};

use crate::Meta;

/// Whether the number may be taken, with this free head afterwards.
pub(crate) fn allocates(meta: &Meta, fresh: u32, free_after: u32) -> bool
    ensures { IsTrue result ↔ Allocates meta.now fresh free_after }
{
    if meta.pages <= meta.live {
        false
    } else if meta.free == 0 {
        u64::from(fresh) == u64::from(meta.high) + 1 && fresh <= meta.pages && free_after == 0
    } else {
        fresh == meta.free && fresh <= meta.high
    }
}

/// What the file says of itself once it is taken.
pub(crate) fn allocated(meta: &Meta, fresh: u32, free_after: u32) -> Meta
    requires { Allocates meta.now fresh free_after }
    ensures { result ≡ allocated meta.now fresh free_after }
{
    Meta {
        high: meta.high.max(fresh),
        live: meta.live + 1,
        free: free_after,
        ..*meta
    }
}
