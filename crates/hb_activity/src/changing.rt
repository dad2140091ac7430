ghost use Rattle.std.specs.Prelude.{◌≡◌, IfSome, IsSome};
ghost use Rattle.hb_ops.specs.Files.{if_live};
ghost use Rattle.hb_view.specs.Views.{IsLive};

use crate::Activity;
use hb_layout::Meta;
use hb_view::PageView;

impl Activity {
    ghost use Rattle.hb_activity.specs.Wanting.{LooksIntoPage, CanLook, may_commit};

    /// Whether the next step may apply an operation to the file. The page is that of `wanted`.
    pub fn may_commit(&self, meta: &Meta, page: Option<PageView<'_>>) -> bool
        requires live { IfSome page IsLive }
        requires given { LooksIntoPage self.now → IsSome page }
        requires readable { CanLook self.now (if_live page) }
        ensures { result ≡ may_commit self.now meta.now (if_live page.entry) }
    {
        self.ahead(meta, page).may_commit
    }
}
