//! Where the pages of a file come from, and why an audit stops.
ghost use Rattle.std.specs.Prelude.{IfOk, IfSome, IsErrOf};
ghost use Rattle.hb_page_codec.specs.Weight.{IsLight};
ghost use Rattle.hb_sound.specs.Asking.{Asks, PagesModel};
ghost use Rattle.hb_sound.specs.Told.{GivesPage};
ghost use Rattle.hb_sound.specs.declared.pages.PageStop.TheVariants.{Failed};

use hb_frag::Page;
use hb_space::NoMemory;

/// Why no page was read.
#[derive(Clone, Copy, Debug, PartialEq, Eq)]
pub enum PageStop {
    /// The disk failed.
    Failed,
    /// Memory was refused.
    NoMemory,
}

/// Where the pages of a file come from.
///
/// The count of faults rises exactly in the calls that fail. What asking for pages may do to the source is the source's
/// to say: asking for none leaves it as it is, and asking on is asking.
pub trait Pages {
    /// What it tells of its pages, and how often it has failed.
    ghost model: { Self → PagesModel };

    /// What it may be after some of its pages were asked for, from what it was before.
    ghost asked: { Self → Self → Type 0 };

    ghost asked_none: { (pages : Self) → asked pages pages };

    ghost asked_on: { (first then last : Self) → asked first then → asked then last → asked first last };

    /// The page of this number. `None` says that the bytes in its place are no page.
    fn page(&mut self, id: u32) -> Result<Option<Page>, PageStop>
        ensures gives { IfOk result (λ page. GivesPage (model self.old).told id page) }
        ensures light { IfOk result (λ page. IfSome page IsLight) }
        ensures asks { Asks model asked (IsErrOf result Failed) self.old self.new };
}

/// Why an audit gave no answer that the file is sound.
#[derive(Clone, Copy, Debug, PartialEq, Eq)]
pub enum AuditStop {
    /// The first rule that the file breaks, and the page that is named for it: 0 for none.
    Broken { page: u32, rule: u8 },
    /// The source of the pages failed.
    Failed,
    /// Memory was refused.
    NoMemory,
}

impl From<PageStop> for AuditStop {
    ghost use Rattle.std.specs.Prelude.{◌≡◌};
    ghost use Rattle.hb_sound.specs.Stops.{page_stop};

    ghost from_gives = { λ e stop. stop ≡ page_stop e };

    fn from(stop: PageStop) -> AuditStop {
        match stop {
            PageStop::Failed => AuditStop::Failed,
            PageStop::NoMemory => AuditStop::NoMemory,
        }
    }
}

impl From<NoMemory> for AuditStop {
    ghost use Rattle.std.specs.Prelude.{◌≡◌};
    ghost use Rattle.hb_sound.specs.declared.pages.AuditStop.TheVariants.{NoMemory as Refused};

    ghost from_gives = { λ _ e. e ≡ Refused };

    fn from(_: NoMemory) -> AuditStop {
        AuditStop::NoMemory
    }
}
