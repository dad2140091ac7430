//! Where the audit has the pages of a file from that is opened.
ghost use Rattle.std.specs.Prelude.{◌≡◌, IfOk, IfSome, IsErrOf};
ghost use Rattle.hb_space.specs.declared.form.TheConstants.{PAGE};
ghost use Rattle.hb_disk.specs.Calls.{ReadsOnly};
ghost use Rattle.hb_page_codec.specs.ReadingPages.{page_of_bytes};
ghost use Rattle.hb_page_codec.specs.Weight.{IsLight};
ghost use Rattle.hb_restart.specs.Source.{HasPlaceFor, IsSource, IsSource-prop};
ghost use Rattle.hb_sound.specs.declared.pages.PageStop.TheVariants.{Failed};
ghost use Rattle.hb_store.specs.Opening.{place_bytes};

use hb_disk::Device;
use hb_frag::{LivePage, Page};
use hb_layout::page_offset;
use hb_ops::Meta;
use hb_page_codec::laws::fields_are_read_exactly;
use hb_page_codec::{PageError, decode};
use hb_sound::{PageStop, Pages};
use hb_space::NoMemory;
use hb_space::form::PAGE;
use std::alloc::Global;
use std::collections::BTreeMap;

/// The same page once more.
fn copy_of(alloc: Global, page: &Page) -> Result<Page, NoMemory>
    ensures { IfOk result (λ copy. copy ≡ page.now) }
{
    match page {
        Page::Live(page) => Ok(Page::Live(LivePage {
            level: page.level,
            area: page.area.copy(),
            frag: page.frag.copy(alloc)?,
        })),
        Page::Free { next } => Ok(Page::Free { next: *next }),
    }
}

/// The page that the bytes spell, or that they spell none.
fn spelled(alloc: Global, bytes: &[u8]) -> Result<Option<Page>, PageStop>
    ensures page { IfOk result (λ page. page ≡ page_of_bytes bytes.now) }
    ensures light { IfOk result (λ page. IfSome page IsLight) }
    ensures memory { IsErrOf result Failed → ⊥ }
{
    fields_are_read_exactly();
    match decode(alloc, bytes) {
        Ok(page) => Ok(Some(page)),
        Err(PageError::BadPage) => Ok(None),
        Err(PageError::NoMemory) => Err(PageStop::NoMemory),
    }
}

/// The page in its place, or that the bytes there are none. They are read into `into`.
fn page_in_place<D: Device>(
    alloc: Global,
    disk: &mut D,
    meta: &Meta,
    id: u32,
    into: &mut [u8; PAGE],
) -> Result<Option<Page>, PageStop>
    requires has { HasPlaceFor (D.model disk.old).size meta.now id }
    ensures there { IfOk result (λ page. IfSome (D.model disk.old).told (λ b. page ≡ page_of_bytes (place_bytes meta.now id b))) }
    ensures light { IfOk result (λ page. IfSome page IsLight) }
    ensures only { ReadsOnly (IsErrOf result Failed) (D.model disk.old) (D.model disk.new) }
{
    match disk.read(page_offset(meta, id), into) {
        Ok(()) => spelled(alloc, into),
        Err(_) => Err(PageStop::Failed),
    }
}

/// The pages of a file on a disk: first those that its log touches, then those in their places.
#[derive(Drop)]
pub(crate) struct FilePages<D: Device> {
    pub(crate) alloc: Global,
    pub(crate) disk: D,
    /// What the newest superblock says.
    pub(crate) said: Meta,
    /// What the log makes of pages, by their numbers.
    pub(crate) touched: BTreeMap<u32, Page>,
    /// Where the bytes of a page are read into.
    pub(crate) buffer: [u8; PAGE],
    ghost is_source: { IsSource (D.model disk).size said touched } by { IsSource-prop _ _ _ },
}

impl<D: Device> Pages for FilePages<D> {
    ghost use Rattle.std.specs.Ordering.{nat_cmp};
    ghost use Rattle.std.specs.BTreeMap.{get};
    ghost use Rattle.hb_restart.specs.Source.{AsksOnly, AsksOnly-none, AsksOnly-then, told_pages};

    ghost model = { λ s. record { told = told_pages (D.model s.disk).told s.said (get nat_cmp s.touched); faults = (D.model s.disk).read_faults } };

    ghost asked = { λ s t. AsksOnly (D.model s.disk) (D.model t.disk) s.said t.said s.touched t.touched };

    ghost asked_none = { λ s. AsksOnly-none (D.model s.disk) s.said s.touched };

    ghost asked_on = { λ s t u. AsksOnly-then (D.model s.disk) (D.model t.disk) (D.model u.disk) s.said t.said u.said s.touched t.touched u.touched };

    fn page(&mut self, id: u32) -> Result<Option<Page>, PageStop> {
        if let Some(page) = self.touched.get(&id) {
            return match copy_of(self.alloc, page) {
                Ok(page) => Ok(Some(page)),
                Err(_) => Err(PageStop::NoMemory),
            };
        }
        if id == 0 || id > self.said.pages {
            return Ok(None);
        }
        page_in_place(self.alloc, &mut self.disk, &self.said, id, &mut self.buffer)
    }
}
