//! Looks at pages of the file.
ghost use Rattle.std.specs.Prelude.{◌≡◌, ◌↔◌, IfOk, IfSome, IsTrue, Some};
ghost use Rattle.hb_ops.specs.Files.{live_page, page_of};
ghost use Rattle.hb_ops.specs.Sound.{FitsFile};
ghost use Rattle.hb_store.specs.Fetching.{IsNoPage};
ghost use Rattle.hb_store.specs.Replaying.{IsPageOf};
ghost use Rattle.hb_store.specs.States.{IsGoodPage};
ghost use Rattle.hb_core.specs.CoreSeen.{core_seen, core_disk};
ghost use Rattle.hb_tidy.specs.Going.{MayTidy, MayTidyWhere};
ghost use Rattle.hb_tidy.specs.Looking.{LooksOver, NothingOf, SeesBy};

use crate::TidyStop;
use crate::stepping::flush;
use hb_core::{CopyStop, Core};
use hb_disk::Device;
use hb_frag::{LivePage, Page};
use hb_layout::Meta;

/// The page of the number. Where memory has no place for it, a flush makes one.
fn look<D: Device>(core: &mut Core<D>, id: u32) -> Result<Page, TidyStop>
    requires { MayTidyWhere (λ meta. IsPageOf meta id) (D.model (core_disk core.old)) (core_seen core.old) }
    ensures looks { LooksOver NothingOf result (λ page s. page_of s id ≡ Some page) (D.model (core_disk core.old)) (core_seen core.old) (D.model (core_disk core.new)) (core_seen core.new) }
    ensures good { IfOk result (IsGoodPage (core_seen core.old).store.meta) }
{
    loop {
        match seen_by(core.page_copy(id))? {
            Some(page) => return Ok(page),
            None => flush(core)?,
        }
    }
}

/// What a look came to, by what the core said.
fn seen_by(copied: Result<Page, CopyStop>) -> Result<Option<Page>, TidyStop>
    ensures { SeesBy copied result }
{
    match copied {
        Ok(page) => Ok(Some(page)),
        Err(CopyStop::Crowded) => Ok(None),
        Err(CopyStop::ReadFault) => Err(TidyStop::ReadFault),
        Err(CopyStop::NoMemory) => Err(TidyStop::NoMemory),
        Err(CopyStop::Damaged { page, why }) => Err(TidyStop::Damaged { page, why }),
    }
}

/// The page in use of the number. `None` where the file has none there.
pub(crate) fn named_page<D: Device>(
    core: &mut Core<D>,
    id: u32,
) -> Result<Option<LivePage>, TidyStop>
    requires { MayTidy (D.model (core_disk core.old)) (core_seen core.old) }
    ensures looks { LooksOver NothingOf result (λ page s. live_page s id ≡ page) (D.model (core_disk core.old)) (core_seen core.old) (D.model (core_disk core.new)) (core_seen core.new) }
    ensures good { IfOk result (λ seen. IfSome seen (FitsFile (core_seen core.old).store.meta)) }
{
    if is_beyond(core.meta(), id) {
        return Ok(None);
    }
    match look(core, id)? {
        Page::Live(page) => Ok(Some(page)),
        Page::Free { .. } => Ok(None),
    }
}

/// Whether the file has no page of the number.
fn is_beyond(meta: &Meta, id: u32) -> bool
    ensures { IsTrue result ↔ IsNoPage meta.now id }
{
    id == 0 || meta.high < id
}
