//! Changed pages put into their frames, and the numbers of those that the log has.
ghost use Rattle.std.specs.Prelude.{◌≡◌, ℕ, ◌<◌, ◌≤◌, ◌||◌, All, None, Some, map, option_copied};
ghost use Rattle.std.specs.FinSet as set;
ghost use Rattle.hb_layout.specs.declared.limits.TheConstants.{PAGES_MAX};
ghost use Rattle.hb_frag.specs.Grammar.{HasSpelling};
ghost use Rattle.hb_pool.specs.Frames.{use_of};
ghost use Rattle.hb_pool.specs.Pools.{IsPool, frame_of, places};
ghost use Rattle.hb_frag.specs.declared.pages.LivePage.{LivePage};
ghost use Rattle.hb_frag.specs.declared.pages.Page.TheVariants.{Live};
ghost use Rattle.hb_page_codec.specs.ReadingPages.{page_of_bytes};
ghost use Rattle.hb_view.specs.Spelled.{page_spelled};
ghost use Rattle.hb_view.specs.Splicing.{IsOrderedAt, spliced};
ghost use Rattle.hb_view.specs.Views.{IsLiveAnd};
ghost use Rattle.hb_store.specs.Filling.{HasSpliceable, HaveRoom, PutsInto, PutsAll, in_frame};
ghost use Rattle.hb_store.specs.Replay.{is_among};
ghost use Rattle.hb_ops.specs.SetPages.{has_page};

use crate::page_sets::PageSet;
use hb_frag::Page;
use hb_page_codec::encode;
use hb_pool::Pool;
use hb_space::form::PAGE;
use hb_space::{Body, Point};
use hb_view::splice;

/// Adds numbers of pages.
pub(crate) fn add_all(in_log: &mut PageSet, ids: &[u32])
    requires { All (λ id. id ≤ PAGES_MAX) ids.now }
    ensures { (q : ℕ) → set.contains in_log.new q ≡ (is_among q ids.now || set.contains in_log.old q) }
{
    for id in ids {
        in_log.add(*id);
    }
}

/// Puts changed pages into frames under their numbers, in order, each dirty, and adds the numbers. It takes no memory.
pub(crate) fn put_all(pool: &mut Pool, in_log: &mut PageSet, pages: &[(u32, Page)])
    requires pool { IsPool pool.old }
    requires spelled { All (λ c. HasSpelling c.1) pages.now }
    requires room { HaveRoom (map use_of pool.old) pages.now }
    requires numbers { All (λ c. c.0 ≤ PAGES_MAX) pages.now }
    ensures pages { PutsAll pages.now pool.old pool.new }
    ensures in_log { (q : ℕ) → set.contains in_log.new q ≡ (has_page q pages.now || set.contains in_log.old q) }
{
    for (number, page) in pages {
        in_log.add(*number);
        put(pool, *number, page);
    }
}

/// Puts a page into its frame, or where it has none into a place that there is. It is dirty. It takes no memory.
fn put(pool: &mut Pool, id: u32, page: &Page)
    requires pool { IsPool pool.old }
    requires spelled { HasSpelling page.now }
    requires place { frame_of pool.old id ≡ None → 0 < places pool.old }
    ensures { PutsInto id page.now pool.old pool.new }
{
    let mut bytes = [0; PAGE];
    encode(page, &mut bytes);
    if pool.get(id).is_some() {
        pool.change(id, &bytes);
    } else {
        pool.bring(id, &bytes, true);
    }
}

/// A body is put at a point of a page in use, or taken from it, in the bytes of its frame. It is dirty then. It takes no memory.
pub(crate) fn splice_page(pool: &mut Pool, id: u32, point: &Point, body: Option<&Body>)
    requires pool { IsPool pool.old }
    requires spliced { HasSpliceable (in_frame pool.old id) point.now (option_copied body) }
    ensures { (page : LivePage) → in_frame pool.old id ≡ Some (Live page) → PutsInto id (Live (spliced point.now (option_copied body.entry) page)) pool.old pool.new }
{
    match body {
        Some(body) => put_there(pool, id, point, body),
        None => take_there(pool, id, point),
    }
}

/// The same, of a body that is put. What a closure captures may be no `Option` of a reference: its contract is lost then.
fn put_there(pool: &mut Pool, id: u32, point: &Point, body: &Body)
    requires pool { IsPool pool.old }
    requires spliced { HasSpliceable (in_frame pool.old id) point.now (Some body.now) }
    ensures { (page : LivePage) → in_frame pool.old id ≡ Some (Live page) → PutsInto id (Live (spliced point.now (Some body.now) page)) pool.old pool.new }
{
    pool.edit(
        id,
        |bytes: &mut [u8; PAGE]|
            requires ordered { IsLiveAnd (page_spelled bytes.old) (IsOrderedAt point.now) }
            requires room { IsLiveAnd (page_spelled bytes.old) (λ page. HasSpelling (Live (spliced point.now (Some body.now) page))) }
            ensures { IsLiveAnd (page_spelled bytes.old) (λ page. page_of_bytes bytes.new ≡ Some (Live (spliced point.entry.now (Some body.entry.now) page))) }
        {
            splice(bytes, point, Some(body));
        },
    );
}

/// The same, of a body that is taken from there.
fn take_there(pool: &mut Pool, id: u32, point: &Point)
    requires pool { IsPool pool.old }
    requires spliced { HasSpliceable (in_frame pool.old id) point.now None }
    ensures { (page : LivePage) → in_frame pool.old id ≡ Some (Live page) → PutsInto id (Live (spliced point.now None page)) pool.old pool.new }
{
    pool.edit(
        id,
        |bytes: &mut [u8; PAGE]|
            requires ordered { IsLiveAnd (page_spelled bytes.old) (IsOrderedAt point.now) }
            requires room { IsLiveAnd (page_spelled bytes.old) (λ page. HasSpelling (Live (spliced point.now None page))) }
            ensures { IsLiveAnd (page_spelled bytes.old) (λ page. page_of_bytes bytes.new ≡ Some (Live (spliced point.entry.now None page))) }
        {
            splice(bytes, point, None);
        },
    );
}
