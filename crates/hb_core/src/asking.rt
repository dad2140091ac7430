//! What is tested of a page that a step asks for before it latches it.
ghost use Rattle.std.specs.Prelude.{◌≡◌, ◌↔◌, length, IsTrue, Some, IfErr, IfSome, OnOk, MatchOption};
ghost use Rattle.hb_ops.specs.Files.{if_live};
ghost use Rattle.hb_store.specs.declared.stops.Why.TheVariants.{Extent};
ghost use Rattle.hb_view.specs.Views.{IsLive, IsLiveAnd};
ghost use Rattle.hb_steps.specs.AskedBoxes.{HasAskedBox, HasItsBox, IsNotAsked};
ghost use Rattle.hb_steps.specs.Asking.{asked_box};
ghost use Rattle.hb_core.specs.CoreSeen.{core_seen};
ghost use Rattle.hb_steps.specs.Looking.{FailsTest, IsOfOtherLevel, PassesTest};
ghost use Rattle.hb_core.specs.Relied.{MayTest};

use crate::aiming::Aim;
use crate::state::Core;
use hb_activity::Wanted;
use hb_disk::Device;
use hb_space::Area;
use hb_steps::AskedBox;
use hb_store::Why;
use hb_view::PageView;

impl<D: Device> Core<D> {
    /// Tests the page that is wanted, which is in memory: it is in use, and of the level and the box that are asked for.
    pub(crate) fn test(&self, wanted: Wanted, aim: &Aim) -> Result<(), Why>
        requires { MayTest (core_seen self.now).store wanted aim.now.asked }
        ensures passes { OnOk result ((activity : _) → aim.now.asked ≡ asked_box activity (core_seen self.now).store → PassesTest (core_seen self.now).store activity wanted) }
        ensures fails { IfErr result (λ why. (activity : _) → aim.now.asked ≡ asked_box activity (core_seen self.now).store → FailsTest (core_seen self.now).store activity wanted why) }
    {
        match self.store.get(wanted.page) {
            Some(view) => test_view(&view, wanted, aim),
            None => unreachable!(),
        }
    }
}

/// Tests a page: it is in use, and of the level and the box that are asked for.
fn test_view(view: &PageView<'_>, wanted: Wanted, aim: &Aim) -> Result<(), Why>
    requires many { IfSome (if_live (Some view.now)) (λ page. IfSome aim.now.asked (λ asked. length asked.area.lo ≡ length page.area.lo)) }
    ensures passes { OnOk result (IsLiveAnd view.now (λ page. (page.level ≡ wanted.level) × HasItsBox aim.now.asked page)) }
    ensures fails { IfErr result (λ why. MatchOption aim.now.asked (IsOfOtherLevel wanted view.now) (λ asked. IsNotAsked wanted asked view.now why)) }
{
    if !view.is_live() {
        return Err(Why::Rule(2));
    }
    test_page(view, wanted, aim)
}

/// Tests a page in use.
fn test_page(view: &PageView<'_>, wanted: Wanted, aim: &Aim) -> Result<(), Why>
    requires live { IsLive view.now }
    requires many { IfSome (if_live (Some view.now)) (λ page. IfSome aim.now.asked (λ asked. length asked.area.lo ≡ length page.area.lo)) }
    ensures passes { OnOk result (IsLiveAnd view.now (λ page. (page.level ≡ wanted.level) × HasItsBox aim.now.asked page)) }
    ensures fails { IfErr result (λ why. MatchOption aim.now.asked (IsOfOtherLevel wanted view.now) (λ asked. IsNotAsked wanted asked view.now why)) }
{
    let found = view.level();
    if found != wanted.level {
        return Err(Why::Level {
            asked: wanted.level,
            found,
        });
    }
    match &aim.asked {
        Some(asked) => test_box(view.area(), asked),
        None => Ok(()),
    }
}

/// Tests the box of a page in use.
fn test_box(area: Area, asked: &AskedBox) -> Result<(), Why>
    requires { length asked.now.area.lo ≡ length area.lo }
    ensures passes { OnOk result (HasAskedBox asked.now area) }
    ensures fails { IfErr result (λ why. (HasAskedBox asked.now area → ⊥) × (why ≡ Extent asked.now.area area)) }
{
    if asked.is_of(&area) {
        return Ok(());
    }
    Err(Why::Extent {
        asked: asked.area.copy(),
        found: area,
    })
}
