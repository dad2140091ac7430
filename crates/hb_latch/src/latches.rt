ghost use Rattle.std.specs.Prelude.{◌≡◌, ◌<◌, ◌≤◌, ◌↔◌, None, Some, IsOk, IsSome, IfOk, IfErr, IfSome, OnOk, OnErr, option_map, find, count_by, if◌then◌else◌, ℕ, ◌==◌, length, slice_set};
ghost use Rattle.std.specs.FinMap as map;
ghost use Rattle.hb_latch.specs.declared.modes.Mode.TheVariants.{Update, Exclusive};
ghost use Rattle.std.specs.FinMap.{find as lookup};
ghost use Rattle.hb_latch.specs.Entries.{conflicts, key_of, table_entries, IsKept};
ghost use Rattle.hb_lemmas.specs.Places.{IsGapFor, IsPlaceOf};
ghost use Rattle.hb_latch.specs.Tables.{latch_cmp, mode_at, latches_of, IsGrantable, IsLeastInTheWay};
ghost use Rattle.hb_space.specs.Actors.{IsActor};

use crate::Mode;
use crate::entries::Held;
use arrayvec::ArrayVec;
use hb_space::Actor;
use hb_space::actors::ACTORS;
use std::marker::Model;

/// How many latches one actor may hold.
pub const LATCHES: usize = 3;

/// How many latches all actors together hold at most.
const ROOM: usize = LATCHES * ACTORS;

/// The latches that are held.
#[derive(Debug, Drop)]
pub struct Latches {
    held: ArrayVec<Held, ROOM>,
}

/// Why a latch is refused: this actor holds the page in a mode that conflicts. Of several it is
/// the least one.
#[derive(Clone, Copy, Debug, PartialEq, Eq)]
pub struct HeldBy(pub Actor);

impl Model for Latches {
    ghost use Rattle.std.specs.Prelude.{ℕ};
    ghost use Rattle.std.specs.FinMap as map;
    ghost use Rattle.hb_latch.specs.declared.modes.Mode.{Mode};
    ghost use Rattle.hb_latch.specs.Tables.{latch_cmp};
    ghost use Rattle.hb_latch.specs.Entries.{table_entries, IsKept};

    ghost Value = { map.FinMap latch_cmp Mode };

    ghost use Rattle.hb_latch.specs.contracts.modes.Mode as mode;
    ghost use Rattle.std.specs.Coded.{coded×, coded_ℕ};

    ghost coded = { map.code (coded× coded_ℕ coded_ℕ) mode.the_row.coded };

    ghost view = { λ l. map.from_sorted (table_entries l.held.items) };

    ghost invariant = { λ l. IsKept l.held.items };
}

impl Latches {
    /// No latch is held.
    pub fn new() -> Latches
        ensures { result ≡ map.empty }
    {
        Latches {
            held: ArrayVec::new(),
        }
    }

    /// Takes the page for the actor in the mode, unless another actor's latch on the page
    /// conflicts.
    pub fn try_take(&mut self, actor: Actor, page: u32, mode: Mode) -> Result<(), HeldBy>
        requires actor { IsActor actor }
        requires few { latches_of self.old actor < LATCHES }
        requires absent { mode_at self.old actor page ≡ None }
        ensures granted { IsOk result ↔ IsGrantable (mode_at self.old) actor page mode }
        ensures refused { IfErr result (λ by. IsLeastInTheWay (mode_at self.old) actor page mode by.0) }
        ensures taken { OnOk result (self.new ≡ map.insert self.old (actor, page) mode) }
        ensures same { OnErr result (self.new ≡ self.old) }
    {
        if let Some(other) = in_the_way(self.held.as_slice(), actor, page, mode) {
            return Err(HeldBy(other));
        }
        let place = place_of(self.held.as_slice(), actor, page);
        self.held.insert(place, Held { actor, page, mode });
        Ok(())
    }

    /// Makes the actor's latch for update on the page an exclusive one, unless another actor
    /// holds the page, too.
    pub fn promote(&mut self, actor: Actor, page: u32) -> Result<(), HeldBy>
        requires { mode_at self.old actor page ≡ Some Mode.Update }
        ensures granted { IsOk result ↔ IsGrantable (mode_at self.old) actor page Mode.Exclusive }
        ensures refused { IfErr result (λ by. IsLeastInTheWay (mode_at self.old) actor page Mode.Exclusive by.0) }
        ensures taken { OnOk result (self.new ≡ map.insert self.old (actor, page) Mode.Exclusive) }
        ensures same { OnErr result (self.new ≡ self.old) }
    {
        if let Some(other) = in_the_way(self.held.as_slice(), actor, page, Mode::Exclusive) {
            return Err(HeldBy(other));
        }
        let place = place_of(self.held.as_slice(), actor, page);
        let latch = Held {
            actor,
            page,
            mode: Mode::Exclusive,
        };
        replace(&mut self.held, place, latch);
        Ok(())
    }

    /// Gives back the actor's latch on the page.
    pub fn release(&mut self, actor: Actor, page: u32)
        requires { IsSome (mode_at self.old actor page) }
        ensures { self.new ≡ map.remove self.old (actor, page) }
    {
        let place = place_of(self.held.as_slice(), actor, page);
        self.held.remove(place);
    }

    /// Gives back all latches of the actor.
    pub fn release_all(&mut self, actor: Actor)
        ensures left { (other page : ℕ) → mode_at self.new other page
            ≡ (if other == actor then None else mode_at self.old other page) }
        ensures none { latches_of self.new actor ≡ 0 }
    {
        self.held.retain(|held| held.actor != actor);
    }

    /// The least other actor whose latch on the page doesn't go beside the mode. `None` where there is none: then the actor may
    /// have the page so.
    pub fn in_the_way(&self, actor: Actor, page: u32, mode: Mode) -> Option<Actor>
        ensures free { (result ≡ None) ↔ IsGrantable (mode_at self.now) actor page mode }
        ensures least { IfSome result (IsLeastInTheWay (mode_at self.now) actor page mode) }
    {
        in_the_way(self.held.as_slice(), actor, page, mode)
    }

    /// The mode in which the actor holds the page, if it does.
    pub fn mode_of(&self, actor: Actor, page: u32) -> Option<Mode>
        ensures value { result ≡ mode_at self.now actor page }
        ensures actor { IsSome result → IsActor actor }
    {
        match search(self.held.as_slice(), actor, page) {
            Ok(place) => Some(self.held.as_slice()[place].mode),
            Err(_) => None,
        }
    }

    /// How many latches the actor holds: at most `LATCHES`.
    pub fn count(&self, actor: Actor) -> usize
        ensures value { result ≡ latches_of self.now actor }
        ensures few { result ≤ LATCHES }
    {
        share_of(self.held.as_slice(), actor)
    }
}

// Puts another latch at the place.
fn replace(held: &mut ArrayVec<Held, ROOM>, place: usize, latch: Held)
    requires { place < length held.old.items }
    ensures { held.new.items ≡ slice_set held.old.items place latch }
{
    held.as_mut_slice()[place] = latch;
}

// How many of the latches are the actor's.
fn share_of(latches: &[Held], actor: Actor) -> usize
    ensures { result ≡ count_by (λ h. h.actor == actor) latches.now }
{
    latches.iter().filter(|held| held.actor == actor).count()
}

// The least other actor whose latch on the page doesn't go beside the mode.
fn in_the_way(latches: &[Held], actor: Actor, page: u32, mode: Mode) -> Option<Actor>
    ensures { result ≡ option_map (λ h. h.actor) (find (conflicts actor page mode) latches.now) }
{
    let mut latches = latches.iter();
    match latches.find(|held| held.conflicts(actor, page, mode)) {
        Some(held) => Some(held.actor),
        None => None,
    }
}

// Where the actor's latch on the page stands, or where it would go.
fn place_of(latches: &[Held], actor: Actor, page: u32) -> usize
    requires { IsKept latches.now }
    ensures found { IsSome (lookup latch_cmp (actor, page) (table_entries latches.now)) → IsPlaceOf key_of latches.now (actor, page) result }
    ensures absent { lookup latch_cmp (actor, page) (table_entries latches.now) ≡ None → IsGapFor latch_cmp key_of latches.now (actor, page) result }
{
    match search(latches, actor, page) {
        Ok(place) | Err(place) => place,
    }
}

// The same, with the answer which of the two it is.
fn search(latches: &[Held], actor: Actor, page: u32) -> Result<usize, usize>
    requires { IsKept latches.now }
    ensures found { IfOk result (IsPlaceOf key_of latches.now (actor, page)) }
    ensures absent { IfErr result (IsGapFor latch_cmp key_of latches.now (actor, page)) }
{
    latches.binary_search_by(|held| held.compare(actor, page))
}
