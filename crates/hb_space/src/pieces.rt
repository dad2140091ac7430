ghost use Rattle.std.specs.Prelude.{◌≡◌, ◌<◌, ◌≤◌, ◌*◌, ◌+◌, ◌↔◌, ℕ, List, [], ◌∷◌, ◌++◌, length, slice_index, slice_set, nat_lt, if◌then◌else◌, IfOk, OnOk, Any, AllPairs};
ghost use Rattle.hb_space.specs.Boxes.{IsArea, Holds, Meets, Within, Disjoint, side_below, side_from, common_area, pieces_outside};

use crate::{Area, NoMemory};
use std::alloc::Global;
use std::marker::Model;

/// A list of boxes.
#[derive(Debug, Drop)]
pub struct Areas {
    areas: Vec<Area>,
}

impl Model for Areas {
    ghost use Rattle.std.specs.Prelude.{List};
    ghost use Rattle.hb_space.specs.Boxes.{Area};

    ghost Value = { List Area };

    ghost view = { λ a. a.areas.items };
}

impl Areas {
    /// The boxes of the vector, as they stand in it.
    pub fn new(areas: Vec<Area>) -> Areas
        ensures { result ≡ areas.items }
    {
        Areas { areas }
    }

    /// The boxes.
    pub fn as_slice(&self) -> &[Area]
        ensures { result.now ≡ self.now }
    {
        &self.areas
    }

    /// The vector of the boxes.
    pub fn into_vec(self) -> Vec<Area>
        ensures { result.items ≡ self }
    {
        self.areas
    }
}

impl Area {
    /// What of the box lies outside the other one, as boxes that share no point. For each
    /// attribute after the other: what lies below their common part, then what lies above it, and then
    /// the same of the rest between. The box alone where the two do not meet.
    pub fn outside(&self, alloc: Global, o: &Area) -> Result<Areas, NoMemory>
        requires { length self.now.lo ≡ length o.now.lo }
        ensures apart { ¬ (Meets self.now o.now) → IfOk result (λ v. v ≡ self.now ∷ []) }
        ensures pieces { Meets self.now o.now →
            IfOk result (λ v. v ≡ pieces_outside self.now (common_area self.now o.now)) }
        ensures count { IfOk result (λ v. length v ≤ 2 * length self.now.lo) }
        ensures cover { IfOk result (λ v. (p : List ℕ) →
            Any (λ a. Holds a p) v ↔ (Holds self.now p × ¬ (Holds o.now p))) }
        ensures disjoint { IfOk result (λ v. AllPairs Disjoint v) }
    {
        match self.common(o) {
            Some(inner) => Ok(Areas::new(self.around(alloc, &inner)?)),
            None => {
                let mut areas = Vec::new(alloc);
                areas.push(self.copy())?;
                Ok(Areas::new(areas))
            }
        }
    }

    /// What of the box lies outside a box within it.
    fn around(&self, alloc: Global, inner: &Area) -> Result<Vec<Area>, NoMemory>
        requires same { length inner.now.lo ≡ length self.now.lo }
        requires inside { Within inner.now self.now }
        ensures value { IfOk result (λ v. v.items ≡ pieces_outside self.now inner.now) }
        ensures areas { IsArea self.now × IsArea inner.now }
    {
        let least = inner.lo().values();
        let greatest = inner.hi().values();
        let mut pieces = Vec::new(alloc);
        let mut rest = self.copy();
        for axis in 0..self.lo().attributes() {
            let at = usize::from(axis);
            rest = rest.without_below(axis, least[at], &mut pieces)?;
            rest = rest.without_above(axis, greatest[at], &mut pieces)?;
        }
        Ok(pieces)
    }

    /// Moves what lies below `least` in the attribute to the pieces, and answers the rest.
    fn without_below(self, axis: u8, least: u64, pieces: &mut Vec<Area>) -> Result<Area, NoMemory>
        requires attribute { axis < length self.lo }
        requires low { slice_index self.lo axis ≤ least }
        requires high { least ≤ slice_index self.hi axis }
        ensures rest { IfOk result
            (λ r. r ≡ record { lo = slice_set self.lo axis least; hi = self.hi }) }
        ensures piece { OnOk result (pieces.new.items ≡ pieces.old.items
            ++ (if nat_lt (slice_index self.lo axis) least then side_below self axis least ∷ [] else [])) }
    {
        if self.cuts(axis, least) {
            let (below, rest) = self.cut(axis, least);
            pieces.push(below)?;
            Ok(rest)
        } else {
            Ok(self)
        }
    }

    /// Moves what lies above `greatest` in the attribute to the pieces, and answers the rest.
    fn without_above(
        self,
        axis: u8,
        greatest: u64,
        pieces: &mut Vec<Area>,
    ) -> Result<Area, NoMemory>
        requires attribute { axis < length self.lo }
        requires low { slice_index self.lo axis ≤ greatest }
        requires high { greatest ≤ slice_index self.hi axis }
        ensures rest { IfOk result
            (λ r. r ≡ record { lo = self.lo; hi = slice_set self.hi axis greatest }) }
        ensures piece { OnOk result (pieces.new.items ≡ pieces.old.items
            ++ (if nat_lt greatest (slice_index self.hi axis) then side_from self axis (greatest + 1) ∷ [] else [])) }
    {
        if greatest < self.hi().values()[usize::from(axis)] {
            let (rest, above) = self.cut(axis, greatest + 1);
            pieces.push(above)?;
            Ok(rest)
        } else {
            Ok(self)
        }
    }
}
