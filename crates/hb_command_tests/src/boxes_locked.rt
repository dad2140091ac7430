//! Locks on boxes by hand: pairs of boxes of one to four attributes, and steps of a few actors.

ghost use Rattle.std.specs.Prelude.{◌≡◌, length, IfSome};
ghost use Rattle.hb_boxlock.specs.Locking.{HaveAttributes};

use crate::rows::expect;
use hb_boxlock::{BoxLocks, HeldBy};
use hb_space::{Actor, Area, Point};

// The greatest value.
const M: u64 = u64::MAX;

// The box of the first values.
fn area(k: u8, least: [u64; 4], greatest: [u64; 4]) -> Option<Area>
    ensures { IfSome result (λ a. length a.lo ≡ k) }
{
    let count = usize::from(k);
    if count < 1 || 4 < count {
        return None;
    }
    Area::between(Point::new(&least[..count]), Point::new(&greatest[..count]))
}

// Takes a box for an actor that has none: 0 where it is granted, else the actor that is named.
#[tactic(auto, using(hb_boxlock::proofs::Facts::LockedBoxes::attributes_taken))]
fn take(locks: &mut BoxLocks, actor: Actor, area: Area, share: bool) -> Option<Actor>
    requires { HaveAttributes locks.old (length area.lo) }
    ensures { HaveAttributes locks.new (length area.lo) }
{
    if actor < 1 || 19 < actor || locks.lock_of(actor).is_some() {
        return None;
    }
    match locks.try_take(actor, area, share) {
        Ok(()) => Some(0),
        Err(HeldBy(other)) => Some(other),
    }
}

// Two boxes of so many attributes, whether each is shared, and who is in the way of the second actor. The boxes are written as
// their least and their greatest values.
type Pair = (
    u8,
    [u64; 4],
    [u64; 4],
    bool,
    [u64; 4],
    [u64; 4],
    bool,
    Actor,
);

const PAIRS: [Pair; 16] = [
    // two inserts of a point, two lookups, and one of each
    (
        1,
        [5, 0, 0, 0],
        [5, 0, 0, 0],
        false,
        [5, 0, 0, 0],
        [5, 0, 0, 0],
        false,
        1,
    ),
    (
        1,
        [5, 0, 0, 0],
        [5, 0, 0, 0],
        true,
        [5, 0, 0, 0],
        [5, 0, 0, 0],
        true,
        0,
    ),
    (
        1,
        [5, 0, 0, 0],
        [5, 0, 0, 0],
        true,
        [5, 0, 0, 0],
        [5, 0, 0, 0],
        false,
        1,
    ),
    (
        1,
        [5, 0, 0, 0],
        [5, 0, 0, 0],
        false,
        [5, 0, 0, 0],
        [5, 0, 0, 0],
        true,
        1,
    ),
    (
        1,
        [5, 0, 0, 0],
        [5, 0, 0, 0],
        false,
        [6, 0, 0, 0],
        [6, 0, 0, 0],
        false,
        0,
    ),
    // boxes that share an edge, and boxes side by side
    (
        1,
        [0, 0, 0, 0],
        [9, 0, 0, 0],
        true,
        [9, 0, 0, 0],
        [20, 0, 0, 0],
        false,
        1,
    ),
    (
        1,
        [0, 0, 0, 0],
        [9, 0, 0, 0],
        true,
        [10, 0, 0, 0],
        [20, 0, 0, 0],
        false,
        0,
    ),
    // the least and the greatest value
    (
        1,
        [0, 0, 0, 0],
        [M, 0, 0, 0],
        true,
        [M, 0, 0, 0],
        [M, 0, 0, 0],
        false,
        1,
    ),
    (
        1,
        [0, 0, 0, 0],
        [0, 0, 0, 0],
        false,
        [0, 0, 0, 0],
        [M, 0, 0, 0],
        true,
        1,
    ),
    (
        1,
        [1, 0, 0, 0],
        [M, 0, 0, 0],
        true,
        [0, 0, 0, 0],
        [0, 0, 0, 0],
        false,
        0,
    ),
    // a point in a box, a point beside it in the second attribute alone, and a corner that is shared
    (
        2,
        [0, 10, 0, 0],
        [9, 19, 0, 0],
        true,
        [4, 15, 0, 0],
        [4, 15, 0, 0],
        false,
        1,
    ),
    (
        2,
        [0, 10, 0, 0],
        [9, 19, 0, 0],
        true,
        [4, 20, 0, 0],
        [4, 20, 0, 0],
        false,
        0,
    ),
    (
        2,
        [0, 10, 0, 0],
        [9, 19, 0, 0],
        false,
        [9, 19, 0, 0],
        [M, M, 0, 0],
        true,
        1,
    ),
    // three and four attributes, of which the last parts them, or doesn't
    (
        3,
        [0, 0, 5, 0],
        [M, M, 5, 0],
        true,
        [7, 7, 4, 0],
        [7, 7, 4, 0],
        false,
        0,
    ),
    (
        4,
        [0, 0, 0, 5],
        [M, M, M, 9],
        true,
        [7, 7, 7, 9],
        [7, 7, 7, 9],
        false,
        1,
    ),
    (
        4,
        [0, 0, 0, 5],
        [M, M, M, 9],
        true,
        [7, 7, 7, 10],
        [8, 8, 8, M],
        false,
        0,
    ),
];

// Whether the first actor has the first box, and the second one is answered so, before it has asked for the lock and after.
#[tactic(auto, using(hb_boxlock::proofs::Facts::LockedBoxes::none_locked))]
fn pair(k: u8, first: Area, share: bool, second: Area, too: bool, want: Actor) -> Option<bool>
    requires same { length first.lo ≡ k }
    requires other { length second.lo ≡ k }
{
    let mut locks = BoxLocks::new();
    let told = [
        take(&mut locks, 1, first, share)?,
        take(&mut locks, 2, second, too)?,
    ];
    let beside = want == 0;
    Some(told == [0, want] && locks.lock_of(1).is_some() && locks.lock_of(2).is_some() == beside)
}

// Whether it is so of a row.
fn is_pair(row: Pair) -> Option<bool> {
    let (k, least, greatest, share, low, high, too, want) = row;
    let first = area(k, least, greatest)?;
    let second = area(k, low, high)?;
    pair(k, first, share, second, too, want)
}

#[test]
fn boxes_of_two_actors(rt: HostRuntime) {
    for (place, row) in PAIRS.iter().enumerate() {
        expect(&rt, place, is_pair(*row) == Some(true));
    }
}

// The box of one attribute.
fn span(least: u64, greatest: u64) -> Option<Area>
    ensures { IfSome result (λ a. length a.lo ≡ 1) }
{
    area(1, [least, 0, 0, 0], [greatest, 0, 0, 0])
}

// Gives back the actor's lock, where it has one.
#[tactic(auto, using(hb_boxlock::proofs::Facts::LockedBoxes::attributes_released))]
fn release(locks: &mut BoxLocks, actor: Actor) -> Option<Actor>
    requires { HaveAttributes locks.old 1 }
    ensures { HaveAttributes locks.new 1 }
{
    if actor < 1 || 19 < actor || locks.lock_of(actor).is_none() {
        return None;
    }
    locks.release(actor);
    Some(0)
}

// An actor's step at a box: 0 where it is done, else the actor that is named. None where no such step may be taken.
fn answer(
    locks: &mut BoxLocks,
    actor: Actor,
    step: char,
    least: u64,
    greatest: u64,
) -> Option<Actor>
    requires { HaveAttributes locks.old 1 }
    ensures { HaveAttributes locks.new 1 }
{
    if step == 'R' {
        return release(locks, actor);
    }
    match span(least, greatest) {
        Some(area) => take(locks, actor, area, step == 'S'),
        None => None,
    }
}

// An actor, its step (`S`: it shares the box; `A`: it wants it alone; `R`: it gives its lock back), the box, and the answer.
const STEPS: [(Actor, char, u64, u64, Actor); 13] = [
    // two searches that meet, and a change that waits for both, the least first
    (7, 'S', 0, 50, 0),
    (4, 'S', 40, 99, 0),
    (2, 'A', 45, 45, 4),
    (4, 'R', 0, 0, 0),
    (2, 'A', 45, 45, 7),
    (7, 'R', 0, 0, 0),
    (2, 'A', 45, 45, 0),
    // what was given back is had again, and the own lock is never in the way
    (7, 'S', 0, 50, 2),
    (7, 'S', 0, 44, 0),
    (2, 'R', 0, 0, 0),
    (2, 'A', 45, 45, 0),
    (19, 'A', 44, 46, 2),
    (19, 'S', 100, M, 0),
];

// The steps from this one on are answered so.
fn goes_on(locks: &mut BoxLocks, steps: &[(Actor, char, u64, u64, Actor)]) -> bool
    requires { HaveAttributes locks.old 1 }
{
    match steps {
        [] => true,
        [(actor, step, least, greatest, want), rest @ ..] => {
            answer(locks, *actor, *step, *least, *greatest) == Some(*want) && goes_on(locks, rest)
        }
    }
}

#[test]
#[tactic(auto, using(hb_boxlock::proofs::Facts::LockedBoxes::none_locked))]
fn steps_of_a_few_actors(rt: HostRuntime) {
    let mut locks = BoxLocks::new();
    expect(&rt, 0, goes_on(&mut locks, &STEPS));
}

// Each actor from this one on shares the whole space.
fn all_share(locks: &mut BoxLocks, actor: Actor) -> bool
    requires { HaveAttributes locks.old 1 }
    ensures { HaveAttributes locks.new 1 }
{
    if 19 < actor {
        return true;
    }
    answer(locks, actor, 'S', 0, M) == Some(0) && all_share(locks, actor + 1)
}

// The first actor gives its lock back then, and wants a part of it alone.
const LEFT: [(Actor, char, u64, u64, Actor); 2] = [(1, 'R', 0, 0, 0), (1, 'A', 3, 3, 2)];

#[test]
#[tactic(auto, using(hb_boxlock::proofs::Facts::LockedBoxes::none_locked))]
fn nineteen_actors_share_the_space(rt: HostRuntime) {
    let mut locks = BoxLocks::new();
    expect(
        &rt,
        0,
        all_share(&mut locks, 1) && goes_on(&mut locks, &LEFT),
    );
}
