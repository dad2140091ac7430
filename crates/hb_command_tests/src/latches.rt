//! Latches by hand: pairs of modes, and steps of a few actors.

use crate::rows::expect;
use Mode::{Exclusive, Shared, Update};
use hb_latch::{HeldBy, LATCHES, Latches, Mode};
use hb_space::Actor;

// The mode of a step that takes a page.
fn mode_of(step: char) -> Option<Mode> {
    match step {
        'S' => Some(Shared),
        'U' => Some(Update),
        'X' => Some(Exclusive),
        _ => None,
    }
}

// Takes a page that the actor doesn't hold, where it may be asked for.
fn take(latches: &mut Latches, actor: Actor, page: u32, mode: Mode) -> Option<Actor> {
    let may = 1 <= actor && actor <= 19 && latches.count(actor) < LATCHES;
    if !may || latches.mode_of(actor, page).is_some() {
        return None;
    }
    match latches.try_take(actor, page, mode) {
        Ok(()) => Some(0),
        Err(HeldBy(other)) => Some(other),
    }
}

fn promote(latches: &mut Latches, actor: Actor, page: u32) -> Option<Actor> {
    if latches.mode_of(actor, page) != Some(Update) {
        return None;
    }
    match latches.promote(actor, page) {
        Ok(()) => Some(0),
        Err(HeldBy(other)) => Some(other),
    }
}

fn release(latches: &mut Latches, actor: Actor, page: u32) -> Option<Actor> {
    if latches.mode_of(actor, page).is_none() {
        return None;
    }
    latches.release(actor, page);
    Some(0)
}

// An actor's step at a page: 0 where it is done, else the actor that is named. None where no such step may be taken.
fn answer(latches: &mut Latches, actor: Actor, step: char, page: u32) -> Option<Actor> {
    match step {
        'P' => promote(latches, actor, page),
        'R' => release(latches, actor, page),
        _ => take(latches, actor, page, mode_of(step)?),
    }
}

// An actor, its step, the page, and the answer. A step `.` begins with no latch.
const STEPS: [(Actor, char, u32, Actor); 28] = [
    // three actors in a ring, of which each holds one page and wants the next one's
    (1, 'X', 10, 0),
    (2, 'X', 20, 0),
    (3, 'X', 30, 0),
    (1, 'X', 20, 2),
    (2, 'X', 30, 3),
    (3, 'X', 10, 1),
    (2, 'R', 20, 0),
    (1, 'X', 20, 0),
    (2, 'S', 20, 1),
    (0, '.', 0, 0),
    // a promotion beside two that share the page
    (9, 'S', 4, 0),
    (17, 'U', 4, 0),
    (3, 'S', 4, 0),
    (17, 'P', 4, 3),
    (3, 'R', 4, 0),
    (17, 'P', 4, 9),
    (9, 'R', 4, 0),
    (17, 'P', 4, 0),
    (3, 'S', 4, 17),
    (0, '.', 0, 0),
    // an actor's own latch isn't in its way, nor is what others hold elsewhere
    (5, 'X', 2, 0),
    (5, 'U', 3, 0),
    (6, 'S', 3, 0),
    (5, 'R', 2, 0),
    (5, 'S', 2, 0),
    (6, 'X', 1, 0),
    (6, 'R', 3, 0),
    (5, 'P', 3, 0),
];

#[test]
fn steps_of_actors(rt: HostRuntime) {
    let mut latches = Latches::new();
    for (place, &(actor, step, page, want)) in STEPS.iter().enumerate() {
        if step == '.' {
            latches = Latches::new();
        } else {
            let told = answer(&mut latches, actor, step, page);
            expect(&rt, place, told == Some(want));
        }
    }
}

// The step that takes a page in a mode, a second one, and who is in its way.
const PAIRS: [(char, char, Actor); 9] = [
    ('S', 'S', 0),
    ('S', 'U', 0),
    ('S', 'X', 1),
    ('U', 'S', 0),
    ('U', 'U', 1),
    ('U', 'X', 1),
    ('X', 'S', 1),
    ('X', 'U', 1),
    ('X', 'X', 1),
];

// Whether two actors take a page so, and then hold it, and the second one may have another page.
fn go_so(first: char, second: char, want: Actor) -> Option<bool> {
    let mut latches = Latches::new();
    let modes = [mode_of(first)?, mode_of(second)?];
    let told = [
        answer(&mut latches, 1, first, 7)?,
        answer(&mut latches, 2, second, 7)?,
        answer(&mut latches, 2, second, 8)?,
    ];
    let beside = want == 0;
    let held = latches.mode_of(1, 7) == Some(modes[0]);
    let second_held = latches.mode_of(2, 7).is_some();
    Some(
        told == [0, want, 0]
            && held
            && second_held == beside
            && modes[0].goes_beside(modes[1]) == beside,
    )
}

#[test]
fn modes_of_two_actors(rt: HostRuntime) {
    for (place, &(first, second, want)) in PAIRS.iter().enumerate() {
        expect(&rt, place, go_so(first, second, want) == Some(true));
    }
}

// Takes a page for each actor. Whether each had it.
fn all_take(latches: &mut Latches, page: u32) -> bool {
    for actor in (1..20).rev() {
        if answer(latches, actor, 'S', page) != Some(0) {
            return false;
        }
    }
    true
}

// Whether each actor holds three pages, one of them page 20 and none of them page 40.
fn all_hold(latches: &Latches) -> bool {
    for actor in 1..20 {
        if latches.count(actor) != LATCHES
            || latches.mode_of(actor, 20) != Some(Shared)
            || latches.mode_of(actor, 40).is_some()
        {
            return false;
        }
    }
    true
}

// Whether that comes of three pages, and what the first actor's steps at one of them are answered then.
fn three_held(latches: &mut Latches) -> Option<[Actor; 2]> {
    for page in [30, 10, 20] {
        if !all_take(latches, page) {
            return None;
        }
    }
    if !all_hold(latches) {
        return None;
    }
    Some([answer(latches, 1, 'R', 10)?, answer(latches, 1, 'X', 10)?])
}

#[test]
fn three_latches_of_each_actor(rt: HostRuntime) {
    let mut latches = Latches::new();
    let told = three_held(&mut latches);
    let counts = [latches.count(1), latches.count(2)];
    expect(&rt, 0, told == Some([0, 2]) && counts == [2, LATCHES]);
}
