// Lists of uses to time the cover on.
use place::places::Place;
use place::uses::Use;
use scale::modes::Mode;
use scale::sited::Sited;

#[derive(Clone, Copy)]
pub enum Sort {
    // the same place, again and again
    OnePlace,
    // places beside each other, all different
    Siblings,
    // from 16 steps deep up to the binding, then again from the next binding
    Chains,
    // of 8 bindings, up to 4 steps deep
    Random,
}

impl Sort {
    pub fn name(self) -> &'static str {
        match self {
            Sort::OnePlace => "one place",
            Sort::Siblings => "siblings",
            Sort::Chains => "chains",
            Sort::Random => "random",
        }
    }
}

fn longer(place: Place, step: u16) -> Place {
    place.extend(step).unwrap_or(place)
}

// So many times the same step.
fn deep(binding: u16, step: u16, count: usize) -> Place {
    let mut place = Place::whole(binding);
    for _ in 0..count {
        place = longer(place, step);
    }
    place
}

// The next of a row of numbers that look random.
fn next(seed: u32) -> u32 {
    seed.wrapping_mul(1664525).wrapping_add(1013904223)
}

// A place by chance: 3 bits choose the binding, then twice 2 bits the depth and a step.
fn by_chance(seed: u32) -> Place {
    let bits = seed >> 16;
    let mut place = Place::whole((bits % 8) as u16 + 1);
    for i in 0..bits / 8 % 5 {
        place = longer(place, (bits >> (6 + i) & 3) as u16);
    }
    place
}

fn place_at(sort: Sort, i: usize, seed: u32) -> Place {
    match sort {
        Sort::OnePlace => deep(1, 0, 2),
        Sort::Siblings => longer(Place::whole(1), (i % 60000) as u16 + 1),
        Sort::Chains => deep((i / 17 % 512) as u16 + 1, 0, 16 - i % 17),
        Sort::Random => by_chance(seed),
    }
}

fn mode_at(seed: u32) -> Mode {
    match seed >> 28 & 3 {
        0 => Mode::Imm,
        1 => Mode::Unique,
        2 => Mode::Mut,
        _ => Mode::Move,
    }
}

pub fn fill(sort: Sort, uses: &mut [Use<Mode>]) {
    let mut seed = 1;
    for (i, each) in uses.iter_mut().enumerate() {
        seed = next(seed);
        *each = Use {
            place: place_at(sort, i, seed),
            mode: Sited {
                value: mode_at(seed),
                site: (i % 60000) as u16,
            },
        };
    }
}
