// Small lists of uses, with the captures that they have.
use crate::rights::{Claims, Right};
use crate::rows::{asks, at, gives};
use cover::captures::cover;
use cover::full::Full;
use mode_cover::by_mode::cover_by_mode;
use mode_cover::one_type::OneType;
use place::places::Place;
use scale::modes::Mode;
use std::test::Fail;
use world::spelled::Spelled;

// `x.0; y; x`: the capture of x stands first, since the first use under it does.
#[test]
fn order_of_the_first_use_under(rt: HostRuntime) -> Result<(), Fail> {
    let x = Place::whole(1);
    let y = Place::whole(2);
    let uses = [
        asks(at(1, &[1])?, Right::Set, 5),
        asks(y, Right::Look, 6),
        asks(x, Right::Look, 7),
    ];
    let mut table = [gives(y, Right::Look, 0, 0); 3];
    let n = cover(&Claims {}, &uses, &mut table, 0)?;
    assert!(rt; n <= 3);
    assert!(rt; table[0..n] == [gives(x, Right::Set, 5, 5), gives(y, Right::Look, 6, 6)]);
    Ok(())
}

// 17 uses of one chain, the deepest first: one capture, at the binding itself. A mut at the deepest is
// cut through the dereference of a mutable reference.
#[test]
fn chain_of_sixteen_ancestors(rt: HostRuntime) -> Result<(), Fail> {
    let steps = [0u16; 16];
    let whole = Place::whole(1);
    let mut uses = [asks(whole, Mode::Imm, 17); 17];
    for (i, used) in uses.iter_mut().enumerate().take(16) {
        let mode = if i == 0 { Mode::Mut } else { Mode::Imm };
        *used = asks(at(1, &steps[i..])?, mode, i as u16 + 1);
    }
    let mut table = [gives(Place::whole(9), Mode::Move, 9, 9); 2];
    let to_mutable = OneType { each: 5 };
    let n = cover_by_mode(&Spelled {}, &to_mutable, &uses, &mut table, 1)?;
    assert!(rt; n == 1);
    assert!(rt;
        table
            == [
                gives(Place::whole(9), Mode::Move, 9, 9),
                gives(whole, Mode::Unique, 1, 1),
            ]
    );
    Ok(())
}

// Two uses of one place: the higher mode, at the earliest site that reaches it.
#[test]
fn equal_places_at_every_pair_of_modes(rt: HostRuntime) -> Result<(), Fail> {
    let modes = [Mode::Imm, Mode::Unique, Mode::Mut, Mode::Move];
    let place = at(3, &[1, 2])?;
    for (i, first) in modes.iter().enumerate() {
        for (j, second) in modes.iter().enumerate() {
            let uses = [asks(place, *first, 1), asks(place, *second, 2)];
            let mut table = [gives(place, Mode::Imm, 0, 0); 1];
            let n = cover_by_mode(&Spelled {}, &OneType { each: 2 }, &uses, &mut table, 0)?;
            assert!(rt; n == 1);
            let set_by = if i < j {
                gives(place, *second, 2, 1)
            } else {
                gives(place, *first, 1, 1)
            };
            assert!(rt; table == [set_by]);
        }
    }
    Ok(())
}

// A mutable borrow behind a mutable reference needs a unique borrow of it, and behind a Box a mutable one.
#[test]
fn cut_to_the_ancestor(rt: HostRuntime) -> Result<(), Fail> {
    let whole = Place::whole(1);
    let uses = [asks(whole, Mode::Imm, 1), asks(at(1, &[0])?, Mode::Mut, 2)];
    let mut table = [gives(whole, Mode::Imm, 0, 0); 2];
    let n = cover_by_mode(&Spelled {}, &OneType { each: 5 }, &uses, &mut table, 0)?;
    assert!(rt; n == 1);
    let n = cover_by_mode(&Spelled {}, &OneType { each: 7 }, &uses, &mut table, n)?;
    assert!(rt; n == 1);
    assert!(rt;
        table
            == [
                gives(whole, Mode::Unique, 2, 1),
                gives(whole, Mode::Mut, 2, 1),
            ]
    );
    Ok(())
}

// Siblings, an uncle and another binding: none is an ancestor of another.
#[test]
fn no_ancestor_among_them(rt: HostRuntime) -> Result<(), Fail> {
    let uses = [
        asks(at(1, &[1, 1])?, Right::Look, 1),
        asks(at(1, &[1, 3])?, Right::Set, 2),
        asks(at(1, &[3])?, Right::Take, 3),
        asks(at(2, &[1])?, Right::Look, 4),
        asks(at(1, &[1, 3])?, Right::Look, 5),
    ];
    let mut table = [gives(Place::whole(9), Right::Look, 0, 0); 4];
    let n = cover(&Claims {}, &uses, &mut table, 0)?;
    assert!(rt; n == 4);
    assert!(rt;
        table
            == [
                gives(at(1, &[1, 1])?, Right::Look, 1, 1),
                gives(at(1, &[1, 3])?, Right::Set, 2, 2),
                gives(at(1, &[3])?, Right::Take, 3, 3),
                gives(at(2, &[1])?, Right::Look, 4, 4),
            ]
    );
    Ok(())
}

// One row short: refused, and the table is as it was. With one more row the captures stand behind the
// filled row, and the row behind them is as it was.
#[test]
fn rows_left(rt: HostRuntime) -> Result<(), Fail> {
    let a = Place::whole(1);
    let b = Place::whole(2);
    let old = gives(Place::whole(9), Right::Take, 8, 7);
    let uses = [
        asks(a, Right::Look, 1),
        asks(b, Right::Set, 2),
        asks(a, Right::Take, 3),
    ];
    let mut table = [old; 4];
    assert_eq!(rt;
        cover(&Claims {}, &uses, &mut table, 3),
        Err(Full { needed: 2 })
    );
    assert!(rt; table == [old; 4]);
    assert_eq!(rt;
        cover(&Claims {}, &uses, &mut table, 5),
        Err(Full { needed: 2 })
    );
    assert!(rt; table == [old; 4]);
    let n = cover(&Claims {}, &uses, &mut table, 1)?;
    assert!(rt; n == 2);
    assert!(rt;
        table
            == [
                old,
                gives(a, Right::Take, 3, 1),
                gives(b, Right::Set, 2, 2),
                old,
            ]
    );
    Ok(())
}

// No uses have no captures, whatever is filled.
#[test]
fn no_uses(rt: HostRuntime) -> Result<(), Fail> {
    let old = gives(Place::whole(9), Right::Take, 8, 7);
    let mut table = [old; 1];
    let n = cover(&Claims {}, &[], &mut table, 5)?;
    assert!(rt; n == 0);
    assert!(rt; table == [old]);
    Ok(())
}
