// What a closure reaches where closures wait in a circle, which no `Waits` holds.
use std::test::Fail;
use waits::reach::reached;
use waits::sets::Set;
use waits::slots::Slot;

#[test]
fn each_of_a_circle_reaches_all_of_it(rt: HostRuntime) -> Result<(), Fail> {
    for size in 1..=64u8 {
        let mut sets = [Set::from(0u64); 64];
        for i in 0..size {
            sets[i as usize] = Set::from(1u64 << ((i + 1) % size));
        }
        for i in 0..size {
            assert!(rt; reached(&sets, Slot(i)).len() == size as u32);
        }
    }
    Ok(())
}

#[test]
fn a_circle_is_reached_from_outside_and_not_the_other_way(rt: HostRuntime) -> Result<(), Fail> {
    let mut sets = [Set::from(0u64); 64];
    sets[0] = Set::from(0b110u64);
    sets[1] = Set::from(0b100u64);
    sets[2] = Set::from(0b10u64);
    assert!(rt; u64::from(reached(&sets, Slot(0))) == 0b111);
    assert!(rt; u64::from(reached(&sets, Slot(1))) == 0b110);
    assert!(rt; u64::from(reached(&sets, Slot(63))) == 1u64 << 63);
    Ok(())
}
