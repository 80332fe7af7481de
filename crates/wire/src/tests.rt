// Both wires on worked values.
use super::*;
use refusals::refusal_of;
use std::test::Fail;

#[test]
fn frames_in_order(rt: HostRuntime) -> Result<(), Fail> {
    let mut wire = CleanWire::new(1)?;
    let puts = [
        refusal_of(wire.put(0, 7)),
        refusal_of(wire.put(1, 9)),
        refusal_of(wire.put(0, 8)),
        refusal_of(wire.put(2, 5)),
    ];
    let takes = [wire.take(0), wire.take(0), wire.take(0), wire.take(1)];
    assert_eq!(rt; puts, [(0, 0), (0, 0), (0, 0), (1, 2)]);
    assert_eq!(rt; takes, [Ok(Some(7)), Ok(Some(8)), Ok(None), Ok(Some(9))]);
    Ok(())
}

#[test]
fn places_of_a_lane(rt: HostRuntime) -> Result<(), Fail> {
    let mut wire = CleanWire::new(64)?;
    for frame in 0..15 {
        wire.put(127, frame)?;
    }
    let full = [
        refusal_of(wire.put(127, 15)),
        refusal_of(wire.put(126, 15)),
        refusal_of(wire.take(128)),
    ];
    assert_eq!(rt; full, [(6, 127), (0, 0), (1, 128)]);
    Ok(())
}

#[test]
fn marks_in_order(rt: HostRuntime) -> Result<(), Fail> {
    let mut wire = MarkedWire::new(rt.alloc(), 1, b".-+")?;
    let at_first = wire.troubles_left();
    let puts = [
        refusal_of(wire.put(0, 1)),
        refusal_of(wire.put(1, 2)),
        refusal_of(wire.put(2, 3)),
    ];
    let between = wire.troubles_left();
    let more = [refusal_of(wire.put(0, 3)), refusal_of(wire.put(0, 4))];
    assert_eq!(rt; puts, [(0, 0), (0, 0), (1, 2)]);
    assert_eq!(rt; more, [(0, 0), (0, 0)]);
    assert_eq!(rt; [at_first, between, wire.troubles_left()], [2, 1, 0]);
    let takes = [
        wire.take(0),
        wire.take(0),
        wire.take(0),
        wire.take(0),
        wire.take(1),
    ];
    assert_eq!(rt;
        takes,
        [Ok(Some(1)), Ok(Some(3)), Ok(Some(3)), Ok(Some(4)), Ok(None)]
    );
    Ok(())
}

#[test]
fn refusals_of_makers(rt: HostRuntime) {
    let many = [b'.'; 65_536];
    let clean = [
        refusal_of(CleanWire::new(0)),
        refusal_of(CleanWire::new(65)),
    ];
    let marked = [
        refusal_of(MarkedWire::new(rt.alloc(), 0, b"x")),
        refusal_of(MarkedWire::new(rt.alloc(), 65, &many)),
        refusal_of(MarkedWire::new(rt.alloc(), 1, &many)),
        refusal_of(MarkedWire::new(rt.alloc(), 1, b".-x+y")),
        refusal_of(MarkedWire::new(rt.alloc(), 64, &many[0..65_535])),
    ];
    assert_eq!(rt; clean, [(11, 0), (11, 65)]);
    assert_eq!(rt; marked, [(11, 0), (11, 65), (8, 65_535), (13, 2), (0, 0)]);
}
