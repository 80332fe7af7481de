// Both kinds of ladder on worked values.
use super::*;
use refusals::refusal_of;
use std::test::Fail;

#[test]
fn slacks(rt: HostRuntime) -> Result<(), Fail> {
    let halving = Halving::new(1, 2)?;
    let listed = Listed::new(1, &[3, 2])?;
    assert_eq!(rt;
        [
            halving.slack_of(0),
            halving.slack_of(1),
            halving.slack_of(2),
        ],
        [Ok(4), Ok(2), Ok(1)]
    );
    assert_eq!(rt;
        [listed.slack_of(0), listed.slack_of(1), listed.slack_of(2)],
        [Ok(6), Ok(2), Ok(1)]
    );
    assert_eq!(rt;
        [
            refusal_of(halving.slack_of(3)),
            refusal_of(listed.slack_of(3)),
        ],
        [(7, 3), (7, 3)]
    );
    Ok(())
}

#[test]
fn refusals(rt: HostRuntime) {
    let halving = [
        refusal_of(Halving::new(8_388_608, 1)),
        refusal_of(Halving::new(8_388_608, 2)),
        refusal_of(Halving::new(0, 17)),
        refusal_of(Halving::new(8_388_609, 1)),
    ];
    let listed = [
        refusal_of(Listed::new(256, &[2; 16])),
        refusal_of(Listed::new(1, &[2; 17])),
        refusal_of(Listed::new(1, &[2, 17])),
        refusal_of(Listed::new(1, &[2, 1])),
        refusal_of(Listed::new(1, &[])),
    ];
    assert_eq!(rt; halving, [(0, 0), (11, 2), (11, 0), (11, 8_388_609)]);
    assert_eq!(rt; listed, [(0, 0), (11, 17), (11, 17), (11, 1), (11, 0)]);
}

#[test]
fn twos_listed_are_halving(rt: HostRuntime) -> Result<(), Fail> {
    let listed = Listed::new(256, &[2; 16])?;
    assert!(rt; same_ladder(&listed, &Halving::new(256, 16)?));
    Ok(())
}
