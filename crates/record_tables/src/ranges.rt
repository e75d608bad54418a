// Declarations at their bounds, and the numbers of their refusals.
use auxiliary::draft::Draft;
use auxiliary::none::NoAuxiliaries;
use auxiliary::refusal::Refusal;
use auxiliary::rule::AuxiliaryRule;

#[test]
fn refusals_in_their_sequence(rt: HostRuntime) {
    let mut draft = Draft::new();
    // net bound, auxiliary power, answer with the number of the refusal
    for (net_bound, auxiliary, answer) in [
        (-1, 0, Err(6)),
        (1_000_001, 0, Err(6)),
        (0, -1, Err(6)),
        (0, 50_001, Err(6)),
        (i64::MIN, i64::MAX, Err(6)),
        (0, 0, Ok(())),
        (0, 0, Err(15)),
        (300, 200, Ok(())),
        (500, 0, Err(15)),
        (450, 50, Err(15)),
        (450, 51, Ok(())),
        (1_000_001, 0, Err(6)),
    ] {
        assert_eq!(rt;
            draft.add(net_bound, auxiliary).map_err(Refusal::number),
            answer
        );
    }
    for net_bound in 600..607 {
        assert_eq!(rt; draft.add(net_bound, 0).map_err(Refusal::number), Ok(()));
    }
    assert_eq!(rt; draft.count(), 10);
    assert_eq!(rt; draft.add(700, -1).map_err(Refusal::number), Err(6));
    assert_eq!(rt; draft.add(700, 0).map_err(Refusal::number), Err(16));
    assert_eq!(rt; draft.add(1, 0).map_err(Refusal::number), Err(16));
    assert_eq!(rt; draft.count(), 10);
}

#[test]
fn the_first_range_that_reaches_decides(rt: HostRuntime) {
    let mut draft = Draft::new();
    assert_eq!(rt; draft.add(270_000, 200).map_err(Refusal::number), Ok(()));
    assert_eq!(rt; draft.add(600_000, 250).map_err(Refusal::number), Ok(()));
    let declaration = draft.put_into_force();
    for (gross, drawn) in [
        (i32::MIN, 200),
        (-1_000_000, 200),
        (0, 200),
        (270_200, 200),
        (270_201, 250),
        (600_250, 250),
        (600_251, 250),
        (700_000, 250),
        (i32::MAX, 250),
    ] {
        assert_eq!(rt; declaration.auxiliary_at(gross), drawn);
        assert_eq!(rt; declaration.auxiliary(gross), drawn);
        assert_eq!(rt; NoAuxiliaries.auxiliary(gross), 0);
    }
    let empty = Draft::new().put_into_force();
    assert_eq!(rt; empty.auxiliary_at(-5), 0);
}
