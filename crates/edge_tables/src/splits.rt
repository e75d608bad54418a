// The split of the instructed energy: both signs, weights of zero, the bounds.
use settlement::instruction::Instruction;
use settlement::split::Parts;
use std::test::Fail;

#[test]
fn splits(rt: HostRuntime) -> Result<(), Fail> {
    // instructed, schedule, weights, (direct, scheduled, other)
    for (instructed, schedule, direct_weight, scheduled_weight, (direct, scheduled, other)) in [
        (0, 7, 1, 1, (-3, -4, 0)),
        (7, 0, 1, 1, (3, 4, 0)),
        (10, 0, 1, 2, (3, 7, 0)),
        (0, 10, 1, 2, (-3, -7, 0)),
        (0, 10, 2, 1, (-6, -4, 0)),
        (0, 1, 1, 1, (0, -1, 0)),
        (5, 5, 1, 1, (0, 0, 0)),
        (5, 5, 0, 0, (0, 0, 0)),
        (9, 2, 0, 0, (0, 0, 7)),
        (2, 9, 0, 0, (0, 0, -7)),
        (9, 2, 1, 0, (7, 0, 0)),
        (9, 2, 0, 1, (0, 7, 0)),
        (2, 9, 1, 0, (-7, 0, 0)),
        (2, 9, 0, 1, (0, -7, 0)),
        (300_000, -300_000, 300_000, 300_000, (300_000, 300_000, 0)),
        (-300_000, 300_000, 300_000, 300_000, (-300_000, -300_000, 0)),
        (300_000, -300_000, 300_000, 0, (600_000, 0, 0)),
        (-300_000, 300_000, 0, 300_000, (0, -600_000, 0)),
        (-300_000, 300_000, 1, 300_000, (-1, -599_999, 0)),
        (300_000, -300_000, 300_000, 1, (599_998, 2, 0)),
        (-300_000, 300_000, 300_000, 299_999, (-300_000, -300_000, 0)),
        (300_000, -300_000, 0, 0, (0, 0, 600_000)),
        (-300_000, 300_000, 0, 0, (0, 0, -600_000)),
    ] {
        let instruction = Instruction::new(instructed, schedule, direct_weight, scheduled_weight)?;
        assert_eq!(rt;
            instruction.split(),
            Parts {
                direct,
                scheduled,
                other
            }
        );
    }
    Ok(())
}
