//! Members that exchange their masks.

use crate::tests::members::steps::{Act, Sight, Step, check_steps};
use iio_device::RemaskFault;
use std::test::Fail;

// The old queue is given back with what waits in it, what it lost counts, and the member begins anew.
const BEGINS_ANEW: &[Step] = &[
    (Act::Joins(0, "00000005"), &[]),
    (Act::Captures(1000, 1), &[]),
    (Act::Captures(2000, 1), &[]),
    (
        Act::Captures(3000, 1),
        &[Sight::Lost(0, 2), Sight::Overruns(2)],
    ),
    (
        Act::Remasks(0, "00000002", Ok((1, 2))),
        &[
            Sight::Active(2),
            Sight::Waiting(0, 0),
            Sight::Lost(0, 0),
            Sight::Members(1),
            Sight::Captures(3),
            Sight::Overruns(2),
        ],
    ),
];

// The next capture is the first of the new queue, under the new mask.
const NEXT_CAPTURE: &[Step] = &[
    (Act::Joins(0, "00000005"), &[]),
    (Act::Remasks(0, "00000002", Ok((0, 0))), &[]),
    (Act::Captures(1000, 1), &[]),
    (Act::Takes(0, [2, 0]), &[]),
];

// A member asks for its own mask again: it begins anew all the same.
const OWN_MASK: &[Step] = &[
    (Act::Joins(0, "00000002"), &[]),
    (Act::Captures(1000, 1), &[]),
    (
        Act::Remasks(0, "00000002", Ok((1, 0))),
        &[Sight::Waiting(0, 0), Sight::Groups(1), Sight::Active(2)],
    ),
];

#[test]
fn a_member_begins_anew(rt: HostRuntime) -> Result<(), Fail> {
    for steps in [BEGINS_ANEW, NEXT_CAPTURE, OWN_MASK] {
        check_steps(&rt, rt.alloc(), &[], steps)?;
    }
    Ok(())
}

// The listed masks of a device.
const LISTED: &[&str] = &["00000003", "00000004"];

// The refusals in their order; an unplugged device refuses each time because it is gone. No member has the number 7.
const REFUSALS: &[Step] = &[
    (Act::Joins(0, "00000001"), &[]),
    (
        Act::Joins(1, "00000002"),
        &[
            Sight::MayRemask(0, 1, Ok(())),
            Sight::MayRemask(0, 2, Ok(())),
            Sight::MayRemask(0, 3, Ok(())),
            Sight::MayRemask(0, 4, Err(RemaskFault::NoUnion)),
            Sight::MayRemask(0, 7, Err(RemaskFault::NoUnion)),
            Sight::MayRemask(1, 5, Err(RemaskFault::NoUnion)),
            Sight::MayRemask(0, 0, Err(RemaskFault::BadMask)),
            Sight::MayRemask(0, 8, Err(RemaskFault::BadMask)),
            Sight::MayRemask(0, 9, Err(RemaskFault::BadMask)),
            Sight::MayRemask(7, 1, Err(RemaskFault::NotLive)),
            Sight::MayRemask(7, 4, Err(RemaskFault::NotLive)),
            Sight::MayRemask(7, 8, Err(RemaskFault::NotLive)),
        ],
    ),
    (
        Act::Unplugs,
        &[
            Sight::MayRemask(0, 1, Err(RemaskFault::Gone)),
            Sight::MayRemask(0, 2, Err(RemaskFault::Gone)),
            Sight::MayRemask(0, 3, Err(RemaskFault::Gone)),
            Sight::MayRemask(0, 4, Err(RemaskFault::Gone)),
            Sight::MayRemask(0, 7, Err(RemaskFault::Gone)),
            Sight::MayRemask(1, 5, Err(RemaskFault::Gone)),
            Sight::MayRemask(0, 0, Err(RemaskFault::Gone)),
            Sight::MayRemask(0, 8, Err(RemaskFault::Gone)),
            Sight::MayRemask(0, 9, Err(RemaskFault::Gone)),
            Sight::MayRemask(7, 1, Err(RemaskFault::Gone)),
            Sight::MayRemask(7, 4, Err(RemaskFault::Gone)),
            Sight::MayRemask(7, 8, Err(RemaskFault::Gone)),
        ],
    ),
];

// A refusal changes nothing. A listed mask serves the old union, and none serves the new one.
const NOTHING_CHANGES: &[Step] = &[
    (Act::Joins(0, "00000001"), &[]),
    (Act::Joins(1, "00000002"), &[]),
    (Act::Captures(1000, 2), &[]),
    (Act::Remasks(0, "00000004", Err(RemaskFault::NoUnion)), &[]),
    (
        Act::Remasks(7, "00000004", Err(RemaskFault::NotLive)),
        &[
            Sight::IsUnder(0, 1),
            Sight::Active(3),
            Sight::Groups(2),
            Sight::Waiting(0, 1),
        ],
    ),
];

#[test]
fn another_mask_is_refused(rt: HostRuntime) -> Result<(), Fail> {
    for steps in [REFUSALS, NOTHING_CHANGES] {
        check_steps(&rt, rt.alloc(), LISTED, steps)?;
    }
    Ok(())
}

// Without another member the new union is the mask itself; an unplugged device keeps what waits.
const ALONE: &[Step] = &[
    (Act::Joins(0, "00000001"), &[]),
    (Act::Remasks(0, "00000004", Ok((0, 0))), &[Sight::Active(4)]),
    (Act::Captures(1000, 1), &[]),
    (Act::Unplugs, &[]),
    (
        Act::Remasks(0, "00000001", Err(RemaskFault::Gone)),
        &[Sight::Waiting(0, 1)],
    ),
];

// Two members exchange their masks while an entry is outstanding: its capture gives each its scan under its new mask.
const EXCHANGE: &[Step] = &[
    (Act::Joins(0, "00000001"), &[]),
    (Act::Joins(1, "00000002"), &[]),
    (Act::Polls(1000), &[]),
    (
        Act::Remasks(0, "00000002", Ok((0, 0))),
        &[Sight::Active(3), Sight::Groups(1)],
    ),
    (
        Act::Remasks(1, "00000001", Ok((0, 0))),
        &[Sight::Active(3), Sight::Groups(2)],
    ),
    (Act::Handles(2), &[]),
    (Act::Takes(0, [2, 0]), &[]),
    (Act::Takes(1, [1, 0]), &[Sight::First(0)]),
];

#[test]
fn members_have_listed_masks(rt: HostRuntime) -> Result<(), Fail> {
    for steps in [ALONE, EXCHANGE] {
        check_steps(&rt, rt.alloc(), LISTED, steps)?;
    }
    Ok(())
}
