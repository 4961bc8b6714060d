//! The masks of a device's members.

use crate::tests::members::steps::{Act, Sight, Step, check_steps};
use std::test::Fail;

// Equal masks count once, and each counts until its last member has left.
const MASKS: &[Step] = &[
    (Act::Nothing, &[Sight::Groups(0)]),
    (Act::Joins(0, "00000001"), &[Sight::Groups(1)]),
    (Act::Joins(1, "00000001"), &[Sight::Groups(1)]),
    (Act::Joins(2, "00000004"), &[Sight::Groups(2)]),
    (Act::Joins(3, "00000003"), &[Sight::Groups(3)]),
    (Act::Joins(4, "00000004"), &[Sight::Groups(3)]),
    (Act::Leaves(0), &[Sight::Groups(3)]),
    (Act::Leaves(2), &[Sight::Groups(3)]),
    (Act::Leaves(1), &[Sight::Groups(2)]),
    (Act::Leaves(3), &[Sight::Groups(1)]),
    (Act::Leaves(4), &[Sight::Groups(0)]),
    (Act::Joins(5, "00000001"), &[Sight::Groups(1)]),
];

#[test]
fn groups_are_the_masks_of_members(rt: HostRuntime) -> Result<(), Fail> {
    check_steps(&rt, rt.alloc(), &[], MASKS)
}
