//! What is done at a device on a trigger of one place, step by step, and what is seen of the device then.

ghost use Rattle.std.specs.Prelude.{◌≡◌, ◌+◌, ◌^◌, ◌<◌, IfOk};
ghost use Rattle.iio_layout.specs.Layout.{scan_size};
ghost use Rattle.iio_layout.specs.Shape.{count_of};

use crate::tests::members::devices::device_of;
use iio_device::{Device, Handled, JoinRefused, Member, RemaskFault, RemaskRefused};
use iio_kfifo::{Kfifo, Tail};
use iio_layout::{Shape, scan_size};
use iio_mask::Mask;
use iio_trigger::Trigger;
use std::alloc::Global;
use std::process::Abort;
use std::test::Fail;

/// What is done. Members are named by their numbers, which count joinings from 0 on.
#[derive(Clone, Copy)]
pub(crate) enum Act {
    Nothing,
    /// A member of that number joins under a mask, with a queue of one scan.
    Joins(u64, &'static str),
    Leaves(u64),
    /// The trigger is polled at that moment.
    Polls(i64),
    /// The entry that is due is handled, and that many members are offered their scans.
    Handles(u32),
    /// A poll at that moment, and then the handling of its entry, as by `Polls` and `Handles`.
    Captures(i64, u32),
    /// A member asks for another mask, with a queue of one scan: the answer is how many scans wait in its old queue and how
    /// many that lost, or why it is refused. A refusal gives the new queue back.
    Remasks(u64, &'static str, Result<(u32, u64), RemaskFault>),
    /// A member's oldest scan is taken.
    Takes(u64, [u8; 2]),
    Unplugs,
}

/// What is seen of a device.
#[derive(Clone, Copy)]
pub(crate) enum Sight {
    /// The number of distinct masks of the members.
    Groups(u32),
    Members(u32),
    Captures(u64),
    Overruns(u64),
    /// The bits of the mask that its sensor is asked under.
    Active(u64),
    /// How many scans wait for a member.
    Waiting(u64, u32),
    /// How many scans a member's queue lost.
    Lost(u64, u64),
    /// A member is live under the mask with these bits.
    IsUnder(u64, u64),
    First(u64),
    /// What `may_remask` returns for a member and the mask with these bits.
    MayRemask(u64, u64, Result<(), RemaskFault>),
}

/// A step: what is done, and what is seen afterwards.
pub(crate) type Step = (Act, &'static [Sight]);

// The mask of a text, for the channels of a shape.
fn mask_of(rt: &impl Abort, shape: &Shape, text: &str) -> Result<Mask, Fail>
    ensures { IfOk result (λ mask. mask.bits < 2 ^ count_of shape.now) }
{
    let count = shape.count();
    assert!(rt; 1 <= count && count <= 64);
    Ok(Mask::read(text.as_bytes(), count).ok_or("no mask")?)
}

// A queue of one scan under a mask.
fn queue_for(rt: &impl Abort, alloc: Global, shape: &Shape, mask: Mask) -> Result<Kfifo, Fail>
    requires { mask.bits < 2 ^ count_of shape.now }
    ensures size { IfOk result (λ queue. ⟦<Kfifo as Tail>⟧.size queue ≡ scan_size shape.now mask.bits) }
    ensures fresh { IfOk result (λ queue. ⟦<Kfifo as Tail>⟧.taken queue + ⟦<Kfifo as Tail>⟧.lost queue ≡ 0) }
{
    let size = scan_size(shape, mask);
    assert!(rt; 1 <= size && size <= 8);
    Ok(Kfifo::new(alloc, 1, size)?)
}

// Whether a member joins and gets that number.
fn joins(
    rt: &impl Abort,
    alloc: Global,
    device: &mut Device<Kfifo>,
    trigger: &mut Trigger,
    number: u64,
    mask: &str,
) -> Result<bool, Fail> {
    let mask = mask_of(rt, device.shape(), mask)?;
    let tail = queue_for(rt, alloc, device.shape(), mask)?;
    assert!(rt; device.trigger().is_some());
    match device.join(mask, tail, trigger) {
        Ok(member) => Ok(member.number == number),
        Err(JoinRefused { fault: _, tail: _ }) => Ok(false),
    }
}

fn leaves(device: &mut Device<Kfifo>, trigger: &mut Trigger, number: u64) -> bool {
    device.leave(Member { number }, trigger).is_some()
}

fn handles(device: &mut Device<Kfifo>, trigger: &mut Trigger, members: u32) -> Result<bool, Fail> {
    let due = trigger.due(0).ok_or("no entry")?;
    let handled = device.handle(&due);
    trigger.done(due);
    Ok(handled == Handled::Captured(members))
}

fn remasks(
    rt: &impl Abort,
    alloc: Global,
    device: &mut Device<Kfifo>,
    number: u64,
    mask: &str,
    answer: Result<(u32, u64), RemaskFault>,
) -> Result<bool, Fail> {
    let mask = mask_of(rt, device.shape(), mask)?;
    let tail = queue_for(rt, alloc, device.shape(), mask)?;
    let size = tail.size();
    match device.remask(&Member { number }, mask, tail) {
        Ok(before) => Ok(answer == Ok((before.waiting(), before.lost()))),
        Err(RemaskRefused { fault, tail }) => {
            Ok(answer == Err(fault) && tail.waiting() == 0 && tail.size() == size)
        }
    }
}

fn takes(device: &mut Device<Kfifo>, number: u64, bytes: [u8; 2]) -> bool {
    let mut scan = [0u8; 2];
    let taken = device.take(&Member { number }, &mut scan);
    taken == Some(true) && scan == bytes
}

// Does what a step says, and returns whether it is answered as it should be.
fn does(
    rt: &impl Abort,
    alloc: Global,
    device: &mut Device<Kfifo>,
    trigger: &mut Trigger,
    act: Act,
) -> Result<bool, Fail> {
    match act {
        Act::Nothing => {}
        Act::Joins(number, mask) => return joins(rt, alloc, device, trigger, number, mask),
        Act::Leaves(number) => return Ok(leaves(device, trigger, number)),
        Act::Polls(t) => {
            trigger.poll(t);
        }
        Act::Handles(members) => return handles(device, trigger, members),
        Act::Captures(t, members) => {
            trigger.poll(t);
            return handles(device, trigger, members);
        }
        Act::Remasks(number, mask, answer) => {
            return remasks(rt, alloc, device, number, mask, answer);
        }
        Act::Takes(number, bytes) => return Ok(takes(device, number, bytes)),
        Act::Unplugs => {
            device.unplug();
        }
    }
    Ok(true)
}

fn shows(device: &Device<Kfifo>, sight: Sight) -> bool {
    match sight {
        Sight::Groups(count) => device.groups() == count,
        Sight::Members(count) => device.members() == count,
        Sight::Captures(count) => device.captures() == count,
        Sight::Overruns(count) => device.overruns() == count,
        Sight::Active(bits) => device.active() == Some(Mask { bits }),
        Sight::Waiting(number, count) => device.waiting(&Member { number }) == Some(count),
        Sight::Lost(number, count) => device.lost(&Member { number }) == Some(count),
        Sight::IsUnder(number, bits) => device.is_live_under(&Member { number }, Mask { bits }),
        Sight::First(number) => device.first_member() == Some(Member { number }),
        Sight::MayRemask(number, bits, answer) => {
            device.may_remask(&Member { number }, Mask { bits }) == answer
        }
    }
}

// The number of these that are seen, up to the first that isn't.
fn count_shown(device: &Device<Kfifo>, sights: &[Sight]) -> usize {
    for (place, sight) in sights.iter().enumerate() {
        if !shows(device, *sight) {
            return place;
        }
    }
    sights.len()
}

// The number of steps that are answered and seen as they should be, up to the first that isn't, and the number of sights of
// that one.
fn count_right(
    rt: &impl Abort,
    alloc: Global,
    listed: &[&str],
    steps: &[Step],
) -> Result<(usize, usize), Fail> {
    let mut device = device_of(alloc, listed)?;
    let mut trigger = Trigger::new(1);
    for (place, step) in steps.iter().enumerate() {
        let (act, sights) = *step;
        let done = does(rt, alloc, &mut device, &mut trigger, act)?;
        let shown = count_shown(&device, sights);
        if !done || shown != sights.len() {
            return Ok((place, shown));
        }
    }
    Ok((steps.len(), 0))
}

/// Plays the steps at a new device with these listed masks. A failure shows the place of the step, and the place of the sight
/// that isn't as it should be.
pub(crate) fn check_steps(
    rt: &impl Abort,
    alloc: Global,
    listed: &[&str],
    steps: &[Step],
) -> Result<(), Fail> {
    let right = count_right(rt, alloc, listed, steps)?;
    assert_eq!(rt; right, (steps.len(), 0));
    Ok(())
}
