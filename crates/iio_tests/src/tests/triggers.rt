//! Entries in hand, which no script shows. Places, polls and entries are played in `iio_script_tests`.

use iio_trigger::{Polled, Trigger};

// Takes a device's entry off the trigger, if it is due.
fn handle(trigger: &mut Trigger, dev: u32) -> bool {
    let Some(due) = trigger.due(dev) else {
        return false;
    };
    trigger.done(due)
}

// An entry is handed out once, is outstanding while it is in hand, and belongs to one trigger.
#[test]
fn entry_in_hand(rt: HostRuntime) {
    let mut trigger = Trigger::new(8);
    let mut other = Trigger::new(1);
    assert_eq!(rt; trigger.attach(4, 6), Ok(()));
    assert_eq!(rt; trigger.poll(11), Polled::Accepted(1));
    let Some(due) = trigger.due(4) else {
        assert!(rt; false);
        return;
    };
    assert_eq!(rt; (due.dev(), due.attachment(), due.t()), (4, 6, 11));
    assert!(rt; !handle(&mut trigger, 4));
    assert_eq!(rt; trigger.poll(12), Polled::Missed(1));
    assert!(rt; !other.done(due));
    assert_eq!(rt; trigger.poll(13), Polled::Missed(2));
}
