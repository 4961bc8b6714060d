//! A tick of a trigger.

ghost use Rattle.std.specs.Prelude.{◌≡◌, ◌<◌, IfSome, Some, drop};
ghost use Rattle.iio_desc.specs.declared.limits.TheConstants.{MAX_TRIGGERS};
ghost use Rattle.iiod_hub.specs.Link.{HasMoment, TicksOnce};

use crate::link::HubLink;
use iio_io::Ticker;
use iiod_bank::Bank;

/// Takes one moment of a ticker: sets the clock to it and polls a trigger at it, once. Returns whether there was a moment; if
/// there was none, nothing changes.
pub fn tick<B: Bank, T: Ticker>(link: &mut HubLink<B>, trigger: u32, ticker: &mut T) -> bool
    requires { trigger < MAX_TRIGGERS }
    ensures front { B.front link.new.bank ≡ B.front link.old.bank }
    ensures bank { IfSome (B.told link.old.bank) (λ b. IfSome (T.moments ticker.old) (λ ts. TicksOnce trigger b ts (B.told link.new.bank))) }
    ensures answer { IfSome (T.moments ticker.old) (HasMoment result) }
    ensures taken { IfSome (T.moments ticker.old) (λ ts. T.moments ticker.new ≡ Some (drop 1 ts)) }
{
    let Some(t) = ticker.next() else {
        return false;
    };
    link.bank.set_clock(t);
    link.poll(trigger, t);
    true
}
