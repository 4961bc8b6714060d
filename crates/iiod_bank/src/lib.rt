//! What a hub keeps under its locks: devices and triggers, lent to jobs by a bank.
#![tactic(auto)]

mod attributes;
mod bank;
mod events;
mod first;
mod front;
mod opening;
mod own;
mod remasking;
mod trigger_jobs;
mod unplug;

pub use attributes::{LostWork, ReadWork, TriggerWork, WriteWork};
pub use bank::{Alone, Bank, DeviceJob, TriggerJob, Work};
pub use events::{EvCloseWork, EvOpenWork, EvReadWork, HandleWork};
pub use first::{Parts, parts_of};
pub use front::{Face, HubFront};
pub use opening::{LeaveJob, OpenJob, Opened, open_at};
pub use own::OwnBank;
pub use remasking::{RemaskWork, Remasked};
pub use trigger_jobs::{DoneJob, DueJob, PollJob};
pub use unplug::UnplugJob;
