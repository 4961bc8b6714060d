//! Descriptions: which triggers and devices there are, what the devices' sensors recorded, and how their attributes
//! are set at first.
#![tactic(auto)]

mod desc_builder;
mod description;
mod device_builder;
mod keywords;
mod limits;
mod reader;

pub use crate::description::{AttrDesc, AverageDesc, Desc, DeviceDesc, OutDesc, TriggerDesc};
pub use crate::limits::{MAX_DEVICES, MAX_MASKS, MAX_ROWS, MAX_TRIGGERS, MAX_WINDOW};
pub use crate::reader::{DescFault, DescReader, is_end, read_desc};
pub use iio_attr::Name;
pub use iio_base::Mem;
pub use iio_layout::{Rows, Shape};
