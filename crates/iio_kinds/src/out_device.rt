//! An output device of a bench.

ghost use Rattle.std.specs.Prelude.{◌≡◌, ◌≤◌, [], IfSome, length};
ghost use Rattle.std.proofs.Props.{props};
ghost use Rattle.iio_output.specs.Out.{WriterRecord};

use iio_attr::Name;
use iio_base::Sum;
use iio_output::Out;

/// An output device. It has at most one member, its writer.
#[derive(Drop)]
pub struct OutDevice {
    pub(crate) name: Name,
    /// The device's number in the description.
    pub(crate) number: u32,
    pub(crate) out: Out,
    pub(crate) plugged: bool,
    /// The number of its trigger. A device that has a writer has a trigger.
    pub(crate) trigger: Option<u32>,
    /// The number of writers that have started; it is the number of the present attachment, and one above the present writer's.
    pub(crate) starts: u64,
    /// The underruns of the writers that have left: how often no scan of theirs waited.
    pub(crate) lost: Sum,
    /// The scan that it was given last; its length is that of the present writer's scans.
    pub(crate) room: Vec<u8>,
    ghost unlisted: { out.shape.listed ≡ [] } by { Prim.hlevel props },
    ghost roomy: { IfSome out.writer (λ (w : WriterRecord). length room.items ≡ w.size) } by { Prim.hlevel props },
    ghost begun: { IfSome out.writer (λ (w : WriterRecord). 1 ≤ starts) } by { Prim.hlevel props },
}
