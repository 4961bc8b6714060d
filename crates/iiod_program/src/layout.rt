//! The layout of a device of a description.

ghost use Rattle.std.specs.Prelude.{◌≡◌, ◌≤◌, ℕ, List, None, IfOk, IfSome, IfNone};
ghost use Rattle.iio_base.specs.Faults.{Rose};
ghost use Rattle.iio_script.specs.Ends.{HasStatus, Finishes, ShowsFaults, Writes, views_of};
ghost use Rattle.iio_script.specs.LineReader.{TakesBlocks};
ghost use Rattle.iio_script.specs.Plays.{Prints, WritesText};
ghost use Rattle.iiod_program.specs.Layout.{TakesForLine, laid_out, layout_of};

use crate::placing::lay_under;
use iio_desc::Desc;
use iio_io::{Sink, Source};
use iio_script::{Mem, Status, end_with, push_refused};
use iio_text::Why;
use iiod_serve::read_description;
use std::alloc::Global;

// Appends the layout of a device of a description, or its refusal:
// output devices and averaging devices are refused as unknown ones are.
fn lay_out(
    alloc: Global,
    desc: &Desc,
    device: &[u8],
    mask: &[u8],
    out: &mut Vec<u8>,
) -> Result<Status, Mem>
    ensures { IfOk result (λ status. Finishes (laid_out desc.now device.now mask.now) status out.old.items out.new.items) }
{
    let Some(number) = desc.find_device(device) else {
        return push_refused(alloc, out, 0, Why::Device);
    };
    let Some(described) = desc.devices.get(number as usize) else {
        return push_refused(alloc, out, 0, Why::Device);
    };
    lay_under(alloc, &described.shape, mask, out)
}

// Writes the layout of a device of a description.
fn lay_device<K: Sink>(
    alloc: Global,
    desc: &Desc,
    device: &[u8],
    mask: &[u8],
    output: &mut K,
) -> Status
    ensures prints { (text : List ℕ) × WritesText (K.written output.old) (K.written output.new) text
        × Prints (laid_out desc.now device.now mask.now) result text }
    ensures write_fault { result ≡ Status.WriteFault → Rose (K.faults output.old) (K.faults output.new) }
    ensures memory { result ≡ Status.Memory → K.faults output.new ≡ K.faults output.old }
    ensures counted { K.faults output.old ≤ K.faults output.new }
    ensures silent { IfNone (K.written output.old) (K.written output.new ≡ None) }
{
    let mut out = Vec::new(alloc);
    match lay_out(alloc, desc, device, mask, &mut out) {
        Ok(status) => end_with(output, &mut out, status),
        Err(Mem) => Status::Memory,
    }
}

/// Reads a description, which may use `drivers` drivers, from a source, and writes to a sink where each channel of the mask
/// stands in a scan of the device, and the scan's size. What comes after the line that ends the description isn't looked at,
/// and at most a piece was taken after the byte at which a line failed. If a read fails, nothing is written.
pub fn layout<S: Source, K: Sink>(
    alloc: Global,
    drivers: u32,
    device: &[u8],
    mask: &[u8],
    input: &mut S,
    output: &mut K,
) -> Status
    ensures lines { IfSome (S.left input.old) (λ left. IfSome (K.written output.old) (λ written.
        Writes (layout_of drivers left device.now mask.now) written result (K.written output.new))) }
    ensures taken { IfSome (S.left input.old) (λ left. TakesBlocks left (S.left input.new)) }
    ensures status { IfSome (S.left input.old) (λ left. HasStatus (layout_of drivers left device.now mask.now) result) }
    ensures words { result ≡ Status.Usage → ⊥ }
    ensures near { IfSome (S.left input.old) (λ left. TakesForLine result left (S.left input.new)) }
    ensures nothing { result ≡ Status.ReadFault → output.new ≡ output.old }
    ensures faults { ShowsFaults (views_of S.left S.faults K.written K.faults) result input.old input.new output.old output.new }
{
    match read_description(alloc, drivers, input, output) {
        Ok(desc) => lay_device(alloc, &desc, device, mask, output),
        Err(status) => status,
    }
}
