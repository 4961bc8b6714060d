//! What the words of `readdev` want of a description.

ghost use Rattle.std.specs.Prelude.{◌≡◌, ◌^◌, ◌<◌, ◌≤◌, true, option_map, IfOk, IfErr, IfSome, Ok, Err};
ghost use Rattle.iio_layout.specs.Active.{has_data};
ghost use Rattle.iio_layout.specs.Shape.{count_of};
ghost use Rattle.iiod_client.specs.Ask.{IsAsk, wanted_by};
ghost use Rattle.iiod_readdev.specs.Wanted.{data_mask, wanted_of};
ghost use Rattle.iiod_readdev.specs.Words.{words_of};

use crate::words::Words;
use iio_desc::Desc;
use iio_layout::{Shape, has_data};
use iio_mask::Mask;
use iio_text::Why;
use iiod_client::Ask;

// Returns the mask of a device that a text gives, if it has a data channel.
fn read_mask(shape: &Shape, text: &[u8]) -> Option<Mask>
    ensures value { option_map (λ m. m.bits) result ≡ data_mask shape.now text.now }
    ensures below { IfSome result (λ m. m.bits < 2 ^ count_of shape.now) }
    ensures data { IfSome result (λ m. has_data shape.now m.bits ≡ true) }
{
    let Some(mask) = Mask::read(text, shape.count()) else {
        return None;
    };
    if !has_data(shape, mask) {
        return None;
    }
    Some(mask)
}

/// Returns what the words want of a description. `Device` if none of its `device` lines has the name; otherwise `Mask` if the
/// text isn't a mask of that device with a data channel.
pub(crate) fn ask_of<'a>(desc: &'a Desc, words: &'a Words<'a>) -> Result<Ask<'a>, Why>
    requires samples { 1 ≤ words.now.samples }
    requires scans { 1 ≤ words.now.scans }
    ensures found { IfOk result (λ ask. wanted_of desc.now (words_of words.now) ≡ Ok (wanted_by ask)) }
    ensures sound { IfOk result (λ ask. IsAsk (wanted_by ask)) }
    ensures refused { IfErr result (λ why. wanted_of desc.now (words_of words.now) ≡ Err why) }
{
    let Some(number) = desc.find_device(words.device) else {
        return Err(Why::Device);
    };
    let Some(described) = desc.devices.get(number as usize) else {
        return Err(Why::Device);
    };
    let shape = &described.shape;
    let Some(mask) = read_mask(shape, words.mask) else {
        return Err(Why::Mask);
    };
    Ok(Ask {
        device: words.device,
        shape,
        mask,
        samples: words.samples,
        scans: words.scans,
    })
}
