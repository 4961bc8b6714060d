//! The words of `readdev`.

ghost use Rattle.std.specs.Prelude.{◌≡◌, ◌≤◌, IsNone, IfSome};
ghost use Rattle.iiod_readdev.specs.Words.{IsNoReaddev, IsReaddev, amount_of, words_of};

use iio_text::read_number;

/// The words `readdev ADDRESS DEVICE SAMPLES MASK SCANS`.
#[derive(Clone, Copy)]
pub struct Words<'a> {
    pub address: &'a str,
    pub device: &'a [u8],
    pub samples: u32,
    pub mask: &'a [u8],
    pub scans: u32,
}

// Returns the number of a text, if it is at least 1.
fn read_amount(text: &str) -> Option<u32>
    ensures value { result ≡ amount_of text.now }
    ensures some { IfSome result (λ n. 1 ≤ n) }
{
    match read_number(text.as_bytes()) {
        None | Some(0) => None,
        Some(n) => Some(n),
    }
}

/// Returns what the words say. `None` exactly if they are other words.
pub(crate) fn read_words(words: &[String]) -> Option<Words<'_>>
    ensures found { IfSome result (λ said. IsReaddev words.now (words_of said)) }
    ensures some { IfSome result (λ said. (1 ≤ said.samples) × (1 ≤ said.scans)) }
    ensures none { IsNone result → IsNoReaddev words.now }
{
    let [word, address, device, samples, mask, scans] = words else {
        return None;
    };
    if word.as_str() != "readdev" {
        return None;
    }
    let samples = read_amount(samples.as_str())?;
    let scans = read_amount(scans.as_str())?;
    Some(Words {
        address: address.as_str(),
        device: device.as_bytes(),
        samples,
        mask: mask.as_bytes(),
        scans,
    })
}
