//! What the program's words ask for.

ghost use Rattle.std.specs.Prelude.{◌≡◌, ◌↔◌, ℕ, List, IsNone, IsTrue, IfSome};
ghost use Rattle.iiod_program.specs.Request.{Asks};
ghost use Rattle.iiod_program.specs.View.{request_view};
ghost use Rattle.iiod_program.specs.Words.{IsPlay, IsSolo, IsLayout, IsGen};

use iio_attr::Name;
use iiod_serve::read_spelled;

/// The request that the program's words make.
#[derive(Clone, Copy, Debug)]
pub enum Request<'a> {
    /// `play`: the transcript of the input.
    Play,
    /// `solo NAME`: what the input prints for the connection of that name without the others, and with them.
    Solo { name: &'a [u8] },
    /// `layout DEVICE MASK`: where the channels of the mask stand in a scan of the device.
    Layout { device: &'a [u8], mask: &'a [u8] },
    /// `gen N`: the counts of the input that the number makes.
    Gen(u64),
    /// Other words, or none.
    Other,
}

fn is_play(words: &[String]) -> bool
    ensures { IsTrue result ↔ IsPlay words.now }
{
    match words {
        [word] => word.as_str() == "play",
        _ => false,
    }
}

// Returns the name of the words `solo NAME`. `None` exactly for other words.
fn solo_words(words: &[String]) -> Option<&[u8]>
    ensures found { IfSome result (λ name. IsSolo words.now name.now) }
    ensures none { IsNone result → (name : List ℕ) → IsSolo words.now name → ⊥ }
{
    let [word, name] = words else {
        return None;
    };
    if word.as_str() != "solo" {
        return None;
    }
    let name = name.as_bytes();
    if Name::new(name).is_none() {
        return None;
    }
    Some(name)
}

// Returns the device and the mask of the words `layout DEVICE MASK`. `None` exactly for other words.
fn layout_words(words: &[String]) -> Option<(&[u8], &[u8])>
    ensures found { IfSome result (λ named. IsLayout words.now named.0.now named.1.now) }
    ensures none { IsNone result → (device mask : List ℕ) → IsLayout words.now device mask → ⊥ }
{
    let [word, device, mask] = words else {
        return None;
    };
    if word.as_str() != "layout" {
        return None;
    }
    Some((device.as_bytes(), mask.as_bytes()))
}

// Returns the number of the words `gen N`. `None` exactly for other words.
fn gen_words(words: &[String]) -> Option<u64>
    ensures found { IfSome result (λ n. IsGen words.now n) }
    ensures none { IsNone result → (n : ℕ) → IsGen words.now n → ⊥ }
{
    let [word, number] = words else {
        return None;
    };
    if word.as_str() != "gen" {
        return None;
    }
    read_spelled(number.as_str())
}

/// Returns what the words after the program's name ask for.
pub fn request_of(words: &[String]) -> Request<'_>
    ensures { Asks words.now (request_view result) }
{
    if is_play(words) {
        return Request::Play;
    }
    if let Some(name) = solo_words(words) {
        return Request::Solo { name };
    }
    if let Some((device, mask)) = layout_words(words) {
        return Request::Layout { device, mask };
    }
    if let Some(n) = gen_words(words) {
        return Request::Gen(n);
    }
    Request::Other
}
