//! The words of `serve`.

ghost use Rattle.std.specs.Prelude.{◌≡◌, ℕ, ◌≤◌, List, IsNone, IfSome};
ghost use Rattle.std.specs.Fmt.{decimal};
ghost use Rattle.iiod_serve.specs.Words.{IsServe};

use crate::spelled::read_spelled;

// The minimum and the maximum number of milliseconds between ticks.
const MIN_PERIOD: u64 = 1;

const MAX_PERIOD: u64 = 60_000;

// Returns the number from 1 to 60,000 of which a text is the one decimal spelling. `None` exactly for other texts.
fn read_period(text: &str) -> Option<u32>
    ensures found { IfSome result (λ n. (1 ≤ n) × (n ≤ 60_000) × (text.now ≡ decimal n)) }
    ensures none { IsNone result → (n : ℕ) → 1 ≤ n → n ≤ 60_000 → text.now ≡ decimal n → ⊥ }
{
    let Some(n) = read_spelled(text) else {
        return None;
    };
    if n < MIN_PERIOD || n > MAX_PERIOD {
        return None;
    }
    Some(n as u32)
}

/// Returns the address and the period, in milliseconds, of the words `serve ADDRESS PERIOD`. `None` exactly for other words.
pub(crate) fn serve_words(words: &[String]) -> Option<(&str, u32)>
    ensures found { IfSome result (λ named. IsServe words.now named.0.now named.1) }
    ensures none { IsNone result → (address : List ℕ) (period : ℕ) → IsServe words.now address period → ⊥ }
{
    let [word, address, number] = words else {
        return None;
    };
    if word.as_str() != "serve" {
        return None;
    }
    let Some(period) = read_period(number.as_str()) else {
        return None;
    };
    Some((address.as_str(), period))
}
