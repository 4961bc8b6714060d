//! Numbers among the program's words.

ghost use Rattle.std.specs.Prelude.{◌≡◌, ℕ, ◌^◌, ◌<◌, IsNone, IfSome};
ghost use Rattle.std.specs.Fmt.{decimal};

use itoa::Buffer;

/// Returns the number of which a text is the one decimal spelling. `None` exactly for other texts.
pub fn read_spelled(text: &str) -> Option<u64>
    ensures found { IfSome result (λ n. (n < 2 ^ 64) × (text.now ≡ decimal n)) }
    ensures none { IsNone result → (n : ℕ) → n < 2 ^ 64 → text.now ≡ decimal n → ⊥ }
{
    let Ok(n) = text.parse::<u64>() else {
        return None;
    };
    if Buffer::new().format(n) != text {
        return None;
    }
    Some(n)
}
