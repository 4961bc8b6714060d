//! Scan masks: which channels of a device are selected, and the text of a mask.
#![tactic(auto)]

ghost use Rattle.std.specs.Prelude.{◌≡◌, ℕ, ◌-◌, ◌^◌, ◌<◌, ◌≤◌, ◌↔◌, ◌&&◌, ◌||◌, ◌++◌, ◌==◌, nat_lt, not, true, map, option_map, replicate, string_bytes, IsTrue, IfOk, IfSome, IfNone, Some, None, MatchOption, length, Contains, List, [], ◌∷◌};
ghost use Rattle.iio_mask.specs.Mask.{channels_of, has, union_of, union_of_all, is_within, without_channel, matching_mask};
ghost use Rattle.std.specs.List.{list_any};
ghost use Rattle.iio_mask.specs.Text.{digit_count, mask_of, mask_text, number_of, sized_bytes, IsMaskText};

pub use iio_base::Mem;
use std::alloc::Global;

/// A set of channels: channel c is in it exactly if bit c is 1.
#[derive(Clone, Copy, Debug, PartialEq, Eq)]
pub struct Mask {
    pub bits: u64,
}

impl Mask {
    /// Reads the text of a mask for `channels` channels: 8 hexadecimal digits of either case for each 32 channels, the most
    /// significant word first. Returns `None` for another length, another byte, or a bit at or above `channels`.
    pub fn read(text: &[u8], channels: u32) -> Option<Mask>
        requires some { 1 ≤ channels }
        requires few { channels ≤ 64 }
        ensures value { option_map (λ m. m.bits) result ≡ mask_of text.now channels }
        ensures spelled { IfSome result (λ m. IsMaskText channels text.now m.bits) }
        ensures only { (bits : ℕ) → IsMaskText channels text.now bits → option_map (λ m. m.bits) result ≡ Some bits }
    {
        let bits = mask_number(text, channels)?;
        Some(Mask { bits })
    }

    /// The text of the mask for `channels` channels, in lower case.
    pub fn print(self, alloc: Global, channels: u32) -> Result<String, Mem>
        requires some { 1 ≤ channels }
        requires few { channels ≤ 64 }
        requires below { self.bits < 2 ^ channels }
        ensures text { IfOk result (λ s. string_bytes s ≡ mask_text channels self.bits) }
        ensures read_back { IfOk result (λ s. mask_of (string_bytes s) channels ≡ Some self.bits) }
    {
        if channels <= 32 {
            Ok(hex::encode(alloc, (self.bits as u32).to_be_bytes())?)
        } else {
            Ok(hex::encode(alloc, self.bits.to_be_bytes())?)
        }
    }

    /// The text of the mask in place, without memory: the first 8 bytes, or 16 for more than 32 channels, are what `print`
    /// gives, and the rest are 0.
    pub fn digits(self, channels: u32) -> [u8; 16]
        requires some { 1 ≤ channels }
        requires few { channels ≤ 64 }
        requires below { self.bits < 2 ^ channels }
        ensures text { result ≡ mask_text channels self.bits ++ replicate (16 - digit_count channels) 0 }
    {
        let mut text = [0u8; 16];
        if channels <= 32 {
            let word = (self.bits as u32).to_be_bytes();
            hex::encode_to_slice(word, &mut text[..8]).unwrap();
        } else {
            hex::encode_to_slice(self.bits.to_be_bytes(), &mut text).unwrap();
        }
        text
    }

    /// The channels that are in either mask.
    pub fn union(self, other: Mask) -> Mask
        ensures value { result.bits ≡ union_of self.bits other.bits }
        ensures places { (c : ℕ) → has result.bits c ≡ (has self.bits c || has other.bits c) }
        ensures first { is_within self.bits result.bits ≡ true }
        ensures second { is_within other.bits result.bits ≡ true }
    {
        Mask {
            bits: self.bits | other.bits,
        }
    }

    /// Takes the first channel out of the mask. Returns `None` exactly if there is none.
    #[inline]
    pub fn pop_first(&mut self) -> Option<u32>
        ensures some { IfSome result (λ c. channels_of self.old.bits ≡ c ∷ channels_of self.new.bits) }
        ensures none { IfNone result ((channels_of self.old.bits ≡ []) × (self.new ≡ self.old)) }
        ensures member { IfSome result (λ c. has self.old.bits c ≡ true) }
        ensures fewer { IfSome result (λ _. self.new.bits < self.old.bits) }
    {
        if self.bits == 0 {
            return None;
        }
        let first = self.bits.trailing_zeros();
        self.bits &= self.bits - 1;
        Some(first)
    }

    /// Whether channel c is in the mask; no channel from 64 on is.
    #[inline]
    pub fn contains(self, c: u32) -> bool
        ensures { result ≡ has self.bits c }
    {
        has(self.bits, c)
    }

    /// Whether each channel of this mask is in the other.
    pub fn within(self, other: Mask) -> bool
        ensures value { result ≡ is_within self.bits other.bits }
        ensures places { IsTrue result ↔ ((c : ℕ) → IsTrue (has self.bits c) → IsTrue (has other.bits c)) }
    {
        self.bits & other.bits == self.bits
    }

    /// The mask without channel c, and otherwise the same.
    pub fn without(self, c: u32) -> Mask
        ensures value { result.bits ≡ without_channel self.bits c }
        ensures places { (k : ℕ) → has result.bits k ≡ (has self.bits k && not (k == c)) }
    {
        Mask {
            bits: without_channel(self.bits, c),
        }
    }
}

/// The mask to ask for if these masks are listed: the first that contains all that is wanted, or what is wanted itself if none
/// are listed. Returns `None` exactly if masks are listed and none of them contains it.
pub fn pick(listed: &[Mask], wanted: Mask) -> Option<Mask>
    ensures { option_map (λ m. m.bits) result ≡ matching_mask (map (λ m. m.bits) listed.now) wanted.bits }
{
    if listed.is_empty() {
        return Some(wanted);
    }
    listed.iter().find(|m| wanted.within(**m)).copied()
}

/// The laws of unions of masks, for contracts that speak of several masks. The call does nothing.
pub fn union_laws()
    // Another mask, wherever it stands among them, adds its channels.
    ensures one_more { (before after : List ℕ) (mask : ℕ) →
        union_of_all (before ++ mask ∷ after) ≡ union_of mask (union_of_all (before ++ after)) }
    // Without one of the masks the union lies within the union before.
    ensures one_less { (before after : List ℕ) (mask : ℕ) →
        is_within (union_of_all (before ++ after)) (union_of_all (before ++ mask ∷ after)) ≡ true }
    // Each of the masks lies within their union.
    ensures member { (masks : List ℕ) (mask : ℕ) → Contains masks mask → is_within mask (union_of_all masks) ≡ true }
    // A channel is in the union exactly if it is in one of the masks.
    ensures places { (masks : List ℕ) (c : ℕ) → has (union_of_all masks) c ≡ list_any (λ mask. has mask c) masks }
    // Masks with the same channels are the same.
    ensures same { (mask other : ℕ) → ((c : ℕ) → has mask c ≡ has other c) → mask ≡ other }
{}

// Whether bit c is 1.
#[inline]
fn has(bits: u64, c: u32) -> bool
    ensures { result ≡ has bits c }
{
    c < 64 && (bits >> c) & 1 == 1
}

// The number with 0 as its bit c.
fn without_channel(bits: u64, c: u32) -> u64
    ensures { result ≡ without_channel bits c }
{
    if has(bits, c) { bits - (1 << c) } else { bits }
}

// The mask that a text says.
fn mask_number(text: &[u8], channels: u32) -> Option<u64>
    ensures { result ≡ mask_of text.now channels }
{
    let bits = read_number(text, channels)?;
    fits(bits, channels).then_some(bits)
}

// The number that the digits spell, if there are as many as the channels require.
fn read_number(text: &[u8], channels: u32) -> Option<u64>
    ensures { result ≡ number_of text.now channels }
{
    if channels <= 32 {
        let mut word = [0u8; 4];
        read_bytes(text, &mut word)?;
        Some(u64::from(u32::from_be_bytes(word)))
    } else {
        let mut words = [0u8; 8];
        read_bytes(text, &mut words)?;
        Some(u64::from_be_bytes(words))
    }
}

// Reads pairs of digits into bytes, if there is exactly one pair for each byte of `out`.
fn read_bytes(text: &[u8], out: &mut [u8]) -> Option<()>
    ensures { MatchOption (sized_bytes text.now (length out.old)) (result ≡ None) (λ bytes. (result ≡ Some tt) × (out.new ≡ bytes)) }
{
    hex::decode_to_slice(text, out).ok()
}

// Whether the number has no bit at or above the channel count.
fn fits(bits: u64, channels: u32) -> bool
    ensures { result ≡ nat_lt bits (2 ^ channels) }
{
    channels >= 64 || bits < 1 << channels
}
