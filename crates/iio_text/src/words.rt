//! The words of a line.

ghost use Rattle.std.specs.Prelude.{◌≡◌, ◌≤◌, ◌↔◌, ◌&&◌, not, IsNone, IfSome, [], length, option_map};
ghost use Rattle.std.specs.List.{prefix_len, position_or_len};
ghost use Rattle.std.specs.Str.{bytes_eq};
ghost use Rattle.iio_text.specs.Words.{is_space, words_of, IsFirstWord, one_of, two_of, three_of, from_word};

// The number of spaces that the text begins with.
fn spaces_len(text: &[u8]) -> usize
    ensures within { result ≤ length text.now }
    ensures value { result ≡ prefix_len is_space text.now }
{
    for (i, byte) in text.iter().enumerate() {
        if *byte != b' ' {
            return i;
        }
    }
    text.len()
}

// The number of bytes before the first space.
fn word_len(text: &[u8]) -> usize
    ensures within { result ≤ length text.now }
    ensures value { result ≡ position_or_len is_space text.now }
{
    for (i, byte) in text.iter().enumerate() {
        if *byte == b' ' {
            return i;
        }
    }
    text.len()
}

/// Returns the first word of the text, and the text after it; `None` if the text has no word.
///
/// A word is a longest run of bytes other than spaces; spaces at both ends don't count.
pub fn next_word(text: &[u8]) -> Option<(&[u8], &[u8])>
    ensures none { IsNone result ↔ (words_of is_space text.now ≡ []) }
    ensures found { IfSome result (λ r. IsFirstWord is_space text.now r.0.now r.1.now) }
{
    let (_, begun) = text.split_at(spaces_len(text));
    if begun.is_empty() {
        return None;
    }
    Some(begun.split_at(word_len(begun)))
}

/// The word of a text that has one word. Returns `None` exactly if it has another number of words. Spaces separate words.
pub fn one_word(text: &[u8]) -> Option<&[u8]>
    ensures { option_map (λ w. w.now) result ≡ one_of (words_of is_space text.now) }
{
    let (word, rest) = next_word(text)?;
    if next_word(rest).is_some() {
        return None;
    }
    Some(word)
}

/// The words of a text that has two words. Returns `None` exactly if it has another number of words.
pub fn two_words(text: &[u8]) -> Option<(&[u8], &[u8])>
    ensures { option_map (λ w. (w.0.now, w.1.now)) result ≡ two_of (words_of is_space text.now) }
{
    let (first, rest) = next_word(text)?;
    let second = one_word(rest)?;
    Some((first, second))
}

/// The words of a text that has three words. Returns `None` exactly if it has another number of words.
pub fn three_words(text: &[u8]) -> Option<(&[u8], &[u8], &[u8])>
    ensures { option_map (λ w. (w.0.now, w.1.now, w.2.now)) result ≡ three_of (words_of is_space text.now) }
{
    let (first, rest) = next_word(text)?;
    let (second, third) = two_words(rest)?;
    Some((first, second, third))
}

// Whether a word begins at a byte, after a space or after another byte.
fn begins_word(after_space: bool, byte: u8) -> bool
    ensures { result ≡ (after_space && not (is_space byte)) }
{
    after_space && byte != b' '
}

/// The number of words in a text, separated by spaces.
pub fn count_words(text: &[u8]) -> usize
    ensures { result ≡ length (words_of is_space text.now) }
{
    let mut count = 0;
    let mut after_space = true;
    for byte in text {
        count += usize::from(begins_word(after_space, *byte));
        after_space = *byte == b' ';
    }
    count
}

/// The text from its first word on, without the spaces that it begins with.
pub fn from_word(text: &[u8]) -> &[u8]
    ensures { result.now ≡ from_word text.now }
{
    let mut rest = text;
    while let [b' ', more @ ..] = rest {
        rest = more;
    }
    rest
}

/// Whether a word is `wanted`. Compares byte by byte, since words are short: if `wanted` is known at compile time, no loop is
/// left.
#[inline(always)]
pub fn is_word(word: &[u8], wanted: &[u8]) -> bool
    ensures { result ≡ bytes_eq word.now wanted.now }
{
    if word.len() != wanted.len() {
        return false;
    }
    for i in 0..wanted.len() {
        if word[i] != wanted[i] {
            return false;
        }
    }
    true
}
