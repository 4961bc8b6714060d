//! The answers of libiio 0.25's iiod to a connection, as bytes.
//!
//! A number is a line of its own. A value is the number of its bytes, the bytes, and LF. A block of READBUF is the number of
//! its bytes, the mask that they are under, the bytes, and a closing 0 if fewer came than were asked for. A caller that takes
//! the scans directly into the answer first leaves room for the head, then takes the scans after it, and at last fills in the
//! head and closes the block.
#![tactic(auto)]

ghost use Rattle.std.specs.Prelude.{◌≡◌, ◌+◌, ◌^◌, ◌≤◌, ◌<◌, ◌++◌, length, take, drop, vec_capacity, decimal, IsOk};
ghost use Rattle.iio_mask.specs.Text.{digit_count};
ghost use Rattle.iiod_reply.specs.Reply.{Number, Value, line, text_of, block_text, closing_text, head_length, head_text, Appends, AppendsRoom, FitsInRoom};

pub use iio_base::Mem;
use iio_mask::Mask;
use iio_text::append_reserved;
use itoa::Buffer;

// The most bytes of a block's head: the number of its bytes, the mask, and an LF after each.
const MOST_HEAD: usize = 20 + 1 + 16 + 1;

// The bytes in the place of a head until it is filled in.
const HEAD_ROOM: [u8; MOST_HEAD] = [b' '; MOST_HEAD];

/// Appends a number as a plain answer: its decimal digits, with a `-` before them if it is negative, and LF. A refusal is minus
/// its `Errno`'s number. After `Mem`, `out` is unchanged.
pub fn number(n: i64, out: &mut Vec<u8>) -> Result<(), Mem>
    ensures text { Appends (text_of (Number n)) out.old.items result out.new.items }
    ensures room { FitsInRoom (text_of (Number n)) out.old.items (vec_capacity out.old) result }
    ensures capacity { vec_capacity out.old ≤ vec_capacity out.new }
{
    let mut buffer = Buffer::new();
    let digits = buffer.format(n).as_bytes();
    out.reserve(digits.len() + 1)?;
    append_reserved(digits, out);
    append_reserved(b"\n", out);
    Ok(())
}

/// Appends a value: the number of its bytes, LF, the bytes, LF. The number doesn't count the last LF. After `Mem`, `out` is
/// unchanged.
pub fn value(bytes: &[u8], out: &mut Vec<u8>) -> Result<(), Mem>
    ensures text { Appends (text_of (Value bytes.now)) out.old.items result out.new.items }
    ensures room { FitsInRoom (text_of (Value bytes.now)) out.old.items (vec_capacity out.old) result }
    ensures capacity { vec_capacity out.old ≤ vec_capacity out.new }
{
    let mut buffer = Buffer::new();
    let count = buffer.format(bytes.len()).as_bytes();
    out.reserve(count.len() + 1 + bytes.len() + 1)?;
    append_reserved(count, out);
    append_reserved(b"\n", out);
    append_reserved(bytes, out);
    append_reserved(b"\n", out);
    Ok(())
}

/// Appends a block of READBUF: its head, the bytes of the scans, and its closing. After `Mem`, `out` is unchanged.
pub fn block(
    mask: Mask,
    channels: u32,
    scans: &[u8],
    asked: u32,
    out: &mut Vec<u8>,
) -> Result<(), Mem>
    requires some { 1 ≤ channels }
    requires few { channels ≤ 64 }
    requires below { mask.bits < 2 ^ channels }
    requires taken { 1 ≤ length scans.now }
    requires within { length scans.now ≤ asked }
    ensures text { Appends (block_text channels mask.bits scans.now asked) out.old.items result out.new.items }
    ensures room { FitsInRoom (block_text channels mask.bits scans.now asked) out.old.items (vec_capacity out.old) result }
{
    let start = out.len();
    let came = scans.len();
    let head = head_length(channels, came);
    let closing = closing(came, asked);
    out.reserve(head + came + closing.len())?;
    append_reserved(&HEAD_ROOM[..head], out);
    append_reserved(scans, out);
    append_reserved(closing, out);
    block_head(mask, channels, came, came, start, out);
    Ok(())
}

/// Appends room for the head of a block of at most `most` bytes of scans: as many bytes as that head has, of any value. After
/// `Mem`, `out` is unchanged.
pub fn block_room(channels: u32, most: usize, out: &mut Vec<u8>) -> Result<(), Mem>
    ensures room { AppendsRoom (head_length channels most) out.old.items result out.new.items }
    ensures fits { length out.old.items + head_length channels most ≤ vec_capacity out.old → IsOk result }
    ensures capacity { vec_capacity out.old ≤ vec_capacity out.new }
{
    out.extend_from_slice(&HEAD_ROOM[..head_length(channels, most)])?;
    Ok(())
}

/// Writes the head of a block of `came` bytes of scans into the room that begins at `start` and was made for the head of `most`
/// bytes: their number, LF, the mask's text for `channels` channels, LF. The bytes after the room stay, and move towards the
/// start if the head is shorter. It takes no memory.
pub fn block_head(
    mask: Mask,
    channels: u32,
    most: usize,
    came: usize,
    start: usize,
    out: &mut Vec<u8>,
)
    requires some { 1 ≤ channels }
    requires few { channels ≤ 64 }
    requires below { mask.bits < 2 ^ channels }
    requires fewer { came ≤ most }
    requires room { start + head_length channels most ≤ length out.old.items }
    ensures items { out.new.items ≡ take start out.old.items ++ (head_text channels mask.bits came ++ drop (start + head_length channels most) out.old.items) }
    ensures capacity { vec_capacity out.new ≡ vec_capacity out.old }
{
    let room = head_length(channels, most);
    let head = put_head(mask, channels, came, start, out);
    if head < room {
        remove(out, start + head, room - head);
    }
}

/// Appends the closing of a block: `0`, LF exactly if fewer bytes of scans came than were asked for. After `Mem`, `out` is
/// unchanged.
pub fn block_closing(came: usize, asked: u32, out: &mut Vec<u8>) -> Result<(), Mem>
    ensures text { Appends (closing_text came asked) out.old.items result out.new.items }
    ensures room { FitsInRoom (closing_text came asked) out.old.items (vec_capacity out.old) result }
    ensures capacity { vec_capacity out.old ≤ vec_capacity out.new }
{
    let closing = closing(came, asked);
    out.reserve(closing.len())?;
    append_reserved(closing, out);
    Ok(())
}

// Returns the number of digits of the text of a mask.
fn digit_count(channels: u32) -> usize
    ensures value { result ≡ digit_count channels }
    ensures within { result ≤ 16 }
{
    if channels <= 32 { 8 } else { 16 }
}

// Returns the line that ends a block, if any.
fn closing(came: usize, asked: u32) -> &'static [u8]
    ensures { result.now ≡ closing_text came asked }
{
    if came < asked as usize { b"0\n" } else { b"" }
}

// Returns the number of digits of a number.
#[tactic(auto, using(crate::proofs::CameLaws::length_most))]
fn decimal_length(n: usize) -> usize
    ensures value { result ≡ length (decimal n) }
    ensures within { result ≤ 20 }
{
    Buffer::new().format(n).len()
}

// Returns the number of bytes of the head of a block with `came` bytes of scans.
fn head_length(channels: u32, came: usize) -> usize
    ensures value { result ≡ head_length channels came }
    ensures within { result ≤ MOST_HEAD }
{
    decimal_length(came) + 1 + digit_count(channels) + 1
}

// Writes a line, with its LF, over as many bytes from `at` on, and returns their number.
fn put_line(text: &[u8], at: usize, out: &mut Vec<u8>) -> usize
    requires { at + length (line text.now) ≤ length out.old.items }
    ensures length { result ≡ length (line text.now) }
    ensures items { out.new.items ≡ take at out.old.items ++ (line text.now ++ drop (at + length (line text.now)) out.old.items) }
    ensures capacity { vec_capacity out.new ≡ vec_capacity out.old }
{
    overwrite(out, at, text);
    overwrite(out, at + text.len(), b"\n");
    text.len() + 1
}

// Writes the head of a block over as many bytes from `at` on, and returns their number.
fn put_head(mask: Mask, channels: u32, came: usize, at: usize, out: &mut Vec<u8>) -> usize
    requires some { 1 ≤ channels }
    requires few { channels ≤ 64 }
    requires below { mask.bits < 2 ^ channels }
    requires room { at + head_length channels came ≤ length out.old.items }
    ensures length { result ≡ head_length channels came }
    ensures items { out.new.items ≡ take at out.old.items ++ (head_text channels mask.bits came ++ drop (at + head_length channels came) out.old.items) }
    ensures capacity { vec_capacity out.new ≡ vec_capacity out.old }
{
    let mut buffer = Buffer::new();
    let count = buffer.format(came).as_bytes();
    let digits = mask.digits(channels);
    let digits = &digits[..digit_count(channels)];
    let length = put_line(count, at, out);
    length + put_line(digits, at + length, out)
}

// Writes bytes over as many from `at` on.
fn overwrite(out: &mut Vec<u8>, at: usize, bytes: &[u8])
    requires { at + length bytes.now ≤ length out.old.items }
    ensures items { out.new.items ≡ take at out.old.items ++ (bytes.now ++ drop (at + length bytes.now) out.old.items) }
    ensures capacity { vec_capacity out.new ≡ vec_capacity out.old }
{
    out[at..at + bytes.len()].copy_from_slice(bytes);
}

// Removes `count` bytes from `at` on.
fn remove(out: &mut Vec<u8>, at: usize, count: usize)
    requires { at + count ≤ length out.old.items }
    ensures items { out.new.items ≡ take at out.old.items ++ drop (at + count) out.old.items }
    ensures capacity { vec_capacity out.new ≡ vec_capacity out.old }
{
    out[at..].rotate_left(count);
    out.truncate(out.len() - count);
}
