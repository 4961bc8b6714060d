//! The lines and payloads of a stream.

ghost use Rattle.std.specs.Prelude.{◌≡◌, ◌+◌, ◌<◌, ◌≤◌, ◌++◌, true, [], Some, None, length, vec_capacity, IfOk};
ghost use Rattle.iiod_grammar.specs.Lines.{is_begun, new_lines, feed_of};
ghost use Rattle.iiod_grammar.specs.Scans.{Scans, EndsPiece};
ghost use Rattle.iiod_grammar.specs.Taking.{Takes};
ghost use Rattle.iiod_grammar.specs.declared.lines.Ready.{Ready};
ghost use Rattle.iiod_grammar.specs.declared.lines.TheConstants.{MAX_PAYLOAD};

use crate::kept::Kept;
use crate::line::len_without_returns;
use iio_base::Mem;
use std::alloc::Global;
use std::marker::Model;

/// The most bytes of a line before its LF, including CRs.
pub const MAX_LINE: usize = 1024;

/// The most bytes of a payload.
pub const MAX_PAYLOAD: u32 = 65_536;

/// What is ready after the bytes that were fed.
#[derive(Clone, Copy, Debug)]
pub enum Ready {
    /// No piece is whole yet; all bytes were taken.
    More,
    /// A line is whole.
    Line,
    /// The payload that was wanted is whole.
    Payload,
    /// More than 1,024 bytes without an LF stand where a line is expected. This is permanent, and no more bytes are taken.
    TooLong,
}

/// Takes a stream apart into lines and payloads, in whatever parts its bytes come.
#[derive(Debug, Drop)]
pub struct Lines {
    // The bytes of the piece that isn't whole, or those of the whole piece.
    kept: Kept,
    is_whole: bool,
    wanted: Option<u32>,
    overlong: bool,
}

impl Model for Lines {
    ghost use Rattle.std.specs.Prelude.{◌≡◌, ◌≤◌, true, [], if◌then◌else◌, vec_capacity};
    ghost use Rattle.iiod_grammar.specs.Lines.{LinesRecord, is_begun};
    ghost use Rattle.iiod_grammar.specs.declared.lines.TheConstants.{MAX_PAYLOAD};

    ghost Value = { LinesRecord };

    ghost view = { λ x. record {
      begun = if x.is_whole then [] else x.kept;
      wanted = x.wanted;
      piece = if x.is_whole then x.kept else [];
      overlong = x.overlong;
    } };

    ghost invariant = { λ x. is_begun x.wanted (if x.is_whole then [] else x.kept) ≡ true };
}

impl Lines {
    /// Creates a stream of which nothing has been received; a line comes first. The room for the longest piece is taken here,
    /// and no later call takes memory.
    pub fn new(alloc: Global) -> Result<Lines, Mem>
        ensures { IfOk result (λ lines. lines ≡ new_lines) }
    {
        Ok(Lines {
            kept: Kept::new(alloc)?,
            is_whole: false,
            wanted: None,
            overlong: false,
        })
    }

    /// Takes bytes up to the end of one piece, and returns how many it took and what is ready. The bytes of a piece that isn't
    /// whole are kept, so it doesn't matter how the stream is cut. A payload of no bytes is ready at once.
    #[inline(always)]
    pub fn feed(&mut self, bytes: &[u8]) -> (usize, Ready)
        ensures taken { result.0 ≡ (feed_of self.old bytes.now).taken }
        ensures ready { result.1 ≡ (feed_of self.old bytes.now).ready }
        ensures state { self.new ≡ (feed_of self.old bytes.now).lines }

        // What the bytes mean for the items of the stream, and some consequences.
        ensures items { Scans self.old bytes.now result.0 result.1 self.new }
        ensures piece { EndsPiece result.1 self.new }
        ensures within { result.0 ≤ length bytes.now }
        ensures some { result.1 ≡ Ready.Line → 0 < result.0 }
    {
        self.advance(bytes)
    }

    /// The piece that the last `feed` completed: a payload, or a line without its LF and the CRs before it. Empty if it
    /// completed none.
    pub fn piece(&self) -> &[u8]
        ensures { result.now ≡ self.now.piece }
    {
        if self.is_whole {
            self.kept.bytes()
        } else {
            b""
        }
    }

    /// Makes the next piece a payload of `count` bytes. No bytes of that piece may have been fed yet.
    pub fn want(&mut self, count: u32)
        requires within { count ≤ MAX_PAYLOAD }
        requires none_begun { self.old.begun ≡ [] }
        ensures { self.new ≡ record self.old { wanted = Some count } }
    {
        self.wanted = Some(count);
    }

    fn advance(&mut self, bytes: &[u8]) -> (usize, Ready)
        ensures taken { result.0 ≡ (feed_of self.old bytes.now).taken }
        ensures ready { result.1 ≡ (feed_of self.old bytes.now).ready }
        ensures state { self.new ≡ (feed_of self.old bytes.now).lines }
        ensures begun { is_begun self.old.wanted self.old.begun ≡ true }
        ensures within { result.0 ≤ length bytes.now }
        ensures some { result.1 ≡ Ready.Line → 0 < result.0 }
    {
        if self.overlong {
            return (0, Ready::TooLong);
        }
        if self.is_whole {
            self.kept.truncate(0);
            self.is_whole = false;
        }
        let (taken, ready) = match self.wanted {
            None => take_line(&mut self.kept, bytes),
            Some(count) => take_payload(&mut self.kept, count, bytes),
        };
        match ready {
            Ready::More => {}
            Ready::Line | Ready::Payload => {
                self.is_whole = true;
                self.wanted = None;
            }
            Ready::TooLong => self.overlong = true,
        }
        (taken, ready)
    }
}

// Takes bytes that belong to a line.
fn take_line(kept: &mut Kept, bytes: &[u8]) -> (usize, Ready)
    requires begun { is_begun None kept.old ≡ true }
    ensures takes { Takes None kept.old bytes.now result.0 result.1 kept.new }
    ensures within { result.0 ≤ length bytes.now }
    ensures some { result.1 ≡ Ready.Line → 0 < result.0 }
{
    if bytes.is_empty() {
        return (0, Ready::More);
    }
    let begun = kept.len();
    if begun == 0 && bytes[0] == b'\n' {
        return (1, Ready::Line);
    }
    let looked_at = bytes.len().min(MAX_LINE + 1 - begun);
    let end = kept.keep_line(&bytes[..looked_at]);
    if begun + end > MAX_LINE {
        kept.truncate(begun);
        return (0, Ready::TooLong);
    }
    if end == bytes.len() {
        return (end, Ready::More);
    }
    let len = len_without_returns(kept.bytes());
    kept.truncate(len);
    (end + 1, Ready::Line)
}

// Takes bytes that belong to a payload of `count` bytes.
fn take_payload(kept: &mut Kept, count: u32, bytes: &[u8]) -> (usize, Ready)
    requires begun { is_begun (Some count) kept.old ≡ true }
    ensures takes { Takes (Some count) kept.old bytes.now result.0 result.1 kept.new }
    ensures within { result.0 ≤ length bytes.now }
    ensures some { result.1 ≡ Ready.Line → 0 < result.0 }
{
    let missing = count as usize - kept.len();
    if bytes.len() < missing {
        kept.keep(bytes);
        return (bytes.len(), Ready::More);
    }
    kept.keep(&bytes[..missing]);
    (missing, Ready::Payload)
}
