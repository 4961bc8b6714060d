//! Bytes that were received, but not yet looked at.

ghost use Rattle.std.specs.Prelude.{◌≡◌, ℕ, ◌-◌, ◌≤◌, List, [], ◌∷◌, length, take, drop, None, Err, IfOk, IfErr, OnOk, OnErr};
ghost use Rattle.iiod_client.specs.Exchange.{FaultsOf, IsLinkEnd};
ghost use Rattle.iiod_client.specs.Point.{Heard, point};

use crate::client_end::ClientEnd;
use iio_io::Link;
use std::marker::Model;

// The maximum number of bytes that one receive asks for.
const PIECE: usize = 4_096;

/// The bytes of the last receive that weren't looked at yet.
#[derive(Drop)]
pub(crate) struct Incoming {
    piece: [u8; PIECE],
    from: usize,
    until: usize,
}

impl Model for Incoming {
    ghost use Rattle.std.specs.Prelude.{ℕ, ◌-◌, ◌≤◌, List, take, drop};

    ghost Value = { List ℕ };

    ghost view = { λ a. take (a.until - a.from) (drop a.from a.piece) };

    ghost invariant = { λ a. (a.from ≤ a.until) × (a.until ≤ 4096) };
}

impl Incoming {
    /// Makes one that has received nothing.
    pub(crate) fn new() -> Incoming
        ensures { result ≡ [] }
    {
        Incoming {
            piece: [0; PIECE],
            from: 0,
            until: 0,
        }
    }

    /// Returns the bytes that weren't looked at yet.
    pub(crate) fn pending(&self) -> &[u8]
        ensures { result.now ≡ self.now }
    {
        &self.piece[self.from..self.until]
    }

    /// Marks `count` more of the bytes as looked at.
    pub(crate) fn skip(&mut self, count: usize)
        requires { count ≤ length self.old }
        ensures { self.new ≡ drop count self.old }
    {
        self.from += count;
    }

    /// Receives further bytes, after all were looked at. `Cut` if none will come.
    pub(crate) fn refill<L: Link>(&mut self, link: &mut L) -> Result<(), ClientEnd>
        requires { self.old ≡ [] }
        ensures heard { Heard (point (L.left link.old) [] None None) [] (point (L.left link.new) self.new None None) }
        ensures some { OnOk result (1 ≤ length self.new) }
        ensures end { IfErr result (λ e. IsLinkEnd e (point (L.left link.new) self.new None None)) }
        ensures written { L.written link.new ≡ L.written link.old }
        ensures faults { FaultsOf result (L.faults link.old) (L.faults link.new) 0 0 }
    {
        self.from = 0;
        self.until = 0;
        let Ok(count) = link.recv(&mut self.piece) else {
            return Err(ClientEnd::LinkFault);
        };
        if count == 0 {
            return Err(ClientEnd::Cut);
        }
        self.until = count;
        Ok(())
    }

    /// Ensures that there is a byte to look at.
    pub(crate) fn fill<L: Link>(&mut self, link: &mut L) -> Result<(), ClientEnd>
        ensures heard { Heard (point (L.left link.old) self.old None None) [] (point (L.left link.new) self.new None None) }
        ensures some { OnOk result (1 ≤ length self.new) }
        ensures end { IfErr result (λ e. IsLinkEnd e (point (L.left link.new) self.new None None)) }
        ensures written { L.written link.new ≡ L.written link.old }
        ensures faults { FaultsOf result (L.faults link.old) (L.faults link.new) 0 0 }
    {
        if self.pending().is_empty() {
            return self.refill(link);
        }
        Ok(())
    }

    /// Returns the next byte.
    pub(crate) fn next_byte<L: Link>(&mut self, link: &mut L) -> Result<u8, ClientEnd>
        ensures heard { IfOk result (λ b. Heard (point (L.left link.old) self.old None None) (b ∷ []) (point (L.left link.new) self.new None None)) }
        ensures none { OnErr result (Heard (point (L.left link.old) self.old None None) [] (point (L.left link.new) self.new None None)) }
        ensures end { IfErr result (λ e. IsLinkEnd e (point (L.left link.new) self.new None None)) }
        ensures written { L.written link.new ≡ L.written link.old }
        ensures faults { FaultsOf result (L.faults link.old) (L.faults link.new) 0 0 }
    {
        self.fill(link)?;
        let byte = self.pending()[0];
        self.skip(1);
        Ok(byte)
    }
}
