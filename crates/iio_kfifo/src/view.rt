//! What the ends of a ring know. Of these types, code makes values of `Key` alone.

use std::collections::LinkedList;

/// The number of slots of a ring, and the size of a scan in bytes.
#[derive(Drop)]
pub(crate) struct Key {
    pub slots: u32,
    pub size: u32,
}

/// What became of an offer.
pub enum Offer {
    /// The scan was taken in.
    Accepted(LinkedList<u8>),
    /// The ring was full, and the scan was lost.
    Refused,
}

/// An accepted scan, and how many offers were lost before it.
pub struct Sent {
    /// Its bytes.
    pub scan: LinkedList<u8>,
    /// The number lost before it.
    pub lost: u64,
}

/// Which end a view is of: both before the split, the one or the other after it, both once they were joined, or none any more.
pub(crate) enum Part {
    Fresh,
    Writes,
    Reads,
    Joined,
    Spent,
}

/// What the writer knows.
pub struct Writing {
    /// What became of its offers, in order.
    pub offers: LinkedList<Offer>,
    /// Whether it has a slot in hand.
    pub turn: bool,
    /// The count of received scans, as it saw it last.
    pub seen: u64,
    /// How often it looked at that count.
    pub looks: u64,
    /// Whether it closed the ring.
    pub closed: bool,
}

/// What the reader knows.
pub struct Reading {
    /// The scans that it received, in order.
    pub received: LinkedList<Sent>,
    /// Those that it has in hand.
    pub hand: LinkedList<Sent>,
    /// The count of accepted scans, as it saw it last.
    pub seen: u64,
    /// How many scans were left by that count.
    pub left: u64,
    /// How often it looked at that count.
    pub looks: u64,
    /// The closed word, as it saw it last.
    pub word: u64,
    /// How often it asked for that word.
    pub asks: u64,
    /// The value of `looks` when it asked last.
    pub looked: u64,
    /// All offers ever made, once it saw the ring closed.
    pub offers: LinkedList<Offer>,
}

/// What an end knows. The part of an end that is not its own stays as it was at first.
pub(crate) struct View {
    pub part: Part,
    pub size: u32,
    pub writing: Writing,
    pub reading: Reading,
}
