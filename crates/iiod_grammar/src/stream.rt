//! A law on streams.

ghost use Rattle.iiod_grammar.specs.Stream.{ItemsCutAnywhere, ScannerCutAnywhere};

/// The law that it doesn't matter where a stream is cut: the items of bytes and further bytes are those of the first bytes,
/// followed by those of the further ones from where the first ended. The call does nothing; its contract is the law.
#[tactic(auto, using(crate::proofs::StreamLaws::items_cut, crate::proofs::StreamLaws::scanner_cut))]
pub fn cut_anywhere()
    ensures items { ItemsCutAnywhere }
    ensures scanner { ScannerCutAnywhere }
{}
