//! The limits of a client, with their numbers.

ghost use Rattle.std.specs.Prelude.{◌≡◌};
ghost use Rattle.iiod_client.specs.declared.answer.TheConstants.{MAX_ASKED};
ghost use Rattle.iiod_client.specs.declared.client.TheConstants.{MOST_SCANS};
ghost use Rattle.iiod_client.specs.declared.line.TheConstants.{MAX_LINE};

/// The law that these limits are the numbers of docs/FORMATS.md, section 20: the maximum
/// number of scans that one READBUF asks for, the bytes of that many of the largest
/// scan, and the maximum number of bytes of a line before its LF. The call does nothing.
pub fn limits_are_these()
    ensures scans { MOST_SCANS ≡ 64 }
    ensures asked { MAX_ASKED ≡ 65536 }
    ensures line { MAX_LINE ≡ 32 }
{}
