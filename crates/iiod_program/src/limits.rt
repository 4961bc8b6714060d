//! The limits that definitions take from the code, with their numbers.

ghost use Rattle.std.specs.Prelude.{◌≡◌};
ghost use Rattle.iio_text.specs.declared.lines.TheConstants.{MAX_LINE_BYTES};
ghost use Rattle.iio_scan_type.specs.declared.TheConstants.{MAX_CHANNEL_SIZE, MAX_REPEAT};
ghost use Rattle.iio_layout.specs.declared.shape.TheConstants.{MAX_CHANNELS};
ghost use Rattle.iio_kfifo.specs.declared.limits.TheConstants.{MAX_BYTES};
ghost use Rattle.iio_trigger.specs.declared.limits.TheConstants.{MAX_PLACES};
ghost use Rattle.iio_desc.specs.declared.limits.TheConstants.{MAX_DEVICES, MAX_MASKS, MAX_ROWS, MAX_TRIGGERS};
ghost use Rattle.iio_event.specs.declared.monitor.TheConstants.{MAX_EVENTS};
ghost use Rattle.iiod_grammar.specs.declared.lines.TheConstants.{MAX_LINE, MAX_PAYLOAD};
ghost use Rattle.iiod_commands.specs.declared.client.TheConstants.{FIRST_BUFFERS, MAX_BUFFERS};
ghost use Rattle.iio_core.specs.declared.limits.TheConstants.{MAX_SCANS};
ghost use Rattle.iio_history.specs.declared.limits.TheConstants.{MAX_INPUT_BYTES, MAX_NAMES};
ghost use Rattle.iio_script.specs.declared.line_reader.TheConstants.{MAX_PIECE_BYTES};
ghost use Rattle.iiod_server.specs.declared.living.TheConstants.{MAX_CONNECTIONS};

/// The law that these limits are the numbers of docs/FORMATS.md: those of section 16, the repeat of a type (section 4), the
/// buffers count before a SET (section 11), and the number of bytes that a read asks for (section 2). The call does nothing.
pub fn limits_are_these()
    ensures input { MAX_INPUT_BYTES ≡ 67108864 }
    ensures piece { MAX_PIECE_BYTES ≡ 65536 }
    ensures line { MAX_LINE_BYTES ≡ 1048576 }
    ensures triggers { MAX_TRIGGERS ≡ 16 }
    ensures devices { MAX_DEVICES ≡ 16 }
    ensures places { MAX_PLACES ≡ 8 }
    ensures channels { MAX_CHANNELS ≡ 64 }
    ensures repeat { MAX_REPEAT ≡ 8 }
    ensures channel_size { MAX_CHANNEL_SIZE ≡ 16 }
    ensures masks { MAX_MASKS ≡ 16 }
    ensures rows { MAX_ROWS ≡ 1000000 }
    ensures names { MAX_NAMES ≡ 64 }
    ensures connections { MAX_CONNECTIONS ≡ 32 }
    ensures command { MAX_LINE ≡ 1024 }
    ensures payload { MAX_PAYLOAD ≡ 65536 }
    ensures first_buffers { FIRST_BUFFERS ≡ 4 }
    ensures buffers { MAX_BUFFERS ≡ 64 }
    ensures scans { MAX_SCANS ≡ 65536 }
    ensures bytes { MAX_BYTES ≡ 4194304 }
    ensures events { MAX_EVENTS ≡ 16 }
{}
