//! The commands of a connection.

/// The reason why a line is not a command.
#[derive(Clone, Copy, Debug)]
pub enum Refused {
    /// The line has no word.
    Empty,
    /// The first word is not a command.
    Unknown,
    /// The words fit no form of the command.
    Shape,
    /// A word that stands for a number or a count is not one.
    Number,
}

/// Where an attribute stands.
#[derive(Clone, Copy, Debug)]
pub enum Place<'a> {
    /// At the device itself.
    Device,
    /// At the connection's buffer of the device.
    Buffer,
    /// Among the device's debug attributes.
    Debug,
    /// At the input channel of this ID.
    Input(&'a [u8]),
    /// At the output channel of this ID.
    Output(&'a [u8]),
}

/// A command of a connection. Its words are slices of the line.
#[derive(Clone, Copy, Debug)]
pub enum Command<'a> {
    /// `HELP`: the line that names the profile.
    Help,
    /// `EXIT`: the connection ends.
    Exit,
    /// `VERSION`: the version.
    Version,
    /// `PRINT`: the context.
    Print,
    /// `TIMEOUT ms`, in milliseconds.
    Timeout {
        ms: u32,
    },
    /// `OPEN dev samples mask`, with or without `CYCLIC`: the number of samples of a buffer, and the text of a mask.
    Open {
        dev: &'a [u8],
        samples: u32,
        mask: &'a [u8],
        cyclic: bool,
    },
    /// `CLOSE dev`.
    Close {
        dev: &'a [u8],
    },
    /// `READ dev ..`: an attribute, or a place without one.
    Read {
        dev: &'a [u8],
        place: Place<'a>,
        attr: Option<&'a [u8]>,
    },
    /// `WRITE dev .. count`: an attribute, or a place without one, and the number of bytes of the payload. No target if the
    /// words between the device and the count have no form of READ.
    Write {
        dev: &'a [u8],
        target: Option<(Place<'a>, Option<&'a [u8]>)>,
        count: u32,
    },
    /// `READBUF dev bytes`: up to `bytes` bytes of scans.
    ReadBuf {
        dev: &'a [u8],
        bytes: u32,
    },
    /// `WRITEBUF dev bytes`: the number of bytes of scans in the payload.
    WriteBuf {
        dev: &'a [u8],
        bytes: u32,
    },
    /// `GETTRIG dev`: the name of the device's trigger.
    GetTrig {
        dev: &'a [u8],
    },
    /// `SETTRIG dev trig`, or `SETTRIG dev`, which removes the trigger.
    SetTrig {
        dev: &'a [u8],
        trigger: Option<&'a [u8]>,
    },
    /// `SET dev BUFFERS_COUNT n`: the buffers count for later OPENs of the device.
    SetBuffers {
        dev: &'a [u8],
        count: u32,
    },
    /// `REMASK dev mask`: the text of a mask, under which the connection's buffer of the device begins anew.
    Remask {
        dev: &'a [u8],
        mask: &'a [u8],
    },
    /// `EVOPEN dev`: the device's threshold events go to this connection.
    EvOpen {
        dev: &'a [u8],
    },
    /// `EVREAD dev`: the oldest event.
    EvRead {
        dev: &'a [u8],
    },
    /// `EVCLOSE dev`.
    EvClose {
        dev: &'a [u8],
    },
}
