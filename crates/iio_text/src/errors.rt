//! The error numbers of the Linux kernel that answers carry.

ghost use Rattle.std.specs.Prelude.{◌≡◌, pos};
ghost use Rattle.iio_text.specs.Errno.{errno_number};

/// Why a command is refused, as a number of the Linux kernel (`errno-base.h`, `errno.h`). Lack of
/// memory is [`Mem`](crate::Mem) and has no variant here.
#[derive(Clone, Copy, Debug, PartialEq, Eq)]
pub enum Errno {
    /// No such attribute, channel or trigger.
    ENOENT,
    /// The driver failed.
    EIO,
    /// More than a limit allows, or a line that is too long.
    E2BIG,
    /// Not open here.
    EBADF,
    /// Nothing is there yet.
    EAGAIN,
    /// Not writable.
    EACCES,
    /// In use.
    EBUSY,
    /// No such device, or it is unplugged.
    ENODEV,
    /// An invalid command, mask or value.
    EINVAL,
    /// A payload that is too large.
    EFBIG,
    /// No place is free.
    ENOSPC,
    /// A value out of its range.
    ERANGE,
    /// Not built.
    ENOSYS,
}

impl Errno {
    /// The kernel's number, which is positive: answers carry it with a minus sign.
    pub fn number(self) -> i64
        ensures { result ≡ pos (errno_number self) }
    {
        match self {
            Errno::ENOENT => 2,
            Errno::EIO => 5,
            Errno::E2BIG => 7,
            Errno::EBADF => 9,
            Errno::EAGAIN => 11,
            Errno::EACCES => 13,
            Errno::EBUSY => 16,
            Errno::ENODEV => 19,
            Errno::EINVAL => 22,
            Errno::EFBIG => 27,
            Errno::ENOSPC => 28,
            Errno::ERANGE => 34,
            Errno::ENOSYS => 38,
        }
    }
}
