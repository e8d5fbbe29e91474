// How a run ends.
ghost use Rattle.std.specs.Prelude.{◌≡◌};
ghost use Rattle.sk_app.specs.Ends.{status_code, code_of};

/// How a command ends that was carried through up to its last piece.
#[derive(Clone, Copy, Debug, PartialEq, Eq)]
pub(crate) enum Status {
    /// It is done, and each listed group is certified.
    Done,
    /// It is done, and some listed group isn't certified.
    NotAll,
    /// The words are no command.
    Words,
    /// The model, or a linked part, is refused.
    Model,
    /// The model, or a linked part, is absent.
    Absent,
    /// The folder failed at a read.
    Unread,
    /// The model has no such group.
    Group,
}

/// How a run ends.
#[derive(Clone, Copy, Debug, PartialEq, Eq)]
pub(crate) enum End {
    /// All pieces were put, and the file was written.
    Full(Status),
    /// The folder failed at the write.
    WriteFailed,
    /// The sink failed at a put.
    SinkFailed,
    /// Memory was wanted.
    NoMemory,
}

impl Status {
    fn code(self) -> u8
        ensures { result ≡ status_code self }
    {
        match self {
            Status::Done => 0,
            Status::NotAll => 10,
            Status::Words => 1,
            Status::Model => 2,
            Status::Absent => 3,
            Status::Unread => 4,
            Status::Group => 9,
        }
    }
}

impl End {
    /// The status as the program ends with it.
    pub(crate) fn code(self) -> u8
        ensures { result ≡ code_of self }
    {
        match self {
            End::Full(status) => status.code(),
            End::WriteFailed => 5,
            End::SinkFailed => 6,
            End::NoMemory => 7,
        }
    }
}
