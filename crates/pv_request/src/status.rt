ghost use Rattle.std.specs.Prelude.{◌≡◌};
ghost use Rattle.pv_request.specs.Statuses.{code_of};

/// How a command ended.
#[derive(Clone, Copy, Debug, PartialEq, Eq)]
pub enum Status {
    /// Everything was done.
    Done,
    /// The budget ended the work with leaves still open.
    OpenLeft,
    /// The words, a value in them, the contractor program, the expression of `least` or the plane
    /// of a picture is refused.
    Usage,
    /// The text of the system is refused.
    SystemRefused,
    /// A paving file is refused.
    PavingRefused,
    /// A file could not be read.
    ReadFault,
    /// A file or the standard output could not be written.
    WriteFault,
    /// There was no memory.
    WantOfMemory,
    /// The tree would have too many settled nodes.
    TreeLimit,
    /// Two pavings disagree, or one is not what its system gives.
    Disagree,
    /// The store of a campaign failed.
    KeeperFault,
    /// There is no file of a name that was given.
    NoFile,
}

impl Status {
    /// The number with which the program ends.
    pub fn code(self) -> u8
        ensures { result ≡ code_of self }
    {
        match self {
            Status::Done => 0,
            Status::OpenLeft => 1,
            Status::Usage => 2,
            Status::SystemRefused => 3,
            Status::PavingRefused => 4,
            Status::ReadFault => 5,
            Status::WriteFault => 6,
            Status::WantOfMemory => 7,
            Status::TreeLimit => 8,
            Status::Disagree => 9,
            Status::KeeperFault => 10,
            Status::NoFile => 11,
        }
    }
}
