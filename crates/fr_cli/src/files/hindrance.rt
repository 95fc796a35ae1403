//! What stands in the way of using a register's file.
ghost use Rattle.std.specs.Prelude.{◌≡◌};
ghost use Rattle.fr_cli.specs.Checking.{text_of_hindrance};

/// Why a register in a file may be `NotARegister`, `WrongSchema` or `Unavailable`.
#[derive(Clone, Copy, Debug, PartialEq, Eq)]
pub enum Hindrance {
    /// There is no file.
    Missing,
    /// It cannot be looked at.
    Hidden,
    /// It is a folder, a pipe or a device.
    NoFile,
    /// The file has more than one hard link.
    SecondName,
    /// It may not be read.
    Unreadable,
    /// It may not be written.
    Unwritable,
    /// There is no log, and none may be made in the folder.
    ShutFolder,
    /// A program has locked it.
    InUse,
    /// A journal lies beside it.
    Journal,
    /// The log is a symbolic link, a folder or a pipe.
    LogNoFile,
    /// The log has more than one hard link.
    LogSecondName,
    /// The log may not be read, or not be written.
    ShutLog,
    /// A program has locked the log.
    LogInUse,
    /// The file does not begin as a database.
    NoDatabase,
    /// The database has no register.
    NoRegister,
    /// The register has another schema.
    OtherSchema,
    /// The database is damaged, or its tables and rows make no register.
    Damaged,
    /// It could not be looked at to the end.
    ReadFailed,
}

impl Hindrance {
    /// What is said of it.
    pub fn as_str(self) -> &'static str
        ensures { result.now ≡ text_of_hindrance self }
    {
        match self {
            Hindrance::Missing => "there is no such file",
            Hindrance::Hidden => "you may not look at it: a folder of its path is shut to you",
            Hindrance::NoFile => "it is a folder, a pipe or a device",
            Hindrance::SecondName => "it has a second name, a hard link",
            Hindrance::Unreadable => "you may not read it",
            Hindrance::Unwritable => "you may not write it, as each command does",
            Hindrance::ShutFolder => "its log is not there, and you may not make it in the folder",
            Hindrance::InUse =>
                "another program has it: a server, another command, or another SQLite",
            Hindrance::Journal =>
                "a -journal lies beside it: another SQLite was ended as it changed the file",
            Hindrance::LogNoFile => "its log is a symbolic link, a folder or a pipe",
            Hindrance::LogSecondName => "its log has a second name, a hard link",
            Hindrance::ShutLog => "you may not read its log, or not write it",
            Hindrance::LogInUse => "another program has its log",
            Hindrance::NoDatabase => "it is no SQLite database",
            Hindrance::NoRegister => "it is a database without a register",
            Hindrance::OtherSchema => "its schema is not 2: slotplan migrate takes one of schema 1",
            Hindrance::Damaged =>
                "the database is damaged, or its tables and rows make no register",
            Hindrance::ReadFailed => "a read of it failed, or it was gone before all was looked at",
        }
    }
}
