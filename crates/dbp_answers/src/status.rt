// How a call ends.

/// How a call of the program ended. The numbers are the exit statuses of the program `dbp`.
#[derive(Clone, Copy, Debug, PartialEq, Eq)]
pub enum Status {
    /// The input was read to its end, if the command reads one, and the command's text was written whole.
    Ok = 0,
    /// The document was refused, or a step of its script isn't allowed, and the line that says so was written whole.
    Refused = 1,
    /// A release meets an unfinished instance of its task in the simulation, and the line that says so was written whole.
    Overrun = 3,
    /// The arguments are no command that the call serves. Nothing was read or written.
    Usage = 2,
    /// A read failed. Nothing was written.
    ReadFault = 4,
    /// A write failed. Not all of the text was written.
    WriteFault = 5,
    /// Memory ran out. Nothing was written.
    NoMemory = 6,
    /// The input has more than 1,048,576 bytes. Nothing was written.
    TooLarge = 7,
}

const _: () = prove!(
    Status::Ok as u8 == 0 && Status::Refused as u8 == 1 && Status::Usage as u8 == 2
);

const _: () = prove!(
    Status::Overrun as u8 == 3 && Status::ReadFault as u8 == 4 && Status::WriteFault as u8 == 5
);

const _: () = prove!(Status::NoMemory as u8 == 6 && Status::TooLarge as u8 == 7);
