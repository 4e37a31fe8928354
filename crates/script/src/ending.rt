// Why a script is played no further.
#[derive(Clone, Copy, Debug)]
pub enum Ending {
    // It has no more lines.
    End,

    // It cannot be read: the system's number of the error.
    Unreadable(i32),

    // What is under way cannot be kept.
    Unkept,

    // What is printed cannot be written: the system's number of the error.
    Unwritten(i32),
}
