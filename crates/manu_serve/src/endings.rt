//! How a run ends.

ghost use Rattle.std.specs.Prelude.{◌≡◌, ◌≢◌, ◌↔◌, option_map, Ok, Err};
ghost use Rattle.manu_serve.specs.Endings.{number_of, said_of};

use phase_reading::Stop;

/// How a run ended.
#[derive(Debug, Clone, Copy, PartialEq, Eq)]
pub enum Status {
    /// The input was read to its end and all was written.
    Done,
    /// Line 1 has ended and is no `create` line.
    BadHeader,
    /// The source failed.
    ReadFault,
    /// The sink failed.
    WriteFault,
    /// The input passes a limit.
    Limit,
    /// There was no memory.
    Memory,
    /// The words are no form of the command line.
    Usage,
}

impl Status {
    /// The number by which the program ends.
    pub fn number(self) -> u8
        ensures { result ≡ number_of self }
    {
        match self {
            Status::Done => 0,
            Status::BadHeader => 2,
            Status::ReadFault => 4,
            Status::WriteFault => 5,
            Status::Limit => 6,
            Status::Memory => 7,
            Status::Usage => 64,
        }
    }

    /// What the program then says on standard error, without its LF; nothing where all went well.
    pub fn text(self) -> Option<&'static str>
        ensures { option_map (λ text. text.now) result ≡ said_of self }
    {
        match self {
            Status::Done => None,
            Status::BadHeader => Some("manu: bad header"),
            Status::ReadFault => Some("manu: read fault"),
            Status::WriteFault => Some("manu: write fault"),
            Status::Limit => Some("manu: limit"),
            Status::Memory => Some("manu: memory"),
            Status::Usage => Some("manu: usage: manu run [--still]"),
        }
    }
}

/// How a run ended, and what it was given to keep.
pub struct Ended<K> {
    pub status: Status,
    pub keeper: K,
}

// The status that a reading ends by.
pub(crate) fn status_of(ended: Result<(), Stop>) -> Status
    ensures done { (result ≡ Status.Done) ↔ (ended ≡ Ok tt) }
    ensures bad_header { (result ≡ Status.BadHeader) ↔ (ended ≡ Err Stop.BadHeader) }
    ensures read_fault { (result ≡ Status.ReadFault) ↔ (ended ≡ Err Stop.ReadFault) }
    ensures write_fault { (result ≡ Status.WriteFault) ↔ (ended ≡ Err Stop.WriteFault) }
    ensures limit { (result ≡ Status.Limit) ↔ (ended ≡ Err Stop.Limit) }
    ensures memory { (result ≡ Status.Memory) ↔ (ended ≡ Err Stop.Memory) }
    ensures usage { result ≢ Status.Usage }
{
    match ended {
        Ok(()) => Status::Done,
        Err(Stop::BadHeader) => Status::BadHeader,
        Err(Stop::ReadFault) => Status::ReadFault,
        Err(Stop::WriteFault) => Status::WriteFault,
        Err(Stop::Limit) => Status::Limit,
        Err(Stop::Memory) => Status::Memory,
    }
}
