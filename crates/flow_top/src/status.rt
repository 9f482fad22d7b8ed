//! How a command ended.
ghost use Rattle.std.specs.Prelude.{◌≡◌};
ghost use Rattle.flow_top.specs.ExitStatus.{exit_of};

use lib_core::Name;
use lib_read::LibCode;
use mem_collect::CollectCode;
use net_wires::BuildCode;
use rtlil_text::TextCode;
use stim_text::StimCode;

/// What is wrong with a design.
#[derive(Clone, Copy, Debug, PartialEq, Eq)]
pub enum DesignCode {
    /// Its text is no RTLIL.
    Text(TextCode),
    /// Its text means no design.
    Build(BuildCode),
    /// Its memory cells make no memories.
    Collect(CollectCode),
}

/// What a limit counts.
#[derive(Clone, Copy, Debug, PartialEq, Eq)]
pub enum Counted {
    /// The bytes of a file that is read.
    File,
    /// What a text of a design has.
    Text,
    /// What a library has.
    Library,
    /// What a design has.
    Build,
    /// The nets of a module and those that its plans may add.
    Room,
    /// The events of a stimulus.
    Stimulus,
    /// The bytes of a trace.
    Trace,
}

/// How a command ended.
#[derive(Debug, PartialEq, Eq, Drop)]
pub enum Status {
    /// The command did its work.
    Ok,
    /// The words are not those of a command.
    Usage,
    /// A read failed.
    ReadFault,
    /// A write failed.
    WriteFault,
    /// The design was refused. Fields that the refusal does not have are empty or 0.
    Design {
        module: Name,
        name: Name,
        line: u32,
        code: DesignCode,
    },
    /// The library was refused.
    Library {
        line: u32,
        code: LibCode,
    },
    /// A memory fits no RAM.
    NoFit {
        module: Name,
        memory: Name,
    },
    /// A limit was passed; `seen` is the count that was met.
    Limit {
        counted: Counted,
        seen: u64,
    },
    /// Memory could not be had.
    Memory,
    /// The stimulus was refused.
    Stimulus {
        line: u32,
        code: StimCode,
    },
}

impl Status {
    /// The exit status of the process.
    pub fn exit_status(&self) -> u8
        ensures { result ≡ exit_of self.now }
    {
        match self {
            Status::Ok => 0,
            Status::Usage => 2,
            Status::ReadFault => 3,
            Status::WriteFault => 4,
            Status::Design { .. } => 5,
            Status::Library { .. } => 6,
            Status::NoFit { .. } => 7,
            Status::Limit { .. } => 8,
            Status::Memory => 9,
            Status::Stimulus { .. } => 10,
        }
    }
}
