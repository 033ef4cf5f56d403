//! A file of a command, fetched from the shelf within its limit.

ghost use Rattle.std.specs.Prelude.{◌≡◌};
ghost use Rattle.lab_inputs.specs.Files.{bytes_of};
ghost use Rattle.lab_inputs.specs.Stages.{Reads, err_of, halt_of};

use crate::role::Role;
use crate::stop::{FileFault, Halt, Stop};
use lab_io::{FetchErr, Shelf};
use lab_model::InputFault;
use std::alloc::Global;

/// Why a file gives no value.
#[derive(Clone, Copy, PartialEq, Eq, Debug)]
pub(crate) enum FileErr {
    /// Memory was wanting.
    Memory,
    /// Something is wrong with the file.
    Stopped(FileFault),
}

impl From<InputFault> for FileErr {
    ghost use Rattle.std.specs.Prelude.{◌≡◌};
    ghost use Rattle.lab_inputs.specs.Stages.{err_of};

    ghost from_gives = { λ fault e. e ≡ err_of fault };

    fn from(fault: InputFault) -> FileErr {
        match fault {
            InputFault::Memory => FileErr::Memory,
            InputFault::Refused(why) => FileErr::Stopped(FileFault::Refused(why)),
        }
    }
}

impl FileErr {
    /// Why the command ends, which says what the file is for.
    pub(crate) fn at(self, role: Role) -> Halt
        ensures { result ≡ halt_of role self }
    {
        match self {
            FileErr::Memory => Halt::NoMemory,
            FileErr::Stopped(fault) => Halt::Stopped(Stop::File(role, fault)),
        }
    }
}

/// The bytes of a file, of which one more than the limit is asked for.
pub(crate) fn fetch_file<F: Shelf>(
    alloc: Global,
    shelf: &mut F,
    role: Role,
    name: &str,
) -> Result<Vec<u8>, FileErr>
    ensures { Reads (role, name.now) (λ bytes. bytes.items)
        (λ files. bytes_of role (files name.now))
        (F.shelved shelf.old) result (F.shelved shelf.new) }
{
    let limit = role.limit();
    match shelf.fetch(alloc, name, limit + 1) {
        Ok(bytes) if bytes.len() as u64 > limit => Err(FileErr::Stopped(FileFault::TooLong)),
        Ok(bytes) => Ok(bytes),
        Err(FetchErr::Failed) => Err(FileErr::Stopped(FileFault::NotRead)),
        Err(FetchErr::Memory) => Err(FileErr::Memory),
    }
}
