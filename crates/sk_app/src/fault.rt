// Why a command isn't carried out.
ghost use Rattle.std.specs.Prelude.{◌≡◌};
ghost use Rattle.sk_app.specs.declared.fault.Stop.TheVariants.{NoMemory};
ghost use Rattle.sk_app.specs.Fault.{fault_status};
ghost use Rattle.sk_app.specs.Lent.{fault_of};

use crate::NoMemory;
use crate::status::Status;
use sk_model::ModelFault;
use sk_records::ReadFault;

/// Why a command isn't carried out; names are those of files.
#[derive(Clone, Copy)]
pub(crate) enum Fault<'w> {
    /// The words are no command.
    Words,
    /// The lines of the model are no text of the format.
    Text(ReadFault),
    /// The records of the model are no model, or what they name isn't there.
    Model(ModelFault),
    /// The lines of a linked part are no text of the format.
    Part(&'w str, ReadFault),
    /// In a linked part the value on a line doesn't read.
    PartNumber(&'w str, usize),
    /// There is no file with this name.
    Absent(&'w str),
    /// The folder failed at the read of this name.
    Unread(&'w str),
    /// The model has no group with this handle.
    Group(u32),
}

impl Fault<'_> {
    /// The status of a run that it ends.
    pub(crate) fn status(&self) -> Status
        ensures { result ≡ fault_status (fault_of self.now) }
    {
        match self {
            Fault::Words => Status::Words,
            Fault::Text(_) | Fault::Model(_) | Fault::Part(_, _) | Fault::PartNumber(_, _) => {
                Status::Model
            }
            Fault::Absent(_) => Status::Absent,
            Fault::Unread(_) => Status::Unread,
            Fault::Group(_) => Status::Group,
        }
    }
}

/// Why something that a command needs isn't there.
#[derive(Clone, Copy)]
pub(crate) enum Stop<'w> {
    /// The command isn't carried out.
    Refused(Fault<'w>),
    /// Memory was wanted.
    NoMemory,
}

impl From<NoMemory> for Stop<'_> {
    ghost from_gives = { λ _ s. s ≡ NoMemory };

    fn from(_: NoMemory) -> Self {
        Stop::NoMemory
    }
}
