// Why a text isn't a model.

ghost use Rattle.std.specs.Prelude.{◌≡◌};

use sk_model::ModelFault;
use sk_records::ReadFault;

/// Why a text isn't a model. Want of memory has a variant of its own, and no other tells it.
#[derive(Clone, Copy, Debug, PartialEq, Eq)]
pub enum TextFault {
    /// Its lines are no text of the format.
    Unread(ReadFault),
    /// Its records are no model.
    Untyped(ModelFault),
    /// Memory was wanted.
    NoMemory,
}

impl From<ReadFault> for TextFault {
    ghost use Rattle.sk_session.specs.Opening.{of_text};

    ghost from_gives = { λ f e. e ≡ of_text f };

    #[tactic(auto, unfolding(crate::specs::Opening::of_text))]
    fn from(fault: ReadFault) -> Self {
        match fault {
            ReadFault::NoMemory => TextFault::NoMemory,
            fault => TextFault::Unread(fault),
        }
    }
}

impl From<ModelFault> for TextFault {
    ghost use Rattle.sk_session.specs.Opening.{of_model};

    ghost from_gives = { λ f e. e ≡ of_model f };

    #[tactic(auto, unfolding(crate::specs::Opening::of_model))]
    fn from(fault: ModelFault) -> Self {
        match fault {
            ModelFault::NoMemory => TextFault::NoMemory,
            fault => TextFault::Untyped(fault),
        }
    }
}
