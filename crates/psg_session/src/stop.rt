//! Why a command has no outcome.
ghost use Rattle.std.specs.Prelude.{◌≡◌};
ghost use Rattle.psg_session.specs.declared.stop.Stop.TheVariants.{Refused, Memory};
ghost use Rattle.psg_session.specs.Stops.{stop_of_focus, stop_of_kept, stop_of_note, stop_of_parse, stop_of_text};

use crate::refusal::Refusal;
use psg_cache::NoteFault;
use psg_eval::FocusFault;
use psg_library::KeptFault;
use psg_parse::ParseFault;
use psg_textedit::TextFault;
use std::alloc::{AllocError, AllocFailed};

/// The reason why a command has no outcome.
#[derive(Clone, Copy)]
pub enum Stop {
    /// One of the command's tests holds, and refuses it. The first one that holds is the reason.
    Refused(Refusal),
    /// Memory ran out.
    Memory,
}

impl From<Refusal> for Stop {
    ghost from_gives = { λ refusal stop. stop ≡ Refused refusal };

    fn from(refusal: Refusal) -> Stop {
        Stop::Refused(refusal)
    }
}

impl From<AllocError> for Stop {
    ghost from_gives = { λ _ stop. stop ≡ Memory };

    fn from(_error: AllocError) -> Stop {
        Stop::Memory
    }
}

impl<T: Drop> From<AllocFailed<T>> for Stop {
    ghost from_gives = { λ _ stop. stop ≡ Memory };

    fn from(_error: AllocFailed<T>) -> Stop {
        Stop::Memory
    }
}

impl From<NoteFault> for Stop {
    ghost from_gives = { λ fault stop. stop ≡ stop_of_note fault };

    fn from(fault: NoteFault) -> Stop {
        match fault {
            NoteFault::Deep => Stop::Refused(Refusal::TooDeep),
            NoteFault::Big => Stop::Refused(Refusal::TooBig),
            NoteFault::Wide { .. } => Stop::Refused(Refusal::TooWide),
            NoteFault::Heavy => Stop::Refused(Refusal::TooHeavy),
            NoteFault::Memory => Stop::Memory,
        }
    }
}

impl From<FocusFault> for Stop {
    ghost from_gives = { λ fault stop. stop ≡ stop_of_focus fault };

    fn from(fault: FocusFault) -> Stop {
        match fault {
            FocusFault::Wide => Stop::Refused(Refusal::TooWide),
            FocusFault::Memory => Stop::Memory,
        }
    }
}

impl From<ParseFault> for Stop {
    ghost from_gives = { λ fault stop. stop ≡ stop_of_parse fault };

    fn from(fault: ParseFault) -> Stop {
        match fault {
            ParseFault::NoTree => Stop::Refused(Refusal::NoTree),
            ParseFault::Deep => Stop::Refused(Refusal::TooDeep),
            ParseFault::Memory => Stop::Memory,
        }
    }
}

impl From<TextFault> for Stop {
    ghost from_gives = { λ fault stop. stop ≡ stop_of_text fault };

    fn from(fault: TextFault) -> Stop {
        match fault {
            TextFault::NoPlace => Stop::Refused(Refusal::NoRange),
            TextFault::NoTokens => Stop::Refused(Refusal::NoTokens),
            TextFault::NoTree => Stop::Refused(Refusal::NoTree),
            TextFault::Deep => Stop::Refused(Refusal::TooDeep),
            TextFault::Memory => Stop::Memory,
        }
    }
}

impl From<KeptFault> for Stop {
    ghost from_gives = { λ fault stop. stop ≡ stop_of_kept fault };

    fn from(fault: KeptFault) -> Stop {
        match fault {
            KeptFault::Head => Stop::Refused(Refusal::KeptUnreadable),
            KeptFault::Phylum => Stop::Refused(Refusal::KeptUnreadable),
            KeptFault::NoTokens => Stop::Refused(Refusal::KeptUnreadable),
            KeptFault::NoTree => Stop::Refused(Refusal::KeptUnreadable),
            KeptFault::Deep => Stop::Refused(Refusal::KeptUnreadable),
            KeptFault::Memory => Stop::Memory,
        }
    }
}
