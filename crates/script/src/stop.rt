// What stops a line: it is unreadable, refused, or memory failed.
ghost use Rattle.std.specs.Prelude.{◌≡◌, Some, codes};

use answers::Fault;
use std::alloc::AllocError;
use std::error::Error;
use std::fmt;

// A word that names nothing of the kind that is looked for.
#[derive(Clone, Copy, Debug, PartialEq, Eq, Hash)]
pub struct UnknownName;

// By hand: what `thiserror` writes has no clause.
impl fmt::Display for UnknownName {
    ghost output = { λ _. Some (codes "unknown name") };

    fn fmt<W: fmt::Write>(&self, f: &mut fmt::Formatter<W>) -> fmt::Result {
        write!(f, "unknown name")
    }
}

impl Error for UnknownName {}

#[derive(Debug, Drop)]
pub(crate) enum Stop {
    // The line has not the form of its verb.
    Unreadable,
    // The action was refused.
    Refused(Fault),
    OutOfMemory(AllocError),
}

// By hand, as the two below: what a derive writes has no clause, and a `?` has to tell which it made.
impl From<UnknownName> for Stop {
    ghost use Rattle.script.specs.declared.stop.Stop.TheVariants.{Unreadable};

    ghost from_gives = { λ _ s. s ≡ Unreadable };

    fn from(_name: UnknownName) -> Stop {
        Stop::Unreadable
    }
}

impl From<Fault> for Stop {
    ghost use Rattle.script.specs.declared.stop.Stop.TheVariants.{Refused};

    ghost from_gives = { λ f s. s ≡ Refused f };

    fn from(fault: Fault) -> Stop {
        Stop::Refused(fault)
    }
}

impl From<AllocError> for Stop {
    ghost use Rattle.script.specs.declared.stop.Stop.TheVariants.{OutOfMemory};

    ghost from_gives = { λ e s. s ≡ OutOfMemory e };

    fn from(error: AllocError) -> Stop {
        Stop::OutOfMemory(error)
    }
}
