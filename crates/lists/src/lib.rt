// Lists of unsigned numbers: strict reading of a whole block, and writing a list's forms one after another.
#![tactic(auto)]

ghost use Rattle.std.specs.Prelude.{◌≡◌};
ghost use Rattle.lists.specs.declared.NotRead.TheVariants.{Faulty};

mod quick;
mod reading;
mod writing;

pub use reading::read_strict;
use words::{Fault, Refusal};
pub use writing::{LIST_LIMIT, write_list};

// A count of numbers: neither a place nor a count of bytes.
#[derive(Clone, Copy, Debug, PartialEq, Eq)]
pub struct Numbers(pub usize);

// Why strict reading reads nothing: the block's first fault, which is 1, 2 or 3; or else 7 or 5, which no byte decides.
#[derive(Clone, Copy, Debug, PartialEq, Eq)]
pub enum NotRead {
    Faulty(Fault),
    Refused(Refusal),
}

impl From<Fault> for NotRead {
    ghost from_gives = { λ fault r. r ≡ Faulty fault };

    fn from(fault: Fault) -> NotRead {
        NotRead::Faulty(fault)
    }
}
