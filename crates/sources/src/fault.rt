// Why a source was not made.
ghost use Rattle.std.specs.Prelude.{◌≡◌, Some};
ghost use Rattle.sources.specs.Faults.{fault_number, fault_word};

use std::error::Error;
use std::fmt;

#[derive(Clone, Copy, PartialEq, Eq, Debug)]
pub enum RowFault {
    Identifier,
    Period,
    PayloadCount,
    Payload,
    Burst,
    Hold,
}

impl RowFault {
    // The refusal's number, by a match: the contract pins each.
    pub fn number(self) -> u8
        ensures { result ≡ fault_number self }
    {
        match self {
            RowFault::Identifier => 11,
            RowFault::Period => 12,
            RowFault::PayloadCount => 13,
            RowFault::Payload => 14,
            RowFault::Burst => 15,
            RowFault::Hold => 16,
        }
    }
}

impl fmt::Display for RowFault {
    ghost output = { λ f. Some (fault_word f) };

    fn fmt<W: fmt::Write>(&self, f: &mut fmt::Formatter<W>) -> fmt::Result {
        f.write_str(match self {
            RowFault::Identifier => "the identifier is above the highest of the format",
            RowFault::Period => "the period is out of range",
            RowFault::PayloadCount => "there are too few payloads or too many",
            RowFault::Payload => "a payload has more than eight bytes",
            RowFault::Burst => "size, spacing and period of the burst do not go together",
            RowFault::Hold => "the hold is above 1,000,000",
        })
    }
}

impl Error for RowFault {}
