// The uses of a register, and what it answers.
ghost use Rattle.std.specs.Prelude.{◌≡◌, Some};
ghost use Rattle.register.specs.declared.uses.RegisterFault.TheVariants.{Row as InRow};
ghost use Rattle.register.specs.Faults.{fault_number, fault_word, host_number, host_word};
ghost use Rattle.response.specs.Views.{fault_number as response_number};

use response::{Outcome, ResponseFault, Row};
use sources::RowFault;
use std::error::Error;
use std::fmt;

// A call of the register, with its arguments.
#[derive(Clone, Copy)]
pub enum Use<S> {
    Enter(Row<S>),
    Amend(Row<S>),
    Withdraw(u32),
    Settle(u32),
    LookUp(u32),
}

// Why the register refused a call. Row: the source of the row could not be made.
#[derive(Clone, Copy, PartialEq, Eq, Debug)]
pub enum RegisterFault {
    Row(RowFault),
    Deadline,
    Jitter,
    Taken,
    Full,
    Absent,
    Unsettled,
}

impl RegisterFault {
    // The refusal's number, by a match: the contract pins each.
    pub fn number(self) -> u8
        ensures { result ≡ fault_number self }
    {
        match self {
            RegisterFault::Row(fault) => fault.number(),
            RegisterFault::Deadline => 21,
            RegisterFault::Jitter => 22,
            RegisterFault::Taken => 23,
            RegisterFault::Full => 24,
            RegisterFault::Absent => 25,
            RegisterFault::Unsettled => 26,
        }
    }
}

impl fmt::Display for RegisterFault {
    ghost output = { λ f. Some (fault_word f) };

    fn fmt<W: fmt::Write>(&self, f: &mut fmt::Formatter<W>) -> fmt::Result {
        match self {
            RegisterFault::Row(fault) => fault.fmt(f),
            RegisterFault::Deadline => f.write_str("the deadline is not 1 to 1,000,000"),
            RegisterFault::Jitter => f.write_str("the jitter is above 1,000,000"),
            RegisterFault::Taken => f.write_str("the identifier is taken"),
            RegisterFault::Full => {
                f.write_str("there are 256 rows, or as many as the memory has places")
            }
            RegisterFault::Absent => f.write_str("there is no such row"),
            RegisterFault::Unsettled => f.write_str("the row is unsettled"),
        }
    }
}

impl Error for RegisterFault {}

impl From<RowFault> for RegisterFault {
    ghost from_gives = { λ f r. r ≡ InRow f };

    fn from(fault: RowFault) -> RegisterFault {
        RegisterFault::Row(fault)
    }
}

impl From<ResponseFault> for RegisterFault {
    ghost from_gives = { λ f r. fault_number r ≡ response_number f };

    fn from(fault: ResponseFault) -> RegisterFault {
        match fault {
            ResponseFault::Deadline => RegisterFault::Deadline,
            ResponseFault::Jitter => RegisterFault::Jitter,
            ResponseFault::Row => RegisterFault::Absent,
        }
    }
}

// Why the host's request could not be met: the list is shorter than the row count.
#[derive(Clone, Copy, PartialEq, Eq, Debug)]
pub enum HostFault {
    ShortList,
}

impl HostFault {
    // The refusal's number, by a match: the contract pins each.
    pub fn number(self) -> u8
        ensures { result ≡ host_number self }
    {
        match self {
            HostFault::ShortList => 32,
        }
    }
}

impl fmt::Display for HostFault {
    ghost output = { λ f. Some (host_word f) };

    fn fmt<W: fmt::Write>(&self, f: &mut fmt::Formatter<W>) -> fmt::Result {
        match self {
            HostFault::ShortList => f.write_str("the list is shorter than the row count"),
        }
    }
}

impl Error for HostFault {}

// What the register answers to a use: for a look-up the outcome, and for other calls nothing but that they were accepted.
pub type Answer = Result<Option<Outcome>, RegisterFault>;
