// The rows that the tables and the offices have.
use frames::Standard;
use response::Row;
use sources::{Cyclic, RowFault};

// A cyclic source in the standard format.
pub type Message = Cyclic<Standard, u16>;

pub fn row(
    identifier: u16,
    period: u32,
    deadline: u32,
    payloads: &[u8],
) -> Result<Row<Message>, RowFault> {
    let source = Cyclic::new(Standard, identifier, period, payloads)?;
    Ok(Row { source, deadline })
}
