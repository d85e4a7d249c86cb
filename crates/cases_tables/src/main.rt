//! Cases of the parts of tables: records, headers and rows.
#![tactic(auto)]

mod cutting;
mod headers;
mod records;
mod rows;
mod separators;
mod shown;
mod writing;

use case_file::judge;
use headers::Headers;
use records::Records;
use rows::Rows;
use std::io;

fn main(rt: HostRuntime) -> io::Result<()> {
    judge(&rt, "records", &Records)?;
    judge(&rt, "written", &Records)?;
    judge(&rt, "headers", &Headers)?;
    judge(&rt, "rows", &Rows)
}
