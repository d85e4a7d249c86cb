//! Prints the keys of a rule file's tables, as `docs/FORMATS.md` shows them.
#![tactic(auto)]

mod cells;

use cells::{Default, Limits, kind_name};
use rule_file::key_of;
use rule_keys::{TableKind, key_text, keys_of};
use std::io;
use std::rt::Runtime;

const TABLES: [TableKind; 8] = [
    TableKind::Format,
    TableKind::Speed,
    TableKind::Swing,
    TableKind::Drift,
    TableKind::Range,
    TableKind::Trust,
    TableKind::Weight,
    TableKind::Between,
];

fn main(rt: HostRuntime) -> io::Result<()> {
    println!(rt; "| table | key | kind | default | limits |")?;
    println!(rt; "|---|---|---|---|---|")?;
    for table in TABLES {
        for key in keys_of(table) {
            println!(rt;
                "| `{}` | `{}` | {} | {} | {} |",
                key_of(table),
                key_text(key.name),
                kind_name(key.kind),
                Default(*key),
                Limits(key.kind)
            )?;
        }
    }
    Ok(())
}
