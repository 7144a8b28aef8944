//! Prints the successors of the nodes of `nodes.txt`, each below its row. The gate compares them with answers worked by hand;
//! `tests/nodes/README.md` has the form of a row. A row without a comment belongs to the one above.
#![tactic(auto)]

mod answer;
mod row;

use abs_step::local;
use assumption_files::{MOST_ENTRIES, entry_of};
use avr_model::device::Device;
use row::Row;
use std::{fs, io};
use vector_table::Assumptions;

// Prints the successors of a row's node.
fn show(rt: &HostRuntime, row: &Row, lines: &Assumptions) -> io::Result<()> {
    let (key, state) = (&row.key, &row.state);
    if key.pc >= row.device.limit() || state.slots.len() != key.offset() {
        return println!(rt; "  no node");
    }
    let Some(flash) = row.flash(rt.alloc())? else {
        return println!(rt; "  no flash");
    };
    let found = local(rt.alloc(), &flash, lines, key, state);
    match found {
        Ok(found) => answer::show(rt, &found, state),
        Err(fault) => println!(rt; "  {fault:?}"),
    }
}

// Prints a line: an assumption is kept for the next row, and a row gets its answer. Assumptions are read as those of the ATmega328P.
fn show_line(rt: &HostRuntime, line: &str, lines: &mut Assumptions) -> io::Result<()> {
    println!(rt; "{line}")?;
    if line.is_empty() || line.starts_with('#') {
        return Ok(());
    }
    match entry_of(rt.alloc(), Device::M328, line.as_bytes())? {
        Some(entry) => {
            if lines.entries().len() < MOST_ENTRIES && lines.push(entry).is_ok() {
                return Ok(());
            }
            println!(rt; "  not above the last")
        }
        None => {
            let shown = match row::read(rt.alloc(), line)? {
                Some(row) => show(rt, &row, lines),
                None => println!(rt; "  malformed"),
            };
            *lines = Assumptions::empty(rt.alloc());
            shown
        }
    }
}

fn main(rt: HostRuntime) -> io::Result<()> {
    let text = fs::read_to_string(&rt, "nodes.txt")?;
    let mut lines = Assumptions::empty(rt.alloc());
    for line in text.lines() {
        show_line(&rt, line, &mut lines)?;
    }
    Ok(())
}
