// The book that the calls of a script are run on.
use crate::answers::RowCount;
use crate::arguments::{BookKind, Settings};
use crate::calls::run_calls;
use imagebook::ImageBook;
use images::HEADER_LENGTH;
use rowbytes::ROW_LENGTH;
use rows::BLANK;
use std::io;
use tablebook::TableBook;

// Makes an empty book and runs the calls of a script on it.
pub fn report_script(
    rt: &HostRuntime,
    path: &str,
    script: &str,
    settings: Settings,
) -> io::Result<()> {
    let capacity = settings.capacity.0;
    println!(rt; "{path}: {}, {}", settings.book, RowCount(capacity))?;
    // each is made on memory of its own, so a closure that makes it would only move this match
    match settings.book {
        BookKind::Image => run_on_image(rt, script, capacity),
        BookKind::Table => run_on_table(rt, script, capacity),
    }
}

fn run_on_image(rt: &HostRuntime, script: &str, capacity: u32) -> io::Result<()> {
    let length = HEADER_LENGTH + ROW_LENGTH * capacity as usize;
    let mut bytes = vec![in rt.alloc(); 0u8; length]?;
    run_calls(rt, &mut ImageBook::new(bytes.as_mut_slice()), script)
}

fn run_on_table(rt: &HostRuntime, script: &str, capacity: u32) -> io::Result<()> {
    let mut rows = vec![in rt.alloc(); BLANK; capacity as usize]?;
    let mut places = vec![in rt.alloc(); 0u32; capacity as usize]?;
    run_calls(
        rt,
        &mut TableBook::new(rows.as_mut_slice(), places.as_mut_slice()),
        script,
    )
}
