//! Reads the file of rows on standard input so many times, and writes it once more each time, for `bench/parquet`.
//!
//! The words, and what it prints, are those of `bench_input`.
#![tactic(auto)]

use bench_input::{Round, bad_input, run};
use mx_parquet::{Contents, read_rows, row_views, rows_fit, size_rows, write_rows};
use std::alloc::Global;
use std::io;

/// The most that a file has, as `write_rows` asks for it.
const MOST_ROWS: usize = 16_384;

const MOST_FILE_BYTES: u64 = 4_194_304;

struct Files;

fn main(rt: HostRuntime) -> io::Result<()> {
    run::<Files, _>(&rt)
}

impl Round for Files {
    fn made(alloc: Global, bytes: &[u8], again: bool) -> io::Result<u64> {
        let Ok(contents) = read_rows(alloc, bytes) else {
            return Err(bad_input());
        };
        if !again {
            return Ok(0);
        }
        written(alloc, &contents)
    }
}

// How long the file is that is written of what was read.
fn written(alloc: Global, contents: &Contents) -> io::Result<u64> {
    let Contents { schema, rows } = contents;
    let views = row_views(alloc, rows)?;
    if views.len() > MOST_ROWS || !rows_fit(schema, &views) {
        return Err(bad_input());
    }
    let size = size_rows(schema, &views);
    if size > MOST_FILE_BYTES {
        return Err(bad_input());
    }
    Ok(write_rows(alloc, schema, &views, size)?.len() as u64)
}
