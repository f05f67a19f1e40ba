//! Measures the calls of ciphers and generators over each backend, and Poly1305 block by block and by lanes.
//!
//! ```text
//! speed         makes each call once over each backend
//! speed time    prints a table of times
//! ```
#![tactic(auto)]

mod calls;

use calls::{Call, ROWS, Row, makes};
use std::num::nearest_usize_to_f64;
use std::time::{Duration, Instant};
use std::{env, io};

// How often each backend has its turn.
const TURNS: usize = 51;

// The greatest length of the table. A turn has about as many bytes.
const MOST: usize = 65536;

static INPUT: [u8; MOST] = [0; MOST];

fn main(rt: HostRuntime) -> io::Result<()> {
    let words: Vec<String> = env::args(&rt)?.collect(rt.alloc())?;
    run(&rt, words.as_slice())
}

fn run(rt: &HostRuntime, words: &[String]) -> io::Result<()> {
    match words {
        [_] if each_once() => println!(rt; "each backend makes each call"),
        [_, word] if word.as_str() == "time" => table(rt),
        _ => Err(io::Error::from(io::ErrorKind::InvalidInput)),
    }
}

// Makes each call once over each backend, and says whether each was accepted.
fn each_once() -> bool {
    for row in &ROWS {
        for over in row.over {
            if !makes(row.call, over, 1, &INPUT[..1500], &mut [0; 1500]) {
                return false;
            }
        }
    }
    true
}

// Prints the table.
fn table(rt: &HostRuntime) -> io::Result<()> {
    println!(rt; "call        bytes  over      least ns  median ns    GB/s")?;
    for row in &ROWS {
        for length in row.lengths {
            lines(rt, row, *length)?;
        }
    }
    Ok(())
}

// Prints the lines of a call and a length.
fn lines(rt: &HostRuntime, row: &Row, length: usize) -> io::Result<()> {
    let mut taken = [[Duration::ZERO; TURNS]; 6];
    take_turns(rt, row, length, &mut taken)?;
    for i in 0..row.over.len().min(6) {
        taken[i].sort_unstable();
        let least_and_median = [taken[i][0], taken[i][TURNS / 2]];
        line(rt, row.name, row.over[i], length, least_and_median)?;
    }
    Ok(())
}

// Times each backend as often as it has turns. They alternate, so that a slower processor slows them all.
fn take_turns(
    rt: &HostRuntime,
    row: &Row,
    length: usize,
    taken: &mut [[Duration; TURNS]; 6],
) -> io::Result<()> {
    let mut data = [0; MOST];
    let data = &mut data[..length.min(MOST)];
    for turn in 0..TURNS {
        for i in 0..row.over.len().min(6) {
            taken[i][turn] = time(rt, row.call, row.over[i], data)?;
        }
    }
    Ok(())
}

fn time(rt: &HostRuntime, call: Call, over: &str, data: &mut [u8]) -> io::Result<Duration> {
    let input = &INPUT[..data.len().min(MOST)];
    let start = Instant::now(rt)?;
    if !makes(call, over, times(data.len()), input, data) {
        return Err(io::Error::from(io::ErrorKind::InvalidInput));
    }
    start.elapsed(rt)
}

// The calls that are timed together, which apply about as many bytes as the greatest length.
fn times(length: usize) -> usize {
    MOST / length.max(64)
}

fn line(rt: &HostRuntime, name: &str, over: &str, len: usize, t: [Duration; 2]) -> io::Result<()> {
    let each = 1e9 / nearest_usize_to_f64(times(len));
    let (least, median) = (t[0].as_secs_f64() * each, t[1].as_secs_f64() * each);
    let speed = nearest_usize_to_f64(len) / least;
    println!(rt; "{name:10} {len:6}  {over:8} {least:10.1} {median:10.1} {speed:7.2}")
}
