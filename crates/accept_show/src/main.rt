//! Runs acceptance on plans of one node, lookups and requests, and writes what they answer.
#![tactic(auto)]

ghost use Rattle.std.specs.Prelude.{◌<◌, ◌≤◌};

use lookup::{Lookup, Schema};
use std::io;

// The verdict on an Empty with two pairs, whose names are not 0, in a plan of version 1.
fn judge(rt: &impl Print, q: u16, n: u16, r: u16, m: u16) -> io::Result<()>
    requires { (0 < n) × (0 < m) }
{
    let cells = [0u64; 1];
    let rows = [q, n, 0, 0, r, m, 0, 0];
    let nodes = [12u64, 0, 0, 2, 1, 0, 0];
    let names = [0u16; 1];
    let version = versions::version1();
    let mut fields = [0u16; 256];
    let mut widths = [0u64; 512];
    let verdict = accept::accept_node(
        &cells,
        &rows,
        &nodes,
        1,
        &names,
        0,
        version,
        &mut fields,
        &mut widths,
        0,
        0,
    );
    match verdict {
        Ok(_) => println!(rt; "fine"),
        Err(refusal) => println!(rt; "bad {} {} ", refusal.code(), refusal.place),
    }
}

// What a reference finds among four fields, two of which have one name.
fn place(rt: &impl Print, q: u16, n: u16) -> io::Result<()> {
    let fields = [1u16, 1, 1, 2, 0, 3, 2, 1];
    let row = Schema {
        fields: &fields,
        first: 0,
        width: 4,
    };
    match lookup::look_up(&row, true, q, n) {
        Lookup::Found(i) => println!(rt; "found {i} "),
        Lookup::Absent => println!(rt; "absent"),
        Lookup::Ambiguous => println!(rt; "ambiguous"),
    }
}

// What is said of a request of three fields.
fn ask(rt: &impl Print, request: &[u16]) -> io::Result<()> {
    match request::check_request(request, 3) {
        Ok(set) => println!(rt; "asked {} ", set.len()),
        Err(refusal) => println!(rt; "refused {} ", refusal.place),
    }
}

fn main(rt: HostRuntime) -> io::Result<()> {
    judge(&rt, 1, 1, 0, 2)?;
    judge(&rt, 1, 1, 1, 1)?;
    judge(&rt, 1, 1, 0, 1)?;
    judge(&rt, 1, 1, 2, 1)?;
    place(&rt, 1, 2)?;
    place(&rt, 0, 2)?;
    place(&rt, 2, 2)?;
    place(&rt, 0, 3)?;
    place(&rt, 1, 3)?;
    place(&rt, 2, 1)?;
    place(&rt, 0, 1)?;
    ask(&rt, &[0, 2])?;
    ask(&rt, &[1, 1])?;
    ask(&rt, &[0, 3])?;
    ask(&rt, &[0, 1, 2])
}
