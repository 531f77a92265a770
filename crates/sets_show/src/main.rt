//! sets_show: runs the request sets at the edges of their words and writes what they answer.
#![tactic(auto)]

ghost use Rattle.std.specs.Prelude.{◌≤◌};

use required_indices::RequiredIndices;
use std::io;

fn said(b: bool) -> &'static str {
    if b { "yes" } else { "no" }
}

// The indices of a set in order.
fn indices(rt: &impl Print, r: RequiredIndices) -> io::Result<()> {
    let mut at = 0;
    while let Some(i) = r.next(at) {
        print!(rt; " {i}")?;
        at = i + 1;
    }
    println!(rt;)
}

// The indices of a, and those of r from n on: split off, and moved back.
fn behind(a: RequiredIndices, r: RequiredIndices, n: usize) -> RequiredIndices {
    let s = r.split_off(n);
    a.followed_by(n, s.rest)
}

// Whether r has n, its two parts at n, these put together again, and the second put behind a set of 1 with the flag.
fn parts(rt: &impl Print, r: RequiredIndices, n: usize) -> io::Result<()> {
    let here = r.contains(n);
    println!(rt; "at {n} {}", said(here))?;
    print!(rt; "  below:")?;
    let s = r.split_off(n);
    indices(rt, s.below)?;
    print!(rt; "  rest:")?;
    indices(rt, s.rest)?;
    print!(rt; "  again:")?;
    indices(rt, behind(s.below, r, n))?;
    let one = RequiredIndices::new()
        .with_index(1)
        .with_projection_beneficial();
    let both = behind(one, r, n);
    print!(rt; "  with 1: {}", said(both.projection_beneficial()))?;
    indices(rt, both)
}

// How many indices a set has.
fn size(r: RequiredIndices) -> usize {
    r.len()
}

// All indices below n: how many, whether r has all of them, what r is with them, whether that is all below 512.
fn all(rt: &impl Print, r: RequiredIndices, n: usize) -> io::Result<()>
    requires { n ≤ 512 }
{
    let a = RequiredIndices::new_for_all_exprs(n);
    let both = r.append(a);
    let whole = RequiredIndices::new_for_all_exprs(512);
    print!(rt; "all below {n}: {} {}", size(a), said(a.is_empty()))?;
    print!(rt;
        " {} {}",
        said(r.contains_all(a)),
        said(whole.contains_all(a))
    )?;
    print!(rt; " {} {}", size(both), said(both.equals(whole)))?;
    println!(rt; " {}", said(both.projection_beneficial()))
}

fn main(rt: HostRuntime) -> io::Result<()> {
    let r = RequiredIndices::new()
        .with_index(127)
        .with_index(0)
        .with_index(64)
        .with_index(511)
        .with_index(63)
        .with_index(300)
        .with_index(0);
    print!(rt; "set:")?;
    indices(&rt, r)?;
    for n in [0, 63, 64, 127, 300, 511, 512] {
        parts(&rt, r, n)?;
    }
    all(&rt, r, 0)?;
    all(&rt, r, 63)?;
    all(&rt, r, 64)?;
    all(&rt, r, 127)?;
    all(&rt, r, 300)?;
    all(&rt, r, 511)?;
    all(&rt, r.with_projection_beneficial(), 512)
}
