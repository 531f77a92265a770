//! Fields of a plan file, and its expressions, which go into a lent array of nodes.
#![tactic(auto)]

ghost use Rattle.std.specs.Prelude.{◌≡◌, [], ◌∷◌, Bool, ℕ, ◌+◌, ◌*◌, ◌^◌, ◌≤◌, ◌<◌, length, get_or};
ghost use Rattle.std.proofs.lemmas.List.Edits.{sets};
ghost use Rattle.cpl.specs.Read.{little, field, nonzero, index, below, count, tag};
ghost use Rattle.cpl.specs.ReadExpr.{read_pair, read_column, read_literal, leaf_rest};
ghost use Rattle.reader_fields.specs.Answers.{Fields, From, Tags, Pairs, spot, RightCells, Reads};

use refusals::{Reason, Refusal};

/// A number that was read, and the offset after it.
#[derive(Clone, Copy)]
pub struct Field {
    pub value: u64,
    pub next: usize,
}

/// A pair that was read, and the offset after it.
#[derive(Clone, Copy)]
pub struct PairField {
    pub qualifier: u64,
    pub name: u64,
    pub next: usize,
}

/// Where a reader stands: the offset, the expression tags read, the nodes of expressions and the rows made so far.
// The counts stand beside the file and the lent arrays, and no slices of them: a refusal's place is an offset in the whole file, and nodes name one another by
// their numbers in the whole array (document 01's lent arrays).
#[derive(Clone, Copy)]
pub struct Spot {
    pub at: usize,
    pub tags: usize,
    pub made: usize,
    pub row: usize,
}

/// The byte at an offset.
pub fn byte(file: &[u8], at: usize) -> u64
    requires { at < length file.now }
    ensures { (result ≡ get_or file.now at 0) × (result < 256) }
{
    u64::from(file[at])
}

/// The number that k bytes spell, the lowest first.
fn number(file: &[u8], at: usize, k: usize) -> u64
    requires { (at + k ≤ length file.now) × (k ≤ 8) }
    ensures { (result ≡ little k file.now at) × (result < 256 ^ k) }
{
    let mut n = 0;
    for &b in file[at..at + k].iter().rev() {
        n = 256 * n + u64::from(b);
    }
    n
}

/// A field of k bytes.
pub fn read_number(file: &[u8], at: usize, k: usize) -> Result<Field, Refusal>
    requires { k ≤ 8 }
    ensures { Fields (256 ^ k) (field k file.now at) result }
{
    let n = file.len();
    if n < k || n - k < at {
        return Err(Refusal::new(Reason::Cut, at));
    }
    Ok(Field {
        value: number(file, at, k),
        next: at + k,
    })
}

/// Two bytes that are not both 0.
pub fn read_name(file: &[u8], at: usize) -> Result<Field, Refusal>
    ensures { Fields 65536 (nonzero 2 file.now at) result }
{
    let name = read_number(file, at, 2)?;
    if name.value == 0 {
        return Err(Refusal::new(Reason::Value, at));
    }
    Ok(name)
}

/// A field of k bytes that is below n.
pub fn read_index(file: &[u8], at: usize, k: usize, n: u64) -> Result<Field, Refusal>
    requires { k ≤ 8 }
    ensures { Fields n (index k n file.now at) result × Fields (256 ^ k) (index k n file.now at) result }
{
    let found = read_number(file, at, k)?;
    if n <= found.value {
        return Err(Refusal::new(Reason::Value, at));
    }
    Ok(found)
}

/// A byte below n.
pub fn read_below(file: &[u8], at: usize, n: u64) -> Result<Field, Refusal>
    ensures { Fields n (below n file.now at) result × Fields 256 (below n file.now at) result }
{
    read_index(file, at, 1, n)
}

/// A count of k bytes, from `least` to `limit`.
pub fn read_count(
    file: &[u8],
    at: usize,
    k: usize,
    least: u64,
    limit: u64,
) -> Result<Field, Refusal>
    requires { k ≤ 8 }
    ensures { (allowed : ℕ → Bool) → From least allowed → Fields (limit + 1) (count k allowed limit file.now at) result }
{
    let count = read_number(file, at, k)?;
    if count.value < least {
        return Err(Refusal::new(Reason::Value, at));
    }
    if limit < count.value {
        return Err(Refusal::new(Reason::Many, at));
    }
    Ok(count)
}

/// A pair: its qualifier, which may be 0, and its name, which is not.
pub fn read_pair(file: &[u8], at: usize) -> Result<PairField, Refusal>
    ensures { Pairs (read_pair file.now at) result }
{
    let qualifier = read_number(file, at, 2)?;
    let name = read_name(file, qualifier.next)?;
    Ok(PairField {
        qualifier: qualifier.value,
        name: name.value,
        next: name.next,
    })
}

/// The tag of an expression or an item, where `tags` were read before.
pub fn read_tag(file: &[u8], at: usize, tags: usize) -> Result<Field, Refusal>
    ensures { Tags tags (tag file.now at tags) result }
{
    if file.len() <= at {
        return Err(Refusal::new(Reason::Cut, at));
    }
    if 4096 <= tags {
        return Err(Refusal::new(Reason::Many, at));
    }
    let value = byte(file, at);
    Ok(Field {
        value,
        next: at + 1,
    })
}

/// The three numbers of a node.
pub fn put(cells: &mut [u64], node: usize, tag: u64, x: u64, y: u64)
    requires { 3 * node + 3 ≤ length cells.old }
    ensures { cells.new ≡ sets cells.old (3 * node) (tag ∷ x ∷ y ∷ []) }
{
    cells[3 * node..3 * node + 3].copy_from_slice(&[tag, x, y]);
}

/// The rest of a column, after its tag, which is counted here.
fn read_column(file: &[u8], s: Spot, cells: &mut [u64]) -> Result<Spot, Refusal>
    requires { (3 * s.made + 12288 ≤ 3 * s.tags + length cells.old) × (s.tags < 4096) }
    ensures { RightCells read_column file.now s (s.tags + 1) cells.old cells.new result }
{
    let pair = read_pair(file, s.at)?;
    put(cells, s.made, 0, pair.qualifier, pair.name);
    Ok(Spot {
        at: pair.next,
        tags: s.tags + 1,
        made: s.made + 1,
        ..s
    })
}

/// The rest of a literal, after its tag, which is counted here.
fn read_literal(file: &[u8], s: Spot, cells: &mut [u64]) -> Result<Spot, Refusal>
    requires { (3 * s.made + 12288 ≤ 3 * s.tags + length cells.old) × (s.tags < 4096) }
    ensures { RightCells read_literal file.now s (s.tags + 1) cells.old cells.new result }
{
    let number = read_number(file, s.at, 8)?;
    put(cells, s.made, 1, number.value, 0);
    Ok(Spot {
        at: number.next,
        tags: s.tags + 1,
        made: s.made + 1,
        ..s
    })
}

/// The rest of an expression with no operand, after its tag, which is counted here.
fn read_leaf(file: &[u8], s: Spot, cells: &mut [u64], t: u64) -> Result<Spot, Refusal>
    requires { (3 * s.made + 12288 ≤ 3 * s.tags + length cells.old) × (s.tags < 4096) × (t < 3) }
    ensures { RightCells (leaf_rest t) file.now s (s.tags + 1) cells.old cells.new result }
{
    match t {
        0 => read_column(file, s, cells),
        1 => read_literal(file, s, cells),
        _ => {
            put(cells, s.made, 2, 0, 0);
            Ok(Spot {
                tags: s.tags + 1,
                made: s.made + 1,
                ..s
            })
        }
    }
}

/// The node of an operator, after those of its operands.
fn put_root(cells: &mut [u64], s: Spot, tag: u64, x: u64, y: u64) -> Spot
    requires { 3 * s.made + 3 ≤ length cells.old }
    ensures { (result ≡ spot s.at s.tags (s.made + 1) s.row) × (cells.new ≡ sets cells.old (3 * s.made) (tag ∷ x ∷ y ∷ [])) }
{
    put(cells, s.made, tag, x, y);
    Spot {
        made: s.made + 1,
        ..s
    }
}

/// An expression. Its nodes go into cells, operands first, from the number `s.made` on: there is room for a node for each tag that may still come.
// A tag stays a number: it goes into the cells as it stands in the file, and an enum of the operators would be turned back into it at once.
pub fn read_expr(file: &[u8], s: Spot, cells: &mut [u64]) -> Result<Spot, Refusal>
    requires { (3 * s.made + 12288 ≤ 3 * s.tags + length cells.old) × (s.tags ≤ 4096) }
    ensures { Reads file.now s cells.old cells.new result }
{
    let tag = read_tag(file, s.at, s.tags)?;
    let t = tag.value;
    if t < 3 {
        return read_leaf(file, Spot { at: tag.next, ..s }, cells, t);
    }
    if 11 < t {
        return Err(Refusal::new(Reason::Value, s.at));
    }
    let inner = Spot {
        at: tag.next,
        tags: s.tags + 1,
        ..s
    };
    let a = read_expr(file, inner, cells)?;
    if t < 5 {
        return Ok(put_root(cells, a, t, (a.made - 1) as u64, 0));
    }
    let b = read_expr(file, a, cells)?;
    Ok(put_root(cells, b, t, (a.made - 1) as u64, (b.made - 1) as u64))
}
