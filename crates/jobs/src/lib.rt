//! jobs: what the rule of each kind of node asks of the node's inputs. Port of the arms of `optimize_projections` of
//! `optimize_projections/mod.rs` that work out the children's requirements, for every kind but Projection.
//!
//! A job says what is to be done: a leaf is written; nothing is left but the one-row Empty; the input stands in the node's place; one
//! input is rewritten, and topped up or not; or two are, and topped up.
#![tactic(auto)]

ghost use Rattle.std.specs.Prelude.{Bool, true, false, List, ◌≡◌, ℕ, ◌+◌, ◌<◌, ◌≤◌, length};
ghost use Rattle.std.proofs.Math.Option.{Option};
ghost use Rattle.cpl.specs.Plan.{Expr, Pair, aggregate, distinct, empty, filter, join, limit, scan, sort, subquery_alias, union, window};
ghost use Rattle.rules.specs.Mask.{Mask};
ghost use Rattle.rules.specs.Rules.{join_exprs};
ghost use Rattle.required_indices.specs.Request.{set_of};
ghost use Rattle.key_sets.specs.Slots.{KeySet};
ghost use Rattle.arena.specs.Cells.{expr_at, Wf};
ghost use Rattle.arena.specs.Rows.{items_at, RowsOk};
ghost use Rattle.tree.specs.Node.{join_is};
ghost use Rattle.tree.specs.Rows.{AggOk, AllAt, EachOk, KeyOk, OnOk, WinOk, aggs_at, keys_at, ons_at, win_size, wins_at};
ghost use Rattle.tree.specs.Tree.{if?};
ghost use Rattle.lookup.specs.Fields.{fields_of};
ghost use Rattle.requests.specs.Asked.{SchemaBelow};
ghost use Rattle.jobs.specs.Asked.{Asked};
ghost use Rattle.jobs.specs.Job.{JobAt, Joinable, Joined, KeptBy, LeafJob, LeftBy, OneJob, Posed, PosedTwo, Sided, Through, TwoJob};

use arena::Items;
use lookup::Schema;
use required_indices::RequiredIndices;
use tree::{JoinNode, JoinType, Node};

/// What is to be done with the inputs.
#[derive(Clone, Copy)]
pub enum Todo {
    Leaf,
    Nothing,
    Same,
    One { topped: bool },
    Two { right: usize },
}

/// Which of the node's fields are left: those of the input that are; those, and behind the input's `width` fields the job's `set`; or the
/// job's `kept`.
#[derive(Clone, Copy)]
pub enum Rest {
    Input,
    InputThen { width: usize },
    Own,
}

/// A job: what is asked of the first and of the second input, the part of the node's own list that stays (of an Aggregate: groups, then
/// aggregates), the fields that are left.
#[derive(Clone, Copy)]
pub struct Job {
    pub todo: Todo,
    pub rest: Rest,
    pub ask: RequiredIndices,
    pub second: RequiredIndices,
    pub set: RequiredIndices,
    pub kept: RequiredIndices,
}

/// One input, asked with `ask`, whose fields that are left are the node's.
fn through(ask: RequiredIndices, topped: bool) -> Job
    ensures { Through ask topped result }
{
    let none = RequiredIndices::new();
    Job {
        todo: Todo::One { topped },
        rest: Rest::Input,
        ask,
        second: none,
        set: none,
        kept: none,
    }
}

/// A Filter's job.
fn filter_job(r: RequiredIndices, root: usize, cells: &[u64], input: &Schema) -> Job
    requires wf { Wf cells.now (root + 1) }
    requires below { SchemaBelow input.now }
    ensures { (key : List ℕ) → OneJob (filter (expr_at cells.now root)) key (fields_of input.now) r result }
{
    let ask = requests::add_expr(r, cells, root, input);
    through(ask.with_projection_beneficial(), true)
}

/// A Sort's job. Its n keys stand from row `first` on.
fn sort_job(
    r: RequiredIndices,
    first: usize,
    n: usize,
    cells: &[u64],
    rows: &[u16],
    input: &Schema,
) -> Job
    requires each_ok { EachOk (KeyOk rows.now cells.now) rows.now first n }
    requires below { SchemaBelow input.now }
    ensures { (key : List ℕ) → OneJob (sort (keys_at rows.now cells.now first n)) key (fields_of input.now) r result }
{
    let ask = requests::with_roots(r, rows, first, n, 3, cells, input);
    through(ask.with_projection_beneficial(), true)
}

/// A Limit's job.
fn limit_job(r: RequiredIndices) -> Job
    ensures { (s : ℕ) (n : Option ℕ) (key : List ℕ) (fs : List Pair) → OneJob (limit s n) key fs r result }
{
    through(r, r.projection_beneficial())
}

/// A SubqueryAlias's job.
fn alias_job(r: RequiredIndices) -> Job
    ensures { (q : ℕ) (key : List ℕ) (fs : List Pair) → OneJob (subquery_alias q) key fs r result }
{
    through(r.with_projection_beneficial(), true)
}

/// A Distinct's job. `input` has the input's fields.
fn distinct_job(r: RequiredIndices, input: &Schema) -> Job
    requires { SchemaBelow input.now }
    ensures { (key : List ℕ) → OneJob distinct key (fields_of input.now) r result }
{
    through(RequiredIndices::new_for_all_exprs(input.width), false)
}

/// An Aggregate's job. Its `groups` group rows stand from row `first` on, its `aggregates` after them. All groups stay, unless the input's
/// key is among them: then those that are neither asked for nor a key column go. The aggregates are taken at the request. `input` has the
/// input's fields.
fn aggregate_job(
    r: RequiredIndices,
    key: RequiredIndices,
    first: usize,
    groups: usize,
    aggregates: usize,
    cells: &[u64],
    rows: &[u16],
    input: &Schema,
) -> Job
    requires rows_ok { RowsOk rows.now cells.now first groups }
    requires each_ok { EachOk (AggOk rows.now cells.now) rows.now (first + groups) aggregates }
    requires below { SchemaBelow input.now }
    requires posed { (R : Mask) × Posed (aggregate (items_at rows.now cells.now first groups) (aggs_at rows.now cells.now (first + groups) aggregates)) (fields_of input.now) r R }
    ensures { (ks : List ℕ) → KeySet (set_of key) ks → OneJob (aggregate (items_at rows.now cells.now first groups) (aggs_at rows.now cells.now (first + groups) aggregates)) ks (fields_of input.now) r result }
{
    let none = RequiredIndices::new();
    let split = r.split_off(groups);
    let asked = split.below;
    let set = split.rest;
    let list = Items {
        rows,
        cells,
        first,
        count: groups,
    };
    let own = node_keys::kept_groups(key, asked, &list, input);
    let kept = own.followed_by(groups, set);
    if kept.is_empty() {
        return Job {
            todo: Todo::Nothing,
            rest: Rest::Own,
            ask: none,
            second: none,
            set: kept,
            kept,
        };
    }
    let by = requests::with_items(none, &list, own, input);
    let at = first + groups;
    let ask = requests::with_aggregates(by, rows, at, aggregates, cells, set, input);
    Job {
        todo: Todo::One { topped: true },
        rest: Rest::Own,
        ask,
        second: none,
        set: kept,
        kept,
    }
}

/// A Window's job. Its n windows stand from row `first` on.
fn window_job(
    r: RequiredIndices,
    first: usize,
    n: usize,
    cells: &[u64],
    rows: &[u16],
    input: &Schema,
) -> Job
    requires all_at { AllAt (WinOk rows.now cells.now) (win_size rows.now) first n }
    requires below { SchemaBelow input.now }
    ensures { (key : List ℕ) → OneJob (window (wins_at rows.now cells.now first n)) key (fields_of input.now) r result }
{
    let none = RequiredIndices::new();
    let split = r.split_off(input.width);
    let below = split.below;
    let set = split.rest;
    if set.is_empty() {
        return Job {
            todo: Todo::Same,
            rest: Rest::InputThen { width: input.width },
            ask: below,
            second: none,
            set,
            kept: none,
        };
    }
    let ask = requests::with_windows(below, rows, first, n, cells, set, input);
    Job {
        todo: Todo::One { topped: true },
        rest: Rest::InputThen { width: input.width },
        ask,
        second: none,
        set,
        kept: none,
    }
}

/// The sets of a join's two sides as a set of its fields, the left's being `left` in number.
fn join_kept(
    join_type: JoinType,
    left: usize,
    a: RequiredIndices,
    b: RequiredIndices,
) -> RequiredIndices
    requires { Joinable join_type left b }
    ensures { Joined join_type left a b result }
{
    match join_type {
        JoinType::Inner | JoinType::Left | JoinType::Right | JoinType::Full => {
            a.followed_by(left, b)
        }
        JoinType::LeftSemi | JoinType::LeftAnti => a,
        JoinType::RightSemi | JoinType::RightAnti => b,
    }
}

/// What a join asks of one side, whose fields are those of `input`: its part of the request, and the columns that the references
/// of both halves of the pairs and of the condition find there.
fn side_ask(
    part: RequiredIndices,
    j: JoinNode,
    cells: &[u64],
    rows: &[u16],
    input: &Schema,
) -> RequiredIndices
    requires each_ok { EachOk (OnOk rows.now cells.now) rows.now j.first j.n }
    requires wf { j.has_filter ≡ true → Wf cells.now (j.filter + 1) }
    requires below { SchemaBelow input.now }
    ensures { Sided (join_exprs (ons_at rows.now cells.now j.first j.n) (if? j.has_filter (expr_at cells.now j.filter))) (fields_of input.now) part result }
{
    let lefts = requests::with_roots(part, rows, j.first, j.n, 2, cells, input);
    let mut all = requests::with_roots(lefts, rows, j.first, j.n, 3, cells, input);
    if j.has_filter {
        all = requests::add_expr(all, cells, j.filter, input);
    }
    all.with_projection_beneficial()
}

/// A Join's job. Its left input's fields are those of `left`, its right one's those of `right`.
fn join_job(
    r: RequiredIndices,
    j: JoinNode,
    cells: &[u64],
    rows: &[u16],
    left: &Schema,
    right: &Schema,
) -> Job
    requires each_ok { EachOk (OnOk rows.now cells.now) rows.now j.first j.n }
    requires wf { j.has_filter ≡ true → Wf cells.now (j.filter + 1) }
    requires below { SchemaBelow left.now }
    requires below_2 { SchemaBelow right.now }
    requires posed_two { (R : Mask) × PosedTwo (join (join_is j.join_type) (ons_at rows.now cells.now j.first j.n) (if? j.has_filter (expr_at cells.now j.filter))) (fields_of left.now) (fields_of right.now) r R }
    ensures { TwoJob (join (join_is j.join_type) (ons_at rows.now cells.now j.first j.n) (if? j.has_filter (expr_at cells.now j.filter))) (fields_of left.now) (fields_of right.now) r j.right result }
{
    let split = requests::split_join_requirements(j.join_type, left.width, r);
    let ask = side_ask(split.below, j, cells, rows, left);
    let second = side_ask(split.rest, j, cells, rows, right);
    let kept = join_kept(j.join_type, left.width, ask, second);
    Job {
        todo: Todo::Two { right: j.right },
        rest: Rest::Own,
        ask,
        second,
        set: RequiredIndices::new(),
        kept,
    }
}

/// A Union's job: both inputs are asked with the request.
fn union_job(r: RequiredIndices, right: usize) -> Job
    ensures { (fl fr : List Pair) → TwoJob union fl fr r right result }
{
    let ask = r.with_projection_beneficial();
    Job {
        todo: Todo::Two { right },
        rest: Rest::Own,
        ask,
        second: ask,
        set: RequiredIndices::new(),
        kept: r,
    }
}

/// A scan's job: its columns at the request. Its filters stay.
fn scan_job(r: RequiredIndices) -> Job
    ensures { (t q : ℕ) (is : Option (List ℕ)) (es : List Expr) → LeafJob (scan t q is es) r result }
{
    let none = RequiredIndices::new();
    Job {
        todo: Todo::Leaf,
        rest: Rest::Own,
        ask: none,
        second: none,
        set: r,
        kept: r,
    }
}

/// An Empty's job: unchanged, all of its n fields.
fn empty_job(r: RequiredIndices, n: usize) -> Job
    requires { n ≤ 512 }
    ensures { (b : Bool) (cs : List Pair) → n ≡ length cs → LeafJob (empty b cs) r result }
{
    let none = RequiredIndices::new();
    let kept = RequiredIndices::new_for_all_exprs(n);
    Job {
        todo: Todo::Leaf,
        rest: Rest::Own,
        ask: none,
        second: none,
        set: none,
        kept,
    }
}

/// The job of a node that is no Projection: `node` is node `k` of an accepted plan, asked with `r`. The keys of all nodes stand in the slots of
/// `keys`. Rust: the arms of `optimize_projections`.
pub fn job_at(
    node: Node,
    k: usize,
    r: RequiredIndices,
    cells: &[u64],
    rows: &[u16],
    fields: &[u16],
    widths: &[u64],
    keys: &[u64],
) -> Job
    requires { Asked cells.now rows.now fields.now widths.now keys.now node k r }
    ensures { JobAt cells.now rows.now fields.now widths.now keys.now node k r result }
{
    let i = k + 1;
    let input = Schema {
        fields,
        first: lookup::first_at(widths, i),
        width: lookup::width_at(widths, i),
    };
    match node {
        Node::Projection { .. } => unreachable!(),
        Node::Filter { root } => filter_job(r, root, cells, &input),
        Node::Sort { first, n } => sort_job(r, first, n, cells, rows, &input),
        Node::Limit { .. } => limit_job(r),
        Node::Aggregate {
            first,
            groups,
            aggregates,
        } => {
            let slot = key_sets::node_slot(i);
            let key = key_sets::key_at(keys, slot);
            aggregate_job(r, key, first, groups, aggregates, cells, rows, &input)
        }
        Node::Window { first, n } => window_job(r, first, n, cells, rows, &input),
        Node::SubqueryAlias { .. } => alias_job(r),
        Node::Union { right } => union_job(r, right),
        Node::Distinct => distinct_job(r, &input),
        Node::Join(j) => {
            let right = Schema {
                fields,
                first: lookup::first_at(widths, j.right),
                width: lookup::width_at(widths, j.right),
            };
            join_job(r, j, cells, rows, &input, &right)
        }
        Node::Scan(_) => scan_job(r),
        Node::Empty { n, .. } => empty_job(r, n),
    }
}

/// The fields of a node that are left, by its job's `rest`, `set` and `kept`, where `input` are those of its input that are.
pub fn kept_of(
    rest: Rest,
    set: RequiredIndices,
    kept: RequiredIndices,
    input: RequiredIndices,
) -> RequiredIndices
    requires { LeftBy rest set kept }
    ensures { KeptBy rest set kept input result }
{
    match rest {
        Rest::Input => input,
        Rest::InputThen { width } => input.followed_by(width, set),
        Rest::Own => kept,
    }
}
