// The house order: between racks, always next the least of the records that are tied to no earlier remaining one.
#![tactic(auto)]

ghost use Rattle.std.specs.Prelude.{◌≡◌, ◌++◌, ◌+◌, ◌/◌, ◌≤◌, ◌<◌, length, drop, get_or};
ghost use Rattle.record.specs.Kinds.{RACK};
ghost use Rattle.record.specs.Format.{byte};
ghost use Rattle.record.specs.Names.{outline_of};
ghost use Rattle.trace.specs.Records.{tied};
ghost use Rattle.trace.specs.House.{house_order};
ghost use Rattle.rewrite.specs.Extents.{extent_of, meets};
ghost use Rattle.rewrite.specs.Programs.{flat, starts_of, what, knitting};
ghost use Rattle.rewrite.specs.Rewrite.{racking_zero};
ghost use Rattle.rewrite.specs.Laid.{Sound};
ghost use Rattle.house.specs.Order.{comes_first, house_records, house_of, order_of};
ghost use Rattle.house.specs.Arranged.{record_in, Begins, Starts, Moves, records_at, reach_of, near_to, tied_up_to, greater_from, spot_at, moved};

use machine::Racking;
use record::{RACK, Record};
use run::{Answer, Ended};

// Needles by their numbers, from low to high.
#[derive(Clone, Copy)]
struct Near {
    low: u16,
    high: u16,
}

// A record that is put in order and is no rack: where it begins, its outline, the racking at it, and the needles that are
// within reach of its own.
#[derive(Clone, Copy)]
struct Mover {
    at: usize,
    outline: Record,
    racking: Racking,
    near: Near,
}

// Whether the record x comes before the record y at the racking in force: the first byte in which they differ decides,
// and if there is none, the shorter comes first. The racking is not looked at: the definition has it, for other orders. (The
// library's `<` of slices makes an `Ordering` of each byte: an order of records that many come before took 1.4 times as long.)
#[tactic(auto, using(crate::proofs::Comparison::differ))]
fn comes_first(r: Racking, x: &[u8], y: &[u8]) -> bool
    ensures { result ≡ comes_first r x.now y.now }
{
    for i in 0..x.len().min(y.len()) {
        if x[i] != y[i] {
            return x[i] < y[i];
        }
    }
    x.len() < y.len()
}

// The place in the program that entry i holds. All entries are read here.
fn place(work: &[u16], i: usize) -> usize
    requires { i < length work.now }
    ensures { result ≡ get_or work.now i 0 }
{
    usize::from(work[i])
}

// The bytes of the record that begins at a place.
fn bytes_at(program: &[u8], a: usize) -> &[u8]
    requires { Begins program.now a }
    ensures { result.now ≡ record_in program.now a }
{
    &program[a..a + record::size_of(program[a])]
}

// The outline of the record that begins at a place and is no rack.
fn outline_at(program: &[u8], a: usize) -> Record
    requires { (Begins program.now a) × (byte program.now a ≡ RACK → ⊥) }
    ensures { result ≡ outline_of (what (record_in program.now a)) }
{
    record::outline(bytes_at(program, a))
}

// Whether the extents of the records at two places, which are no racks, meet.
#[tactic(auto, using(rewrite::proofs::Extents::outline_extent))]
fn meet_at(program: &[u8], a: usize, b: usize, r: Racking) -> bool
    requires { (Begins program.now a) × (byte program.now a ≡ RACK → ⊥) × (Begins program.now b) × (byte program.now b ≡ RACK → ⊥) }
    ensures { result ≡ meets (extent_of r (what (record_in program.now a))) (extent_of r (what (record_in program.now b))) }
{
    let e = rewrite::extent_of(outline_at(program, a), r);
    e.meets(rewrite::extent_of(outline_at(program, b), r))
}

// The needles that are within reach of a number: in neighbouring columns numbers can be so far apart at a racking.
fn within(n: u16, r: Racking) -> Near
    requires { n ≤ 249 }
    ensures { result ≡ near_to n (reach_of r.0) }
{
    let reach = u16::from(r.0.unsigned_abs()) + 1;
    Near {
        low: n.saturating_sub(reach),
        high: n + reach,
    }
}

impl Mover {
    // The record at a place, which is no rack.
    fn new(program: &[u8], at: usize, racking: Racking) -> Mover
        requires { (Begins program.now at) × (byte program.now at ≡ RACK → ⊥) }
        ensures { (Moves program.now result) × (result.at ≡ at) × (result.racking ≡ racking) }
    {
        let outline = outline_at(program, at);
        let n = outline.at;
        Mover {
            at,
            outline,
            racking,
            near: within(n.1, racking),
        }
    }
}

// Whether the record at a is tied to the one that is put in order. (Most name one carrier, which is another, and lie out of
// reach: that is seen by two of their bytes. `meet_at` is called once: the compiler then puts it into the loop of `behind`.)
#[tactic(auto, using(crate::proofs::Ties::looks))]
fn tied_to(program: &[u8], a: usize, own: Mover) -> bool
    requires { (Begins program.now a) × (Moves program.now own) }
    ensures { result ≡ tied knitting own.racking (record_in program.now a) (record_in program.now own.at) }
{
    let x = own.outline;
    let r = own.racking;
    let near = own.near;
    let kind = program[a];
    if record::carriers_named(kind) == 1 {
        let k = program[a + 4];
        if k == x.carrier || k == x.second {
            return true;
        }
        let m = u16::from(program[a + 3]);
        if m < near.low || near.high < m {
            return false;
        }
    } else {
        if kind == RACK {
            return true;
        }
        let y = outline_at(program, a);
        if rewrite::share_carrier(y, x) {
            return true;
        }
        let m = y.at;
        let n = x.at;
        if rewrite::apart(m.column(r), n.column(r)) {
            return false;
        }
    }
    meet_at(program, a, own.at, r)
}

// How many of the records before j there are up to the last one that record j is tied to.
#[tactic(auto, using(crate::proofs::Walks::backward))]
fn behind(program: &[u8], work: &[u16], j: usize, own: Mover) -> usize
    requires { (Starts program.now work.now) × (j < length work.now) × (Moves program.now own) × (own.at ≡ get_or work.now j 0) }
    ensures { result ≡ tied_up_to program.now work.now j own.racking }
{
    for i in (0..j).rev() {
        if tied_to(program, place(work, i), own) {
            return i + 1;
        }
    }
    0
}

// The first from i on, of the records before j, that record j comes before; j if there is none.
#[tactic(auto, using(crate::proofs::Walks::forward))]
fn before(program: &[u8], work: &[u16], i: usize, j: usize, r: Racking) -> usize
    requires { (Starts program.now work.now) × (i ≤ j) × (j < length work.now) }
    ensures { (result ≡ greater_from program.now work.now i j r) × (result ≤ j) }
{
    let own = bytes_at(program, place(work, j));
    for k in i..j {
        if comes_first(r, own, bytes_at(program, place(work, k))) {
            return k;
        }
    }
    j
}

// Puts record j, which is no rack, behind the last one that it is tied to, before the first there that it comes before.
#[tactic(auto, using(crate::proofs::Settling::settling))]
fn settle(program: &[u8], work: &mut [u16], j: usize, r: Racking)
    requires { (Starts program.now work.old) × (j < length work.old) × (byte program.now (get_or work.old j 0) ≡ RACK → ⊥) }
    ensures { work.new ≡ moved work.old (spot_at program.now work.old j r) j }
{
    let own = Mover::new(program, place(work, j), r);
    let i = behind(program, work, j, own);
    if i == j {
        return;
    }
    let k = before(program, work, i, j, r);
    work[k..j + 1].rotate_right(1);
}

// Puts the starts in house order.
fn arrange(program: &[u8], work: &mut [u16])
    requires { Starts program.now work.old }
    ensures { (Starts program.now work.new)
        × (records_at program.now work.new ≡ house_order knitting comes_first racking_zero (records_at program.now work.old)) }
{
    let mut r = Racking(0);
    for j in 0..work.len() {
        let a = place(work, j);
        if program[a] == RACK {
            r = Racking(record::signed(program[a + 1]));
        } else {
            settle(program, work, j, r);
        }
    }
}

// Writes the records at these starts end to end to the front of the output, and where they then start in place of these.
fn lay(program: &[u8], output: &mut [u8], work: &mut [u16])
    requires { (Starts program.now work.old) × (length program.now ≤ length output.old) }
    ensures bytes { output.new ≡ flat (records_at program.now work.old) ++ drop (length (flat (records_at program.now work.old))) output.old }
    ensures starts { work.new ≡ starts_of 0 (records_at program.now work.old) }
{
    let mut at: usize = 0;
    for i in 0..work.len() {
        let a = place(work, i);
        let bytes = bytes_at(program, a);
        let next = at + bytes.len();
        output[at..next].copy_from_slice(bytes);
        work[i] = at as u16;
        at = next;
    }
}

// Writes the house order of a sound program to the front of the output, its records' starts there to the front of the work
// area.
fn write_order(program: &[u8], output: &mut [u8], work: &mut [u16])
    requires { (Sound program.now) × (length program.now ≤ length output.old) × (length program.now / 2 ≤ length work.old) }
    ensures bytes { output.new ≡ house_of program.now ++ drop (length program.now) output.old }
    ensures starts { work.new ≡ starts_of 0 (house_records program.now) ++ drop (length (house_records program.now)) work.old }
{
    let count = rewrite::starts(program, work);
    arrange(program, &mut work[..count]);
    lay(program, output, &mut work[..count]);
}

// Runs the program and writes its house order. A refused call writes nothing. (`outcome` is this without a state: one function for
// both would take three closures.)
#[tactic(auto, using(crate::proofs::Ordering::calls))]
pub fn order(limit: u8, program: &[u8], output: &mut [u8], work: &mut [u16]) -> Answer
    ensures answer { result ≡ (order_of limit program.now output.old work.old).answer }
    ensures bytes { output.new ≡ (order_of limit program.now output.old work.old).output }
    ensures starts { work.new ≡ (order_of limit program.now output.old work.old).work }
{
    if let Err(why) = rewrite::lent(limit, program.len(), 0, output.len(), work.len()) {
        return run::refused(why.number(), limit);
    }
    let a = run::run(limit, program);
    if a.number != 0 {
        return a;
    }
    write_order(program, output, work);
    a
}

// The same with number and place alone, as the C entries want it: the state is not looked at.
#[tactic(auto, using(crate::proofs::Ordering::calls))]
pub fn outcome(limit: u8, program: &[u8], output: &mut [u8], work: &mut [u16]) -> Ended
    ensures answer { (result.number ≡ (order_of limit program.now output.old work.old).answer.number)
        × (result.place ≡ (order_of limit program.now output.old work.old).answer.place) }
    ensures bytes { output.new ≡ (order_of limit program.now output.old work.old).output }
    ensures starts { work.new ≡ (order_of limit program.now output.old work.old).work }
{
    if let Err(why) = rewrite::lent(limit, program.len(), 0, output.len(), work.len()) {
        return run::end_at(why.number(), 0);
    }
    let e = run::outcome(limit, program);
    if e.number != 0 {
        return e;
    }
    write_order(program, output, work);
    e
}
