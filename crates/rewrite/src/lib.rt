// The rewriter: extents and ties, starts, and swaps made in the lent output only where the rule lets them.
#![tactic(auto)]

ghost use Rattle.std.specs.Prelude.{◌≡◌, List, ◌++◌, ℕ, cond, ◌+◌, ◌-◌, ◌*◌, ◌/◌, ◌≤◌, ◌<◌, length, take, drop};
ghost use Rattle.machine.specs.Refusals.{told_number};
ghost use Rattle.record.specs.Names.{carriers_of};
ghost use Rattle.rewrite.specs.Extents.{member, half_column, layer_of, narrow, broad, form_extent, extent_of, meets, share_carrier};
ghost use Rattle.rewrite.specs.Programs.{flat, records_of, starts_of};
ghost use Rattle.rewrite.specs.Rewrite.{swap_of, log_record_of, ended, replay, lent_no, writes, rewrite_of};
ghost use Rattle.rewrite.specs.Laid.{far_apart, Placed, Sound, Laid, Marked, start_at, pair_at, rack_byte, in_force_at, tied_pair, swap_no, left_by, read_as, follow_no, left_after, stopped, exchanged};

use machine::refusals::Refusal;
use machine::{Column, Needle, Racking, State};
use record::{DROP, IN, KNIT, MISS, PLATED_KNIT, PLATED_TUCK, RACK, Record, SPLIT, TUCK, XFER};
use run::{Answer, Ended, Stop};

// What a record covers: half columns from left to right, layers from low to high.
#[derive(Clone, Copy)]
pub struct Extent {
    pub left: i32,
    pub right: i32,
    pub low: u8,
    pub high: u8,
}

// Where two neighbours stand: the one from first to second, the other from there to end.
#[derive(Clone, Copy)]
struct Pair {
    first: usize,
    second: usize,
    end: usize,
}

// A program between swaps, its records' starts, and the racking bytes in force at every 64th.
#[derive(Clone, Copy)]
struct View<'a> {
    program: &'a [u8],
    starts: &'a [u16],
    rackings: &'a [u8],
}

// The layer of the back bed; the front bed's is 0, carriers lie between.
pub const BACK: u8 = 11;

// A log: the kind of its swaps and the length of its records.
pub const SWAP: u8 = 64;

pub const LOG_RECORD: usize = 3;

// The racking in force is kept at every 64th record, 256 at most.
pub const STRIDE: usize = 64;

pub const MARKS: usize = 256;

// The needle's half column, alone or with one to each side.
fn columns(n: Needle, r: Racking, beside: bool, low: u8, high: u8) -> Extent
    ensures { result ≡ cond beside (broad (half_column n r) low high) (narrow (half_column n r) low high) }
{
    let z = n.column(r);
    let h = z.0 + z.0;
    let reach = i32::from(beside);
    Extent {
        left: h - reach,
        right: h + reach,
        low,
        high,
    }
}

// The layer of the needle's bed.
#[tactic(auto, unfolding(crate::specs::Extents::layer_of))]
fn layer(n: Needle) -> u8
    ensures { result ≡ layer_of n }
{
    if n.0 == 0 { 0 } else { BACK }
}

// From the needle's bed to carriers, of which low is the smallest and high the greatest.
fn form(n: Needle, r: Racking, low: u8, high: u8) -> Extent
    ensures { result ≡ form_extent (half_column n r) n low high }
{
    if n.0 == 0 {
        columns(n, r, true, 0, high)
    } else {
        columns(n, r, true, low, BACK)
    }
}

// A record's extent at the racking in force.
#[tactic(auto, using(crate::proofs::Extents::extents))]
pub fn extent_of(x: Record, r: Racking) -> Extent
    ensures { result ≡ extent_of r x }
{
    let n = x.at;
    let kind = x.kind;
    let all = columns(n, r, true, 0, BACK);
    match kind {
        DROP => {
            let k = layer(n);
            columns(n, r, false, k, k)
        }
        XFER => columns(n, r, false, 0, BACK),
        IN..=MISS => columns(n, r, true, x.carrier, x.carrier),
        TUCK..=KNIT => form(n, r, x.carrier, x.carrier),
        SPLIT => all,
        PLATED_TUCK..=PLATED_KNIT => form(n, r, x.carrier.min(x.second), x.carrier.max(x.second)),
        // a rack has no extent: no tie asks for it
        _ => all,
    }
}

impl Extent {
    // Whether the two share a half column and a layer.
    #[tactic(auto, unfolding(crate::specs::Extents::meets))]
    pub fn meets(self, other: Extent) -> bool
        ensures { result ≡ meets self other }
    {
        self.left <= other.right
            && other.left <= self.right
            && self.low <= other.high
            && other.low <= self.high
    }
}

// Whether the record names the carrier.
#[tactic(auto, using(crate::proofs::Carriers::carriers), unfolding(crate::specs::Extents::member))]
pub fn names(x: Record, k: u8) -> bool
    ensures { result ≡ member k (carriers_of x) }
{
    match record::carriers_named(x.kind) {
        0 => false,
        1 => k == x.carrier,
        _ => k == x.carrier || k == x.second,
    }
}

// Whether the two name one carrier.
#[tactic(auto, using(crate::proofs::Carriers::carriers), unfolding(crate::specs::Extents::common))]
pub fn share_carrier(x: Record, y: Record) -> bool
    ensures { result ≡ share_carrier x y }
{
    match record::carriers_named(x.kind) {
        0 => false,
        1 => names(y, x.carrier),
        _ => names(y, x.carrier) || names(y, x.second),
    }
}

// Whether the two are two columns apart or more.
#[tactic(auto, unfolding(crate::specs::Laid::far_apart))]
pub fn apart(a: Column, b: Column) -> bool
    ensures { result ≡ far_apart a b }
{
    1 < a.0.abs_diff(b.0)
}

// Whether the extents of the two meet at the racking in force; most are apart by their columns alone.
#[tactic(auto, using(crate::proofs::Extents::far_apart_lem))]
fn meet(x: Record, y: Record, r: Racking) -> bool
    ensures { result ≡ meets (extent_of r x) (extent_of r y) }
{
    let n = x.at;
    let m = y.at;
    let z = n.column(r);
    if apart(z, m.column(r)) {
        return false;
    }
    let e = extent_of(x, r);
    e.meets(extent_of(y, r))
}

// Moves the first k bytes of a short part behind the others. (The library's `rotate_left` costs a swap 4,300 instructions in
// place of 117: it keeps a side of any length on the stack.)
fn rotate(part: &mut [u8], k: usize)
    requires { (k ≤ length part.old) × (length part.old ≤ 12) }
    ensures { part.new ≡ drop k part.old ++ take k part.old }
{
    let mut old = [0u8; 12];
    let n = part.len();
    old[..n].copy_from_slice(part);
    let m = n - k;
    part[..m].copy_from_slice(&old[k..n]);
    part[m..].copy_from_slice(&old[..k]);
}

// Exchanges the two halves of a part, k bytes each.
fn halves(part: &mut [u8], k: usize)
    requires { length part.old ≡ k + k }
    ensures { part.new ≡ drop k part.old ++ take k part.old }
{
    for i in 0..k {
        part.swap(i, k + i);
    }
}

// The records from a to b and from b to e change places: two of 3 bytes (drops), of 5 (in to knit) or of 6 (split, plated)
// byte by byte, at a length that the compiler knows, all else by way of a copy.
#[tactic(auto, using(crate::proofs::Rotations::put_back))]
fn exchange(output: &mut [u8], a: usize, b: usize, e: usize)
    requires { (a ≤ b) × (b ≤ e) × (e ≤ length output.old) × (e - a ≤ 12) }
    ensures { output.new ≡ exchanged output.old a b e }
{
    let k = b - a;
    let each = if e - b == k { k } else { 0 };
    match each {
        3 => halves(&mut output[a..e], 3),
        5 => halves(&mut output[a..e], 5),
        6 => halves(&mut output[a..e], 6),
        _ => rotate(&mut output[a..e], k),
    }
}

// Writes each record's start into the front of the work area and answers how many there are. (A `while`: a record's size decides
// the next place.)
pub fn starts(program: &[u8], work: &mut [u16]) -> usize
    requires { (Sound program.now) × (length program.now / 2 ≤ length work.old) }
    ensures { (result ≡ length (records_of program.now)) × (work.new ≡ starts_of 0 (records_of program.now) ++ drop result work.old) }
{
    let mut n: usize = 0;
    let mut at: usize = 0;
    while at < program.len() {
        work[n] = at as u16;
        n += 1;
        at += record::size_of(program[at]);
    }
    n
}

// Where record i starts in the program whose starts these are. All starts are read here.
#[tactic(auto, using(crate::proofs::Laying::work_start))]
fn start(work: &[u16], i: usize) -> usize
    requires { i < length work.now }
    ensures { (program : List ℕ) → Laid program work.now → result ≡ start_at program i }
{
    usize::from(work[i])
}

// The racking byte after the records from i to n, where it was r before them.
fn racking_after(program: &[u8], work: &[u16], i: usize, n: usize, r: u8) -> u8
    requires { (Laid program.now work.now) × (i ≤ n) × (n ≤ length (records_of program.now)) }
    ensures { result ≡ rack_byte r (take (n - i) (drop i (records_of program.now))) }
{
    let mut b = r;
    for j in i..n {
        let at = start(work, j);
        if program[at] == RACK {
            b = program[at + 1];
        }
    }
    b
}

// The racking byte in force at every 64th record.
fn marks(program: &[u8], work: &[u16], table: &mut [u8])
    requires { (Laid program.now work.now) × (length table.old ≡ 256) }
    ensures { Marked program.now table.new }
{
    let n = work.len();
    let mut b: u8 = 0;
    for i in (0..n).step_by(STRIDE) {
        table[i / STRIDE] = b;
        if i + STRIDE < n {
            b = racking_after(program, work, i, i + STRIDE, b);
        }
    }
}

impl<'a> View<'a> {
    // Where records i and i + 1 stand.
    fn pair_at(self, i: usize) -> Pair
        requires { (Laid self.program.now self.starts.now) × (i + 1 < length (records_of self.program.now)) }
        ensures { (result ≡ pair_at self.entry.program.now i) × (Placed self.entry.program.now result) }
    {
        let first = start(self.starts, i);
        let second = start(self.starts, i + 1);
        let end = second + record::size_of(self.program[second]);
        Pair { first, second, end }
    }

    // The racking in force at record i: at most 63 records are looked at.
    fn racking_at(self, i: usize) -> Racking
        requires { (Laid self.program.now self.starts.now) × (Marked self.program.now self.rackings.now) × (i < length (records_of self.program.now)) }
        ensures { result ≡ in_force_at self.entry.program.now i }
    {
        let j = i / STRIDE;
        let b = racking_after(self.program, self.starts, j * STRIDE, i, self.rackings[j]);
        Racking(record::signed(b))
    }

    // Whether records i and i + 1, which stand there, are tied: a rack, one carrier, or extents that meet. (The racking in
    // force is looked for before the records are read: with those at hand the walk to it would be longer by a load for each
    // record; a tie ends its log, so a walk for nothing is made once.)
    #[tactic(auto, using(crate::proofs::Judging::racks))]
    fn tied(self, i: usize, there: Pair) -> bool
        requires { (Laid self.program.now self.starts.now) × (Marked self.program.now self.rackings.now) × (i + 1 < length (records_of self.program.now)) × (there ≡ pair_at self.program.now i) × (Placed self.program.now there) }
        ensures { result ≡ tied_pair self.entry.program.now i }
    {
        let a = there.first;
        let b = there.second;
        let e = there.end;
        let program = self.program;
        if program[a] == RACK {
            return true;
        }
        if program[b] == RACK {
            return true;
        }
        let r = self.racking_at(i);
        let x = record::outline(&program[a..b]);
        let y = record::outline(&program[b..e]);
        share_carrier(x, y) || meet(x, y, r)
    }
}

// Swaps records i and i + 1, or answers 12 or 13. (Output, work and table are three loans: a struct of them would have to promise of
// each method that its loans stay themselves.)
fn swap(output: &mut [u8], work: &mut [u16], table: &[u8], i: usize) -> Result<(), Refusal>
    requires { (Laid output.old work.old) × (Marked output.old table.now) × (i < 65536) }
    ensures number { told_number result ≡ swap_no (swap_of i (records_of output.old)) }
    ensures bytes { output.new ≡ flat (left_by (swap_of i (records_of output.old)) (records_of output.old)) }
    ensures starts { work.new ≡ starts_of 0 (left_by (swap_of i (records_of output.old)) (records_of output.old)) }
{
    if work.len() <= i + 1 {
        return Err(Refusal::NoPair);
    }
    let view = View {
        program: output,
        starts: work,
        rackings: table,
    };
    let there = view.pair_at(i);
    if view.tied(i, there) {
        return Err(Refusal::Tied);
    }
    exchange(output, there.first, there.second, there.end);
    work[i + 1] = (there.first + (there.end - there.second)) as u16;
    Ok(())
}

// The position in the log record that the bytes begin with: its kind, then the position, high byte first. All log records
// are read here.
fn log_record(log: &[u8]) -> Result<u16, Refusal>
    ensures { result ≡ read_as (log_record_of log.now) }
{
    match log {
        [SWAP, high, low, ..] => Ok(u16::from_be_bytes([*high, *low])),
        _ => Err(Refusal::TornLog),
    }
}

// Does what the log record asks that the bytes begin with, or answers why not.
fn follow(log: &[u8], output: &mut [u8], work: &mut [u16], table: &[u8]) -> Result<(), Refusal>
    requires { (Laid output.old work.old) × (Marked output.old table.now) }
    ensures number { told_number result ≡ follow_no (log_record_of log.now) (records_of output.old) }
    ensures bytes { output.new ≡ flat (left_after (log_record_of log.now) (records_of output.old)) }
    ensures starts { work.new ≡ starts_of 0 (left_after (log_record_of log.now) (records_of output.old)) }
{
    let i = log_record(log)?;
    swap(output, work, table, usize::from(i))
}

// Follows the records of a log in order, up to the first that it refuses.
fn replay(log: &[u8], output: &mut [u8], work: &mut [u16], table: &[u8]) -> Result<(), Stop>
    requires { (Laid output.old work.old) × (Marked output.old table.now) }
    ensures stopped { stopped result (replay log.now 0 (records_of output.old)).left ≡ replay log.now 0 (records_of output.old) }
    ensures bytes { output.new ≡ flat (replay log.now 0 (records_of output.old)).left }
    ensures starts { work.new ≡ starts_of 0 (replay log.now 0 (records_of output.old)).left }
{
    for place in (0..log.len()).step_by(LOG_RECORD) {
        follow(&log[place..], output, work, table).map_err(|why| Stop { why, place })?;
    }
    Ok(())
}

// Where a log ended, by numbers: 0 and 0 at its end.
fn end_of(r: Result<(), Stop>) -> Ended
    ensures { (l : List (List ℕ)) → ended result.number result.place l ≡ stopped r l }
{
    match r {
        Ok(()) => run::end_at(0, 0),
        Err(stop) => run::end_at(stop.why.number(), stop.place),
    }
}

// Whether hooks can have the limit and the lent areas will do, by their lengths, or 15, 1 or 2.
#[tactic(auto, unfolding(crate::specs::Rewrite::lent_no, run::specs::Run::start_no))]
pub fn lent(
    limit: u8,
    program: usize,
    log: usize,
    output: usize,
    work: usize,
) -> Result<(), Refusal>
    ensures { told_number result ≡ lent_no limit program log output work }
{
    run::start(limit, program)?;
    if State::LOG_MOST < log {
        return Err(Refusal::TooLong);
    }
    if output < program || work < program / 2 {
        return Err(Refusal::NoRoom);
    }
    Ok(())
}

// Whether a call that answers this number has written: the program is then at the front of the output.
#[tactic(auto, unfolding(crate::specs::Rewrite::writes))]
pub fn writes(number: u8) -> bool
    ensures { result ≡ writes number }
{
    number == 0
        || number == Refusal::NoPair.number()
        || number == Refusal::Tied.number()
        || number == Refusal::TornLog.number()
}

// Runs the program, copies it to the front of the output, writes its records' starts into the front of the work area
// and makes the log's swaps there. Numbers 1 to 11 and 15 to 17 write nothing; 12 to 14 leave what the swaps before made.
pub fn rewrite(limit: u8, program: &[u8], log: &[u8], output: &mut [u8], work: &mut [u16]) -> Answer
    ensures answer { result ≡ (rewrite_of limit program.now log.now output.old work.old).answer }
    ensures bytes { output.new ≡ (rewrite_of limit program.now log.now output.old work.old).output }
    ensures starts { work.new ≡ (rewrite_of limit program.now log.now output.old work.old).work }
{
    let n = program.len();
    if let Err(why) = lent(limit, n, log.len(), output.len(), work.len()) {
        return run::refused(why.number(), limit);
    }
    let a = run::run(limit, program);
    if a.number != 0 {
        return a;
    }
    output[..n].copy_from_slice(program);
    let count = starts(program, work);
    let mut table = [0u8; MARKS];
    marks(program, &work[..count], &mut table);
    let d = end_of(replay(log, &mut output[..n], &mut work[..count], &table));
    Answer {
        number: d.number,
        place: d.place,
        ..a
    }
}
