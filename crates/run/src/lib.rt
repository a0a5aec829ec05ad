// The step of a record and the run of a program, with the refusals 1, 3 to 11, 15 of a limit, 16 and 17.
#![tactic(auto)]

ghost use Rattle.std.specs.Prelude.{◌≡◌, ◌≤◌, ◌<◌, ◌+◌, length, get_or, set, eqb, not, cond, map, IfOk};
ghost use Rattle.machine.specs.Machine.{OnBed, hook_of, inactive, empty_state, changed, moved_to};
ghost use Rattle.machine.specs.Geometry.{column_of, entry_of, exit_of};
ghost use Rattle.machine.specs.Refusals.{told_number};
ghost use Rattle.record.specs.Kinds.{RACK, DROP, XFER, IN, OUT, MISS, TUCK, KNIT, SPLIT, PLATED_TUCK, PLATED_KNIT};
ghost use Rattle.run.specs.Relation.{unattached, reparked, attached};
ghost use Rattle.run.specs.Step.{look_of, parked_no, float_no, or_number, asked_no, both_no, number_at};
ghost use Rattle.run.specs.Loops.{tuck_no, tucked, form_no, formed_loops, transfer_no, transferred_loops};
ghost use Rattle.run.specs.Run.{Fits, after_of, reached, ended, run_from, answer_limit, start_no, reached_of, answer_of, run_of, front_of, step_of};

use machine::refusals::Refusal;
use machine::{Carrier, Motion, Needle, Racking, Slot, State};
use record::{
    DROP, IN, KNIT, MISS, OUT, PLATED_KNIT, PLATED_TUCK, RACK, Record, SPLIT, TUCK, XFER,
};

// Where a run or a log ended: number and place alone. (Numbers here and in the two below, as C has them: `refused`, `end_at` and
// rewrite's `writes` promise something of every number.)
#[derive(Clone, Copy)]
pub struct Ended {
    pub number: u8,
    pub place: usize,
}

// All of it, with whether the state is the empty one.
#[derive(Clone, Copy)]
pub struct Answer {
    pub number: u8,
    pub place: usize,
    pub complete: bool,
    pub state: State,
}

// One step: the refusal's number and 0, or 0 and the record's length, the state, whether that is the empty one (1 or 0), and
// the hooks that were looked at for it.
#[derive(Clone, Copy)]
pub struct Stepped {
    pub number: u8,
    pub complete: u8,
    pub looked: u16,
    pub length: usize,
    pub state: State,
}

// Why a run stopped, and at which record's start.
#[derive(Clone, Copy)]
pub struct Stop {
    pub why: Refusal,
    pub place: usize,
}

// Whether the carrier is parked at the slot, or 7 or 8.
#[tactic(auto, using(machine::proofs::Signed::int_eq_is), unfolding(crate::specs::Step::parked_no))]
fn parked(c: Carrier, z: Slot) -> Result<(), Refusal>
    ensures { told_number result ≡ parked_no (not (eqb c.active 0)) c.slot z }
{
    if c.active == 0 {
        return Err(Refusal::NotIn);
    }
    if c.slot != z {
        return Err(Refusal::WrongSlot);
    }
    Ok(())
}

// Whether an attached carrier's needle is near enough to the needle, or 9.
#[tactic(auto, unfolding(crate::specs::Step::float_no, crate::specs::Step::look_of))]
fn float(c: Carrier, m: Motion) -> Result<(), Refusal>
    ensures { told_number result ≡ float_no (look_of m.racking c) (column_of m.needle m.racking) }
{
    if c.side != 0 && !c.needle.column(m.racking).near(m.column()) {
        return Err(Refusal::FloatTooLong);
    }
    Ok(())
}

// Whether the carrier can form a loop at the needle, or 7 to 9. (By the hint this and the others that have it are part of the
// run's loop.)
#[inline(always)]
#[tactic(auto, unfolding(crate::specs::Step::look_of))]
fn ready(c: Carrier, m: Motion) -> Result<(), Refusal>
    ensures { told_number result ≡ or_number (parked_no (look_of m.racking c).active (look_of m.racking c).slot (entry_of (column_of m.needle m.racking) m.right)) (float_no (look_of m.racking c) (column_of m.needle m.racking)) }
{
    parked(c, m.entry())?;
    float(c, m)
}

// Whether two carriers can form a plated stitch at the needle, or 7 to 9, by number first. (7 of either, then 8 of
// either, then 9 of either: whose 9 it is the number does not tell.)
#[tactic(auto, unfolding(crate::specs::Step::parked_no, crate::specs::Step::float_no, crate::specs::Step::look_of))]
fn both_ready(c: Carrier, d: Carrier, m: Motion) -> Result<(), Refusal>
    ensures { told_number result ≡ both_no (entry_of (column_of m.needle m.racking) m.right) (column_of m.needle m.racking) (look_of m.racking c) (look_of m.racking d) }
{
    if d.active == 0 {
        return Err(Refusal::NotIn);
    }
    parked(c, m.entry())?;
    ready(d, m)?;
    float(c, m)
}

// What a record of this kind asks of one carrier, or 6 to 9.
#[inline(always)]
#[tactic(auto, unfolding(crate::specs::Step::look_of, record::specs::Kinds::by_kind))]
fn asked(kind: u8, c: Carrier, m: Motion) -> Result<(), Refusal>
    ensures { told_number result ≡ asked_no kind m.needle m.right m.racking (look_of m.racking c) }
{
    match kind {
        IN if c.active != 0 => Err(Refusal::AlreadyIn),
        OUT => parked(c, m.exit()),
        MISS => parked(c, m.entry()),
        TUCK..=PLATED_KNIT => ready(c, m),
        _ => Ok(()),
    }
}

// The carrier after in; after in or out, by the kind; after a miss; after it formed a loop at the needle.
#[inline(always)]
fn enter(m: Motion) -> Carrier
    ensures { result ≡ unattached (entry_of (column_of m.needle m.racking) m.right) }
{
    Carrier {
        active: 1,
        side: 0,
        slot: m.entry(),
        needle: Needle(0, 0),
    }
}

#[inline(always)]
fn enter_or_leave(kind: u8, m: Motion) -> Carrier
    ensures { result ≡ cond (eqb kind IN) (unattached (entry_of (column_of m.needle m.racking) m.right)) inactive }
{
    if kind == IN {
        enter(m)
    } else {
        Carrier::inactive()
    }
}

fn pass(c: Carrier, m: Motion) -> Carrier
    ensures { result ≡ reparked c (exit_of (column_of m.needle m.racking) m.right) }
{
    Carrier {
        active: 1,
        slot: m.exit(),
        ..c
    }
}

fn attach(m: Motion) -> Carrier
    ensures { result ≡ attached (exit_of (column_of m.needle m.racking) m.right) m.needle m.right }
{
    Carrier {
        active: 1,
        side: if m.right { 2 } else { 1 },
        slot: m.exit(),
        needle: m.needle,
    }
}

// Puts v loops on the needle's hook.
fn put(loops: &mut [u8; State::HOOKS], n: Needle, v: u8)
    requires { OnBed n }
    ensures { loops.new ≡ set loops.old (hook_of n) v }
{
    loops[n.hook()] = v;
}

// The loops on a hook with v more, or 11 where it has no room for them.
#[tactic(auto, unfolding(crate::specs::Loops::tuck_no))]
fn with_more(here: u8, v: u8, limit: u8) -> Result<u8, Refusal>
    ensures number { told_number result ≡ tuck_no limit here v }
    ensures loops { IfOk result (λ n. n ≡ here + v) }
{
    match here.checked_add(v) {
        Some(n) if n <= limit => Ok(n),
        _ => Err(Refusal::HookFull),
    }
}

// Loops more on the needle's hook, v of them, or 11 and no store.
#[tactic(auto, unfolding(crate::specs::Loops::tuck_no, crate::specs::Loops::tucked))]
fn tuck(loops: &mut [u8; State::HOOKS], n: Needle, v: u8, limit: u8) -> Result<(), Refusal>
    requires { OnBed n }
    ensures number { told_number result ≡ tuck_no limit (get_or loops.old (hook_of n) 0) v }
    ensures loops { loops.new ≡ tucked limit loops.old n v }
{
    let i = n.hook();
    loops[i] = with_more(loops[i], v, limit)?;
    Ok(())
}

// The loops that a tuck or a knit forms on the needle's hook, plain or plated, or 11 and no store. (One loop always
// fits.)
#[inline(always)]
#[tactic(auto, unfolding(crate::specs::Loops::tuck_no, crate::specs::Loops::tucked, crate::specs::Loops::form_no, crate::specs::Loops::formed_loops, crate::specs::Step::first_asked, crate::specs::Step::first_after, record::specs::Kinds::by_kind))]
fn form(kind: u8, loops: &mut [u8; State::HOOKS], n: Needle, limit: u8) -> Result<(), Refusal>
    requires { (TUCK ≤ kind) × (kind ≤ PLATED_KNIT) × (kind ≡ SPLIT → ⊥) × (OnBed n) }
    ensures number { told_number result ≡ form_no limit kind (get_or loops.old (hook_of n) 0) }
    ensures loops { loops.new ≡ formed_loops limit kind loops.old n }
{
    match kind {
        TUCK => tuck(loops, n, 1, limit),
        KNIT => {
            put(loops, n, 1);
            Ok(())
        }
        PLATED_TUCK => tuck(loops, n, 2, limit),
        PLATED_KNIT => {
            if limit < 2 {
                return Err(Refusal::HookFull);
            }
            put(loops, n, 2);
            Ok(())
        }
        _ => Ok(()),
    }
}

// The loops at a go to b, and a then holds v; or 10 or 11, and no store.
#[tactic(auto, using(machine::proofs::Signed::int_eq_is), unfolding(crate::specs::Loops::tuck_no, crate::specs::Loops::transfer_no, crate::specs::Loops::transferred_loops, machine::specs::Geometry::same_column))]
fn transfer(
    loops: &mut [u8; State::HOOKS],
    a: Needle,
    b: Needle,
    r: Racking,
    v: u8,
    limit: u8,
) -> Result<(), Refusal>
    requires { (OnBed a) × (OnBed b) }
    ensures number { told_number result ≡ transfer_no limit loops.old a b r }
    ensures loops { loops.new ≡ transferred_loops limit loops.old a b r v }
{
    if a.column(r) != b.column(r) {
        return Err(Refusal::NotOpposite);
    }
    let i = a.hook();
    let j = b.hook();
    let sum = with_more(loops[i], loops[j], limit)?;
    loops[i] = v;
    loops[j] = sum;
    Ok(())
}

// The move of a record's carrier over its needle.
fn motion(x: Record, racking: Racking) -> Motion
    requires { Fits x }
    ensures { (result.needle ≡ x.at) × (result.racking ≡ racking) × (result.right ≡ x.right) }
{
    Motion {
        needle: x.at,
        racking,
        right: x.right,
    }
}

// A rack, unless it stretches a yarn. (`Fits` stands in each contract from here on: in a struct of its own the record would be read
// by one name more at forty places. A function for each family: one for several would ask the kind again, a few instructions
// a record.)
#[tactic(auto, using(crate::proofs::Arms::racks))]
fn rack(state: &mut State, x: Record) -> Result<(), Refusal>
    requires { x.kind ≡ RACK }
    ensures number { told_number result ≡ number_at state.old x }
    ensures after { state.new ≡ after_of state.old x }
{
    let r = state.racking;
    let z = x.racking;
    if r != z
        && machine::any_back(&state.carriers)
        && machine::any_stretched(&state.carriers, r, z)
    {
        return Err(Refusal::Stretched);
    }
    state.racking = z;
    Ok(())
}

#[tactic(auto, using(crate::proofs::Arms::drops))]
fn drop_loops(state: &mut State, x: Record)
    requires { (x.kind ≡ DROP) × (Fits x) }
    ensures number { 0 ≡ number_at state.old x }
    ensures after { state.new ≡ after_of state.old x }
{
    put(&mut state.loops, x.at, 0);
}

// The attachments at a needle go to another.
#[tactic(auto, using(crate::proofs::Arms::moves_along))]
fn move_attachments(state: &mut State, from: Needle, to: Needle)
    ensures { state.new ≡ changed state.old state.old.racking state.old.loops (map (moved_to from to) state.old.carriers) }
{
    if machine::any_beside(&state.carriers, from) {
        machine::attachments_moved(&mut state.carriers, from, to);
    }
}

#[tactic(auto, using(crate::proofs::Arms::transfers), unfolding(crate::specs::Loops::transferred_loops))]
fn xfer(state: &mut State, x: Record) -> Result<(), Refusal>
    requires { (x.kind ≡ XFER) × (Fits x) }
    ensures number { told_number result ≡ number_at state.old x }
    ensures after { state.new ≡ after_of state.old x }
{
    transfer(&mut state.loops, x.at, x.to, state.racking, 0, state.limit)?;
    move_attachments(state, x.at, x.to);
    Ok(())
}

#[tactic(auto, using(crate::proofs::Arms::enters_or_leaves))]
fn in_or_out(state: &mut State, x: Record) -> Result<(), Refusal>
    requires { (IN ≤ x.kind) × (x.kind ≤ OUT) × (Fits x) }
    ensures number { told_number result ≡ number_at state.old x }
    ensures after { state.new ≡ after_of state.old x }
{
    let k = usize::from(x.carrier) - 1;
    let m = motion(x, state.racking);
    asked(x.kind, state.carriers[k], m)?;
    state.carriers[k] = enter_or_leave(x.kind, m);
    Ok(())
}

#[tactic(auto, using(crate::proofs::Arms::misses))]
fn miss(state: &mut State, x: Record) -> Result<(), Refusal>
    requires { (x.kind ≡ MISS) × (Fits x) }
    ensures number { told_number result ≡ number_at state.old x }
    ensures after { state.new ≡ after_of state.old x }
{
    let k = usize::from(x.carrier) - 1;
    let m = motion(x, state.racking);
    let c = state.carriers[k];
    asked(x.kind, c, m)?;
    state.carriers[k] = pass(c, m);
    Ok(())
}

// Tuck and knit. (`asked` says `ready` of both, with one more look at the kind.)
#[tactic(auto, using(crate::proofs::Arms::forms), unfolding(crate::specs::Loops::formed_loops))]
fn form_one(state: &mut State, x: Record) -> Result<(), Refusal>
    requires { (TUCK ≤ x.kind) × (x.kind ≤ KNIT) × (Fits x) }
    ensures number { told_number result ≡ number_at state.old x }
    ensures after { state.new ≡ after_of state.old x }
{
    let k = usize::from(x.carrier) - 1;
    let m = motion(x, state.racking);
    ready(state.carriers[k], m)?;
    form(x.kind, &mut state.loops, x.at, state.limit)?;
    state.carriers[k] = attach(m);
    Ok(())
}

#[tactic(auto, using(crate::proofs::Arms::splits), unfolding(crate::specs::Loops::transferred_loops))]
fn split(state: &mut State, x: Record) -> Result<(), Refusal>
    requires { (x.kind ≡ SPLIT) × (Fits x) }
    ensures number { told_number result ≡ number_at state.old x }
    ensures after { state.new ≡ after_of state.old x }
{
    let k = usize::from(x.carrier) - 1;
    let m = motion(x, state.racking);
    asked(x.kind, state.carriers[k], m)?;
    transfer(&mut state.loops, x.at, x.to, state.racking, 1, state.limit)?;
    move_attachments(state, x.at, x.to);
    state.carriers[k] = attach(m);
    Ok(())
}

// A plated stitch.
#[tactic(auto, using(crate::proofs::Arms::plates), unfolding(crate::specs::Loops::formed_loops))]
fn form_two(state: &mut State, x: Record) -> Result<(), Refusal>
    requires { (PLATED_TUCK ≤ x.kind) × (x.kind ≤ PLATED_KNIT) × (Fits x) }
    ensures number { told_number result ≡ number_at state.old x }
    ensures after { state.new ≡ after_of state.old x }
{
    if x.carrier == x.second {
        return Err(Refusal::YarnTwice);
    }
    let k = usize::from(x.carrier) - 1;
    let j = usize::from(x.second) - 1;
    let m = motion(x, state.racking);
    both_ready(state.carriers[k], state.carriers[j], m)?;
    form(x.kind, &mut state.loops, x.at, state.limit)?;
    let then = attach(m);
    state.carriers[k] = then;
    state.carriers[j] = then;
    Ok(())
}

// The step of a record that its bytes gave: or why it has none, and the state as it was.
fn make(state: &mut State, x: Record) -> Result<(), Refusal>
    requires { Fits x }
    ensures number { told_number result ≡ number_at state.old x }
    ensures after { state.new ≡ after_of state.old x }
{
    match x.kind {
        RACK => rack(state, x),
        DROP => {
            drop_loops(state, x);
            Ok(())
        }
        XFER => xfer(state, x),
        IN..=OUT => in_or_out(state, x),
        MISS => miss(state, x),
        TUCK..=KNIT => form_one(state, x),
        SPLIT => split(state, x),
        PLATED_TUCK..=PLATED_KNIT => form_two(state, x),
        // decode gives no other kind
        _ => Ok(()),
    }
}

// The step of the first record of a slice: its length, or why it has none, and the state as it was.
#[tactic(auto, using(crate::proofs::Turns::advancing), unfolding(record::specs::Format::refused_as))]
fn advance(state: &mut State, bytes: &[u8]) -> Result<usize, Refusal>
    ensures number { told_number result ≡ (step_of state.old bytes.now).number }
    ensures length { IfOk result (λ size. size ≡ (step_of state.old bytes.now).length) }
    ensures state { state.new ≡ (step_of state.old bytes.now).state }
{
    let d = record::decode(bytes)?;
    make(state, d.what)?;
    Ok(d.size)
}

// The run of bytes of any length from a state, up to the first record that has no step: how many bytes were run, all of them, or
// why it stopped. (A `while`: a record's length decides the next place. The count is that `Ok` has something to say: an `Ok` without
// is 16 bytes to be cleared, for which the archive for a Cortex-M0+ wants `__aeabi_memclr`.)
#[tactic(auto, using(crate::proofs::Turns::running))]
fn run_from(state: &mut State, program: &[u8]) -> Result<usize, Stop>
    ensures run { ended result state.new ≡ run_from 0 program.now 0 state.old }
    ensures length { IfOk result (λ size. size ≡ length program.now) }
{
    let mut at = 0;
    while at < program.len() {
        at += advance(state, &program[at..]).map_err(|why| Stop { why, place: at })?;
    }
    Ok(at)
}

// The answer of a run that ended so: whether its state is the empty one is looked at last.
#[tactic(auto, unfolding(crate::specs::Run::answer_of))]
fn answered(end: Ended, state: State) -> Answer
    ensures { result ≡ answer_of (reached end.number end.place state) }
{
    let complete = state.complete();
    Answer {
        number: end.number,
        place: end.place,
        complete,
        state,
    }
}

// The answer to a call that is refused before its program is looked at: the empty state at the call's limit, or at 8 where
// no hook has that limit.
pub fn refused(number: u8, limit: u8) -> Answer
    ensures { result ≡ answer_of (reached number 0 (empty_state (answer_limit limit))) }
{
    answered(end_at(number, 0), State::empty(answer_limit(limit)))
}

// The limit, or 8 where no hook has it.
#[tactic(auto, unfolding(crate::specs::Run::answer_limit))]
fn answer_limit(limit: u8) -> u8
    ensures { result ≡ answer_limit limit }
{
    if State::has_limit(limit) {
        limit
    } else {
        State::LIMIT_MOST
    }
}

// Whether a run can start, or 15 or 1.
#[tactic(auto, unfolding(crate::specs::Run::start_no))]
pub fn start(limit: u8, length: usize) -> Result<(), Refusal>
    ensures { told_number result ≡ start_no limit length }
{
    if !State::has_limit(limit) {
        return Err(Refusal::BadState);
    }
    if State::PROGRAM_MOST < length {
        return Err(Refusal::TooLong);
    }
    Ok(())
}

// A number and a place.
pub fn end_at(number: u8, place: usize) -> Ended
    ensures { result ≡ record { number = number; place = place } }
{
    Ended { number, place }
}

// Where the run of a program from the empty state ends. (The state is made after the look whether a run can start: a refused call
// clears nothing. Its limit is stored where it lies, so that all its bytes are cleared by one call: with two, the controller's
// archive wants `__aeabi_memclr`.)
#[tactic(auto, unfolding(machine::specs::Machine::empty_state))]
fn from_empty(limit: u8, program: &[u8]) -> (Ended, State)
    ensures { reached result.0.number result.0.place result.1 ≡ reached_of limit program.now }
{
    let empty = answer_limit(limit);
    if let Err(why) = start(limit, program.len()) {
        return (end_at(why.number(), 0), State::empty(empty));
    }
    let mut state = State::cleared();
    state.limit = empty;
    let end = match run_from(&mut state, program) {
        Ok(_) => end_at(0, 0),
        Err(stop) => end_at(stop.why.number(), stop.place),
    };
    (end, state)
}

// The run of a program at a hook limit.
#[tactic(auto, unfolding(crate::specs::Run::run_of))]
pub fn run(limit: u8, program: &[u8]) -> Answer
    ensures { result ≡ run_of limit program.now }
{
    let (end, state) = from_empty(limit, program);
    answered(end, state)
}

// Number and place of a run: its state is not looked at.
#[tactic(auto, unfolding(crate::specs::Run::run_of, crate::specs::Run::answer_of))]
pub fn outcome(limit: u8, program: &[u8]) -> Ended
    ensures { (result.number ≡ (run_of limit program.now).number) × (result.place ≡ (run_of limit program.now).place) }
{
    let (end, _) = from_empty(limit, program);
    end
}

// The bytes of a slice's first record, or as many of them as there are; of an unknown kind the one byte.
#[tactic(auto, unfolding(crate::specs::Run::front_of))]
fn front(bytes: &[u8]) -> usize
    ensures { result ≡ front_of bytes.now }
{
    if bytes.is_empty() {
        return 0;
    }
    let size = record::size_of(bytes[0]);
    if size == 0 { 1 } else { size.min(bytes.len()) }
}

// The step of a slice's first record, by the run of that record alone: its length, or why it has none, and the state as it was.
// (`advance` promises the same. Called here too, it leaves the run's loop: 126 instructions a record in place of 96.)
#[tactic(auto, using(crate::proofs::Alone::standing_alone))]
fn first_step(state: &mut State, bytes: &[u8]) -> Result<usize, Refusal>
    ensures number { told_number result ≡ (step_of state.old bytes.now).number }
    ensures length { IfOk result (λ size. size ≡ (step_of state.old bytes.now).length) }
    ensures state { state.new ≡ (step_of state.old bytes.now).state }
{
    let size = front(bytes);
    if size == 0 {
        return Err(Refusal::CutShort);
    }
    run_from(state, &bytes[..size]).map_err(|stop| stop.why)?;
    Ok(size)
}

// The step of the first record of a slice of any length.
#[tactic(auto, using(crate::proofs::Alone::stepping), unfolding(machine::specs::Machine::complete_of))]
pub fn step(mut state: State, bytes: &[u8]) -> Stepped
    ensures { result ≡ step_of state bytes.now }
{
    let made = first_step(&mut state, bytes);
    let beds = machine::look_at_beds(state.racking, &state.loops);
    let complete = beds.none && machine::all_inactive(&state.carriers);
    let (number, length) = match made {
        Ok(length) => (0, length),
        Err(why) => (why.number(), 0),
    };
    Stepped {
        number,
        complete: u8::from(complete),
        looked: beds.looked as u16,
        length,
        state,
    }
}
