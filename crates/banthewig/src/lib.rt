// The C interface: thin entries over the proved crates.
#![tactic(auto)]

ghost use Rattle.std.specs.Prelude.{◌≡◌, ◌+◌, ◌*◌, ◌<◌, length};
ghost use Rattle.machine.specs.Limits.{limit_most};
ghost use Rattle.run.specs.Run.{run_of};
ghost use Rattle.rewrite.specs.Rewrite.{rewrite_of};
ghost use Rattle.house.specs.Order.{order_of};
ghost use Rattle.tie.specs.Tie.{tie_of};
ghost use Rattle.panel.specs.Panel.{panel_step, list_answer, carrier_list};
ghost use Rattle.banthewig.specs.Entries.{packed};

// The interface's number, in its name too: include/banthewig.h refers to it by name, so that a header and an archive of
// different numbers do not link.
#[unsafe(no_mangle)]
pub extern "C" fn knitout_interface_3() -> u32
    ensures { result ≡ 3 }
{
    3
}

// Number and place in one word.
fn word(number: u8, place: usize) -> u64
    requires { place < 65536 }
    ensures { result ≡ number * 65536 + place }
{
    u64::from(number) * 65536 + (place as u64)
}

// Runs a program at a hook limit: number times 65,536 plus place. A limit out of 1 to 8 gets 15 before all else.
#[unsafe(no_mangle)]
pub extern "C" fn knitout_run_at(limit: u8, program: &[u8]) -> u64
    ensures { result ≡ packed (run_of limit program.now) }
{
    let a = run::outcome(limit, program);
    word(a.number, a.place)
}

// The same at limit 8.
#[unsafe(no_mangle)]
pub extern "C" fn knitout_run(program: &[u8]) -> u64
    ensures { result ≡ packed (run_of limit_most program.now) }
{
    knitout_run_at(machine::State::LIMIT_MOST, program)
}

// Rewrites a program by a log at a hook limit: number times 65,536 plus place. The output begins with the program as the
// swaps left it, the work area with its records' starts; numbers 1 to 11 and 15 to 17 write nothing.
#[unsafe(no_mangle)]
pub extern "C" fn knitout_rewrite_at(
    limit: u8,
    program: &[u8],
    log: &[u8],
    output: &mut [u8],
    work: &mut [u16],
) -> u64
    ensures answer { result ≡ packed (rewrite_of limit program.now log.now output.old work.old).answer }
    ensures bytes { output.new ≡ (rewrite_of limit program.now log.now output.old work.old).output }
    ensures starts { work.new ≡ (rewrite_of limit program.now log.now output.old work.old).work }
{
    let a = rewrite::rewrite(limit, program, log, output, work);
    word(a.number, a.place)
}

// The same at limit 8.
#[unsafe(no_mangle)]
pub extern "C" fn knitout_rewrite(
    program: &[u8],
    log: &[u8],
    output: &mut [u8],
    work: &mut [u16],
) -> u64
    ensures answer { result ≡ packed (rewrite_of limit_most program.now log.now output.old work.old).answer }
    ensures bytes { output.new ≡ (rewrite_of limit_most program.now log.now output.old work.old).output }
    ensures starts { work.new ≡ (rewrite_of limit_most program.now log.now output.old work.old).work }
{
    knitout_rewrite_at(machine::State::LIMIT_MOST, program, log, output, work)
}

// Writes a program's house order at a hook limit: number times 65,536 plus place. The output begins with the ordered
// program, the work area with its records' starts; a refused call writes nothing.
#[unsafe(no_mangle)]
pub extern "C" fn knitout_order_at(
    limit: u8,
    program: &[u8],
    output: &mut [u8],
    work: &mut [u16],
) -> u64
    ensures answer { result ≡ packed (order_of limit program.now output.old work.old).answer }
    ensures bytes { output.new ≡ (order_of limit program.now output.old work.old).output }
    ensures starts { work.new ≡ (order_of limit program.now output.old work.old).work }
{
    let e = house::outcome(limit, program, output, work);
    word(e.number, e.place)
}

// The same at limit 8.
#[unsafe(no_mangle)]
pub extern "C" fn knitout_order(program: &[u8], output: &mut [u8], work: &mut [u16]) -> u64
    ensures answer { result ≡ packed (order_of limit_most program.now output.old work.old).answer }
    ensures bytes { output.new ≡ (order_of limit_most program.now output.old work.old).output }
    ensures starts { work.new ≡ (order_of limit_most program.now output.old work.old).work }
{
    knitout_order_at(machine::State::LIMIT_MOST, program, output, work)
}

// Whether the records at the front of two slices are tied at a racking, and why.
#[unsafe(no_mangle)]
pub extern "C" fn knitout_tie(racking: i8, first: &[u8], second: &[u8]) -> tie::Tied
    ensures { result ≡ tie_of racking first.now second.now }
{
    tie::tie(racking, first, second)
}

// Makes the step of the first record of a slice on a lent state: number, whether the state it leaves is the empty one at its
// limit (1 or 0; 0 after 15), the hooks that were looked at for it, and the record's length. A refused call stores nothing.
#[unsafe(no_mangle)]
pub extern "C" fn knitout_step(state: &mut machine::State, bytes: &[u8]) -> panel::Stepped
    ensures number { result.number ≡ (panel_step state.old bytes.now).number }
    ensures complete { result.complete ≡ (panel_step state.old bytes.now).complete }
    ensures looked { result.looked ≡ (panel_step state.old bytes.now).looked }
    ensures length { result.length ≡ (panel_step state.old bytes.now).length }
    ensures state { state.new ≡ (panel_step state.old bytes.now).state }
{
    let out = panel::step(*state, bytes);
    if out.number == 0 {
        *state = out.state;
    }
    panel::Stepped {
        number: out.number,
        complete: out.complete,
        looked: out.looked,
        length: out.length,
    }
}

// Lists the carriers of a lent state: number, and the entries written. Entries past ten keep their contents; a refused call
// writes nothing.
#[unsafe(no_mangle)]
pub extern "C" fn knitout_carriers(
    state: &machine::State,
    list: &mut [machine::Carrier],
) -> panel::Served
    ensures { (result ≡ list_answer state.now (length list.old))
        × (list.new ≡ carrier_list state.now list.old) }
{
    let out = panel::list_answer(*state, list.len());
    if out.number == 0 {
        list[..machine::State::CARRIERS].copy_from_slice(&state.carriers);
    }
    out
}
