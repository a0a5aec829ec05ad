// The panel's services by value: the step of one record and the answer to a carrier list. 15 is looked at first.
#![tactic(auto)]

ghost use Rattle.std.specs.Prelude.{◌≡◌, ◌<◌, get_or};
ghost use Rattle.machine.specs.Machine.{inactive};
ghost use Rattle.machine.specs.Refusals.{number_of};
ghost use Rattle.panel.specs.Panel.{panel_step, list_answer};

use machine::refusals::Refusal;
use machine::{Carrier, State};

// What the carrier list gives besides the loan: a number, and the entries written (0 if refused).
#[repr(C)]
#[derive(Clone, Copy)]
pub struct Served {
    pub number: u8,
    pub length: usize,
}

impl Served {
    // The answer where the list is not written.
    fn refused(why: Refusal) -> Served
        ensures { result ≡ record { number = number_of why; length = 0 } }
    {
        Served {
            number: why.number(),
            length: 0,
        }
    }
}

// What the step gives besides the loan: a number, whether the state that it leaves is the empty one (1 or 0; 0 after 15),
// the hooks that were looked at for it, and the record's length (0 if refused).
#[repr(C)]
#[derive(Clone, Copy)]
pub struct Stepped {
    pub number: u8,
    pub complete: u8,
    pub looked: u16,
    pub length: usize,
}

// The step of the first record of a slice of any length, from a state with any values.
#[tactic(auto, unfolding(crate::specs::Panel::panel_step))]
pub fn step(state: State, bytes: &[u8]) -> run::Stepped
    ensures { result ≡ panel_step state bytes.now }
{
    if !state.in_range() {
        return run::Stepped {
            number: Refusal::BadState.number(),
            complete: 0,
            looked: 0,
            length: 0,
            state,
        };
    }
    run::step(state, bytes)
}

// The answer for a list of so many entries.
#[tactic(auto, unfolding(crate::specs::Panel::list_answer))]
pub fn list_answer(state: State, count: usize) -> Served
    ensures { result ≡ list_answer state count }
{
    if !state.in_range() {
        return Served::refused(Refusal::BadState);
    }
    if count < State::CARRIERS {
        return Served::refused(Refusal::NoRoom);
    }
    Served {
        number: 0,
        length: State::CARRIERS,
    }
}

// A carrier by its place in the list.
pub fn carrier_at(state: State, i: usize) -> Carrier
    requires { i < 10 }
    ensures { result ≡ get_or state.carriers i inactive }
{
    state.carriers[i]
}
