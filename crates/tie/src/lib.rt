// Whether two records are tied at a racking, and why: a rack, else the least carrier that both name, else the half columns
// and layers that both extents cover.
#![tactic(auto)]

ghost use Rattle.std.specs.Prelude.{◌≡◌, ◌<◌, Ok, unwrap_or, IfSome};
ghost use Rattle.tie.specs.Bonds.{told_of, Carries};
ghost use Rattle.tie.specs.Tie.{least_shared, common, only_number, tied_by, tie_of_extents, tie_of_two, tie_of};

use machine::Racking;
use machine::refusals::Refusal;
use record::{RACK, Record};
use rewrite::Extent;

// What is told of two records: 0 in a field without meaning.
#[repr(C)]
#[derive(Clone, Copy)]
pub struct Tied {
    // the half columns that both extents cover
    pub left: i32,
    pub right: i32,
    // 0 if they are not tied, 13 if they are, else why nothing is told
    pub number: u8,
    pub by: u8,
    // the least carrier that both name
    pub carrier: u8,
    // the layers that both extents cover
    pub low: u8,
    pub high: u8,
}

// What ties them, as C has it.
pub const BY_RACK: u8 = 1;

pub const BY_CARRIER: u8 = 2;

pub const BY_EXTENTS: u8 = 3;

// The same as a value.
#[derive(Clone, Copy)]
enum Bond {
    Rack,
    // the least carrier that both name
    Carrier(u8),
    // the half columns and layers that both extents cover
    Extents(Extent),
}

// A number alone.
fn only(number: u8) -> Tied
    ensures { result ≡ only_number number }
{
    Tied {
        left: 0,
        right: 0,
        number,
        by: 0,
        carrier: 0,
        low: 0,
        high: 0,
    }
}

// Tied by a rack, or by a carrier.
fn bound(by: u8, carrier: u8) -> Tied
    ensures { result ≡ tied_by by carrier }
{
    Tied {
        by,
        carrier,
        ..only(Refusal::Tied.number())
    }
}

// What is told of a bond, of none, or of why there is no answer.
fn told(found: Result<Option<Bond>, Refusal>) -> Tied
    ensures { result ≡ told_of found }
{
    match found {
        Ok(None) => only(0),
        Ok(Some(Bond::Rack)) => bound(BY_RACK, 0),
        Ok(Some(Bond::Carrier(k))) => bound(BY_CARRIER, k),
        Ok(Some(Bond::Extents(e))) => Tied {
            left: e.left,
            right: e.right,
            low: e.low,
            high: e.high,
            ..bound(BY_EXTENTS, 0)
        },
        Err(why) => only(why.number()),
    }
}

// The least carrier that both name, if there is one.
fn shared(x: Record, y: Record) -> Option<u8>
    requires { Carries x }
    ensures value { unwrap_or result 0 ≡ least_shared x y }
    ensures carrier { IfSome result (λ k. 0 < k) }
{
    let carriers = [x.carrier, x.second];
    let named = &carriers[..usize::from(record::carriers_named(x.kind))];
    named
        .iter()
        .copied()
        .filter(|k| rewrite::names(y, *k))
        .min()
}

// What two extents that meet have in common.
#[tactic(auto, using(crate::proofs::Sides::sides))]
fn common(e: Extent, f: Extent) -> Extent
    ensures { result ≡ common e f }
{
    Extent {
        left: e.left.max(f.left),
        right: e.right.min(f.right),
        low: e.low.max(f.low),
        high: e.high.min(f.high),
    }
}

// What ties two extents, if they meet.
#[tactic(auto, unfolding(crate::specs::Tie::tie_of_extents))]
fn crossing(e: Extent, f: Extent) -> Option<Bond>
    ensures { told_of (Ok result) ≡ tie_of_extents e f }
{
    if e.meets(f) {
        Some(Bond::Extents(common(e, f)))
    } else {
        None
    }
}

// What ties two records, neither of them a rack, at a racking.
#[tactic(auto, unfolding(crate::specs::Tie::tie_of_two))]
fn what_ties(x: Record, y: Record, r: Racking) -> Option<Bond>
    requires { Carries x }
    ensures { told_of (Ok result) ≡ tie_of_two r x y }
{
    match shared(x, y) {
        Some(k) => Some(Bond::Carrier(k)),
        None => crossing(rewrite::extent_of(x, r), rewrite::extent_of(y, r)),
    }
}

// What ties the records at the front of two slices at a racking, or why that can't be told.
fn find_bond(racking: i8, first: &[u8], second: &[u8]) -> Result<Option<Bond>, Refusal>
    ensures { told_of result ≡ tie_of racking first.now second.now }
{
    let r = Racking(racking);
    if !r.in_range() {
        return Err(Refusal::BadState);
    }
    record::check(first)?;
    record::check(second)?;
    if first[0] == RACK || second[0] == RACK {
        return Ok(Some(Bond::Rack));
    }
    let x = record::outline(first);
    let y = record::outline(second);
    Ok(what_ties(x, y, r))
}

// Whether the records at the front of two slices are tied at a racking, and why: 15 for a racking out of its range, then 3
// to 5 of the first, then of the second.
pub fn tie(racking: i8, first: &[u8], second: &[u8]) -> Tied
    ensures { result ≡ tie_of racking first.now second.now }
{
    told(find_bond(racking, first, second))
}
