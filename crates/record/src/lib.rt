// The byte format: the kinds and lengths of records, their fields, and a record decoded.
#![tactic(auto)]

ghost use Rattle.std.specs.Prelude.{◌≡◌, ◌≤◌, ◌<◌, length};
ghost use Rattle.record.specs.Kinds.{RACK, DROP, XFER, IN, KNIT, SPLIT, PLATED_TUCK, PLATED_KNIT, size_of, carriers_named};
ghost use Rattle.machine.specs.Refusals.{told_number};
ghost use Rattle.record.specs.Format.{signed_of, needle_ok, carrier_number_ok, work_ok, needle, blank_record, byte, reading_of, read_of, decode_of};
ghost use Rattle.record.specs.Names.{outline_of};

use machine::refusals::Refusal;
use machine::{Needle, Racking, State};

// A record by its fields; 0 where its kind has no such field.
#[derive(Clone, Copy)]
pub struct Record {
    pub kind: u8,
    pub racking: Racking,
    // the direction: true for right
    pub right: bool,
    pub at: Needle,
    pub carrier: u8,
    // the second carrier, of a plated stitch
    pub second: u8,
    pub to: Needle,
}

// The first record of a slice, with its length.
#[derive(Clone, Copy)]
pub struct Decoded {
    pub size: usize,
    pub what: Record,
}

// The kinds: rack, drop, xfer; in, out, miss, tuck and knit, which have fields of one form; split; plated tuck and knit. (Constants
// and no enum: the kind's byte is matched by ranges, and `size_of` promises something of every byte.)
pub const RACK: u8 = 1;

pub const DROP: u8 = 2;

pub const XFER: u8 = 3;

pub const IN: u8 = 4;

pub const OUT: u8 = 5;

pub const MISS: u8 = 6;

pub const TUCK: u8 = 7;

pub const KNIT: u8 = 8;

pub const SPLIT: u8 = 9;

pub const PLATED_TUCK: u8 = 10;

pub const PLATED_KNIT: u8 = 11;

// The whole length of a record of this kind, 0 for an unknown kind.
#[tactic(auto, using(crate::proofs::Sizes::sizes))]
pub fn size_of(kind: u8) -> usize
    ensures { result ≡ size_of kind }
{
    match kind {
        RACK => 2,
        DROP => 3,
        XFER => 4,
        IN..=KNIT => 5,
        SPLIT..=PLATED_KNIT => 6,
        _ => 0,
    }
}

// How many carriers a record of this kind names.
#[tactic(auto, using(crate::proofs::Sizes::carriers))]
pub fn carriers_named(kind: u8) -> u8
    ensures { result ≡ carriers_named kind }
{
    match kind {
        IN..=SPLIT => 1,
        PLATED_TUCK..=PLATED_KNIT => 2,
        _ => 0,
    }
}

// A byte in two's complement.
#[tactic(auto, using(crate::proofs::Sizes::signed_is))]
pub fn signed(b: u8) -> i8
    ensures { result ≡ signed_of b }
{
    b.cast_signed()
}

// A needle by the bytes of its bed and its number.
fn needle(bed: u8, n: u8) -> Needle
    ensures { result ≡ needle bed n }
{
    Needle(u16::from(bed), u16::from(n))
}

// A record of this kind with 0 in every other field: the one way in which a record is made.
fn blank(kind: u8) -> Record
    ensures { result ≡ blank_record kind }
{
    Record {
        kind,
        racking: Racking(0),
        right: false,
        at: Needle(0, 0),
        carrier: 0,
        second: 0,
        to: Needle(0, 0),
    }
}

// A record with its length.
fn sized(what: Record) -> Decoded
    ensures { (result.size ≡ size_of what.kind) × (result.what ≡ what) }
{
    Decoded {
        size: size_of(what.kind),
        what,
    }
}

// Whether the machine has the needle.
#[tactic(auto, unfolding(crate::specs::Format::needle_ok))]
fn needle_ok(bed: u8, n: u8) -> bool
    ensures { result ≡ needle_ok bed n }
{
    needle(bed, n).on_bed()
}

// Whether the machine has the carrier.
fn carrier_ok(k: u8) -> bool
    ensures { result ≡ carrier_number_ok k }
{
    1 <= k && k <= State::CARRIER_MOST
}

// Whether carrier, needle and direction are in range.
#[tactic(auto, unfolding(crate::specs::Format::work_ok))]
fn work_ok(right: u8, bed: u8, n: u8, k: u8) -> bool
    ensures { result ≡ work_ok right bed n k }
{
    right <= 1 && needle_ok(bed, n) && carrier_ok(k)
}

// Rack: the new racking.
#[tactic(auto, using(crate::proofs::Looks::looks))]
fn read_rack(l: &[u8]) -> Result<Decoded, Refusal>
    requires { byte l.now 0 ≡ RACK }
    ensures { reading_of result ≡ read_of l.now }
{
    let [_, b, ..] = *l else {
        return Err(Refusal::CutShort);
    };
    let racking = Racking(signed(b));
    if !racking.in_range() {
        return Err(Refusal::FieldRange);
    }
    Ok(sized(Record {
        racking,
        ..blank(RACK)
    }))
}

// Drop: bed, needle.
#[tactic(auto, using(crate::proofs::Looks::looks))]
fn read_drop(l: &[u8]) -> Result<Decoded, Refusal>
    requires { byte l.now 0 ≡ DROP }
    ensures { reading_of result ≡ read_of l.now }
{
    let [_, bed, n, ..] = *l else {
        return Err(Refusal::CutShort);
    };
    if !needle_ok(bed, n) {
        return Err(Refusal::FieldRange);
    }
    Ok(sized(Record {
        at: needle(bed, n),
        ..blank(DROP)
    }))
}

// Xfer: bed, needle, the needle on the other bed.
#[tactic(auto, using(crate::proofs::Looks::looks))]
fn read_xfer(l: &[u8]) -> Result<Decoded, Refusal>
    requires { byte l.now 0 ≡ XFER }
    ensures { reading_of result ≡ read_of l.now }
{
    let [_, bed, n, m, ..] = *l else {
        return Err(Refusal::CutShort);
    };
    if !needle_ok(bed, n) || State::NEEDLE_MOST < m {
        return Err(Refusal::FieldRange);
    }
    Ok(sized(Record {
        at: needle(bed, n),
        to: needle(1 - bed, m),
        ..blank(XFER)
    }))
}

// In, out, miss, tuck or knit: direction, bed, needle, carrier.
#[tactic(auto, using(crate::proofs::Looks::looks))]
fn read_work(kind: u8, l: &[u8]) -> Result<Decoded, Refusal>
    requires { (byte l.now 0 ≡ kind) × (IN ≤ kind) × (kind ≤ KNIT) }
    ensures { reading_of result ≡ read_of l.now }
{
    let [_, right, bed, n, k, ..] = *l else {
        return Err(Refusal::CutShort);
    };
    if !work_ok(right, bed, n, k) {
        return Err(Refusal::FieldRange);
    }
    Ok(sized(Record {
        right: right != 0,
        at: needle(bed, n),
        carrier: k,
        ..blank(kind)
    }))
}

// Split: direction, bed, needle, carrier, the needle on the other bed.
#[tactic(auto, using(crate::proofs::Looks::looks))]
fn read_split(l: &[u8]) -> Result<Decoded, Refusal>
    requires { byte l.now 0 ≡ SPLIT }
    ensures { reading_of result ≡ read_of l.now }
{
    let [_, right, bed, n, k, m, ..] = *l else {
        return Err(Refusal::CutShort);
    };
    if !work_ok(right, bed, n, k) || State::NEEDLE_MOST < m {
        return Err(Refusal::FieldRange);
    }
    Ok(sized(Record {
        right: right != 0,
        at: needle(bed, n),
        carrier: k,
        to: needle(1 - bed, m),
        ..blank(SPLIT)
    }))
}

// Plated tuck or knit: direction, bed, needle, first carrier, second carrier.
#[tactic(auto, using(crate::proofs::Looks::looks))]
fn read_plated(kind: u8, l: &[u8]) -> Result<Decoded, Refusal>
    requires { (byte l.now 0 ≡ kind) × (PLATED_TUCK ≤ kind) × (kind ≤ PLATED_KNIT) }
    ensures { reading_of result ≡ read_of l.now }
{
    let [_, right, bed, n, k, j, ..] = *l else {
        return Err(Refusal::CutShort);
    };
    if !work_ok(right, bed, n, k) || !carrier_ok(j) {
        return Err(Refusal::FieldRange);
    }
    Ok(sized(Record {
        right: right != 0,
        at: needle(bed, n),
        carrier: k,
        second: j,
        ..blank(kind)
    }))
}

// The first record of the slice. (The hint keeps it in the run's loop: it has two callers.)
#[inline(always)]
#[tactic(auto, using(crate::proofs::Forms::decode_none, crate::proofs::Looks::unknown_read, crate::proofs::Looks::known_read))]
pub fn decode(l: &[u8]) -> Result<Decoded, Refusal>
    ensures { reading_of result ≡ decode_of l.now }
{
    let [kind, ..] = *l else {
        return Err(Refusal::CutShort);
    };
    match kind {
        RACK => read_rack(l),
        DROP => read_drop(l),
        XFER => read_xfer(l),
        IN..=KNIT => read_work(kind, l),
        SPLIT => read_split(l),
        // one arm for each: with a range the other arms would be slower
        PLATED_TUCK => read_plated(PLATED_TUCK, l),
        PLATED_KNIT => read_plated(PLATED_KNIT, l),
        _ => Err(Refusal::UnknownKind),
    }
}

// Why a slice does not begin with a record, for a caller that needs no more than the outline.
#[tactic(auto, unfolding(crate::specs::Format::refused_as))]
pub fn check(l: &[u8]) -> Result<(), Refusal>
    ensures { told_number result ≡ (decode_of l.now).number }
{
    decode(l)?;
    Ok(())
}

// What extents and ties look at in a record that is no rack, from bytes that are known to begin with one: nothing is
// checked again.
#[tactic(auto, using(crate::proofs::Outlines::outlines))]
pub fn outline(l: &[u8]) -> Record
    requires { ((decode_of l.now).number ≡ 0) × (byte l.now 0 ≡ RACK → ⊥) }
    ensures { result ≡ outline_of (decode_of l.now).what }
{
    let kind = l[0];
    match carriers_named(kind) {
        0 => Record {
            at: needle(l[1], l[2]),
            ..blank(kind)
        },
        1 => Record {
            at: needle(l[2], l[3]),
            carrier: l[4],
            ..blank(kind)
        },
        _ => Record {
            at: needle(l[2], l[3]),
            carrier: l[4],
            second: l[5],
            ..blank(kind)
        },
    }
}
