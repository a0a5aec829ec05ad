// The knitting machine: needles, columns, slots, racking, carriers, and the machine state by value.
#![tactic(auto)]

ghost use Rattle.std.specs.Prelude.{◌≡◌, ℕ, ◌<◌, map, ◌-ℤ◌, nat_abs, leb, ltb};
ghost use Rattle.std.specs.Int.Signed.{mag};
ghost use Rattle.machine.specs.Machine.{OnBed, inactive, empty_state, hook_of, attached_at, moved_to, all, all_inactive, inactive_carrier, complete_of};
ghost use Rattle.machine.specs.Walk.{walk_of};
ghost use Rattle.machine.specs.Geometry.{column_of, entry_of, exit_of, within_float};
ghost use Rattle.machine.specs.Limits.{stretch_most};
ghost use Rattle.machine.specs.Stretch.{slot_beside, distance_of, stretches, any_stretched};
ghost use Rattle.machine.specs.Looks.{Most, beds_walk, parked_ok, any_beside, any_back, carried_off};
ghost use Rattle.machine.specs.Range.{racking_ok, limit_ok, slot_ok, on_bed, attachment_ok, carrier_ok, state_ok};

// Why a call, a record or a log record is refused.
pub mod refusals;

// A needle by its bed (0 front, 1 back) and its number there: where a program says it is.
#[repr(C)]
#[derive(Clone, Copy, PartialEq, Eq)]
pub struct Needle(pub u16, pub u16);

// A physical column, which only a racking gives to a needle.
#[repr(C)]
#[derive(Clone, Copy, PartialEq, Eq)]
pub struct Column(pub i32);

// A place between columns where a carrier parks: slot z lies just left of column z.
#[repr(C)]
#[derive(Clone, Copy, PartialEq, Eq)]
pub struct Slot(pub i16);

// A slot beside a needle, which may lie where no carrier parks: in a state with any values a needle has any number.
#[derive(Clone, Copy)]
struct FarSlot(i32);

// How far the back bed is shifted to the right.
#[repr(C)]
#[derive(Clone, Copy, PartialEq, Eq)]
pub struct Racking(pub i8);

// A carrier's move over a needle of the machine, at a racking, to the right or to the left.
#[derive(Clone, Copy)]
pub struct Motion {
    pub needle: Needle,
    pub racking: Racking,
    pub right: bool,
    ghost on_bed: { OnBed needle },
}

// A yarn carrier. Fields without meaning are 0: all of an inactive carrier's, the needle of an unattached one.
#[repr(C)]
#[derive(Clone, Copy, PartialEq, Eq)]
pub struct Carrier {
    // 1 parked, 0 inactive
    pub active: u8,
    // the attachment's side of its needle: 0 unattached, 1 left, 2 right
    pub side: u8,
    pub slot: Slot,
    pub needle: Needle,
}

// The machine state: racking, loops on each hook (front bed first), the most that a hook holds, carriers 1 to 10.
#[repr(C)]
#[derive(Clone, Copy)]
pub struct State {
    pub racking: Racking,
    pub loops: [u8; State::HOOKS],
    pub limit: u8,
    pub carriers: [Carrier; State::CARRIERS],
}

// What a walk over the hooks found: whether none holds a loop, and how many hooks were looked at. (No `Option`: `looked` has a
// meaning whichever `none` is.)
#[derive(Clone, Copy)]
pub struct Walked {
    pub none: bool,
    pub looked: usize,
}

impl State {
    // needles on a bed, hooks on both, carriers
    pub const NEEDLES: usize = 250;

    pub const HOOKS: usize = 2 * State::NEEDLES;

    pub const CARRIERS: usize = 10;
    // the last needle of a bed and the last carrier, as the format names them
    pub const NEEDLE_MOST: u8 = 249;

    pub const CARRIER_MOST: u8 = 10;
    // the furthest racking to the left and to the right
    pub const RACKING_LEAST: i8 = -8;

    pub const RACKING_MOST: i8 = 8;
    // the outermost slots
    pub const SLOT_LEAST: i16 = -8;

    pub const SLOT_MOST: i16 = 258;
    // a float's columns, counted to the left and to the right
    pub const FLOAT_LEAST: i64 = -20;

    pub const FLOAT_MOST: i64 = 20;
    // the slots from a parked carrier to its attachment over which a rack must not add to them, counted to the left and to the right
    pub const STRETCH_LEAST: i32 = -20;

    pub const STRETCH_MOST: i32 = 20;
    // the least and the greatest hook limit
    pub const LIMIT_LEAST: u8 = 1;

    pub const LIMIT_MOST: u8 = 8;
    // bytes of a program and of a log, at most
    pub const PROGRAM_MOST: usize = 32768;

    pub const LOG_MOST: usize = 32768;

    // The empty state at a hook limit, where a run starts.
    #[tactic(auto, unfolding(crate::specs::Machine::empty_state))]
    pub fn empty(limit: u8) -> State
        ensures { result ≡ empty_state limit }
    {
        State {
            racking: Racking(0),
            loops: [0u8; State::HOOKS],
            limit,
            carriers: [Carrier::inactive(); State::CARRIERS],
        }
    }

    // The same without a limit, all of whose bytes are 0.
    pub fn cleared() -> State
        ensures { result ≡ empty_state 0 }
    {
        State::empty(0)
    }

    // Whether hooks can have the limit.
    pub fn has_limit(limit: u8) -> bool
        ensures { result ≡ limit_ok limit }
    {
        State::LIMIT_LEAST <= limit && limit <= State::LIMIT_MOST
    }

    // Whether the state is the empty one at its own limit.
    #[tactic(auto, unfolding(crate::specs::Machine::complete_of))]
    pub fn complete(&self) -> bool
        ensures { result ≡ complete_of self.now }
    {
        let beds = look_at_beds(self.racking, &self.loops);
        beds.none && all_inactive(&self.carriers)
    }

    // Whether every value is in its range (01: the state is not foul).
    #[inline(always)]
    #[tactic(auto, unfolding(crate::specs::Range::state_ok))]
    pub fn in_range(&self) -> bool
        ensures { result ≡ state_ok self.now }
    {
        self.racking.in_range()
            && State::has_limit(self.limit)
            && loops_in_range(&self.loops, self.limit)
            && all_in_range(&self.carriers)
    }
}

impl Needle {
    // The needle's hook among the state's.
    pub fn hook(self) -> usize
        requires { OnBed self }
        ensures { result ≡ hook_of self }
    {
        usize::from(self.0) * State::NEEDLES + usize::from(self.1)
    }

    // The one conversion of a needle to a column.
    #[tactic(auto, unfolding(crate::specs::Geometry::column_of))]
    pub fn column(self, r: Racking) -> Column
        ensures { result ≡ column_of self r }
    {
        let n = i32::from(self.1);
        if self.0 == 0 {
            Column(n)
        } else {
            Column(n + i32::from(r.0))
        }
    }

    // The slot beside it on its right side (2) or its left (1).
    #[tactic(auto, using(crate::proofs::Laws::column_reach), unfolding(crate::specs::Stretch::slot_beside))]
    fn beside(self, r: Racking, side: u8) -> FarSlot
        ensures { (result.0 ≡ (slot_beside (column_of self r) side).0) × (mag result.0 < 66000) }
    {
        let z = self.column(r);
        if 1 < side {
            FarSlot(z.0 + 1)
        } else {
            FarSlot(z.0)
        }
    }

    // Where a carrier stands before it moves over the needle.
    #[tactic(auto, using(crate::proofs::Laws::column_reach), unfolding(crate::specs::Geometry::entry_of))]
    pub fn entry(self, r: Racking, right: bool) -> Slot
        requires { OnBed self }
        ensures { result ≡ entry_of (column_of self r) right }
    {
        let z = self.column(r);
        if right {
            Slot(z.0 as i16)
        } else {
            Slot((z.0 + 1) as i16)
        }
    }

    // Where it stands after.
    #[tactic(auto, unfolding(crate::specs::Geometry::entry_of, crate::specs::Geometry::exit_of))]
    pub fn exit(self, r: Racking, right: bool) -> Slot
        requires { OnBed self }
        ensures { result ≡ exit_of (column_of self r) right }
    {
        self.entry(r, !right)
    }

    // Whether the machine has the needle.
    pub fn on_bed(self) -> bool
        ensures { result ≡ on_bed self }
    {
        self.0 <= 1 && self.1 <= u16::from(State::NEEDLE_MOST)
    }
}

impl Motion {
    // The column of its needle.
    pub fn column(self) -> Column
        ensures { result ≡ column_of self.needle self.racking }
    {
        self.needle.column(self.racking)
    }

    // Where the carrier stands before it.
    pub fn entry(self) -> Slot
        ensures { result ≡ entry_of (column_of self.needle self.racking) self.right }
    {
        self.needle.entry(self.racking, self.right)
    }

    // Where it stands after.
    pub fn exit(self) -> Slot
        ensures { result ≡ exit_of (column_of self.needle self.racking) self.right }
    {
        self.needle.exit(self.racking, self.right)
    }
}

impl Column {
    // Whether a float between the two columns is short enough.
    pub fn near(self, other: Column) -> bool
        ensures { result ≡ within_float self other }
    {
        let d = i64::from(self.0) - i64::from(other.0);
        State::FLOAT_LEAST <= d && d <= State::FLOAT_MOST
    }
}

impl Racking {
    // Whether the beds can be shifted so far.
    pub fn in_range(self) -> bool
        ensures { result ≡ racking_ok self.0 }
    {
        State::RACKING_LEAST <= self.0 && self.0 <= State::RACKING_MOST
    }
}

impl Slot {
    // Whether a carrier can be parked there.
    #[tactic(auto, unfolding(crate::specs::Range::slot_ok))]
    fn in_range(self) -> bool
        ensures { result ≡ slot_ok self.0 }
    {
        State::SLOT_LEAST <= self.0 && self.0 <= State::SLOT_MOST
    }
}

impl Carrier {
    pub fn inactive() -> Carrier
        ensures { result ≡ inactive }
    {
        Carrier {
            active: 0,
            side: 0,
            slot: Slot(0),
            needle: Needle(0, 0),
        }
    }

    // Whether every field is an inactive carrier's.
    #[tactic(auto, using(crate::proofs::Signed::int_eq_is), unfolding(crate::specs::Machine::inactive_carrier))]
    fn is_inactive(self) -> bool
        ensures { result ≡ inactive_carrier self }
    {
        self == Carrier::inactive()
    }

    // Whether a parked carrier's attachment is in range, or 0 where there is none.
    #[tactic(auto, unfolding(crate::specs::Range::attachment_ok))]
    fn attachment_in_range(self) -> bool
        ensures { result ≡ attachment_ok self }
    {
        if self.side == 0 {
            self.needle == Needle(0, 0)
        } else {
            self.side <= 2 && self.needle.on_bed()
        }
    }

    // Whether a parked carrier's slot and attachment are in range.
    fn parked_in_range(self) -> bool
        ensures { result ≡ parked_ok self }
    {
        self.slot.in_range() && self.attachment_in_range()
    }

    // Whether it is the inactive one, or parked with every value in range.
    #[tactic(auto, unfolding(crate::specs::Range::carrier_ok))]
    fn in_range(self) -> bool
        ensures { result ≡ carrier_ok self }
    {
        if self.active == 0 {
            self.is_inactive()
        } else {
            self.active == 1 && self.parked_in_range()
        }
    }

    // Whether a slot is too far from the one where the carrier is parked.
    fn far_from(&self, y: FarSlot) -> bool
        requires { mag y.0 < 66000 }
        ensures { result ≡ ltb stretch_most (nat_abs (y.0 -ℤ self.now.slot.0)) }
    {
        let d = y.0 - i32::from(self.slot.0);
        d < State::STRETCH_LEAST || State::STRETCH_MOST < d
    }

    // How far its attachment's slot is from the slot where it is parked.
    #[tactic(auto, unfolding(crate::specs::Stretch::distance_of))]
    fn distance(&self, r: Racking) -> u32
        ensures { result ≡ distance_of r self.now }
    {
        let y = self.needle.beside(r, self.side);
        y.0.abs_diff(i32::from(self.slot.0))
    }

    // Whether it is parked and attached, and a rack from one racking to another takes its attachment further off.
    fn carried_off(&self, before: Racking, after: Racking) -> bool
        ensures { result ≡ carried_off before after self.now }
    {
        self.active != 0 && self.side != 0 && self.distance(before) < self.distance(after)
    }

    // Whether a rack from one racking to another stretches its yarn. (A front needle stays where it is, and only a carrier that is
    // too far off afterwards is looked at in full.)
    #[tactic(auto, using(crate::proofs::Stretches::front_unstretched, crate::proofs::Stretches::looked_near, crate::proofs::Stretches::looked_far))]
    fn stretched(&self, before: Racking, after: Racking) -> bool
        ensures { result ≡ stretches before after self.now }
    {
        if self.needle.0 == 0 {
            return false;
        }
        let y = self.needle.beside(after, self.side);
        self.far_from(y) && self.carried_off(before, after)
    }

    // Whether the carrier is attached at the needle.
    #[tactic(auto, unfolding(crate::specs::Machine::attached_at, crate::specs::Machine::same_needle))]
    fn attached_at(self, n: Needle) -> bool
        ensures { result ≡ attached_at n self }
    {
        self.side != 0 && self.needle == n
    }

    // The carrier after the loops at `from` went to `to`: an attachment there goes with them, its side kept.
    #[tactic(auto, unfolding(crate::specs::Machine::moved_to))]
    fn moved(self, from: Needle, to: Needle) -> Carrier
        ensures { result ≡ moved_to from to self }
    {
        if self.attached_at(from) {
            Carrier { needle: to, ..self }
        } else {
            self
        }
    }
}

// The most loops on a hook. (It does not end early: the compiler then looks at many hooks at once.)
fn most_loops(loops: &[u8]) -> u8
    ensures { Most loops.now result }
{
    loops.iter().fold(0, |most, n| most.max(*n))
}

// The walk over the hooks, front first, upward: it ends at the first loop.
#[tactic(auto, using(crate::proofs::Walks::none_found, crate::proofs::Walks::found_on))]
pub fn walk(loops: &[u8]) -> Walked
    ensures { result ≡ walk_of loops.now }
{
    for (i, n) in loops.iter().enumerate() {
        if *n != 0 {
            return Walked {
                none: false,
                looked: i + 1,
            };
        }
    }
    Walked {
        none: true,
        looked: loops.len(),
    }
}

// Whether no hook holds more loops than the limit.
fn loops_in_range(loops: &[u8], limit: u8) -> bool
    ensures { result ≡ all (λ (n : ℕ). leb n limit) loops.now }
{
    most_loops(loops) <= limit
}

// Whether the beds are an empty state's, racking 0 and no loop, and the hooks that were looked at for it: none if the racking
// settles it. (The first hook is looked at by itself: mostly it settles
// it, and the compiler looks at sixteen at a time in a walk.)
#[tactic(auto, using(crate::proofs::Walks::beds))]
pub fn look_at_beds(racking: Racking, loops: &[u8]) -> Walked
    ensures { result ≡ beds_walk racking loops.now }
{
    if racking != Racking(0) {
        return Walked {
            none: false,
            looked: 0,
        };
    }
    if 0 < loops.len() && loops[0] != 0 {
        return Walked {
            none: false,
            looked: 1,
        };
    }
    walk(loops)
}

// Whether every carrier is the inactive one.
pub fn all_inactive(carriers: &[Carrier]) -> bool
    ensures { result ≡ all_inactive carriers.now }
{
    carriers.iter().all(|c| c.is_inactive())
}

// Whether every carrier is in range.
#[inline(always)]
pub fn all_in_range(carriers: &[Carrier]) -> bool
    ensures { result ≡ all carrier_ok carriers.now }
{
    carriers.iter().all(|c| c.in_range())
}

// Whether a carrier names a needle of this number, on either bed: else none is attached at the needle, and none moves with
// its loops. (One comparison a carrier; most transfers have none.)
pub fn any_beside(carriers: &[Carrier], n: Needle) -> bool
    ensures { result ≡ any_beside n carriers.now }
{
    carriers.iter().any(|c| c.needle.1 == n.1)
}

// Whether a carrier names a needle of the back bed: else a rack carries no attachment off. (One comparison a carrier.)
pub fn any_back(carriers: &[Carrier]) -> bool
    ensures { result ≡ any_back carriers.now }
{
    carriers.iter().any(|c| c.needle.0 != 0)
}

// Whether a rack from one racking to another stretches some carrier's yarn.
pub fn any_stretched(carriers: &[Carrier], before: Racking, after: Racking) -> bool
    ensures { result ≡ any_stretched before after carriers.now }
{
    carriers.iter().any(|c| c.stretched(before, after))
}

// The carriers after the loops at `from` went to `to`.
pub fn attachments_moved(carriers: &mut [Carrier], from: Needle, to: Needle)
    ensures { carriers.new ≡ map (moved_to from to) carriers.old }
{
    for c in carriers.iter_mut() {
        *c = c.moved(from, to);
    }
}
