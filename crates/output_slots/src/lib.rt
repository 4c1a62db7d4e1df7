// The slots of an output: sixteen bits that say which are live, beside the levels. A slot is set, cleared and
// tested by a shifted mask; the winner is the lowest bit set. There is no slot from 16 on: it is never live,
// and to set or clear it changes nothing.
#![tactic(auto)]

ghost use Rattle.std.specs.Prelude.{◌≡◌, ◌<◌, get_or};
ghost use Rattle.lighting_outputs.specs.Paper.Slots.{slot_count, winner, is_live, mask_emptied, mask_filled, level_set, emptied, filled, level_at, winning_level};

use lighting_outputs::{NO_SLOT, SLOTS, Slots};

// The lowest bit set, or 16 with no live slot.
#[tactic(auto, using(lighting_outputs::proofs::Priorities::Mask::winner_zeros))]
pub fn winning(s: Slots) -> u32
    ensures { result ≡ winner s }
{
    s.live.trailing_zeros()
}

#[tactic(auto, using(lighting_outputs::proofs::Priorities::Mask::dead_past, lighting_outputs::proofs::Priorities::Mask::tested), unfolding(lighting_outputs::specs::Paper::Slots::is_live))]
pub fn is_live(s: Slots, i: u8) -> bool
    ensures { result ≡ is_live s i }
{
    i < NO_SLOT && s.live & (1u16 << i) != 0
}

#[tactic(auto, using(lighting_levels::proofs::Choosing::ifs, lighting_outputs::proofs::Priorities::Mask::shifted), unfolding(lighting_outputs::specs::Paper::Slots::mask_emptied))]
fn mask_empty(live: u16, i: u8) -> u16
    ensures { result ≡ mask_emptied live i }
{
    if i < NO_SLOT {
        live & !(1u16 << i)
    } else {
        live
    }
}

#[tactic(auto, using(lighting_levels::proofs::Choosing::ifs, lighting_outputs::proofs::Priorities::Mask::shifted), unfolding(lighting_outputs::specs::Paper::Slots::mask_filled))]
fn mask_fill(live: u16, i: u8) -> u16
    ensures { result ≡ mask_filled live i }
{
    if i < NO_SLOT {
        live | (1u16 << i)
    } else {
        live
    }
}

#[tactic(auto, using(lighting_levels::proofs::Choosing::ifs), unfolding(lighting_outputs::specs::Paper::Slots::level_set))]
fn level_set(mut levels: [u32; SLOTS], i: u8, v: u32) -> [u32; SLOTS]
    ensures { result ≡ level_set levels i v }
{
    if i < NO_SLOT {
        levels[usize::from(i)] = v;
    }
    levels
}

// An emptied slot's level is 0, so that equal slots are equal records.
#[tactic(auto, unfolding(lighting_outputs::specs::Paper::Slots::put))]
pub fn empty(s: Slots, i: u8) -> Slots
    ensures { result ≡ emptied s i }
{
    Slots {
        live: mask_empty(s.live, i),
        levels: level_set(s.levels, i, 0),
    }
}

#[tactic(auto, unfolding(lighting_outputs::specs::Paper::Slots::put))]
pub fn fill(s: Slots, i: u8, v: u32) -> Slots
    ensures { result ≡ filled s i v }
{
    Slots {
        live: mask_fill(s.live, i),
        levels: level_set(s.levels, i, v),
    }
}

// The level of slot i. The levels are copied alone, and only where one is looked up: a copy of all of the
// slots would put the levels askew.
// Stays: a local and an index. Tried as `get` with `unwrap_or`, which reads a record by reference: it takes
// more instructions at every output and frame.
fn level_of(s: Slots, i: u32) -> u32
    requires { i < slot_count }
    ensures { result ≡ get_or s.levels i 0 }
{
    let levels = s.levels;
    levels[i as usize]
}

// The level of slot i, or d where there is no such slot.
#[tactic(auto, using(lighting_levels::proofs::Choosing::ifs), unfolding(lighting_outputs::specs::Paper::Slots::level_at))]
pub fn level_at(d: u32, s: Slots, i: u32) -> u32
    ensures { result ≡ level_at d s i }
{
    if i < u32::from(NO_SLOT) {
        level_of(s, i)
    } else {
        d
    }
}

// The winner's level, or d with no live slot.
#[tactic(auto, unfolding(lighting_outputs::specs::Paper::Slots::winning_level))]
pub fn winning_level(d: u32, s: Slots) -> u32
    ensures { result ≡ winning_level d s }
{
    level_at(d, s, winning(s))
}
