// A set of labels below 64 as the bits of one number. Kept so: a watch has no heap, and shows its bars as this number.
#![tactic(auto)]

ghost use Rattle.std.specs.Prelude.{◌≡◌, ℕ, ◌<◌};
ghost use Rattle.game.specs.Search.{count_below};
ghost use Rattle.game.specs.Ranks.{bits, set_label};
ghost use Rattle.labelset.specs.Bits.{has_bit};

// How many labels there are.
const LABELS: u8 = 64;

// Whether the label is in the set. None at or above 64 is.
pub fn contains(set: u64, label: u8) -> bool
    ensures { result ≡ has_bit set label }
{
    label < LABELS && (set >> label) & 1 == 1
}

// The set with the label in it, or out of it. One at or above 64 is in no set.
pub fn put(set: u64, label: u8, member: bool) -> u64
    ensures value { result ≡ bits (set_label (has_bit set) label member) 64 }
    ensures labels { label < 64 → (l : ℕ) → has_bit result l ≡ set_label (has_bit set) label member l }
{
    if label >= LABELS {
        return set;
    }
    let bit = 1 << label;
    if member { set | bit } else { set & !bit }
}

// How many labels are in the set.
pub fn size(set: u64) -> u32
    ensures { result ≡ count_below (has_bit set) 64 }
{
    set.count_ones()
}
