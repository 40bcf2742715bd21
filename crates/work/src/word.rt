// The word of a node, from its low end: how many nodes stand below it (8 bits), its kind (8), its
// place (8), its mark (1), whether it was made fresh in this tick (1), the status of its last visit (2).
// Packed, since a small controller's memory is fixed, and holds 256 of them on its stack. Marks and statuses are
// numbers here, as the lent bytes that they become: the C interface needs those.
ghost use Rattle.std.specs.Prelude.{◌≡◌, ◌<◌};
ghost use Rattle.work.specs.Word.{below_of, code_of, kind_in, place_of, mark_of, anew_of, seen_of, with_place, with_mark, with_seen, fresh_word};

use rules::Kind;

const KIND: u32 = 0x100;

const PLACE: u32 = 0x10000;

const MARK: u32 = 0x1000000;

const ANEW: u32 = 0x2000000;

const SEEN: u32 = 0x4000000;

#[tactic(auto, unfolding(crate::specs::Word::below_of))]
pub fn below_of(w: u32) -> usize
    ensures { (result ≡ below_of w) × (result < 256) }
{
    (w % KIND) as usize
}

#[tactic(auto, unfolding(crate::specs::Word::code_of))]
fn code_of(w: u32) -> u8
    ensures { result ≡ code_of w }
{
    ((w / KIND) % 256) as u8
}

pub fn kind_of(w: u32) -> Kind
    ensures { result ≡ kind_in w }
{
    Kind::of(code_of(w))
}

#[tactic(auto, unfolding(crate::specs::Word::place_of))]
pub fn place_of(w: u32) -> u32
    ensures { (result ≡ place_of w) × (result < 256) }
{
    (w / PLACE) % 256
}

#[tactic(auto, unfolding(crate::specs::Word::mark_of))]
pub fn mark_of(w: u32) -> u32
    ensures { (result ≡ mark_of w) × (result < 2) }
{
    (w / MARK) % 2
}

#[tactic(auto, unfolding(crate::specs::Word::anew_of))]
pub fn anew_of(w: u32) -> bool
    ensures { result ≡ anew_of w }
{
    (w / ANEW) % 2 == 1
}

#[tactic(auto, unfolding(crate::specs::Word::seen_of))]
pub fn seen_of(w: u32) -> u32
    ensures { (result ≡ seen_of w) × (result < 64) }
{
    w / SEEN
}

#[tactic(auto, unfolding(crate::specs::Word::with_place))]
pub fn with_place(w: u32, i: u32) -> u32
    ensures { result ≡ with_place w i }
{
    w % PLACE + i % 256 * PLACE + w / MARK * MARK
}

#[tactic(auto, unfolding(crate::specs::Word::with_mark))]
pub fn with_mark(w: u32) -> u32
    ensures { result ≡ with_mark w }
{
    w % MARK + MARK + w / ANEW * ANEW
}

#[tactic(auto, unfolding(crate::specs::Word::with_seen))]
pub fn with_seen(w: u32, s: u32) -> u32
    ensures { result ≡ with_seen w s }
{
    w % SEEN + s % 4 * SEEN
}

#[tactic(auto, unfolding(crate::specs::Word::fresh_word))]
pub fn fresh_word(w: u32) -> u32
    ensures { result ≡ fresh_word w }
{
    w % PLACE + ANEW + w / SEEN * SEEN
}
