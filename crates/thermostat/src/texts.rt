// The text store: ten texts, each a count byte and then room for 60 characters.
ghost use Rattle.std.specs.Prelude.{◌≡◌, true, ◌+◌, ◌≤◌, length};
ghost use Rattle.omnistat.specs.Register.{is_text};
ghost use Rattle.thermostat.specs.Texts.{text_place, held_text, text_stored, holds_text, store_allowed};

use omnistat::text::{FIRST_TEXT, LAST_TEXT, MOST_CHARACTERS};

// The bytes of the store that one text takes: its count byte and the room for its characters.
const TEXT_SIZE: usize = 61;

// The size of the store.
pub(crate) const TEXTS: usize = 610;

// The place of a register's count byte.
fn place(r: u8) -> usize
    requires { is_text r ≡ true }
    ensures { result ≡ text_place r }
{
    usize::from(r - FIRST_TEXT) * TEXT_SIZE
}

// Whether a register's count is at most 60, with characters within it. The bytes past the count are not looked at.
fn holds_text(texts: &[u8; TEXTS], r: u8) -> bool
    requires { is_text r ≡ true }
    ensures { result ≡ holds_text texts.now r }
{
    let at = place(r);
    let count = usize::from(texts[at]);
    let from = at + 1;
    let past = from + count;
    count <= MOST_CHARACTERS && omnistat::text::are_characters(&texts[from..past])
}

// Whether a step takes this store.
#[tactic(auto, using(crate::proofs::Laws::Texts::allowed_next, crate::proofs::Laws::Texts::allowed_ended))]
pub(crate) fn is_allowed(texts: &[u8; TEXTS]) -> bool
    ensures { result ≡ store_allowed texts.now }
{
    for r in FIRST_TEXT..=LAST_TEXT {
        if !holds_text(texts, r) {
            return false;
        }
    }
    true
}

// A text store that a step takes.
#[derive(Clone, Copy)]
pub(crate) struct Texts<'a> {
    pub(crate) bytes: &'a [u8; TEXTS],
    ghost allowed: { store_allowed bytes.now ≡ true },
}

// The characters of a register's text.
pub(crate) fn text(texts: Texts, r: u8) -> &[u8]
    requires { is_text r ≡ true }
    ensures { result.now ≡ held_text texts.entry.bytes.now r }
{
    let bytes = texts.bytes;
    let at = place(r);
    let from = at + 1;
    let past = from + usize::from(bytes[at]);
    &bytes[from..past]
}

// Stores a text in a register: its count and its characters. The bytes past the count stay.
pub(crate) fn store_text(texts: &mut [u8; TEXTS], r: u8, characters: &[u8])
    requires r_value { is_text r ≡ true }
    requires characters_len_bound { length characters.now ≤ 60 }
    ensures { texts.new ≡ text_stored texts.old r characters.now }
{
    let at = place(r);
    texts[at] = characters.len() as u8;
    crate::copying::copy(texts, at + 1, characters);
}
