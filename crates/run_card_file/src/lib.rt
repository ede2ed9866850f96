// A file of cards: `%` between the cards, `|` between the fields of a card, `,` between the numbers of a field. A card may leave out its last
// fields, and a field its last numbers: a field left out is empty, a number left out is 0.
#![tactic(auto)]

ghost use Rattle.std.specs.Prelude.{◌*◌, ◌+◌, ◌-◌, min, length, ◌≡◌};
ghost use Rattle.run_card_file.specs.CardFile.{HIGHEST, part_of, value_of};
ghost use Rattle.text.specs.Split.{split_at};

// The byte between two cards.
pub const CARD_STOP: u8 = b'%';

// Field `k` of a card; one that is left out is empty.
pub fn field(card: &[u8], k: usize) -> &[u8]
    ensures { result.now ≡ part_of 124 card.now k }
{
    text::part(card, k, b'|')
}

pub fn number_count(field: &[u8]) -> usize
    ensures { result ≡ length (split_at 44 field.now) }
{
    text::part_count(field, b',')
}

// Number `k` of a field; one that is left out is 0.
pub fn number_at(field: &[u8], k: usize) -> u32
    ensures { result ≡ value_of (part_of 44 field.now k) }
{
    number(text::part(field, k, b','))
}

// The number that digits stand for, or the highest of 32 bits where it is higher.
pub fn number(digits: &[u8]) -> u32
    ensures { result ≡ value_of digits.now }
{
    digits
        .iter()
        .fold(0, |value, byte| with_digit(value, *byte))
}

// A number with one more digit, or the highest where it is higher. A byte below that of 0 is the digit 0.
fn with_digit(value: u32, byte: u8) -> u32
    ensures { result ≡ min (value * 10 + (byte - 48)) HIGHEST }
{
    let digit = byte.saturating_sub(b'0');
    value.saturating_mul(10).saturating_add(u32::from(digit))
}
