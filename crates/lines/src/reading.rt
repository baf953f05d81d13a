// A line of bytes read into an event, field by field.
ghost use Rattle.std.specs.Prelude.{◌≡◌, ◌≤◌, length, Some};
ghost use Rattle.lines.specs.Grammar.{event_of, fresh_of, read_line, return_of};
ghost use Rattle.lines.specs.Reading.{field_at, finished_as};

use share::{Event, Table, Terms};

// The decimal that a field is, and the place of its end.
#[derive(Clone, Copy)]
pub struct Field {
    pub value: u64,
    pub end: usize,
}

// The longest line that is read, in bytes.
pub const LONGEST: usize = 40;

const MOST_DIGITS: usize = 5;

// Three stages and no loop: that would want an array of three and a count beside it (the kit's `ArrayVec`), and these say which field may be the last.
#[tactic(auto, using(crate::proofs::Fields::stages))]
pub fn read_line(s: &[u8]) -> Option<Event>
    ensures { result ≡ read_line s.now }
{
    if LONGEST < s.len() {
        return None;
    }
    let letter = *s.first()?;
    if s.len() == 1 {
        return event_of(letter, &[]);
    }
    if s[1] != b' ' {
        return None;
    }
    let first = decimal_at(s, 2)?;
    if first.end == s.len() {
        return event_of(letter, &[first.value]);
    }
    let second = decimal_at(s, first.end + 1)?;
    if second.end == s.len() {
        return event_of(letter, &[first.value, second.value]);
    }
    let third = decimal_at(s, second.end + 1)?;
    if third.end == s.len() {
        return event_of(letter, &[first.value, second.value, third.value]);
    }
    None
}

// The field that begins at a place. It is left at the first byte that no decimal has there. By place, as the definition
// `field_at` goes. The library's `parse` takes a plus sign and leading zeros.
#[tactic(auto, using(crate::proofs::Decimals::reading))]
fn decimal_at(s: &[u8], at: usize) -> Option<Field>
    requires { at ≤ length s.now }
    ensures { result ≡ field_at s.now at }
{
    let mut value = 0;
    for i in at..s.len() {
        let byte = s[i];
        if byte == b' ' {
            return finished(at, i, value);
        }
        if !byte.is_ascii_digit() || i - at == MOST_DIGITS {
            return None;
        }
        if at < i && value == 0 {
            return None;
        }
        value = value * 10 + u64::from(byte - b'0');
    }
    finished(at, s.len(), value)
}

// A field of no bytes is no decimal.
#[tactic(auto, using(std::proofs::lemmas::Bool::Decides::nat_tests), unfolding(crate::specs::Reading::finished_as))]
fn finished(at: usize, end: usize, value: u64) -> Option<Field>
    ensures { result ≡ finished_as at end value }
{
    (at != end).then_some(Field { value, end })
}

// The event that a letter and its numbers name.
#[tactic(auto, using(crate::proofs::Naming::naming))]
fn event_of(letter: u8, numbers: &[u64]) -> Option<Event>
    ensures { result ≡ event_of letter numbers.now }
{
    match (letter, numbers) {
        (b'G', []) => Some(Event::Grant),
        (b'S', &[limit]) => Some(fresh(limit, 1, Table::DEFAULT_LENGTH)),
        (b'S', &[limit, rule]) => Some(fresh(limit, rule, Table::DEFAULT_LENGTH)),
        (b'S', &[limit, rule, default]) => Some(fresh(limit, rule, default)),
        (b'L', &[queue]) => Some(Event::Leave { queue }),
        (b'R', &[queue, length]) => Some(Event::Length { queue, length }),
        (b'J', &[queue, weight, length]) => Some(Event::Join {
            queue,
            weight,
            length,
        }),
        (b'W', &[queue, weight, length]) => Some(Event::Reweight {
            queue,
            weight,
            length,
        }),
        (b'U', &[queue, used, early]) => return_of(queue, used, early),
        _ => None,
    }
}

fn fresh(limit: u64, rule: u64, default: u64) -> Event
    ensures { Some result ≡ fresh_of limit rule default }
{
    Event::Fresh {
        terms: Terms {
            limit,
            rule,
            default,
        },
    }
}

// The early mark is 0 or 1; `bool` has no `TryFrom` of a number.
fn return_of(queue: u64, used: u64, early: u64) -> Option<Event>
    ensures { result ≡ return_of queue used early }
{
    let early = match early {
        0 => false,
        1 => true,
        _ => return None,
    };
    Some(Event::Return { queue, used, early })
}
