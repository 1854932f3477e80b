//! Closures by a word.
use book_text::number;

/// What an action does with the value that it finds.
#[derive(Clone, Copy)]
pub enum Action {
    /// Gives this value.
    Set(u64),
    /// Gives the value raised by this number, which it also gives for none.
    Raise(u64),
    /// Gives none.
    Clear,
    /// Gives none for an even value, the difference from 10000 for an odd one, and this value for none.
    Turn(u64),
    /// Gives none for a value, and this value for none.
    Flip(u64),
}

/// Returns the action that a word as `=3`, `+3`, `none`, `turn:3` or `flip:3` names.
pub(crate) fn read_action(word: &str) -> Option<Action> {
    if let Some(rest) = word.strip_prefix('=') {
        return Some(Action::Set(number(rest)?));
    }
    if let Some(rest) = word.strip_prefix('+') {
        return Some(Action::Raise(number(rest)?));
    }
    if let Some(rest) = word.strip_prefix("turn:") {
        return Some(Action::Turn(number(rest)?));
    }
    if let Some(rest) = word.strip_prefix("flip:") {
        return Some(Action::Flip(number(rest)?));
    }
    if word == "none" {
        return Some(Action::Clear);
    }
    None
}

/// Returns what an action gives.
pub fn given(action: Action, found: Option<u64>) -> Option<u64> {
    match (action, found) {
        (Action::Set(value), _) => Some(value),
        (Action::Raise(by), _) => Some(found.unwrap_or(0).wrapping_add(by)),
        (Action::Clear, _) => None,
        (Action::Turn(_), Some(old)) if old % 2 == 0 => None,
        (Action::Turn(_), Some(old)) => Some(10000u64.wrapping_sub(old)),
        (Action::Flip(_), Some(_)) => None,
        (Action::Turn(value), None) | (Action::Flip(value), None) => Some(value),
    }
}

/// Writes what an action gives, if there is one and it gives a value. Returns the old value.
pub(crate) fn write(value: &mut u64, action: Option<Action>) -> u64 {
    let old = *value;
    if let Some(action) = action {
        *value = given(action, Some(old)).unwrap_or(old);
    }
    old
}

/// Returns the name of a step, and what it writes: a step as `next`, `next=3` or `next+3`.
pub(crate) fn read_step(word: &str) -> (&str, Option<Action>) {
    if let Some((name, value)) = word.split_once('=')
        && let Some(value) = number(value)
    {
        return (name, Some(Action::Set(value)));
    }
    if let Some((name, by)) = word.split_once('+')
        && let Some(by) = number(by)
    {
        return (name, Some(Action::Raise(by)));
    }
    (word, None)
}

/// Which keys a test picks.
#[derive(Clone, Copy)]
pub enum Pick {
    /// Every key.
    All,
    /// None.
    Nothing,
    /// The keys with this remainder by 2.
    Rest(u64),
    /// Two keys.
    Two(u64, u64),
}

/// Returns the test that a word as `all`, `nothing`, `even`, `odd`, `3` or `3|5` names.
pub fn read_pick(word: &str) -> Option<Pick> {
    match word {
        "all" => return Some(Pick::All),
        "nothing" => return Some(Pick::Nothing),
        "even" => return Some(Pick::Rest(0)),
        "odd" => return Some(Pick::Rest(1)),
        _ => {}
    }
    let (one, other) = word.split_once('|').unwrap_or((word, word));
    Some(Pick::Two(number(one)?, number(other)?))
}

/// Returns whether a test picks a key.
pub fn picks(pick: Pick, key: u64) -> bool {
    match pick {
        Pick::All => true,
        Pick::Nothing => false,
        Pick::Rest(rest) => key % 2 == rest,
        Pick::Two(one, other) => key == one || key == other,
    }
}

/// What a test adds to the value of each pair that it is asked about.
#[derive(Clone, Copy)]
pub(crate) enum Raise {
    /// This number.
    By(u64),
    /// How often the test was called.
    ByCalls,
}

/// Returns what is added by a word as `+3` or `+calls`. No word adds nothing.
pub(crate) fn read_raise(word: &str) -> Option<Raise> {
    match word {
        "" => Some(Raise::By(0)),
        "+calls" => Some(Raise::ByCalls),
        _ => Some(Raise::By(number(word.strip_prefix('+')?)?)),
    }
}

/// Returns a value with what the call with this number adds.
pub(crate) fn raised(raise: Raise, value: u64, calls: u64) -> u64 {
    match raise {
        Raise::By(by) => value.wrapping_add(by),
        Raise::ByCalls => value.wrapping_add(calls),
    }
}
