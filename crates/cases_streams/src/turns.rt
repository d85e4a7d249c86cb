//! Turns on windows: keys that come and go, by hand, drawn, and at the ends of all limits.

use crate::rules::{Rule, rule_of};
use crate::texts::{at, numbers, say, say_comma, say_number, text_of, told};
use crate::windows::{plain, try_insert, try_median, window_for};
use case_file::{Answers, Settings};
use order_window::{Key, OrderWindow};
use std::alloc::{AllocError, Global};

/// Turns on windows.
pub struct Windows;

impl Answers for Windows {
    fn answer(
        &self,
        alloc: Global,
        settings: &Settings,
        key: &str,
        input: &[u8],
    ) -> Result<Vec<u8>, AllocError> {
        let rule = rule_of(alloc, settings.text("rule"))?;
        let Some(order) = window_for(alloc, rule)? else {
            return told(alloc, "no rule of a file");
        };
        let input = text_of(input);
        let number = input.parse().unwrap_or(0);
        match key {
            "turns" => by_hand(alloc, order, input),
            "drawn" => all_drawn(alloc, rule, order, number),
            "far" => far(alloc, rule, order, settings, number),
            _ => told(alloc, "no such key"),
        }
    }
}

/// What comes of turns, which stand between commas.
fn by_hand(alloc: Global, order: OrderWindow, text: &str) -> Result<Vec<u8>, AllocError> {
    let mut order = order;
    let mut answer = Vec::new(alloc);
    for item in text.split(',') {
        say_comma(&mut answer)?;
        turn(&mut order, &mut answer, alloc, item.trim())?;
    }
    Ok(answer)
}

/// One turn: `insert VALUE TICKS`, `remove TICKS`, or `median VALUE TICKS`.
fn turn(
    order: &mut OrderWindow,
    answer: &mut Vec<u8>,
    alloc: Global,
    item: &str,
) -> Result<(), AllocError> {
    let (name, rest) = item.split_once(' ').unwrap_or((item, ""));
    let numbers = numbers(alloc, rest)?;
    let key = Key {
        value: at(numbers.as_slice(), 0),
        ticks: at(numbers.as_slice(), 1),
    };
    match name {
        "insert" => say(
            answer,
            if try_insert(order, key) {
                "in"
            } else {
                "does not fit"
            },
        ),
        "remove" => {
            let removed = order.remove(key.value);
            say_key(answer, alloc, removed)
        }
        _ => match try_median(order, key) {
            Some(median) => say_number(answer, alloc, i128::from(median)),
            None => say(answer, "none"),
        },
    }
}

/// Adds a key to an answer: its value and its ticks; or `none`.
pub(crate) fn say_key(
    answer: &mut Vec<u8>,
    alloc: Global,
    key: Option<Key>,
) -> Result<(), AllocError> {
    let Some(key) = key else {
        return say(answer, "none");
    };
    say_number(answer, alloc, i128::from(key.value))?;
    say(answer, " ")?;
    say_number(answer, alloc, i128::from(key.ticks))
}

/// The next number of a sequence, below 2^31.
fn next(state: u64) -> u64 {
    state.wrapping_mul(1_103_515_245).wrapping_add(12345) % 2_147_483_648
}

/// Takes the key of this time out, and answers whether it was this one.
fn takes_out(order: &mut OrderWindow, key: Key) -> bool {
    order.remove(key.ticks) == Some(key)
}

/// Takes out the keys that a new one leaves no room for, at first the earliest; sometimes also one from the middle. Answers
/// whether each was there, and none of the new time.
fn make_room(order: &mut OrderWindow, kept: &mut Vec<Key>, ticks: i64, state: u64) -> bool {
    let mut agree = true;
    for _ in 0..16 {
        let Some(first) = kept.first().copied() else {
            return agree;
        };
        if kept.len() <= 12 && ticks.saturating_sub(first.ticks) < order.span() {
            break;
        }
        kept.remove(0);
        agree = takes_out(order, first) && agree;
    }
    if state % 17 == 3 && kept.len() > 2 {
        let middle = kept.remove(kept.len() / 2);
        agree = takes_out(order, middle) && agree;
    }
    order.remove(ticks).is_none() && agree
}

/// Whether the median of a reading before the keys is that of all candidates.
fn is_plain(
    alloc: Global,
    rule: Rule,
    order: &OrderWindow,
    own: Key,
    kept: &[Key],
) -> Result<bool, AllocError> {
    let median = plain(alloc, rule, own, kept)?;
    Ok(median.is_some() && try_median(order, own) == median)
}

/// Keys that are drawn, and those of them that are in the window.
#[derive(Drop)]
struct Drawn {
    state: u64,
    ticks: i64,
    kept: Vec<Key>,
}

/// Draws a key, and puts it in after room was made for it. Answers whether it fits, and each that went was there.
fn draw(drawn: &mut Drawn, order: &mut OrderWindow) -> Result<bool, AllocError> {
    drawn.state = next(drawn.state);
    let more = (drawn.state / 7 % 5) as i64 * 500_000_000 + 1;
    drawn.ticks = drawn.ticks.saturating_add(more);
    let were_there = make_room(order, &mut drawn.kept, drawn.ticks, drawn.state);
    let key = Key {
        value: (drawn.state / 65536 % 40) as i64 - 20,
        ticks: drawn.ticks,
    };
    drawn.kept.push(key)?;
    Ok(try_insert(order, key) && were_there)
}

/// A reading just before the first key, of half the value of the last one.
fn own_before(kept: &[Key]) -> Key {
    let ticks = kept.first().map_or(0, |key| key.ticks);
    let value = kept.last().map_or(0, |key| key.value);
    Key {
        value: value / 2,
        ticks: ticks.saturating_sub(1),
    }
}

/// How many of 500 medians are those of all candidates, as drawn keys come and go.
fn all_drawn(
    alloc: Global,
    rule: Rule,
    order: OrderWindow,
    seed: i64,
) -> Result<Vec<u8>, AllocError> {
    let mut order = order;
    let mut drawn = Drawn {
        state: seed.cast_unsigned(),
        ticks: 0,
        kept: Vec::new(alloc),
    };
    let mut agree = 0u32;
    for _ in 0..500 {
        let fits = draw(&mut drawn, &mut order)?;
        let own = own_before(drawn.kept.as_slice());
        if is_plain(alloc, rule, &order, own, drawn.kept.as_slice())? && fits {
            agree = agree.saturating_add(1);
        }
    }
    let mut answer = Vec::new(alloc);
    say_number(&mut answer, alloc, i128::from(agree))?;
    say(&mut answer, " medians of all candidates")?;
    Ok(answer)
}

/// Puts the keys of a text in, and takes them out. They stand between commas: each a value, and the part of the window after
/// which it comes. Tells how many fit, how many medians are those of all candidates, and whether all came out once.
fn far(
    alloc: Global,
    rule: Rule,
    order: OrderWindow,
    settings: &Settings,
    start: i64,
) -> Result<Vec<u8>, AllocError> {
    let mut order = order;
    let own = numbers(alloc, settings.text("own"))?;
    let mut kept: Vec<Key> = Vec::new(alloc);
    let mut agree = 0u32;
    for item in settings.text("keys").split(',') {
        let key = far_key(rule, start, numbers(alloc, item)?.as_slice());
        if try_insert(&mut order, key) {
            kept.push(key)?;
        }
        let more = agreeing(alloc, rule, &order, kept.as_slice(), start, own.as_slice())?;
        agree = agree.saturating_add(more);
    }
    let is_out = all_out(&mut order, kept.as_slice());
    told_far(alloc, kept.len(), agree, is_out)
}

/// A key after a part of the window.
fn far_key(rule: Rule, start: i64, numbers: &[i64]) -> Key {
    let after = rule.window.checked_div(at(numbers, 1)).unwrap_or(1);
    Key {
        value: at(numbers, 0),
        ticks: start.saturating_add(after.max(1)),
    }
}

/// How many keys fit, how many medians are those of all candidates, and whether all came out.
fn told_far(alloc: Global, keys: usize, agree: u32, is_out: bool) -> Result<Vec<u8>, AllocError> {
    let mut answer = Vec::new(alloc);
    say_number(&mut answer, alloc, keys as i128)?;
    say(&mut answer, " keys, ")?;
    say_number(&mut answer, alloc, i128::from(agree))?;
    say(&mut answer, " medians of all candidates")?;
    if !is_out {
        say(&mut answer, ", not taken out")?;
    }
    Ok(answer)
}

/// How many of the medians of readings of these values are those of all candidates.
fn agreeing(
    alloc: Global,
    rule: Rule,
    order: &OrderWindow,
    kept: &[Key],
    ticks: i64,
    values: &[i64],
) -> Result<u32, AllocError> {
    let mut agree = 0u32;
    for value in values {
        let own = Key {
            value: *value,
            ticks,
        };
        if is_plain(alloc, rule, order, own, kept)? {
            agree = agree.saturating_add(1);
        }
    }
    Ok(agree)
}

/// Takes all keys out. Answers whether each was there once, and none is left.
fn all_out(order: &mut OrderWindow, kept: &[Key]) -> bool {
    let mut agree = true;
    for key in kept {
        agree = takes_out(order, *key) && agree;
        agree = order.remove(key.ticks).is_none() && agree;
    }
    agree && order.keys().is_empty()
}
