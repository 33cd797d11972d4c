//! A small checker of outputs: it knows what was asked and what was printed, and nothing of the program.

use crate::asks::{Ask, Level, What, digits};
use serde_json::Value;
use std::alloc::Global;
use std::collections::BTreeMap;
use std::str;
use std::test::Fail;

/// What the printed answers tell, as far as they were read.
#[derive(Drop)]
pub struct Checker {
    alloc: Global,
    /// The changes that were answered, at their timestamps.
    log: BTreeMap<u64, What>,
    /// The timestamp of each caller's last write, or 0.
    mine: BTreeMap<u32, u64>,
}

/// The lines of an output, each as its value.
pub fn values(alloc: Global, output: &[u8]) -> Result<Vec<Value>, Fail> {
    let mut values = Vec::new(alloc);
    for line in output.split(|byte| *byte == b'\n') {
        if let Ok(text) = str::from_utf8(line) {
            if let Ok(value) = Value::from_str(alloc, text) {
                values.push(value)?;
            }
        }
    }
    Ok(values)
}

/// The number that a member is, or 0.
pub fn number(value: &Value, name: &str) -> u64 {
    value.get(name).and_then(Value::as_u64).unwrap_or(0)
}

/// Whether a line answers so.
pub fn is_answer(value: &Value, name: &str) -> bool {
    value.get("answer").and_then(Value::as_str) == Some(name)
}

fn is_write(what: What) -> bool {
    matches!(what, What::Insert(..) | What::Upsert(..) | What::Delete(_))
}

/// The first line that is wrong, where one is; the count of lines, where there are too few or too many.
pub fn first_wrong(alloc: Global, asks: &[Ask], output: &[u8]) -> Result<Option<usize>, Fail> {
    let values = values(alloc, output)?;
    let count = values.len();
    let (Some(created), Some(end)) = (values.first(), values.last()) else {
        return Ok(Some(count));
    };
    let whole = count == asks.len().saturating_add(2);
    if !whole || !is_answer(created, "created") || !is_answer(end, "end") {
        return Ok(Some(count));
    }
    let answers = values.get(1..).unwrap_or(&[]);
    let mut checker = Checker::new(alloc, asks, answers)?;
    checker.first_wrong(asks, answers)
}

impl Checker {
    // Writes that have one timestamp leave fewer changes than there are writes, so one of them is found
    // to be wrong.
    fn new(alloc: Global, asks: &[Ask], answers: &[Value]) -> Result<Checker, Fail> {
        let mut log = BTreeMap::new(alloc);
        for (ask, answer) in asks.iter().zip(answers) {
            if is_write(ask.what) {
                log.insert(number(answer, "ts"), ask.what)?;
            }
        }
        let mine = BTreeMap::new(alloc);
        Ok(Checker { alloc, log, mine })
    }

    fn first_wrong(&mut self, asks: &[Ask], answers: &[Value]) -> Result<Option<usize>, Fail> {
        for (at, (ask, answer)) in asks.iter().zip(answers).enumerate() {
            let line = at.saturating_add(2);
            if number(answer, "line") != line as u64 || !self.is_right(ask, answer)? {
                return Ok(Some(line));
            }
        }
        Ok(None)
    }

    /// The rows that are live behind the changes up to a timestamp, with it or without it.
    fn live_at(&self, ts: u64, with_it: bool) -> Result<BTreeMap<i64, u8>, Fail> {
        let mut rows = BTreeMap::new(self.alloc);
        for (at, what) in self.log.iter() {
            if *at < ts || (with_it && *at == ts) {
                apply(&mut rows, *what)?;
            }
        }
        Ok(rows)
    }

    fn is_right(&mut self, ask: &Ask, answer: &Value) -> Result<bool, Fail> {
        match ask.what {
            What::Insert(key, _) => self.is_written(ask, key, answer),
            What::Upsert(key, _) => self.is_written(ask, key, answer),
            What::Delete(key) => self.is_written(ask, key, answer),
            What::Search { byte, k, level } => {
                Ok(self.is_fresh(ask.caller, level, answer) && self.is_found(byte, k, answer)?)
            }
            What::Get { key, level } => {
                Ok(self.is_fresh(ask.caller, level, answer) && self.is_got(key, answer)?)
            }
            What::Tick => Ok(is_answer(answer, "ticked")),
            What::Seal => Ok(is_answer(answer, "sealed")),
            What::Meet => self.is_met(answer),
            What::Bad => Ok(is_answer(answer, "refused")),
        }
    }

    /// A write is answered as the log before it says, and stands behind the caller's last one.
    fn is_written(&mut self, ask: &Ask, key: i64, answer: &Value) -> Result<bool, Fail> {
        let ts = number(answer, "ts");
        let live = self.live_at(ts, false)?.contains_key(&key);
        let told = match ask.what {
            What::Insert(..) => is_answer(answer, if live { "exists" } else { "ok" }),
            _ => {
                let was = answer.get("was").and_then(Value::as_bool);
                is_answer(answer, "ok") && was == Some(live)
            }
        };
        let last = self.mine.insert(ask.caller, ts)?.unwrap_or(0);
        Ok(told && self.log.get(&ts) == Some(&ask.what) && last < ts)
    }

    /// A snapshot is not older than its guarantee, and the guarantee is that of the level.
    fn is_fresh(&self, caller: u32, level: Level, answer: &Value) -> bool {
        let guarantee = number(answer, "guarantee");
        let least = match level {
            Level::Strong => number(answer, "now"),
            Level::Session => self.mine.get(&caller).copied().unwrap_or(0),
            Level::Eventually => 0,
        };
        least <= guarantee && guarantee <= number(answer, "ts")
    }

    /// The hits are those of a plain scan of the live rows.
    fn is_found(&self, byte: u8, k: u32, answer: &Value) -> Result<bool, Fail> {
        let mut wanted = Vec::new(self.alloc);
        for (key, other) in self.live_at(number(answer, "ts"), true)?.iter() {
            wanted.push(((byte ^ *other).count_ones(), *key))?;
        }
        wanted.sort_unstable();
        wanted.truncate(k as usize);
        let Some(hits) = answer.get("hits").and_then(Value::as_array) else {
            return Ok(false);
        };
        let all = hits
            .iter()
            .zip(wanted.iter())
            .all(|(hit, row)| is_hit(hit, *row));
        Ok(is_answer(answer, "hits") && hits.len() == wanted.len() && all)
    }

    /// The row is the one that is live.
    fn is_got(&self, key: i64, answer: &Value) -> Result<bool, Fail> {
        let row = self.live_at(number(answer, "ts"), true)?.get(&key).copied();
        let shown = answer
            .get("row")
            .and_then(|row| row.get("vector"))
            .and_then(Value::as_str);
        let right = match row {
            Some(byte) => shown.map(str::as_bytes) == Some(digits(byte).as_slice()),
            None => answer.get("row").is_some_and(Value::is_null),
        };
        Ok(is_answer(answer, "row") && right)
    }

    /// All rows that are live are counted.
    fn is_met(&self, answer: &Value) -> Result<bool, Fail> {
        let rows = self.live_at(number(answer, "ts"), true)?.len();
        Ok(is_answer(answer, "met") && number(answer, "live") == rows as u64)
    }
}

fn apply(rows: &mut BTreeMap<i64, u8>, what: What) -> Result<(), Fail> {
    match what {
        What::Insert(key, byte) if !rows.contains_key(&key) => {
            rows.insert(key, byte)?;
        }
        What::Upsert(key, byte) => {
            rows.insert(key, byte)?;
        }
        What::Delete(key) => {
            rows.remove(&key);
        }
        _ => (),
    }
    Ok(())
}

fn is_hit(hit: &Value, row: (u32, i64)) -> bool {
    let distance = hit.get(0).and_then(Value::as_u64);
    let key = hit.get(1).and_then(Value::as_i64);
    distance == Some(u64::from(row.0)) && key == Some(row.1)
}
