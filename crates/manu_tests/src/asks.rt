//! What the lines of a random session ask, and their text.

ghost use Rattle.std.specs.Prelude.{◌<◌, ◌≤◌};

use std::alloc::{AllocError, Global};

/// How old a snapshot may be.
#[derive(Debug, Clone, Copy, PartialEq, Eq)]
pub enum Level {
    Strong,
    Session,
    Eventually,
}

impl Level {
    fn name(self) -> &'static str {
        match self {
            Level::Strong => "Strong",
            Level::Session => "Session",
            Level::Eventually => "Eventually",
        }
    }
}

/// What is asked, with vectors of one byte.
#[derive(Debug, Clone, Copy, PartialEq, Eq)]
pub enum What {
    Insert(i64, u8),
    Upsert(i64, u8),
    Delete(i64),
    Search { byte: u8, k: u32, level: Level },
    Get { key: i64, level: Level },
    Tick,
    Seal,
    Meet,
    /// No request.
    Bad,
}

/// A line behind the header.
#[derive(Debug, Clone, Copy, PartialEq, Eq)]
pub struct Ask {
    pub caller: u32,
    pub what: What,
}

/// Two hexadecimal digits.
pub fn digits(byte: u8) -> [u8; 2] {
    const DIGITS: [u8; 16] = *b"0123456789abcdef";
    [
        DIGITS[usize::from(byte >> 4)],
        DIGITS[usize::from(byte & 15)],
    ]
}

/// The line that asks this, without its LF.
fn line(alloc: Global, ask: &Ask) -> Result<Vec<u8>, AllocError> {
    let caller = ask.caller;
    let (head, byte) = match ask.what {
        What::Insert(key, byte) => (
            format!(in alloc; r#"{{"op":"insert","caller":{caller},"key":{key}"#)?,
            Some(byte),
        ),
        What::Upsert(key, byte) => (
            format!(in alloc; r#"{{"op":"upsert","caller":{caller},"key":{key}"#)?,
            Some(byte),
        ),
        What::Delete(key) => (
            format!(in alloc; r#"{{"op":"delete","caller":{caller},"key":{key}"#)?,
            None,
        ),
        What::Search { byte, k, level } => {
            let level = level.name();
            let head = format!(in alloc;
                r#"{{"op":"search","caller":{caller},"k":{k},"level":"{level}""#
            )?;
            (head, Some(byte))
        }
        What::Get { key, level } => {
            let level = level.name();
            let head = format!(in alloc;
                r#"{{"op":"get","caller":{caller},"key":{key},"level":"{level}""#
            )?;
            (head, None)
        }
        What::Tick => (
            format!(in alloc; r#"{{"op":"tick","caller":{caller}"#)?,
            None,
        ),
        What::Seal => (
            format!(in alloc; r#"{{"op":"seal","caller":{caller}"#)?,
            None,
        ),
        What::Meet => (format!(in alloc; r#"{{"op":"meet""#)?, None),
        What::Bad => (format!(in alloc; r#"{{"op":"fly""#)?, None),
    };
    let mut line = head.as_bytes().to_vec(alloc)?;
    if let Some(byte) = byte {
        line.extend_from_slice(b",\"vector\":\"")?;
        line.extend_from_slice(&digits(byte))?;
        line.push(b'"')?;
    }
    line.push(b'}')?;
    Ok(line)
}

/// The input of a header and these lines.
pub fn input_of(alloc: Global, header: &str, asks: &[Ask]) -> Result<Vec<u8>, AllocError> {
    let mut input = header.as_bytes().to_vec(alloc)?;
    input.push(b'\n')?;
    for ask in asks {
        input.extend_from_slice(&line(alloc, ask)?)?;
        input.push(b'\n')?;
    }
    Ok(input)
}

/// Random numbers from a seed.
#[derive(Debug, Clone, Copy)]
pub struct Random(pub u64);

impl Random {
    /// A number below `n`.
    fn below(&mut self, n: u32) -> u32
        requires { 1 ≤ n }
        ensures { result < n }
    {
        self.0 = self
            .0
            .wrapping_mul(6_364_136_223_846_793_005)
            .wrapping_add(1_442_695_040_888_963_407);
        ((self.0 >> 33) % u64::from(n)) as u32
    }

    fn key(&mut self) -> i64 {
        i64::from(self.below(40)) - 20
    }

    fn byte(&mut self) -> u8 {
        self.below(256) as u8
    }

    fn level(&mut self) -> Level {
        match self.below(3) {
            0 => Level::Strong,
            1 => Level::Session,
            _ => Level::Eventually,
        }
    }

    fn what(&mut self) -> What {
        match self.below(40) {
            0..=9 => What::Insert(self.key(), self.byte()),
            10..=15 => What::Upsert(self.key(), self.byte()),
            16..=20 => What::Delete(self.key()),
            21..=30 => What::Search {
                byte: self.byte(),
                k: self.below(12) + 1,
                level: self.level(),
            },
            31..=34 => What::Get {
                key: self.key(),
                level: self.level(),
            },
            35..=36 => What::Tick,
            37 => What::Seal,
            38 => What::Meet,
            _ => What::Bad,
        }
    }

    /// So many random lines of eight callers.
    pub fn asks(&mut self, alloc: Global, count: u32) -> Result<Vec<Ask>, AllocError> {
        let mut asks = Vec::new(alloc);
        for _ in 0..count {
            let caller = self.below(8);
            let what = self.what();
            asks.push(Ask { caller, what })?;
        }
        Ok(asks)
    }
}
