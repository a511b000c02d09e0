//! The names and the class numbers that stand in a text of the second version, in the order of
//! their first use: found item by item, apart from the reader.

use byteorder::{BigEndian, ByteOrder};
use indexmap::IndexSet;
use std::alloc::Global;

/// What was found so far, and the bytes behind it.
#[derive(Drop)]
pub struct Uses<'a> {
    rest: &'a [u8],
    names: IndexSet<&'a [u8]>,
    classes: IndexSet<u32>,
}

impl<'a> Uses<'a> {
    fn take(&mut self, len: usize) -> anyhow::Result<&'a [u8]> {
        let rest = self.rest;
        let (Some(front), Some(behind)) = (rest.get(..len), rest.get(len..)) else {
            anyhow::bail!("too few bytes");
        };
        self.rest = behind;
        Ok(front)
    }

    // A number of one, two or four bytes.
    fn number(&mut self, len: usize) -> anyhow::Result<u32> {
        let bytes = self.take(len)?;
        if bytes.len() == 4 {
            return Ok(BigEndian::read_u32(bytes));
        }
        if bytes.len() == 2 {
            return Ok(u32::from(BigEndian::read_u16(bytes)));
        }
        match bytes {
            [byte] => Ok(u32::from(*byte)),
            _ => anyhow::bail!("a number of another length"),
        }
    }

    fn name(&mut self) -> anyhow::Result<()> {
        let len = self.number(2)?;
        let name = self.take(len as usize)?;
        self.names.insert(name)?;
        Ok(())
    }

    fn class(&mut self) -> anyhow::Result<()> {
        let number = self.number(4)?;
        if number > 0 {
            self.classes.insert(number)?;
        }
        Ok(())
    }

    // Failed has tag 1, and then 1 stands before the name of what was thrown.
    fn end(&mut self) -> anyhow::Result<()> {
        if self.number(1)? == 1 && self.number(1)? == 1 {
            self.name()?;
        }
        Ok(())
    }

    fn entries(&mut self) -> anyhow::Result<()> {
        for _ in 0..self.number(4)? {
            self.name()?;
            self.class()?;
        }
        Ok(())
    }

    fn lines(&mut self) -> anyhow::Result<()> {
        for _ in 0..self.number(4)? {
            self.take(6)?;
        }
        Ok(())
    }

    fn record(&mut self) -> anyhow::Result<()> {
        self.name()?;
        self.name()?;
        self.take(16)?;
        self.end()?;
        self.take(8)?;
        self.entries()?;
        self.lines()
    }

    fn pool(&mut self) -> anyhow::Result<()> {
        for _ in 0..self.number(4)? {
            let len = self.number(4)?;
            self.take(len as usize)?;
        }
        Ok(())
    }

    fn records(&mut self) -> anyhow::Result<()> {
        for _ in 0..self.number(4)? {
            self.record()?;
        }
        Ok(())
    }

    /// Those of a text.
    pub fn of(alloc: Global, text: &'a [u8]) -> anyhow::Result<Uses<'a>> {
        let mut uses = Uses {
            rest: text,
            names: IndexSet::new(alloc),
            classes: IndexSet::new(alloc),
        };
        uses.take(8)?;
        uses.pool()?;
        uses.records()?;
        Ok(uses)
    }

    /// Whether the names are these, in this order.
    pub fn are_names(&self, texts: &[&[u8]]) -> bool {
        self.names.len() == texts.len() && self.names.iter().zip(texts).all(|(a, b)| a == b)
    }

    /// Whether the class numbers are those up to this one, in order.
    pub fn are_classes(&self, count: u32) -> bool {
        let mut next: u32 = 1;
        for number in self.classes.iter() {
            if *number != next {
                return false;
            }
            next = next.saturating_add(1);
        }
        next == count.saturating_add(1)
    }

    /// How many names there are.
    pub fn names(&self) -> usize {
        self.names.len()
    }
}
