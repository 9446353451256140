//! Texts with columns, whose tokens begin below one another.
use crate::tab_stops::column_after;
use crate::token::Column;
use std::alloc::{AllocError, Global};

/// Where a column begins in a line of a text.
#[derive(Clone, Copy)]
struct Stop {
    /// Where the author's blanks before it begin in the text, if they are known.
    position: usize,
    /// Where they end.
    end: usize,
    column: Column,
    /// Whether another one is before it in its line.
    is_after_other: bool,
    /// Where its line begins in the text, or the other one in that line.
    from: usize,
    /// The column that it begins in, with blanks before it.
    start: usize,
}

/// Where a stop is among the others.
#[derive(Clone, Copy, PartialEq, Eq, PartialOrd, Ord)]
struct Rank {
    start: usize,
    number: usize,
    index: usize,
}

/// A text in which columns begin.
#[derive(Drop)]
pub(crate) struct Sheet {
    alloc: Global,
    /// The text, without the blanks before columns.
    pub(crate) text: String,
    stops: Vec<Stop>,
}

impl Sheet {
    /// One with this text.
    pub(crate) fn new(alloc: Global, text: &str) -> Result<Sheet, AllocError> {
        Ok(Sheet {
            alloc,
            text: String::from_str(alloc, text)?,
            stops: Vec::new(alloc),
        })
    }

    /// Begins a column at the end of the text, after the author's blanks, or "" if others come there. If that is to the left of
    /// one that is before it in the line, blanks come there.
    pub(crate) fn begin(&mut self, column: Column, blanks: &str) -> Result<(), AllocError> {
        let position = self.text.len();
        let last = self.stops.last().copied();
        let passed = last.map_or(0, |stop| stop.end);
        let line = match self.text.get(passed..) {
            Some(text) => text.rsplit_once('\n'),
            None => None,
        };
        let (is_after_other, from) = match line {
            Some((_, line)) => (false, position.saturating_sub(line.len())),
            None => (last.is_some(), passed),
        };
        if let Some(stop) = last
            && is_after_other
            && stop.column.start >= column.start
        {
            for _ in 0..column.blanks {
                self.text.push(' ')?;
            }
            return Ok(());
        }
        self.text.push_str(blanks)?;
        self.stops.push(Stop {
            position,
            end: self.text.len(),
            column,
            is_after_other,
            from,
            start: 0,
        })?;
        Ok(())
    }

    /// The column at the end of what is before the stop, without the blanks. The stops before it are set.
    fn end_before(&self, index: usize) -> usize {
        let Some(stop) = self.stops.get(index) else {
            return 0;
        };
        let text = self.text.get(stop.from..stop.position).unwrap_or("");
        match self.stops.get(index.saturating_sub(1)) {
            Some(other) if stop.is_after_other => column_after(other.start, text),
            _ => column_after(0, text),
        }
    }

    /// The author's blanks before the stop; "" if they are not known.
    fn blanks_of(&self, stop: Stop) -> &str {
        self.text.get(stop.position..stop.end).unwrap_or("")
    }

    /// Sets where the only stop of its column begins: after the author's blanks, if they are known.
    fn set_lone_start(&mut self, index: usize) {
        let before = self.end_before(index);
        let Some(stop) = self.stops.get(index).copied() else {
            return;
        };
        let start = match self.blanks_of(stop) {
            "" => before.saturating_add(stop.column.blanks),
            blanks => column_after(before, blanks),
        };
        if let Some(stop) = self.stops.get_mut(index) {
            stop.start = start;
        }
    }

    /// Sets where the stops of one column begin: as far to the left as all can.
    fn set_start(&mut self, ranks: &[Rank]) {
        let mut end = 0usize;
        let mut blanks = usize::MAX;
        for rank in ranks {
            end = end.max(self.end_before(rank.index));
            if let Some(stop) = self.stops.get(rank.index) {
                blanks = blanks.min(stop.column.blanks);
            }
        }
        let start = end.saturating_add(blanks);
        for rank in ranks {
            if let Some(stop) = self.stops.get_mut(rank.index) {
                stop.start = start;
            }
        }
    }

    /// Sets where all stops begin, from the left.
    fn set_starts(&mut self) -> Result<(), AllocError> {
        let mut ranks = Vec::with_capacity(self.alloc, self.stops.len())?;
        for (index, stop) in self.stops.iter().enumerate() {
            ranks.push(Rank {
                start: stop.column.start,
                number: stop.column.number,
                index,
            })?;
        }
        ranks.sort_unstable();
        for column in ranks.chunk_by(|one, other| one.start == other.start
            && one.number == other.number)
        {
            match column {
                [lone] => self.set_lone_start(lone.index),
                several => self.set_start(several),
            }
        }
        Ok(())
    }

    /// Writes the blanks before a stop, after this column: the author's if they go as far, or else spaces.
    fn write_blanks(
        &self,
        written: &mut String,
        stop: Stop,
        column: usize,
    ) -> Result<(), AllocError> {
        let blanks = self.blanks_of(stop);
        if column_after(column, blanks) == stop.start {
            return Ok(written.push_str(blanks)?);
        }
        for _ in column..stop.start {
            written.push(' ')?;
        }
        Ok(())
    }

    /// The text with the blanks before its columns.
    pub(crate) fn end(mut self) -> Result<String, AllocError> {
        if self.stops.is_empty() {
            return Ok(self.text);
        }
        self.set_starts()?;
        let mut written = String::with_capacity(self.alloc, self.text.len())?;
        let mut position = 0usize;
        for (index, stop) in self.stops.iter().enumerate() {
            written.push_str(self.text.get(position..stop.position).unwrap_or(""))?;
            self.write_blanks(&mut written, *stop, self.end_before(index))?;
            position = stop.end;
        }
        written.push_str(self.text.get(position..).unwrap_or(""))?;
        Ok(written)
    }
}
