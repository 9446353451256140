//! Where the rest of a file is after patterns before it have changed.
use patterns_text::position::FilePosition;

/// How far the rest of a file has moved.
#[derive(Clone, Copy)]
pub struct Shift {
    /// The end of the last part that changed, in the file as it was.
    old: FilePosition,
    /// The same in the file with its changes.
    new: FilePosition,
}

impl Shift {
    /// Nothing has changed.
    pub const NONE: Shift = Shift {
        old: FilePosition::START,
        new: FilePosition::START,
    };

    /// Where in the file with its changes is what was at a position that is not before the last part that changed.
    pub fn at(self, position: FilePosition) -> FilePosition {
        let Shift { old, new } = self;
        let lines = position.line.saturating_sub(old.line);
        if lines > 0 {
            return FilePosition {
                line: new.line.saturating_add(lines),
                ..position
            };
        }
        let columns = position.column.saturating_sub(old.column);
        let characters = position.character.saturating_sub(old.character);
        FilePosition {
            line: new.line,
            column: new.column.saturating_add(columns),
            character: new.character.saturating_add(characters),
        }
    }

    /// Goes on past a part that has this position in the file as it was, and that text, and has become the other. Of a string
    /// of JSON these may be what is between the quotes, and the position that of the first quote.
    pub fn past(&mut self, start: FilePosition, old_text: &str, new_text: &str) {
        let new_start = self.at(start);
        self.old = start.after(old_text);
        self.new = new_start.after(new_text);
    }
}
