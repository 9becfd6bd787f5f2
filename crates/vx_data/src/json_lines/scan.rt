// Where a value ends.

/// How much of a value is read: what tells where it ends, whether it is JSON or not.
#[derive(Clone, Copy, Debug, PartialEq, Eq)]
pub(crate) struct Scan {
    // How many arrays and objects are open.
    open: u64,
    is_text: bool,
    // Whether the next character of the text is no end of it.
    is_escaped: bool,
    is_begun: bool,
    is_whole: bool,
}

/// Where a byte stands.
#[derive(Clone, Copy, Debug, PartialEq, Eq)]
enum Place {
    Inside,
    /// It is the last of the value.
    Last,
    Behind,
}

impl Scan {
    /// Nothing is read.
    pub(crate) fn new() -> Scan {
        Scan {
            open: 0,
            is_text: false,
            is_escaped: false,
            is_begun: false,
            is_whole: false,
        }
    }

    /// The brace is read that opens an object.
    pub(crate) fn of_object() -> Scan {
        Scan {
            open: 1,
            is_begun: true,
            ..Scan::new()
        }
    }

    /// Whether all of the value is read.
    pub(crate) fn is_whole(&self) -> bool {
        self.is_whole
    }

    /// Reads the bytes up to the value's end, and gives those that are of it.
    pub(crate) fn read<'a>(&mut self, bytes: &'a [u8]) -> &'a [u8] {
        for (i, byte) in bytes.iter().enumerate() {
            let end = match self.place_of(*byte) {
                Place::Inside => {
                    self.is_begun = true;
                    continue;
                }
                Place::Last => i.saturating_add(1),
                Place::Behind => i,
            };
            self.is_whole = true;
            return bytes.get(..end).unwrap_or(bytes);
        }
        bytes
    }

    fn place_of(&mut self, byte: u8) -> Place {
        if self.is_text {
            return self.place_in_text(byte);
        }
        match byte {
            b'"' => {
                self.is_text = true;
                Place::Inside
            }
            b'{' | b'[' => {
                self.open = self.open.saturating_add(1);
                Place::Inside
            }
            b'}' | b']' if self.open > 0 => {
                self.open -= 1;
                self.last_if_none_is_open()
            }
            b'}' | b']' | b',' | b' ' | b'\t' | b'\n' | b'\r' if self.open == 0 => {
                if self.is_begun {
                    Place::Behind
                } else {
                    Place::Last
                }
            }
            _ => Place::Inside,
        }
    }

    fn place_in_text(&mut self, byte: u8) -> Place {
        if self.is_escaped {
            self.is_escaped = false;
            return Place::Inside;
        }
        match byte {
            b'\\' => {
                self.is_escaped = true;
                Place::Inside
            }
            b'"' => {
                self.is_text = false;
                self.last_if_none_is_open()
            }
            _ => Place::Inside,
        }
    }

    fn last_if_none_is_open(&self) -> Place {
        if self.open == 0 {
            Place::Last
        } else {
            Place::Inside
        }
    }
}
