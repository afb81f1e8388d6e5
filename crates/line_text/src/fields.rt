ghost use Rattle.std.specs.Prelude.{◌≡◌, ◌∷◌, [], length, IfSome, IfNone};
ghost use Rattle.line_text.specs.Fields.{fields_of, has_empty_field};

use memchr::memchr;
use std::marker::Model;

/// The fields of a line that are still to be read. Contracts see them as a list.
#[derive(Drop)]
pub struct Fields<'a> {
    rest: Option<&'a [u8]>,
}

impl<'a> Model for Fields<'a> {
    ghost use Rattle.std.specs.Prelude.{List, ℕ};
    ghost use Rattle.line_text.specs.Fields.{fields_in};

    ghost Value = { List (List ℕ) };

    ghost view = { λ f. fields_in f.rest };
}

impl<'a> Fields<'a> {
    /// All fields of a line.
    pub fn of(line: &'a [u8]) -> Fields<'a>
        ensures { result ≡ fields_of line.now }
    {
        Fields { rest: Some(line) }
    }

    /// The next field.
    pub fn next(&mut self) -> Option<&'a [u8]>
        ensures some { IfSome result (λ field. self.old ≡ field.now ∷ self.new) }
        ensures none { IfNone result ((self.old ≡ []) × (self.new ≡ [])) }
    {
        let rest = self.rest?;
        match memchr(b' ', rest) {
            Some(end) => {
                self.rest = Some(&rest[end + 1..]);
                Some(&rest[..end])
            }
            None => {
                self.rest = None;
                Some(rest)
            }
        }
    }
}

/// How many fields a line has, and whether one of them is empty.
#[derive(Clone, Copy, Debug)]
pub struct Survey {
    pub count: usize,
    /// Two spaces stand together, or one at an end, or the line is empty.
    pub has_empty: bool,
}

impl Survey {
    /// Counts the fields of a line.
    pub fn of(line: &[u8]) -> Survey
        ensures count { result.count ≡ length (fields_of line.now) }
        ensures empty { result.has_empty ≡ has_empty_field (fields_of line.now) }
    {
        let mut fields = Fields::of(line);
        let mut count = 0;
        let mut has_empty = false;
        while let Some(field) = fields.next() {
            count += 1;
            has_empty |= field.is_empty();
        }
        Survey { count, has_empty }
    }
}
