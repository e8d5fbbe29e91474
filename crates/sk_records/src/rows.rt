// The lines of a record, by their places in the held text.
ghost use Rattle.std.specs.Prelude.{◌≡◌, ◌≤◌, ◌<◌, ◌+◌, ◌^◌};
ghost use Rattle.sk_records.specs.Holding.Marks.{role_place, role_at, mark_of, mark_number, mark_role, mark_end, bare_mark};
ghost use Rattle.sk_records.specs.Holding.Held.{bytes_at, IsWithin, RowWithin, row_of, number_held};

/// The last place that a held text may have: past it memory is wanting.
pub(crate) const LAST_PLACE: usize = 0xffff_ffff;

/// The last number that a line of a record may have: past it memory is wanting.
pub(crate) const LAST_NUMBER: usize = 0x0fff_ffff;

// What a mark's code is split by: a role's place and the length of a line's end are below it.
const SPLIT: u32 = 4;

/// What a line is in its record. No call takes or gives it: contracts name it.
#[derive(Clone, Copy)]
pub enum Role {
    /// A line of no remap list.
    Plain,
    /// The line that opens or shuts a remap list.
    Brace,
    /// An entry of a remap list.
    Entry,
}

impl Role {
    // Its place among the roles.
    fn place(self) -> u32
        ensures { result ≡ role_place self }
    {
        match self {
            Role::Plain => 0,
            Role::Brace => 1,
            Role::Entry => 2,
        }
    }

    // The role at a place.
    fn at(place: u32) -> Role
        ensures { result ≡ role_at place }
    {
        match place {
            0 => Role::Plain,
            1 => Role::Brace,
            _ => Role::Entry,
        }
    }
}

/// Where a line stands in the held text: its body, then its end.
#[derive(Clone, Copy)]
pub(crate) struct Span {
    pub(crate) start: u32,
    pub(crate) body_end: u32,
    pub(crate) end: u32,
}

impl Span {
    /// The line's body.
    pub(crate) fn body(self, text: &[u8]) -> &[u8]
        requires { IsWithin text.now self }
        ensures { result.now ≡ bytes_at text.now self.start self.body_end }
    {
        &text[self.start as usize..self.body_end as usize]
    }
}

/// What is known of a line beside its places: its number where it was read, from 1, or 0 where a call added the line; its role; the
/// length of its end.
///
/// The three stand in one number, since a text may have a row for each of its 2^26 bytes: a row of twelve bytes leaves room for such a
/// text within 10^9 bytes of memory, and the next larger one, of sixteen, doesn't.
#[derive(Clone, Copy)]
pub(crate) struct Mark {
    code: u32,
}

impl Mark {
    #[tactic(auto, unfolding(crate::specs::Holding::Marks::mark_of))]
    fn of(number: u32, role: Role, end_len: u32) -> Mark
        requires few { number < 2 ^ 28 }
        requires short { end_len < 4 }
        ensures { result ≡ mark_of number role end_len }
    {
        Mark {
            code: (number * SPLIT + role.place()) * SPLIT + end_len,
        }
    }

    /// The line's number.
    #[tactic(auto, unfolding(crate::specs::Holding::Marks::mark_number))]
    pub(crate) fn number(self) -> u32
        ensures number { result ≡ mark_number self }
        ensures few { result < 2 ^ 28 }
    {
        self.code / SPLIT / SPLIT
    }

    /// What the line is.
    #[tactic(auto, unfolding(crate::specs::Holding::Marks::mark_role))]
    pub(crate) fn role(self) -> Role
        ensures { result ≡ mark_role self }
    {
        Role::at(self.code / SPLIT % SPLIT)
    }

    /// The length of the line's end.
    #[tactic(auto, unfolding(crate::specs::Holding::Marks::mark_end))]
    pub(crate) fn end_len(self) -> u32
        ensures len { result ≡ mark_end self }
        ensures short { result < 4 }
    {
        self.code % SPLIT
    }

    /// The mark of the same line without its number.
    pub(crate) fn bare(self) -> Mark
        ensures { result ≡ bare_mark self }
    {
        Mark::of(0, self.role(), self.end_len())
    }
}

/// A line of a record: where it stands in the held text, and its mark.
#[derive(Clone, Copy)]
pub(crate) struct Row {
    pub(crate) start: u32,
    pub(crate) body_end: u32,
    pub(crate) mark: Mark,
}

impl Row {
    /// The line that stands at some places.
    pub(crate) fn of(span: Span, role: Role, number: u32) -> Row
        requires order { span.body_end ≤ span.end }
        requires short { span.end ≤ span.body_end + 2 }
        requires few { number < 2 ^ 28 }
        ensures { result ≡ row_of span role number }
    {
        Row {
            start: span.start,
            body_end: span.body_end,
            mark: Mark::of(number, role, span.end - span.body_end),
        }
    }

    /// Where the line's end ends.
    pub(crate) fn end(self) -> usize
        ensures { result ≡ self.body_end + mark_end self.mark }
    {
        self.body_end as usize + self.mark.end_len() as usize
    }

    /// The line's body.
    pub(crate) fn body(self, text: &[u8]) -> &[u8]
        requires { RowWithin text.now self }
        ensures { result.now ≡ bytes_at text.now self.start self.body_end }
    {
        &text[self.start as usize..self.body_end as usize]
    }

    /// The line's number as it was read.
    pub(crate) fn read_number(self) -> Option<usize>
        ensures { result ≡ number_held (mark_number self.mark) }
    {
        let number = self.mark.number();
        if number == 0 {
            None
        } else {
            Some(number as usize)
        }
    }
}
