// Places of texts and records: numbers, since all stays in the lent image and nothing is copied out.
ghost use Rattle.std.specs.Prelude.{◌≡◌};

// A text place, a record number and a component number, kept apart as the crate keeps its pointers (document 01: three tuple structs).
#[derive(Clone, Copy, PartialEq, Eq, PartialOrd, Ord)]
pub struct PText(pub u32);

#[derive(Clone, Copy, PartialEq, Eq, PartialOrd, Ord)]
pub struct PBind(pub u32);

#[derive(Clone, Copy, PartialEq, Eq, PartialOrd, Ord)]
pub struct PVal(pub u32);

impl PVal {
    // The room in which its component is kept.
    pub(crate) fn room(self) -> usize
        ensures { result ≡ self.0 }
    {
        self.0 as usize
    }
}

// A part of the text table; an empty one starts at 0.
#[derive(Clone, Copy)]
pub struct Part {
    pub at: PText,
    pub len: u32,
}

// A record's numbers, its kind too, as the image has them (document 01).
#[derive(Clone, Copy)]
pub struct Entry {
    pub kind: u32,
    pub start: PText,
    pub skip: u32,
}

// The bytes where the record table and the text table begin. The image is a parameter beside it: document 01 has the walker hold it, and
// plain parameters above.
#[derive(Clone, Copy)]
pub struct Tree {
    pub records: usize,
    pub text: usize,
}

// The records from `r` up to `stop`, and where their text ends.
#[derive(Clone, Copy)]
pub struct Run {
    pub r: PBind,
    pub stop: PBind,
    pub end: PText,
}

// Counts and tables of an image.
#[derive(Clone, Copy)]
pub struct Tables {
    pub c: u32,
    pub components: usize,
    pub tree: Tree,
    pub literals: usize,
    pub last: PBind,
    pub t: PText,
}
