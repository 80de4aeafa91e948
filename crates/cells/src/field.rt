// The fields of the scratch by name. docs/LAYOUT.md says what each holds, and when; names of one field belong to different phases.

#[derive(Clone, Copy)]
pub enum Field {
    // What a pivot asks of a node stands together.
    Pe = 0,
    Len = 1,
    Want = 2,
    Elen = 3,
    Degree = 4,
    W = 5,
    Next = 6,
    Last = 7,
    // Tables, each entry beside the one of the next node.
    Head = 8,
    HHead = 9,
    HNext = 10,
    HKey = 11,
    Ord = 12,
    Merges = 13,
    Nv = 14,
}

// While a pivot is gathered.
pub const TMP: Field = Field::HKey;

// Before the elimination.
pub const SP: Field = Field::Ord;

pub const TP: Field = Field::Merges;

// After it.
pub const SIBLING: Field = Field::HHead;

pub const LARGEST: Field = Field::HNext;

pub const STACK: Field = Field::HNext;
