//! Why a model file is refused, and where.
ghost use Rattle.std.specs.Prelude.{◌≡◌};
ghost use Rattle.model_core.specs.Fault.{fault, over, offset_place};

/// The kinds of fault, by their numbers.
#[derive(Clone, Copy, Debug, PartialEq, Eq)]
pub enum ReadKind {
    /// The bytes are no TOML document.
    NotToml = 1,
    /// A table has a key that it may not have.
    UnknownKey = 2,
    /// A table lacks a key that it must have.
    MissingKey = 3,
    /// A value has another type than its key asks for.
    WrongType = 4,
    /// A text is no name, or no text in LaTeX.
    BadName = 5,
    /// An earlier group, coupling, field or table has the same name, or an earlier entry the same place.
    RepeatedName = 6,
    /// A number is out of its range, a text is no fraction, or an entry has too few or too many numbers for its place.
    BadNumber = 7,
    /// No group has this n, a field has a charge where no group is a U(1), or a slot is no group SU(n).
    BadGroup = 8,
    /// An earlier group is a U(1) too.
    SecondAbelian = 9,
    /// Representations are given under a name that no group SU(n) has, or by no word for one.
    BadRep = 10,
    /// A real scalar has a charge, or a representation other than the singlet and the adjoint.
    BadRealScalar = 11,
    /// A term's text is no sum, or has a `~` or a bracket where none may stand.
    BadTermText = 12,
    /// A word in a term's text is no field, table or `eps`.
    UnknownField = 13,
    /// A factor has too few or too many labels, lacks a bracket or has a number out of its range there; a label joins
    /// slots of different groups, or those of an `eps` aren't of one group SU(n) with n equal to their number; or
    /// flavour labels have different sizes.
    WrongSlots = 14,
    /// A label doesn't join two slots, of which one is a field's; or a flavour label isn't given, or doesn't stand once in
    /// each monomial.
    LabelCount = 15,
    /// A term doesn't have the fields that it may have, or not in all its monomials; or these don't allow its `hc`, its
    /// `value` or its `shape`.
    WrongContent = 16,
    /// There are more than a model may have.
    OverLimit = 17,
}

/// The part of a file that a fault stands in.
#[derive(Clone, Copy, Debug, PartialEq, Eq)]
pub enum Part {
    File,
    Group,
    Fermion,
    Scalar,
    Table,
    Term,
}

/// A fault and its place: the part, the element counted from 1 (0 for the file itself and for totals), the number of the
/// key in its table (0 for the element itself) or the offset of a byte in a term's text, and for a count above its limit
/// the number that was found.
#[derive(Clone, Copy, Debug, PartialEq, Eq)]
pub struct ReadFault {
    pub kind: ReadKind,
    pub part: Part,
    pub index: u32,
    pub at: u32,
    pub count: u32,
}

/// Where a fault may stand, as `ReadFault` says it.
#[derive(Clone, Copy, Debug, PartialEq, Eq)]
pub struct FaultPlace {
    pub part: Part,
    pub index: u32,
    pub at: u32,
}

impl FaultPlace {
    /// The place of an element of a part, counted from 1, or of the part as a whole by 0.
    pub fn new(part: Part, index: u32) -> FaultPlace
        ensures { result ≡ record { part = part; index = index; at = 0 } }
    {
        FaultPlace { part, index, at: 0 }
    }

    /// A fault of this kind, which isn't `OverLimit`, at this place.
    pub fn fault(self, kind: ReadKind) -> ReadFault
        ensures { result ≡ fault self kind }
    {
        ReadFault {
            kind,
            part: self.part,
            index: self.index,
            at: self.at,
            count: 0,
        }
    }

    /// The fault of a count above its limit at this place. A count above 2^32 - 1 is given as 2^32 - 1.
    pub fn over(self, count: usize) -> ReadFault
        ensures { result ≡ over self count }
    {
        ReadFault {
            kind: ReadKind::OverLimit,
            part: self.part,
            index: self.index,
            at: self.at,
            count: count.min(u32::MAX as usize) as u32,
        }
    }

    /// The place of a key of the same table, by the key's number.
    pub fn key(self, at: u32) -> FaultPlace
        ensures { result ≡ record { part = self.part; index = self.index; at = at } }
    {
        FaultPlace {
            part: self.part,
            index: self.index,
            at,
        }
    }

    /// The place of a byte in the text of a term, by its offset. One above 2^32 - 1 is given as 2^32 - 1.
    pub fn offset(self, offset: usize) -> FaultPlace
        ensures { result ≡ offset_place self offset }
    {
        self.key(offset.min(u32::MAX as usize) as u32)
    }
}
