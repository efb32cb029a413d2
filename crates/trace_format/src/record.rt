// The records of a trace.
ghost use Rattle.std.specs.Prelude.{◌≡◌, IfSome, IfNone};
ghost use Rattle.trace_format.specs.Kinds.{tag_of, payload_len, IsUnknown};
ghost use Rattle.trace_format.specs.Bytes.{kind_of};

// What a record asks for.
#[derive(Clone, Copy, PartialEq, Eq, Debug)]
pub enum Kind {
    Populate,
    Release,
    Protect,
    Touch,
    Try,
    Census,
}

// A record with its numbers.
#[derive(Clone, Copy, PartialEq, Eq, Debug)]
pub enum Record {
    Populate { address: u64, attributes: u16 },
    Release { address: u64 },
    Protect { address: u64, attributes: u16 },
    Touch { address: u64, access: u8 },
    Try { address: u64 },
    Census,
}

impl Record {
    pub fn kind(self) -> Kind
        ensures { result ≡ kind_of self }
    {
        match self {
            Record::Populate { .. } => Kind::Populate,
            Record::Release { .. } => Kind::Release,
            Record::Protect { .. } => Kind::Protect,
            Record::Touch { .. } => Kind::Touch,
            Record::Try { .. } => Kind::Try,
            Record::Census => Kind::Census,
        }
    }
}

impl Kind {
    // The kind of a tag; there is none of any tag but 1 to 6.
    pub fn of_tag(tag: u8) -> Option<Kind>
        ensures known { IfSome result (λ kind. tag_of kind ≡ tag) }
        ensures unknown { IfNone result (IsUnknown tag) }
    {
        match tag {
            1 => Some(Kind::Populate),
            2 => Some(Kind::Release),
            3 => Some(Kind::Protect),
            4 => Some(Kind::Touch),
            5 => Some(Kind::Try),
            6 => Some(Kind::Census),
            _ => None,
        }
    }

    // How many bytes the payload of such a record has.
    pub fn payload_len(self) -> usize
        ensures { result ≡ payload_len self }
    {
        match self {
            Kind::Populate | Kind::Protect => 10,
            Kind::Release | Kind::Try => 8,
            Kind::Touch => 9,
            Kind::Census => 0,
        }
    }
}
