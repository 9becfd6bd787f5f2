// The kinds of what stands in a column of a file.
ghost use Rattle.std.specs.Prelude.{◌≡◌};
ghost use Rattle.vx_data.specs.declared.kind.Kind.TheVariants.{Instant, Number};
ghost use Rattle.vx_data.specs.Kinds.{instants_kind, numbers_kind, together};

/// What the values of a column are that were seen, but for nulls.
#[derive(Clone, Copy, Debug, PartialEq, Eq)]
pub enum Kind {
    /// No value was seen.
    Unknown,
    /// Truth values.
    Truth,
    /// Whole numbers and decimals.
    Number(Numbers),
    /// Numbers of which one has a point or an exponent, where decimals aren't told.
    Float,
    /// Days.
    Day,
    /// Instants.
    Instant(Instants),
    /// Texts, and what is of different kinds.
    Text,
}

/// Numbers that were seen.
#[derive(Clone, Copy, Debug, PartialEq, Eq)]
pub struct Numbers {
    /// Whether each is a whole number of `i64`.
    pub signed: bool,
    /// Whether each is a whole number of `u64`.
    pub unsigned: bool,
    /// How many digits stand before the point at most, but for a zero.
    pub whole: u8,
    /// How many digits stand behind each point, where there is one.
    pub places: Option<u8>,
}

/// Instants that were seen.
#[derive(Clone, Copy, Debug, PartialEq, Eq)]
pub struct Instants {
    /// Whether each has a zone or an offset; else none has.
    pub zoned: bool,
    /// Whether each is one of microseconds.
    pub micros: bool,
    /// Whether each is one of nanoseconds.
    pub nanos: bool,
}

impl Kind {
    /// The kind of these values and those.
    pub fn and(self, other: Kind) -> Kind
        ensures { result ≡ together self other }
    {
        match (self, other) {
            (Kind::Unknown, kind) | (kind, Kind::Unknown) => kind,
            (Kind::Truth, Kind::Truth) => Kind::Truth,
            (Kind::Number(numbers), Kind::Number(others)) => numbers.and(others),
            (Kind::Float, Kind::Float | Kind::Number(_)) | (Kind::Number(_), Kind::Float) => {
                Kind::Float
            }
            (Kind::Day, Kind::Day) => Kind::Day,
            (Kind::Instant(instants), Kind::Instant(others)) => instants.and(others),
            _ => Kind::Text,
        }
    }

    /// The kind of numbers, of which each is one of `i64` or of `u64`, or none of these, with so many digits before the
    /// point at most, and so many behind each: a decimal has no more than 38.
    pub fn of_numbers(signed: bool, unsigned: bool, whole: usize, places: Option<u8>) -> Kind
        ensures { result ≡ numbers_kind signed unsigned whole places }
    {
        let behind = usize::from(places.unwrap_or(0));
        if whole > 38 || whole + behind > 38 {
            return Kind::Text;
        }
        Kind::Number(Numbers {
            signed,
            unsigned,
            whole: whole as u8,
            places,
        })
    }
}

impl Numbers {
    // Those with a point have as many digits behind it, or they are texts.
    fn and(self, others: Numbers) -> Kind
        ensures { result ≡ together (Number self) (Number others) }
    {
        let places = match (self.places, others.places) {
            (None, places) | (places, None) => places,
            (Some(places), Some(other)) if places == other => Some(places),
            _ => return Kind::Text,
        };
        Kind::of_numbers(
            self.signed && others.signed,
            self.unsigned && others.unsigned,
            usize::from(self.whole.max(others.whole)),
            places,
        )
    }
}

impl Instants {
    // Those with a zone and those without are texts together.
    fn and(self, others: Instants) -> Kind
        ensures { result ≡ together (Instant self) (Instant others) }
    {
        if self.zoned != others.zoned {
            return Kind::Text;
        }
        let instants = Instants {
            zoned: self.zoned,
            micros: self.micros && others.micros,
            nanos: self.nanos && others.nanos,
        };
        instants.kind()
    }

    /// Their kind: one of the units has them all, or they are texts.
    pub fn kind(self) -> Kind
        ensures { result ≡ instants_kind self.zoned self.micros self.nanos }
    {
        if self.micros || self.nanos {
            Kind::Instant(self)
        } else {
            Kind::Text
        }
    }
}
