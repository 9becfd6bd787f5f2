// What expressions by chance give.
use vx_dtype::PType;
use vx_sql::Dialect;

/// What an expression gives.
#[derive(Clone, Copy)]
pub enum Kind {
    Truth,
    Number(PType),
    Text,
    Octets,
    Measure(Measure),
    Pair,
}

/// Days, decimals, instants and floats.
#[derive(Clone, Copy)]
pub enum Measure {
    Day,
    /// A decimal of few digits.
    Price,
    /// One of as many as there may be.
    Amount,
    /// An instant without a zone.
    Clock,
    /// One in a zone.
    Moment,
    /// A float of 32 bits.
    Single,
    /// One of 64.
    Double,
}

/// The number types, of which SQLite has all but the last.
pub const NUMBERS: [PType; 8] = [
    PType::U8,
    PType::U16,
    PType::U32,
    PType::I8,
    PType::I16,
    PType::I32,
    PType::I64,
    PType::U64,
];

pub const MEASURES: [Measure; 7] = [
    Measure::Day,
    Measure::Price,
    Measure::Amount,
    Measure::Clock,
    Measure::Moment,
    Measure::Single,
    Measure::Double,
];

/// Whether the engine's table has pairs.
pub fn has_pairs(dialect: Dialect) -> bool {
    match dialect {
        Dialect::Postgres => true,
        Dialect::Sqlite | Dialect::DuckDb | Dialect::Spark | Dialect::ClickHouse => false,
    }
}

/// Whether measures have a text in the engine: where they have none, its table has them as texts.
pub fn has_measures(dialect: Dialect) -> bool {
    match dialect {
        Dialect::Postgres | Dialect::DuckDb | Dialect::Spark => true,
        Dialect::Sqlite | Dialect::ClickHouse => false,
    }
}

// What is known of a kind.
#[derive(Clone, Copy)]
struct Known {
    // The columns that have such values, the second without null.
    columns: [&'static str; 2],
    // The source text of the type, without null.
    type_text: &'static str,
    // The types of the columns in PostgreSQL, by which the tables of DuckDB and Spark are told, too, and in
    // ClickHouse.
    postgres: &'static str,
    clickhouse: &'static str,
}

impl Known {
    fn new(
        columns: [&'static str; 2],
        type_text: &'static str,
        postgres: &'static str,
        clickhouse: &'static str,
    ) -> Known {
        Known {
            columns,
            type_text,
            postgres,
            clickhouse,
        }
    }

    fn of_number(p: PType) -> Known {
        let (columns, postgres, clickhouse) = match p {
            PType::U8 => (["u8", "u8n"], "smallint", "UInt8"),
            PType::U16 => (["u16", "u16n"], "integer", "UInt16"),
            PType::U32 => (["u32", "u32n"], "bigint", "UInt32"),
            PType::U64 => (["u64", "u64n"], "numeric(20, 0)", "UInt64"),
            PType::I8 => (["i8", "i8n"], "smallint", "Int8"),
            PType::I16 => (["i16", "i16n"], "smallint", "Int16"),
            PType::I32 => (["i32", "i32n"], "integer", "Int32"),
            PType::I64 => (["i64", "i64n"], "bigint", "Int64"),
        };
        Known::new(columns, p.as_str(), postgres, clickhouse)
    }

    fn of_measure(measure: Measure) -> Known {
        let (columns, type_text, postgres) = match measure {
            Measure::Day => (["d", "`the day`"], "date", "date"),
            Measure::Price => (["price", "pricen"], "decimal(7, 2)", "numeric(7, 2)"),
            Measure::Amount => (["amount", "amountn"], "decimal(38, 10)", "numeric(38, 10)"),
            Measure::Clock => (["clock", "clockn"], "timestamp(us)", "timestamp(6)"),
            Measure::Moment => (
                ["moment", "momentn"],
                "timestamp(ms, \"UTC\")",
                "timestamptz(3)",
            ),
            Measure::Single => (["single", "singlen"], "f32", "real"),
            Measure::Double => (["double", "doublen"], "f64", "double precision"),
        };
        Known::new(columns, type_text, postgres, "String")
    }
}

impl Kind {
    fn known(self) -> Known {
        match self {
            Kind::Truth => Known::new(["b", "`from`"], "bool", "boolean", "UInt8"),
            Kind::Text => Known::new(["s", "`it's \"t\"`"], "utf8", "text", "String"),
            Kind::Octets => Known::new(["x", "`X``x\\ \n1`"], "binary", "bytea", "String"),
            Kind::Pair => Known::new(["p", "q"], "{f=i32?, g=utf8?}", "pair", "String"),
            Kind::Number(p) => Known::of_number(p),
            Kind::Measure(measure) => Known::of_measure(measure),
        }
    }

    /// The columns of the scope that have such values, the second without null. ClickHouse has no name with
    /// a backslash.
    pub fn columns(self, dialect: Dialect) -> [&'static str; 2] {
        match (self, dialect) {
            (Kind::Octets, Dialect::ClickHouse) => ["x", "`X``x/ \n1`"],
            _ => self.known().columns,
        }
    }

    /// The type of such values, without null.
    pub fn type_text(self) -> &'static str {
        self.known().type_text
    }

    /// The type of the engine's columns of such values, told without the texts of `vx_sql`.
    pub fn column_type(self, dialect: Dialect) -> &'static str {
        match dialect {
            Dialect::Postgres | Dialect::DuckDb | Dialect::Spark => self.known().postgres,
            Dialect::ClickHouse => self.known().clickhouse,
            Dialect::Sqlite => match self {
                Kind::Truth => "boolean",
                Kind::Number(_) => "integer",
                Kind::Octets => "blob",
                Kind::Text | Kind::Measure(_) | Kind::Pair => "text",
            },
        }
    }
}
